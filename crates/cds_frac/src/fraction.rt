//! An exact number.
ghost use Rattle.std.specs.Prelude.{◌≡◌, ℕ, ◌*◌, ◌<◌, ◌≤◌, pos, ◌+ℤ◌, ◌*ℤ◌, ◌≤ℤ◌, ◌<ℤ◌, unsigned_abs, IsTrue, ◌↔◌, IfSome, IfNone, IfOk};
ghost use Rattle.std.specs.Option.{SomeIff};
ghost use Rattle.std.specs.Ordering.{as_partial_cmp};
ghost use Rattle.cds_frac.specs.Divisors.{AreCoprime};
ghost use Rattle.cds_frac.specs.Fraction.{Fraction, IsFrac, IsInRange, IsSameNumber, IsProduct, lowest_terms, product_of, floor_of, with_sign};
ghost use Rattle.cds_frac.specs.Decimals.{decimal_text};
ghost use Rattle.cds_frac.specs.FractionOrder.{ratio_cmp, fraction_cmp, fraction_eq};
ghost use Rattle.cds_frac.specs.FractionLaws.{fraction_cmp_total, fraction_eq-is, fraction_eq_equiv, fraction_partial_order};
ghost use Rattle.std.specs.Cmp.{partial_equiv_from_equiv};
ghost use Rattle.std.proofs.Common.{refl};

use crate::compare::compare_ratios;
use crate::decimals::{MOST_DECIMALS, push_fraction, sign_before};
use crate::divisors::gcd;
use cds_base::{NoMemory, Text};
use std::alloc::Global;
use std::cmp::Ordering;
use std::marker::Model;

/// Both parts of a `Frac` stay below this number in absolute value, 2^126.
pub const PART_LIMIT: u128 = 1 << 126;

/// An exact number: a numerator over a denominator of at least 1, in lowest terms, both below
/// `PART_LIMIT` in absolute value. Equal numbers are equal `Frac`s, and `Frac`s are ordered as numbers.
#[derive(Clone, Copy, Debug)]
pub struct Frac {
    num: i128,
    den: u128,
}

impl Model for Frac {
    ghost use Rattle.cds_frac.specs.Fraction.{Fraction, IsFrac};

    ghost Value = { Fraction };

    ghost view = { λ f. record { num = f.num; den = f.den } };

    ghost invariant = { λ f. IsFrac (record { num = f.num; den = f.den }) };

    ghost inverse = { λ f. record { num = f.num; den = f.den } };
}

impl Frac {
    /// The number `num / den`.
    pub fn new(num: i128, den: i128) -> Frac
        requires positive { pos 1 ≤ℤ den }
        requires num_in_range { unsigned_abs num < PART_LIMIT }
        requires den_in_range { unsigned_abs den < PART_LIMIT }
        ensures { result ≡ lowest_terms num (unsigned_abs den) }
    {
        let (size, whole) = (num.unsigned_abs(), den.unsigned_abs());
        let common = gcd(size, whole);
        Frac::from_parts(num, size / common, whole / common)
    }

    /// The numerator of the number in lowest terms. It has the sign of the number.
    pub fn num(&self) -> i128
        ensures value { result ≡ self.now.num }
        ensures shape { IsFrac self.now }
    {
        self.num
    }

    /// The denominator of the number in lowest terms, at least 1.
    pub fn den(&self) -> i128
        ensures value { result ≡ pos self.now.den }
        ensures shape { IsFrac self.now }
    {
        self.den as i128
    }

    /// The number times `u / v`. None exactly where a part of the product in lowest terms is
    /// `PART_LIMIT`, 2^126, or more.
    pub fn times(&self, u: u32, v: u32) -> Option<Frac>
        requires { 1 ≤ v }
        ensures { SomeIff result (IsInRange (product_of self.now u v)) (product_of self.now u v) }
    {
        let size = self.num.unsigned_abs();
        let parts = product_parts(size, self.den, u128::from(u), u128::from(v));
        let Some((size, den)) = parts else {
            return None;
        };
        Some(Frac::from_parts(self.num, size, den))
    }

    /// The greatest whole number that isn't above the number: it is rounded down, also below 0.
    pub fn floor(&self) -> i128
        ensures value { result ≡ floor_of self.now }
        ensures not_above { (result *ℤ pos self.now.den) ≤ℤ self.now.num }
        ensures next_above { self.now.num <ℤ ((result +ℤ pos 1) *ℤ pos self.now.den) }
    {
        self.num.div_euclid(self.den as i128)
    }

    /// The number as a decimal number with `k` decimals, at most `MOST_DECIMALS`: `-` where it is below 0,
    /// the whole part, and for `k > 0` a point and the decimals. It is cut towards 0 and never rounded, and a
    /// number below 0 keeps its sign also where it shows as zero, as `-0.00`. Err only for want of memory.
    pub fn digits(&self, alloc: Global, k: u32) -> Result<Text, NoMemory>
        requires { k ≤ MOST_DECIMALS }
        ensures { IfOk result (λ text. text ≡ decimal_text self.now k) }
    {
        let size = self.num.unsigned_abs();
        let sign = sign_before(self.num);
        let whole = size / self.den;
        let mut text = format!(in alloc; "{sign}{whole}")?;
        push_fraction(&mut text, size % self.den, self.den, k)?;
        Ok(Text::from_string(text))
    }

    // Whether the two have the same numerator and the same denominator.
    fn has_parts_of(&self, other: &Frac) -> bool
        ensures parts { result ≡ fraction_eq self.now other.now }
        ensures shape { IsFrac self.now × IsFrac other.now }
    {
        self.num == other.num && self.den == other.den
    }

    // How the number stands to another, by the signs and then by the sizes.
    fn compare_number(&self, other: &Frac) -> Ordering
        ensures cross_products { result ≡ ratio_cmp self.now.num self.now.den other.now.num other.now.den }
        ensures shape { IsFrac self.now × IsFrac other.now }
    {
        let (size, other_size) = (self.num.unsigned_abs(), other.num.unsigned_abs());
        match (self.num < 0, other.num < 0) {
            (false, true) => Ordering::Greater,
            (true, false) => Ordering::Less,
            (false, false) => compare_ratios(size, self.den, other_size, other.den),
            (true, true) => compare_ratios(other_size, other.den, size, self.den),
        }
    }

    // The number `size / den` with the sign of `sign`, where the two parts are in lowest terms.
    fn from_parts(sign: i128, size: u128, den: u128) -> Frac
        requires positive { 0 < den }
        requires coprime { AreCoprime size den }
        requires size_in_range { size < PART_LIMIT }
        requires den_in_range { den < PART_LIMIT }
        ensures { result ≡ record { num = with_sign sign size; den = den } }
    {
        Frac {
            num: with_sign_of(sign, size),
            den,
        }
    }
}

impl PartialEq for Frac {
    ghost eq = { fraction_eq };

    ghost laws = { partial_equiv_from_equiv fraction_eq_equiv };

    /// Whether the two are one number.
    fn eq(&self, other: &Frac) -> bool
        ensures parts { result ≡ fraction_eq self.now other.now }
        ensures one_number { IsTrue result ↔ IsSameNumber self.now other.now }
    {
        self.has_parts_of(other)
    }
}

impl Eq for Frac {
    ghost laws = { fraction_eq_equiv };
}

impl PartialOrd for Frac {
    ghost partial_cmp = { as_partial_cmp fraction_cmp };

    ghost laws = { fraction_partial_order };

    fn partial_cmp(&self, other: &Frac) -> Option<Ordering> {
        Some(self.cmp(other))
    }
}

impl Ord for Frac {
    ghost cmp = { fraction_cmp };

    ghost total = { fraction_cmp_total };

    ghost matches_partial_cmp = { λ f g. refl };

    ghost matches_eq = { fraction_eq-is };

    /// The order of the two numbers, for all values.
    fn cmp(&self, other: &Frac) -> Ordering
        ensures order { result ≡ fraction_cmp self.now other.now }
        ensures cross_products { result ≡ ratio_cmp self.now.num self.now.den other.now.num other.now.den }
    {
        self.compare_number(other)
    }
}

/// The product of two factors. None exactly where it is `PART_LIMIT`, 2^126, or more. It takes no memory.
pub fn product_below_limit(a: u128, b: u128) -> Option<u128>
    ensures { SomeIff result (a * b < PART_LIMIT) (a * b) }
{
    let product = a.checked_mul(b)?;
    if product < PART_LIMIT {
        Some(product)
    } else {
        None
    }
}

/// The parts of `size / den` times `u / v` in lowest terms, where `size / den` is in lowest terms. None exactly
/// where one of them is `PART_LIMIT` or more. Common divisors are cancelled before the products are formed.
fn product_parts(size: u128, den: u128, u: u128, v: u128) -> Option<(u128, u128)>
    requires positive { (0 < den) × (0 < v) }
    requires coprime { AreCoprime size den }
    ensures parts { IfSome result (λ p. IsProduct size den u v p.0 p.1) }
    ensures in_range { IfSome result (λ p. (p.0 < PART_LIMIT) × (p.1 < PART_LIMIT)) }
    ensures too_large { IfNone result ((n d : ℕ) → IsProduct size den u v n d → n < PART_LIMIT → d < PART_LIMIT → ⊥) }
{
    let common = gcd(u, v);
    let (u, v) = (u / common, v / common);
    let above = gcd(size, v);
    let below = gcd(u, den);
    let Some(top) = product_below_limit(size / above, u / below) else {
        return None;
    };
    let Some(bottom) = product_below_limit(den / below, v / above) else {
        return None;
    };
    Some((top, bottom))
}

/// The number of this size with the sign of `sign`.
fn with_sign_of(sign: i128, size: u128) -> i128
    requires { size < PART_LIMIT }
    ensures { result ≡ with_sign sign size }
{
    if sign < 0 {
        -(size as i128)
    } else {
        size as i128
    }
}
