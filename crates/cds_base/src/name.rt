ghost use Rattle.std.specs.Prelude.{◌≡◌, ◌≤◌, ◌==◌, length};
ghost use Rattle.std.proofs.Common.{rules};
ghost use Rattle.std.specs.Cmp.{partial_order_from_own_ties};
ghost use Rattle.std.specs.Cmp.Rules.{comparing};
ghost use Rattle.std.specs.Cmp.Lexicographic.{slice_cmp, pointwise};
ghost use Rattle.std.specs.Ordering.{nat_cmp, as_partial_cmp};
ghost use Rattle.std.specs.List.{list_all};
ghost use Rattle.cds_base.specs.NameText.{name_of, is_name, is_name_byte, padded_name, IsName};

use crate::source::put_front;
use std::cmp::Ordering;
use std::marker::Model;

/// The most bytes of a name.
pub const MOST_NAME_BYTES: usize = 64;

/// The first of the three marks that may stand in a name beside letters and digits.
pub const HYPHEN: u8 = b'-';

/// The second of the three marks.
pub const UNDERSCORE: u8 = b'_';

/// The third of the three marks.
pub const FULL_STOP: u8 = b'.';

/// The name of a trace, a method, a sequence, a component or a row: 1 to 64 of the ASCII letters, the digits,
/// `-`, `_` and `.`. It holds its bytes itself, so it is copied as a number is. Seen as its bytes; names are
/// ordered as their bytes are. This project's own rule.
#[derive(Clone, Copy, Debug)]
pub struct Name {
    bytes: [u8; MOST_NAME_BYTES],
    len: usize,
}

impl Model for Name {
    ghost use Rattle.std.specs.Prelude.{List, ℕ, take, length};
    ghost use Rattle.cds_base.specs.NameText.{NameBytes, padded_name};
    ghost use Rattle.cds_base.specs.NameLaws.{padded_name-take};

    ghost Value = { List ℕ };

    ghost view = { λ a. take a.len a.bytes };

    ghost invariant = { λ a. NameBytes a.bytes a.len };

    ghost inverse = { λ n. record { bytes = padded_name n; len = length n } };

    ghost inverse_ok = { λ a h. padded_name-take a.bytes a.len h };
}

impl Name {
    /// The name that these bytes spell. None exactly where they are no name: where they are fewer than 1 or
    /// more than 64, or one of them is no ASCII letter, no digit and none of `-`, `_` and `.`.
    pub fn new(bytes: &[u8]) -> Option<Name>
        ensures { result ≡ name_of bytes.now }
    {
        if !is_name(bytes) {
            return None;
        }
        Some(Name {
            bytes: padded(bytes),
            len: bytes.len(),
        })
    }

    /// The bytes of the name, 1 to 64 of them.
    pub fn as_bytes(&self) -> &[u8]
        ensures value { result.now ≡ self.now }
        ensures name { IsName self.now }
    {
        &self.bytes[..self.len]
    }
}

impl PartialEq for Name {
    ghost eq = { pointwise ◌==◌ };

    ghost laws = { Prim.search (comparing, rules) };

    fn eq(&self, other: &Name) -> bool {
        self.as_bytes() == other.as_bytes()
    }
}

impl Eq for Name {
    ghost laws = { Prim.search (comparing, rules) };
}

impl PartialOrd for Name {
    ghost partial_cmp = { as_partial_cmp (slice_cmp nat_cmp) };

    ghost laws = { partial_order_from_own_ties (Prim.search (comparing, rules)) (Prim.search (comparing, rules)) };

    fn partial_cmp(&self, other: &Name) -> Option<Ordering> {
        Some(self.cmp(other))
    }
}

impl Ord for Name {
    ghost cmp = { slice_cmp nat_cmp };

    ghost total = { Prim.search (comparing, rules) };

    ghost matches_partial_cmp = { Prim.search (comparing, rules) };

    ghost matches_eq = { Prim.search (comparing, rules) };

    fn cmp(&self, other: &Name) -> Ordering {
        self.as_bytes().cmp(other.as_bytes())
    }
}

fn is_name(bytes: &[u8]) -> bool
    ensures { result ≡ is_name bytes.now }
{
    1 <= bytes.len() && bytes.len() <= MOST_NAME_BYTES && are_name_bytes(bytes)
}

fn are_name_bytes(bytes: &[u8]) -> bool
    ensures { result ≡ list_all is_name_byte bytes.now }
{
    bytes.iter().all(|byte| is_name_byte(*byte))
}

fn is_name_byte(byte: u8) -> bool
    ensures { result ≡ is_name_byte byte }
{
    byte.is_ascii_alphanumeric() || byte == HYPHEN || byte == UNDERSCORE || byte == FULL_STOP
}

fn padded(bytes: &[u8]) -> [u8; MOST_NAME_BYTES]
    requires { length bytes.now ≤ MOST_NAME_BYTES }
    ensures { result ≡ padded_name bytes.now }
{
    let mut held = [0; MOST_NAME_BYTES];
    put_front(&mut held, bytes);
    held
}
