//! Exact fractions whose two parts stay below 2^126, for ratios of areas, times and amounts.
//! Begin at `Frac`: it is always in lowest terms, it is ordered as the number that it is, and
//! `Frac::digits` shows it as a decimal number.
#![tactic(auto)]

mod compare;
mod decimals;
mod divisors;
mod fraction;
mod laws;
#[cfg(test)]
mod tests;

pub use decimals::MOST_DECIMALS;
pub use divisors::{LCM_LIMIT, gcd, lcm};
pub use fraction::{Frac, PART_LIMIT, product_below_limit};
pub use laws::the_limits;
