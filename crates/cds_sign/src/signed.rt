//! A signature with what was signed.
use crate::inputs::Inputs;
use cds_base::{Bytes, Text};

/// A signature of a sequence's results, with what the results rested on and the text of the results as it was then.
#[derive(Debug, Drop)]
pub struct Signed {
    /// Its number among the signatures of the sequence, counted from 1.
    pub number: u32,
    /// The number of the inputs that were signed.
    pub basis: u64,
    /// When it was signed, in seconds since the beginning of 1970, UTC, below 253,402,300,800.
    pub moment: u64,
    /// Who signed: 1 to 64 printed ASCII characters or spaces.
    pub name: Text,
    /// What the signature means, as `approved`: 1 to 64 printed ASCII characters or spaces.
    pub meaning: Text,
    /// What the results rested on.
    pub inputs: Inputs,
    /// The signed text.
    pub text: Bytes,
}
