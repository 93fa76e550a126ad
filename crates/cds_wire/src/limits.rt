//! The limits of request bodies. All are this project's own. Those of rows, events and names stand with these.
use cds_sign::{MOST_SIGNATURES, MOST_VERSIONS};

/// The greatest version that a freeze may name: one more than a method may have, so that a full method is answered
/// as full.
pub const MOST_FREEZE_VERSION: u32 = MOST_VERSIONS + 1;

/// The greatest number that a signature may be asked to have: one more than the signatures of a sequence, so that a
/// sequence with all of them is answered as full.
pub const MOST_SIGN_NUMBER: u32 = MOST_SIGNATURES + 1;

/// The least number that a body may state as an amount. Which of them are amounts is judged with the tables.
pub const LEAST_ASKED_AMOUNT: i64 = -9_223_372_036_854_775_808;

/// The greatest number that a body may state as an amount.
pub const MOST_ASKED_AMOUNT: i64 = 9_223_372_036_854_775_807;
