use cds_sign::Change;

/// What a command comes to.
#[derive(Debug, Drop)]
pub enum Plan {
    /// The tables are already as the command asks.
    Unchanged,
    /// The tables are to change so.
    Change(Change),
}

/// What a signature comes to before its text is made.
#[derive(Clone, Copy, Debug, PartialEq, Eq)]
pub enum SignPlan {
    /// It is the kept signature of this number.
    Kept(u32),
    /// It is a new one.
    New,
}
