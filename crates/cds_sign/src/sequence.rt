//! A sequence of injections.
use crate::names::NameList;
use crate::row::RowList;
use cds_base::Name;

/// A sequence: rows that are evaluated together by one method.
#[derive(Debug, Drop)]
pub struct Sequence {
    /// How often the sequence itself was changed, counted from 1.
    pub edition: u64,
    /// The number of its inputs: it begins at 1 and rises by one with each change that makes them different.
    pub basis: u64,
    /// The method by which the rows are evaluated.
    pub method: Name,
    /// The version of the method, counted from 1, or 0 for the latest one.
    pub version: u32,
    /// The sequences whose standards calibrate this one, at most 8 and in the order in which they were listed.
    pub standards: NameList,
    /// The rows, at most 200.
    pub rows: RowList,
}
