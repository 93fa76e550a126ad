//! The numbers of formats and of kinds, and the limit of the samples of a trace in the first format.

/// The first byte of each record of the first format, in which each sample of a trace has 32 bits.
pub(crate) const FIRST_FORMAT: u8 = 1;

/// The first byte of each record that is written today, in which a trace has its differences.
pub(crate) const FORMAT: u8 = 2;

/// The kind of the record of a trace that is put.
pub(crate) const TRACE: u8 = 1;

/// The kind of the record of a draft that is put.
pub(crate) const DRAFT: u8 = 2;

/// The kind of the record of a version that is frozen.
pub(crate) const FREEZE: u8 = 3;

/// The kind of the record of a sequence that is put.
pub(crate) const SEQUENCE: u8 = 4;

/// The kind of the record of the manual events of a row that are put.
pub(crate) const EVENTS: u8 = 5;

/// The kind of the record of a sequence that is bound to another version of its method.
pub(crate) const REBIND: u8 = 6;

/// The kind of the record of a signature.
pub(crate) const SIGN: u8 = 7;

/// The most samples of a trace in a record of the first format.
pub const MOST_FIRST_SAMPLES: u32 = 100_000;
