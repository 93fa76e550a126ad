ghost use Rattle.std.specs.Prelude.{◌≡◌, option_copied};
ghost use Rattle.cds_book.specs.Tables.{numbered};

use cds_base::Bytes;
use cds_sign::{Sequence, Signed};

/// The texts of a method: its draft, and its frozen versions in their order.
#[derive(Debug, Drop)]
pub(crate) struct MethodTexts {
    pub(crate) draft: Bytes,
    pub(crate) versions: Vec<Bytes>,
}

/// A sequence with its signatures in their order.
#[derive(Debug, Drop)]
pub(crate) struct SignedSequence {
    pub(crate) sequence: Sequence,
    pub(crate) signed: Vec<Signed>,
}

/// The version of this number, counted from 1.
pub(crate) fn numbered<T>(versions: &[T], number: u32) -> Option<&T>
    ensures { option_copied result ≡ numbered versions.now number }
{
    if number == 0 {
        return None;
    }
    versions.get(number as usize - 1)
}
