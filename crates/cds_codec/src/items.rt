//! Reading so many items of one kind.
ghost use Rattle.std.specs.Prelude.{◌≡◌, IfOk, List, ℕ, option_map};
ghost use Rattle.cds_codec.specs.Reading.{items_at, name_at, Taken};

use crate::fields::name_at;
use cds_base::Name;
use std::alloc::{AllocError, Global};

/// What a record may have many of.
pub(crate) trait Item: Drop {
    /// How an item is read.
    ghost read: { List ℕ → Taken Self };

    /// An item and the bytes behind it, or None where it isn't there.
    fn read(alloc: Global, bytes: &[u8]) -> Result<Option<(Self, &[u8])>, AllocError>
        ensures { IfOk result (λ o. option_map (λ x. (x.0, x.1.now)) o ≡ read bytes.now) };
}

/// So many items, and the bytes behind them.
pub(crate) fn items_at<T: Item>(
    alloc: Global,
    count: u32,
    bytes: &[u8],
) -> Result<Option<(Vec<T>, &[u8])>, AllocError>
    ensures { IfOk result (λ o. option_map (λ x. (x.0.items, x.1.now)) o ≡ items_at T.read count bytes.now) }
{
    let mut items = Vec::new(alloc);
    let mut rest = bytes;
    for _ in 0..count {
        let Some((item, after)) = T::read(alloc, rest)? else {
            return Ok(None);
        };
        items.push(item)?;
        rest = after;
    }
    Ok(Some((items, rest)))
}

impl Item for Name {
    ghost read = { name_at };

    fn read(_alloc: Global, bytes: &[u8]) -> Result<Option<(Name, &[u8])>, AllocError> {
        Ok(name_at(bytes))
    }
}
