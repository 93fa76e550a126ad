//! A law of the crate. It is proved by its contract, and its body does nothing.
ghost use Rattle.std.specs.Prelude.{◌≡◌, ◌^◌};
ghost use Rattle.cds_keep.specs.declared.keeper.TheConstants.{RECORD_LIMIT};

/// The limit of a record's bytes.
pub fn the_limits()
    ensures { RECORD_LIMIT ≡ 2 ^ 32 }
{}
