//! A law of the crate. It is proved by its contract, and its body does nothing.
ghost use Rattle.std.specs.Prelude.{◌≡◌};
ghost use Rattle.cds_respond.specs.declared.fixed.TheConstants.{FRAME_BYTES};
ghost use Rattle.cds_respond.specs.declared.piece.TheConstants.{PIECE_BYTES};
ghost use Rattle.cds_respond.specs.declared.receiving.TheConstants.{MOST_SOURCE_BYTES};

/// The most bytes that a command reads from its source, as many as a body may have, the most of one read, and the bytes
/// of a refusal's body around its word and its value.
pub fn the_limits()
    ensures { (MOST_SOURCE_BYTES ≡ 16777216) × (PIECE_BYTES ≡ 65536) × (FRAME_BYTES ≡ 32) }
{}
