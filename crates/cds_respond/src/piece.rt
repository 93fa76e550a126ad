//! The room that bytes are read into.
ghost use Rattle.std.specs.Prelude.{◌≡◌, IfOk, vec_len};
ghost use Rattle.cds_respond.specs.declared.piece.TheConstants.{PIECE_BYTES};

use std::alloc::{AllocError, Global};

/// How many bytes are asked for in one read.
pub const PIECE_BYTES: usize = 65_536;

/// Room for one read.
pub fn new_piece(alloc: Global) -> Result<Vec<u8>, AllocError>
    ensures { IfOk result (λ bytes. vec_len bytes ≡ PIECE_BYTES) }
{
    vec![in alloc; 0; PIECE_BYTES]
}
