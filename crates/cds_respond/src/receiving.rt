//! Reading a source to its end.

ghost use Rattle.std.specs.Prelude.{◌≡◌, ◌≤◌, [], IfOk, IfSome, IsErrOf, vec_len};
ghost use Rattle.cds_base.specs.Faults.{Rose};
ghost use Rattle.cds_respond.specs.Receiving.{AreReceived};
ghost use Rattle.cds_respond.specs.declared.receiving.ReceiveError.TheVariants.{NoMemory};
ghost use Rattle.cds_respond.specs.declared.receiving.TheConstants.{MOST_SOURCE_BYTES};

use crate::piece::new_piece;
use cds_base::{Failed, Source};
use cds_http::MOST_BODY_BYTES;
use std::alloc::{AllocError, Global};

/// The most bytes that a command reads from its source: as many as a body has at most.
pub const MOST_SOURCE_BYTES: usize = MOST_BODY_BYTES;

/// Why a source was not read.
#[derive(Clone, Copy, Debug, PartialEq, Eq)]
pub enum ReceiveError {
    /// The source failed.
    Failed,
    /// Memory was wanting.
    NoMemory,
}

impl From<AllocError> for ReceiveError {
    ghost from_gives = { λ _ e. e ≡ NoMemory };

    fn from(_e: AllocError) -> ReceiveError {
        ReceiveError::NoMemory
    }
}

/// The bytes of the source, up to its end or until they are more than a command may read. `Failed` comes
/// exactly where a read failed: the source's count of faults then rose, and is else as before.
#[tactic(auto, using(cds_base::proofs::ToldLaws::more_before_twice, crate::proofs::ReceivingLaws::received_all, crate::proofs::ReceivingLaws::received_too_many))]
pub fn receive<S: Source>(alloc: Global, source: &mut S) -> Result<Vec<u8>, ReceiveError>
    ensures all { IfOk result (λ bytes. IfSome (S.told source.old).left (λ all. AreReceived all bytes.items)) }
    ensures ended { IfOk result (λ bytes. vec_len bytes ≤ MOST_SOURCE_BYTES → IfSome (S.told source.new).left (λ rest. rest ≡ [])) }
    ensures counts { (S.told source.old).faults ≤ (S.told source.new).faults }
    ensures kept { IfOk result (λ _. (S.told source.new).faults ≡ (S.told source.old).faults) }
    ensures kept_without_memory { IsErrOf result ReceiveError.NoMemory → (S.told source.new).faults ≡ (S.told source.old).faults }
    ensures failed { IsErrOf result ReceiveError.Failed → Rose (S.told source.old).faults (S.told source.new).faults }
{
    let mut piece = new_piece(alloc)?;
    let mut bytes = Vec::new(alloc);
    while bytes.len() <= MOST_SOURCE_BYTES {
        match source.read(&mut piece) {
            Err(Failed) => return Err(ReceiveError::Failed),
            Ok(0) => return Ok(bytes),
            Ok(count) => bytes.extend_from_slice(&piece[..count])?,
        }
    }
    Ok(bytes)
}
