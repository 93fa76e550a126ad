ghost use Rattle.std.specs.Prelude.{◌≡◌, ◌<◌, ◌≤◌, length, take, IfOk, OnErr};
ghost use Rattle.cds_base.specs.Faults.{Rose};
ghost use Rattle.cds_base.specs.Sink.{SinkTold};
ghost use Rattle.cds_base.specs.Told.{then_more};

use crate::failed::Failed;

/// Where bytes go. It may tell what was written; whether it tells it stays as it is. Its count of faults never
/// falls.
pub trait Sink {
    /// What it tells: the bytes that were written, where it tells them, and how many of its calls failed, up to
    /// 2^64 - 1.
    ghost told: { Self → SinkTold };

    /// Takes bytes of the front of `piece` and answers how many, at least one where the piece has any.
    /// `Failed` comes only where the count of faults rose in this call; what was written is then as before.
    fn write(&mut self, piece: &[u8]) -> Result<usize, Failed>
        ensures within { IfOk result (λ n. n ≤ length piece.now) }
        ensures some { IfOk result (λ n. 0 < length piece.now → 0 < n) }
        ensures writes { IfOk result
            (λ n. (told self.new).written ≡ then_more (told self.old).written (take n piece.now)) }
        ensures counts { (told self.old).faults ≤ (told self.new).faults }
        ensures failed { OnErr result (Rose (told self.old).faults (told self.new).faults) }
        ensures kept { IfOk result (λ _. (told self.new).faults ≡ (told self.old).faults) }
        ensures written_stays { OnErr result ((told self.new).written ≡ (told self.old).written) };
}
