//! Writing texts.

ghost use Rattle.std.specs.Prelude.{◌≡◌, ◌≤◌, OnOk, OnErr};
ghost use Rattle.cds_base.specs.Faults.{Rose};
ghost use Rattle.cds_base.specs.Told.{then_more};
ghost use Rattle.cds_respond.specs.Response.{all_parts};
ghost use Rattle.cds_respond.specs.Sending.{HoldsPart};

use cds_base::{Failed, Sink};

/// Writes the whole text, and the sink's count of faults is as before. `Failed` comes only where it rose; a prefix of
/// the text was then written.
#[tactic(auto, using(cds_base::proofs::ToldLaws::then_more_twice, crate::proofs::SendingLaws::take_sent))]
pub fn send<W: Sink>(sink: &mut W, text: &[u8]) -> Result<(), Failed>
    ensures whole { OnOk result ((W.told sink.new).written ≡ then_more (W.told sink.old).written text.now) }
    ensures prefix { OnErr result (HoldsPart (W.told sink.old).written (W.told sink.new).written text.now) }
    ensures kept { OnOk result ((W.told sink.new).faults ≡ (W.told sink.old).faults) }
    ensures counts { (W.told sink.old).faults ≤ (W.told sink.new).faults }
    ensures failed { OnErr result (Rose (W.told sink.old).faults (W.told sink.new).faults) }
{
    let mut sent = 0;
    while sent < text.len() {
        sent += sink.write(&text[sent..])?;
    }
    Ok(())
}

/// Writes the parts, one after the other, as `send` does their whole.
#[tactic(auto, using(crate::proofs::SendingLaws::prefix_front, crate::proofs::SendingLaws::behind_err, crate::proofs::SendingLaws::behind_ok))]
pub fn send_parts<W: Sink>(sink: &mut W, parts: &[&[u8]]) -> Result<(), Failed>
    ensures whole { OnOk result ((W.told sink.new).written ≡ then_more (W.told sink.old).written (all_parts parts.now)) }
    ensures prefix { OnErr result (HoldsPart (W.told sink.old).written (W.told sink.new).written (all_parts parts.now)) }
    ensures kept { OnOk result ((W.told sink.new).faults ≡ (W.told sink.old).faults) }
    ensures counts { (W.told sink.old).faults ≤ (W.told sink.new).faults }
    ensures failed { OnErr result (Rose (W.told sink.old).faults (W.told sink.new).faults) }
{
    let Some((part, rest)) = parts.split_first() else {
        return Ok(());
    };
    send(sink, part)?;
    send_parts(sink, rest)
}
