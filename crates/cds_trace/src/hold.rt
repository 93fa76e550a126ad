//! Equal traces, and the bytes of a sample in a record of a store.
ghost use Rattle.std.specs.Prelude.{◌≡◌, ◌↔◌, ◌++◌, IsTrue, OnOk};
ghost use Rattle.cds_trace.specs.SampleBytes.{bytes_of_sample};

use crate::trace::Trace;
use std::alloc::AllocError;

impl Trace {
    /// Whether two traces are equal: their periods and their samples are the same. No step.
    pub fn same(&self, other: &Trace) -> bool
        ensures { IsTrue result ↔ (self.now ≡ other.now) }
    {
        self.period() == other.period() && self.samples() == other.samples()
    }
}

/// Appends the bytes of a sample: an i32, the high byte first.
pub(crate) fn push_sample(bytes: &mut Vec<u8>, sample: i32) -> Result<(), AllocError>
    ensures { OnOk result (bytes.new.items ≡ bytes.old.items ++ bytes_of_sample sample) }
{
    bytes.extend_from_slice(&sample.to_be_bytes())?;
    Ok(())
}
