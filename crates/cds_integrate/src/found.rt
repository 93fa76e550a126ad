//! The parts that aren't rejected.
ghost use Rattle.std.specs.Prelude.{◌≡◌, ◌++◌, [], ◌∷◌, All, IfSome, OnOk};
ghost use Rattle.cds_rules.specs.Fields.{fields_of};
ghost use Rattle.cds_integrate.specs.Peaks.{kept_of, accepted};
ghost use Rattle.cds_integrate.specs.Standing.{IsMeasured, IsFound};

use crate::measures::{Measured, is_rejected};
use cds_base::NoMemory;
use cds_rules::Method;
use cds_trace::Trace;
use std::marker::Model;

/// A part that isn't rejected, with the part before it in its cluster, if there is one. Seen as a plain record.
#[derive(Clone, Copy, Debug)]
pub(crate) struct Found {
    pub before: Option<Measured>,
    pub part: Measured,
}

impl Model for Found {
    ghost use Rattle.cds_integrate.specs.Peaks.{Found as Seen};

    ghost Value = { Seen };

    ghost view = { λ f. record { before = f.before; part = f.part } };

    ghost inverse = { λ f. record { before = f.before; part = f.part } };
}

/// Puts a part behind those found so far where it isn't rejected.
fn add_part(
    found: &mut Vec<Found>,
    one: Found,
    trace: &Trace,
    method: &Method,
) -> Result<(), NoMemory>
    requires part { IsMeasured trace.now one.part }
    requires before { IfSome one.before (IsMeasured trace.now) }
    requires kept { All (IsFound trace.now (fields_of method.now)) found.old.items }
    ensures value { OnOk result (found.new.items
        ≡ found.old.items ++ kept_of trace.now (fields_of method.now) (one ∷ [])) }
    ensures kept { All (IsFound trace.now (fields_of method.now)) found.new.items }
{
    if is_rejected(one.part, trace, method) {
        return Ok(());
    }
    found.push(one)?;
    Ok(())
}

/// Puts the parts of a cluster that aren't rejected behind those found so far.
pub(crate) fn add_accepted(
    found: &mut Vec<Found>,
    parts: &[Measured],
    trace: &Trace,
    method: &Method,
) -> Result<(), NoMemory>
    requires measured { All (IsMeasured trace.now) parts.now }
    requires before { All (IsFound trace.now (fields_of method.now)) found.old.items }
    ensures value { OnOk result (found.new.items
        ≡ found.old.items ++ accepted trace.now (fields_of method.now) parts.now) }
    ensures kept { All (IsFound trace.now (fields_of method.now)) found.new.items }
{
    let mut before = None;
    for part in parts {
        let one = Found {
            before,
            part: *part,
        };
        add_part(found, one, trace, method)?;
        before = Some(*part);
    }
    Ok(())
}
