//! Where components are looked for, the times of peaks, and the components that peaks are named.
ghost use Rattle.std.specs.Prelude.{◌≡◌, ◌+◌, ◌*◌, ◌≤◌, All, IfOk, length, map};
ghost use Rattle.std.specs.Vec.{vec_len};
ghost use Rattle.cds_rules.specs.Fields.{fields_of};
ghost use Rattle.cds_rules.specs.declared.limits.TheConstants.{MOST_COMPONENTS};
ghost use Rattle.cds_integrate.specs.Peaks.{time_of, gives, component_of};
ghost use Rattle.cds_integrate.specs.Row.{windows_of};
ghost use Rattle.cds_integrate.specs.Standing.{IsFound};

use crate::found::Found;
use cds_base::{MILLISECOND_US, NoMemory, Steps, Window};
use cds_figures::peak_time;
use cds_names::Names;
use cds_rules::Method;
use cds_trace::Trace;
use std::alloc::Global;
use std::sync::ledger::Ledger;

/// Where the components of a method are looked for.
pub(crate) fn windows_of(alloc: Global, method: &Method) -> Result<Vec<Window>, NoMemory>
    ensures value { IfOk result (λ v. v.items ≡ windows_of (fields_of method.now)) }
    ensures len { IfOk result (λ v. vec_len v ≡ length method.now.components) }
{
    let components = method.components.as_slice();
    let mut windows = Vec::with_capacity(alloc, components.len())?;
    for component in components {
        windows.push(Window {
            time_us: MILLISECOND_US * u64::from(component.time_ms),
            width_us: MILLISECOND_US * u64::from(component.window_ms),
        })?;
    }
    Ok(windows)
}

/// The time of a part under the method's rules, in microseconds. At most three steps.
fn time_of<L: Ledger>(found: Found, trace: &Trace, method: &Method, steps: &mut Steps<L>) -> u64
    requires { IsFound trace.now (fields_of method.now) found }
    ensures value { result ≡ time_of trace.now (fields_of method.now) found }
    ensures least { steps.old ≤ steps.new }
    ensures most { steps.new ≤ steps.old + 3 }
{
    let shape = found.part.shape;
    let samples = trace.len();
    prove!(shape.end < samples);
    peak_time(
        shape.start,
        shape.apex,
        shape.end,
        method.rules,
        trace,
        steps,
    )
}

/// The times of parts under the method's rules, in microseconds. At most three steps for each.
pub(crate) fn times_of<L: Ledger>(
    alloc: Global,
    found: &[Found],
    trace: &Trace,
    method: &Method,
    steps: &mut Steps<L>,
) -> Result<Vec<u64>, NoMemory>
    requires { All (IsFound trace.now (fields_of method.now)) found.now }
    ensures value { IfOk result (λ v. v.items ≡ map (time_of trace.now (fields_of method.now)) found.now) }
    ensures len { IfOk result (λ v. vec_len v ≡ length found.now) }
    ensures least { steps.old ≤ steps.new }
    ensures most { steps.new ≤ steps.old + 3 * length found.now }
{
    let mut times = Vec::with_capacity(alloc, found.len())?;
    for one in found {
        times.push(time_of(*one, trace, method, steps))?;
    }
    Ok(times)
}

/// Whether what a component names is the peak of this number.
fn gives(named: Option<u32>, number: u32) -> bool
    ensures { result ≡ gives number named }
{
    match named {
        Some(peak) => peak == number,
        None => false,
    }
}

/// The number of the component that names the peak of this number, among so many components. Both are counted from 1.
pub(crate) fn component_of(names: &Names, count: u32, number: u32) -> Option<u32>
    requires whole { length names.now ≡ count }
    requires few { count ≤ MOST_COMPONENTS }
    ensures { result ≡ component_of names.now number }
{
    for component in 1..count + 1 {
        if gives(names.of(component), number) {
            return Some(component);
        }
    }
    None
}
