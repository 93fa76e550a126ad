//! One scan over the classes of a trace.
ghost use Rattle.std.specs.Prelude.{◌≡◌, ◌+◌, ◌*◌, ◌<◌, ◌≤◌, length, Some};
ghost use Rattle.cds_detect.specs.Classes.{class_count, classes};
ghost use Rattle.cds_detect.specs.Settings.{settings_of};
ghost use Rattle.cds_rules.specs.Fields.{fields_of};
ghost use Rattle.cds_detect.specs.Spans.{next_up, climb, fall, is_down};
ghost use Rattle.cds_detect.specs.Climbs.{flats_after};
ghost use Rattle.cds_detect.specs.Windows.{Stands};

use crate::bunch::{bunch_sum, class_count};
use crate::class::{Class, class_of};
use cds_base::{Event, Steps};
use cds_rules::Method;
use cds_trace::Trace;
use std::sync::ledger::Ledger;

/// Where the scan stands: at a class, or behind the last one, with the sums of the next two bunches.
#[derive(Clone, Copy, Debug)]
pub(crate) struct Window {
    pub at: u32,
    pub class: Class,
    pub middle: i64,
    pub far: i64,
}

/// The scan at the first class. Six steps where there is one.
#[tactic(auto, using(crate::proofs::ClassesLaws::class_laws))]
pub(crate) fn first<L: Ledger>(
    trace: &Trace,
    method: &Method,
    manual: &[Event],
    steps: &mut Steps<L>,
) -> Window
    ensures first { result.at ≡ 0 }
    ensures stands { Stands trace.now (settings_of (fields_of method.now) manual.now) result }
    ensures least { steps.old ≤ steps.new }
    ensures counted { steps.new ≤ steps.old + 6 }
{
    if class_count(trace.len(), method.bunch) == 0 {
        return Window {
            at: 0,
            class: Class::Flat,
            middle: 0,
            far: 0,
        };
    }
    let near = bunch_sum(trace, method.bunch, 0, steps);
    let middle = bunch_sum(trace, method.bunch, 1, steps);
    let far = bunch_sum(trace, method.bunch, 2, steps);
    Window {
        at: 0,
        class: class_of(trace, method, manual, 0, near, far),
        middle,
        far,
    }
}

/// The scan one class further. Two steps.
#[tactic(auto, using(crate::proofs::ClassesLaws::class_laws))]
fn next<L: Ledger>(
    trace: &Trace,
    method: &Method,
    manual: &[Event],
    window: Window,
    steps: &mut Steps<L>,
) -> Window
    requires here { window.at < class_count (length trace.now.samples) method.now.bunch }
    requires stands { Stands trace.now (settings_of (fields_of method.now) manual.now) window }
    ensures next { result.at ≡ window.at + 1 }
    ensures stands { Stands trace.now (settings_of (fields_of method.now) manual.now) result }
    ensures least { steps.old ≤ steps.new }
    ensures counted { steps.new ≤ steps.old + 2 }
{
    let count = class_count(trace.len(), method.bunch);
    let at = window.at + 1;
    if at == count {
        return Window {
            at,
            class: Class::Flat,
            ..window
        };
    }
    let far = bunch_sum(trace, method.bunch, at + 2, steps);
    Window {
        at,
        class: class_of(trace, method, manual, at, window.middle, far),
        middle: window.far,
        far,
    }
}

/// The scan at the first rise from here on. Two steps for each class that it passes.
#[tactic(auto, using(crate::proofs::ClassesLaws::class_laws, cds_trace::proofs::LeastLaws::searching))]
pub(crate) fn find_up<L: Ledger>(
    trace: &Trace,
    method: &Method,
    manual: &[Event],
    mut window: Window,
    steps: &mut Steps<L>,
) -> Window
    requires { Stands trace.now (settings_of (fields_of method.now) manual.now) window }
    ensures place { let cs = classes trace.now (settings_of (fields_of method.now) manual.now) in
        result.at ≡ next_up cs window.at }
    ensures stands { Stands trace.now (settings_of (fields_of method.now) manual.now) result }
    ensures least { steps.old ≤ steps.new }
    ensures counted { steps.new + 2 * window.at ≤ steps.old + 2 * result.at }
{
    let count = class_count(trace.len(), method.bunch);
    while window.at < count && !window.class.is_up() {
        window = next(trace, method, manual, window, steps);
    }
    window
}

/// The scan where the climb from here ends. Two steps for each class that it passes.
pub(crate) fn climb<L: Ledger>(
    trace: &Trace,
    method: &Method,
    manual: &[Event],
    start: Window,
    steps: &mut Steps<L>,
) -> Window
    requires here { start.at < class_count (length trace.now.samples) method.now.bunch }
    requires stands { Stands trace.now (settings_of (fields_of method.now) manual.now) start }
    ensures place { let cs = classes trace.now (settings_of (fields_of method.now) manual.now) in
        result.at ≡ climb cs method.now.plateau start.at }
    ensures stands { Stands trace.now (settings_of (fields_of method.now) manual.now) result }
    ensures least { steps.old ≤ steps.new }
    ensures counted { steps.new + 2 * start.at ≤ steps.old + 2 * result.at }
{
    let count = class_count(trace.len(), method.bunch);
    let mut window = next(trace, method, manual, start, steps);
    let mut flats = 0;
    while window.at < count {
        let Some(more) = flats_after(window.class, flats, method.plateau) else {
            return window;
        };
        flats = more;
        window = next(trace, method, manual, window, steps);
    }
    window
}

/// How many flat classes there are in a row with this one, where the climb goes on over it.
fn flats_after(class: Class, flats: u32, plateau: u32) -> Option<u32>
    ensures { result ≡ flats_after class flats plateau }
{
    match class {
        Class::Up => Some(0),
        Class::Flat if flats < plateau => Some(flats + 1),
        _ => None,
    }
}

/// The scan where the fall from here ends. Two steps for each class that it passes.
#[tactic(auto, using(crate::proofs::ClassesLaws::class_laws, cds_trace::proofs::LeastLaws::searching))]
pub(crate) fn fall<L: Ledger>(
    trace: &Trace,
    method: &Method,
    manual: &[Event],
    start: Window,
    steps: &mut Steps<L>,
) -> Window
    requires here { start.at < class_count (length trace.now.samples) method.now.bunch }
    requires stands { Stands trace.now (settings_of (fields_of method.now) manual.now) start }
    ensures place { let cs = classes trace.now (settings_of (fields_of method.now) manual.now) in
        result.at ≡ fall cs start.at }
    ensures stands { Stands trace.now (settings_of (fields_of method.now) manual.now) result }
    ensures least { steps.old ≤ steps.new }
    ensures counted { steps.new + 2 * start.at ≤ steps.old + 2 * result.at }
{
    let count = class_count(trace.len(), method.bunch);
    let mut window = next(trace, method, manual, start, steps);
    while window.at < count && window.class.is_down() {
        window = next(trace, method, manual, window, steps);
    }
    window
}
