//! How far a straight line reaches.
ghost use Rattle.std.specs.Prelude.{◌≡◌, ◌<◌};
ghost use Rattle.cds_trace.specs.Heights.{span};

use cds_base::Line;

/// How many samples lie from one end of a line to the other; its `from` must be below its `to`. It takes no memory, and
/// no step.
pub fn span(line: Line) -> u32
    requires order { line.from < line.to }

    ensures value { result ≡ span line }
    ensures some { 0 < result }
{
    line.to - line.from
}
