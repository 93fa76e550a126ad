//! The words that every crate of the data system shares: names, texts and byte strings, the plain types of
//! integration, the counter of steps, and the traits of the outside with their objects in memory.
//!
//! Begin at [`Name`] for what a thing is called, at [`Source`] and [`Sink`] for how bytes come and go, at [`Door`]
//! for how connections do, at [`Clock`] for the time, and at [`Steps`] for how reads of samples are counted.
#![tactic(auto)]

mod bytes;
mod clock;
mod cluster;
mod door;
mod event;
mod failed;
mod failing;
mod fixed_clock;
mod halving;
mod laws;
mod limits;
mod mem_door;
mod mem_sink;
mod mem_source;
mod name;
mod named;
mod no_fail;
mod peak;
mod ratio_order;
mod sink;
mod source;
mod steps;
mod text;
mod time;

pub use bytes::Bytes;
pub use clock::{Clock, MOMENT_LIMIT};
pub use cluster::{Cluster, Cut, Part, Parts};
pub use door::Door;
pub use event::{Event, EventList, MOST_EVENTS, MOST_SLOPE, is_in_window};
pub use failed::Failed;
pub use failing::Failing;
pub use fixed_clock::FixedClock;
pub use halving::{Reaching, greatest_reached};
pub use laws::the_limits;
pub use limits::{HUNDREDTHS, MOST_AMOUNT};
pub use mem_door::MemDoor;
pub use mem_sink::MemSink;
pub use mem_source::MemSource;
pub use name::{FULL_STOP, HYPHEN, MOST_NAME_BYTES, Name, UNDERSCORE};
pub use named::{Named, NamedList, Place};
pub use no_fail::{NoFailSink, NoFailSource};
pub use peak::{AREA_LIMIT, HEIGHT_LIMIT, Line, Missing, Peak, Ratio, RawPeak, Window};
pub use sink::Sink;
pub use source::Source;
/// Want of memory: the one answer that no rule ties to the values of a call.
pub use std::alloc::AllocError as NoMemory;
pub use steps::Steps;
pub use text::Text;
pub use time::{LAST_TIME_MS, LAST_TIME_US, MILLISECOND_US};

#[cfg(test)]
mod tests;
