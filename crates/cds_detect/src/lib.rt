//! The raw peaks of a detector trace: where its bunched signal climbs and then falls.
//!
//! Begin at [`raw_peaks`] in `detect`. `bunch` sums samples, `class` says whether a bunch rises or falls, `slopes`
//! which thresholds and inhibit events are in force, and `scan` goes over the bunches once.
#![tactic(auto)]

mod bunch;
mod class;
mod detect;
mod laws;
mod raw;
mod scan;
mod slopes;

pub use class::Class;
pub use detect::raw_peaks;
pub use laws::the_limits;
pub use raw::{MOST_RAW_PEAKS, Raw, RawPeaks};
