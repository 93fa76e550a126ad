//! The clock of the system.

ghost use Rattle.std.specs.Prelude.{None};

use cds_base::{Clock, MOMENT_LIMIT};
use std::time::{self, SystemTime, UNIX_EPOCH};

/// The clock of the system. It tells nothing of the moments to come.
#[derive(Drop)]
pub struct SystemClock<'r, R> {
    system: &'r R,
}

impl<'r, R: time::Clock> SystemClock<'r, R> {
    /// The clock of this system.
    pub fn new(system: &'r R) -> SystemClock<'r, R> {
        SystemClock { system }
    }
}

impl<'r, R: time::Clock> Clock for SystemClock<'r, R> {
    ghost moments = { λ _. None };

    /// The seconds since the beginning of 1970; 0 where the clock can't be read or stands outside the range.
    fn now(&mut self) -> u64 {
        match seconds(self.system) {
            Some(moment) if moment < MOMENT_LIMIT => moment,
            _ => 0,
        }
    }
}

/// The seconds since the beginning of 1970, where the clock can be read and doesn't stand before that.
fn seconds<R: time::Clock>(system: &R) -> Option<u64> {
    let now = SystemTime::now(system).ok()?;
    let since = now.duration_since(UNIX_EPOCH).ok()?;
    Some(since.as_secs())
}
