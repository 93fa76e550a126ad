//! The program `cds`: the top call over the real devices.
#![tactic(auto)]

mod clock;
#[cfg(test)]
mod device_tests;
mod devices;
mod door;
mod store;

ghost use Rattle.std.specs.Prelude.{◌≡◌, ◌<◌};

use cds_base::{Clock, Door, Sink, Source, Steps};
use cds_keep::{Keeper, MapKeeper};
use cds_keep_sql::SqlKeeper;
use clock::SystemClock;
use devices::{ReaderSource, WriterSink};
use door::ListenerDoor;
use std::alloc::Global;
use std::marker::Brand;
use std::process::ExitCode;
use std::sync::ledger::{Blank, Ledger};
use std::{env, io};
use store::StoreKeeper;

fn main(rt: HostRuntime) -> ExitCode {
    let words = match env::args(&rt) {
        Ok(words) => words.skip(1).collect::<Vec<String>>(rt.alloc()),
        // Arguments that cannot be read are no command, as no words are.
        Err(error) if error.kind() != io::ErrorKind::OutOfMemory => Ok(Vec::new(rt.alloc())),
        Err(_) => return ExitCode::from(cds_desk::Status::NoMemory.number()),
    };
    let Ok(words) = words else {
        return ExitCode::from(cds_desk::Status::NoMemory.number());
    };
    ExitCode::from(over_devices(&rt, &words))
}

/// The top call over the real standard input and output, and the stores, the clock and the network of the system.
fn over_devices(rt: &HostRuntime, words: &[String]) -> u8 {
    let alloc = rt.alloc();
    let Ok(memory) = MapKeeper::new(alloc, &[]) else {
        return cds_desk::Status::NoMemory.number();
    };
    let mut keeper = StoreKeeper::new(memory, SqlKeeper::new(rt));
    let mut clock = SystemClock::new(rt);
    let mut door = ListenerDoor::new(rt);
    let mut source = ReaderSource::new(rt.stdin());
    let mut sink = WriterSink::new(rt.stdout());
    let status = run::<_, _, _, _, _, Brand>(
        Blank::new(1),
        alloc,
        words,
        &mut source,
        &mut sink,
        &mut keeper,
        &mut clock,
        &mut door,
    );
    keeper.close();
    status
}

/// The top call, with a counter of steps of its own.
fn run<S: Source, W: Sink, K: Keeper, C: Clock, D: Door, L: Ledger>(
    blank: Blank,
    alloc: Global,
    words: &[String],
    source: &mut S,
    sink: &mut W,
    keeper: &mut K,
    clock: &mut C,
    door: &mut D,
) -> u8
    requires name { blank.name ≡ L.name }
    requires parts { blank.parts ≡ L.parts }
    requires some { 0 < blank.parts }
{
    let mut steps = Steps::<L>::new(blank);
    cds_desk::run(alloc, words, source, sink, keeper, clock, door, &mut steps)
}
