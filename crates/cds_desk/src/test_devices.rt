//! What the tests of the top call share: it runs over devices in memory.

ghost use Rattle.std.specs.Prelude.{◌≡◌, ◌<◌, All, Some, None};
ghost use Rattle.cds_base.specs.Clock.{IsMoment};
ghost use Rattle.cds_keep.specs.Found.{damaged};

use crate::run;
use cds_base::{Clock, Door, FixedClock, MemDoor, MemSink, MemSource, Sink, Source, Steps};
use cds_keep::{Keeper, LoadError, PutError, Records};
use std::alloc::Global;
use std::collections::VecDeque;
use std::marker::Brand;
use std::sync::ledger::{Blank, Ledger};
use std::test::Fail;

// The top call, with a counter of steps of its own.
fn counted<S: Source, W: Sink, K: Keeper, C: Clock, D: Door, L: Ledger>(
    blank: Blank,
    alloc: Global,
    words: &[String],
    source: &mut S,
    sink: &mut W,
    keeper: &mut K,
    clock: &mut C,
    door: &mut D,
) -> u8
    requires name { blank.name ≡ L.name }
    requires parts { blank.parts ≡ L.parts }
    requires some { 0 < blank.parts }
{
    let mut steps = Steps::<L>::new(blank);
    run(alloc, words, source, sink, keeper, clock, door, &mut steps)
}

// The status of the top call over these devices, a clock at 0 and a door without connections.
pub(crate) fn over<K: Keeper>(
    alloc: Global,
    words: &[String],
    source: &mut MemSource,
    sink: &mut MemSink,
    keeper: &mut K,
) -> Result<u8, Fail> {
    at_moments(alloc, words, source, sink, keeper, &[])
}

// The same, with a clock that answers these moments, and then 0.
pub(crate) fn at_moments<K: Keeper>(
    alloc: Global,
    words: &[String],
    source: &mut MemSource,
    sink: &mut MemSink,
    keeper: &mut K,
    moments: &[u64],
) -> Result<u8, Fail>
    requires { All IsMoment moments.now }
{
    let mut clock = FixedClock::new(alloc, moments, 0)?;
    let mut door = MemDoor::new(alloc, VecDeque::new(alloc), &[])?;
    Ok(counted::<MemSource, MemSink, K, FixedClock, MemDoor, Brand>(
        Blank::new(1),
        alloc,
        words,
        source,
        sink,
        keeper,
        &mut clock,
        &mut door,
    ))
}

pub(crate) fn words_of(alloc: Global, line: &str) -> Result<Vec<String>, Fail> {
    let mut words = Vec::new(alloc);
    for word in line.split_whitespace() {
        words.push(String::from_str(alloc, word)?)?;
    }
    Ok(words)
}

// A store whose record of this number can't be delimited, under every name. It tells that a load finds
// this, and no content.
#[derive(Drop)]
pub(crate) struct Damaged {
    pub(crate) record: u64,
    pub(crate) is_open: bool,
    pub(crate) calls: u64,
}

impl Keeper for Damaged {
    ghost told = { λ s. record { content = None; is_open = s.is_open; faults = 0; calls = s.calls } };

    ghost finds = { λ s _. Some (damaged s.record) };

    ghost leaves_now = { λ _ tells _ _ _. absurd tells };

    fn load(&mut self, _store: &str) -> Result<Records, LoadError> {
        self.is_open = false;
        self.calls = self.calls.saturating_add(1);
        Err(LoadError::Damaged(self.record))
    }

    fn put(&mut self, _body: &[u8]) -> Result<(), PutError> {
        self.calls = self.calls.saturating_add(1);
        Err(PutError::NoMemory)
    }
}
