//! The opening of a named store: one load, and a desk with its records.

ghost use Rattle.std.specs.Prelude.{◌≡◌, ◌≢◌, ◌≤◌, ℕ, List, [], IfErr, IfOk, IfSome, OnOk};
ghost use Rattle.cds_keep.specs.Found.{FindsContent, records};
ghost use Rattle.cds_respond.specs.Sending.{Sent};
ghost use Rattle.cds_desk.specs.Opening.{Opens, StopsAt};
ghost use Rattle.cds_desk.specs.Stores.{is_store, is_sql_file};
ghost use Rattle.cds_desk.specs.Session.{damaged_line, Loaded, Opened, Stopped, Unopened};
ghost use Rattle.cds_desk.specs.declared.status.Status.TheVariants as status;

use crate::desk::{Desk, OpenError};
use crate::status::Status;
use cds_base::{Sink, Steps};
use cds_keep::{Keeper, LoadError, Records};
use cds_respond::send_parts;
use itoa::Buffer;
use std::alloc::Global;
use std::sync::ledger::Ledger;

/// Whether the program has the store of this name: the one in memory, which has the empty name, or a file whose name ends in
/// `.db`.
pub(crate) fn is_store(name: &str) -> bool
    ensures { result ≡ is_store name.now }
{
    name.is_empty() || is_sql_file(name.as_bytes())
}

/// Whether the name of a file ends in `.db`.
fn is_sql_file(name: &[u8]) -> bool
    ensures { result ≡ is_sql_file name.now }
{
    3 <= name.len() && &name[name.len() - 3..] == b".db".as_slice()
}

/// Opens a desk over the store of this name, which is loaded once. Else how the command ends: the keeper failed in the
/// load, memory was wanting, or the store is damaged, which is then told to the sink, to which nothing else is written.
pub(crate) fn open_store<W: Sink, K: Keeper, L: Ledger>(
    alloc: Global,
    store: &str,
    sink: &mut W,
    keeper: &mut K,
    steps: &mut Steps<L>,
) -> Result<Desk, Status>
    ensures opened { IfOk result (λ desk. Opened (K.finds keeper.old store.now) (K.told keeper.old) steps.old
        (K.told keeper.new) desk steps.new) }
    ensures unopened { IfErr result (λ how. Unopened how (K.finds keeper.old store.now) (K.told keeper.old)
        (K.told keeper.new) (W.told sink.old) (W.told sink.new)) }
    ensures quiet { OnOk result (sink.new ≡ sink.old) }
    ensures quiet_else { IfErr result (λ how. how ≢ status.Damaged → sink.new ≡ sink.old) }
    ensures finds { OnOk result ((name : List ℕ) → FindsContent (K.finds keeper.new name) (K.told keeper.new).content) }
    ensures found { K.finds keeper.new store.now ≡ K.finds keeper.old store.now }
    ensures no_step { IfSome (K.finds keeper.old store.now) (λ f. f ≡ records [] → steps.new ≡ steps.old) }
    ensures counts { (steps.old ≤ steps.new) × ((K.told keeper.old).faults ≤ (K.told keeper.new).faults)
        × ((W.told sink.old).faults ≤ (W.told sink.new).faults) }
{
    let records = load(store, sink, keeper)?;
    open_desk(alloc, &records, sink, steps)
}

/// The records of the store of this name, by one load.
pub(crate) fn load<W: Sink, K: Keeper>(
    store: &str,
    sink: &mut W,
    keeper: &mut K,
) -> Result<Records, Status>
    ensures loaded { IfOk result (λ list. Loaded list (K.finds keeper.old store.now) (K.told keeper.old)
        (K.told keeper.new)) }
    ensures unopened { IfErr result (λ how. Unopened how (K.finds keeper.old store.now) (K.told keeper.old)
        (K.told keeper.new) (W.told sink.old) (W.told sink.new)) }
    ensures quiet { OnOk result (sink.new ≡ sink.old) }
    ensures quiet_else { IfErr result (λ how. how ≢ status.Damaged → sink.new ≡ sink.old) }
    ensures finds { IfOk result (λ list. (name : List ℕ) → IfSome (K.finds keeper.new name) (λ f. f ≡ records list)) }
    ensures found { K.finds keeper.new store.now ≡ K.finds keeper.old store.now }
    ensures counts { ((K.told keeper.old).faults ≤ (K.told keeper.new).faults)
        × ((W.told sink.old).faults ≤ (W.told sink.new).faults) }
{
    match keeper.load(store) {
        Ok(records) => Ok(records),
        Err(LoadError::Failed) => Err(Status::KeeperFailed),
        Err(LoadError::NoMemory) => Err(Status::NoMemory),
        Err(LoadError::Damaged(number)) => {
            tell_damage(sink, number);
            Err(Status::Damaged)
        }
    }
}

/// A desk with these records, which a load found.
pub(crate) fn open_desk<W: Sink, L: Ledger>(
    alloc: Global,
    records: &Records,
    sink: &mut W,
    steps: &mut Steps<L>,
) -> Result<Desk, Status>
    ensures opens { IfOk result (λ desk. Opens records.now desk) }
    ensures unopened { IfErr result (λ how. Stopped how records.now (W.told sink.old) (W.told sink.new)) }
    ensures quiet { OnOk result (sink.new ≡ sink.old) }
    ensures quiet_else { IfErr result (λ how. how ≢ status.Damaged → sink.new ≡ sink.old) }
    ensures no_step { records.now ≡ [] → steps.new ≡ steps.old }
    ensures counts { (steps.old ≤ steps.new) × ((W.told sink.old).faults ≤ (W.told sink.new).faults) }
{
    match Desk::open(alloc, records, steps) {
        Ok(desk) => Ok(desk),
        Err(OpenError::NoMemory) => Err(Status::NoMemory),
        Err(OpenError::Damaged(number)) => {
            tell_damage(sink, number);
            Err(Status::Damaged)
        }
    }
}

/// Writes which record is damaged, as far as the sink takes it.
fn tell_damage<W: Sink>(sink: &mut W, number: u64)
    ensures sent { Sent (W.told sink.old).written (W.told sink.new).written (W.told sink.old).faults
        (W.told sink.new).faults (damaged_line number) }
    ensures counts { (W.told sink.old).faults ≤ (W.told sink.new).faults }
{
    let mut digits = Buffer::new();
    let _ = send_parts(
        sink,
        &[b"damaged ", digits.format(number).as_bytes(), b"\n"],
    );
}
