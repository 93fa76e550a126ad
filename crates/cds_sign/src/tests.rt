//! What inputs are compared by.
use super::*;
use cds_base::{Event, EventList, Name};
use std::alloc::{AllocError, Global};
use std::test::Fail;

/// What differs from the inputs of these tests.
#[derive(Clone, Copy, PartialEq, Eq)]
enum Other {
    Nothing,
    MethodVersion,
    RowVersion,
    Used,
    Dilution,
    Amount,
    EventOrder,
    Listed,
    ListedUsed,
    ListedVersion,
    ListedRow,
}

// A name of these tests.
fn name(text: &str) -> Result<Name, Fail> {
    Ok(Name::new(text.as_bytes()).ok_or("it is a name")?)
}

fn events(alloc: Global, turned: bool) -> Result<EventList, AllocError> {
    let mut items = Vec::new(alloc);
    let drop = Event::Drop { at: 7 };
    let skim = Event::Skim { from: 1, to: 2 };
    items.push(if turned { skim } else { drop })?;
    items.push(if turned { drop } else { skim })?;
    Ok(EventList::from_vec(items))
}

fn amounts(alloc: Global, amount: u32) -> Result<AmountList, Fail> {
    let mut items = Vec::new(alloc);
    items.push((name("caf")?, amount))?;
    Ok(AmountList::from_vec(items))
}

fn row(alloc: Global, other: Other) -> Result<Row, Fail> {
    Ok(Row {
        label: name("S1")?,
        kind: RowKind::Standard,
        trace: name("one")?,
        version: if other == Other::RowVersion { 2 } else { 1 },
        used: other != Other::Used,
        u: if other == Other::Dilution { 2 } else { 1 },
        v: if other == Other::Dilution { 2 } else { 1 },
        amounts: amounts(alloc, if other == Other::Amount { 17 } else { 16 })?,
        events: events(alloc, other == Other::EventOrder)?,
    })
}

fn listed(alloc: Global, other: Other) -> Result<Listed, Fail> {
    let mut rows = Vec::new(alloc);
    if other != Other::ListedRow {
        rows.push(ListedRow {
            trace: name("one")?,
            version: if other == Other::ListedVersion { 2 } else { 1 },
            used: other != Other::ListedUsed,
            amounts: amounts(alloc, 16)?,
            events: events(alloc, false)?,
        })?;
    }
    Ok(Listed {
        sequence: name(if other == Other::Listed { "b2" } else { "b1" })?,
        method: name("m")?,
        version: 1,
        rows: ListedRowList::from_vec(rows),
    })
}

fn inputs(alloc: Global, other: Other) -> Result<Inputs, Fail> {
    let mut rows = Vec::new(alloc);
    rows.push(row(alloc, other)?)?;
    let mut standards = Vec::new(alloc);
    standards.push(listed(alloc, other)?)?;
    Ok(Inputs {
        method: name("m")?,
        version: if other == Other::MethodVersion { 2 } else { 1 },
        rows: RowList::from_vec(rows),
        standards: ListedList::from_vec(standards),
    })
}

#[test]
fn inputs_are_compared_by_all_that_results_rest_on(rt: HostRuntime) -> Result<(), Fail> {
    let usual = inputs(rt.alloc(), Other::Nothing)?;
    assert!(rt; usual.same(&inputs(rt.alloc(), Other::Nothing)?));
    let others = [
        Other::MethodVersion,
        Other::RowVersion,
        Other::Used,
        Other::Dilution,
        Other::Amount,
        Other::EventOrder,
        Other::Listed,
        Other::ListedUsed,
        Other::ListedVersion,
        Other::ListedRow,
    ];
    for other in others {
        assert!(rt; !usual.same(&inputs(rt.alloc(), other)?));
    }
    Ok(())
}

#[test]
fn copies_are_made_where_there_is_memory(rt: HostRuntime) -> Result<(), Fail> {
    let mut rows = Vec::new(rt.alloc());
    rows.push(row(rt.alloc(), Other::Nothing)?)?;
    let rows = RowList::from_vec(rows);
    assert!(rt; rows.copy()?.same(&rows));
    let mut names = Vec::new(rt.alloc());
    names.push(name("b1")?)?;
    let names = NameList::from_vec(names);
    assert!(rt; names.copy()?.same(&names));
    Ok(())
}

#[test]
fn a_signature_says_1_to_64_printed_characters(rt: HostRuntime) -> Result<(), Fail> {
    assert!(rt; is_printed(b" ~") && is_printed(&[b'a'; 64]));
    assert!(rt; !is_printed(b"") && !is_printed(&[b'a'; 65]));
    assert!(rt; !is_printed(b"a\x1f") && !is_printed(b"\x7f") && !is_printed(b"\xc3\xa9"));
    Ok(())
}
