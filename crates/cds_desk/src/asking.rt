//! The command that asks for a change.

ghost use Rattle.std.specs.Prelude.{◌≡◌, ℕ, List, IfOk, map, pos};
ghost use Rattle.cds_book.specs.Plan.{asked_of, command_of};

use cds_base::{Name, NoMemory};
use cds_book::{Change, Command};
use cds_sign::{AmountList, AskedAmountList, AskedRow, AskedRowList, Row, RowList};
use std::alloc::Global;

/// The command that asks for this change. The only refusal is want of memory.
pub(crate) fn asked_for(alloc: Global, change: Change) -> Result<Command, NoMemory>
    ensures { IfOk result (λ asked. asked ≡ command_of change) }
{
    match change {
        Change::Trace { name, trace } => Ok(Command::Trace { name, trace }),
        Change::Draft { name, text } => Ok(Command::Draft { name, text }),
        Change::Freeze { name, version } => Ok(Command::Freeze { name, version }),
        Change::Sequence {
            name,
            edition,
            method,
            version,
            standards,
            rows,
        } => {
            let rows = asked_rows(alloc, &rows)?;
            Ok(Command::Sequence {
                name,
                edition,
                method,
                version,
                standards,
                rows,
            })
        }
        Change::Events {
            name,
            edition,
            row,
            events,
        } => Ok(Command::Events {
            name,
            edition,
            row,
            events,
        }),
        Change::Rebind {
            name,
            edition,
            version,
        } => Ok(Command::Rebind {
            name,
            edition,
            version,
        }),
        Change::Sign {
            sequence,
            number,
            basis,
            moment,
            name,
            meaning,
            text,
        } => Ok(Command::Sign {
            sequence,
            number,
            basis,
            moment,
            name,
            meaning,
            text,
        }),
    }
}

/// The rows as they are asked.
fn asked_rows(alloc: Global, rows: &RowList) -> Result<AskedRowList, NoMemory>
    ensures { IfOk result (λ asked. asked ≡ map asked_of rows.now) }
{
    let items = asked_items(alloc, rows.as_slice())?;
    Ok(AskedRowList::from_vec(items))
}

fn asked_items(alloc: Global, rows: &[Row]) -> Result<Vec<AskedRow>, NoMemory>
    ensures { IfOk result (λ asked. asked.items ≡ map asked_of rows.now) }
{
    let mut asked = Vec::with_capacity(alloc, rows.len())?;
    for place in 0..rows.len() {
        asked.push(asked_row(alloc, &rows[place])?)?;
    }
    Ok(asked)
}

/// A row as it is asked.
fn asked_row(alloc: Global, row: &Row) -> Result<AskedRow, NoMemory>
    ensures { IfOk result (λ asked. asked ≡ asked_of row.now) }
{
    let amounts = asked_amounts(alloc, &row.amounts)?;
    let events = row.events.copy()?;
    Ok(AskedRow {
        label: row.label,
        kind: row.kind,
        trace: row.trace,
        version: row.version,
        used: row.used,
        u: row.u,
        v: row.v,
        amounts,
        events,
    })
}

/// Amounts as they are asked.
fn asked_amounts(alloc: Global, amounts: &AmountList) -> Result<AskedAmountList, NoMemory>
    ensures { IfOk result (λ asked. asked ≡ map (λ (a : List ℕ × ℕ). (a.0, pos a.1)) amounts.now) }
{
    let items = asked_pairs(alloc, amounts.as_slice())?;
    Ok(AskedAmountList::from_vec(items))
}

fn asked_pairs(alloc: Global, amounts: &[(Name, u32)]) -> Result<Vec<(Name, i64)>, NoMemory>
    ensures { IfOk result (λ asked. asked.items ≡ map (λ (a : List ℕ × ℕ). (a.0, pos a.1)) amounts.now) }
{
    let mut asked = Vec::with_capacity(alloc, amounts.len())?;
    for place in 0..amounts.len() {
        asked.push(asked_pair(amounts[place]))?;
    }
    Ok(asked)
}

fn asked_pair(amount: (Name, u32)) -> (Name, i64)
    ensures { result ≡ (amount.0, pos amount.1) }
{
    let (name, number) = amount;
    (name, number as i64)
}
