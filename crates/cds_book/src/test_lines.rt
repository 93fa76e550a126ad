//! What the lines of the tests ask for, carried out on tables and told as text.
ghost use Rattle.std.specs.Prelude.{◌≡◌, ◌≤◌, true, All, IfOk, length, map};
ghost use Rattle.cds_base.specs.EventRange.{EventRanges};
ghost use Rattle.cds_sign.specs.Printed.{is_printed};
ghost use Rattle.cds_sign.specs.Ranges.{AreAmountNames, AreStandards, IsAskedRow};
ghost use Rattle.cds_sign.specs.declared.limits.TheConstants.{MOST_EDITION, MOST_ROWS, MOST_VERSIONS};
ghost use Rattle.cds_book.specs.Plan.{Accepts, IsCommand};

use crate::{Change, Command, MOST_VERSIONS, Plan, PlanError, Tables};
use cds_base::{Bytes, Event, EventList, Name, Text};
use cds_rules::Method;
use cds_sign::{
    AskedAmountList, AskedRow, AskedRowList, Inputs, Listed, MOST_EDITION, MOST_ROWS, NameList,
    RowKind, is_printed,
};
use cds_trace::Trace;
use std::alloc::Global;
use std::test::Fail;

/// A method, but for the number of its plateau.
const METHOD: &str =
    "bunch = 1\nslope_on = 5\nslope_off = 5\nfuse = 2\nmin_area = 1\nmin_height = 1\nweight = \"equal\"\nplateau = ";

// Carries out what a line asks for, and tells what it comes to.
pub(crate) fn ask(alloc: Global, tables: &mut Tables, asked: &str) -> Result<String, Fail> {
    let (kind, rest) = part(asked, ' ')?;
    let (spelled, rest) = part(rest, ' ')?;
    let name = name(spelled)?;
    if kind == "put" {
        return put(alloc, tables, name, &numbers(alloc, rest)?);
    }
    if kind == "draft" {
        return draft(alloc, tables, name, rest);
    }
    if kind == "freeze" {
        return freeze(alloc, tables, name, rest);
    }
    if kind == "versions" {
        return versions(alloc, tables, name);
    }
    ask_of_sequence(alloc, tables, kind, name, rest)
}

// Carries out what is asked of a sequence.
fn ask_of_sequence(
    alloc: Global,
    tables: &mut Tables,
    kind: &str,
    name: Name,
    rest: &str,
) -> Result<String, Fail> {
    if kind == "sequence" {
        return sequence(alloc, tables, name, rest);
    }
    if kind == "events" {
        return events(alloc, tables, name, rest);
    }
    if kind == "rebind" {
        return rebind(alloc, tables, name, rest);
    }
    if kind == "sign" {
        return sign(alloc, tables, name, rest);
    }
    if kind == "inputs" {
        return shown(alloc, &tables.inputs(name)?);
    }
    see(alloc, tables, name)
}

// The part before the first one of a character, and the part behind it.
fn part(text: &str, by: char) -> Result<(&str, &str), Fail> {
    Ok(text.split_once(by).ok_or("a line has more parts")?)
}

// The name that a text spells.
pub(crate) fn name(text: &str) -> Result<Name, Fail> {
    Ok(Name::new(text.as_bytes()).ok_or("no name")?)
}

fn numbers(alloc: Global, text: &str) -> Result<Vec<i32>, Fail> {
    let mut numbers = Vec::new(alloc);
    for word in text.split_whitespace() {
        numbers.push(word.parse::<i32>()?)?;
    }
    Ok(numbers)
}

// Puts a trace of these samples.
pub(crate) fn put(
    alloc: Global,
    tables: &mut Tables,
    name: Name,
    samples: &[i32],
) -> Result<String, Fail> {
    let trace = Trace::from_samples(alloc, 1000, samples)?;
    let (_name, _count) = (name.as_bytes(), trace.len());
    carry_out(alloc, tables, &Command::Trace { name, trace })
}

// Puts the method with this plateau as a draft.
fn draft(alloc: Global, tables: &mut Tables, name: Name, plateau: &str) -> Result<String, Fail> {
    let text = format!(in alloc; "{METHOD}{plateau}")?;
    Method::read_toml(alloc, text.as_bytes())?;
    let text = Bytes::from_vec(Vec::from_slice(alloc, text.as_bytes())?);
    let _name = name.as_bytes();
    if text.len() >= 65_536 {
        return Err(Fail::from("a method is short"));
    }
    carry_out(alloc, tables, &Command::Draft { name, text })
}

// Freezes the draft of a method.
fn freeze(alloc: Global, tables: &mut Tables, name: Name, version: &str) -> Result<String, Fail> {
    let version = version.parse::<u32>()?;
    let _name = name.as_bytes();
    carry_out(alloc, tables, &Command::Freeze { name, version })
}

// How many versions a trace has.
fn versions(alloc: Global, tables: &Tables, name: Name) -> Result<String, Fail> {
    match tables.trace_versions(name) {
        Some(count) => Ok(format!(in alloc; "{count}")?),
        None => Ok(String::from_str(alloc, "none")?),
    }
}

// Puts a sequence, which lists one sequence.
fn sequence(alloc: Global, tables: &mut Tables, named: Name, text: &str) -> Result<String, Fail> {
    let (edition, rest) = part(text, ' ')?;
    let (method, rest) = part(rest, ' ')?;
    let (version, rest) = part(rest, ' ')?;
    let (standard, rest) = part(rest, ' ')?;
    let edition = edition_of(edition)?;
    let version = version_of(version)?;
    let standards = standards_of(alloc, standard)?;
    let rows = rows_of(alloc, rest)?;
    let method = name(method)?;
    let (_named, _method) = (named.as_bytes(), method.as_bytes());
    carry_out(
        alloc,
        tables,
        &Command::Sequence {
            name: named,
            edition,
            method,
            version,
            standards,
            rows,
        },
    )
}

fn edition_of(text: &str) -> Result<u64, Fail>
    ensures { IfOk result (λ edition. edition ≤ MOST_EDITION) }
{
    let edition = text.parse::<u64>()?;
    if edition > MOST_EDITION {
        return Err(Fail::from("no edition"));
    }
    Ok(edition)
}

fn version_of(text: &str) -> Result<u32, Fail>
    ensures { IfOk result (λ version. version ≤ MOST_VERSIONS) }
{
    let version = text.parse::<u32>()?;
    if version > MOST_VERSIONS {
        return Err(Fail::from("no version"));
    }
    Ok(version)
}

fn standards_of(alloc: Global, text: &str) -> Result<NameList, Fail>
    ensures { IfOk result AreStandards }
{
    let listed = name(text)?;
    let _listed = listed.as_bytes();
    let mut names = Vec::new(alloc);
    names.push(listed)?;
    Ok(NameList::from_vec(names))
}

fn rows_of(alloc: Global, text: &str) -> Result<AskedRowList, Fail>
    ensures some { IfOk result (λ rows. 1 ≤ length rows) }
    ensures few { IfOk result (λ rows. length rows ≤ MOST_ROWS) }
    ensures each { IfOk result (All IsAskedRow) }
{
    let rows = each_row(alloc, text)?;
    if rows.is_empty() || rows.len() > MOST_ROWS {
        return Err(Fail::from("no rows"));
    }
    Ok(AskedRowList::from_vec(rows))
}

fn each_row(alloc: Global, text: &str) -> Result<Vec<AskedRow>, Fail>
    ensures { IfOk result (λ rows. All IsAskedRow rows.items) }
{
    let mut rows = Vec::new(alloc);
    for word in text.split_whitespace() {
        let row = row_of(alloc, word)?;
        rows.push(row)?;
    }
    Ok(rows)
}

// A row: its label, its kind, its trace with the version, and its amount, if it states one. `unused` is the kind of a
// standard that isn't used.
fn row_of(alloc: Global, text: &str) -> Result<AskedRow, Fail>
    ensures { IfOk result IsAskedRow }
{
    let (label, rest) = part(text, ',')?;
    let (kind, rest) = part(rest, ',')?;
    let (trace, rest) = part(rest, ',')?;
    let (version, amount) = part(rest, ',')?;
    let (label, trace) = (name(label)?, name(trace)?);
    let (_label, _trace) = (label.as_bytes(), trace.as_bytes());
    let version = version_of(version)?;
    let amounts = amounts_of(alloc, amount)?;
    Ok(AskedRow {
        label,
        kind: kind_of(kind),
        trace,
        version,
        used: kind != "unused",
        u: 1,
        v: 1,
        amounts,
        events: EventList::from_vec(Vec::new(alloc)),
    })
}

fn kind_of(text: &str) -> RowKind {
    if text == "standard" || text == "unused" {
        return RowKind::Standard;
    }
    if text == "replicate" {
        return RowKind::Replicate;
    }
    RowKind::Sample
}

fn amounts_of(alloc: Global, text: &str) -> Result<AskedAmountList, Fail>
    ensures { IfOk result (λ amounts. AreAmountNames (map (λ a. a.0) amounts)) }
{
    if text == "" {
        return Ok(AskedAmountList::from_vec(Vec::new(alloc)));
    }
    let component = name("caf")?;
    let _component = component.as_bytes();
    let mut amounts = Vec::new(alloc);
    amounts.push((component, text.parse::<i64>()?))?;
    Ok(AskedAmountList::from_vec(amounts))
}

// Puts one manual event of a row.
fn events(alloc: Global, tables: &mut Tables, name: Name, text: &str) -> Result<String, Fail> {
    let (edition, rest) = part(text, ' ')?;
    let (row, rest) = part(rest, ' ')?;
    let (from, to) = part(rest, ' ')?;
    let edition = edition_of(edition)?;
    let row = row.parse::<u32>()?;
    let events = events_of(alloc, from.parse::<u32>()?, to.parse::<u32>()?)?;
    let _name = name.as_bytes();
    carry_out(
        alloc,
        tables,
        &Command::Events {
            name,
            edition,
            row,
            events,
        },
    )
}

fn events_of(alloc: Global, from: u32, to: u32) -> Result<EventList, Fail>
    ensures { IfOk result EventRanges }
{
    let event = Event::Inhibit { from, to };
    if !event.is_in_range() {
        return Err(Fail::from("no event"));
    }
    let mut events = Vec::new(alloc);
    events.push(event)?;
    Ok(EventList::from_vec(events))
}

// Binds a sequence to a version of its method.
fn rebind(alloc: Global, tables: &mut Tables, name: Name, text: &str) -> Result<String, Fail> {
    let (edition, version) = part(text, ' ')?;
    let edition = edition_of(edition)?;
    let version = version_of(version)?;
    let _name = name.as_bytes();
    carry_out(
        alloc,
        tables,
        &Command::Rebind {
            name,
            edition,
            version,
        },
    )
}

// Signs a sequence, with a text of no bytes.
fn sign(alloc: Global, tables: &mut Tables, sequence: Name, text: &str) -> Result<String, Fail> {
    let (number, rest) = part(text, ' ')?;
    let (basis, rest) = part(rest, ' ')?;
    let (name, meaning) = part(rest, ' ')?;
    let number = number.parse::<u32>()?;
    let basis = basis.parse::<u64>()?;
    let (name, meaning) = (printed(alloc, name)?, printed(alloc, meaning)?);
    let _sequence = sequence.as_bytes();
    let text = Bytes::from_vec(Vec::new(alloc));
    if number < 1 || number > 101 || basis < 1 || basis > 1000 {
        return Err(Fail::from("no number"));
    }
    carry_out(
        alloc,
        tables,
        &Command::Sign {
            sequence,
            number,
            basis,
            moment: 0,
            name,
            meaning,
            text,
        },
    )
}

fn printed(alloc: Global, text: &str) -> Result<Text, Fail>
    ensures { IfOk result (λ text. is_printed text ≡ true) }
{
    if !is_printed(text.as_bytes()) {
        return Err(Fail::from("no printed text"));
    }
    Ok(Text::from_string(String::from_str(alloc, text)?))
}

// The edition and the basis of a sequence.
fn see(alloc: Global, tables: &Tables, name: Name) -> Result<String, Fail> {
    let sequence = tables.sequence(name).ok_or("no sequence")?;
    let (edition, basis) = (sequence.edition, sequence.basis);
    Ok(format!(in alloc; "edition {edition} basis {basis}")?)
}

// Plans a command, carries its change out, and tells what it comes to.
fn carry_out(alloc: Global, tables: &mut Tables, command: &Command) -> Result<String, Fail>
    requires { IsCommand command.now }
{
    let change = match tables.plan(command) {
        Ok(Plan::Change(change)) => change,
        Ok(Plan::Unchanged) => return Ok(String::from_str(alloc, "unchanged")?),
        Err(error) => return refusal(alloc, error),
    };
    let foretold = inputs_told(alloc, tables, Some(&change))?;
    change_by(tables, change)?;
    let told = inputs_told(alloc, tables, None)?;
    if foretold.as_str() != told.as_str() {
        return Err(Fail::from("the inputs are others than was foretold"));
    }
    Ok(String::from_str(alloc, "changed")?)
}

fn change_by(tables: &mut Tables, change: Change) -> Result<(), Fail>
    requires { Accepts tables.old.state change }
{
    tables.reserve(&change)?;
    tables.apply(change);
    Ok(())
}

// The inputs of `b2` after a change, or as they are.
fn inputs_told(alloc: Global, tables: &Tables, change: Option<&Change>) -> Result<String, Fail> {
    match tables.inputs_with(change, name("b2")?)? {
        Some(inputs) => shown(alloc, &inputs),
        None => Ok(String::from_str(alloc, "none")?),
    }
}

// Inputs as a line: the method, the rows, and behind each `|` a listed sequence with its method and its standards, of
// which an unused one is marked. Behind each name stands the version.
fn shown(alloc: Global, inputs: &Inputs) -> Result<String, Fail> {
    let mut line = bound(alloc, inputs.method, inputs.version)?;
    for row in inputs.rows.as_slice() {
        let label = str::from_utf8(row.label.as_bytes())?;
        let trace = bound(alloc, row.trace, row.version)?;
        line.push_str(format!(in alloc; " {label}:{trace}")?.as_str())?;
    }
    for listed in inputs.standards.as_slice() {
        line.push_str(listed_shown(alloc, listed)?.as_str())?;
    }
    Ok(line)
}

fn listed_shown(alloc: Global, listed: &Listed) -> Result<String, Fail> {
    let sequence = str::from_utf8(listed.sequence.as_bytes())?;
    let method = bound(alloc, listed.method, listed.version)?;
    let mut line = format!(in alloc; " | {sequence} {method}")?;
    for row in listed.rows.as_slice() {
        let trace = bound(alloc, row.trace, row.version)?;
        let mark = if row.used { "" } else { "-" };
        line.push_str(format!(in alloc; " {trace}{mark}")?.as_str())?;
    }
    Ok(line)
}

fn bound(alloc: Global, name: Name, version: u32) -> Result<String, Fail> {
    let name = str::from_utf8(name.as_bytes())?;
    Ok(format!(in alloc; "{name}{version}")?)
}

// The number of a refusal, and what it shows.
pub(crate) fn refusal(alloc: Global, error: PlanError) -> Result<String, Fail> {
    let number = error.number().ok_or("no memory")?;
    match error {
        PlanError::NoTrace(name) => named_refusal(alloc, number, name),
        PlanError::NoMethod(name) => named_refusal(alloc, number, name),
        PlanError::NoVersion(name) => named_refusal(alloc, number, name),
        PlanError::NoSequence(name) => named_refusal(alloc, number, name),
        PlanError::TwoLabels(name) => named_refusal(alloc, number, name),
        _ => Ok(format!(in alloc; "{number} {}", number_shown(error))?),
    }
}

fn named_refusal(alloc: Global, number: u32, name: Name) -> Result<String, Fail> {
    let shown = str::from_utf8(name.as_bytes())?;
    Ok(format!(in alloc; "{number} {shown}")?)
}

fn number_shown(error: PlanError) -> u64 {
    match error {
        PlanError::NoRow(row) => u64::from(row),
        PlanError::NoRecord(number) => u64::from(number),
        PlanError::Edition(kept) => kept,
        PlanError::Basis(kept) => kept,
        PlanError::Number(next) => u64::from(next),
        PlanError::Full(limit) => limit,
        PlanError::BadAmount(row) => u64::from(row),
        _ => 0,
    }
}
