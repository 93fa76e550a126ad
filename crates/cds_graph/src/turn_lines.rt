//! What the lines of the tests of turns ask for: commands, each carried out on tables and on the graph that stands for
//! them, and look-ups in the graph, told as text.
ghost use Rattle.std.specs.Prelude.{◌≡◌, ◌<◌, ◌≤◌, All, IfOk, length, map};
ghost use Rattle.cds_base.specs.EventRange.{EventRanges};
ghost use Rattle.cds_sign.specs.Ranges.{AreAmountNames, AreStandards, IsAskedRow};
ghost use Rattle.cds_sign.specs.declared.limits.TheConstants.{MOST_EDITION, MOST_ROWS, MOST_VERSIONS};
ghost use Rattle.cds_book.specs.Plan.{applied, Accepts, IsCommand};
ghost use Rattle.cds_graph.specs.Graph.{StandsFor};

use crate::calibration::Calibration;
use crate::graph::{Graph, Prepared};
use crate::limits::{NOISE_STEPS, ROW_STEPS};
use crate::noises::noise_node;
use crate::rows::row_node;
use crate::worked_rows::{line_text, name_of, numbers_of, value_text};
use cds_base::{Bytes, Event, EventList, Missing, Name, Peak, Steps};
use cds_book::{Change, Command, Plan, Tables};
use cds_calib::Fit;
use cds_frac::Frac;
use cds_integrate::RowPart;
use cds_rules::Method;
use cds_sign::{
    AskedAmountList, AskedRow, AskedRowList, MOST_EDITION, MOST_ROWS, MOST_VERSIONS, NameList,
    RowKind,
};
use cds_suit::Verdict;
use cds_trace::Trace;
use std::alloc::Global;
use std::marker::Brand;
use std::sync::ledger::{Blank, Ledger};
use std::test::Fail;

// What each method states, but for its weight, its least area, its components and its checks.
const METHOD: &str =
    "bunch = 1\nslope_on = 5\nslope_off = 5\nplateau = 3\nfuse = 2\nmin_height = 1\n";

// Tables, the graph that stands for them, and what the last line came to.
#[derive(Drop)]
pub(crate) struct Desk {
    pub tables: Tables,
    pub graph: Graph,
    pub told: String,
    pub ghost stands: { StandsFor tables.state graph },
}

// A desk of tables that hold nothing.
pub(crate) fn empty_desk(alloc: Global) -> Result<Desk, Fail> {
    let tables = Tables::new(alloc);
    let graph = opened_by::<Brand>(Blank::new(1), alloc, &tables)?;
    Ok(Desk {
        tables,
        graph,
        told: String::new(alloc),
    })
}

// The graph of tables, opened anew.
fn opened_by<L: Ledger>(blank: Blank, alloc: Global, tables: &Tables) -> Result<Graph, Fail>
    requires name { blank.name ≡ L.name }
    requires parts { blank.parts ≡ L.parts }
    requires some { 0 < blank.parts }
    ensures { IfOk result (λ graph. StandsFor tables.now.state graph) }
{
    let mut steps: Steps<L> = Steps::new(blank);
    Ok(Graph::open(alloc, tables, &mut steps)?)
}

// The graph that is prepared for a change.
fn prepared_by<L: Ledger>(
    blank: Blank,
    graph: &Graph,
    tables: &Tables,
    change: &Change,
) -> Result<Prepared, Fail>
    requires name { blank.name ≡ L.name }
    requires parts { blank.parts ≡ L.parts }
    requires some { 0 < blank.parts }
    requires stands { StandsFor tables.now.state graph.now }
    requires accepted { Accepts tables.now.state change.now }
    ensures { IfOk result (λ prepared. StandsFor (applied tables.now.state change.now) prepared) }
{
    let mut steps: Steps<L> = Steps::new(blank);
    Ok(graph.prepare(tables, change, &mut steps)?)
}

// Does what a line asks for, and tells what it comes to.
pub(crate) fn ask(alloc: Global, desk: Desk, asked: &str) -> Result<Desk, Fail> {
    let (kind, rest) = part(asked, ' ')?;
    if kind == "open" {
        return open(alloc, desk);
    }
    let (spelled, rest) = part(rest, ' ')?;
    let named = name_of(spelled)?;
    if kind == "see" {
        return see(alloc, desk, named, rest);
    }
    if kind == "try" {
        let command = command_of(alloc, "put", named, rest)?;
        return turn(alloc, desk, &command, false);
    }
    let command = command_of(alloc, kind, named, rest)?;
    turn(alloc, desk, &command, true)
}

// Opens the graph anew.
fn open(alloc: Global, desk: Desk) -> Result<Desk, Fail> {
    let Desk {
        tables,
        graph: _graph,
        told: _told,
    } = desk;
    let graph = opened_by::<Brand>(Blank::new(1), alloc, &tables)?;
    let told = String::from_str(alloc, "opened")?;
    Ok(Desk {
        tables,
        graph,
        told,
    })
}

// Looks something up in the graph.
fn see(alloc: Global, desk: Desk, named: Name, what: &str) -> Result<Desk, Fail> {
    let told = seen_text(alloc, &desk.graph, named, what)?;
    let Desk {
        tables,
        graph,
        told: _told,
    } = desk;
    Ok(Desk {
        tables,
        graph,
        told,
    })
}

// Carries out a command, or prepares it alone.
fn turn(alloc: Global, desk: Desk, command: &Command, carried: bool) -> Result<Desk, Fail>
    requires { IsCommand command.now }
{
    let Desk {
        tables,
        graph,
        told: _told,
    } = desk;
    match tables.plan(command) {
        Ok(Plan::Change(change)) => changed(alloc, tables, graph, change, carried),
        Ok(Plan::Unchanged) => Ok(Desk {
            tables,
            graph,
            told: String::from_str(alloc, "unchanged")?,
        }),
        Err(_) => Err(Fail::from("a command is refused")),
    }
}

// Prepares the graph for a change, tells the most steps that this may take, and carries the change out, if it is to be.
fn changed(
    alloc: Global,
    tables: Tables,
    graph: Graph,
    change: Change,
    carried: bool,
) -> Result<Desk, Fail>
    requires stands { StandsFor tables.state graph }
    requires accepted { Accepts tables.state change }
{
    let (mut tables, mut graph) = (tables, graph);
    let prepared = prepared_by::<Brand>(Blank::new(1), &graph, &tables, &change)?;
    let most = most_steps(&graph, &prepared.graph, &tables, &change)?;
    let told = format!(in alloc; "changed {most}")?;
    if !carried {
        return Ok(Desk {
            tables,
            graph,
            told,
        });
    }
    tables.reserve(&change)?;
    tables.apply(change);
    graph.commit(prepared);
    Ok(Desk {
        tables,
        graph,
        told,
    })
}

// The most steps of a turn: those of the rows and noises that the graph after it keeps and the one before doesn't.
fn most_steps(
    before: &Graph,
    after: &Graph,
    tables: &Tables,
    change: &Change,
) -> Result<u64, Fail> {
    let mut most = 0u64;
    for node in after.nodes.rows.as_slice() {
        let key = &node.as_ref().key;
        if row_node(before.nodes.rows.as_slice(), key).is_none() {
            let each = steps_of(tables, change, key.trace, key.version, ROW_STEPS as u64)?;
            most = most.checked_add(each).ok_or("few steps")?;
        }
    }
    for node in after.nodes.noises.as_slice() {
        let key = &node.key;
        if noise_node(before.nodes.noises.as_slice(), key).is_none() {
            let each = steps_of(tables, change, key.trace, key.version, NOISE_STEPS as u64)?;
            most = most.checked_add(each).ok_or("few steps")?;
        }
    }
    Ok(most)
}

// So many steps for each sample of a version of a trace.
fn steps_of(
    tables: &Tables,
    change: &Change,
    trace: Name,
    version: u32,
    each: u64,
) -> Result<u64, Fail> {
    let trace = tables
        .trace_with(Some(change), trace, version)
        .ok_or("no trace")?;
    Ok(
        each.checked_mul(u64::from(trace.len()))
            .ok_or("few samples")?,
    )
}

// The part before the first one of a character, and the part behind it.
fn part(text: &str, by: char) -> Result<(&str, &str), Fail> {
    Ok(text.split_once(by).ok_or("a line has more parts")?)
}

// What a line asks of the tables.
fn command_of(alloc: Global, kind: &str, named: Name, rest: &str) -> Result<Command, Fail>
    ensures { IfOk result IsCommand }
{
    if kind == "put" {
        return put(alloc, named, rest);
    }
    if kind == "draft" {
        return draft(alloc, named, rest);
    }
    if kind == "freeze" {
        return freeze(named, rest);
    }
    if kind == "sequence" {
        return sequence(alloc, named, rest);
    }
    if kind == "events" {
        return events(alloc, named, rest);
    }
    rebind(named, rest)
}

// Puts a trace of a period and of samples, or of samples that are repeated.
fn put(alloc: Global, name: Name, text: &str) -> Result<Command, Fail>
    ensures { IfOk result IsCommand }
{
    let (period, rest) = part(text, ' ')?;
    let samples = samples_of(alloc, rest)?;
    let trace = Trace::from_samples(alloc, period.parse::<u64>()?, &samples)?;
    let (_name, _count) = (name.as_bytes(), trace.len());
    Ok(Command::Trace { name, trace })
}

fn samples_of(alloc: Global, text: &str) -> Result<Vec<i32>, Fail> {
    let Some((count, one)) = text.split_once(" times ") else {
        return numbers_of(alloc, text);
    };
    let one = numbers_of(alloc, one)?;
    let mut samples = Vec::new(alloc);
    for _ in 0..count.parse::<u32>()? {
        samples.extend_from_slice(&one)?;
    }
    Ok(samples)
}

// Puts a method as a draft.
fn draft(alloc: Global, name: Name, words: &str) -> Result<Command, Fail>
    ensures { IfOk result IsCommand }
{
    let text = method_text(alloc, words)?;
    Method::read_toml(alloc, text.as_bytes())?;
    let text = Bytes::from_vec(Vec::from_slice(alloc, text.as_bytes())?);
    let _name = name.as_bytes();
    if text.len() >= 65_536 {
        return Err(Fail::from("a method is short"));
    }
    Ok(Command::Draft { name, text })
}

// The text of a method of a weight and a least area, of what stands behind `+` as it is, of a component for each name
// with its time behind `@`, and of a check of `caf` for each kind with its limit behind `=`.
fn method_text(alloc: Global, words: &str) -> Result<String, Fail> {
    let (weight, rest) = part(words, ' ')?;
    let (least, rest) = part(rest, ' ')?;
    let mut text = format!(in alloc; "{METHOD}weight = '{weight}'\nmin_area = {least}\n")?;
    for word in rest.split_whitespace() {
        text.push_str(stated_by(alloc, word)?.as_str())?;
    }
    Ok(text)
}

fn stated_by(alloc: Global, word: &str) -> Result<String, Fail> {
    if let Some(stated) = word.strip_prefix('+') {
        return Ok(format!(in alloc; "{stated}\n")?);
    }
    if let Some((name, time)) = word.split_once('@') {
        return Ok(format!(in alloc;
            "[[component]]\nname = '{name}'\ntime_ms = {time}\nwindow_ms = 500\n"
        )?);
    }
    let (kind, limit) = part(word, '=')?;
    Ok(format!(in alloc; "[[check]]\nkind = '{kind}'\ncomponent = 'caf'\nlimit = {limit}\n")?)
}

// Freezes the draft of a method.
fn freeze(name: Name, version: &str) -> Result<Command, Fail>
    ensures { IfOk result IsCommand }
{
    let version = version.parse::<u32>()?;
    let _name = name.as_bytes();
    Ok(Command::Freeze { name, version })
}

// Puts a sequence, which lists one sequence.
fn sequence(alloc: Global, named: Name, text: &str) -> Result<Command, Fail>
    ensures { IfOk result IsCommand }
{
    let (edition, rest) = part(text, ' ')?;
    let (method, rest) = part(rest, ' ')?;
    let (version, rest) = part(rest, ' ')?;
    let (standard, rest) = part(rest, ' ')?;
    let edition = edition_of(edition)?;
    let version = version_of(version)?;
    let standards = standards_of(alloc, standard)?;
    let words = words_of(alloc, rest)?;
    let rows = rows_of(alloc, words.as_str())?;
    let method = name_of(method)?;
    let (_named, _method) = (named.as_bytes(), method.as_bytes());
    Ok(Command::Sequence {
        name: named,
        edition,
        method,
        version,
        standards,
        rows,
    })
}

fn edition_of(text: &str) -> Result<u64, Fail>
    ensures { IfOk result (λ edition. edition ≤ MOST_EDITION) }
{
    let edition = text.parse::<u64>()?;
    if edition > MOST_EDITION {
        return Err(Fail::from("no edition"));
    }
    Ok(edition)
}

fn version_of(text: &str) -> Result<u32, Fail>
    ensures { IfOk result (λ version. version ≤ MOST_VERSIONS) }
{
    let version = text.parse::<u32>()?;
    if version > MOST_VERSIONS {
        return Err(Fail::from("no version"));
    }
    Ok(version)
}

fn standards_of(alloc: Global, text: &str) -> Result<NameList, Fail>
    ensures { IfOk result AreStandards }
{
    let listed = name_of(text)?;
    let _listed = listed.as_bytes();
    let mut names = Vec::new(alloc);
    names.push(listed)?;
    Ok(NameList::from_vec(names))
}

// The words of rows, where one whose label has a number behind `*` stands for so many rows.
fn words_of(alloc: Global, text: &str) -> Result<String, Fail> {
    let mut words = String::new(alloc);
    for word in text.split_whitespace() {
        let (label, rest) = part(word, ',')?;
        match label.split_once('*') {
            Some((label, count)) => push_words(alloc, &mut words, label, count, rest)?,
            None => words.push_str(format!(in alloc; " {word}")?.as_str())?,
        }
    }
    Ok(words)
}

fn push_words(
    alloc: Global,
    words: &mut String,
    label: &str,
    count: &str,
    rest: &str,
) -> Result<(), Fail> {
    for number in 0..count.parse::<u32>()? {
        words.push_str(format!(in alloc; " {label}{number},{rest}")?.as_str())?;
    }
    Ok(())
}

fn rows_of(alloc: Global, text: &str) -> Result<AskedRowList, Fail>
    ensures some { IfOk result (λ rows. 1 ≤ length rows) }
    ensures few { IfOk result (λ rows. length rows ≤ MOST_ROWS) }
    ensures each { IfOk result (All IsAskedRow) }
{
    let rows = each_row(alloc, text)?;
    if rows.is_empty() || rows.len() > MOST_ROWS {
        return Err(Fail::from("no rows"));
    }
    Ok(AskedRowList::from_vec(rows))
}

fn each_row(alloc: Global, text: &str) -> Result<Vec<AskedRow>, Fail>
    ensures { IfOk result (λ rows. All IsAskedRow rows.items) }
{
    let mut rows = Vec::new(alloc);
    for word in text.split_whitespace() {
        let row = row_of(alloc, word)?;
        rows.push(row)?;
    }
    Ok(rows)
}

// A row: its label, its kind, its trace, and its amount of `caf`, if it states one. `unused` is the kind of a standard
// that isn't used.
fn row_of(alloc: Global, text: &str) -> Result<AskedRow, Fail>
    ensures { IfOk result IsAskedRow }
{
    let (label, rest) = part(text, ',')?;
    let (kind, rest) = part(rest, ',')?;
    let (trace, amount) = part(rest, ',')?;
    let (label, trace) = (name_of(label)?, name_of(trace)?);
    let (_label, _trace) = (label.as_bytes(), trace.as_bytes());
    let amounts = amounts_of(alloc, amount)?;
    Ok(AskedRow {
        label,
        kind: kind_of(kind),
        trace,
        version: 0,
        used: kind != "unused",
        u: 1,
        v: 1,
        amounts,
        events: EventList::from_vec(Vec::new(alloc)),
    })
}

fn kind_of(text: &str) -> RowKind {
    match text {
        "blank" => RowKind::Blank,
        "standard" | "unused" => RowKind::Standard,
        "replicate" => RowKind::Replicate,
        _ => RowKind::Sample,
    }
}

fn amounts_of(alloc: Global, text: &str) -> Result<AskedAmountList, Fail>
    ensures { IfOk result (λ amounts. AreAmountNames (map (λ a. a.0) amounts)) }
{
    if text == "" {
        return Ok(AskedAmountList::from_vec(Vec::new(alloc)));
    }
    let component = name_of("caf")?;
    let _component = component.as_bytes();
    let mut amounts = Vec::new(alloc);
    amounts.push((component, text.parse::<i64>()?))?;
    Ok(AskedAmountList::from_vec(amounts))
}

// Puts one manual event of a row.
fn events(alloc: Global, name: Name, text: &str) -> Result<Command, Fail>
    ensures { IfOk result IsCommand }
{
    let (edition, rest) = part(text, ' ')?;
    let (row, rest) = part(rest, ' ')?;
    let (from, to) = part(rest, ' ')?;
    let edition = edition_of(edition)?;
    let row = row.parse::<u32>()?;
    let events = events_of(alloc, from.parse::<u32>()?, to.parse::<u32>()?)?;
    let _name = name.as_bytes();
    Ok(Command::Events {
        name,
        edition,
        row,
        events,
    })
}

fn events_of(alloc: Global, from: u32, to: u32) -> Result<EventList, Fail>
    ensures { IfOk result EventRanges }
{
    let event = Event::Inhibit { from, to };
    if !event.is_in_range() {
        return Err(Fail::from("no event"));
    }
    let mut events = Vec::new(alloc);
    events.push(event)?;
    Ok(EventList::from_vec(events))
}

// Binds a sequence to a version of its method.
fn rebind(name: Name, text: &str) -> Result<Command, Fail>
    ensures { IfOk result IsCommand }
{
    let (edition, version) = part(text, ' ')?;
    let edition = edition_of(edition)?;
    let version = version_of(version)?;
    let _name = name.as_bytes();
    Ok(Command::Rebind {
        name,
        edition,
        version,
    })
}

// What is looked up of a sequence: its verdict, a row, a calibration, an amount in a row, or the lines of a check.
fn seen_text(alloc: Global, graph: &Graph, named: Name, what: &str) -> Result<String, Fail> {
    let (kind, rest) = part_or(what, "1");
    let (number, rest) = part_or(rest, "1");
    let number = number.parse::<u32>()?;
    match kind {
        "row" => row_text(alloc, graph.row(named, number)),
        "line" => calibration_text(alloc, graph.calibration(named, number)),
        "amount" => amount_text(alloc, graph.amount(named, number, rest.parse::<u32>()?)),
        "check" => check_text(alloc, graph, named, number),
        _ => verdict_text(alloc, graph.verdict(named)),
    }
}

// The part before the first space, and the part behind it, or the other text.
fn part_or<'a>(text: &'a str, other: &'a str) -> (&'a str, &'a str) {
    match text.split_once(' ') {
        Some(parts) => parts,
        None => (text, other),
    }
}

fn verdict_text(alloc: Global, verdict: Option<Verdict>) -> Result<String, Fail> {
    match verdict {
        Some(verdict) => Ok(format!(in alloc; "{verdict:?}")?),
        None => Ok(String::from_str(alloc, "none")?),
    }
}

// The time and the area of each peak of a row.
fn row_text(alloc: Global, part: Option<&RowPart>) -> Result<String, Fail> {
    let Some(part) = part else {
        return Ok(String::from_str(alloc, "none")?);
    };
    let count = part.too_many();
    if count > 0 {
        return Ok(format!(in alloc; "{count} raw peaks")?);
    }
    peaks_text(alloc, part.peaks())
}

fn peaks_text(alloc: Global, peaks: &[Peak]) -> Result<String, Fail> {
    let mut text = String::from_str(alloc, "peaks")?;
    for peak in peaks {
        let (time, area) = (peak.time_us, peak.units);
        text.push_str(format!(in alloc; " {time}:{area}")?.as_str())?;
    }
    Ok(text)
}

// The number of points of a component, the slope and the intercept of its line, and its determination.
fn calibration_text(alloc: Global, calibration: Option<&Calibration>) -> Result<String, Fail> {
    let Some(calibration) = calibration else {
        return Ok(String::from_str(alloc, "none")?);
    };
    let count = calibration.points.len();
    let line = fit_text(alloc, calibration.line)?;
    let determination = number_text(alloc, calibration.determination)?;
    Ok(format!(in alloc; "{count} points {line} r2 {determination}")?)
}

fn fit_text(alloc: Global, line: Result<Fit, Missing>) -> Result<String, Fail> {
    match line {
        Ok(fit) => {
            let slope = value_text(alloc, Ok(fit.slope()))?;
            let intercept = value_text(alloc, Ok(fit.intercept()))?;
            Ok(format!(in alloc; "{slope} {intercept}")?)
        }
        Err(cause) => Ok(format!(in alloc; "{cause:?}")?),
    }
}

fn number_text(alloc: Global, number: Result<u32, Missing>) -> Result<String, Fail> {
    match number {
        Ok(number) => Ok(format!(in alloc; "{number}")?),
        Err(cause) => Ok(format!(in alloc; "{cause:?}")?),
    }
}

fn amount_text(alloc: Global, amount: Option<Result<Frac, Missing>>) -> Result<String, Fail> {
    match amount {
        Some(amount) => value_text(alloc, amount),
        None => Ok(String::from_str(alloc, "none")?),
    }
}

// The lines of a check, one behind the other.
fn check_text(alloc: Global, graph: &Graph, named: Name, number: u32) -> Result<String, Fail> {
    let mut text = String::from_str(alloc, "lines")?;
    for line in graph.lines(named, number).unwrap_or(&[]) {
        let line = line_text(alloc, line)?;
        text.push_str(format!(in alloc; " {line}")?.as_str())?;
    }
    Ok(text)
}
