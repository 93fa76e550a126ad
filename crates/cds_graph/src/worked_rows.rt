//! Worked rows: the points, lines, amounts and checks of sequences.
ghost use Rattle.std.specs.Prelude.{◌≡◌, ◌<◌, ◌≤◌, All, IfOk, IsTrue};
ghost use Rattle.cds_graph.specs.Held.{found_shown, HoldAmounts};
ghost use Rattle.cds_graph.specs.Ranges.{AreAmounts, IsInRange};

use crate::check_line::CheckLine;
use crate::evaluate::evaluated;
use crate::found::{FoundListed, FoundRow, FoundSequence, FoundStandard, RowNode};
use crate::key::RowKey;
use crate::method::MethodNode;
use crate::sequence::SequenceNode;
use cds_base::{EventList, MOST_AMOUNT, Missing, Name, Steps};
use cds_frac::Frac;
use cds_rules::Method;
use cds_sign::{AmountList, ListedRow, MOST_ROWS, Row, RowKind};
use cds_trace::Trace;
use std::alloc::Global;
use std::marker::Brand;
use std::rc::Rc;
use std::sync::ledger::{Blank, Ledger};
use std::test::Fail;

// What each method states, but for its weight and its check: two components, the first at the fifth sample.
const METHOD: &str =
    "bunch = 1\nslope_on = 5\nslope_off = 5\nplateau = 3\nfuse = 2\nmin_area = 1\nmin_height = 1\n\
    component = [{name = 'a', time_ms = 5, window_ms = 1}, {name = 'b', time_ms = 9, window_ms = 1}]\n";

// Two peaks on one line, whose valley is above half their height.
const VALLEY: &str = "0 0 0 10 40 60 50 40 50 60 40 10 0 0 0";

// A line for each case: what it shows; the weight; the kind and the limit of the check of the first component; the
// standards, each with its amount, its area and whether it is used; the rows, each with its kind and its area; the
// amounts of the components in the last row; the lines of the check. The noise is 10.
const CASES: &str =
    r#"three standards on a line|equal|r2 10000|10:105:y 20:205:y 30:305:y|s:155|15/1 NoPeak|all 1/1 Pass
an unused standard gives no point|equal|r2 10000|10:105:y 20:205:y 99:160:n 30:305:y|s:155|15/1 NoPeak|all 1/1 Pass
two standards of one amount|equal|r2 9000|10:105:y 10:105:y|s:155|TooFew NoPeak|all TooFew Undecided(TooFew)
areas that fall|equal|r2 9000|10:305:y 20:205:y 30:105:y|s:155|NotRising NoPeak|all NotRising Undecided(NotRising)
weights|inverse|r2 9000|10:105:y 20:205:y 50:505:y 100:1005:y 200:2005:y|s:155|15/1 NoPeak|all 1/1 Pass
numbers past it|inverse|r2 9000|999999997:105:y 999999999:205:y 1000000000:305:y|s:155|Unfit NoPeak|all 4821/5000 Pass
a deviation at its limit|origin|rsd_area 200|10:105:y|r:100 r:102 r:98||all 2/1 Pass
a deviation above its limit|origin|rsd_area 199|10:105:y|r:100 r:102 r:98||all 2/1 Fail
a deviation that is shown as its limit|origin|rsd_area 200|10:105:y|r:100001 r:102000 r:97999||all 2/1 Fail
one replicate|origin|rsd_area 200|10:105:y|r:100||all TooFew Undecided(TooFew)
a replicate without a peak|origin|rsd_area 200|10:105:y|r:100 r:flat r:102||all NoPeak Undecided(NoPeak)
equal times|origin|rsd_time 1|10:105:y|r:100 r:160||all 0/1 Pass
widths that are cut|origin|resolution 150|10:105:y|r:valley||1 WidthCut Undecided(WidthCut)
no replicate row|origin|plates 1|10:105:y|s:105|10/1 NoPeak|all TooFew Undecided(TooFew)
two replicates|origin|tailing 100|10:105:y|s:105 r:160 r:flat||2 1/1 Pass 3 NoPeak Undecided(NoPeak)
the plates of a peak|origin|plates 19|10:105:y|r:160||1 138500000/7112889 Pass
twice the height over the noise|origin|signal_noise 1201|10:105:y|r:160||1 12/1 Fail
501 raw peaks|origin|tailing 200|10:105:y|r:many s:many|TooManyPeaks TooManyPeaks|1 TooManyPeaks Undecided(TooManyPeaks)
"#;

// Whether a sequence is within its ranges.
fn is_in_range(found: &FoundSequence) -> bool
    ensures { IsTrue result → IsInRange (found_shown found.now) }
{
    let rows = found.rows.as_slice();
    let standards = found.standards.as_slice();
    if rows.len() > MOST_ROWS {
        return false;
    }
    if !are_diluted(rows) {
        return false;
    }
    if !state_amounts(standards) {
        return false;
    }
    is_some(found.noise)
}

// Whether no row is diluted by 0.
fn are_diluted(rows: &[FoundRow]) -> bool
    ensures { IsTrue result → All (λ row. 1 ≤ row.row.v) rows.now }
{
    rows.iter().all(|row| row.row.v >= 1)
}

// Whether the standards of listed sequences state amounts.
fn state_amounts(standards: &[FoundListed]) -> bool
    ensures { IsTrue result → All HoldAmounts standards.now }
{
    standards.iter().all(|listed| are_standards(&listed.rows))
}

// Whether standards state amounts.
fn are_standards(rows: &[FoundStandard]) -> bool
    ensures { IsTrue result → All (λ standard. AreAmounts standard.row.amounts) rows.now }
{
    rows.iter().all(|row| are_amounts(&row.row.amounts))
}

// Whether amounts are within their range.
fn are_amounts(amounts: &AmountList) -> bool
    ensures { IsTrue result → AreAmounts amounts.now }
{
    amounts
        .as_slice()
        .iter()
        .all(|amount| 1 <= amount.1 && amount.1 <= MOST_AMOUNT)
}

// Whether there is a noise above 0, or none.
fn is_some(noise: Result<u32, Missing>) -> bool
    ensures { IsTrue result → IfOk noise (λ range. 0 < range) }
{
    match noise {
        Ok(range) => range > 0,
        Err(_) => true,
    }
}

pub(crate) fn name_of(text: &str) -> Result<Name, Fail> {
    Ok(Name::new(text.as_bytes()).ok_or("a name")?)
}

fn method_of(alloc: Global, weight: &str, check: &str) -> Result<Rc<MethodNode>, Fail> {
    let (kind, limit) = check.split_once(' ').ok_or("a check has a limit")?;
    let other = if kind == "resolution" {
        ", other = 'b'"
    } else {
        ""
    };
    let text = format!(in alloc;
        "{METHOD}weight = '{weight}'\ncheck = [{{kind = '{kind}', component = 'a', limit = {limit}{other}}}]\n"
    )?;
    let method = Method::read_toml(alloc, text.as_bytes())?;
    let node = MethodNode {
        name: name_of("m")?,
        version: 1,
        method,
    };
    Ok(Rc::new(alloc, node)?)
}

// The samples of a peak of this area at the fifth sample, one a millisecond.
fn of_area(alloc: Global, area: u32) -> Result<Vec<i32>, Fail> {
    if area > 1_000_000 {
        return Err(Fail::from("an area"));
    }
    let (outer, inner) = (area / 16, area / 4);
    let apex = area - 2 * outer - 2 * inner;
    let mut samples = Vec::new(alloc);
    for sample in [0, 0, 0, outer, inner, apex, inner, outer, 0, 0, 0] {
        samples.push(sample as i32)?;
    }
    Ok(samples)
}

pub(crate) fn numbers_of(alloc: Global, text: &str) -> Result<Vec<i32>, Fail> {
    let mut samples = Vec::new(alloc);
    for word in text.split_whitespace() {
        samples.push(word.parse::<i32>()?)?;
    }
    Ok(samples)
}

// So many peaks in a row.
fn peaks_in_a_row(alloc: Global, count: u32) -> Result<Vec<i32>, Fail> {
    let one = of_area(alloc, 160)?;
    let mut samples = Vec::new(alloc);
    for _ in 0..count {
        samples.extend_from_slice(&one)?;
    }
    Ok(samples)
}

fn samples_of(alloc: Global, word: &str) -> Result<Vec<i32>, Fail> {
    match word {
        "flat" => numbers_of(alloc, "0 0 0"),
        "valley" => numbers_of(alloc, VALLEY),
        "many" => peaks_in_a_row(alloc, 501),
        area => of_area(alloc, area.parse::<u32>()?),
    }
}

fn node_by<L: Ledger>(
    blank: Blank,
    alloc: Global,
    key: RowKey,
    trace: &Trace,
    method: &Method,
) -> Result<RowNode, Fail>
    requires name { blank.name ≡ L.name }
    requires parts { blank.parts ≡ L.parts }
    requires some { 0 < blank.parts }
{
    let mut steps: Steps<L> = Steps::new(blank);
    Ok(RowNode::integrated(alloc, key, trace, method, &mut steps)?)
}

fn node_of(alloc: Global, method: &Method, word: &str) -> Result<Rc<RowNode>, Fail> {
    let samples = samples_of(alloc, word)?;
    let trace = Trace::from_samples(alloc, 1_000, &samples)?;
    let key = RowKey {
        trace: name_of("t")?,
        version: 1,
        method: name_of("m")?,
        method_version: 1,
        events: EventList::from_vec(Vec::new(alloc)),
    };
    let node = node_by::<Brand>(Blank::new(1), alloc, key, &trace, method)?;
    Ok(Rc::new(alloc, node)?)
}

fn kind_of(word: &str) -> Result<RowKind, Fail> {
    match word {
        "b" => Ok(RowKind::Blank),
        "r" => Ok(RowKind::Replicate),
        "s" => Ok(RowKind::Sample),
        _ => Err(Fail::from("a kind")),
    }
}

fn row_of(alloc: Global, method: &Method, word: &str) -> Result<FoundRow, Fail> {
    let (kind, area) = word.split_once(':').ok_or("a row has an area")?;
    let row = Row {
        label: name_of("l")?,
        kind: kind_of(kind)?,
        trace: name_of("t")?,
        version: 1,
        used: true,
        u: 1,
        v: 1,
        amounts: AmountList::from_vec(Vec::new(alloc)),
        events: EventList::from_vec(Vec::new(alloc)),
    };
    let node = node_of(alloc, method, area)?;
    Ok(FoundRow { row, node })
}

fn standard_of(alloc: Global, method: &Method, word: &str) -> Result<FoundStandard, Fail> {
    let (amount, rest) = word.split_once(':').ok_or("a standard has an area")?;
    let (area, used) = rest.split_once(':').ok_or("a standard is used or not")?;
    let mut amounts = Vec::new(alloc);
    amounts.push((name_of("a")?, amount.parse::<u32>()?))?;
    let row = ListedRow {
        trace: name_of("t")?,
        version: 1,
        used: used == "y",
        amounts: AmountList::from_vec(amounts),
        events: EventList::from_vec(Vec::new(alloc)),
    };
    let node = node_of(alloc, method, area)?;
    Ok(FoundStandard { row, node })
}

fn listed_of(alloc: Global, method: Rc<MethodNode>, words: &str) -> Result<FoundListed, Fail> {
    let mut rows = Vec::new(alloc);
    for word in words.split_whitespace() {
        rows.push(standard_of(alloc, &method.as_ref().method, word)?)?;
    }
    Ok(FoundListed { method, rows })
}

fn rows_of(alloc: Global, method: &Method, words: &str) -> Result<Vec<FoundRow>, Fail> {
    let mut rows = Vec::new(alloc);
    for word in words.split_whitespace() {
        rows.push(row_of(alloc, method, word)?)?;
    }
    Ok(rows)
}

// The next field of a line, and what is behind it.
fn next_of(line: &str) -> Result<(&str, &str), Fail> {
    Ok(line.split_once('|').ok_or("a line has one more field")?)
}

// The results of a case, and what is expected of it.
fn results_of(alloc: Global, line: &str) -> Result<SequenceNode, Fail> {
    let (_shows, rest) = next_of(line)?;
    let (weight, rest) = next_of(rest)?;
    let (check, rest) = next_of(rest)?;
    let (standards, rest) = next_of(rest)?;
    let (words, _expected) = next_of(rest)?;
    let listed = listed_of(alloc, method_of(alloc, weight, check)?, standards)?;
    let method = method_of(alloc, weight, check)?;
    let rows = rows_of(alloc, &method.as_ref().method, words)?;
    evaluated_of(alloc, method, rows, listed)
}

fn evaluated_of(
    alloc: Global,
    method: Rc<MethodNode>,
    rows: Vec<FoundRow>,
    listed: FoundListed,
) -> Result<SequenceNode, Fail> {
    let mut standards = Vec::new(alloc);
    standards.push(listed)?;
    let found = FoundSequence {
        method,
        rows,
        standards,
        noise: Ok(10),
    };
    if !is_in_range(&found) {
        return Err(Fail::from("a sequence within its ranges"));
    }
    Ok(evaluated(alloc, found)?)
}

pub(crate) fn value_text(alloc: Global, value: Result<Frac, Missing>) -> Result<String, Fail> {
    match value {
        Ok(number) => Ok(format!(in alloc; "{}/{}", number.num(), number.den())?),
        Err(cause) => Ok(format!(in alloc; "{cause:?}")?),
    }
}

// The amounts of the two components in a row, as a case states them.
fn amounts_text(alloc: Global, node: &SequenceNode, n: u32) -> Result<String, Fail> {
    match (node.amount(n, 1), node.amount(n, 2)) {
        (Some(one), Some(other)) => {
            let first = value_text(alloc, one)?;
            let second = value_text(alloc, other)?;
            Ok(format!(in alloc; "{first} {second}")?)
        }
        _ => Ok(String::new(alloc)),
    }
}

pub(crate) fn line_text(alloc: Global, line: &CheckLine) -> Result<String, Fail> {
    let value = value_text(alloc, line.value)?;
    let verdict = line.verdict;
    match line.row {
        Some(n) => Ok(format!(in alloc; "{n} {value} {verdict:?}")?),
        None => Ok(format!(in alloc; "all {value} {verdict:?}")?),
    }
}

// The lines of the one check, as a case states them.
fn check_text(alloc: Global, node: &SequenceNode) -> Result<String, Fail> {
    let mut text = String::new(alloc);
    for k in 1..10u32 {
        let Some(line) = node.check(1, k) else {
            return Ok(text);
        };
        if k > 1 {
            text.push(' ')?;
        }
        text.push_str(&line_text(alloc, line)?)?;
    }
    Ok(text)
}

// What a case comes to, as its last two fields state it, with the border before each.
fn case_text(alloc: Global, line: &str) -> Result<String, Fail> {
    let node = results_of(alloc, line)?;
    let count = node.found.rows.len();
    if count > MOST_ROWS {
        return Err(Fail::from("few rows"));
    }
    let amounts = amounts_text(alloc, &node, count as u32)?;
    let lines = check_text(alloc, &node)?;
    Ok(format!(in alloc; "|{amounts}|{lines}")?)
}

#[test]
fn each_case_comes_to_its_amounts_and_lines(rt: HostRuntime) -> Result<(), Fail> {
    for line in CASES.lines() {
        let text = case_text(rt.alloc(), line)?;
        assert!(rt; line.ends_with(text.as_str()), "{} gives {}", line, text);
    }
    Ok(())
}
