ghost use Rattle.std.specs.Prelude.{◌≡◌, false, option_copied, IsSome};
ghost use Rattle.std.specs.Option.{option_map_or};
ghost use Rattle.std.specs.Str.{bytes_eq};
ghost use Rattle.cds_base.specs.Answers.{Gives};
ghost use Rattle.cds_book.specs.Plan.{planned, carried, counts_of, is_latest, limit_passed, same_signal, AnswersAccepted, PlansContent, IsCommand};
ghost use Rattle.cds_book.specs.Tables.{draft_of};
ghost use Rattle.cds_sign.specs.declared.command.Command.TheVariants as command;
ghost use Rattle.cds_sign.specs.declared.command.Change.TheVariants as change;
ghost use Rattle.cds_book.specs.declared.error.PlanError.TheVariants.{NoMemory};

use crate::command::Plan;
use crate::error::PlanError;
use crate::limits::{
    MOST_METHOD_VERSIONS, MOST_METHODS, MOST_SAMPLES_IN_ALL, MOST_TRACE_NAMES, MOST_TRACE_VERSIONS,
};
use crate::tables::Tables;
use cds_base::{Bytes, Name};
use cds_sign::{Change, Command, MOST_VERSIONS};
use cds_trace::Trace;

impl Tables {
    /// What a command comes to: Unchanged where the tables are already as it asks, else a change, or the first refusal.
    /// First the things that the path names are judged, which are the draft of a freeze (NoMethod), a sequence whose
    /// events or binding are changed or that is signed (NoSequence), and the row of its events (NoRow). Then those that
    /// the body names: a method (NoMethod), the version of it (NoVersion), the listed sequences in order (NoSequence),
    /// of which the sequence itself may be one, and then for each row its trace (NoTrace), the version of it
    /// (NoVersion), its label (TwoLabels) and its amounts (BadAmount). Then nothing changes where the trace is equal to
    /// the latest version of its name, the text to the draft, the draft to the latest version, the content, the events
    /// or the binding to those kept, or where the signature is kept, whatever number or edition is named. Then comes
    /// the conflict: Number, Edition, or of a signature Number and then Basis. Full is judged last: of the limits in
    /// their order the first one that the tables with the change would pass. The tables stay as they are.
    pub fn plan(&self, command: &Command) -> Result<Plan, PlanError>
        requires { IsCommand command.now }
        ensures value { Gives NoMemory (λ p. p) (planned self.now.state command.now) result }
        ensures accepted { AnswersAccepted self.now.state result }
        ensures content { PlansContent result }
    {
        self.rules();
        match command {
            Command::Trace { name, trace } => self.plan_trace(*name, trace),
            Command::Draft { name, text } => self.plan_draft(*name, text),
            Command::Freeze { name, version } => self.plan_freeze(*name, *version),
            Command::Sequence {
                name,
                edition,
                method,
                version,
                standards,
                rows,
            } => self.plan_sequence(*name, *edition, *method, *version, standards, rows),
            Command::Events {
                name,
                edition,
                row,
                events,
            } => self.plan_events(*name, *edition, *row, events),
            Command::Rebind {
                name,
                edition,
                version,
            } => self.plan_rebind(*name, *edition, *version),
            Command::Sign {
                sequence,
                number,
                basis,
                moment,
                name,
                meaning,
                text,
            } => self.plan_sign(*sequence, *number, *basis, *moment, name, meaning, text),
        }
    }

    fn plan_trace(&self, name: Name, trace: &Trace) -> Result<Plan, PlanError>
        ensures { Gives NoMemory (λ p. p) (planned self.now.state (command.Trace name trace.now)) result }
    {
        let _count = trace.len();
        if is_latest_trace(self.signals(name), trace) {
            return Ok(Plan::Unchanged);
        }
        if let Some(limit) = limit_passed(&self.trace_counts(name, trace)) {
            return Err(PlanError::Full(limit));
        }
        let trace = trace.copy()?;
        Ok(Plan::Change(Change::Trace { name, trace }))
    }

    // The counts that a trace raises, with their limits.
    fn trace_counts(&self, name: Name, trace: &Trace) -> [(u64, u64); 4]
        ensures { result
            ≡ counts_of (change.Trace name trace.now) (carried self.now.state (change.Trace name trace.now)) }
    {
        let versions = self.signals(name);
        let names = self.traces.len() as u64 + u64::from(versions.is_empty());
        [
            (names, MOST_TRACE_NAMES),
            (versions.len() as u64 + 1, MOST_VERSIONS as u64),
            (self.trace_versions + 1, MOST_TRACE_VERSIONS),
            (self.samples + u64::from(trace.len()), MOST_SAMPLES_IN_ALL),
        ]
    }

    fn plan_draft(&self, name: Name, text: &Bytes) -> Result<Plan, PlanError>
        ensures { Gives NoMemory (λ p. p) (planned self.now.state (command.Draft name text.now)) result }
    {
        if is_draft(self.draft(name), text.as_slice()) {
            return Ok(Plan::Unchanged);
        }
        if let Some(limit) = limit_passed(&self.draft_counts(name, text)) {
            return Err(PlanError::Full(limit));
        }
        let text = Bytes::from_vec(Vec::from_slice(
            *self.methods.entries.allocator(),
            text.as_slice(),
        )?);
        Ok(Plan::Change(Change::Draft { name, text }))
    }

    // The count that a draft raises, with its limit.
    fn draft_counts(&self, name: Name, text: &Bytes) -> [(u64, u64); 1]
        ensures { result
            ≡ counts_of (change.Draft name text.now) (carried self.now.state (change.Draft name text.now)) }
    {
        let is_new = self.draft(name).is_none();
        [(self.methods.len() as u64 + u64::from(is_new), MOST_METHODS)]
    }

    fn plan_freeze(&self, name: Name, version: u32) -> Result<Plan, PlanError>
        ensures { Gives NoMemory (λ p. p) (planned self.now.state (command.Freeze name version)) result }
    {
        self.rules();
        let Some(draft) = self.draft(name) else {
            return Err(PlanError::NoMethod(name));
        };
        let texts = self.texts(name);
        if is_latest_text(texts, draft) {
            return Ok(Plan::Unchanged);
        }
        let next = texts.len() as u32 + 1;
        if version != next {
            return Err(PlanError::Number(next));
        }
        if let Some(limit) = limit_passed(&self.freeze_counts(name, version)) {
            return Err(PlanError::Full(limit));
        }
        Ok(Plan::Change(Change::Freeze { name, version }))
    }

    // The counts that a freeze raises, with their limits.
    fn freeze_counts(&self, name: Name, version: u32) -> [(u64, u64); 2]
        requires { IsSome (draft_of self.now.state name) }
        ensures { result
            ≡ counts_of (change.Freeze name version) (carried self.now.state (change.Freeze name version)) }
    {
        let texts = self.texts(name);
        [
            (texts.len() as u64 + 1, MOST_VERSIONS as u64),
            (self.method_versions + 1, MOST_METHOD_VERSIONS),
        ]
    }
}

// Whether a trace is equal to the latest of the versions.
fn is_latest_trace(versions: &[Trace], trace: &Trace) -> bool
    ensures { result ≡ is_latest same_signal versions.now trace.now }
{
    versions.last().is_some_and(|last| is_same(last, trace))
}

// Whether two traces are equal.
fn is_same(version: &Trace, trace: &Trace) -> bool
    ensures { result ≡ same_signal version.now trace.now }
{
    version.same(trace)
}

// Whether a text is the latest of the versions.
fn is_latest_text(versions: &[Bytes], text: &[u8]) -> bool
    ensures { result ≡ is_latest bytes_eq versions.now text.now }
{
    versions
        .last()
        .is_some_and(|version| version.as_slice() == text)
}

// Whether there is a draft and it is this text.
fn is_draft(draft: Option<&[u8]>, text: &[u8]) -> bool
    ensures { result ≡ option_map_or (λ d. bytes_eq d text.now) (option_copied draft.entry) false }
{
    draft.is_some_and(|draft| draft == text)
}

// The first limit that a count passes.
pub(crate) fn limit_passed(counts: &[(u64, u64)]) -> Option<u64>
    ensures { result ≡ limit_passed counts.now }
{
    counts
        .iter()
        .find(|(count, limit)| limit < count)
        .map(|(_, limit)| *limit)
}
