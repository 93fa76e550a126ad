//! The inputs of sequences, as they are and as a change would make them.
ghost use Rattle.std.specs.Prelude.{◌≡◌, ◌≤◌, ◌+◌, Ok, map, length, ok_or, option_copied, IfOk, if◌then◌else◌};
ghost use Rattle.std.specs.List.{filter_map};
ghost use Rattle.std.specs.Str.{bytes_eq};
ghost use Rattle.cds_base.specs.Answers.{Gives};
ghost use Rattle.cds_book.specs.Inputs.{bindings_of, resolved, row_resolved, row_listed, listed_as, listed_of, inputs_in, inputs_by, inputs_of};
ghost use Rattle.cds_book.specs.Held.{bindings_over};
ghost use Rattle.cds_book.specs.declared.error.PlanError.TheVariants.{NoSequence, NoMemory as WantsMemory};

use crate::error::PlanError;
use crate::judge::is_standard;
use crate::over::Over;
use crate::tables::Tables;
use cds_base::{Name, NoMemory};
use cds_sign::{Inputs, Listed, ListedList, ListedRow, ListedRowList, Row, RowList, Sequence};

impl Tables {
    /// The inputs of a sequence: the method with its version, each row with the version of its trace, and of each
    /// sequence that it lists the method and the standard rows, used or not, with theirs. It is refused with NoSequence
    /// exactly where there is no such sequence, and with NoMemory where memory is wanting. The tables stay as they are.
    #[tactic(auto, unfolding(crate::specs::Held::bindings_over))]
    pub fn inputs(&self, sequence: Name) -> Result<Inputs, PlanError>
        ensures { Gives WantsMemory (λ inputs. inputs)
            (ok_or (inputs_of self.now.state sequence) (NoSequence sequence)) result }
    {
        let Some(inputs) = self.inputs_over(&Over::Nothing, sequence)? else {
            return Err(PlanError::NoSequence(sequence));
        };
        Ok(inputs)
    }

    // The inputs of the sequence of a name, as a change makes them; none where there is no such sequence.
    #[tactic(auto, unfolding(crate::specs::Inputs::inputs_by))]
    pub(crate) fn inputs_over(&self, over: &Over, name: Name) -> Result<Option<Inputs>, NoMemory>
        ensures { IfOk result (λ inputs. inputs ≡ inputs_by (bindings_over self.now.state over.now) name) }
    {
        let Some(sequence) = self.sequence_over(over, name) else {
            return Ok(None);
        };
        let inputs = self.inputs_in(over, sequence)?;
        Ok(Some(inputs))
    }

    // The inputs of a sequence.
    #[tactic(auto, unfolding(crate::specs::Inputs::inputs_in))]
    fn inputs_in(&self, over: &Over, sequence: &Sequence) -> Result<Inputs, NoMemory>
        ensures { IfOk result (λ inputs. inputs ≡ inputs_in (bindings_over self.now.state over.now) sequence.now) }
    {
        let version = resolve(self.method_count(over, sequence.method), sequence.version);
        let rows = self.rows_resolved(over, sequence.rows.as_slice())?;
        let standards = self.standards_listed(over, sequence.standards.as_slice())?;
        Ok(Inputs {
            method: sequence.method,
            version,
            rows: RowList::from_vec(rows),
            standards: ListedList::from_vec(standards),
        })
    }

    // The rows with the versions of their traces.
    fn rows_resolved(&self, over: &Over, rows: &[Row]) -> Result<Vec<Row>, NoMemory>
        ensures { IfOk result (λ v. v.items ≡ map (row_resolved (bindings_over self.now.state over.now)) rows.now) }
    {
        let mut resolved = Vec::new(*self.sequences.entries.allocator());
        for place in 0..rows.len() {
            let row = self.row_resolved(over, &rows[place])?;
            resolved.push(row)?;
        }
        Ok(resolved)
    }

    // A row with the version of its trace.
    #[tactic(auto, unfolding(crate::specs::Inputs::row_resolved))]
    fn row_resolved(&self, over: &Over, row: &Row) -> Result<Row, NoMemory>
        ensures { IfOk result (λ r. r ≡ row_resolved (bindings_over self.now.state over.now) row.now) }
    {
        let mut copy = row.copy()?;
        copy.version = resolve(self.trace_count(over, row.trace), row.version);
        Ok(copy)
    }

    // What the sequences of these names give to those that list them.
    fn standards_listed(&self, over: &Over, names: &[Name]) -> Result<Vec<Listed>, NoMemory>
        ensures { IfOk result (λ v.
            v.items ≡ filter_map (listed_of (bindings_over self.now.state over.now)) names.now) }
    {
        let mut listed = Vec::new(*self.sequences.entries.allocator());
        for place in 0..names.len() {
            if let Some(one) = self.listed(over, names[place])? {
                listed.push(one)?;
            }
        }
        Ok(listed)
    }

    // What the sequence of a name gives to those that list it; none where there is no such sequence.
    #[tactic(auto, unfolding(crate::specs::Inputs::listed_of, crate::specs::Inputs::listed_as))]
    fn listed(&self, over: &Over, name: Name) -> Result<Option<Listed>, NoMemory>
        ensures { IfOk result (λ o. o ≡ listed_of (bindings_over self.now.state over.now) name) }
    {
        let Some(sequence) = self.sequence_over(over, name) else {
            return Ok(None);
        };
        let version = resolve(self.method_count(over, sequence.method), sequence.version);
        let rows = self.rows_listed(over, sequence.rows.as_slice())?;
        Ok(Some(Listed {
            sequence: name,
            method: sequence.method,
            version,
            rows: ListedRowList::from_vec(rows),
        }))
    }

    // What the standard rows give.
    fn rows_listed(&self, over: &Over, rows: &[Row]) -> Result<Vec<ListedRow>, NoMemory>
        ensures { IfOk result (λ v.
            v.items ≡ filter_map (row_listed (bindings_over self.now.state over.now)) rows.now) }
    {
        let mut listed = Vec::new(*self.sequences.entries.allocator());
        for place in 0..rows.len() {
            if let Some(row) = self.row_listed(over, &rows[place])? {
                listed.push(row)?;
            }
        }
        Ok(listed)
    }

    // What a row gives, if it is a standard.
    #[tactic(auto, unfolding(crate::specs::Inputs::row_listed))]
    fn row_listed(&self, over: &Over, row: &Row) -> Result<Option<ListedRow>, NoMemory>
        ensures { IfOk result (λ o. o ≡ row_listed (bindings_over self.now.state over.now) row.now) }
    {
        if !is_standard(row.kind) {
            return Ok(None);
        }
        let amounts = row.amounts.copy()?;
        let events = row.events.copy()?;
        Ok(Some(ListedRow {
            trace: row.trace,
            version: resolve(self.trace_count(over, row.trace), row.version),
            used: row.used,
            amounts,
            events,
        }))
    }

    // How many versions a trace name has.
    #[tactic(auto, unfolding(crate::specs::Held::bindings_over, crate::specs::Inputs::bindings_of))]
    fn trace_count(&self, over: &Over, name: Name) -> u32
        ensures { result ≡ (bindings_over self.now.state over.now).traces name }
    {
        self.rules();
        let count = self.signals(name).len() as u32;
        match over {
            Over::Trace(grown) => count + one_if(name, *grown),
            _ => count,
        }
    }

    // How many versions a method has.
    #[tactic(auto, unfolding(crate::specs::Held::bindings_over, crate::specs::Inputs::bindings_of))]
    fn method_count(&self, over: &Over, name: Name) -> u32
        ensures { result ≡ (bindings_over self.now.state over.now).methods name }
    {
        self.rules();
        let count = self.texts(name).len() as u32;
        match over {
            Over::Method(grown) => count + one_if(name, *grown),
            _ => count,
        }
    }

    // The sequence of a name.
    #[tactic(auto, unfolding(crate::specs::Held::bindings_over, crate::specs::Inputs::bindings_of))]
    fn sequence_over<'a>(&'a self, over: &'a Over, name: Name) -> Option<&'a Sequence>
        ensures { option_copied result ≡ (bindings_over self.now.state over.now).sequences name }
    {
        if let Over::Sequence(put, sequence) = over {
            if *put == name {
                return Some(sequence);
            }
        }
        self.sequence(name)
    }
}

// One where the two names are the same.
fn one_if(name: Name, grown: Name) -> u32
    ensures value { result ≡ (if bytes_eq name grown then 1 else 0) }
    ensures few { result ≤ 1 }
{
    if name == grown { 1 } else { 0 }
}

// The version that is bound where there are so many, 0 being the latest one.
fn resolve(count: u32, version: u32) -> u32
    ensures { result ≡ resolved count version }
{
    if version == 0 { count } else { version }
}
