//! What is read of the tables as a change would leave them.
ghost use Rattle.std.specs.Prelude.{◌≡◌, option_copied, IfOk};
ghost use Rattle.cds_sign.specs.declared.command.Change.TheVariants as change;
ghost use Rattle.cds_book.specs.Inputs.{inputs_of};
ghost use Rattle.cds_book.specs.Plan.{applied, with_change};
ghost use Rattle.cds_book.specs.Tables.{trace_of, method_of};

use crate::over::Over;
use crate::tables::Tables;
use cds_base::{Name, NoMemory};
use cds_sign::{Change, Inputs};
use cds_trace::Trace;

impl Tables {
    /// The inputs of a sequence as a change would leave the tables, or as they are where there is no change. None
    /// exactly where there would be no such sequence. The tables stay as they are.
    pub fn inputs_with(
        &self,
        change: Option<&Change>,
        name: Name,
    ) -> Result<Option<Inputs>, NoMemory>
        ensures { IfOk result
            (λ inputs. inputs ≡ inputs_of (with_change self.now.state (option_copied change.entry)) name) }
    {
        let Some(change) = change else {
            return self.inputs_now(name);
        };
        self.inputs_after(change, name)
    }

    // The inputs of a sequence as the tables are; none where there is no such sequence.
    #[tactic(auto, unfolding(crate::specs::Held::bindings_over))]
    fn inputs_now(&self, name: Name) -> Result<Option<Inputs>, NoMemory>
        ensures { IfOk result (λ inputs. inputs ≡ inputs_of self.now.state name) }
    {
        self.inputs_over(&Over::Nothing, name)
    }

    // The inputs of a sequence after a change.
    fn inputs_after(&self, change: &Change, name: Name) -> Result<Option<Inputs>, NoMemory>
        ensures { IfOk result (λ inputs. inputs ≡ inputs_of (applied self.now.state change.now) name) }
    {
        let over = self.over(change)?;
        self.inputs_over(&over, name)
    }

    /// The version of a trace, counted from 1, as a change would leave the tables, or as they are where there is no
    /// change. None exactly where it wouldn't be there.
    pub fn trace_with<'a>(
        &'a self,
        change: Option<&'a Change>,
        name: Name,
        version: u32,
    ) -> Option<&'a Trace>
        ensures { option_copied result
            ≡ trace_of (with_change self.now.state (option_copied change.entry)) name version }
    {
        let Some(change) = change else {
            return self.trace(name, version);
        };
        self.trace_after(change, name, version)
    }

    // The version of a trace after a change.
    fn trace_after<'a>(&'a self, change: &'a Change, name: Name, version: u32) -> Option<&'a Trace>
        ensures { option_copied result ≡ trace_of (applied self.now.state change.now) name version }
    {
        match change {
            Change::Trace { name: put, trace } => {
                if *put != name {
                    return self.trace(name, version);
                }
                self.trace_put(name, trace, version)
            }
            _ => self.trace(name, version),
        }
    }

    // The version of a trace that is put.
    fn trace_put<'a>(&'a self, name: Name, trace: &'a Trace, version: u32) -> Option<&'a Trace>
        ensures { option_copied result ≡ trace_of (applied self.now.state (change.Trace name trace.now)) name version }
    {
        if version as usize != self.signals(name).len() + 1 {
            return self.trace(name, version);
        }
        Some(trace)
    }

    /// The text of a method's version, counted from 1, as a change would leave the tables, or as they are where there
    /// is no change. None exactly where it wouldn't be there.
    pub fn method_with<'a>(
        &'a self,
        change: Option<&'a Change>,
        name: Name,
        version: u32,
    ) -> Option<&'a [u8]>
        ensures { option_copied result
            ≡ method_of (with_change self.now.state (option_copied change.entry)) name version }
    {
        let Some(change) = change else {
            return self.method(name, version);
        };
        self.method_after(change, name, version)
    }

    // The text of a method's version after a change.
    fn method_after<'a>(&'a self, change: &'a Change, name: Name, version: u32) -> Option<&'a [u8]>
        ensures { option_copied result ≡ method_of (applied self.now.state change.now) name version }
    {
        match change {
            Change::Freeze {
                name: frozen,
                version: number,
            } => {
                if *frozen != name {
                    return self.method(name, version);
                }
                self.method_frozen(name, *number, version)
            }
            _ => self.method(name, version),
        }
    }

    // The text of a version of a method that is frozen.
    fn method_frozen(&self, name: Name, number: u32, version: u32) -> Option<&[u8]>
        ensures { option_copied result ≡ method_of (applied self.now.state (change.Freeze name number)) name version }
    {
        if version as usize != self.texts(name).len() + 1 {
            return self.method(name, version);
        }
        self.draft(name)
    }
}
