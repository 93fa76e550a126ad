//! Appending the fields of a record to bytes.
ghost use Rattle.std.specs.Prelude.{◌≡◌, ◌∷◌, ◌++◌, ◌<◌, ◌≤◌, ◌^◌, ⊤, All, IfOk, List, OnOk, flat_map, length, ℕ};
ghost use Rattle.cds_codec.specs.Record.{bytes_of_32, bytes_of_64};
ghost use Rattle.cds_codec.specs.Record.{byte_of_used, bytes_of_amount, bytes_of_event, bytes_of_few};
ghost use Rattle.cds_codec.specs.Record.{bytes_of_many, bytes_of_name, bytes_of_row, bytes_of_text, bytes_of_three};
ghost use Rattle.cds_sign.specs.Ranges.{IsRow};
ghost use Rattle.cds_sign.specs.RowKinds.{kind_number};

use cds_base::{Event, Name};
use cds_sign::{Row, RowKind};
use std::alloc::AllocError;

/// What stands in a record as bytes.
pub(crate) trait Field {
    /// What the field may be.
    ghost can: { Self → Type 0 };

    /// The bytes of the field.
    ghost spelled: { Self → List ℕ };

    /// Appends the bytes of the field.
    fn push(&self, bytes: &mut Vec<u8>) -> Result<(), AllocError>
        requires { can self.now }
        ensures { OnOk result (bytes.new.items ≡ bytes.old.items ++ spelled self.now) };
}

/// Appends each of the items.
pub(crate) fn push_each<T: Field>(items: &[T], bytes: &mut Vec<u8>) -> Result<(), AllocError>
    requires { All T.can items.now }
    ensures { OnOk result (bytes.new.items ≡ bytes.old.items ++ flat_map T.spelled items.now) }
{
    for place in 0..items.len() {
        items[place].push(bytes)?;
    }
    Ok(())
}

/// Appends the number of the items in a byte, and each of them.
pub(crate) fn push_few<T: Field>(items: &[T], bytes: &mut Vec<u8>) -> Result<(), AllocError>
    requires each { All T.can items.now }
    requires few { length items.now < 256 }
    ensures { OnOk result (bytes.new.items ≡ bytes.old.items ++ bytes_of_few T.spelled items.now) }
{
    bytes.push(items.len() as u8)?;
    push_each(items, bytes)
}

/// Appends the number of the items in 32 bits, and each of them.
pub(crate) fn push_many<T: Field>(items: &[T], bytes: &mut Vec<u8>) -> Result<(), AllocError>
    requires each { All T.can items.now }
    requires few { length items.now < 2 ^ 32 }
    ensures { OnOk result (bytes.new.items ≡ bytes.old.items ++ bytes_of_many T.spelled items.now) }
{
    (items.len() as u32).push(bytes)?;
    push_each(items, bytes)
}

/// Appends a text behind its length.
pub(crate) fn push_text(text: &[u8], bytes: &mut Vec<u8>) -> Result<(), AllocError>
    requires { length text.now < 2 ^ 32 }
    ensures { OnOk result (bytes.new.items ≡ bytes.old.items ++ bytes_of_text text.now) }
{
    (text.len() as u32).push(bytes)?;
    bytes.extend_from_slice(text)
}

impl Field for u32 {
    ghost can = { λ n. ⊤ };

    ghost spelled = { bytes_of_32 };

    #[tactic(auto, unfolding(crate::specs::Record::bytes_of_32))]
    fn push(&self, bytes: &mut Vec<u8>) -> Result<(), AllocError> {
        bytes.extend_from_slice(&self.to_be_bytes())
    }
}

impl Field for u64 {
    ghost can = { λ n. ⊤ };

    ghost spelled = { bytes_of_64 };

    #[tactic(auto, unfolding(crate::specs::Record::bytes_of_64))]
    fn push(&self, bytes: &mut Vec<u8>) -> Result<(), AllocError> {
        bytes.extend_from_slice(&self.to_be_bytes())
    }
}

impl Field for Name {
    ghost can = { λ n. ⊤ };

    ghost spelled = { bytes_of_name };

    fn push(&self, bytes: &mut Vec<u8>) -> Result<(), AllocError> {
        let name = self.as_bytes();
        bytes.push(name.len() as u8)?;
        bytes.extend_from_slice(name)
    }
}

impl Field for (Name, u32) {
    ghost can = { λ a. ⊤ };

    ghost spelled = { bytes_of_amount };

    fn push(&self, bytes: &mut Vec<u8>) -> Result<(), AllocError> {
        self.0.push(bytes)?;
        self.1.push(bytes)
    }
}

impl Field for Event {
    ghost can = { λ e. ⊤ };

    ghost spelled = { bytes_of_event };

    fn push(&self, bytes: &mut Vec<u8>) -> Result<(), AllocError> {
        match *self {
            Event::Inhibit { from, to } => push_event(1, from, to, 0, bytes),
            Event::Valley { from, to } => push_event(2, from, to, 0, bytes),
            Event::Drop { at } => push_event(3, at, 0, 0, bytes),
            Event::Baseline { from, to } => push_event(4, from, to, 0, bytes),
            Event::Slope { at, on, off } => push_event(5, at, on, off, bytes),
            Event::Skim { from, to } => push_event(6, from, to, 0, bytes),
        }
    }
}

/// Appends the byte of a kind of events, and three numbers.
fn push_event(kind: u8, a: u32, b: u32, c: u32, bytes: &mut Vec<u8>) -> Result<(), AllocError>
    ensures { OnOk result (bytes.new.items ≡ bytes.old.items ++ kind ∷ bytes_of_three a b c) }
{
    bytes.push(kind)?;
    a.push(bytes)?;
    b.push(bytes)?;
    c.push(bytes)
}

impl Field for Row {
    ghost can = { IsRow };

    ghost spelled = { bytes_of_row };

    fn push(&self, bytes: &mut Vec<u8>) -> Result<(), AllocError> {
        self.label.push(bytes)?;
        bytes.push(kind_number(self.kind))?;
        self.trace.push(bytes)?;
        self.version.push(bytes)?;
        bytes.push(u8::from(self.used))?;
        self.u.push(bytes)?;
        self.v.push(bytes)?;
        push_few(self.amounts.as_slice(), bytes)?;
        push_few(self.events.as_slice(), bytes)
    }
}

/// The number of what a row is injected for.
fn kind_number(kind: RowKind) -> u8
    ensures { result ≡ kind_number kind }
{
    match kind {
        RowKind::Blank => 1,
        RowKind::Standard => 2,
        RowKind::Replicate => 3,
        RowKind::Sample => 4,
    }
}
