//! What requests on the results of sequences come to.

ghost use Rattle.std.specs.Prelude.{◌≡◌, IfOk, is_some, option_map};
ghost use Rattle.std.specs.Option.{option_and_then};
ghost use Rattle.cds_book.specs.Tables.{sequence_of};
ghost use Rattle.cds_report.specs.Reported.{reported_of};
ghost use Rattle.cds_report.specs.RowText.{row_text};
ghost use Rattle.cds_report.specs.SequenceText.{sequence_text};
ghost use Rattle.cds_report.specs.SuitabilityText.{suitability_text};
ghost use Rattle.cds_desk.specs.Refusals.{absent_sequence, absent_row};
ghost use Rattle.cds_desk.specs.Step.{plain_reply, text_shown};

use crate::refusals::{absent_row, absent_sequence};
use crate::state::State;
use cds_base::{Bytes, Name, NoMemory};
use cds_report::{row_text, sequence_text, suitability_text};
use cds_respond::{Content, Reply};
use http::StatusCode;
use std::alloc::Global;

/// The results of a sequence, as a reply.
pub(crate) fn results(alloc: Global, state: &State, name: Name) -> Result<Reply, NoMemory>
    ensures { IfOk result (λ r. r ≡ text_shown (absent_sequence name)
        (option_map sequence_text (reported_of state.now.held.tables name))) }
{
    match sequence_text(alloc, state.tables(), state.graph(), name)? {
        Some(text) => Ok(plain(text)),
        None => absent_sequence(alloc, name),
    }
}

/// The results of a row of a sequence, as a reply.
pub(crate) fn row(alloc: Global, state: &State, name: Name, n: u32) -> Result<Reply, NoMemory>
    ensures { IfOk result (λ r. r
        ≡ text_shown (absent_row name n (is_some (sequence_of state.now.held.tables name)))
        (option_and_then (row_text n) (reported_of state.now.held.tables name))) }
{
    match row_text(alloc, state.tables(), state.graph(), name, n)? {
        Some(text) => Ok(plain(text)),
        None => absent_row(alloc, name, n, state.tables().sequence(name).is_some()),
    }
}

/// The system suitability of a sequence, as a reply.
pub(crate) fn suitability(alloc: Global, state: &State, name: Name) -> Result<Reply, NoMemory>
    ensures { IfOk result (λ r. r ≡ text_shown (absent_sequence name)
        (option_map suitability_text (reported_of state.now.held.tables name))) }
{
    match suitability_text(alloc, state.tables(), state.graph(), name)? {
        Some(text) => Ok(plain(text)),
        None => absent_sequence(alloc, name),
    }
}

/// A text as a reply. It takes no memory.
fn plain(text: Bytes) -> Reply
    ensures { result ≡ plain_reply text }
{
    Reply {
        status: StatusCode::OK,
        content: Content::Plain,
        allow: None,
        body: text,
    }
}
