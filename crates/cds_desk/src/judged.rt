//! What is judged of a request.

use cds_base::{Name, NoMemory};
use cds_book::Change;
use cds_respond::Reply;
use cds_wire::SignBody;

/// What a request comes to before the clock is asked.
#[derive(Drop)]
pub enum Wanted {
    /// It is judged.
    Judged(Judged),
    /// It wants this signature of a sequence, which is judged at the moment at which it is made.
    Signature { sequence: Name, asked: SignBody },
}

/// What is judged of a request: its reply, and the change that it makes if it makes one.
#[derive(Drop)]
pub enum Judged {
    /// This reply, and nothing changes.
    Reply(Reply),
    /// This reply, and this change.
    Change { reply: Reply, change: Change },
}

/// What is judged of a request, and the moment for which the clock was asked, if it was.
#[derive(Drop)]
pub(crate) struct JudgedAt {
    pub(crate) asked: Option<u64>,
    pub(crate) judged: Result<Judged, NoMemory>,
}
