//! Laws of the items of a stream. Each is proved by its contract. The body does nothing, or reads the stream to find
//! what there is.

ghost use Rattle.std.specs.Prelude.{◌≡◌, ℕ, Bool, false, true, List, ◌++◌};
ghost use Rattle.cds_http.specs.declared.limits.TheConstants.{MESSAGE_ROOM, MOST_BODY_BYTES, MOST_FIELDS, MOST_HEAD_BYTES, MOST_LENGTH_DIGITS};
ghost use Rattle.cds_http.specs.Items.{Item, AreItems, HasItems};
ghost use Rattle.cds_http.specs.Totality.{passes};
ghost use Rattle.cds_http.specs.Stream.{Stream, Decides, fed};
ghost use Rattle.cds_http.specs.declared.next.Next.{Next as Answer};
ghost use Rattle.cds_http.specs.declared.next.Next.TheVariants as next;
ghost use Rattle.cds_http.specs.declared.next.Request.{Request};

use crate::known::{Known, look};

/// What is decided of a stream stays decided: however its bytes go on, and whether or not they end then, its items
/// go on from those that were decided. So the items don't depend on how the stream was cut into pieces.
pub fn decided_items_stay()
    ensures { (place : ℕ) (bytes more : List ℕ) (continued ended : Bool) (decided items : List Item)
        → AreItems place bytes continued false decided → AreItems place (bytes ++ more) continued ended items
        → (later : List Item) × (items ≡ decided ++ later) }
{}

/// A stream has one list of items.
pub fn one_list_of_items()
    ensures { (place : ℕ) (bytes : List ℕ) (continued ended : Bool) (items others : List Item)
        → AreItems place bytes continued ended items → AreItems place bytes continued ended others → items ≡ others }
{}

/// Each stream has a list of items, whether it has ended or may go on.
pub fn each_stream_has_items(bytes: &[u8], ended: bool)
    ensures { (items : List Item) × HasItems bytes.now ended items }
{
    let mut at = 0;
    loop {
        let rest = &bytes[at..];
        let known = look(Known::START, rest, at as u64);
        let Some(size) = passed(&known, rest.len()) else {
            return;
        };
        at += size;
    }
}

/// How many bytes the whole message at the front takes, where it leaves the connection open.
fn passed(known: &Known, held: usize) -> Option<usize>
    ensures { result ≡ passes known.now held }
{
    let Known::Head(head) = known else {
        return None;
    };
    let size = head.request.body.end as usize;
    if head.request.close {
        return None;
    }
    if held < size {
        return None;
    }
    Some(size)
}

/// What was fed and not dropped decides the answer alone.
pub fn one_answer()
    ensures { (stream : Stream) (answer other : Answer) → Decides stream answer → Decides stream other
        → answer ≡ other }
{}

/// Until it is dropped, a request is answered again, whatever is fed.
pub fn request_stays()
    ensures { (stream : Stream) (piece : List ℕ) (request : Request)
        → Decides stream (next.Request request) → Decides (fed stream piece) (next.Request request) }
{}

/// A `Continue` is answered once.
pub fn continue_comes_once()
    ensures { (stream : Stream) → stream.continued ≡ true → ¬ (Decides stream next.Continue) }
{}

/// The limits that the definitions cite: of a head, of its fields, of a body, of the digits of its length, and the
/// room for one greatest message.
pub fn the_limits()
    ensures { (MOST_HEAD_BYTES ≡ 16384) × (MOST_FIELDS ≡ 64) × (MOST_BODY_BYTES ≡ 16777216) × (MOST_LENGTH_DIGITS ≡ 19)
        × (MESSAGE_ROOM ≡ 16793600) }
{}
