ghost use Rattle.std.specs.Prelude.{◌≡◌, ◌≢◌, None, ℕ, ◌<◌, ◌≤◌, true, List, [], ◌∷◌, ◌++◌, length, Option, Some, Err, IsTrue, option_map, is_some, is_ok, IfOk, IfSome, OnOk, OnErr};
ghost use Rattle.cds_base.specs.Failing.{one_more};
ghost use Rattle.cds_base.specs.Faults.{Rose};
ghost use Rattle.cds_keep.specs.Crash.{IsContent, IsContentOrPut, FindsContentOrPending, MayPend, Leaves};
ghost use Rattle.cds_keep.specs.Found.{Found, records, damaged, FindsOneMoreAtMost};
ghost use Rattle.cds_keep.specs.Told.{KeeperTold};

use crate::error::{LoadError, PutError};
use crate::records::Records;

/// A record is shorter than this, in bytes.
pub const RECORD_LIMIT: usize = 4_294_967_296;

/// A store of records, which are byte strings in the order in which they were put. It may tell its content, and what
/// a load would find; whether it tells these stays as it is, but that a store may tell a content only while it is
/// open. It is open exactly where its last load answered Ok. Its count of faults never falls, and each call is
/// counted.
///
/// It may also tell what a crash leaves. Then a crash between two calls leaves the content, or the content with the
/// pending record behind it, which is the record of a put that failed.
pub trait Keeper {
    /// The records that it holds, where it tells them, whether it is open, and its counts of faults and of calls.
    ghost told: { Self → KeeperTold };

    /// What a load of the store of a name finds, where it tells it. The name is its bytes.
    ghost finds: { Self → List ℕ → Option Found };

    /// The record of a put that failed, which a later load may find behind the content; one or none.
    ghost pending: { Self → Option (List ℕ) } = { λ _. None };

    /// Where this holds, the store tells what a crash leaves; it then holds after each call.
    ghost tells_crashes: { Self → Type 0 } = { λ _. ⊥ };

    /// The moment, as a number that doesn't fall, where the store tells what a crash leaves.
    ghost moment: { Self → ℕ } = { λ _. 0 };

    /// The lists that a crash at some moment since that one may have left, during a call or between two.
    ghost left_since: { Self → ℕ → List (List ℕ) → Type 0 } = { λ _ _ _. ⊥ };

    /// Opens the store of this name and answers its records in order. Where it is told what a load of this name
    /// finds, Ok answers exactly the list found, which is then the told content and what a load of any name finds;
    /// and `Damaged` comes exactly where the store can't delimit a record, with its number. A content that was told
    /// before Ok is told after it. `Failed` comes only where the count of faults rose in this call; after any other
    /// answer the count is as before. After another answer than Ok no store is open, and what a load finds is as
    /// before. After Ok no record is pending. A crash during the call leaves only what a crash before it might have
    /// left.
    fn load(&mut self, store: &str) -> Result<Records, LoadError>
        ensures opened { (told self.new).is_open ≡ is_ok result }
        ensures found { IfOk result
            (λ list. IfSome (finds self.old store.now)
            (λ f. (f ≡ records list) × ((told self.new).content ≡ Some list))) }
        ensures holds { IfOk result (λ list. IfSome (told self.new).content (λ kept. kept ≡ list)) }
        ensures damage { (number : ℕ) → result ≡ Err (LoadError.Damaged number)
            → IfSome (finds self.old store.now) (λ f. f ≡ damaged number) }
        ensures finds_list { IfOk result
            (λ list. (name : List ℕ) → IfSome (finds self.new name) (λ f. f ≡ records list)) }
        ensures finds_stays { OnErr result ((name : List ℕ) → finds self.new name ≡ finds self.old name) }
        ensures tells_finds { (name : List ℕ) → is_some (finds self.new name) ≡ is_some (finds self.old name) }
        ensures still_tells_content { OnOk result
            (IsTrue (is_some (told self.old).content) → IsTrue (is_some (told self.new).content)) }
        ensures tells_content { OnOk result
            ((told self.old).is_open ≡ true → is_some (told self.new).content ≡ is_some (told self.old).content) }
        ensures called { (told self.new).calls ≡ one_more (told self.old).calls }
        ensures counts { (told self.old).faults ≤ (told self.new).faults }
        ensures failed { result ≡ Err LoadError.Failed → Rose (told self.old).faults (told self.new).faults }
        ensures count_stays { result ≢ Err LoadError.Failed → (told self.new).faults ≡ (told self.old).faults }
        ensures none_pends { OnOk result (pending self.new ≡ None) }
        ensures tells_crashes { tells_crashes self.old → tells_crashes self.new }
        ensures crash { tells_crashes self.old
            → Leaves (moment self.old) (moment self.new) (left_since self.old) (left_since self.new) (λ _. ⊥) };

    /// Appends a record to the open store. `Failed` comes only where the count of faults rose in this call; after any
    /// other answer the count is as before. After Ok a load of any name finds the told content. After an error the
    /// told content is as before; after `Failed` a load finds it, or it with one more record behind it, since a record
    /// whose put failed may be there at a later load. This is the pending record: the new one, the one that was
    /// pending before, or none. After Ok none is pending, and after want of memory the same as before. A crash during
    /// the call leaves what a crash before it might have left, or the content, alone or with the record behind it
    /// that was pending before, or with the new one.
    fn put(&mut self, body: &[u8]) -> Result<(), PutError>
        requires opened { (told self.old).is_open ≡ true }
        requires short { length body.now < RECORD_LIMIT }
        ensures stays_open { (told self.new).is_open ≡ true }
        ensures appended { OnOk result
            ((told self.new).content ≡ option_map (λ list. list ++ body.now ∷ []) (told self.old).content) }
        ensures as_before { OnErr result ((told self.new).content ≡ (told self.old).content) }
        ensures finds_content { OnOk result
            ((name : List ℕ)
            → IfSome (finds self.new name) (λ f. Some f ≡ option_map records (told self.new).content)) }
        ensures finds_more { result ≡ Err PutError.Failed → (name : List ℕ)
            → FindsOneMoreAtMost (finds self.new name) (told self.new).content }
        ensures finds_stays { result ≡ Err PutError.NoMemory → (name : List ℕ)
            → finds self.new name ≡ finds self.old name }
        ensures tells_finds { (name : List ℕ) → is_some (finds self.new name) ≡ is_some (finds self.old name) }
        ensures called { (told self.new).calls ≡ one_more (told self.old).calls }
        ensures counts { (told self.old).faults ≤ (told self.new).faults }
        ensures failed { result ≡ Err PutError.Failed → Rose (told self.old).faults (told self.new).faults }
        ensures count_stays { result ≢ Err PutError.Failed → (told self.new).faults ≡ (told self.old).faults }
        ensures none_pends { OnOk result (pending self.new ≡ None) }
        ensures may_pend { result ≡ Err PutError.Failed → MayPend (pending self.old) body.now (pending self.new) }
        ensures pending_stays { result ≡ Err PutError.NoMemory → pending self.new ≡ pending self.old }
        ensures finds_pending { result ≡ Err PutError.Failed → (name : List ℕ)
            → FindsContentOrPending (finds self.new name) (told self.new).content (pending self.new) }
        ensures tells_crashes { tells_crashes self.old → tells_crashes self.new }
        ensures crash { tells_crashes self.old
            → Leaves (moment self.old) (moment self.new) (left_since self.old) (left_since self.new)
            (IsContentOrPut (told self.old).content (pending self.old) body.now) };

    /// Where a store is open that tells what a crash leaves, a crash at this moment leaves the told content, or the
    /// content with the pending record behind it.
    ghost leaves_now: { (store : Self) → tells_crashes store → (told store).is_open ≡ true
        → (left : List (List ℕ)) → left_since store (moment store) left
        → IsContent (told store).content (pending store) left };
}
