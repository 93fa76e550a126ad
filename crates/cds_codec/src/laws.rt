//! Laws of records. Each is proved by its contract, and its body does nothing.
ghost use Rattle.std.specs.Prelude.{◌≡◌, ℕ, List, Option, Some};
ghost use Rattle.cds_sign.specs.Ranges.{IsChange};
ghost use Rattle.cds_sign.specs.declared.command.Change.{Change as Changed};
ghost use Rattle.cds_codec.specs.Record.{record_in, record_of, IsFormat, IsRecord, Reads, StandsIn};
ghost use Rattle.cds_codec.specs.declared.format.TheConstants.{FIRST_FORMAT, FORMAT, TRACE, DRAFT, FREEZE, SEQUENCE};
ghost use Rattle.cds_codec.specs.declared.format.TheConstants.{EVENTS, REBIND, SIGN, MOST_FIRST_SAMPLES};
ghost use Rattle.cds_codec.specs.declared.samples.TheConstants.{MOST_SEVENS};

/// What is written reads back: the record of a change that may be states this change and nothing else, as it is written
/// today, and in each of the formats in which the change can stand.
pub fn what_is_written_reads_back()
    ensures today { (change : Changed) (stated : Option Changed)
        → IsChange change → Reads (record_of change) stated → stated ≡ Some change }
    ensures each_format { (format : ℕ) (change : Changed) (stated : Option Changed)
        → IsFormat format → IsChange change → StandsIn format change
        → Reads (record_in format change) stated → stated ≡ Some change }
{}

/// A change that may be has a record as it is written today, and one record in each format.
pub fn each_change_has_one_record()
    ensures today { (change : Changed) → IsChange change → IsRecord (record_of change) change }
    ensures one { (a b : List ℕ) (change : Changed) (here : IsRecord a change) (there : IsRecord b change)
        → here.format ≡ there.format → a ≡ b }
{}

/// A record states one change in one format, so no two changes have the same record.
pub fn each_record_states_one_change()
    ensures change { (bytes : List ℕ) (c d : Changed) → IsRecord bytes c → IsRecord bytes d → c ≡ d }
    ensures format { (bytes : List ℕ) (c d : Changed) (here : IsRecord bytes c) (there : IsRecord bytes d)
        → here.format ≡ there.format }
{}

/// The formats and the kinds of records are these numbers.
pub fn the_kinds()
    ensures formats { (FIRST_FORMAT ≡ 1) × (FORMAT ≡ 2) }
    ensures kinds { (TRACE ≡ 1) × (DRAFT ≡ 2) × (FREEZE ≡ 3) × (SEQUENCE ≡ 4) }
    ensures more_kinds { (EVENTS ≡ 5) × (REBIND ≡ 6) × (SIGN ≡ 7) }
{}

/// The limits that definitions cite: of the samples of a trace in the first format, and of the bytes of a difference.
pub fn the_limits()
    ensures samples { MOST_FIRST_SAMPLES ≡ 100000 }
    ensures differences { MOST_SEVENS ≡ 5 }
{}
