//! Laws of the tables. Each is proved by its contract, and its body does nothing.
ghost use Rattle.std.specs.Prelude.{option_map, if◌then◌else◌, ◌≤◌, ◌≡◌, ◌≢◌, ℕ, ◌+◌, List, [], ◌∷◌, Ok, Some, None, unwrap_or, Decides, false};
ghost use Rattle.cds_trace.specs.Signal.{Signal};
ghost use Rattle.cds_book.specs.Kept.{IsTables};
ghost use Rattle.cds_book.specs.Plan.{planned, applied, carried, command_of, trace_changed, method_changed, Accepts};
ghost use Rattle.cds_book.specs.Plan.{basis_of, inputs_differ, sequence_changed, sequence_put};
ghost use Rattle.cds_book.specs.Judged.{edition_of, sign_judged, standards_judged};
ghost use Rattle.cds_sign.specs.Ranges.{IsChange};
ghost use Rattle.cds_book.specs.declared.command.SignPlan.TheVariants as sign;
ghost use Rattle.cds_book.specs.Tables.{TablesState, signals_of, texts_of, trace_of, trace_versions_of, draft_of, method_of, method_versions_of, sequence_of, signed_of};
ghost use Rattle.cds_book.specs.Inputs.{inputs_of};
ghost use Rattle.cds_book.specs.Reach.{is_reached};
ghost use Rattle.cds_book.specs.Same.{same_inputs};
ghost use Rattle.cds_sign.specs.declared.inputs.Inputs.{Inputs as InputsSeen};
ghost use Rattle.cds_sign.specs.declared.row.Row.{Row as RowSeen};
ghost use Rattle.cds_sign.specs.declared.sequence.Sequence.{Sequence as SequenceSeen};
ghost use Rattle.cds_sign.specs.declared.signed.Signed.{Signed as SignedSeen};
ghost use Rattle.cds_sign.specs.declared.command.Change.{Change as Changed};
ghost use Rattle.cds_sign.specs.declared.command.Command.{Command as Asked};
ghost use Rattle.cds_sign.specs.declared.command.Change.TheVariants as change;
ghost use Rattle.cds_book.specs.declared.command.Plan.TheVariants as plan;
ghost use Rattle.cds_book.specs.declared.limits.TheConstants.{MOST_TRACE_NAMES, MOST_TRACE_VERSIONS, MOST_SAMPLES_IN_ALL, MOST_METHODS, MOST_METHOD_VERSIONS};
ghost use Rattle.cds_book.specs.declared.limits.TheConstants.{MOST_SEQUENCES, MOST_ROWS_IN_ALL, MOST_SIGNED_BYTES};
ghost use Rattle.cds_sign.specs.declared.limits.TheConstants.{MOST_VERSIONS, MOST_SIGNATURES};

/// An accepted change keeps all rules of the tables: names rise in byte order and are names, traces are traces and
/// texts methods, each version differs from the one before it, the parts of rows and signatures are in their ranges,
/// what sequences bind and list is there, and no count passes its limit.
pub fn rules_are_kept()
    ensures { (tables : TablesState) (c : Changed) → IsTables tables → Accepts tables c → IsTables (applied tables c) }
{}

/// A change that was carried out, asked for again, changes nothing.
pub fn a_repeated_change_changes_nothing()
    ensures { (tables : TablesState) (c : Changed) → planned tables (command_of c) ≡ Ok (plan.Change c)
        → planned (applied tables c) (command_of c) ≡ Ok plan.Unchanged }
{}

/// A trace is put as the next version of its name, and as the first where there was no such name.
pub fn a_trace_is_the_next_version()
    ensures { (tables : TablesState) (name : List ℕ) (signal : Signal)
        → trace_versions_of (applied tables (change.Trace name signal)) name
        ≡ Some (unwrap_or (trace_versions_of tables name) 0 + 1) }
{}

/// An accepted freeze makes the draft the version of the number that was named, which is then the latest.
pub fn a_freeze_makes_the_version_named()
    ensures { (tables : TablesState) (name : List ℕ) (version : ℕ)
        → Accepts tables (change.Freeze name version)
        → method_versions_of (applied tables (change.Freeze name version)) name ≡ Some version }
{}

/// Whatever is changed, each version of a trace stays what it was.
pub fn trace_versions_stay()
    ensures { (tables : TablesState) (c : Changed) (name : List ℕ) (version : ℕ) (signal : Signal)
        → trace_of tables name version ≡ Some signal → trace_of (applied tables c) name version ≡ Some signal }
{}

/// Whatever is changed, each version of a method stays what it was.
pub fn method_versions_stay()
    ensures { (tables : TablesState) (c : Changed) (name : List ℕ) (version : ℕ) (text : List ℕ)
        → method_of tables name version ≡ Some text → method_of (applied tables c) name version ≡ Some text }
{}

/// A trace that was put is read back under the next number of its name.
pub fn a_trace_is_read_back()
    ensures { (tables : TablesState) (name : List ℕ) (signal : Signal)
        → trace_of (applied tables (change.Trace name signal)) name (unwrap_or (trace_versions_of tables name) 0 + 1)
        ≡ Some signal }
{}

/// A draft that was put is read back, whether there was a draft before or not.
pub fn a_draft_is_read_back()
    ensures { (tables : TablesState) (name text : List ℕ)
        → draft_of (applied tables (change.Draft name text)) name ≡ Some text }
{}

/// A draft that was frozen is read back under the number that was named.
pub fn a_frozen_version_is_the_draft()
    ensures { (tables : TablesState) (name : List ℕ) (version : ℕ)
        → Accepts tables (change.Freeze name version)
        → method_of (applied tables (change.Freeze name version)) name version ≡ draft_of tables name }
{}

/// A change leaves the versions of each trace that it doesn't change: a trace that is put leaves the traces of other
/// names, and each other change leaves all.
pub fn other_traces_stay()
    ensures { (tables : TablesState) (c : Changed) (name : List ℕ) → Some name ≢ trace_changed c
        → signals_of (applied tables c) name ≡ signals_of tables name }
{}

/// A change leaves the draft and the versions of each method that it doesn't change: a draft or a freeze leaves the
/// methods of other names, and each other change leaves all.
pub fn other_methods_stay()
    ensures { (tables : TablesState) (c : Changed) (name : List ℕ) → Some name ≢ method_changed c
        → (draft_of (applied tables c) name ≡ draft_of tables name)
        × (texts_of (applied tables c) name ≡ texts_of tables name) }
{}

/// A sequence that was put is read back with the next edition, and with a basis that is one more than before exactly
/// where its inputs are others.
pub fn a_put_sequence_is_read_back()
    ensures { (tables : TablesState) (name : List ℕ) (edition : ℕ) (method : List ℕ) (version : ℕ)
        (standards : List (List ℕ)) (rows : List RowSeen)
        → let put = change.Sequence name edition method version standards rows in
        sequence_of (applied tables put) name
        ≡ Some (record (sequence_put tables name method version standards rows)
        { basis = basis_of tables name + (if inputs_differ tables (carried tables put) name then 1 else 0) }) }
{}

/// An accepted change of a sequence raises its edition by one, from 0 where the sequence is new.
pub fn an_accepted_change_raises_the_edition()
    ensures { (tables : TablesState) (c : Changed) (name : List ℕ) → IsTables tables → Accepts tables c
        → sequence_changed c ≡ Some name → edition_of (applied tables c) name ≡ edition_of tables name + 1 }
{}

/// The test of inputs tells exactly whether they are equal.
pub fn equal_inputs_are_told()
    ensures { (a b : InputsSeen) → Decides (same_inputs a b) (a ≡ b) }
{}

/// Whatever is changed, the basis of a sequence that was there rises by one exactly where its inputs are then others.
pub fn a_basis_rises_where_inputs_differ()
    ensures { (tables : TablesState) (c : Changed) (name : List ℕ) (s : SequenceSeen) → sequence_of tables name ≡ Some s
        → option_map (λ (x : SequenceSeen). x.basis) (sequence_of (applied tables c) name)
        ≡ Some (s.basis + (if inputs_differ tables (applied tables c) name then 1 else 0)) }
{}

/// A change leaves the inputs of each sequence that it doesn't reach.
pub fn unreached_inputs_stay()
    ensures { (tables : TablesState) (c : Changed) (name : List ℕ) → is_reached tables c name ≡ false
        → inputs_of (applied tables c) name ≡ inputs_of tables name }
{}

/// A change leaves each sequence that it doesn't change, with its edition and its content: only its basis may rise.
/// And it makes no other sequence.
pub fn other_sequences_stay()
    ensures there { (tables : TablesState) (c : Changed) (name : List ℕ) (s : SequenceSeen)
        → Some name ≢ sequence_changed c → sequence_of tables name ≡ Some s → sequence_of (applied tables c) name
        ≡ Some (record s { basis = s.basis + (if inputs_differ tables (applied tables c) name then 1 else 0) }) }
    ensures absent { (tables : TablesState) (c : Changed) (name : List ℕ) → Some name ≢ sequence_changed c
        → sequence_of tables name ≡ None → sequence_of (applied tables c) name ≡ None }
{}

/// A sequence may list itself, also while it is new.
pub fn a_sequence_may_list_itself()
    ensures { (tables : TablesState) (name : List ℕ) → standards_judged tables name (name ∷ []) ≡ Ok (name ∷ []) }
{}

/// The parts of an accepted change are in their ranges.
pub fn an_accepted_change_is_in_its_ranges()
    ensures { (tables : TablesState) (c : Changed) → IsTables tables → Accepts tables c → IsChange c }
{}

/// A signature that was carried out, asked for again, is kept under its number, whatever moment and text it then has.
pub fn a_repeated_signature_is_kept()
    ensures { (tables : TablesState) (sequence : List ℕ) (number basis moment : ℕ) (name meaning text : List ℕ)
        → Accepts tables (change.Sign sequence number basis moment name meaning text)
        → sign_judged (applied tables (change.Sign sequence number basis moment name meaning text))
        sequence basis number name meaning ≡ Ok (sign.Kept number) }
{}

/// Whatever is changed, each signature stays what it was.
pub fn signatures_stay()
    ensures { (tables : TablesState) (c : Changed) (name : List ℕ) (number : ℕ) (signed : SignedSeen)
        → signed_of tables name number ≡ Some signed → signed_of (applied tables c) name number ≡ Some signed }
{}

/// A change that is planned is the one that was asked for.
pub fn a_change_is_what_was_asked()
    ensures { (tables : TablesState) (asked : Asked) (c : Changed)
        → planned tables asked ≡ Ok (plan.Change c) → command_of c ≡ asked }
{}

/// An accepted freeze makes a version of a number from 1 to the most that a method may have.
pub fn an_accepted_freeze_is_numbered()
    ensures { (tables : TablesState) (name : List ℕ) (version : ℕ)
        → Accepts tables (change.Freeze name version) → (1 ≤ version) × (version ≤ MOST_VERSIONS) }
{}

/// The limits of the tables are these numbers.
pub fn the_limits()
    ensures traces { (MOST_TRACE_NAMES ≡ 5000) × (MOST_TRACE_VERSIONS ≡ 10000) × (MOST_SAMPLES_IN_ALL ≡ 20000000) }
    ensures methods { (MOST_METHODS ≡ 500) × (MOST_METHOD_VERSIONS ≡ 10000) }
    ensures sequences { (MOST_SEQUENCES ≡ 500) × (MOST_ROWS_IN_ALL ≡ 5000) × (MOST_SIGNED_BYTES ≡ 268435456) }
    ensures each { (MOST_VERSIONS ≡ 1000) × (MOST_SIGNATURES ≡ 100) }
{}
