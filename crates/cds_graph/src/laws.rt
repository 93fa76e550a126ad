//! Laws of the results of sequences. Each is proved by its contract, and its body does nothing, or cites the laws that
//! it rests on.
ghost use Rattle.std.specs.Prelude.{◌≡◌, ℕ, ◌<◌, Decides, List, Some, map, option_map, unsigned_abs};
ghost use Rattle.cds_base.specs.declared.peak.Ratio.{Ratio};
ghost use Rattle.cds_figures.specs.Figures.{signal_noise_of, peak_valley_of};
ghost use Rattle.cds_integrate.specs.Seen.{ratio_seen};
ghost use Rattle.cds_graph.specs.Figures.{over_noise, over_boundary};
ghost use Rattle.cds_graph.specs.declared.key.RowKey.{RowKey};
ghost use Rattle.cds_graph.specs.declared.limits.TheConstants.{NOISE_STEPS, ROW_STEPS};
ghost use Rattle.cds_sign.specs.declared.command.Change.{Change as Changed};
ghost use Rattle.cds_sign.specs.declared.inputs.Inputs.{Inputs};
ghost use Rattle.cds_sign.specs.declared.row.Row.{Row};
ghost use Rattle.cds_book.specs.Inputs.{inputs_of};
ghost use Rattle.cds_book.specs.Plan.{applied};
ghost use Rattle.cds_book.specs.Tables.{TablesState};
ghost use Rattle.cds_graph.specs.Keys.{NoiseKey, same_row_key, same_noise_key, row_key, fresh};
ghost use Rattle.cds_graph.specs.Graph.{Kept, StandsFor};
ghost use Rattle.cds_graph.specs.GraphLooks.{fields_named, inputs_named, results_named};
ghost use Rattle.cds_graph.specs.Kept.{row_under};
ghost use Rattle.cds_graph.specs.Recorded.{fields_bound};
ghost use Rattle.cds_graph.specs.Results.{eval, results_of};
ghost use Rattle.cds_graph.specs.Staying.{AgreeOn, AreBound, HoldsInputs, all_applied};

use cds_book::{method_versions_stay, trace_versions_stay};

/// The results of inputs rest on nothing but the versions of traces and methods that the inputs name: in two tables
/// that have the same under these they are the same.
pub fn results_rest_on_what_inputs_name()
    ensures { (one other : TablesState) (inputs : Inputs)
        → AgreeOn one other inputs → eval one inputs ≡ eval other inputs }
{}

/// Whatever is changed, the results of inputs stay where the tables have each version that the inputs name.
pub fn results_stay()
    ensures { (tables : TablesState) (c : Changed) (inputs : Inputs)
        → HoldsInputs tables inputs → eval (applied tables c) inputs ≡ eval tables inputs }
{
    trace_versions_stay();
    method_versions_stay();
}

/// Whatever is changed, the tables still have each version that inputs name, where they had it.
pub fn inputs_stay_there()
    ensures { (tables : TablesState) (c : Changed) (inputs : Inputs)
        → HoldsInputs tables inputs → HoldsInputs (applied tables c) inputs }
{
    trace_versions_stay();
    method_versions_stay();
}

/// However many changes there are, the results of inputs stay where the tables have each version that the inputs name:
/// so the results of inputs that were signed are the same in all later tables.
pub fn results_stay_whatever_comes()
    ensures { (tables : TablesState) (changes : List Changed) (inputs : Inputs) → HoldsInputs tables inputs
        → eval (all_applied tables changes) inputs ≡ eval tables inputs }
{
    trace_versions_stay();
    method_versions_stay();
}

/// Where the graph stands for tables, what it keeps of the sequence of a name are the inputs that the tables give, the
/// fields that the method of the inputs states in the tables, and the results of the inputs, computed anew. So each
/// look-up in the graph is one in the results of the tables.
pub fn look_ups_are_those_of_the_tables()
    ensures inputs { (tables : TablesState) (graph : Kept) (name : List ℕ)
        → StandsFor tables graph → inputs_named graph name ≡ inputs_of tables name }
    ensures fields { (tables : TablesState) (graph : Kept) (name : List ℕ) → StandsFor tables graph
        → fields_named graph name ≡ option_map (fields_bound tables) (inputs_of tables name) }
    ensures results { (tables : TablesState) (graph : Kept) (name : List ℕ)
        → StandsFor tables graph → results_named graph name ≡ results_of tables name }
{}

/// In tables in which what each sequence binds is there, the inputs of a sequence name nothing else. So the results of
/// such inputs stay.
pub fn inputs_are_there()
    ensures { (tables : TablesState) (name : List ℕ) (inputs : Inputs)
        → AreBound tables → inputs_of tables name ≡ Some inputs → HoldsInputs tables inputs }
{}

/// The limits of steps are these numbers.
pub fn the_limits()
    ensures { (ROW_STEPS ≡ 32) × (NOISE_STEPS ≡ 2) }
{}

/// Two keys are the same exactly where they are equal.
pub fn keys_are_the_same_where_equal()
    ensures rows { (a b : RowKey) → Decides (same_row_key a b) (a ≡ b) }
    ensures noises { (a b : NoiseKey) → Decides (same_noise_key a b) (a ≡ b) }
{}

/// Where the tables stay, there is nothing to integrate: no key is new, and no step may be taken.
pub fn nothing_is_new_where_nothing_changed()
    ensures { (tables : TablesState) → fresh tables tables ≡ 0 }
{}

/// The figures of heights in lowest terms are those of the heights: twice a height over the noise is the signal to
/// noise, and a height over that of a boundary is the peak to valley.
pub fn heights_give_their_figures()
    ensures noise { (height : Ratio) (noise : ℕ)
        → 0 < noise → over_noise (ratio_seen height) noise ≡ signal_noise_of height noise }
    ensures valley { (height boundary : Ratio)
        → 0 < unsigned_abs boundary.num
        → over_boundary (ratio_seen height) (ratio_seen boundary) ≡ peak_valley_of height boundary }
{}

/// What is found in each row of a sequence is what the key of the row names, so rows with one key are one row.
pub fn rows_are_those_of_their_keys()
    ensures { (tables : TablesState) (inputs : Inputs)
        → (eval tables inputs).rows ≡ map (λ (row : Row). (row_under tables (row_key inputs row)).found) inputs.rows }
{}
