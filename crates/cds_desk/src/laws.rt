//! Laws of the machine. Each is proved by its contract; its body does nothing but call the laws that it rests on.

ghost use Rattle.std.specs.Prelude.{◌≡◌, ◌≢◌, ◌≤◌, ◌^◌, ℕ, List, Some, None, IsTrue, is_some, option_map};
ghost use Rattle.cds_http.specs.Items.{Message, Item};
ghost use Rattle.cds_desk.specs.Serving.{World, AreServed, InAll};
ghost use Rattle.cds_desk.specs.declared.answer.TheConstants.{TOO_MANY_BYTES};
ghost use Rattle.cds_desk.specs.declared.target.TheConstants.{MOST_PATH_NUMBER};
ghost use Rattle.cds_desk.specs.declared.signing.TheConstants.{SIGNED_LIMIT};
ghost use Rattle.cds_desk.specs.Statuses.{exit_number};
ghost use Rattle.cds_desk.specs.declared.status.Status.TheVariants.{Done, Refused, NoCommand, SourceFailed, SinkFailed};
ghost use Rattle.cds_desk.specs.declared.status.Status.TheVariants.{DoorFailed, KeeperFailed, NoMemory, Damaged};
ghost use Rattle.cds_desk.specs.Repeat.{IsUnchanged};
ghost use Rattle.cds_base.specs.NameText.{IsName};
ghost use Rattle.cds_desk.specs.Routes.{path_number, path_with, number_of_path, target_of};
ghost use Rattle.cds_desk.specs.declared.routes.Route.{Route};
ghost use Rattle.cds_desk.specs.State.{State, after_change, cost_of};
ghost use Rattle.cds_desk.specs.Service.{Way, MayGo, turn};
ghost use Rattle.cds_graph.specs.Keys.{fresh};
ghost use Rattle.cds_book.specs.Inputs.{inputs_of};
ghost use Rattle.cds_book.specs.Plan.{applied, signature, Accepts};
ghost use Rattle.cds_book.specs.Tables.{TablesState, signed_of};
ghost use Rattle.cds_sign.specs.declared.command.Change.TheVariants as change;
ghost use Rattle.cds_desk.specs.Judged.{change_of};
ghost use Rattle.cds_desk.specs.Step.{judged, step};

use cds_book::{a_change_is_what_was_asked, a_repeated_change_changes_nothing};
use cds_graph::nothing_is_new_where_nothing_changed;

/// A request that changed the state, repeated at once: it changes nothing, and its reply is 200 and says that nothing
/// changed.
pub fn repeated_request_changes_nothing()
    ensures { (state : State) (m : Message) (moment again : ℕ) → IsTrue (is_some (change_of (judged state m moment)))
        → IsUnchanged (judged (after_change state (change_of (judged state m moment))) m again) }
{
    a_change_is_what_was_asked();
    a_repeated_change_changes_nothing();
}

/// A refused request changes nothing: where the status of its reply is 400 or above, it makes no change, and the state
/// after the step is that before it.
pub fn refused_request_changes_nothing()
    ensures { (state : State) (m : Message) (moment : ℕ) → 400 ≤ (step state m moment).reply.status
        → (change_of (judged state m moment) ≡ None) × ((step state m moment).state ≡ state) }
{}

/// A step answers neither 503 nor 507: these tell how a turn went, whatever the request is.
pub fn a_step_answers_neither_503_nor_507()
    ensures { (state : State) (m : Message) (moment : ℕ) → ((step state m moment).reply.status ≢ 503)
        × ((step state m moment).reply.status ≢ 507) }
{}

/// A signature that is made is read back under its number, as it was made and over the inputs of then.
pub fn a_made_signature_is_read_back()
    ensures { (tables : TablesState) (sequence : List ℕ) (number basis moment : ℕ) (name meaning text : List ℕ)
        → let made = change.Sign sequence number basis moment name meaning text in
        Accepts tables made → signed_of (applied tables made) sequence number
        ≡ option_map (signature number basis moment name meaning text) (inputs_of tables sequence) }
{}

/// What the turn of a request costs at most: the steps of the rows and the noises whose keys the step of the machine
/// makes new. A request that only reads, is refused or changes nothing takes no step, whichever way its turn goes.
pub fn a_turn_costs_what_its_step_makes_new()
    ensures new { (state : State) (m : Message) (moment : ℕ) → cost_of state (change_of (judged state m moment))
        ≡ fresh state.tables (step state m moment).state.tables }
    ensures none { (state : State) (m : Message) (way : Way)
        → ((moment : ℕ) → change_of (judged state m moment) ≡ None) → MayGo state m way
        → (turn state m way).cost ≡ 0 }
{
    nothing_is_new_where_nothing_changed();
}

/// Items that are served one after the other have one outcome in all: what is written is what is written for each in
/// turn, the state is that after the last, and the records that are kept are those of each in turn.
pub fn served_items_have_one_outcome()
    ensures { (items : List Item) (before now : World) → AreServed before items now → InAll before now items }
{}

/// Each route is found by its own path: what is written with a name, and with the digits of a number where its paths
/// have one, names this name and this number on the route.
pub fn each_route_is_found_by_its_path()
    ensures { (r : Route) (name digits : List ℕ) (number : ℕ) → IsName name → path_number digits ≡ Some number
        → target_of (path_with r name digits) ≡ Some
        (record { route = r; name = name; number = number_of_path r number }) }
{}

/// The limits of the desk: the greatest number in a path, the number of the refusal of a source that is too long, the
/// number of bytes below which a signed text is, and the numbers with which the program ends.
pub fn the_limits()
    ensures numbers { (MOST_PATH_NUMBER ≡ 4294967295) × (TOO_MANY_BYTES ≡ 9) }
    ensures texts { SIGNED_LIMIT ≡ 2 ^ 31 }
    ensures served { (exit_number Done ≡ 0) × (exit_number Refused ≡ 1) × (exit_number NoCommand ≡ 2)
        × (exit_number SourceFailed ≡ 3) }
    ensures unserved { (exit_number SinkFailed ≡ 4) × (exit_number KeeperFailed ≡ 5) × (exit_number NoMemory ≡ 6)
        × (exit_number DoorFailed ≡ 7) × (exit_number Damaged ≡ 8) }
{}
