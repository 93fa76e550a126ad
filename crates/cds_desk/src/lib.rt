//! The desk: routes and replies over its state, the serving of a connection, the words of the command line, and the
//! top call. Begin at [`run`], for a server at [`Desk::serve_connection`].
#![tactic(auto)]

mod answer;
mod asking;
mod commands;
mod desk;
mod judge;
mod judged;
mod laws;
mod methods;
mod opening;
mod peaks;
mod refusals;
mod reports;
mod routes;
mod sequences;
mod serve;
mod serving;
mod session;
mod signing;
mod state;
mod status;
mod store;
mod target;
mod top;
mod traces;
mod turn;

pub use answer::TOO_MANY_BYTES;
pub use desk::{Desk, OpenError};
pub use judged::Judged;
pub use laws::{
    a_made_signature_is_read_back, a_step_answers_neither_503_nor_507,
    a_turn_costs_what_its_step_makes_new, each_route_is_found_by_its_path,
    refused_request_changes_nothing, repeated_request_changes_nothing,
    served_items_have_one_outcome, the_limits,
};
pub use routes::Route;
pub use serving::Ended;
pub use status::Status;
pub use target::Target;
pub use top::run;

#[cfg(test)]
mod report_tests;
#[cfg(test)]
mod test_devices;
#[cfg(test)]
mod tests;
