//! The results of a sequence, as a function of the tables.
//!
//! The definitions come first. Begin at `specs/Results.antt`: `results_of` is what a sequence of the tables comes to,
//! and `eval` what its inputs come to: the rows, the calibrations, the amounts, the noise, the lines of each check and
//! the verdict. `specs/Keys.antt` says what integration is done for, and what a change may cost. Of the laws,
//! [`results_stay`] says that what was signed can be computed again at any later time.
//!
//! Begin with the calls at [`Graph`]: it keeps the results of all sequences of the tables, [`Graph::prepare`] makes the
//! graph that stands for the tables after a change, and [`Graph::commit`] puts it in place of the one before. The
//! look-ups from [`Graph::row`] to [`Graph::verdict`] answer what it keeps of the sequence of a name.
#![tactic(auto)]

mod amounts;
mod build;
mod calibration;
mod check_line;
mod checks;
mod deviations;
mod entry;
mod evaluate;
mod figures;
mod found;
mod gather;
mod graph;
mod key;
mod laws;
mod limits;
mod look;
mod method;
mod methods;
mod noises;
mod places;
mod row_lines;
mod rows;
mod sequence;
mod source;
mod values;

pub use calibration::Calibration;
pub use check_line::CheckLine;
pub use figures::{plates_in, tailing_in};
pub use graph::{Graph, Prepared};
pub use key::RowKey;
pub use laws::{
    heights_give_their_figures, inputs_are_there, inputs_stay_there, keys_are_the_same_where_equal,
    look_ups_are_those_of_the_tables, nothing_is_new_where_nothing_changed,
    results_rest_on_what_inputs_name, results_stay, results_stay_whatever_comes,
    rows_are_those_of_their_keys, the_limits,
};
pub use limits::{NOISE_STEPS, ROW_STEPS};
pub use method::{MethodKey, MethodNode};

#[cfg(test)]
mod turn_lines;
#[cfg(test)]
mod worked_rows;
#[cfg(test)]
mod worked_turns;
