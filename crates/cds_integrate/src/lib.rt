//! A row of results from a trace and a method: its peaks, with exact areas and heights, widths and names.
//!
//! Begin at [`row`]: it is the only call that makes a [`RowPart`]. Over the definitions alone, [`rows_are_determined`]
//! gives the row as a function of plain values, [`areas_are_conserved`] and [`areas_of_peaks_are_conserved`] say what
//! holds of the areas of each row, [`peaks_stand`] where its peaks stand in the trace, and
//! [`first_rules_take_the_apex_sample`] what their times are under rules 1. [`the_levels`] pins the levels at which
//! widths are taken.
#![tactic(auto)]

mod found;
mod laws;
mod lines;
mod measures;
mod naming;
mod peaks;
mod row_part;
mod rows;
mod shapes;

pub use laws::{
    areas_are_conserved, areas_of_peaks_are_conserved, first_rules_take_the_apex_sample,
    peaks_stand, rows_are_determined, the_levels,
};
pub use row_part::RowPart;
pub use rows::row;

#[cfg(test)]
mod tests;
#[cfg(test)]
mod worked_rows;
