//! Rows that rise by two numbers and a text: one is found by a guess and halving, and those of one number or of one pair of numbers stand side by side.
#![tactic(auto)]

mod keyed;
mod places;
mod rows;
mod runs;
mod searching;

pub use keyed::Keyed;
pub use places::{count_before, count_lower, count_lower_pair, count_up_to, run_of, run_of_pair};
pub use rows::{cut_row, cut_rows_of, cut_rows_of_pair, has_row, place_of, put_row, row_of};
pub use runs::{
    cut_first_of, first_row_of, has_row_of, has_row_of_pair, place_of_first, place_of_pair,
    rows_of, rows_of_pair,
};
