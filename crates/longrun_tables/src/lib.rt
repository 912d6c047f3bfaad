// What the long runs have reached, written as tables.
#![tactic(auto)]

mod edges;
mod pairs;
mod rows;

pub use rows::{numbered_rows, print_differences, print_reached};
