// Tables of calls in the long runs (02 5/12): drawn, counted by what they reach, and written as rows.
#![tactic(auto)]

mod counts;
mod draws;
mod rows;

pub use counts::{count_table, report_table};
pub use draws::{call_in_table, some_table};
pub use rows::print_call_tables;
