// Shortfalls in the long runs (02 6/12): images drawn to ask about, counted by what they reach, and written as rows.
#![tactic(auto)]

mod counts;
mod draws;
mod owing;
mod rows;

pub use counts::{count_accounts, count_asking, count_lots};
pub use draws::{Variation, some_image_length, some_room};
pub use owing::{DueLot, Owing, OwingClass, due_lot};
pub use rows::print_shortfalls;
