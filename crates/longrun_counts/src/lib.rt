// What the long runs reach, counted call by call.
#![tactic(auto)]

mod altered;
mod call_counts;
mod entries;
mod limits;
mod made;
mod misplaced;
mod parts;
mod report;
mod rows;
mod tally;
mod trials;

pub use entries::entries_in;
pub use limits::{LIMITS, Limit};
pub use made::{Asked, Difference, Made, MadeTable, Verdict};
pub use parts::PartCount;
pub use report::Report;
pub use rows::{CountRow, Counts};
pub use tally::{NUMBERS, Tally};
pub use trials::{TrialTable, Trials};
