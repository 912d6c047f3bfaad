// The library and the second ledger side by side: one call, one table of calls, the figures of shortfalls or one fresh image on both,
// and the comparison.
#![tactic(auto)]

mod buffers;
mod call_tables;
mod figures;
mod sides;
mod single_calls;

pub use buffers::{filled, filled_answers};
pub use call_tables::MadeAlone;
pub use figures::ask_shortfalls;
pub use sides::Sides;
pub use single_calls::record_of;
