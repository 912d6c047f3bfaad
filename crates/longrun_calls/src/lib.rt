// The calls of the long runs: drawn by what the image has, so that lots go through all states, or given by their number.
#![tactic(auto)]

mod chooser;
mod lots;
mod money;
mod openings;
mod plans;

pub use chooser::Chooser;
pub use openings::Opening;
pub use plans::Plan;
