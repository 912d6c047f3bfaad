// What the long runs draw from a seed: numbers, prices, premiums and weights; a call or a table of calls to be made, with the lengths of what
// it lends; and money that is moved from where a lot holds it.
#![tactic(auto)]

mod choices;
mod draws;
mod held;
mod lengths;
mod requests;

pub use draws::Draws;
pub use held::{HELD_PLACES, HeldPlace, move_held, raise};
pub use lengths::{
    ANSWERS_TOO_SHORT, Lengths, RECORD_CUT_SHORT, TOO_MANY_CALLS, TableFault, answers_wanted,
};
pub use requests::{Request, request_of};
