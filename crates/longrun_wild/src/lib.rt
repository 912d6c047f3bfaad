// What no desk would do: calls with odd fields or buffers, and copies of a valid image with a field out of place, with what a lot holds
// elsewhere, or with a total about its limit.
#![tactic(auto)]

mod alteration;
mod damage;
mod misplaced;
mod odd;
mod sums;
mod values;

pub use alteration::Alteration;
pub use odd::{make_wild, odd_field, odd_length};
