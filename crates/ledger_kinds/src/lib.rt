// What the second ledger's calls do to the book, once no refusal applies.
#![tactic(auto)]

mod closes;
mod kinds;
mod parties;

pub use kinds::perform;
