// One run.
use crate::openings::Opening;

// How many calls, how many receipts and accounts they draw from, closes per thousand calls, the first day, and the number of the opening
// that comes before the drawn calls: 0 where none does.
#[derive(Clone, Copy)]
pub struct Plan {
    pub seed: u64,
    pub calls: u64,
    pub receipts: u64,
    pub accounts: u64,
    pub closes: u64,
    pub day: u64,
    pub opening: u64,
}

impl Plan {
    pub fn opening(&self) -> Option<Opening> {
        (self.opening != 0).then_some(Opening::from(self.opening))
    }

    pub fn opening_calls(&self) -> u64 {
        self.opening().map_or(0, Opening::calls)
    }
}
