// Random numbers: xorshift with 64 bits. A seed means one run, on every machine.

// Not a generator of the standard library (a): they draw other numbers, and what the runs print may not change.
#[derive(Clone, Copy)]
pub struct Draws {
    state: u64,
}

impl Draws {
    pub fn from_seed(seed: u64) -> Draws {
        Draws { state: seed }
    }

    fn step(&mut self) -> u64 {
        self.state ^= self.state << 13;
        self.state ^= self.state >> 7;
        self.state ^= self.state << 17;
        self.state
    }

    // Any 64 bits, put together from two steps.
    pub fn word(&mut self) -> u64 {
        let high = self.step();
        (high << 32).wrapping_add(self.step() >> 13)
    }

    // 0 to n - 1.
    pub fn below(&mut self, n: u64) -> u64 {
        let draw = self.step() >> 11;
        draw.checked_rem(n).unwrap_or(0)
    }

    pub fn between(&mut self, low: u64, high: u64) -> u64 {
        let count = high.wrapping_add(1).wrapping_sub(low);
        low.wrapping_add(self.below(count))
    }

    // A limit, or the number before or after it.
    pub fn beside(&mut self, limit: u64) -> u64 {
        limit.wrapping_add(self.below(3)).wrapping_sub(1)
    }

    pub fn percent(&mut self, n: u64) -> bool {
        self.below(100) < n
    }
}
