// Prices, premiums and weights, mostly such as carry a lot on, now and then at the end of a range or just beyond it. A number below 0 is
// drawn modulo 2^64: a call record takes its lowest bits.
use crate::draws::Draws;
use ledger_book::{
    CONTRACTS, LEAST_WEIGHT, MOST_BASIS, MOST_DAYS, MOST_PREMIUM, MOST_PRICE, MOST_WEIGHT,
    PRICE_STEP, product,
};

// Prices of the last contract are low, so that full payments lie below the deposit.
const CHEAP_CONTRACT: u64 = CONTRACTS;

fn steps(n: u64) -> u64 {
    PRICE_STEP.wrapping_mul(n)
}

impl Draws {
    // ── Prices ──────────────────────────────────────────────────────────────────────────────────

    // The ends of the range of prices, and one step beyond each.
    pub fn price_edge(&mut self) -> u64 {
        match self.below(6) {
            draw @ 0..=2 => steps(draw),
            draw => (MOST_PRICE - PRICE_STEP).wrapping_add(steps(draw.wrapping_sub(3))),
        }
    }

    // Prices of a contract lie near each other, so that bids meet asks.
    pub fn near_price(&mut self, contract: u64) -> u64 {
        if self.percent(3) {
            return self.price_edge();
        }
        if contract == CHEAP_CONTRACT {
            return steps(self.between(1, 10));
        }
        let least = product(contract, 500).wrapping_add(14000);
        least.wrapping_add(steps(self.below(20)))
    }

    // One step below the standing bid up to four above it.
    pub fn price_beside(&mut self, standing: u64) -> u64 {
        let above = steps(self.below(6));
        standing.wrapping_add(above).wrapping_sub(PRICE_STEP)
    }

    // ── Basis and premium ───────────────────────────────────────────────────────────────────────

    // Often an end of the range or a number beside it, or none; else any.
    pub fn some_premium(&mut self) -> u64 {
        match self.below(100) {
            0..=23 => self.beside(MOST_PREMIUM.wrapping_neg()),
            24..=47 => self.beside(MOST_PREMIUM),
            48..=59 => 0,
            _ => self.below(2 * MOST_PREMIUM + 1).wrapping_sub(MOST_PREMIUM),
        }
    }

    // Price, basis or premium, where the other two are given: such that a tonne costs nothing, or one or two yuan.
    pub fn to_nothing(&mut self, one: u64, other: u64) -> u64 {
        self.below(3).wrapping_sub(one.wrapping_add(other))
    }

    // Now and then an end of the range or one beyond it, or far below 0. At low prices it makes up for the premium, which may be higher.
    pub fn some_basis(&mut self, contract: u64, premium: u64) -> u64 {
        match self.below(100) {
            draw @ 0..=1 => MOST_BASIS.wrapping_add(draw),
            draw @ 2..=3 => 2u64.wrapping_sub(MOST_BASIS.wrapping_add(draw)),
            4..=6 => self.below(MOST_BASIS).wrapping_sub(MOST_BASIS),
            _ if contract == CHEAP_CONTRACT => {
                self.below(80).wrapping_sub(premium.wrapping_add(50))
            }
            _ => self.below(801).wrapping_sub(400),
        }
    }

    // ── Days and weight ─────────────────────────────────────────────────────────────────────────

    // Now and then one day too many.
    pub fn some_days(&mut self) -> u64 {
        match self.below(100) {
            0..=1 => MOST_DAYS + 1,
            draw => draw % (MOST_DAYS + 1),
        }
    }

    pub fn some_weight(&mut self) -> u64 {
        match self.below(100) {
            0..=11 => self.beside(LEAST_WEIGHT),
            12..=23 => self.beside(MOST_WEIGHT),
            _ => self.between(39000, 43000),
        }
    }
}
