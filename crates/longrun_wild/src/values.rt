// Another value for a field.
use crate::alteration::Alteration;
use crate::odd::edge;
use ledger_book::{
    ACCOUNTS, ASK, BASIS, BUYER, CONFIRMED, CONTRACT, CONTRACTS, Cells, DAY, DUE, LAST_DAY,
    LAST_DUE, LEAST_WEIGHT, MOST_PREMIUM, MOST_TOTAL, MOST_WEIGHT, OWNER, PAID, PENDING, PREMIUM,
    PRICE, SELLER, WEIGHT, is_premium, low_bits, paid_of_rest,
};
use longrun_draws::Draws;

// The first or the last of a range, or the number just outside it there.
fn range_edge(draws: &mut Draws, first: u64, last: u64) -> u64 {
    match draws.below(4) {
        draw @ 0..=1 => first.wrapping_add(draw).wrapping_sub(1),
        draw => last.wrapping_add(draw - 2),
    }
}

// What leaves next to nothing to pay for a tonne, mostly where that is a premium; else an end of the range or a number beside it.
fn premium_edge(draws: &mut Draws, price: u64, basis: u64) -> u64 {
    let least = low_bits(draws.to_nothing(price, basis));
    let is_least = draws.percent(80);
    if is_least && is_premium(least) {
        return least;
    }
    if draws.percent(50) {
        return draws.beside(MOST_PREMIUM.wrapping_neg());
    }
    draws.beside(MOST_PREMIUM)
}

// The most that can be confirmed beside what is pending, or one fen more; now and then nothing.
fn confirmed_edge(draws: &mut Draws, full: u64, pending: u64) -> u64 {
    let beyond = draws.below(2);
    if draws.percent(30) {
        return 0;
    }
    full.wrapping_add(beyond)
        .wrapping_sub(pending.wrapping_add(1))
}

fn other_value(draws: &mut Draws, old: u64, limit: u64) -> u64 {
    match draws.below(10) {
        0 => old.wrapping_add(1),
        1 => old.wrapping_sub(1),
        2 => old.wrapping_add(draws.between(1, 3).wrapping_mul(5)),
        3 => edge(draws),
        4 => draws.word(),
        _ => limit,
    }
}

impl Alteration<'_> {
    // A value at the field's own limit or just beyond, which other fields of the receipt may set.
    pub fn limit_in_receipt(&mut self, lot: u64, column: u64) -> u64 {
        let beyond = self.draws.below(2);
        let full = self.image.full_payment(lot);
        let confirmed = self.image.cell(CONFIRMED, lot);
        let price = self.image.cell(PRICE, lot);
        let draws = &mut *self.draws;
        match column {
            OWNER => range_edge(draws, 1, ACCOUNTS),
            SELLER => self.image.cell(BUYER, lot),
            BUYER => self.image.cell(SELLER, lot),
            CONTRACT => range_edge(draws, 1, CONTRACTS),
            DUE => range_edge(draws, 1, LAST_DUE),
            WEIGHT => range_edge(draws, LEAST_WEIGHT, MOST_WEIGHT),
            BASIS => draws.to_nothing(price, self.image.cell(PREMIUM, lot)),
            PREMIUM => premium_edge(draws, price, self.image.cell(BASIS, lot)),
            PRICE => draws.price_edge(),
            PENDING => full.wrapping_sub(confirmed).wrapping_add(beyond),
            CONFIRMED => confirmed_edge(draws, full, self.image.cell(PENDING, lot)),
            PAID => draws.beside(paid_of_rest(full, confirmed)),
            _ => draws.below(9),
        }
    }

    // The same outside receipts.
    pub fn limit_in_zone(&mut self, column: u64) -> u64 {
        match column {
            DAY => range_edge(self.draws, 1, LAST_DAY),
            ASK => self.draws.price_edge(),
            _ => MOST_TOTAL.wrapping_add(self.draws.below(2)),
        }
    }

    // Puts another value into the field; what was added, modulo 2^64.
    pub fn displace(&mut self, column: u64, row: u64, limit: u64) -> u64 {
        let old = self.image.cell(column, row);
        let value = other_value(self.draws, old, limit);
        self.image.set(column, row, value);
        if self.image.cell(column, row) == old {
            self.image.set(column, row, old.wrapping_add(1));
        }
        self.image.cell(column, row).wrapping_sub(old)
    }
}
