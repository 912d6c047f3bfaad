// Copies of a run's image in which more is due, or less money is there for it, and buffers of any length for the figures.
use crate::owing::{DueLot, due_lot};
use ledger_book::{
    ACCOUNTS, BUYER, Cells, DAY, DEPOSIT, FIGURES_LENGTH, FREE, FROZEN, IMAGE_LENGTH, LAST_DAY,
    MOST_DAYS, MOST_PRICE, PAGE_LENGTH, PHASE, PRICE, Page, Phase, RECEIPTS, SELLER, TOTAL, ZONE,
};
use longrun_calls::Plan;
use longrun_draws::{Draws, raise};
use longrun_wild::{Alteration, odd_length};

const FIGURES: u64 = FIGURES_LENGTH as u64;

const PAGE: u64 = PAGE_LENGTH as u64;

// ── Lengths ─────────────────────────────────────────────────────────────────────────────────────

// Another length than the figures have, or theirs.
pub fn some_room(draws: &mut Draws) -> u64 {
    match draws.below(6) {
        0 => 0,
        1 => FIGURES - 1,
        2 => FIGURES + 1,
        3 => draws.below(FIGURES),
        4 => draws.between(FIGURES, PAGE),
        _ => FIGURES,
    }
}

// Now and then an image of a wrong length.
pub fn some_image_length(draws: &mut Draws) -> u64 {
    if draws.percent(8) {
        return odd_length(draws, IMAGE_LENGTH);
    }
    IMAGE_LENGTH as u64
}

// ── Images ──────────────────────────────────────────────────────────────────────────────────────

// A trade goes to this buyer, at the highest price.
fn give_trade(image: &mut Page, lot: u64, buyer: u64) {
    let old = image.cell(BUYER, lot);
    let is_trade = due_lot(image, lot).is_some_and(DueLot::is_trade);
    if is_trade && image.cell(SELLER, lot) != buyer {
        raise(image, FROZEN, old, DEPOSIT.wrapping_neg());
        raise(image, FROZEN, buyer, DEPOSIT);
        image.set(BUYER, lot, buyer);
        image.set(PRICE, lot, MOST_PRICE);
    }
}

// About as much as a full payment of the runs asks for.
const LITTLE: u64 = 70000000;

// Varies a copy of a run's image.
#[derive(Drop)]
pub struct Variation<'a> {
    pub draws: &'a mut Draws,
    pub plan: Plan,
    pub image: &'a mut Page,
}

impl Variation<'_> {
    // Another day, with the lots as they are: some have then been due for days, which no run of calls brings about.
    fn move_day(&mut self) {
        let day_before = self.image.cell(DAY, ZONE).wrapping_sub(1);
        let day = day_before.wrapping_add(self.draws.below(MOST_DAYS + 2));
        if (1..=LAST_DAY).contains(&day) {
            self.image.set(DAY, ZONE, day);
        }
    }

    fn leave_little(&mut self, account: u64) {
        let left = self.draws.below(LITTLE);
        let free = self.image.cell(FREE, account);
        if left < free {
            raise(self.image, FREE, account, left.wrapping_sub(free));
            raise(self.image, TOTAL, ZONE, left.wrapping_sub(free));
        }
    }

    fn take_money(&mut self) {
        for account in 1..=ACCOUNTS {
            self.leave_little(account);
        }
    }

    // One buyer for all trades: the sum of their full payments then needs more than 32 bits.
    fn give_trades(&mut self) {
        let buyer = self.draws.between(1, self.plan.accounts);
        for lot in 1..=RECEIPTS {
            give_trade(self.image, lot, buyer);
        }
    }

    // Mostly a morning.
    fn set_phase(&mut self) {
        match self.draws.below(100) {
            0..=59 => self.image.set(PHASE, ZONE, Phase::Morning as u64),
            60..=89 => {}
            _ => self.image.set(PHASE, ZONE, Phase::Afternoon as u64),
        }
    }

    // The image as it is, or valid with another day, other money, one buyer or another phase; now and then with a field out of place.
    pub fn vary(&mut self) {
        if self.draws.percent(60) {
            self.move_day();
        }
        if self.draws.percent(40) {
            self.take_money();
        }
        if self.draws.percent(5) {
            self.give_trades();
        }
        self.set_phase();
        if self.draws.percent(15) {
            let mut alteration = Alteration {
                draws: self.draws,
                plan: self.plan,
                image: self.image,
            };
            alteration.alter();
        }
    }
}
