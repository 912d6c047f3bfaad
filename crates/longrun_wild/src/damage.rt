// Damaged images: one field of a valid image gets another value. Often the sums are made to fit again, so that the field alone decides.
use crate::alteration::Alteration;
use crate::sums::rebook;
use ledger_book::{
    ASK, CONFIRMED, CONTRACTS, Cells, FREE, FROZEN, OWNER, PAID, PENDING, PREMIUM, Page,
    RECEIPT_COLUMNS_END, RECEIPTS, STATE, State, TOTAL, ZONE, paid_of_rest,
};
use longrun_draws::{Draws, raise};

// Any field; the premium more often, for few lots have a price near which it decides, and of a lot that is paid in parts those that say
// how far that has gone.
fn some_column(draws: &mut Draws, in_parts: bool) -> u64 {
    match draws.below(100) {
        0..=19 => PREMIUM,
        20..=59 if in_parts => draws.between(PENDING, PAID),
        _ => draws.between(OWNER, RECEIPT_COLUMNS_END - 1),
    }
}

// What is paid follows another field of the lot, so that it is not what decides.
fn fit_paid(image: &mut Page, lot: u64) {
    let paid = paid_of_rest(image.full_payment(lot), image.cell(CONFIRMED, lot));
    image.set(PAID, lot, paid);
}

impl Alteration<'_> {
    fn damage_receipt(&mut self, lot: u64) {
        let in_parts = self.image.state(lot) == Some(State::FirstPaid);
        let column = some_column(self.draws, in_parts);
        let limit = self.limit_in_receipt(lot, column);
        self.displace(column, lot, limit);
        if self.draws.percent(70) && in_parts && column != PAID {
            fit_paid(self.image, lot);
        }
        if self.draws.percent(60) {
            rebook(self.image);
        }
    }

    // A free or a frozen sum. Often the total or another account takes the difference, which a sum modulo 2^64 would not see.
    fn damage_account(&mut self) {
        let column = self.draws.between(FREE, FROZEN);
        let account = self.draws.between(1, self.plan.accounts);
        let other = self.draws.between(1, self.plan.accounts);
        let limit = self.limit_in_zone(column);
        let added = self.displace(column, account, limit);
        if self.draws.percent(40) {
            raise(self.image, TOTAL, ZONE, added);
        }
        if self.draws.percent(30) {
            raise(self.image, FREE, other, added.wrapping_neg());
        }
    }

    // A field of the header, or an ask.
    fn damage_zone(&mut self) {
        let (column, row) = match self.draws.below(FREE + CONTRACTS) {
            column @ 0..FREE => (column, ZONE),
            draw => (ASK, (draw - FREE).wrapping_add(1)),
        };
        let limit = self.limit_in_zone(column);
        self.displace(column, row, limit);
    }

    // Now and then any lot, so that a receipt that is not registered gets a field too; else of two in use the one in the later state, which
    // has more fields.
    fn some_lot(&mut self) -> u64 {
        let one = self.draws.between(1, self.plan.receipts);
        let other = self.draws.between(1, self.plan.receipts);
        if self.draws.percent(20) {
            return self.draws.between(1, RECEIPTS);
        }
        if self.image.cell(STATE, one) > self.image.cell(STATE, other) {
            return one;
        }
        other
    }

    // Puts one field out of place; the lot whose field it is, or the one that the next call may go to.
    pub fn damage(&mut self) -> u64 {
        let draw = self.draws.below(100);
        let lot = self.some_lot();
        match draw {
            0..=59 => self.damage_receipt(lot),
            60..=79 => self.damage_account(),
            _ => self.damage_zone(),
        }
        lot
    }
}
