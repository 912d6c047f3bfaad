// What the cells of an image say, and what lots hold from accounts, counted from the lots themselves.
use crate::columns::ZONE;
use crate::numbered::{Phase, State};
use crate::payments::{DEPOSIT, full_payment, rest_payment, unit_price};
use crate::places::{BASIS, PAID, PHASE, PREMIUM, PRICE, STATE, WEIGHT};

// What a lot of this state holds from its buyer: the deposit up to settlement, then the full payment, then what is unpaid of it
// (01 Image 15). Any number can stand for a state: an image that is not valid can have others, and such a lot holds nothing.
pub fn held_in_state(state: u64, full: u64, paid: u64) -> u64 {
    match State::try_from(state) {
        Ok(State::BidStands | State::Struck | State::Lodged) => DEPOSIT,
        Ok(State::Settled) => full,
        Ok(State::FirstPaid) => rest_payment(full).wrapping_sub(paid),
        _ => 0,
    }
}

// What has the fields of an image by column and row: the book, or the bytes of a page.
pub trait Cells {
    // 0 where book or page end before the cell.
    fn cell(&self, column: u64, row: u64) -> u64;

    fn phase(&self) -> Phase {
        match self.cell(PHASE, ZONE) {
            0 => Phase::Morning,
            _ => Phase::Afternoon,
        }
    }

    // None where the number is none of a state's, as in an image that is not valid.
    fn state(&self, lot: u64) -> Option<State> {
        State::try_from(self.cell(STATE, lot)).ok()
    }

    // What a tonne of the lot costs at this price.
    fn unit_price(&self, lot: u64, price: u64) -> u64 {
        unit_price(price, self.cell(BASIS, lot), self.cell(PREMIUM, lot))
    }

    fn full_payment(&self, lot: u64) -> u64 {
        full_payment(
            self.cell(PRICE, lot),
            self.cell(BASIS, lot),
            self.cell(PREMIUM, lot),
            self.cell(WEIGHT, lot),
        )
    }

    // What the lot holds from its buyer.
    fn held(&self, lot: u64) -> u64 {
        held_in_state(
            self.cell(STATE, lot),
            self.full_payment(lot),
            self.cell(PAID, lot),
        )
    }
}
