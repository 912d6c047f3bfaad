// Altered images in which what a lot holds is elsewhere, and nothing else is altered (02 4/12).
use crate::altered::Altered;
use ledger_book::{BUYER, Cells, FROZEN, Page, RECEIPTS, Refusal, STATE, State};
use longrun_draws::{HELD_PLACES, HeldPlace, move_held};

// The row behind those of the states that hold money.
const LAST_LOT: u64 = 5;

impl Altered<'_> {
    fn count_place(&mut self, lot: u64, place: HeldPlace) {
        let mut moved: Page = *self.sound;
        move_held(&mut moved, lot, place);
        if moved != *self.altered {
            return;
        }
        let state = self.sound.cell(STATE, lot);
        let row = state.wrapping_sub(State::BidStands as u64);
        self.count_holder(row, place);
        if lot == RECEIPTS {
            self.count_holder(LAST_LOT, place);
        }
    }

    fn count_holder(&mut self, row: u64, place: HeldPlace) {
        self.tally
            .holders
            .count(row, place as u64, self.number, Refusal::BadImage);
    }

    // Two lots that hold the same sum from one account can both be the one.
    fn count_lot(&mut self, lot: u64) {
        let buyer = self.sound.cell(BUYER, lot);
        let held = self.sound.held(lot);
        let left = self.sound.cell(FROZEN, buyer).wrapping_sub(held);
        if held != 0 && self.altered.cell(FROZEN, buyer) == left {
            for place in HELD_PLACES {
                self.count_place(lot, place);
            }
        }
    }

    pub fn count_misplaced(&mut self) {
        for lot in 1..=RECEIPTS {
            self.count_lot(lot);
        }
    }
}
