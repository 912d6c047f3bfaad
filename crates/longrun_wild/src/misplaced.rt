// What a lot holds, put elsewhere: the records stay as they are and the total agrees, so that the frozen sums alone decide (02 4/12).
use crate::alteration::Alteration;
use ledger_book::{Cells, RECEIPTS, STATE, State};
use longrun_draws::{Draws, HELD_PLACES, HeldPlace, move_held};

fn some_place(draws: &mut Draws) -> HeldPlace {
    HeldPlace::from(draws.below(HELD_PLACES.len() as u64))
}

impl Alteration<'_> {
    // The last lot of a drawn state that holds money, else the first of any state. By a loop (d): a chain would go over the lots twice.
    fn some_holder(&mut self) -> Option<u64> {
        let state = self
            .draws
            .between(State::BidStands as u64, State::FirstPaid as u64);
        let first = self.draws.below(RECEIPTS);
        (0..RECEIPTS)
            .map(|k| first.wrapping_add(k) % RECEIPTS + 1)
            .filter(|lot| self.image.held(*lot) != 0)
            .fold(None, |found, lot| match found {
                Some(_) if self.image.cell(STATE, lot) != state => found,
                _ => Some(lot),
            })
    }

    // Now and then the last lot. The lot whose money is moved, where one holds any.
    pub fn misplace(&mut self) -> Option<u64> {
        let place = some_place(self.draws);
        let holder = self.some_holder();
        let last = self.draws.percent(20) && self.image.held(RECEIPTS) != 0;
        let lot = if last { RECEIPTS } else { holder? };
        move_held(self.image, lot, place);
        Some(lot)
    }
}
