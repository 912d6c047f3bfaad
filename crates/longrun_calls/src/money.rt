// Pay-ins and take-outs.
use crate::chooser::Chooser;
use ledger_book::{Cells, FREE, Kind, MOST_AMOUNT, MOST_TOTAL, TOTAL, ZONE};
use longrun_draws::{Draws, Request};

// Every third account is rich, the others often lack the full payment.
fn usual_amount(draws: &mut Draws, account: u64) -> u64 {
    let draw = draws.below(100);
    if account % 3 != 1 {
        return draws.between(1, 40000000);
    }
    if draw < 4 {
        return draws.beside(MOST_AMOUNT);
    }
    draws.between(1, 2000000000)
}

// What one pay-in can do to bring the total to its limit, or one fen beside it; at the limit any amount is too much.
fn amount_to_limit(draws: &mut Draws, room: u64) -> u64 {
    match room {
        0 => draws.between(1, MOST_AMOUNT),
        _ => draws.beside(room.min(MOST_AMOUNT)),
    }
}

impl Chooser<'_> {
    // A zone that holds more than half of what it may is mostly brought to the limit.
    pub fn pay_in(&mut self, account: u64) -> Request {
        let total = self.image.cell(TOTAL, ZONE);
        let mut amount = usual_amount(self.draws, account);
        let to_limit = self.draws.percent(70);
        if to_limit && total > MOST_TOTAL / 2 {
            amount = amount_to_limit(self.draws, MOST_TOTAL.wrapping_sub(total));
        }
        Request::new(Kind::PayIn, account, 0, amount)
    }

    // All of the free money, or a part of it, or up to two fen more.
    pub fn take_out(&mut self, account: u64) -> Request {
        let mut amount = self.image.cell(FREE, account);
        if self.draws.percent(50) {
            amount = self.draws.between(1, amount.wrapping_add(2));
        }
        if amount == 0 || amount > MOST_AMOUNT {
            amount = self.draws.beside(MOST_AMOUNT);
        }
        Request::new(Kind::TakeOut, account, 0, amount)
    }

    // Brings the free money that a bid or a close tests to its limit, or one fen beside it, if one call can.
    pub fn meet_limit(&mut self, account: u64, limit: u64) -> Request {
        let wanted = self.draws.beside(limit);
        let free = self.image.cell(FREE, account);
        if free < wanted {
            return Request::new(Kind::PayIn, account, 0, wanted.wrapping_sub(free));
        }
        let spare = free.wrapping_sub(wanted);
        if spare > MOST_AMOUNT {
            return self.pay_in(account);
        }
        Request::new(Kind::TakeOut, account, 0, spare)
    }

    // Money for the next close, mostly as much as it tests.
    pub fn await_close(&mut self, account: u64, limit: u64) -> Request {
        let payer = self.party(account);
        if self.draws.percent(40) {
            return self.pay_in(payer);
        }
        self.meet_limit(account, limit)
    }
}
