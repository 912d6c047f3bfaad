// Sensible calls: chosen by what the image has, so that lots go through all states.
use crate::plans::Plan;
use ledger_book::{CONTRACTS, Cells, DAY, Kind, Page, Phase, ZONE};
use longrun_draws::{Draws, Request};

// Chooses a run's next call by the image that it will find.
#[derive(Drop)]
pub struct Chooser<'a> {
    pub draws: &'a mut Draws,
    pub plan: Plan,
    pub image: &'a Page,
}

impl Chooser<'_> {
    pub fn some_account(&mut self) -> u64 {
        self.draws.between(1, self.plan.accounts)
    }

    // Mostly the party named.
    pub fn party(&mut self, account: u64) -> u64 {
        if self.draws.percent(8) || account == 0 {
            return self.some_account();
        }
        account
    }

    // The party that the lot has in this column, mostly.
    pub fn party_of(&mut self, lot: u64, column: u64) -> u64 {
        self.party(self.image.cell(column, lot))
    }

    // Mostly one of three that change from day to day, so that quotes meet bids on several lots, of each contract in its turn.
    pub fn some_contract(&mut self) -> u64 {
        if self.draws.percent(20) {
            return self.draws.between(1, CONTRACTS);
        }
        let day = self.image.cell(DAY, ZONE);
        day.wrapping_add(self.draws.below(3)) % CONTRACTS + 1
    }

    // The close that the phase asks for, now and then the other one.
    pub fn close_phase(&mut self) -> Request {
        let morning = self.image.phase() == Phase::Morning;
        if morning != self.draws.percent(5) {
            return Request::close(Kind::MorningClose);
        }
        Request::close(Kind::DayClose)
    }

    // A price of the contract, or no ask.
    fn quote(&mut self) -> Request {
        let contract = self.some_contract();
        if self.draws.percent(30) {
            return Request::quote(contract, 0);
        }
        Request::quote(contract, self.draws.near_price(contract))
    }

    pub fn sensible(&mut self) -> Request {
        let draw = self.draws.below(1000);
        let account = self.some_account();
        let lot = self.draws.between(1, self.plan.receipts);
        match draw {
            0..=49 => self.quote(),
            50..=99 => self.pay_in(account),
            100..=129 => self.take_out(account),
            _ if draw < self.plan.closes.wrapping_add(130) => self.close_phase(),
            _ => self.step_lot(lot),
        }
    }
}
