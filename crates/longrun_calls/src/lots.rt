// Calls that take a lot a step on, chosen by its state.
use crate::chooser::Chooser;
use ledger_book::{
    ASK, BASIS, BUYER, CONFIRMED, CONTRACT, Cells, DEPOSIT, Kind, MOST_AMOUNT, OWNER, PENDING,
    PREMIUM, PRICE, SELLER, State, is_price, signed,
};
use longrun_draws::{Draws, Request};

// Invoices in parts, the last one exact, now and then one or two fen over, about the most that a call may name, or all but the last fen.
fn invoice_amount(draws: &mut Draws, left: u64) -> u64 {
    match draws.below(100) {
        0..=29 => left,
        30..=39 => left.wrapping_add(draws.between(1, 2)),
        40..=44 => draws.beside(MOST_AMOUNT),
        45..=49 => left.wrapping_sub(1),
        50..=59 => draws.between(1, 3),
        _ => draws.between(1, left.wrapping_add(1)),
    }
}

impl Chooser<'_> {
    // ── Receipts and listings ───────────────────────────────────────────────────────────────────

    fn register(&mut self, lot: u64) -> Request {
        let account = self.some_account();
        Request {
            basis: self.draws.some_premium(),
            weight: self.draws.some_weight(),
            ..Request::new(Kind::Register, account, lot, 0)
        }
    }

    fn premium_of(&self, lot: u64) -> u64 {
        signed(self.image.cell(PREMIUM, lot)).cast_unsigned()
    }

    // Now and then a basis with which a tonne costs next to nothing at the contract's ask, or at a price that will be bid.
    fn listed_basis(&mut self, lot: u64, contract: u64) -> u64 {
        let premium = self.premium_of(lot);
        if self.draws.percent(90) {
            return self.draws.some_basis(contract, premium);
        }
        let price = match self.image.cell(ASK, contract) {
            0 => self.draws.near_price(contract),
            ask => ask,
        };
        self.draws.to_nothing(price, premium)
    }

    fn list(&mut self, lot: u64) -> Request {
        let account = self.party_of(lot, OWNER);
        let contract = self.some_contract();
        Request {
            contract,
            days: self.draws.some_days(),
            basis: self.listed_basis(lot, contract),
            ..Request::new(Kind::List, account, lot, 0)
        }
    }

    // An unregistered receipt is registered, another one listed; now and then the other way round.
    fn list_or_register(&mut self, lot: u64) -> Request {
        let unregistered = self.image.cell(OWNER, lot) == 0;
        if self.draws.percent(4) != unregistered {
            return self.register(lot);
        }
        self.list(lot)
    }

    // ── Bids ────────────────────────────────────────────────────────────────────────────────────

    // Near the standing bid, or a price of the contract, or one at which a tonne costs next to nothing.
    fn bid_price(&mut self, lot: u64) -> u64 {
        let standing = self.image.cell(PRICE, lot);
        let basis = signed(self.image.cell(BASIS, lot)).cast_unsigned();
        let premium = self.premium_of(lot);
        let least = self.draws.to_nothing(basis, premium);
        let is_least = self.draws.percent(30);
        if is_least && is_price(least) {
            return least;
        }
        let is_beside = self.draws.percent(70);
        if is_beside && standing != 0 {
            return self.draws.price_beside(standing);
        }
        self.draws.near_price(self.image.cell(CONTRACT, lot))
    }

    // The buyer whose bid stands, or any account.
    fn bidder(&mut self, buyer: u64) -> u64 {
        let bids_again = self.draws.percent(30);
        if bids_again && buyer != 0 {
            return buyer;
        }
        self.some_account()
    }

    // A limit bid, or the money for one: now and then the bidder's free money comes to the deposit first, or one fen beside it.
    fn bid(&mut self, lot: u64) -> Request {
        let account = self.bidder(self.image.cell(BUYER, lot));
        if self.draws.percent(8) {
            return self.meet_limit(account, DEPOSIT);
        }
        Request::new(Kind::LimitBid, account, lot, self.bid_price(lot))
    }

    fn bid_or_withdraw(&mut self, lot: u64) -> Request {
        let buyer = self.image.cell(BUYER, lot);
        match self.draws.below(100) {
            0..=64 => self.bid(lot),
            65..=79 => Request::new(Kind::MarketBid, self.bidder(buyer), lot, 0),
            80..=89 => Request::new(Kind::WithdrawBid, self.party(buyer), lot, 0),
            _ => Request::new(Kind::WithdrawListing, self.party_of(lot, SELLER), lot, 0),
        }
    }

    // ── Delivery ────────────────────────────────────────────────────────────────────────────────

    // What the buyer of a lot needs besides the deposit, and at least 1.
    fn await_payment(&mut self, lot: u64) -> Request {
        let limit = self.image.full_payment(lot).saturating_sub(DEPOSIT).max(1);
        self.await_close(self.image.cell(BUYER, lot), limit)
    }

    fn await_penalty(&mut self, lot: u64) -> Request {
        self.await_close(self.image.cell(SELLER, lot), DEPOSIT)
    }

    // A struck lot is lodged, or waits unlodged for the close, which asks for the same money; or a bid comes too late.
    fn lodge_or_wait(&mut self, lot: u64) -> Request {
        match self.draws.below(100) {
            0..=39 => Request::new(Kind::Lodge, self.party_of(lot, SELLER), lot, 0),
            40..=69 => self.await_payment(lot),
            _ => self.bid_or_withdraw(lot),
        }
    }

    // ── Payment ─────────────────────────────────────────────────────────────────────────────────

    fn first_payment(&mut self, lot: u64) -> Request {
        Request::new(Kind::FirstPayment, self.party_of(lot, SELLER), lot, 0)
    }

    // What is pending is mostly confirmed, and where nothing is, an invoice comes.
    fn invoice_or_confirm(&mut self, lot: u64) -> Request {
        let pending = self.image.cell(PENDING, lot) != 0;
        if self.draws.percent(4) != pending {
            return Request::new(Kind::Confirm, self.party_of(lot, BUYER), lot, 0);
        }
        let full = self.image.full_payment(lot);
        let left = full.wrapping_sub(self.image.cell(CONFIRMED, lot));
        let seller = self.party_of(lot, SELLER);
        Request::new(Kind::Invoice, seller, lot, invoice_amount(self.draws, left))
    }

    // ── All states ──────────────────────────────────────────────────────────────────────────────

    // The lot's state, now and then another one: the call then comes out of turn.
    fn assumed_state(&mut self, lot: u64) -> Option<State> {
        if self.draws.percent(5) {
            return State::try_from(self.draws.below(8)).ok();
        }
        self.image.state(lot)
    }

    // A call that takes the lot a step on, or moves the money that its next step asks for.
    pub fn step_lot(&mut self, lot: u64) -> Request {
        match self.assumed_state(lot) {
            Some(State::Idle) => self.list_or_register(lot),
            Some(State::Listed | State::BidStands) => self.bid_or_withdraw(lot),
            Some(State::Struck) => self.lodge_or_wait(lot),
            Some(State::Lodged) => self.await_payment(lot),
            Some(State::Settled) => self.first_payment(lot),
            Some(State::FirstPaid) => self.invoice_or_confirm(lot),
            Some(State::PenaltyDue) | None => self.await_penalty(lot),
        }
    }
}
