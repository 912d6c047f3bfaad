// The calls that a run begins with, by their number.
use ledger_book::{
    ACCOUNTS, CONTRACTS, Kind, MOST_AMOUNT, MOST_PREMIUM, MOST_TOTAL, PRICE_STEP, RECEIPTS,
};
use longrun_draws::Request;

#[derive(Clone, Copy, PartialEq, Eq)]
pub enum Opening {
    // Pay-ins up to the most that a zone may hold, and one more.
    ToLimit = 1,
    // All lots through a day close, and then through quotes and a morning close, so that answers are full. The lots are of one contract, so
    // that one quote strikes them all, or of each in turn.
    OneContract,
    EachContract,
}

// A number that is none of these, 0 too, opens like `OneContract`. That 0 is no opening, a `Plan` says.
impl From<u64> for Opening {
    fn from(number: u64) -> Opening {
        match number {
            1 => Opening::ToLimit,
            3 => Opening::EachContract,
            _ => Opening::OneContract,
        }
    }
}

// ── Steps of a full opening, each with the number of the call that comes after it ───────────────

const REGISTERED: u64 = RECEIPTS;

const PAID_IN: u64 = REGISTERED + ACCOUNTS;

// A listing and a bid for each receipt.
const OFFERED: u64 = PAID_IN + 2 * RECEIPTS;

const DAY_OVER: u64 = OFFERED + 2;

const OFFERED_AGAIN: u64 = DAY_OVER + 2 * RECEIPTS;

const QUOTED: u64 = OFFERED_AGAIN + CONTRACTS;

const LODGED: u64 = QUOTED + RECEIPTS;

const SECOND_DAY_OVER: u64 = LODGED + 2;

const PAY_INS_TO_LIMIT: u64 = MOST_TOTAL / MOST_AMOUNT;

// ── Calls ───────────────────────────────────────────────────────────────────────────────────────

const SELLER_OF_ALL: u64 = 2;

const ASKED: u64 = 15000;

// With a premium that goes from one end of the range to the other in four steps, lot by lot.
fn register(lot: u64) -> Request {
    let premium = (lot % 5 * (MOST_PREMIUM / 2)).wrapping_sub(MOST_PREMIUM);
    Request {
        basis: premium,
        weight: lot.wrapping_add(40000),
        ..Request::new(Kind::Register, SELLER_OF_ALL, lot, 0)
    }
}

fn pay_in(account: u64) -> Request {
    let amount = account.wrapping_mul(400000000).wrapping_add(2000000000);
    Request::new(Kind::PayIn, account, 0, amount)
}

// At the ask that will come, or up to two steps above it, by one of 22 buyers.
fn bid(lot: u64) -> Request {
    let buyer = SELLER_OF_ALL + 1 + lot % 22;
    Request::new(Kind::LimitBid, buyer, lot, ASKED + PRICE_STEP * (lot % 3))
}

// The morning close, then the day close.
fn close(k: u64) -> Request {
    match k {
        0 => Request::close(Kind::MorningClose),
        _ => Request::close(Kind::DayClose),
    }
}

// One lot of four is not lodged: the call comes from another account. The last lot is lodged, so that it is settled and holds money.
fn lodge(lot: u64) -> Request {
    let account = match lot % 4 {
        1 => SELLER_OF_ALL + 1,
        _ => SELLER_OF_ALL,
    };
    Request::new(Kind::Lodge, account, lot, 0)
}

// The number of a row that has `k` before it.
fn row(k: u64) -> u64 {
    k.wrapping_add(1)
}

impl Opening {
    pub fn calls(self) -> u64 {
        match self {
            Opening::ToLimit => PAY_INS_TO_LIMIT + 1,
            Opening::OneContract | Opening::EachContract => SECOND_DAY_OVER,
        }
    }

    fn list(self, lot: u64) -> Request {
        let contract = match self {
            Opening::EachContract => lot % CONTRACTS + 1,
            _ => 1,
        };
        Request {
            contract,
            ..Request::new(Kind::List, SELLER_OF_ALL, lot, 0)
        }
    }

    // The listing of a lot, then the bid on it.
    fn offer(self, k: u64) -> Request {
        let lot = row(k / 2);
        match k % 2 {
            0 => self.list(lot),
            _ => bid(lot),
        }
    }

    fn first_day(self, k: u64) -> Request {
        match k {
            0..REGISTERED => register(row(k)),
            REGISTERED..PAID_IN => pay_in(row(k - REGISTERED)),
            PAID_IN..OFFERED => self.offer(k - PAID_IN),
            _ => close(k.wrapping_sub(OFFERED)),
        }
    }

    fn second_day(self, k: u64) -> Request {
        match k {
            0..OFFERED_AGAIN => self.offer(k.wrapping_sub(DAY_OVER)),
            OFFERED_AGAIN..QUOTED => Request::quote(row(k - OFFERED_AGAIN), ASKED),
            QUOTED..LODGED => lodge(row(k - QUOTED)),
            _ => close(k.wrapping_sub(LODGED)),
        }
    }

    // The call with this number, from 0 on.
    pub fn call(self, k: u64) -> Request {
        if self == Opening::ToLimit {
            return Request::new(Kind::PayIn, k % 6 + 1, 0, MOST_AMOUNT);
        }
        if k < DAY_OVER {
            return self.first_day(k);
        }
        self.second_day(k)
    }
}
