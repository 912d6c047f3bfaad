// The ranges that calls and images share (01 Image 15 and 17, 02 2/12), and the last kind, outcome and number that there are.
use crate::numbered::{Kind, Outcome, Refusal};
use crate::places::{ACCOUNTS, CONTRACTS, RECEIPTS};

pub const LAST_KIND: u64 = Kind::DayClose as u64;

pub const LAST_OUTCOME: u64 = Outcome::Penalty as u64;

// The last number of a call. A table of calls has one more of its own (02 5/12).
pub const LAST_NUMBER: u64 = Refusal::OverInvoice as u64;

pub const LAST_DAY: u64 = 30000;

// D at its most: days from strike to delivery.
pub const MOST_DAYS: u64 = 3;

// A lot struck on the last day may be due past it.
pub const LAST_DUE: u64 = LAST_DAY + MOST_DAYS;

// Prices go in steps of 5, from one step on.
pub const PRICE_STEP: u64 = 5;

pub const MOST_PRICE: u64 = 200000;

pub const MOST_BASIS: u64 = 50000;

pub const MOST_PREMIUM: u64 = 5000;

pub const LEAST_WEIGHT: u64 = 1000;

pub const MOST_WEIGHT: u64 = 60000;

// 10^12 fen in a call, 10^15 in a zone.
pub const MOST_AMOUNT: u64 = 1000000000000;

pub const MOST_TOTAL: u64 = 1000000000000000;

pub fn is_account(x: u64) -> bool {
    (1..=ACCOUNTS).contains(&x)
}

pub fn is_receipt(x: u64) -> bool {
    (1..=RECEIPTS).contains(&x)
}

pub fn is_contract(x: u64) -> bool {
    (1..=CONTRACTS).contains(&x)
}

pub fn is_amount(x: u64) -> bool {
    (1..=MOST_AMOUNT).contains(&x)
}

pub fn is_price(x: u64) -> bool {
    (PRICE_STEP..=MOST_PRICE).contains(&x) && x % PRICE_STEP == 0
}

// Whether `bits` are those of an i32 that lies so far from 0 at most.
fn is_within(bits: u64, most: u64) -> bool {
    u32::try_from(bits).is_ok_and(|bits| u64::from(bits.cast_signed().unsigned_abs()) <= most)
}

pub fn is_basis(bits: u64) -> bool {
    is_within(bits, MOST_BASIS)
}

pub fn is_premium(bits: u64) -> bool {
    is_within(bits, MOST_PREMIUM)
}

pub fn is_weight(x: u64) -> bool {
    (LEAST_WEIGHT..=MOST_WEIGHT).contains(&x)
}
