// Bids and quotes (01 Calls 8 to 12, 02 2/12).
use crate::lots::{at_lot, is_buyer, is_open, is_seller};
use crate::refuse_unless;
use ledger_book::{Book, Call, Cells, DEPOSIT, PRICE, Refusal, State, is_contract, is_price};

// What the caller's own standing bid holds counts as free.
fn money_for_bid(book: &Book, call: &Call) -> u64 {
    let free = book.free(call.account);
    if is_buyer(book, call) {
        free.wrapping_add(book.held(call.receipt))
    } else {
        free
    }
}

// There is something to pay at this price, and the deposit for it.
fn at_price(book: &Book, call: &Call, price: u64) -> Result<(), Refusal> {
    let unit_price = book.unit_price(call.receipt, price);
    refuse_unless(unit_price >= 1, Refusal::NothingToPay)?;
    refuse_unless(money_for_bid(book, call) >= DEPOSIT, Refusal::NoMoney)
}

fn on_open_lot(book: &Book, call: &Call) -> Result<(), Refusal> {
    at_lot(call, is_open(book, call.receipt), !is_seller(book, call))
}

pub fn limit_bid(book: &Book, call: &Call) -> Result<(), Refusal> {
    refuse_unless(is_price(call.amount), Refusal::OutOfRange)?;
    on_open_lot(book, call)?;
    let bid_stands = book.state(call.receipt) == Some(State::BidStands);
    let above = call.amount > book.cell(PRICE, call.receipt);
    refuse_unless(!bid_stands || above, Refusal::NotAbove)?;
    at_price(book, call, call.amount)
}

pub fn market_bid(book: &Book, call: &Call) -> Result<(), Refusal> {
    let ask = book.ask_of(call.receipt);
    on_open_lot(book, call)?;
    refuse_unless(ask != 0, Refusal::NoAsk)?;
    at_price(book, call, ask)
}

// 0 takes the ask away.
pub fn quote(call: &Call) -> Result<(), Refusal> {
    let is_ask = call.amount == 0 || is_price(call.amount);
    refuse_unless(is_contract(call.contract) && is_ask, Refusal::OutOfRange)
}
