// Calls that take a receipt or its lot one step on, by a party to it.
use crate::refuse_unless;
use ledger_book::{
    BUYER, Book, CONFIRMED, Call, Cells, MOST_DAYS, OWNER, PENDING, Refusal, SELLER, State,
    is_account, is_amount, is_basis, is_contract, is_premium, is_receipt, is_weight,
};

// The tests of a kind that has an account and a receipt.
pub fn at_lot(call: &Call, in_state: bool, by_party: bool) -> Result<(), Refusal> {
    let known = is_account(call.account) && is_receipt(call.receipt);
    refuse_unless(known, Refusal::OutOfRange)?;
    refuse_unless(in_state, Refusal::WrongState)?;
    refuse_unless(by_party, Refusal::WrongParty)
}

// ── Receipts ────────────────────────────────────────────────────────────────────────────────────

// Anyone may register a receipt that nobody owns, with a premium in the basis' place (01 Calls 5, 02 2/12).
pub fn register(book: &Book, call: &Call) -> Result<(), Refusal> {
    let in_range = is_premium(call.basis) && is_weight(call.weight);
    refuse_unless(in_range, Refusal::OutOfRange)?;
    at_lot(call, book.cell(OWNER, call.receipt) == 0, true)
}

// The receipt is registered and idle, the caller owns it (01 Calls 6).
pub fn list(book: &Book, call: &Call) -> Result<(), Refusal> {
    let in_range = is_contract(call.contract) && call.days <= MOST_DAYS && is_basis(call.basis);
    refuse_unless(in_range, Refusal::OutOfRange)?;
    let owner = book.cell(OWNER, call.receipt);
    let idle = book.state(call.receipt) == Some(State::Idle);
    at_lot(call, idle && owner != 0, call.account == owner)
}

// ── Parties ─────────────────────────────────────────────────────────────────────────────────────

pub fn is_seller(book: &Book, call: &Call) -> bool {
    call.account == book.cell(SELLER, call.receipt)
}

pub fn is_buyer(book: &Book, call: &Call) -> bool {
    call.account == book.cell(BUYER, call.receipt)
}

pub fn by_seller(book: &Book, call: &Call, state: State) -> Result<(), Refusal> {
    let in_state = book.state(call.receipt) == Some(state);
    at_lot(call, in_state, is_seller(book, call))
}

// Listed, with or without a bid.
pub fn is_open(book: &Book, lot: u64) -> bool {
    matches!(book.state(lot), Some(State::Listed | State::BidStands))
}

pub fn withdraw_listing(book: &Book, call: &Call) -> Result<(), Refusal> {
    at_lot(call, is_open(book, call.receipt), is_seller(book, call))
}

pub fn withdraw_bid(book: &Book, call: &Call) -> Result<(), Refusal> {
    let bid_stands = book.state(call.receipt) == Some(State::BidStands);
    at_lot(call, bid_stands, is_buyer(book, call))
}

// ── Invoices ────────────────────────────────────────────────────────────────────────────────────

fn is_first_paid(book: &Book, lot: u64) -> bool {
    book.state(lot) == Some(State::FirstPaid)
}

// The state is wrong also while an invoice waits; no more is invoiced than is left (01 Answers 17 and 24).
pub fn invoice(book: &Book, call: &Call) -> Result<(), Refusal> {
    let lot = call.receipt;
    refuse_unless(is_amount(call.amount), Refusal::OutOfRange)?;
    let ready = is_first_paid(book, lot) && book.cell(PENDING, lot) == 0;
    at_lot(call, ready, is_seller(book, call))?;
    let left = book
        .full_payment(lot)
        .wrapping_sub(book.cell(CONFIRMED, lot));
    refuse_unless(call.amount <= left, Refusal::OverInvoice)
}

// The state is wrong also while no invoice waits.
pub fn confirm(book: &Book, call: &Call) -> Result<(), Refusal> {
    let lot = call.receipt;
    let waits = is_first_paid(book, lot) && book.cell(PENDING, lot) != 0;
    at_lot(call, waits, is_buyer(book, call))
}
