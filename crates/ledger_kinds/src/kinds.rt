// The kinds of calls. Freeing a deposit is no act of its own: a lot that has left its state holds nothing any more.
use crate::closes::{day_close, end, morning_close};
use crate::parties::{Parties, from_owner};
use ledger_book::{
    ASK, BASIS, BUYER, Book, CONFIRMED, CONTRACT, Call, Cells, DAY, DAYS, DUE, Kind, OWNER,
    Outcome, PAID, PENDING, PHASE, PREMIUM, PRICE, Phase, RECEIPTS, SELLER, STATE, State, TOTAL,
    WEALTH, WEIGHT, ZONE, first_payment, part_payment,
};

// ── Money and receipts ──────────────────────────────────────────────────────────────────────────

fn pay_in(book: &mut Book, call: &Call) {
    book.raise(WEALTH, call.account, call.amount);
    book.raise(TOTAL, ZONE, call.amount);
}

fn take_out(book: &mut Book, call: &Call) {
    book.lower(WEALTH, call.account, call.amount);
    book.lower(TOTAL, ZONE, call.amount);
}

fn register(book: &mut Book, call: &Call) {
    book.set(OWNER, call.receipt, call.account);
    book.set(WEIGHT, call.receipt, call.weight);
    book.set(PREMIUM, call.receipt, call.basis);
    book.note(from_owner(call.receipt, Outcome::Registered, call.account));
}

fn list(book: &mut Book, call: &Call) {
    book.set(STATE, call.receipt, State::Listed as u64);
    book.set(SELLER, call.receipt, call.account);
    book.set(CONTRACT, call.receipt, call.contract);
    book.set(DAYS, call.receipt, call.days);
    book.set(BASIS, call.receipt, call.basis);
    book.note(from_owner(call.receipt, Outcome::Listed, call.account));
}

fn withdraw_listing(book: &mut Book, call: &Call) {
    end(book, call.receipt);
    book.note(from_owner(call.receipt, Outcome::ListingEnded, call.account));
}

// ── Bids and strikes ────────────────────────────────────────────────────────────────────────────

// D days on, but never the same day once that day's morning close is over (01 Calls 26).
fn due_day(book: &Book, lot: u64) -> u64 {
    let days = book.cell(DAYS, lot);
    let is_afternoon = book.cell(PHASE, ZONE) == Phase::Afternoon as u64;
    let least = u64::from(is_afternoon);
    book.cell(DAY, ZONE).wrapping_add(days.max(least))
}

// Strikes the bid that a lot has, at its price.
fn strike(book: &mut Book, lot: u64) {
    book.set(STATE, lot, State::Struck as u64);
    book.set(DUE, lot, due_day(book, lot));
    let price = book.cell(PRICE, lot);
    book.note(Parties::of(book, lot).from_buyer(Outcome::Struck, price));
}

// A bid takes the place of the one that stands, and stands itself.
fn bid(book: &mut Book, lot: u64, buyer: u64, price: u64) {
    book.set(STATE, lot, State::BidStands as u64);
    book.set(BUYER, lot, buyer);
    book.set(PRICE, lot, price);
    book.note(Parties::of(book, lot).from_buyer(Outcome::BidStands, price));
}

// An ask at or below the price strikes the bid at once (01 Calls 9).
fn limit_bid(book: &mut Book, call: &Call) {
    let ask = book.ask_of(call.receipt);
    bid(book, call.receipt, call.account, call.amount);
    if ask != 0 && ask <= call.amount {
        strike(book, call.receipt);
    }
}

fn market_bid(book: &mut Book, call: &Call) {
    let ask = book.ask_of(call.receipt);
    bid(book, call.receipt, call.account, ask);
    strike(book, call.receipt);
}

fn withdraw_bid(book: &mut Book, call: &Call) {
    let parties = Parties::of(book, call.receipt);
    book.note(parties.from_buyer(Outcome::BidWithdrawn, 0));
    book.set(STATE, call.receipt, State::Listed as u64);
    book.set(BUYER, call.receipt, 0);
    book.set(PRICE, call.receipt, 0);
}

// Whether the contract's new ask strikes the bid that stands on the lot (01 Calls 12).
fn is_met(book: &Book, lot: u64, contract: u64, ask: u64) -> bool {
    book.state(lot) == Some(State::BidStands)
        && book.cell(CONTRACT, lot) == contract
        && ask != 0
        && ask <= book.cell(PRICE, lot)
}

fn quote(book: &mut Book, contract: u64, ask: u64) {
    book.set(ASK, contract, ask);
    for lot in 1..=RECEIPTS {
        if is_met(book, lot, contract, ask) {
            strike(book, lot);
        }
    }
}

// ── Delivery and payment ────────────────────────────────────────────────────────────────────────

fn lodge(book: &mut Book, call: &Call) {
    book.set(STATE, call.receipt, State::Lodged as u64);
    book.note(Parties::of(book, call.receipt).from_seller(Outcome::Lodged, 0));
}

// A payment from a lot's buyer to its seller, with its entry.
fn pay(book: &mut Book, lot: u64, outcome: Outcome, fen: u64) {
    let parties = Parties::of(book, lot);
    book.pass(parties.buyer, parties.seller, fen);
    book.note(parties.from_buyer(outcome, fen));
}

fn pay_first(book: &mut Book, call: &Call) {
    let first = first_payment(book.full_payment(call.receipt));
    pay(book, call.receipt, Outcome::FirstPaid, first);
    book.set(STATE, call.receipt, State::FirstPaid as u64);
}

fn invoice(book: &mut Book, call: &Call) {
    book.set(PENDING, call.receipt, call.amount);
    book.note(Parties::of(book, call.receipt).from_seller(Outcome::Invoiced, call.amount));
}

// The invoice is paid its part; with the last one the lot ends (01 Calls 24, 02 3/12).
fn confirm(book: &mut Book, call: &Call) {
    let lot = call.receipt;
    let full = book.full_payment(lot);
    let pending = book.cell(PENDING, lot);
    let fen = part_payment(full, book.cell(CONFIRMED, lot), pending);
    pay(book, lot, Outcome::PartPaid, fen);
    book.raise(PAID, lot, fen);
    book.raise(CONFIRMED, lot, pending);
    book.set(PENDING, lot, 0);
    if book.cell(CONFIRMED, lot) == full {
        end(book, lot);
    }
}

// ── All kinds ───────────────────────────────────────────────────────────────────────────────────

// A call of no kind is refused before it comes here; it would be a day close.
pub fn perform(book: &mut Book, call: &Call) {
    match call.kind() {
        Some(Kind::PayIn) => pay_in(book, call),
        Some(Kind::TakeOut) => take_out(book, call),
        Some(Kind::Register) => register(book, call),
        Some(Kind::List) => list(book, call),
        Some(Kind::WithdrawListing) => withdraw_listing(book, call),
        Some(Kind::LimitBid) => limit_bid(book, call),
        Some(Kind::MarketBid) => market_bid(book, call),
        Some(Kind::WithdrawBid) => withdraw_bid(book, call),
        Some(Kind::Quote) => quote(book, call.contract, call.amount),
        Some(Kind::Lodge) => lodge(book, call),
        Some(Kind::MorningClose) => morning_close(book),
        Some(Kind::FirstPayment) => pay_first(book, call),
        Some(Kind::Invoice) => invoice(book, call),
        Some(Kind::Confirm) => confirm(book, call),
        Some(Kind::DayClose) | None => day_close(book),
    }
}
