// The two closes of a day.
use crate::parties::{Parties, from_owner};
use ledger_book::{
    ASK, BUYER, Book, CONTRACTS, Cells, DAY, DEPOSIT, DUE, OWNER, Outcome, PHASE, PREMIUM, Phase,
    RECEIPT_COLUMNS_END, RECEIPTS, SELLER, STATE, State, WEIGHT, ZONE,
};

// A lot ends: the receipt is idle and keeps its owner, weight and premium.
pub fn end(book: &mut Book, lot: u64) {
    for column in STATE..RECEIPT_COLUMNS_END {
        if column != WEIGHT && column != PREMIUM {
            book.set(column, lot, 0);
        }
    }
}

// ── Morning ─────────────────────────────────────────────────────────────────────────────────────

// Whether the buyer can make the full payment, the deposit counted in (01 Calls 15).
fn has_money(book: &Book, lot: u64) -> bool {
    let free = book.free(book.cell(BUYER, lot));
    free.wrapping_add(DEPOSIT) >= book.full_payment(lot)
}

// A lodged lot: with money the buyer owns the receipt and the lot holds the full payment, else the deposit passes to the seller.
fn close_lodged(book: &mut Book, lot: u64) {
    let parties = Parties::of(book, lot);
    if has_money(book, lot) {
        let full = book.full_payment(lot);
        book.set(OWNER, lot, parties.buyer);
        book.set(STATE, lot, State::Settled as u64);
        book.note(parties.from_buyer(Outcome::Settled, full));
    } else {
        book.pass(parties.buyer, parties.seller, DEPOSIT);
        end(book, lot);
        book.note(parties.from_buyer(Outcome::BuyerDefault, DEPOSIT));
    }
}

// A lot not lodged in time: the seller's default where the buyer has money, else both have defaulted.
fn close_struck(book: &mut Book, lot: u64) {
    let parties = Parties::of(book, lot);
    let money = has_money(book, lot);
    end(book, lot);
    if money {
        let tomorrow = book.cell(DAY, ZONE).wrapping_add(1);
        book.set(STATE, lot, State::PenaltyDue as u64);
        book.set(SELLER, lot, parties.seller);
        book.set(BUYER, lot, parties.buyer);
        book.set(DUE, lot, tomorrow);
        book.note(parties.from_seller(Outcome::SellerDefault, 0));
    } else {
        book.note(parties.from_buyer(Outcome::BothDefaulted, 0));
    }
}

// The seller pays the penalty as far as the free money goes.
fn close_penalty(book: &mut Book, lot: u64) {
    let parties = Parties::of(book, lot);
    let fen = book.free(parties.seller).min(DEPOSIT);
    book.pass(parties.seller, parties.buyer, fen);
    end(book, lot);
    book.note(parties.from_seller(Outcome::Penalty, fen));
}

fn close_lot(book: &mut Book, lot: u64) {
    if book.cell(DUE, lot) > book.cell(DAY, ZONE) {
        return;
    }
    match book.state(lot) {
        Some(State::Struck) => close_struck(book, lot),
        Some(State::Lodged) => close_lodged(book, lot),
        Some(State::PenaltyDue) => close_penalty(book, lot),
        _ => {}
    }
}

// Each lot goes by the balances that lower lots left (01 Calls 14 to 21).
pub fn morning_close(book: &mut Book) {
    for lot in 1..=RECEIPTS {
        close_lot(book, lot);
    }
    book.set(PHASE, ZONE, Phase::Afternoon as u64);
}

// ── Afternoon ───────────────────────────────────────────────────────────────────────────────────

fn end_listing(book: &mut Book, lot: u64) {
    if let Some(State::Listed | State::BidStands) = book.state(lot) {
        let seller = book.cell(SELLER, lot);
        end(book, lot);
        book.note(from_owner(lot, Outcome::ListingEnded, seller));
    }
}

fn end_listings(book: &mut Book) {
    for lot in 1..=RECEIPTS {
        end_listing(book, lot);
    }
}

// Listings and asks end with the day, and the next morning comes (01 Calls 25).
pub fn day_close(book: &mut Book) {
    end_listings(book);
    for contract in 1..=CONTRACTS {
        book.set(ASK, contract, 0);
    }
    book.raise(DAY, ZONE, 1);
    book.set(PHASE, ZONE, Phase::Morning as u64);
}
