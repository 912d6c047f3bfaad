// Whether the image that the book has is valid (01 Image 7 to 17, 02 2/12 and 3/12).
use ledger_book::{
    ACCOUNT_COUNT, ACCOUNT_OFFSET, ACCOUNT_START, ACCOUNTS, ASK, BASIS, BUYER, Book, CONFIRMED,
    CONTRACT, CONTRACT_COUNT, CONTRACT_OFFSET, CONTRACT_START, CONTRACTS, Cells, DAY, DAYS, DUE,
    FREE, FROZEN, IMAGE_COLUMNS_END, LAST_DAY, LAST_DUE, MOST_DAYS, MOST_TOTAL, OWNER, PAID,
    PENDING, PHASE, PREMIUM, PRICE, Phase, RECEIPT_COUNT, RECEIPT_OFFSET, RECEIPT_START, RECEIPTS,
    SELLER, STATE, State, TOTAL, WEALTH, WEIGHT, ZEROS, ZONE, is_account, is_basis, is_contract,
    is_premium, is_price, is_weight, paid_of_rest, records_of,
};

// ── Judge each field by itself ──────────────────────────────────────────────────────────────────

// Fields outside receipts. Frozen money is judged with the lots. Free money above the limit could not be part of a total within it; it
// is turned down here, so that no sum of balances wraps around.
fn zone_field_ok(column: u64, value: u64) -> bool {
    match column {
        ACCOUNT_COUNT => value == ACCOUNTS,
        RECEIPT_COUNT => value == RECEIPTS,
        CONTRACT_COUNT => value == CONTRACTS,
        DAY => (1..=LAST_DAY).contains(&value),
        ACCOUNT_OFFSET => value == ACCOUNT_START as u64,
        CONTRACT_OFFSET => value == CONTRACT_START as u64,
        RECEIPT_OFFSET => value == RECEIPT_START as u64,
        PHASE => value <= Phase::Afternoon as u64,
        ZEROS => value == 0,
        ASK => value == 0 || is_price(value),
        FREE | TOTAL => value <= MOST_TOTAL,
        _ => true,
    }
}

// Whether a registered receipt of this state has the field (01 Image 7 to 13).
fn is_filled(column: u64, state: State) -> bool {
    match column {
        OWNER | STATE | WEIGHT | PREMIUM => true,
        SELLER => state >= State::Listed,
        BUYER => state >= State::BidStands,
        PRICE => (State::BidStands..=State::FirstPaid).contains(&state),
        DUE => state >= State::Struck,
        PENDING | CONFIRMED | PAID => state == State::FirstPaid,
        _ => (State::Listed..=State::FirstPaid).contains(&state),
    }
}

// The range of a field that is filled. Pending, confirmed and paid have conditions of their own.
fn in_range(column: u64, value: u64) -> bool {
    match column {
        OWNER | SELLER | BUYER => is_account(value),
        CONTRACT => is_contract(value),
        DAYS => value <= MOST_DAYS,
        DUE => (1..=LAST_DUE).contains(&value),
        WEIGHT => is_weight(value),
        PREMIUM => is_premium(value),
        BASIS => is_basis(value),
        PRICE => is_price(value),
        _ => true,
    }
}

// An unregistered receipt has no field filled, and what is not filled is zero (01 Image 8 and 14). No receipt has a state of another number.
fn receipt_field_ok(column: u64, owner: u64, state: Option<State>, value: u64) -> bool {
    match state {
        Some(state) if owner != 0 && is_filled(column, state) => in_range(column, value),
        Some(_) => value == 0,
        None => false,
    }
}

fn field_ok(book: &Book, column: u64, row: u64) -> bool {
    let value = book.cell(column, row);
    if column < OWNER {
        return zone_field_ok(column, value);
    }
    receipt_field_ok(column, book.cell(OWNER, row), book.state(row), value)
}

fn column_ok(book: &Book, column: u64) -> bool {
    (1..=records_of(column)).all(|row| field_ok(book, column, row))
}

fn columns_ok(book: &Book) -> bool {
    (0..IMAGE_COLUMNS_END).all(|column| column_ok(book, column))
}

// ── Judge the fields together ───────────────────────────────────────────────────────────────────

// The receipt is its seller's until it is settled, then the buyer's (01 Image 15).
fn parties_ok(book: &Book, lot: u64) -> bool {
    let owner = book.cell(OWNER, lot);
    let seller = book.cell(SELLER, lot);
    let buyer = book.cell(BUYER, lot);
    match book.state(lot) {
        Some(State::Idle) => true,
        Some(State::Settled | State::FirstPaid) => owner == buyer && buyer != seller,
        _ => owner == seller && buyer != seller,
    }
}

// From the bid to the last payment there is something to pay.
fn price_ok(book: &Book, lot: u64) -> bool {
    let priced = book.state(lot).is_some_and(|state| is_filled(PRICE, state));
    !priced || book.unit_price(lot, book.cell(PRICE, lot)) >= 1
}

// Invoices stay within the full payment, and as much of the rest is paid as those confirmed call for.
fn invoices_ok(book: &Book, lot: u64) -> bool {
    if book.state(lot) != Some(State::FirstPaid) {
        return true;
    }
    let full = book.full_payment(lot);
    let confirmed = book.cell(CONFIRMED, lot);
    let invoiced = confirmed.wrapping_add(book.cell(PENDING, lot));
    let paid = paid_of_rest(full, confirmed);
    confirmed < full && invoiced <= full && book.cell(PAID, lot) == paid
}

fn lots_ok(book: &Book) -> bool {
    (1..=RECEIPTS).all(|lot| parties_ok(book, lot) && price_ok(book, lot) && invoices_ok(book, lot))
}

// Takes what the lots hold out of what is frozen.
fn subtract_held(book: &mut Book) {
    for lot in 1..=RECEIPTS {
        book.lower(FROZEN, book.cell(BUYER, lot), book.held(lot));
    }
}

// Whether that leaves nothing, for every account.
fn nothing_frozen(book: &Book) -> bool {
    (1..=ACCOUNTS).all(|account| book.cell(FROZEN, account) == 0)
}

fn all_wealth(book: &Book) -> u64 {
    (1..=ACCOUNTS).fold(0, |sum, account| {
        sum.wrapping_add(book.cell(WEALTH, account))
    })
}

// The sums come last: they are true sums only where each field is in range. Frozen money is used up here.
pub fn is_valid(book: &mut Book) -> bool {
    if !columns_ok(book) || !lots_ok(book) {
        return false;
    }
    subtract_held(book);
    nothing_frozen(book) && book.cell(TOTAL, ZONE) == all_wealth(book)
}
