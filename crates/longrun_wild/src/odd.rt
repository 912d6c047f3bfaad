// Wild calls: sensible ones with a field or two at the end of some range, or with buffers of a wrong length.
use ledger_book::{
    ACCOUNTS, ANSWER_LENGTH, CALL_LENGTH, CONTRACTS, DEPOSIT, IMAGE_LENGTH, LAST_DAY, LAST_DUE,
    LAST_KIND, LEAST_WEIGHT, MOST_AMOUNT, MOST_BASIS, MOST_DAYS, MOST_PREMIUM, MOST_PRICE,
    MOST_TOTAL, MOST_WEIGHT, PRICE_STEP, RECEIPTS, SPARE_LENGTH,
};
use longrun_draws::{Draws, Request};

const EDGE_COUNT: usize = 29;

// Ends of ranges, the last kind, and ends of number types.
const EDGES: [u64; EDGE_COUNT] = [
    0,
    1,
    MOST_DAYS,
    PRICE_STEP,
    CONTRACTS,
    LAST_KIND,
    ACCOUNTS,
    RECEIPTS,
    255,
    LEAST_WEIGHT,
    MOST_PREMIUM,
    LAST_DAY,
    LAST_DUE,
    MOST_BASIS,
    MOST_WEIGHT,
    MOST_PRICE,
    DEPOSIT,
    MOST_AMOUNT,
    MOST_TOTAL,
    65535,
    65536,
    2147483647,
    2147483648,
    4294967295,
    4294967296,
    9223372036854775807,
    9223372036854775808,
    18446744073709551615,
    18446744073709550616,
];

// A number at an end, or one beside it, or its negative.
pub fn edge(draws: &mut Draws) -> u64 {
    let k = draws.below(EDGE_COUNT as u64) as usize;
    let value = draws.beside(EDGES.get(k).copied().unwrap_or(0));
    if draws.percent(20) {
        return value.wrapping_neg();
    }
    value
}

// Any number, more often one at an end.
fn odd_value(draws: &mut Draws) -> u64 {
    if draws.percent(25) {
        return draws.word();
    }
    edge(draws)
}

// One field of a call gets another value.
pub fn odd_field(draws: &mut Draws, mut request: Request) -> Request {
    let field = draws.below(9);
    let value = odd_value(draws);
    match field {
        0 => request.kind = value,
        1 => request.account = value,
        2 => request.receipt = value,
        3 => request.contract = value,
        4 => request.days = value,
        5 => request.zeros = value,
        6 => request.amount = value,
        7 => request.basis = value,
        _ => request.weight = value,
    }
    request
}

const SPARE: u64 = SPARE_LENGTH as u64;

// One byte too few or too many, or any length up to that of the right one with the spare bytes of a page.
pub fn odd_length(draws: &mut Draws, right: usize) -> u64 {
    let length = right as u64;
    match draws.below(4) {
        0 => length.wrapping_sub(1),
        1 => length.wrapping_add(1),
        _ => draws.between(0, length.wrapping_add(SPARE)),
    }
}

// One buffer of a wrong length, or a longer answer buffer.
fn odd_buffer(draws: &mut Draws, mut request: Request) -> Request {
    match draws.below(4) {
        0 => request.lengths.calls = odd_length(draws, CALL_LENGTH),
        1 => request.lengths.image = odd_length(draws, IMAGE_LENGTH),
        2 => request.lengths.answers = odd_length(draws, ANSWER_LENGTH),
        _ => {
            let more = draws.below(SPARE);
            request.lengths.answers = request.lengths.answers.wrapping_add(more);
        }
    }
    request
}

// A field, a buffer or two of these are odd: the lowest number that applies then decides.
pub fn make_wild(draws: &mut Draws, mut request: Request) -> Request {
    if draws.percent(60) {
        request = odd_field(draws, request);
    }
    if draws.percent(20) {
        request = odd_field(draws, request);
    }
    if draws.percent(40) {
        request = odd_buffer(draws, request);
    }
    if draws.percent(10) {
        request = odd_buffer(draws, request);
    }
    request
}
