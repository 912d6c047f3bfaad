// Tables with any number of calls, mostly taken; now and then one that must be refused, for one fault or for several.
use ledger_book::{
    ANSWER_LENGTH, ANSWERS_LENGTH, CALL_LENGTH, IMAGE_LENGTH, MOST_CALLS, SPARE_CALLS,
};
use longrun_calls::Chooser;
use longrun_draws::{Draws, Lengths, Request, answers_wanted};
use longrun_wild::{odd_field, odd_length};

const CALL: u64 = CALL_LENGTH as u64;

// ── Lengths ─────────────────────────────────────────────────────────────────────────────────────

fn some_calls(draws: &mut Draws) -> u64 {
    match draws.below(100) {
        0..=9 => 0,
        10..=19 => 1,
        20..=29 => MOST_CALLS,
        30..=39 => draws.between(MOST_CALLS + 1, MOST_CALLS + SPARE_CALLS),
        _ => draws.between(2, MOST_CALLS - 1),
    }
}

// Bytes of a record that is cut short.
fn some_rest(draws: &mut Draws) -> u64 {
    if draws.percent(20) {
        return draws.between(1, CALL - 1);
    }
    0
}

// One byte too few, or any number of bytes that is too small.
fn too_short(draws: &mut Draws, wanted: u64) -> u64 {
    if draws.percent(50) {
        return wanted.wrapping_sub(1);
    }
    draws.below(wanted)
}

// Often exact. Where no answer is wanted none can lack.
fn some_answers(draws: &mut Draws, wanted: u64) -> u64 {
    match draws.below(100) {
        0..=14 if wanted != 0 => too_short(draws, wanted),
        0..=34 => wanted.wrapping_add(draws.below(ANSWER_LENGTH as u64)),
        35..=49 => ANSWERS_LENGTH as u64,
        _ => wanted,
    }
}

// Now and then an image of a wrong length.
fn some_image(draws: &mut Draws) -> u64 {
    if draws.percent(10) {
        return odd_length(draws, IMAGE_LENGTH);
    }
    IMAGE_LENGTH as u64
}

pub fn some_table(draws: &mut Draws) -> Lengths {
    let calls = some_calls(draws);
    Lengths {
        image: some_image(draws),
        calls: calls.wrapping_mul(CALL).wrapping_add(some_rest(draws)),
        answers: some_answers(draws, answers_wanted(calls)),
    }
}

// ── Calls ───────────────────────────────────────────────────────────────────────────────────────

// A call that will find the chooser's image: the run's opening has its first calls, the others are mostly sensible.
pub fn call_in_table(chooser: &mut Chooser<'_>, lengths: Lengths, number: u64) -> Request {
    match chooser.plan.opening() {
        Some(opening) if number < opening.calls() => opening.call(number),
        _ => drawn_call(chooser, lengths),
    }
}

fn drawn_call(chooser: &mut Chooser<'_>, lengths: Lengths) -> Request {
    let mut request = chooser.sensible();
    if chooser.draws.percent(12) {
        request = odd_field(chooser.draws, request);
    }
    request.lengths.image = lengths.image;
    request
}
