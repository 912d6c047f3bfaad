// A table of calls: each is made on what the one before it left, and has an answer of its own (02 5/12).
use crate::{call, number};
use ledger_book::{ANSWER_LENGTH, CALL_LENGTH, MOST_CALLS, Refusal};

// Calls beyond the most, a record cut short, or a buffer too short for as many answers. Only lengths tell.
fn is_bad_table(calls: usize, answers: usize) -> bool {
    let count = calls / CALL_LENGTH;
    count > MOST_CALLS as usize || calls % CALL_LENGTH != 0 || answers / ANSWER_LENGTH < count
}

// Each call is judged like any other; what it is refused by stands in its answer and ends nothing.
fn make_calls(image: &mut [u8], calls: &[u8], answers: &mut [u8]) -> Result<(), Refusal> {
    if is_bad_table(calls.len(), answers.len()) {
        return Err(Refusal::BadTable);
    }
    let records = calls.chunks_exact(CALL_LENGTH);
    for (record, answer) in records.zip(answers.chunks_exact_mut(ANSWER_LENGTH)) {
        call(image, record, answer);
    }
    Ok(())
}

// The table's own number, with image and answers written.
pub fn table(image: &mut [u8], calls: &[u8], answers: &mut [u8]) -> u64 {
    number(make_calls(image, calls, answers))
}
