// How many bytes of each buffer a call or a table of calls lends.
use ledger_book::{ANSWER_LENGTH, CALL_LENGTH, IMAGE_LENGTH, MOST_CALLS, product};

#[derive(Clone, Copy)]
pub struct Lengths {
    pub image: u64,
    pub calls: u64,
    pub answers: u64,
}

const IMAGE: u64 = IMAGE_LENGTH as u64;

const CALL: u64 = CALL_LENGTH as u64;

const ANSWER: u64 = ANSWER_LENGTH as u64;

// Why a table is not taken (02 5/12): one of these numbers, or several of them added up.
pub const TOO_MANY_CALLS: u64 = 1;

pub const RECORD_CUT_SHORT: u64 = 2;

pub const ANSWERS_TOO_SHORT: u64 = 4;

// The same as the runs count it.
#[derive(Clone, Copy, PartialEq, Eq)]
pub enum TableFault {
    TooManyCalls,
    RecordCutShort,
    AnswersTooShort,
    Several,
}

// Bytes that the answers to so many calls take.
pub fn answers_wanted(calls: u64) -> u64 {
    product(calls, ANSWER)
}

impl Lengths {
    // So many calls, with no byte too few or too many anywhere.
    pub fn of_calls(calls: u64) -> Lengths {
        Lengths {
            image: IMAGE,
            calls: product(calls, CALL),
            answers: answers_wanted(calls),
        }
    }

    pub fn whole_calls(&self) -> u64 {
        self.calls / CALL
    }

    // Bytes of a record that is cut short, behind the whole ones.
    pub fn rest(&self) -> u64 {
        self.calls % CALL
    }

    // 0 of a table that is taken.
    pub fn reasons(&self) -> u64 {
        let calls = self.whole_calls();
        let mut found = 0u64;
        if calls > MOST_CALLS {
            found |= TOO_MANY_CALLS;
        }
        if self.rest() != 0 {
            found |= RECORD_CUT_SHORT;
        }
        if self.answers < answers_wanted(calls) {
            found |= ANSWERS_TOO_SHORT;
        }
        found
    }

    // None of a table that is taken.
    pub fn fault(&self) -> Option<TableFault> {
        match self.reasons() {
            0 => None,
            TOO_MANY_CALLS => Some(TableFault::TooManyCalls),
            RECORD_CUT_SHORT => Some(TableFault::RecordCutShort),
            ANSWERS_TOO_SHORT => Some(TableFault::AnswersTooShort),
            _ => Some(TableFault::Several),
        }
    }
}
