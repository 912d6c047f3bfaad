// The answers to a table of calls (02 5/12). The calls are numbered from 0 on.
use crate::fields::{Page, field};
use crate::payments::product;
use crate::places::{ANSWER_LENGTH, ANSWERS_LENGTH};
use std::ops::Range;

// Answers for the longest table that the runs draw, and bytes to spare. Not one type with `Page` (d): the two share `filled` alone, and so no
// answers are taken for a page.
#[derive(Clone, Copy, Debug, Default, PartialEq, Eq, PartialOrd, Ord, Hash)]
pub struct Answers {
    pub bytes: [u8; ANSWERS_LENGTH],
}

// The first byte of the answer of the call with this number.
fn start_of(k: u64) -> usize {
    product(k, ANSWER_LENGTH as u64) as usize
}

impl Answers {
    pub fn filled(byte: u8) -> Answers {
        Answers {
            bytes: [byte; ANSWERS_LENGTH],
        }
    }

    // Puts the answer of the call with this number in its place, as far as there is room for it.
    pub fn put(&mut self, k: u64, answer: &Page) {
        if let Some(place) = self.bytes.get_mut(start_of(k)..) {
            answer.copy_out(place, ANSWER_LENGTH);
        }
    }

    // A field of that call's answer.
    pub fn field(&self, k: u64, place: Range<usize>) -> u64 {
        let start = start_of(k).wrapping_add(place.start);
        let end = start_of(k).wrapping_add(place.end);
        field(&self.bytes, start..end)
    }
}
