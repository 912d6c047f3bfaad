// Little-endian numbers in bytes (01 Opening 5). A byte past the end of a buffer reads as 0.
use crate::holdings::Cells;
use crate::payments::product;
use crate::places::{CALL_LENGTH, PAGE_LENGTH, place_of};
use std::ops::Range;

pub fn field(bytes: &[u8], place: Range<usize>) -> u64 {
    let end = place.end.min(bytes.len());
    bytes
        .get(place.start..end)
        .unwrap_or(&[])
        .iter()
        .rev()
        .fold(0, |value, byte| (value << 8) | u64::from(*byte))
}

// A buffer for an image, a call record, an answer or figures, or for the records of a table of calls.
#[derive(Clone, Copy, Debug, Default, PartialEq, Eq, PartialOrd, Ord, Hash)]
pub struct Page {
    pub bytes: [u8; PAGE_LENGTH],
}

impl Page {
    pub fn filled(byte: u8) -> Page {
        Page {
            bytes: [byte; PAGE_LENGTH],
        }
    }

    pub fn field(&self, place: Range<usize>) -> u64 {
        field(&self.bytes, place)
    }

    // Writes the value into those bytes of the place that a page has; from the ninth on they become 0.
    pub fn put(&mut self, place: Range<usize>, value: u64) {
        let end = place.end.min(PAGE_LENGTH);
        let mut rest = value;
        for byte in self.bytes.get_mut(place.start..end).unwrap_or(&mut []) {
            *byte = (rest % 256) as u8;
            rest /= 256;
        }
    }

    // Sets the cell of a column, where a page has it.
    pub fn set(&mut self, column: u64, row: u64, value: u64) {
        self.put(place_of(column, row), value);
    }

    // The first `count` bytes, as far as the buffer goes.
    pub fn copy_out(&self, buffer: &mut [u8], count: usize) {
        for (to, from) in buffer.iter_mut().zip(self.bytes.iter().take(count)) {
            *to = *from;
        }
    }

    // Puts a call record where the call with this number has its own, as far as there is room for it.
    pub fn put_record(&mut self, k: u64, record: &Page) {
        let start = product(k, CALL_LENGTH as u64) as usize;
        if let Some(place) = self.bytes.get_mut(start..) {
            record.copy_out(place, CALL_LENGTH);
        }
    }
}

impl Cells for Page {
    fn cell(&self, column: u64, row: u64) -> u64 {
        self.field(place_of(column, row))
    }
}
