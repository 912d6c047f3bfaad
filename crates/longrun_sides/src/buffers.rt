// Buffers that a call may write are filled with one byte before it, so that what it leaves alone shows.
use ledger_book::{Answers, Page};

const FILL: u8 = 195;

pub fn filled() -> Page {
    Page::filled(FILL)
}

pub fn filled_answers() -> Answers {
    Answers::filled(FILL)
}

// As many bytes of a buffer as are lent, as far as it goes.
pub fn lent(bytes: &[u8], length: u64) -> &[u8] {
    &bytes[..bytes.len().min(length as usize)]
}

pub fn lent_mut(bytes: &mut [u8], length: u64) -> &mut [u8] {
    let end = bytes.len().min(length as usize);
    &mut bytes[..end]
}

// Whether all bytes from `start` on are as `filled` leaves them.
pub fn is_filled(page: &Page, start: usize) -> bool {
    page.bytes.iter().skip(start).all(|byte| *byte == FILL)
}
