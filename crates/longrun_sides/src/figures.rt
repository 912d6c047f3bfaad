// The figures of shortfalls on both sides (02 6/12). The image is lent for reading: no side can change it.
use crate::buffers::{filled, is_filled, lent, lent_mut};
use ledger_book::{FIGURES_LENGTH, Page, Refusal};
use longrun_counts::{Asked, Verdict};

// Whatever both sides agree on: too few bytes have number 1, and no others; nothing is written at 1 and 2, nor past the figures.
fn as_must_be(number: u64, room: u64, figures: &Page) -> bool {
    let too_few = room < FIGURES_LENGTH as u64;
    if number == 0 {
        return !too_few && is_filled(figures, FIGURES_LENGTH);
    }
    let is_right = (number == Refusal::ShortAnswer as u64) == too_few;
    is_right && number <= Refusal::BadImage as u64 && is_filled(figures, 0)
}

// Asks both sides and compares.
pub fn ask_shortfalls(image: &Page, image_length: u64, room: u64) -> Asked {
    let mut figures = filled();
    let mut other = filled();
    let image = lent(&image.bytes, image_length);
    let number = u64::from(crz::crz_shortfalls(image, lent_mut(&mut figures.bytes, room)));
    let of_ledger = ledger::shortfalls(image, lent_mut(&mut other.bytes, room));
    let agree = number == of_ledger && figures == other && as_must_be(number, room, &figures);
    Asked {
        image_length,
        room,
        figures,
        verdict: Verdict::new(number, of_ledger, agree),
    }
}
