// Both images, and a fresh one on both sides.
use crate::buffers::{filled, is_filled};
use ledger_book::{IMAGE_LENGTH, PAGE_LENGTH, Page, Refusal};
use longrun_counts::Verdict;

// The library's image and the second ledger's, which must be the same.
#[derive(Drop)]
pub struct Sides {
    pub image: Page,
    pub second: Page,
}

// What document 01 leaves as it was: bytes past the image, and all of them at number 2.
fn left_alone(number: u64, image: &Page) -> bool {
    match number {
        0 => is_filled(image, IMAGE_LENGTH),
        _ => is_filled(image, 0),
    }
}

impl Sides {
    // Both begin with this image.
    pub fn on(image: &Page) -> Sides {
        Sides {
            image: *image,
            second: *image,
        }
    }

    // What was made on both sides. After a difference the ledger goes on with the library's image.
    pub fn compared(&mut self, of_library: u64, of_ledger: u64, agree: bool) -> Verdict {
        if !agree {
            self.second = self.image;
        }
        Verdict::new(of_library, of_ledger, agree)
    }

    // Both sides write a fresh image into a buffer of `length` bytes; whether numbers and buffers are as they must be.
    pub fn agree_on_fresh(&mut self, length: usize) -> bool {
        *self = Sides::on(&filled());
        let end = PAGE_LENGTH.min(length);
        let number = u64::from(crz::crz_fresh(&mut self.image.bytes[..end]));
        let of_ledger = ledger::fresh(&mut self.second.bytes[..end]);
        let alike = number == of_ledger && self.image == self.second;
        alike && number <= Refusal::BadImage as u64 && left_alone(number, &self.image)
    }
}
