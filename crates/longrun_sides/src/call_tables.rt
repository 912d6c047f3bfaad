// One table of calls on both sides (02 5/12).
use crate::buffers::{filled_answers, lent, lent_mut};
use crate::sides::Sides;
use ledger_book::{Answers, Page, Refusal};
use longrun_counts::MadeTable;
use longrun_draws::{Lengths, request_of};

// A table's calls made one by one: their records, and the image and the answers that they leave, which the table must leave too.
#[derive(Drop)]
pub struct MadeAlone {
    pub lengths: Lengths,
    pub records: Page,
    pub image: Page,
    pub answers: Answers,
}

impl MadeAlone {
    // By the table's lengths alone, whatever both sides agree on: one that is refused leaves image and answers as they were, one that is taken
    // leaves what is wanted.
    fn as_must_be(&self, number: u64, before: &Page, image: &Page, answers: &Answers) -> bool {
        if self.lengths.fault().is_some() {
            let refused = number == Refusal::BadTable as u64;
            return refused && image == before && *answers == filled_answers();
        }
        number == 0 && *image == self.image && *answers == self.answers
    }
}

impl Sides {
    // Whether a call on so many bytes of the image has number 2. One of no kind has 3 on a valid image.
    fn is_bad_image(&self, length: u64) -> bool {
        let mut request = request_of(0, 0, 0, 0);
        request.lengths.image = length;
        let made = Sides::on(&self.image).drive(request);
        made.verdict.is_refused_by(Refusal::BadImage)
    }

    // Hands the table to both sides and compares all bytes.
    pub fn drive_table(&mut self, wanted: &MadeAlone) -> MadeTable {
        let before = self.image;
        let lengths = wanted.lengths;
        let bad_image = self.is_bad_image(lengths.image);
        let mut answers = filled_answers();
        let mut other = filled_answers();
        let calls = lent(&wanted.records.bytes, lengths.calls);
        let number = u64::from(crz::crz_table(
            lent_mut(&mut self.image.bytes, lengths.image),
            calls,
            lent_mut(&mut answers.bytes, lengths.answers),
        ));
        let of_ledger = ledger::table(
            lent_mut(&mut self.second.bytes, lengths.image),
            calls,
            lent_mut(&mut other.bytes, lengths.answers),
        );
        let alike = number == of_ledger && self.image == self.second && answers == other;
        let right = wanted.as_must_be(number, &before, &self.image, &answers);
        MadeTable {
            lengths,
            bad_image,
            answers,
            verdict: self.compared(number, of_ledger, alike && right),
        }
    }
}
