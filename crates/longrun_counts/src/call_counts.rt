// What a call has reached.
use crate::altered::Altered;
use crate::made::Made;
use crate::tally::Tally;
use ledger_book::{Kind, LAST_KIND, Page, Refusal};

impl Tally {
    // Counts a call that was driven.
    pub fn count_call(&mut self, made: &Made) {
        // The kinds that document 01 does not know share the last row.
        let row = made.request.kind_byte().min(LAST_KIND + 1);
        self.calls = self.calls.wrapping_add(1);
        self.pairs.add(row, made.verdict.number);
        self.count_limits(made, &made.after);
        if made.verdict.is_accepted() {
            self.count_entries(made);
            self.count_contract(made);
            if made.request.kind() == Some(Kind::Confirm) {
                self.count_part(made);
            }
        }
    }

    // Apart from the others: what an altered image answers says little of how often a rule is reached. `sound` is the image before it was
    // altered.
    pub fn count_altered(&mut self, made: &Made, sound: &Page) {
        self.count_limits(made, &made.before);
        let mut altered = Altered {
            sound,
            altered: &made.before,
            number: made.verdict.number,
            tally: self,
        };
        altered.count_premiums();
        altered.count_trades();
        altered.count_misplaced();
        if made.verdict.is_refused_by(Refusal::BadImage) {
            self.refused_images = self.refused_images.wrapping_add(1);
        } else {
            self.valid_images = self.valid_images.wrapping_add(1);
        }
    }
}
