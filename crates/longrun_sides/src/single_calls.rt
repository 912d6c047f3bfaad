// One call on both sides.
use crate::buffers::{filled, is_filled, lent, lent_mut};
use crate::sides::Sides;
use ledger_book::{
    ANSWER_LENGTH, CALL_ACCOUNT_END, CALL_AMOUNT_END, CALL_BASIS_END, CALL_CONTRACT_END,
    CALL_DAYS_END, CALL_KIND_END, CALL_RECEIPT_END, CALL_WEIGHT_END, CALL_ZEROS_END, LAST_NUMBER,
    Page, Refusal,
};
use longrun_counts::Made;
use longrun_draws::Request;

// The call record; bytes past it are zero.
pub fn record_of(request: &Request) -> Page {
    let mut record = Page::filled(0);
    record.put(0..CALL_KIND_END, request.kind);
    record.put(CALL_KIND_END..CALL_ACCOUNT_END, request.account);
    record.put(CALL_ACCOUNT_END..CALL_RECEIPT_END, request.receipt);
    record.put(CALL_RECEIPT_END..CALL_CONTRACT_END, request.contract);
    record.put(CALL_CONTRACT_END..CALL_DAYS_END, request.days);
    record.put(CALL_DAYS_END..CALL_ZEROS_END, request.zeros);
    record.put(CALL_ZEROS_END..CALL_AMOUNT_END, request.amount);
    record.put(CALL_AMOUNT_END..CALL_BASIS_END, request.basis);
    record.put(CALL_BASIS_END..CALL_WEIGHT_END, request.weight);
    record
}

// What document 01 leaves as it was, whatever both sides agree on: the image after a refusal, the answer past its length, and all of
// it at number 1.
fn left_alone(number: u64, before: &Page, image: &Page, answer: &Page) -> bool {
    let is_short = number == Refusal::ShortAnswer as u64;
    let written = if is_short { 0 } else { ANSWER_LENGTH };
    is_filled(answer, written) && (number == 0 || before == image)
}

impl Sides {
    // Makes the call on both sides and compares.
    pub fn drive(&mut self, request: Request) -> Made {
        let before = self.image;
        let record = record_of(&request);
        let mut answer = filled();
        let mut other = filled();
        let lengths = request.lengths;
        let call = lent(&record.bytes, lengths.calls);
        let number = u64::from(crz::crz_call(
            lent_mut(&mut self.image.bytes, lengths.image),
            call,
            lent_mut(&mut answer.bytes, lengths.answers),
        ));
        let of_ledger = ledger::call(
            lent_mut(&mut self.second.bytes, lengths.image),
            call,
            lent_mut(&mut other.bytes, lengths.answers),
        );
        let alike = number == of_ledger && self.image == self.second && answer == other;
        let right = number <= LAST_NUMBER && left_alone(number, &before, &self.image, &answer);
        let verdict = self.compared(number, of_ledger, alike && right);
        Made {
            request,
            before,
            after: self.image,
            answer,
            verdict,
        }
    }
}
