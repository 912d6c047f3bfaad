// What confirmed invoices pay (02 3/12).
use crate::made::Made;
use crate::tally::Tally;
use ledger_book::{CONFIRMED, Cells, NUMBER, PENDING, paid_of_rest};

// The columns of the tally's parts.
#[derive(Clone, Copy)]
pub enum PartCount {
    All,
    OfOneFen,
    AfterOthers,
    PaidNothing,
    PaidShare,
    PaidFenMore,
    PaidOther,
}

impl Tally {
    // An accepted confirmation: what it paid, beside the invoice's own share of the rest.
    pub fn count_part(&mut self, made: &Made) {
        let lot = made.request.lot();
        let full = made.before.full_payment(lot);
        let confirmed = made.before.cell(CONFIRMED, lot);
        let invoice = made.before.cell(PENDING, lot);
        let is_last = confirmed.wrapping_add(invoice) == full;
        let part = made.answer.cell(NUMBER, 1);
        let more = part.wrapping_sub(paid_of_rest(full, invoice));
        self.parts.add_each(
            u64::from(is_last),
            &[
                (PartCount::All as u64, true),
                (PartCount::OfOneFen as u64, invoice == 1),
                (PartCount::AfterOthers as u64, confirmed != 0),
                (PartCount::PaidNothing as u64, part == 0),
                (PartCount::PaidShare as u64, more == 0),
                (PartCount::PaidFenMore as u64, more == 1),
                (PartCount::PaidOther as u64, more > 1),
            ],
        );
    }
}
