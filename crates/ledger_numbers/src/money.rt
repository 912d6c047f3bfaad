// Pay-ins and take-outs (01 Calls 4).
use crate::refuse_unless;
use ledger_book::{Book, Call, Cells, MOST_TOTAL, Refusal, TOTAL, ZONE, is_account, is_amount};

fn in_range(call: &Call) -> Result<(), Refusal> {
    refuse_unless(
        is_account(call.account) && is_amount(call.amount),
        Refusal::OutOfRange,
    )
}

pub fn pay_in(book: &Book, call: &Call) -> Result<(), Refusal> {
    in_range(call)?;
    let total = book.cell(TOTAL, ZONE).wrapping_add(call.amount);
    refuse_unless(total <= MOST_TOTAL, Refusal::OverLimit)
}

pub fn take_out(book: &Book, call: &Call) -> Result<(), Refusal> {
    in_range(call)?;
    refuse_unless(book.free(call.account) >= call.amount, Refusal::NoMoney)
}
