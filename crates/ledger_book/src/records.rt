// The call record (01 Calls 2).
use crate::fields::field;
use crate::numbered::Kind;
use crate::places::{
    CALL_ACCOUNT_END, CALL_AMOUNT_END, CALL_BASIS_END, CALL_CONTRACT_END, CALL_DAYS_END,
    CALL_KIND_END, CALL_LENGTH, CALL_RECEIPT_END, CALL_WEIGHT_END, CALL_ZEROS_END,
};

pub type Record = [u8; CALL_LENGTH];

// What the bytes of a record say, also those of a bad call: `kind` can be no kind's number, `zeros` can be other than 0. `amount` is a price in
// bids and quotes, `basis` the premium where a receipt is registered.
#[derive(Clone, Copy)]
pub struct Call {
    pub kind: u64,
    pub account: u64,
    pub receipt: u64,
    pub contract: u64,
    pub days: u64,
    pub zeros: u64,
    pub amount: u64,
    pub basis: u64,
    pub weight: u64,
}

impl Call {
    pub fn read(record: &[u8]) -> Call {
        Call {
            kind: field(record, 0..CALL_KIND_END),
            account: field(record, CALL_KIND_END..CALL_ACCOUNT_END),
            receipt: field(record, CALL_ACCOUNT_END..CALL_RECEIPT_END),
            contract: field(record, CALL_RECEIPT_END..CALL_CONTRACT_END),
            days: field(record, CALL_CONTRACT_END..CALL_DAYS_END),
            zeros: field(record, CALL_DAYS_END..CALL_ZEROS_END),
            amount: field(record, CALL_ZEROS_END..CALL_AMOUNT_END),
            basis: field(record, CALL_AMOUNT_END..CALL_BASIS_END),
            weight: field(record, CALL_BASIS_END..CALL_WEIGHT_END),
        }
    }

    // None where the number is none of a kind's.
    pub fn kind(&self) -> Option<Kind> {
        Kind::try_from(self.kind).ok()
    }
}
