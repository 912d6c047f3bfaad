// A call to be made.
use crate::lengths::Lengths;
use ledger_book::{Kind, low_bits};

// A call by its fields, each of which may have any value, with the lengths of the buffers that it lends. `basis` is a premium where a receipt
// is registered.
#[derive(Clone, Copy)]
pub struct Request {
    pub kind: u64,
    pub account: u64,
    pub receipt: u64,
    pub contract: u64,
    pub days: u64,
    pub zeros: u64,
    pub amount: u64,
    pub basis: u64,
    pub weight: u64,
    pub lengths: Lengths,
}

// A call of any kind, or of none.
pub fn request_of(kind: u64, account: u64, receipt: u64, amount: u64) -> Request {
    Request {
        kind,
        account,
        receipt,
        contract: 0,
        days: 0,
        zeros: 0,
        amount,
        basis: 0,
        weight: 0,
        lengths: Lengths::of_calls(1),
    }
}

impl Request {
    pub fn new(kind: Kind, account: u64, receipt: u64, amount: u64) -> Request {
        request_of(kind as u64, account, receipt, amount)
    }

    pub fn quote(contract: u64, ask: u64) -> Request {
        Request {
            contract,
            ..Request::new(Kind::Quote, 0, 0, ask)
        }
    }

    pub fn close(kind: Kind) -> Request {
        Request::new(kind, 0, 0, 0)
    }

    // By the whole field, and not the byte that the record of a wild call has (a): what is printed counts it so.
    pub fn kind(&self) -> Option<Kind> {
        Kind::try_from(self.kind).ok()
    }

    // The kind and the lot that the call record has: one byte each.
    pub fn kind_byte(&self) -> u64 {
        self.kind % 256
    }

    pub fn lot(&self) -> u64 {
        self.receipt % 256
    }

    // The 32 bits of basis or premium that the call record has.
    pub fn basis_bits(&self) -> u64 {
        low_bits(self.basis)
    }
}
