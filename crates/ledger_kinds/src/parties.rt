// The parties of a lot, and the entries between them (01 Answers 7).
use ledger_book::{BUYER, Book, Cells, Entry, Outcome, SELLER};

#[derive(Clone, Copy)]
pub struct Parties {
    pub lot: u64,
    pub buyer: u64,
    pub seller: u64,
}

impl Parties {
    pub fn of(book: &Book, lot: u64) -> Parties {
        Parties {
            lot,
            buyer: book.cell(BUYER, lot),
            seller: book.cell(SELLER, lot),
        }
    }

    pub fn from_buyer(self, outcome: Outcome, number: u64) -> Entry {
        Entry {
            lot: self.lot,
            outcome: outcome as u64,
            from: self.buyer,
            to: self.seller,
            number,
        }
    }

    pub fn from_seller(self, outcome: Outcome, number: u64) -> Entry {
        Entry {
            lot: self.lot,
            outcome: outcome as u64,
            from: self.seller,
            to: self.buyer,
            number,
        }
    }
}

// An entry with nobody on the other side.
pub fn from_owner(lot: u64, outcome: Outcome, owner: u64) -> Entry {
    Entry {
        lot,
        outcome: outcome as u64,
        from: owner,
        to: 0,
        number: 0,
    }
}
