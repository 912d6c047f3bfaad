// The book: columns of numbers. A lot, an account and a contract have the row of their number, the zone has row 1; row 0 is nobody's.
use crate::holdings::Cells;
use crate::places::{ASK, BUYER, COLUMNS, CONTRACT, RECEIPTS, WEALTH};

// As many rows as the longest table wants.
pub const ROWS: u64 = RECEIPTS + 1;

const BOOK_ROWS: usize = ROWS as usize;

// The columns of entries and figures lie unused between those of an image and WEALTH (d): without them `cell` and `set` would have a branch
// for WEALTH.
const BOOK_COLUMNS: usize = COLUMNS as usize;

// The row of the header's columns.
pub const ZONE: u64 = 1;

// What the call's answer lists about a lot. An outcome stands here by its number, as in the answer.
#[derive(Clone, Copy, Debug, Default, PartialEq, Eq, PartialOrd, Ord, Hash)]
pub struct Entry {
    pub lot: u64,
    pub outcome: u64,
    pub from: u64,
    pub to: u64,
    pub number: u64,
}

#[derive(Clone, Copy, Debug, Default, PartialEq, Eq, PartialOrd, Ord, Hash)]
pub struct Book {
    columns: [[u64; BOOK_ROWS]; BOOK_COLUMNS],
    // By lot.
    pub entries: [Option<Entry>; BOOK_ROWS],
}

impl Book {
    pub fn empty() -> Book {
        Book {
            columns: [[0; BOOK_ROWS]; BOOK_COLUMNS],
            entries: [None; BOOK_ROWS],
        }
    }

    pub fn set(&mut self, column: u64, row: u64, value: u64) {
        if let Some(rows) = self.columns.get_mut(column as usize)
            && let Some(cell) = rows.get_mut(row as usize)
        {
            *cell = value;
        }
    }

    // Sums and differences go modulo 2^64. In a valid zone the ranges keep the true ones within 0 to 2^64 - 1, and an image with more free
    // money than a zone may hold is turned down before anything is summed.
    pub fn raise(&mut self, column: u64, row: u64, by: u64) {
        self.set(column, row, self.cell(column, row).wrapping_add(by));
    }

    pub fn lower(&mut self, column: u64, row: u64, by: u64) {
        self.set(column, row, self.cell(column, row).wrapping_sub(by));
    }

    // The ask of a lot's contract.
    pub fn ask_of(&self, lot: u64) -> u64 {
        self.cell(ASK, self.cell(CONTRACT, lot))
    }

    // An account's frozen money: what all lots hold from it.
    fn frozen(&self, account: u64) -> u64 {
        (1..=RECEIPTS)
            .filter(|lot| self.cell(BUYER, *lot) == account)
            .fold(0, |sum, lot| sum.wrapping_add(self.held(lot)))
    }

    pub fn free(&self, account: u64) -> u64 {
        self.cell(WEALTH, account)
            .wrapping_sub(self.frozen(account))
    }

    // Fen that pass from one account to another.
    pub fn pass(&mut self, from: u64, to: u64, fen: u64) {
        self.lower(WEALTH, from, fen);
        self.raise(WEALTH, to, fen);
    }

    // Notes the entry of a lot. A call has at most one for each lot. With outcome 0 the lot has none.
    pub fn note(&mut self, entry: Entry) {
        if let Some(place) = self.entries.get_mut(entry.lot as usize) {
            *place = (entry.outcome != 0).then_some(entry);
        }
    }
}

impl Cells for Book {
    fn cell(&self, column: u64, row: u64) -> u64 {
        self.columns
            .get(column as usize)
            .and_then(|rows| rows.get(row as usize))
            .copied()
            .unwrap_or(0)
    }
}
