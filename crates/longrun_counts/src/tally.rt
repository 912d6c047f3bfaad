// What all runs have reached, counted.
use crate::limits::LIMIT_COUNT;
use crate::rows::{CountRow, Counts};
use crate::trials::{TrialTable, Trials};
use ledger_book::{CALL_LENGTH, CONTRACTS, LAST_KIND, LAST_NUMBER, LAST_OUTCOME};

// A row for each kind, 0 among them, and one for all above the last.
const KIND_ROWS: usize = LAST_KIND as usize + 2;

pub const NUMBERS: usize = LAST_NUMBER as usize + 1;

const OUTCOMES: usize = LAST_OUTCOME as usize;

// Behind the last outcome, the part payments that were a lot's last.
const OUTCOME_ROWS: usize = OUTCOMES + 1;

const CONTRACT_ROWS: usize = CONTRACTS as usize;

// The bytes that a record can be cut to.
const RESTS: usize = CALL_LENGTH - 1;

#[derive(Clone, Copy, Debug, Default, PartialEq, Eq, PartialOrd, Ord, Hash)]
pub struct Tally {
    pub calls: u64,
    pub differences: u64,
    // Calls by kind and number.
    pub pairs: Counts<KIND_ROWS, NUMBERS>,
    // Entries by outcome: those of lots with the least premium, one below 0, none, one above 0, the most.
    pub outcomes: Counts<OUTCOME_ROWS, 5>,
    pub most_entries: u64,
    // Of each contract: listings, bids, quotes, lots struck, and quotes that struck two lots or more, all accepted. Of these quotes: those with
    // two strikes at one price, those with strikes at different prices, and those with both.
    pub contracts: Counts<CONTRACT_ROWS, 8>,
    // Of each limit: the number before it, itself and the next.
    pub limits: TrialTable<LIMIT_COUNT>,
    // Images with a premium in the record of a receipt that nobody has.
    pub nobodys_premium: Trials,
    // Confirmed invoices, and behind them those that were a lot's last. Of each: all, those of one fen, those that were not a lot's first,
    // and those that paid nothing, their own share of the rest, one fen more, anything else.
    pub parts: Counts<2, 7>,
    // Images in which what a lot holds is elsewhere: a row for each state from 2 to 6, and one for the last lot. In each row, the places that
    // it can be in.
    pub holders: TrialTable<6>,
    // Altered images: refused by number 2, and still valid.
    pub refused_images: u64,
    pub valid_images: u64,
    // Buffers given to the fresh entry.
    pub fresh: u64,

    // Tables of calls: all of them, and those in which an accepted call stands behind a refused one.
    pub tables: u64,
    pub accepted_behind: u64,
    // By their calls: none, one, fewer than the most, the most, more. Of each: taken, taken on a bad image, refused, refused on a bad image.
    pub table_sizes: Counts<5, 4>,
    // Those taken with calls on a bad image: one of another length, one that is not valid.
    pub table_images: CountRow<2>,
    // Those refused, by fault: too many calls, a record cut short, answers too short, several of these. Of each: on a valid image, on a bad one.
    pub table_faults: Counts<4, 2>,
    // Those refused for a record cut short alone, by its bytes, from 1 on.
    pub table_rests: CountRow<RESTS>,
    // Those with calls and no other fault, by the bytes for answers: more than one byte too few, one, none, less than an answer to spare, more.
    pub table_answers: CountRow<5>,
    // Calls in tables that were taken, by number, and the entries of their answers by outcome, from 1 on.
    pub table_numbers: CountRow<NUMBERS>,
    pub table_outcomes: CountRow<OUTCOMES>,

    // Askings for the figures of shortfalls, by the image: a valid one in a morning, in an afternoon; one of another length; a bad one in a
    // morning, in an afternoon. Of each, by number.
    pub asked: Counts<5, 3>,
    // By the bytes for figures: none, more than one too few, one too few, exact, one to spare, more.
    pub figures_room: CountRow<6>,
    // Lots that a close works in images whose figures were told: struck, lodged, with a penalty. Of each: in a morning, due earlier, today,
    // tomorrow, later; in an afternoon, due, and due later.
    pub close_lots: Counts<3, 6>,
    // Accounts from which due lots take something or nothing: those that lack money, those whose free money covers it, those of which nothing
    // is taken. Of each, by the due lots: one struck, one lodged, one penalty, several trades, several penalties, both of these.
    pub owing: Counts<3, 6>,
    // Figures above 0: of one fen, with a full payment below the deposit among the account's trades, of the first account, of the last,
    // and those that need more than 32 bits.
    pub short: CountRow<5>,
    // Figures paid in before a close, by the account's due lots as above; and those paid in but for one fen, of a trade that was struck, lodged.
    pub paid_figures: CountRow<6>,
    pub paid_less: CountRow<2>,
}

impl Tally {
    pub fn empty() -> Tally {
        Tally {
            calls: 0,
            differences: 0,
            pairs: Counts::empty(),
            outcomes: Counts::empty(),
            most_entries: 0,
            contracts: Counts::empty(),
            limits: TrialTable::empty(),
            nobodys_premium: Trials::NONE,
            parts: Counts::empty(),
            holders: TrialTable::empty(),
            refused_images: 0,
            valid_images: 0,
            fresh: 0,
            tables: 0,
            accepted_behind: 0,
            table_sizes: Counts::empty(),
            table_images: CountRow::empty(),
            table_faults: Counts::empty(),
            table_rests: CountRow::empty(),
            table_answers: CountRow::empty(),
            table_numbers: CountRow::empty(),
            table_outcomes: CountRow::empty(),
            asked: Counts::empty(),
            figures_room: CountRow::empty(),
            close_lots: Counts::empty(),
            owing: Counts::empty(),
            short: CountRow::empty(),
            paid_figures: CountRow::empty(),
            paid_less: CountRow::empty(),
        }
    }
}
