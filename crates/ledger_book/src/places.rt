// Where each field stands in an image (01 Image 1 to 4, 02 2/12), in a call record (01 Calls 2), in an answer (01 Answers 1 and 3) and in
// the figures of shortfalls (02 6/12); and how many calls a table has (02 5/12).
//
// No other file of the second ledger or of the long runs says a length, a start or a size. A field is known by where it ends in its
// record; it starts where the one before it ends. The lengths of records and buffers and the starts of tables follow. The fields of an
// image, of an entry and of the figures also have columns, in the same order. The book fills those of an image, and WEALTH.
//
// A field more is one line in each of three lists: where it ends, its column, and the ends by column. A table more is a `Table` besides.
use crate::payments::product;
use std::ops::Range;

// ── Sizes of numbers, and how many there are of each thing ──────────────────────────────────────

const U8: usize = 1;

const U16: usize = 2;

const U32: usize = 4;

const U64: usize = 8;

// The bytes that must be zero in a header and in a call record.
const ZERO_BYTES: usize = 3;

pub const ACCOUNTS: u64 = 96;

pub const RECEIPTS: u64 = 128;

pub const CONTRACTS: u64 = 8;

// ── The header ──────────────────────────────────────────────────────────────────────────────────

const ACCOUNT_COUNT_END: usize = U16;

const RECEIPT_COUNT_END: usize = ACCOUNT_COUNT_END + U16;

const CONTRACT_COUNT_END: usize = RECEIPT_COUNT_END + U16;

const DAY_END: usize = CONTRACT_COUNT_END + U16;

const ACCOUNT_OFFSET_END: usize = DAY_END + U32;

const CONTRACT_OFFSET_END: usize = ACCOUNT_OFFSET_END + U32;

const RECEIPT_OFFSET_END: usize = CONTRACT_OFFSET_END + U32;

const PHASE_END: usize = RECEIPT_OFFSET_END + U8;

const ZEROS_END: usize = PHASE_END + ZERO_BYTES;

const TOTAL_END: usize = ZEROS_END + U64;

const HEADER_LENGTH: usize = TOTAL_END;

// ── An account and a contract ───────────────────────────────────────────────────────────────────

const FREE_END: usize = U64;

const FROZEN_END: usize = FREE_END + U64;

const ACCOUNT_LENGTH: usize = FROZEN_END;

const ASK_END: usize = U32;

const CONTRACT_LENGTH: usize = ASK_END;

// ── A receipt ───────────────────────────────────────────────────────────────────────────────────

const OWNER_END: usize = U8;

const STATE_END: usize = OWNER_END + U8;

const SELLER_END: usize = STATE_END + U8;

const BUYER_END: usize = SELLER_END + U8;

const CONTRACT_END: usize = BUYER_END + U8;

const DAYS_END: usize = CONTRACT_END + U8;

const DUE_END: usize = DAYS_END + U16;

const WEIGHT_END: usize = DUE_END + U32;

const BASIS_END: usize = WEIGHT_END + U32;

const PRICE_END: usize = BASIS_END + U32;

const PENDING_END: usize = PRICE_END + U32;

const CONFIRMED_END: usize = PENDING_END + U32;

const PAID_END: usize = CONFIRMED_END + U32;

const PREMIUM_END: usize = PAID_END + U32;

const RECEIPT_LENGTH: usize = PREMIUM_END;

// ── The image ───────────────────────────────────────────────────────────────────────────────────

pub const ACCOUNT_START: usize = HEADER_LENGTH;

pub const CONTRACT_START: usize = ACCOUNT_START + ACCOUNTS as usize * ACCOUNT_LENGTH;

pub const RECEIPT_START: usize = CONTRACT_START + CONTRACTS as usize * CONTRACT_LENGTH;

pub const IMAGE_LENGTH: usize = RECEIPT_START + RECEIPTS as usize * RECEIPT_LENGTH;

// A buffer for an image, a call record or an answer is a page. It has bytes to spare, for runs that lend one that is too long.
pub const SPARE_LENGTH: usize = 64;

pub const PAGE_LENGTH: usize = IMAGE_LENGTH + SPARE_LENGTH;

// ── The call record ─────────────────────────────────────────────────────────────────────────────

pub const CALL_KIND_END: usize = U8;

pub const CALL_ACCOUNT_END: usize = CALL_KIND_END + U8;

pub const CALL_RECEIPT_END: usize = CALL_ACCOUNT_END + U8;

pub const CALL_CONTRACT_END: usize = CALL_RECEIPT_END + U8;

pub const CALL_DAYS_END: usize = CALL_CONTRACT_END + U8;

pub const CALL_ZEROS_END: usize = CALL_DAYS_END + ZERO_BYTES;

pub const CALL_AMOUNT_END: usize = CALL_ZEROS_END + U64;

pub const CALL_BASIS_END: usize = CALL_AMOUNT_END + U32;

pub const CALL_WEIGHT_END: usize = CALL_BASIS_END + U32;

pub const CALL_LENGTH: usize = CALL_WEIGHT_END;

// ── The answer ──────────────────────────────────────────────────────────────────────────────────

pub const ANSWER_NUMBER_END: usize = U8;

pub const ANSWER_PHASE_END: usize = ANSWER_NUMBER_END + U8;

pub const ENTRY_COUNT_END: usize = ANSWER_PHASE_END + U16;

pub const ENTRY_OFFSET_END: usize = ENTRY_COUNT_END + U32;

pub const ANSWER_TOTAL_END: usize = ENTRY_OFFSET_END + U64;

pub const ANSWER_HEADER: usize = ANSWER_TOTAL_END;

const LOT_END: usize = U8;

const OUTCOME_END: usize = LOT_END + U8;

const FROM_END: usize = OUTCOME_END + U8;

const TO_END: usize = FROM_END + U8;

const NUMBER_END: usize = TO_END + U32;

const ENTRY_LENGTH: usize = NUMBER_END;

pub const ANSWER_LENGTH: usize = ANSWER_HEADER + RECEIPTS as usize * ENTRY_LENGTH;

// ── The table of calls ──────────────────────────────────────────────────────────────────────────

pub const MOST_CALLS: u64 = 32;

// The runs also draw tables with too many calls. Their buffer for answers has room for these too, so that their number alone is wrong.
pub const SPARE_CALLS: u64 = 4;

pub const ANSWERS_LENGTH: usize = (MOST_CALLS + SPARE_CALLS) as usize * ANSWER_LENGTH
    + SPARE_LENGTH;

// ── The figures ─────────────────────────────────────────────────────────────────────────────────

// A shortfall for each account.
const SHORTFALL_END: usize = U64;

pub const FIGURES_LENGTH: usize = ACCOUNTS as usize * SHORTFALL_END;

// ── Columns ─────────────────────────────────────────────────────────────────────────────────────

// Numbers and no enum: images are read, judged, written and damaged by ranges of them.

// The header's, in the zone's own row.
pub const ACCOUNT_COUNT: u64 = 0;

pub const RECEIPT_COUNT: u64 = ACCOUNT_COUNT + 1;

pub const CONTRACT_COUNT: u64 = RECEIPT_COUNT + 1;

pub const DAY: u64 = CONTRACT_COUNT + 1;

pub const ACCOUNT_OFFSET: u64 = DAY + 1;

pub const CONTRACT_OFFSET: u64 = ACCOUNT_OFFSET + 1;

pub const RECEIPT_OFFSET: u64 = CONTRACT_OFFSET + 1;

pub const PHASE: u64 = RECEIPT_OFFSET + 1;

pub const ZEROS: u64 = PHASE + 1;

pub const TOTAL: u64 = ZEROS + 1;

// An account's, as the image has them.
pub const FREE: u64 = TOTAL + 1;

pub const FROZEN: u64 = FREE + 1;

// A contract's.
pub const ASK: u64 = FROZEN + 1;

// A receipt's. Basis and premium are kept as their 32 bits, unsigned.
pub const OWNER: u64 = ASK + 1;

pub const STATE: u64 = OWNER + 1;

pub const SELLER: u64 = STATE + 1;

pub const BUYER: u64 = SELLER + 1;

pub const CONTRACT: u64 = BUYER + 1;

pub const DAYS: u64 = CONTRACT + 1;

pub const DUE: u64 = DAYS + 1;

pub const WEIGHT: u64 = DUE + 1;

pub const BASIS: u64 = WEIGHT + 1;

pub const PRICE: u64 = BASIS + 1;

pub const PENDING: u64 = PRICE + 1;

pub const CONFIRMED: u64 = PENDING + 1;

pub const PAID: u64 = CONFIRMED + 1;

pub const PREMIUM: u64 = PAID + 1;

// Receipts end before this column, and so does the image.
pub const RECEIPT_COLUMNS_END: u64 = PREMIUM + 1;

pub const IMAGE_COLUMNS_END: u64 = RECEIPT_COLUMNS_END;

// What an entry of the call's answer lists about a lot.
pub const LOT: u64 = IMAGE_COLUMNS_END;

pub const OUTCOME: u64 = LOT + 1;

pub const FROM: u64 = OUTCOME + 1;

pub const TO: u64 = FROM + 1;

pub const NUMBER: u64 = TO + 1;

pub const ENTRY_COLUMNS_END: u64 = NUMBER + 1;

// An account's, in the figures.
pub const SHORTFALL: u64 = ENTRY_COLUMNS_END;

// An account's free and frozen money together. It stands in no buffer.
pub const WEALTH: u64 = SHORTFALL + 1;

pub const COLUMNS: u64 = WEALTH + 1;

const PLACED_COLUMNS: usize = WEALTH as usize;

// Where the field of each of these columns ends in its record.
const ENDS: [usize; PLACED_COLUMNS] = [
    ACCOUNT_COUNT_END,
    RECEIPT_COUNT_END,
    CONTRACT_COUNT_END,
    DAY_END,
    ACCOUNT_OFFSET_END,
    CONTRACT_OFFSET_END,
    RECEIPT_OFFSET_END,
    PHASE_END,
    ZEROS_END,
    TOTAL_END,
    FREE_END,
    FROZEN_END,
    ASK_END,
    OWNER_END,
    STATE_END,
    SELLER_END,
    BUYER_END,
    CONTRACT_END,
    DAYS_END,
    DUE_END,
    WEIGHT_END,
    BASIS_END,
    PRICE_END,
    PENDING_END,
    CONFIRMED_END,
    PAID_END,
    PREMIUM_END,
    LOT_END,
    OUTCOME_END,
    FROM_END,
    TO_END,
    NUMBER_END,
    SHORTFALL_END,
];

// ── Tables ──────────────────────────────────────────────────────────────────────────────────────

// Records of one length, one behind another, and the column of their first field.
#[derive(Clone, Copy)]
struct Table {
    first: u64,
    start: usize,
    length: usize,
    records: u64,
}

// The header is a table of one record.
const HEADER_TABLE: Table = Table {
    first: ACCOUNT_COUNT,
    start: 0,
    length: HEADER_LENGTH,
    records: 1,
};

const ACCOUNT_TABLE: Table = Table {
    first: FREE,
    start: ACCOUNT_START,
    length: ACCOUNT_LENGTH,
    records: ACCOUNTS,
};

const CONTRACT_TABLE: Table = Table {
    first: ASK,
    start: CONTRACT_START,
    length: CONTRACT_LENGTH,
    records: CONTRACTS,
};

const RECEIPT_TABLE: Table = Table {
    first: OWNER,
    start: RECEIPT_START,
    length: RECEIPT_LENGTH,
    records: RECEIPTS,
};

// The entries of an answer.
const ENTRY_TABLE: Table = Table {
    first: LOT,
    start: ANSWER_HEADER,
    length: ENTRY_LENGTH,
    records: RECEIPTS,
};

// The figures, one record for each account.
const FIGURE_TABLE: Table = Table {
    first: SHORTFALL,
    start: 0,
    length: SHORTFALL_END,
    records: ACCOUNTS,
};

// The table that has the column.
fn table_of(column: u64) -> Table {
    match column {
        ..FREE => HEADER_TABLE,
        ..ASK => ACCOUNT_TABLE,
        ..OWNER => CONTRACT_TABLE,
        ..RECEIPT_COLUMNS_END => RECEIPT_TABLE,
        ..ENTRY_COLUMNS_END => ENTRY_TABLE,
        _ => FIGURE_TABLE,
    }
}

// ── Places ──────────────────────────────────────────────────────────────────────────────────────

pub fn records_of(column: u64) -> u64 {
    table_of(column).records
}

// How many bytes the records have in which the column stands.
pub fn length_of(column: u64) -> u64 {
    table_of(column).length as u64
}

fn end_in_record(column: u64) -> usize {
    ENDS.get(column as usize).copied().unwrap_or(0)
}

fn start_in_record(column: u64, first: u64) -> usize {
    if column == first {
        return 0;
    }
    end_in_record(column.wrapping_sub(1))
}

// The bytes of a field in the record of a row. Row 0, which is nobody's, has those of row 1, as has one from 2^32 + 1 on.
pub fn place_of(column: u64, row: u64) -> Range<usize> {
    let table = table_of(column);
    let before = product(row.wrapping_sub(1), table.length as u64) as usize;
    let record = table.start.wrapping_add(before);
    let start = record.wrapping_add(start_in_record(column, table.first));
    start..record.wrapping_add(end_in_record(column))
}
