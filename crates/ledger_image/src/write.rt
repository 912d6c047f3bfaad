// The image written from the book.
use ledger_book::{
    ACCOUNT_COUNT, ACCOUNT_OFFSET, ACCOUNT_START, ACCOUNTS, BUYER, Book, CONTRACT_COUNT,
    CONTRACT_OFFSET, CONTRACT_START, CONTRACTS, Cells, FREE, FROZEN, IMAGE_COLUMNS_END,
    IMAGE_LENGTH, Page, RECEIPT_COUNT, RECEIPT_OFFSET, RECEIPT_START, RECEIPTS, WEALTH, ZONE,
    records_of,
};

// The header's fields that no call changes.
fn set_header(book: &mut Book) {
    book.set(ACCOUNT_COUNT, ZONE, ACCOUNTS);
    book.set(RECEIPT_COUNT, ZONE, RECEIPTS);
    book.set(CONTRACT_COUNT, ZONE, CONTRACTS);
    book.set(ACCOUNT_OFFSET, ZONE, ACCOUNT_START as u64);
    book.set(CONTRACT_OFFSET, ZONE, CONTRACT_START as u64);
    book.set(RECEIPT_OFFSET, ZONE, RECEIPT_START as u64);
}

fn free_all(book: &mut Book) {
    for account in 1..=ACCOUNTS {
        book.set(FREE, account, book.cell(WEALTH, account));
        book.set(FROZEN, account, 0);
    }
}

fn freeze_lots(book: &mut Book) {
    for lot in 1..=RECEIPTS {
        let buyer = book.cell(BUYER, lot);
        let fen = book.held(lot);
        book.lower(FREE, buyer, fen);
        book.raise(FROZEN, buyer, fen);
    }
}

fn write_column(book: &Book, page: &mut Page, column: u64) {
    for row in 1..=records_of(column) {
        page.set(column, row, book.cell(column, row));
    }
}

fn write_columns(book: &Book, page: &mut Page) {
    for column in 0..IMAGE_COLUMNS_END {
        write_column(book, page, column);
    }
}

pub fn write_image(book: &mut Book, image: &mut [u8]) {
    let mut page = Page::filled(0);
    set_header(book);
    free_all(book);
    freeze_lots(book);
    write_columns(book, &mut page);
    page.copy_out(image, IMAGE_LENGTH);
}
