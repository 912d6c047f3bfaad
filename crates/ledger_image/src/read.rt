// An image read into the book.
use ledger_book::{
    ACCOUNTS, Book, Cells, FREE, FROZEN, IMAGE_COLUMNS_END, WEALTH, field, place_of, records_of,
};

fn read_column(book: &mut Book, image: &[u8], column: u64) {
    for row in 1..=records_of(column) {
        book.set(column, row, field(image, place_of(column, row)));
    }
}

fn read_columns(book: &mut Book, image: &[u8]) {
    for column in 0..IMAGE_COLUMNS_END {
        read_column(book, image, column);
    }
}

fn count_wealth(book: &mut Book) {
    for account in 1..=ACCOUNTS {
        let free = book.cell(FREE, account);
        book.set(
            WEALTH,
            account,
            free.wrapping_add(book.cell(FROZEN, account)),
        );
    }
}

// Any bytes are read, also those of no valid image. The book is lent: returned, it would be copied for each call.
pub fn read_image(book: &mut Book, image: &[u8]) {
    read_columns(book, image);
    count_wealth(book);
}
