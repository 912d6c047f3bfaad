// What each account must pay in before the morning close (02 6/12), counted account by account over all lots.
use crate::{is_image, number};
use ledger_book::{
    ACCOUNTS, BUYER, Book, Cells, DAY, DEPOSIT, DUE, FIGURES_LENGTH, Page, Phase, RECEIPTS,
    Refusal, SELLER, SHORTFALL, State, ZONE,
};

// What a lot takes from the account at the close: a penalty from its seller; the payment of a trade that is struck or lodged from its
// buyer, from whom the deposit is held already.
fn owed_for(book: &Book, account: u64, lot: u64) -> u64 {
    if book.cell(DUE, lot) > book.cell(DAY, ZONE) {
        return 0;
    }
    let sells = book.cell(SELLER, lot) == account;
    let buys = book.cell(BUYER, lot) == account;
    match book.state(lot) {
        Some(State::PenaltyDue) if sells => DEPOSIT,
        Some(State::Struck | State::Lodged) if buys => {
            book.full_payment(lot).saturating_sub(DEPOSIT)
        }
        _ => 0,
    }
}

fn owed_by(book: &Book, account: u64) -> u64 {
    (1..=RECEIPTS).fold(0, |sum, lot| {
        sum.wrapping_add(owed_for(book, account, lot))
    })
}

// In an afternoon the close is over, and nobody lacks anything.
fn shortfall(book: &Book, account: u64) -> u64 {
    match book.phase() {
        Phase::Morning => owed_by(book, account).saturating_sub(book.free(account)),
        Phase::Afternoon => 0,
    }
}

fn write_figures(book: &Book, figures: &mut [u8]) {
    let mut page = Page::filled(0);
    for account in 1..=ACCOUNTS {
        page.set(SHORTFALL, account, shortfall(book, account));
    }
    page.copy_out(figures, FIGURES_LENGTH);
}

fn find_shortfalls(image: &[u8], figures: &mut [u8]) -> Result<(), Refusal> {
    if figures.len() < FIGURES_LENGTH {
        return Err(Refusal::ShortAnswer);
    }
    let mut book = Book::empty();
    if !is_image(&mut book, image) {
        return Err(Refusal::BadImage);
    }
    write_figures(&book, figures);
    Ok(())
}

// The number, with the figures written at 0.
pub fn shortfalls(image: &[u8], figures: &mut [u8]) -> u64 {
    number(find_shortfalls(image, figures))
}
