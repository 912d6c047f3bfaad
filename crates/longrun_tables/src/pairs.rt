// Kinds of calls and the numbers that they return.
use crate::rows::numbered_rows;
use ledger_book::{Kind, Refusal};
use longrun_counts::{NUMBERS, Tally};
use std::io;

// Whether a call of this kind can be refused so.
fn can_be_refused(kind: Kind, refusal: Refusal) -> bool {
    let is_close = matches!(kind, Kind::MorningClose | Kind::DayClose);
    let is_bid = matches!(kind, Kind::LimitBid | Kind::MarketBid);
    let has_lot = !is_close && !matches!(kind, Kind::PayIn | Kind::TakeOut | Kind::Quote);
    match refusal {
        Refusal::ShortAnswer | Refusal::BadImage | Refusal::BadCall => true,
        Refusal::OutOfRange => !is_close,
        Refusal::WrongPhase => is_close,
        Refusal::WrongState => has_lot,
        Refusal::WrongParty => has_lot && kind != Kind::Register,
        Refusal::NotAbove => kind == Kind::LimitBid,
        Refusal::NoAsk => kind == Kind::MarketBid,
        Refusal::NothingToPay => is_bid,
        Refusal::NoMoney => is_bid || kind == Kind::TakeOut,
        Refusal::OverLimit => kind == Kind::PayIn,
        Refusal::OverInvoice => kind == Kind::Invoice,
        Refusal::BadTable => false,
    }
}

// Whether a call of the row's kind can return the number: document 01's table of numbers (01 Answers 12 to 24), with the kinds whose brackets
// are empty or have no receipt left out (01 Calls 4 to 25). A call of no kind is refused by the first three.
fn is_possible(row: usize, number: usize) -> bool {
    let refusal = Refusal::try_from(number as u64).ok();
    match (Kind::try_from(row as u64).ok(), refusal) {
        (Some(kind), Some(refusal)) => can_be_refused(kind, refusal),
        (Some(_), None) => true,
        (None, _) => (1..=Refusal::BadCall as usize).contains(&number),
    }
}

// The numbers that the table of pairs has at its head.
fn numbers_row(rt: &impl Print) -> io::Result<()> {
    print!(rt; "       ")?;
    for number in 0..NUMBERS {
        print!(rt; "{number:>7}")?;
    }
    println!(rt; "")
}

pub fn print_pairs(rt: &impl Print, tally: &Tally) -> io::Result<()> {
    let pairs = &tally.pairs;
    let calls = tally.calls;
    let missed = pairs.how_many(|kind, number, reached| is_possible(kind, number) && !reached);
    let wrong = pairs.how_many(|kind, number, reached| reached && !is_possible(kind, number));
    println!(rt; "calls driven: {calls}")?;
    println!(rt; "by kind (the last row: all kinds above) and number returned")?;
    numbers_row(rt)?;
    numbered_rows(rt, 0, pairs.rows())?;
    println!(rt; "pairs that document 01 allows and no call reached: {missed}")?;
    println!(rt; "pairs that it rules out and a call reached: {wrong}")
}
