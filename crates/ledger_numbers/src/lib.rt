// Why the second ledger refuses a call: each kind tests, in rising order of their numbers, the refusals that can apply to it.
#![tactic(auto)]

mod bids;
mod lots;
mod money;
mod unused;

use ledger_book::{Book, Call, Cells, DAY, Kind, LAST_DAY, PHASE, Phase, Refusal, State, ZONE};

fn refuse_unless(holds: bool, refusal: Refusal) -> Result<(), Refusal> {
    if holds { Ok(()) } else { Err(refusal) }
}

fn morning_close(book: &Book) -> Result<(), Refusal> {
    let is_afternoon = book.cell(PHASE, ZONE) == Phase::Afternoon as u64;
    refuse_unless(!is_afternoon, Refusal::WrongPhase)
}

// Also where no day follows.
fn day_close(book: &Book) -> Result<(), Refusal> {
    let day_follows = book.cell(DAY, ZONE) != LAST_DAY;
    refuse_unless(
        book.phase() == Phase::Afternoon && day_follows,
        Refusal::WrongPhase,
    )
}

// The first refusal from a bad call on that applies (01 Answers 26). A bad call is one of no kind, or with a byte that must be zero and is not.
pub fn check(book: &Book, call: &Call) -> Result<(), Refusal> {
    let kind = call.kind().ok_or(Refusal::BadCall)?;
    let must_be_zero = unused::unused(kind, call) | call.zeros;
    refuse_unless(must_be_zero == 0, Refusal::BadCall)?;
    match kind {
        Kind::PayIn => money::pay_in(book, call),
        Kind::TakeOut => money::take_out(book, call),
        Kind::Register => lots::register(book, call),
        Kind::List => lots::list(book, call),
        Kind::WithdrawListing => lots::withdraw_listing(book, call),
        Kind::LimitBid => bids::limit_bid(book, call),
        Kind::MarketBid => bids::market_bid(book, call),
        Kind::WithdrawBid => lots::withdraw_bid(book, call),
        Kind::Quote => bids::quote(call),
        Kind::Lodge => lots::by_seller(book, call, State::Struck),
        Kind::MorningClose => morning_close(book),
        Kind::FirstPayment => lots::by_seller(book, call, State::Settled),
        Kind::Invoice => lots::invoice(book, call),
        Kind::Confirm => lots::confirm(book, call),
        Kind::DayClose => day_close(book),
    }
}
