// A field that the kind does not use must be zero (01 Calls 3 to 25, Answers 14, 02 2/12).
use ledger_book::{Call, Kind};

// The fields that stand in no kind's brackets but those of a registration, a listing and a quote, put together bit by bit.
fn terms(call: &Call) -> u64 {
    call.contract | call.days | call.basis | call.weight
}

// The fields that the kind's brackets do not name, put together: 0 where each is zero.
pub fn unused(kind: Kind, call: &Call) -> u64 {
    match kind {
        Kind::PayIn | Kind::TakeOut => call.receipt | terms(call),
        Kind::Register => call.contract | call.days | call.amount,
        Kind::List => call.amount | call.weight,
        Kind::LimitBid | Kind::Invoice => terms(call),
        Kind::WithdrawListing
        | Kind::MarketBid
        | Kind::WithdrawBid
        | Kind::Lodge
        | Kind::FirstPayment
        | Kind::Confirm => call.amount | terms(call),
        Kind::Quote => call.account | call.receipt | call.days | call.basis | call.weight,
        Kind::MorningClose | Kind::DayClose => {
            call.account | call.receipt | call.amount | terms(call)
        }
    }
}
