// What has a number in a buffer: kinds of calls, states of lots, what entries tell, why a call is refused, and phases of a day.

// A number that names none of a type's values.
#[derive(Clone, Copy, PartialEq, Eq)]
pub struct UnknownNumber;

#[derive(Clone, Copy, PartialEq, Eq)]
pub enum Kind {
    PayIn = 1,
    TakeOut,
    Register,
    List,
    WithdrawListing,
    LimitBid,
    MarketBid,
    WithdrawBid,
    Quote,
    Lodge,
    MorningClose,
    FirstPayment,
    Invoice,
    Confirm,
    DayClose,
}

impl TryFrom<u64> for Kind {
    type Error = UnknownNumber;

    fn try_from(number: u64) -> Result<Kind, UnknownNumber> {
        match number {
            1 => Ok(Kind::PayIn),
            2 => Ok(Kind::TakeOut),
            3 => Ok(Kind::Register),
            4 => Ok(Kind::List),
            5 => Ok(Kind::WithdrawListing),
            6 => Ok(Kind::LimitBid),
            7 => Ok(Kind::MarketBid),
            8 => Ok(Kind::WithdrawBid),
            9 => Ok(Kind::Quote),
            10 => Ok(Kind::Lodge),
            11 => Ok(Kind::MorningClose),
            12 => Ok(Kind::FirstPayment),
            13 => Ok(Kind::Invoice),
            14 => Ok(Kind::Confirm),
            15 => Ok(Kind::DayClose),
            _ => Err(UnknownNumber),
        }
    }
}

// The states of a lot: a trade goes through those from `Listed` to `FirstPaid` in this order.
#[derive(Clone, Copy, PartialEq, Eq, PartialOrd, Ord)]
pub enum State {
    Idle,
    Listed,
    BidStands,
    Struck,
    Lodged,
    Settled,
    FirstPaid,
    PenaltyDue,
}

impl TryFrom<u64> for State {
    type Error = UnknownNumber;

    fn try_from(number: u64) -> Result<State, UnknownNumber> {
        match number {
            0 => Ok(State::Idle),
            1 => Ok(State::Listed),
            2 => Ok(State::BidStands),
            3 => Ok(State::Struck),
            4 => Ok(State::Lodged),
            5 => Ok(State::Settled),
            6 => Ok(State::FirstPaid),
            7 => Ok(State::PenaltyDue),
            _ => Err(UnknownNumber),
        }
    }
}

// What an entry of an answer tells of a lot.
#[derive(Clone, Copy, PartialEq, Eq)]
pub enum Outcome {
    Registered = 1,
    Listed,
    ListingEnded,
    BidStands,
    BidWithdrawn,
    Struck,
    Lodged,
    Settled,
    FirstPaid,
    Invoiced,
    PartPaid,
    BuyerDefault,
    SellerDefault,
    BothDefaulted,
    Penalty,
}

// Why a call or a table of calls is refused. Where several apply, the first of them is the answer.
#[derive(Clone, Copy, PartialEq, Eq)]
pub enum Refusal {
    ShortAnswer = 1,
    BadImage,
    BadCall,
    OutOfRange,
    WrongPhase,
    WrongState,
    WrongParty,
    NotAbove,
    NoAsk,
    NothingToPay,
    NoMoney,
    OverLimit,
    OverInvoice,
    BadTable,
}

impl TryFrom<u64> for Refusal {
    type Error = UnknownNumber;

    fn try_from(number: u64) -> Result<Refusal, UnknownNumber> {
        match number {
            1 => Ok(Refusal::ShortAnswer),
            2 => Ok(Refusal::BadImage),
            3 => Ok(Refusal::BadCall),
            4 => Ok(Refusal::OutOfRange),
            5 => Ok(Refusal::WrongPhase),
            6 => Ok(Refusal::WrongState),
            7 => Ok(Refusal::WrongParty),
            8 => Ok(Refusal::NotAbove),
            9 => Ok(Refusal::NoAsk),
            10 => Ok(Refusal::NothingToPay),
            11 => Ok(Refusal::NoMoney),
            12 => Ok(Refusal::OverLimit),
            13 => Ok(Refusal::OverInvoice),
            14 => Ok(Refusal::BadTable),
            _ => Err(UnknownNumber),
        }
    }
}

#[derive(Clone, Copy, PartialEq, Eq)]
pub enum Phase {
    Morning,
    Afternoon,
}
