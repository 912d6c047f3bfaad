// The values that the rules read and give, and the entries of events.
#![tactic(auto)]

ghost use Rattle.std.specs.Prelude.{◌≡◌};
ghost use Rattle.rules.specs.Effects.{owned_by, with_lot};
ghost use Rattle.rules.specs.Kinds.{kind_of};

use units::{Fen, YuanPerTonne};
use zone::{Lot, Receipt, Record};

// ── Kinds of calls ──────────────────────────────────────────────────────────────────────────────

// What a call asks for, by its number.
#[derive(Clone, Copy, PartialEq, Eq)]
pub enum Kind {
    PayIn = 1,
    TakeOut = 2,
    Register = 3,
    List = 4,
    WithdrawListing = 5,
    LimitBid = 6,
    MarketBid = 7,
    WithdrawBid = 8,
    Quote = 9,
    Lodge = 10,
    MorningClose = 11,
    FirstPayment = 12,
    Invoice = 13,
    Confirm = 14,
    DayClose = 15,
}

impl TryFrom<u8> for Kind {
    type Error = Refusal;

    ghost try_from_gives = { λ n r. r ≡ kind_of n };

    #[tactic(auto, unfolding(crate::specs::Kinds::kind_of))]
    fn try_from(number: u8) -> Result<Kind, Refusal> {
        match number {
            1 => Ok(Kind::PayIn),
            2 => Ok(Kind::TakeOut),
            3 => Ok(Kind::Register),
            4 => Ok(Kind::List),
            5 => Ok(Kind::WithdrawListing),
            6 => Ok(Kind::LimitBid),
            7 => Ok(Kind::MarketBid),
            8 => Ok(Kind::WithdrawBid),
            9 => Ok(Kind::Quote),
            10 => Ok(Kind::Lodge),
            11 => Ok(Kind::MorningClose),
            12 => Ok(Kind::FirstPayment),
            13 => Ok(Kind::Invoice),
            14 => Ok(Kind::Confirm),
            15 => Ok(Kind::DayClose),
            _ => Err(Refusal::BadCall),
        }
    }
}

// ── Outcomes ────────────────────────────────────────────────────────────────────────────────────

// What an entry tells of its lot, by its number.
#[derive(Clone, Copy, PartialEq, Eq)]
pub enum Outcome {
    Registered = 1,
    Listed = 2,
    Ended = 3,
    BidStands = 4,
    BidWithdrawn = 5,
    Struck = 6,
    Lodged = 7,
    Settled = 8,
    FirstPaid = 9,
    Invoiced = 10,
    PartPaid = 11,
    BuyerDefault = 12,
    SellerDefault = 13,
    BothDefaulted = 14,
    Penalty = 15,
}

// ── Refusals ────────────────────────────────────────────────────────────────────────────────────

// Why a call, a table or an image is refused, by the number that the entries return for it.
#[derive(Clone, Copy, PartialEq, Eq)]
pub enum Refusal {
    ShortAnswer = 1,
    BadImage = 2,
    BadCall = 3,
    OutOfRange = 4,
    WrongPhase = 5,
    WrongState = 6,
    WrongParty = 7,
    NotAbove = 8,
    NoAsk = 9,
    NothingToPay = 10,
    NoMoney = 11,
    OverLimit = 12,
    OverInvoice = 13,
    BadTable = 14,
}

// ── Values ──────────────────────────────────────────────────────────────────────────────────────

// A call record, field by field, as it came; `spare` is the number of its three zero bytes, `basis` the premium where a receipt is
// registered. The kind is a byte: the definitions of specs/ judge calls with any number there, and number 3 refuses those of no kind.
#[derive(Clone, Copy)]
pub struct Call {
    pub kind: u8,
    pub account: u8,
    pub receipt: u8,
    pub contract: u8,
    pub days: u8,
    pub spare: u32,
    pub amount: u64,
    pub basis: i32,
    pub weight: u32,
}

// A line of an answer. The number is a price where a bid stands or is struck, and fen in those other outcomes that have one. The outcome is
// a byte of the answer, which the definitions of specs/ read back as they find it.
#[derive(Clone, Copy)]
pub struct Entry {
    pub lot: u8,
    pub outcome: u8,
    pub from: u8,
    pub to: u8,
    pub number: u32,
}

// Free money of the caller, of the lot's buyer and of its seller.
#[derive(Clone, Copy)]
pub struct FreeMoney {
    pub caller: Fen,
    pub buyer: Fen,
    pub seller: Fen,
}

// What a rule reads of the zone beside the record of its lot.
#[derive(Clone, Copy)]
pub struct View {
    pub day: u16,
    pub afternoon: bool,
    // the ask of the lot's contract
    pub ask: YuanPerTonne,
    pub free: FreeMoney,
    pub total: Fen,
}

// An event at a lot: its entry, and the receipt as it is after.
#[derive(Clone, Copy)]
pub struct Event {
    pub entry: Entry,
    pub receipt: Receipt,
}

// ── Entries and receipts of an event ────────────────────────────────────────────────────────────

// The outcome of an entry is given as its number: what these promise holds of any. Lot, record and number go one by one, as in `entry_of`.

// The receipt of a record, with this owner and lot: weight and premium stay.
fn owned_by(owner: u8, f: Record, lot: Lot) -> Receipt
    ensures { result ≡ owned_by owner f lot }
{
    Receipt {
        owner,
        weight: f.weight,
        premium: f.premium,
        lot,
    }
}

// The owner stays too.
pub fn with_lot(f: Record, lot: Lot) -> Receipt
    ensures { result ≡ with_lot f lot }
{
    owned_by(f.owner, f, lot)
}

// From the buyer to the seller.
pub fn by_buyer(n: u8, outcome: u8, f: Record, number: u32) -> Entry
    ensures { result ≡ record { lot = n; outcome = outcome; from = f.buyer; to = f.seller; number = number } }
{
    Entry {
        lot: n,
        outcome,
        from: f.buyer,
        to: f.seller,
        number,
    }
}

// From the seller to the buyer.
pub fn by_seller(n: u8, outcome: u8, f: Record, number: u32) -> Entry
    ensures { result ≡ record { lot = n; outcome = outcome; from = f.seller; to = f.buyer; number = number } }
{
    Entry {
        lot: n,
        outcome,
        from: f.seller,
        to: f.buyer,
        number,
    }
}

// From the owner or seller, to nobody.
pub fn by_owner(n: u8, outcome: u8, owner: u8) -> Entry
    ensures { result ≡ record { lot = n; outcome = outcome; from = owner; to = 0; number = 0 } }
{
    Entry {
        lot: n,
        outcome,
        from: owner,
        to: 0,
        number: 0,
    }
}
