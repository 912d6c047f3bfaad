// Values at a limit and beside it, with the numbers that calls returned there.
use crate::made::Made;
use crate::tally::Tally;
use ledger_book::{
    ASK, BASIS, CONTRACT, Cells, Kind, MOST_AMOUNT, MOST_PREMIUM, MOST_TOTAL, PREMIUM, Page,
    Refusal, TOTAL, ZONE, signed, signed_price,
};

#[derive(Clone, Copy, PartialEq, Eq)]
pub enum Limit {
    PayInAmount,
    TakeOutAmount,
    InvoiceAmount,
    TotalAfter,
    TotalBefore,
    // The ends of the range of premiums, and one yuan for a tonne, the least that there can be to pay: in calls, and then in images with
    // another premium.
    LeastPremium,
    HighestPremium,
    LimitBidPrice,
    MarketBidPrice,
    AlteredLeastPremium,
    AlteredHighestPremium,
    AlteredPrice,
    // What is paid of the rest in an image whose trade has other invoices, beside what it must be: with something confirmed, and with nothing.
    PaidForSome,
    PaidForNothing,
}

pub const LIMIT_COUNT: usize = 14;

// In the order of their rows in the tally.
pub const LIMITS: [Limit; LIMIT_COUNT] = [
    Limit::PayInAmount,
    Limit::TakeOutAmount,
    Limit::InvoiceAmount,
    Limit::TotalAfter,
    Limit::TotalBefore,
    Limit::LeastPremium,
    Limit::HighestPremium,
    Limit::LimitBidPrice,
    Limit::MarketBidPrice,
    Limit::AlteredLeastPremium,
    Limit::AlteredHighestPremium,
    Limit::AlteredPrice,
    Limit::PaidForSome,
    Limit::PaidForNothing,
];

impl Limit {
    pub fn value(self) -> i64 {
        match self {
            Limit::PayInAmount | Limit::TakeOutAmount | Limit::InvoiceAmount => MOST_AMOUNT as i64,
            Limit::TotalAfter | Limit::TotalBefore => MOST_TOTAL as i64,
            Limit::LeastPremium | Limit::AlteredLeastPremium => -(MOST_PREMIUM as i64),
            Limit::HighestPremium | Limit::AlteredHighestPremium => MOST_PREMIUM as i64,
            Limit::LimitBidPrice | Limit::MarketBidPrice | Limit::AlteredPrice => 1,
            Limit::PaidForSome | Limit::PaidForNothing => 0,
        }
    }

    // What refuses a value beyond it.
    pub fn refusal(self) -> Refusal {
        match self {
            Limit::PayInAmount | Limit::TakeOutAmount | Limit::InvoiceAmount => Refusal::OutOfRange,
            Limit::LeastPremium | Limit::HighestPremium => Refusal::OutOfRange,
            Limit::TotalAfter => Refusal::OverLimit,
            Limit::LimitBidPrice | Limit::MarketBidPrice => Refusal::NothingToPay,
            _ => Refusal::BadImage,
        }
    }
}

impl Tally {
    // Counts a value that is at a limit or beside it, with the number that the call returned.
    pub fn count_limit(&mut self, limit: Limit, value: i64, number: u64) {
        let step = value.wrapping_sub(limit.value()).wrapping_add(1);
        self.limits.count(limit as u64, step.cast_unsigned(), number, limit.refusal());
    }

    // The premium that the record of a registration has.
    fn count_registration(&mut self, made: &Made) {
        let premium = signed(made.request.basis_bits());
        self.count_limit(Limit::LeastPremium, premium, made.verdict.number);
        self.count_limit(Limit::HighestPremium, premium, made.verdict.number);
    }

    // A bid leaves basis, premium and ask as they were.
    fn count_limit_bid(&mut self, made: &Made, image: &Page) {
        let cost = cost_at(image, made.request.lot(), made.request.amount);
        self.count_limit(Limit::LimitBidPrice, cost, made.verdict.number);
    }

    fn count_market_bid(&mut self, made: &Made, image: &Page) {
        let lot = made.request.lot();
        let ask = image.cell(ASK, image.cell(CONTRACT, lot));
        if ask != 0 {
            let cost = cost_at(image, lot, ask);
            self.count_limit(Limit::MarketBidPrice, cost, made.verdict.number);
        }
    }

    // Amounts about the most that a call may name, and totals about the most that a zone may hold: the total that the image has, and the one
    // that a pay-in would make. Premiums about the ends of their range, and bids at which a tonne costs next to nothing.
    pub fn count_limits(&mut self, made: &Made, image: &Page) {
        let number = made.verdict.number;
        let amount = made.request.amount.cast_signed();
        let total = made.before.cell(TOTAL, ZONE).cast_signed();
        self.count_limit(Limit::TotalBefore, total, number);
        match made.request.kind() {
            Some(Kind::PayIn) => {
                self.count_limit(Limit::PayInAmount, amount, number);
                self.count_limit(Limit::TotalAfter, total.wrapping_add(amount), number);
            }
            Some(Kind::TakeOut) => self.count_limit(Limit::TakeOutAmount, amount, number),
            Some(Kind::Register) => self.count_registration(made),
            Some(Kind::LimitBid) => self.count_limit_bid(made, image),
            Some(Kind::MarketBid) => self.count_market_bid(made, image),
            Some(Kind::Invoice) => self.count_limit(Limit::InvoiceAmount, amount, number),
            _ => {}
        }
    }
}

// What a tonne of the lot costs at this price, with its sign.
pub fn cost_at(image: &Page, lot: u64, price: u64) -> i64 {
    signed_price(price, image.cell(BASIS, lot), image.cell(PREMIUM, lot))
}
