// The entries of an answer, by outcome, premium and contract.
use crate::made::Made;
use crate::tally::Tally;
use ledger_book::{
    ANSWER_PHASE_END, CONTRACT, Cells, ENTRY_COUNT_END, Kind, LOT, MOST_PREMIUM, NUMBER, OUTCOME,
    Outcome, PREMIUM, Page, RECEIPTS, State, signed,
};

pub fn entries_in(answer: &Page) -> u64 {
    answer.field(ANSWER_PHASE_END..ENTRY_COUNT_END)
}

// ── Outcomes ────────────────────────────────────────────────────────────────────────────────────

// The columns of the tally's outcomes.
#[derive(Clone, Copy)]
enum PremiumClass {
    Least,
    BelowZero,
    Zero,
    AboveZero,
    Most,
}

const MOST: i64 = MOST_PREMIUM as i64;

const LEAST: i64 = -MOST;

fn class_of(premium: i64) -> PremiumClass {
    match premium {
        LEAST => PremiumClass::Least,
        0 => PremiumClass::Zero,
        MOST => PremiumClass::Most,
        _ if premium < 0 => PremiumClass::BelowZero,
        _ => PremiumClass::AboveZero,
    }
}

// The row behind those of the outcomes.
const LAST_PAYMENT: u64 = Outcome::Penalty as u64;

impl Tally {
    // A part payment that leaves the receipt idle was the last one.
    fn count_entry(&mut self, made: &Made, k: u64) {
        let outcome = made.answer.cell(OUTCOME, k);
        let lot = made.answer.cell(LOT, k);
        let class = class_of(signed(made.after.cell(PREMIUM, lot)));
        self.outcomes.add(outcome.wrapping_sub(1), class as u64);
        let is_part = outcome == Outcome::PartPaid as u64;
        if is_part && made.after.state(lot) == Some(State::Idle) {
            self.outcomes.add(LAST_PAYMENT, class as u64);
        }
    }

    pub fn count_entries(&mut self, made: &Made) {
        let entries = entries_in(&made.answer);
        self.most_entries = self.most_entries.max(entries);
        for k in 1..=entries.min(RECEIPTS) {
            self.count_entry(made, k);
        }
    }
}

// ── Contracts ───────────────────────────────────────────────────────────────────────────────────

// The columns of the tally's contracts.
#[derive(Clone, Copy)]
enum ContractCount {
    Listed,
    BidOn,
    Quoted,
    Struck,
    SeveralStruck,
    AtOnePrice,
    AtDifferentPrices,
    AtBoth,
}

// How many strikes have the price of the one listed before them.
fn strikes_at_one_price(answer: &Page) -> u64 {
    (2..=entries_in(answer).min(RECEIPTS))
        .filter(|k| answer.cell(NUMBER, *k) == answer.cell(NUMBER, k.wrapping_sub(1)))
        .count() as u64
}

impl Tally {
    fn add_contract(&mut self, contract: u64, what: ContractCount, more: u64) {
        self.contracts
            .add_many(contract.wrapping_sub(1), what as u64, more);
    }

    // A quote that struck two lots or more.
    fn count_several(&mut self, contract: u64, answer: &Page) {
        let equal = strikes_at_one_price(answer);
        let one_price = equal != 0;
        let different = equal.wrapping_add(1) < entries_in(answer);
        self.contracts.add_each(
            contract.wrapping_sub(1),
            &[
                (ContractCount::SeveralStruck as u64, true),
                (ContractCount::AtOnePrice as u64, one_price),
                (ContractCount::AtDifferentPrices as u64, different),
                (ContractCount::AtBoth as u64, one_price && different),
            ],
        );
    }

    fn count_quote(&mut self, contract: u64, answer: &Page) {
        let struck = entries_in(answer);
        self.add_contract(contract, ContractCount::Quoted, 1);
        self.add_contract(contract, ContractCount::Struck, struck);
        if struck > 1 {
            self.count_several(contract, answer);
        }
    }

    // A bid on a lot, as the image has it after the bid. The row is the whole field of a wild call, and not the byte that its record has (a): what
    // is printed counts it so.
    fn count_bid(&mut self, made: &Made) {
        let contract = made.after.cell(CONTRACT, made.request.receipt);
        let struck = made.answer.cell(OUTCOME, 1) == Outcome::Struck as u64;
        self.add_contract(contract, ContractCount::BidOn, 1);
        self.add_contract(contract, ContractCount::Struck, u64::from(struck));
    }

    // An accepted call of a kind that has to do with a contract.
    pub fn count_contract(&mut self, made: &Made) {
        let contract = made.request.contract;
        match made.request.kind() {
            Some(Kind::List) => self.add_contract(contract, ContractCount::Listed, 1),
            Some(Kind::LimitBid | Kind::MarketBid) => self.count_bid(made),
            Some(Kind::Quote) => self.count_quote(contract, &made.answer),
            _ => {}
        }
    }
}
