// What the due lots of an image take from each account in a morning, added up lot by lot (02 6/12).
use ledger_book::{ACCOUNTS, BUYER, Cells, DEPOSIT, FREE, Page, SELLER, SHORTFALL, State};

// A lot that a close works, by what it has; in the order of the tally's rows.
#[derive(Clone, Copy, PartialEq, Eq)]
pub enum DueLot {
    Struck,
    Lodged,
    Penalty,
}

pub fn due_lot(image: &Page, lot: u64) -> Option<DueLot> {
    match image.state(lot) {
        Some(State::Struck) => Some(DueLot::Struck),
        Some(State::Lodged) => Some(DueLot::Lodged),
        Some(State::PenaltyDue) => Some(DueLot::Penalty),
        _ => None,
    }
}

impl DueLot {
    pub fn is_trade(self) -> bool {
        self != DueLot::Penalty
    }
}

// ── One account ─────────────────────────────────────────────────────────────────────────────────

// By an account's due lots; in the order of the tally's columns.
#[derive(Clone, Copy, PartialEq, Eq)]
pub enum OwingClass {
    OneStruck,
    OneLodged,
    OnePenalty,
    SeveralTrades,
    SeveralPenalties,
    TradesAndPenalties,
}

// An account's due lots that are struck, lodged, with a penalty; those whose full payment lies below the deposit; the fen that they take.
#[derive(Clone, Copy, Debug, Default, PartialEq, Eq, PartialOrd, Ord, Hash)]
pub struct Dues {
    struck: u64,
    lodged: u64,
    penalties: u64,
    below_deposit: u64,
    fen: u64,
}

impl Dues {
    const NONE: Dues = Dues {
        struck: 0,
        lodged: 0,
        penalties: 0,
        below_deposit: 0,
        fen: 0,
    };

    // None where nothing is due.
    pub fn class(&self) -> Option<OwingClass> {
        match (self.struck, self.lodged, self.penalties) {
            (0, 0, 0) => None,
            (1, 0, 0) => Some(OwingClass::OneStruck),
            (0, 1, 0) => Some(OwingClass::OneLodged),
            (0, 0, 1) => Some(OwingClass::OnePenalty),
            (_, _, 0) => Some(OwingClass::SeveralTrades),
            (0, 0, _) => Some(OwingClass::SeveralPenalties),
            _ => Some(OwingClass::TradesAndPenalties),
        }
    }

    pub fn has_any_below_deposit(&self) -> bool {
        self.below_deposit != 0
    }

    pub fn takes_money(&self) -> bool {
        self.fen != 0
    }

    fn add_penalty(&mut self) {
        self.penalties = self.penalties.wrapping_add(1);
        self.fen = self.fen.wrapping_add(DEPOSIT);
    }

    // The buyer's part in a trade: what the deposit doesn't cover of the full payment.
    fn add_trade(&mut self, full: u64, lodged: bool) {
        let below_deposit = full < DEPOSIT;
        self.struck = self.struck.wrapping_add(u64::from(!lodged));
        self.lodged = self.lodged.wrapping_add(u64::from(lodged));
        self.below_deposit = self.below_deposit.wrapping_add(u64::from(below_deposit));
        self.fen = self.fen.wrapping_add(full.saturating_sub(DEPOSIT));
    }
}

// ── All accounts ────────────────────────────────────────────────────────────────────────────────

#[derive(Clone, Copy, Debug, Default, PartialEq, Eq, PartialOrd, Ord, Hash)]
pub struct Owing {
    accounts: [Dues; ACCOUNTS as usize],
}

impl Owing {
    pub fn nothing() -> Owing {
        Owing {
            accounts: [Dues::NONE; ACCOUNTS as usize],
        }
    }

    pub fn of(&self, account: u64) -> Dues {
        let dues = self.accounts.get(account.wrapping_sub(1) as usize);
        dues.copied().unwrap_or(Dues::NONE)
    }

    pub fn add_lot(&mut self, image: &Page, lot: u64, due: DueLot) {
        let party = if due.is_trade() { BUYER } else { SELLER };
        let account = image.cell(party, lot);
        let Some(dues) = self.accounts.get_mut(account.wrapping_sub(1) as usize) else {
            return;
        };
        match due {
            DueLot::Struck => dues.add_trade(image.full_payment(lot), false),
            DueLot::Lodged => dues.add_trade(image.full_payment(lot), true),
            DueLot::Penalty => dues.add_penalty(),
        }
    }

    // The run's own figure: what is owing less the free money.
    pub fn figure_of(&self, image: &Page, account: u64) -> u64 {
        let dues = self.of(account);
        dues.fen.saturating_sub(image.cell(FREE, account))
    }

    // Whether the figures are the run's own, whatever both sides agree on.
    pub fn are_right(&self, image: &Page, figures: &Page) -> bool {
        (1..=ACCOUNTS).all(|account| figures.cell(SHORTFALL, account)
            == self.figure_of(image, account))
    }
}
