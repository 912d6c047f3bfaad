// Altered images: lots that got another premium, and trades with other invoices.
use crate::limits::{Limit, cost_at};
use crate::tally::Tally;
use ledger_book::{
    BUYER, CONFIRMED, Cells, FROZEN, OWNER, PAID, PENDING, PREMIUM, PRICE, Page, RECEIPTS, Refusal,
    State, TOTAL, ZONE, is_premium, low_bits, paid_of_rest, signed,
};

// An altered image that was called on, the valid one that it was made from, and the number that the call returned.
#[derive(Drop)]
pub struct Altered<'a> {
    pub sound: &'a Page,
    pub altered: &'a Page,
    pub number: u64,
    pub tally: &'a mut Tally,
}

impl Altered<'_> {
    pub fn is_changed(&self, column: u64, lot: u64) -> bool {
        self.sound.cell(column, lot) != self.altered.cell(column, lot)
    }

    // ── Premiums ────────────────────────────────────────────────────────────────────────────────

    // Whether the lot has a price, and so a tonne of it a cost. The cost is told only where the premium is one.
    fn has_cost(&self, lot: u64) -> bool {
        let has_price = self.altered.state(lot).is_some_and(
            |state| (State::BidStands..=State::FirstPaid).contains(&state),
        );
        has_price && is_premium(self.altered.cell(PREMIUM, lot))
    }

    // A lot that got another premium.
    fn count_premium(&mut self, lot: u64) {
        if self.altered.cell(OWNER, lot) == 0 {
            self.tally
                .nobodys_premium
                .count(self.number, Refusal::BadImage);
            return;
        }
        let premium = signed(self.altered.cell(PREMIUM, lot));
        self.tally
            .count_limit(Limit::AlteredLeastPremium, premium, self.number);
        self.tally
            .count_limit(Limit::AlteredHighestPremium, premium, self.number);
        if self.has_cost(lot) {
            let cost = cost_at(self.altered, lot, self.altered.cell(PRICE, lot));
            self.tally
                .count_limit(Limit::AlteredPrice, cost, self.number);
        }
    }

    pub fn count_premiums(&mut self) {
        for lot in 1..=RECEIPTS {
            if self.is_changed(PREMIUM, lot) {
                self.count_premium(lot);
            }
        }
    }

    // ── Trades (02 3/12) ────────────────────────────────────────────────────────────────────────

    fn has_other_invoices(&self, lot: u64) -> bool {
        [PENDING, CONFIRMED, PAID]
            .iter()
            .any(|column| self.is_changed(*column, lot))
    }

    // A trade in both, at one price.
    fn is_trade(&self, lot: u64) -> bool {
        let paid_in_parts = Some(State::FirstPaid);
        self.sound.state(lot) == paid_in_parts
            && self.altered.state(lot) == paid_in_parts
            && self.sound.full_payment(lot) == self.altered.full_payment(lot)
    }

    // Invoices within the full payment: they do not decide.
    fn is_within_full(&self, lot: u64) -> bool {
        let full = self.altered.full_payment(lot);
        let confirmed = self.altered.cell(CONFIRMED, lot);
        let invoiced = confirmed.wrapping_add(self.altered.cell(PENDING, lot));
        confirmed < full && invoiced <= full
    }

    // Whether frozen money and total went down by as much as paid went up: then the sums fit, and do not decide.
    fn is_booked(&self, lot: u64) -> bool {
        let (sound, altered) = (self.sound, self.altered);
        let buyer = altered.cell(BUYER, lot);
        let more = altered.cell(PAID, lot).wrapping_sub(sound.cell(PAID, lot));
        let frozen = altered.cell(FROZEN, buyer).wrapping_add(more);
        let total = altered.cell(TOTAL, ZONE).wrapping_add(more);
        frozen == sound.cell(FROZEN, buyer) && total == sound.cell(TOTAL, ZONE)
    }

    // How far what is paid lies from what it must be, modulo 2^32.
    fn count_paid(&mut self, lot: u64) {
        let confirmed = self.altered.cell(CONFIRMED, lot);
        let must_be = paid_of_rest(self.altered.full_payment(lot), confirmed);
        let more = self.altered.cell(PAID, lot).wrapping_sub(must_be);
        let limit = match confirmed {
            0 => Limit::PaidForNothing,
            _ => Limit::PaidForSome,
        };
        self.tally
            .count_limit(limit, signed(low_bits(more)), self.number);
    }

    pub fn count_trades(&mut self) {
        for lot in 1..=RECEIPTS {
            let is_paid_trade = self.has_other_invoices(lot) && self.is_trade(lot);
            if is_paid_trade && self.is_booked(lot) && self.is_within_full(lot) {
                self.count_paid(lot);
            }
        }
    }
}
