// A figure paid in on a copy of the image, and the morning close behind it: its account has then defaulted as buyer nowhere. With a fen
// less it has, where one trade is all that is due from it (02 6/12).
use crate::asking::Asking;
use ledger_book::{
    ACCOUNTS, BUYER, Cells, DAY, DUE, FROM, Kind, LOT, OUTCOME, Outcome, Page, RECEIPTS, SELLER,
    SHORTFALL, ZONE,
};
use longrun_counts::{Difference, Made, entries_in};
use longrun_draws::{Draws, Request};
use longrun_shortfalls::{DueLot, Owing, due_lot};
use longrun_sides::Sides;
use std::io;

// ── What is due, and what a close did ───────────────────────────────────────────────────────────

fn is_default(answer: &Page, k: u64, account: u64) -> bool {
    let outcome = answer.cell(OUTCOME, k);
    let of_buyer = outcome == Outcome::BuyerDefault as u64
        || outcome == Outcome::BothDefaulted as u64;
    of_buyer && answer.cell(FROM, k) == account
}

// The last lot with which the account has defaulted as buyer.
fn default_of(answer: &Page, account: u64) -> Option<u64> {
    (1..=entries_in(answer).min(RECEIPTS))
        .filter(|k| is_default(answer, *k, account))
        .map(|k| answer.cell(LOT, k))
        .last()
}

// Whether the account is a party to the lot, and the close works it.
fn has_part(image: &Page, lot: u64, account: u64) -> bool {
    let is_due = image.cell(DUE, lot) <= image.cell(DAY, ZONE);
    let buys = image.cell(BUYER, lot) == account;
    let sells = image.cell(SELLER, lot) == account;
    is_due && due_lot(image, lot).is_some() && (buys || sells)
}

// The trade that the account has to pay for, where it has no part in any other due lot.
fn only_trade(image: &Page, account: u64) -> Option<u64> {
    let mut parts = (1..=RECEIPTS).filter(|lot| has_part(image, *lot, account));
    let lot = parts.next()?;
    let is_only = parts.next().is_none();
    let is_trade = due_lot(image, lot).is_some_and(DueLot::is_trade);
    if is_only && is_trade && image.cell(BUYER, lot) == account {
        return Some(lot);
    }
    None
}

// Any account with a figure above 0.
fn some_short(draws: &mut Draws, figures: &Page) -> Option<u64> {
    let first = draws.below(ACCOUNTS);
    (0..ACCOUNTS)
        .map(|k| first.wrapping_add(k) % ACCOUNTS + 1)
        .filter(|account| figures.cell(SHORTFALL, *account) != 0)
        .last()
}

impl<R: Print> Asking<'_, R> {
    // ── The close ───────────────────────────────────────────────────────────────────────────────

    fn make(&mut self, sides: &mut Sides, request: Request) -> io::Result<Made> {
        let made = sides.drive(request);
        self.report
            .show_call("difference at a figure paid in after call ", &made)?;
        Ok(made)
    }

    // Pays in and closes; the close, if both were done: the zone may be full. A pay-in of no fen is refused and changes nothing, so that the
    // close is the first call.
    fn pay_and_close(&mut self, account: u64, fen: u64) -> io::Result<Option<Made>> {
        let mut sides = Sides::on(&self.image);
        let paid = self.make(&mut sides, Request::new(Kind::PayIn, account, 0, fen))?;
        let closed = self.make(&mut sides, Request::close(Kind::MorningClose))?;
        let was_paid = paid.verdict.is_accepted() || fen == 0;
        if was_paid && closed.verdict.is_accepted() {
            return Ok(Some(closed));
        }
        Ok(None)
    }

    // Shows a close in which the account has defaulted where it must not, or has not where it must.
    fn judge(&mut self, wanted: Option<u64>, closed: &Made, account: u64) -> io::Result<()> {
        let found = default_of(&closed.answer, account);
        if found == wanted {
            return Ok(());
        }
        self.report.show(
            "wrong default (numbers: the lot found, the lot wanted) after call ",
            "  account ",
            account,
            Some(Difference {
                of_library: found.unwrap_or(0),
                of_ledger: wanted.unwrap_or(0),
            }),
        )
    }

    // ── The figure, and a fen less ──────────────────────────────────────────────────────────────

    fn pay_figure(&mut self, owing: &Owing, account: u64, figure: u64) -> io::Result<()> {
        let Some(closed) = self.pay_and_close(account, figure)? else {
            return Ok(());
        };
        if let Some(class) = owing.of(account).class() {
            self.report.tally().paid_figures.add(class as u64);
        }
        self.judge(None, &closed, account)
    }

    fn pay_less(&mut self, account: u64, figure: u64) -> io::Result<()> {
        let Some(trade) = only_trade(&self.image, account) else {
            return Ok(());
        };
        let Some(closed) = self.pay_and_close(account, figure.wrapping_sub(1))? else {
            return Ok(());
        };
        if let Some(due) = due_lot(&self.image, trade) {
            self.report.tally().paid_less.add(due as u64);
        }
        self.judge(Some(trade), &closed, account)
    }

    pub fn pay_some(&mut self, owing: &Owing, figures: &Page) -> io::Result<()> {
        if let Some(account) = some_short(&mut self.draws, figures) {
            let figure = figures.cell(SHORTFALL, account);
            self.pay_figure(owing, account, figure)?;
            self.pay_less(account, figure)?;
        }
        Ok(())
    }
}
