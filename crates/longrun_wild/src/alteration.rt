// An altered image and a call to make on it.
use crate::odd::odd_field;
use ledger_book::{Cells, FREE, MOST_AMOUNT, MOST_TOTAL, Page, TOTAL, ZONE};
use longrun_calls::{Chooser, Plan};
use longrun_draws::{Draws, Request, raise};

// The limit, or one fen beside it, or as far below it as one pay-in can make up.
fn some_total(draws: &mut Draws) -> u64 {
    if draws.percent(50) {
        return draws.beside(MOST_TOTAL);
    }
    MOST_TOTAL.wrapping_sub(draws.below(MOST_AMOUNT))
}

// Alters a copy of a run's image, which is valid at first.
#[derive(Drop)]
pub struct Alteration<'a> {
    pub draws: &'a mut Draws,
    pub plan: Plan,
    pub image: &'a mut Page,
}

impl Alteration<'_> {
    // ── A total about its limit ─────────────────────────────────────────────────────────────────

    // Gives an account the free money that the total lacks, and pays in what is left to the limit.
    fn near_limit(&mut self) -> Request {
        let account = self.draws.between(1, self.plan.accounts);
        let total = some_total(self.draws);
        let lacking = total.wrapping_sub(self.image.cell(TOTAL, ZONE));
        raise(self.image, FREE, account, lacking);
        raise(self.image, TOTAL, ZONE, lacking);
        let mut chooser = Chooser {
            draws: self.draws,
            plan: self.plan,
            image: self.image,
        };
        chooser.pay_in(account)
    }

    // ── A field or held money out of place ──────────────────────────────────────────────────────

    // The lot that it concerns, or one that the next call may go to.
    fn put_out_of_place(&mut self) -> u64 {
        if self.draws.percent(15)
            && let Some(lot) = self.misplace()
        {
            return lot;
        }
        self.damage()
    }

    fn request_about(&mut self, lot: u64) -> Request {
        let mut chooser = Chooser {
            draws: self.draws,
            plan: self.plan,
            image: self.image,
        };
        if chooser.draws.percent(30) {
            return chooser.close_phase();
        }
        if chooser.draws.percent(70) {
            return chooser.step_lot(lot);
        }
        chooser.sensible()
    }

    // Changes the image and gives a call to make on it.
    pub fn alter(&mut self) -> Request {
        if self.draws.percent(8) {
            return self.near_limit();
        }
        let lot = self.put_out_of_place();
        let request = self.request_about(lot);
        if self.draws.percent(10) {
            return odd_field(self.draws, request);
        }
        request
    }
}
