// One asking.
use ledger_book::{FIGURES_LENGTH, Page};
use longrun_calls::Plan;
use longrun_counts::{Asked, Difference, Report, Verdict};
use longrun_draws::Draws;
use longrun_shortfalls::{
    Owing, Variation, count_accounts, count_asking, count_lots, some_image_length, some_room,
};
use longrun_sides::ask_shortfalls;
use std::io;

// Asks about a varied copy of a run's image.
#[derive(Drop)]
pub struct Asking<'a, R: Print> {
    pub report: Report<'a, R>,
    pub draws: Draws,
    pub image: Page,
}

impl<R: Print> Asking<'_, R> {
    fn show_asked(&mut self, room: u64, difference: Option<Difference>) -> io::Result<()> {
        self.report.show(
            "difference at shortfalls after call ",
            "  bytes for figures ",
            room,
            difference,
        )
    }

    // `bad` is what the image is found to be with room for the figures.
    fn count(&mut self, asked: &Asked, bad: bool) -> io::Result<()> {
        count_asking(&self.image, asked, bad, self.report.tally());
        self.show_asked(asked.room, asked.verdict.difference)
    }

    // Figures that were told: they must be the run's own, and one is paid in.
    fn try_figures(&mut self, asked: &Asked) -> io::Result<()> {
        let mut owing = Owing::nothing();
        count_lots(&self.image, &mut owing, self.report.tally());
        count_accounts(&self.image, &owing, self.report.tally());
        let number = asked.verdict.number;
        let of_ledger = asked
            .verdict
            .difference
            .map_or(number, |both| both.of_ledger);
        let right = owing.are_right(&self.image, &asked.figures);
        let judged = Verdict::new(number, of_ledger, right);
        self.show_asked(asked.room, judged.difference)?;
        self.pay_some(&owing, &asked.figures)
    }

    fn ask(&mut self) -> io::Result<()> {
        let image_length = some_image_length(&mut self.draws);
        let asked = ask_shortfalls(&self.image, image_length, FIGURES_LENGTH as u64);
        let bad = !asked.verdict.is_accepted();
        self.count(&asked, bad)?;
        if !bad {
            self.try_figures(&asked)?;
        }
        let room = some_room(&mut self.draws);
        let again = ask_shortfalls(&self.image, image_length, room);
        self.count(&again, bad)
    }
}

// Draws from a copy of the run's own numbers, so that the run makes the same calls as without it.
pub fn ask_now_and_then<R: Print>(
    report: Report<'_, R>,
    mut draws: Draws,
    plan: Plan,
    image: &Page,
) -> io::Result<()> {
    if !draws.percent(6) {
        return Ok(());
    }
    let mut copy = *image;
    let mut variation = Variation {
        draws: &mut draws,
        plan,
        image: &mut copy,
    };
    variation.vary();
    let mut asking = Asking {
        report,
        draws,
        image: copy,
    };
    asking.ask()
}
