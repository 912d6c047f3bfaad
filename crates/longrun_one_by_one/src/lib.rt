// Tables of calls. Each call is made by itself first, on a copy of the image: the image and the answers that this leaves are what the table
// must leave (02 5/12).
#![tactic(auto)]

use ledger_book::{MOST_CALLS, Page};
use longrun_call_tables::{call_in_table, report_table, some_table};
use longrun_calls::{Chooser, Plan};
use longrun_counts::Report;
use longrun_draws::{Draws, Lengths, Request};
use longrun_sides::{MadeAlone, Sides, filled_answers, record_of};
use longrun_wild::Alteration;
use std::io;

// Makes tables of a run's calls, on the run's own images or on an altered copy.
#[derive(Drop)]
pub struct TableMaker<'a, R: Print> {
    pub report: Report<'a, R>,
    pub draws: &'a mut Draws,
    pub plan: Plan,
    pub sides: &'a mut Sides,
    pub altered: bool,
}

impl<R: Print> TableMaker<'_, R> {
    // ── Calls by themselves ─────────────────────────────────────────────────────────────────────

    // The table's call with this number. On an altered image a call is not counted, only shown where both sides differ.
    fn make_alone(&mut self, k: u64, request: Request, alone: &mut MadeAlone) -> io::Result<()> {
        let made = Sides::on(&alone.image).drive(request);
        alone.image = made.after;
        alone.records.put_record(k, &record_of(&request));
        alone.answers.put(k, &made.answer);
        if self.altered {
            return self.report.show_at_altered(&made);
        }
        self.report.count_call(&made)
    }

    // Each is the run's next call from number `first` on, drawn by the image that it will find where the opening has none.
    fn make_each_alone(&mut self, lengths: Lengths, first: u64) -> io::Result<MadeAlone> {
        let mut alone = MadeAlone {
            lengths,
            records: Page::filled(0),
            image: self.sides.image,
            answers: filled_answers(),
        };
        for k in 0..lengths.whole_calls() {
            let mut chooser = Chooser {
                draws: self.draws,
                plan: self.plan,
                image: &alone.image,
            };
            let request = call_in_table(&mut chooser, lengths, first.wrapping_add(k));
            self.make_alone(k, request, &mut alone)?;
        }
        Ok(alone)
    }

    // ── Tables ──────────────────────────────────────────────────────────────────────────────────

    fn make_table(&mut self, lengths: Lengths, first: u64) -> io::Result<()> {
        let alone = self.make_each_alone(lengths, first)?;
        let made = self.sides.drive_table(&alone);
        report_table(self.report.again(), &made)
    }

    fn make_altered_table(&mut self, lengths: Lengths, first: u64) -> io::Result<()> {
        let mut copy = self.sides.image;
        let mut alteration = Alteration {
            draws: self.draws,
            plan: self.plan,
            image: &mut copy,
        };
        alteration.alter();
        let mut sides = Sides::on(&copy);
        let mut on_copy = TableMaker {
            report: self.report.again(),
            draws: self.draws,
            plan: self.plan,
            sides: &mut sides,
            altered: true,
        };
        on_copy.make_table(lengths, first)
    }

    // On the run's own images, or on an altered copy; the run then goes on with the image as it was.
    pub fn make_some_table(&mut self) -> io::Result<()> {
        let lengths = some_table(self.draws);
        let opened = self.plan.opening_calls();
        if self.draws.percent(75) {
            return self.make_table(lengths, opened);
        }
        self.make_altered_table(lengths, opened)
    }

    // The calls of the run's opening, as many to a table as there may be.
    pub fn open(&mut self) -> io::Result<()> {
        let tables = self.plan.opening_calls().div_ceil(MOST_CALLS);
        for k in 0..tables {
            self.make_table(Lengths::of_calls(MOST_CALLS), k.wrapping_mul(MOST_CALLS))?;
        }
        Ok(())
    }
}
