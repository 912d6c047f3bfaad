// A run: a zone from its fresh image on.
use ledger_book::{DAY, IMAGE_LENGTH, PAGE_LENGTH, ZONE};
use longrun_calls::{Chooser, Plan};
use longrun_counts::{Report, Tally};
use longrun_draws::Draws;
use longrun_one_by_one::TableMaker;
use longrun_pay_ins::ask_now_and_then;
use longrun_sides::{Sides, filled};
use longrun_wild::{Alteration, make_wild};
use std::io;

// A fresh image on both sides, in buffers of this length.
fn make_fresh<R: Print>(
    report: &mut Report<'_, R>,
    sides: &mut Sides,
    length: usize,
) -> io::Result<()> {
    let agree = sides.agree_on_fresh(length);
    report.count_fresh(length, agree)
}

// Every length that a buffer can have here; the right one is among them.
pub fn all_lengths<R: Print>(rt: &R, tally: &mut Tally) -> io::Result<()> {
    let mut report = Report { rt, tally };
    let mut sides = Sides::on(&filled());
    for length in 0..=PAGE_LENGTH {
        make_fresh(&mut report, &mut sides, length)?;
    }
    Ok(())
}

#[derive(Drop)]
struct Run<'a, R: Print> {
    report: Report<'a, R>,
    draws: Draws,
    plan: Plan,
    sides: Sides,
}

impl<R: Print> Run<'_, R> {
    // Both sides judge an altered copy, which is counted apart from the calls; the run goes on with the image as it was.
    fn judge_altered(&mut self) -> io::Result<()> {
        let mut copy = self.sides.image;
        let mut alteration = Alteration {
            draws: &mut self.draws,
            plan: self.plan,
            image: &mut copy,
        };
        let request = alteration.alter();
        let made = Sides::on(&copy).drive(request);
        self.report.count_altered(&made, &self.sides.image)
    }

    // A sensible call, or a wild one.
    fn make_call(&mut self, wild: bool) -> io::Result<()> {
        let mut chooser = Chooser {
            draws: &mut self.draws,
            plan: self.plan,
            image: &self.sides.image,
        };
        let mut request = chooser.sensible();
        if wild {
            request = make_wild(&mut self.draws, request);
        }
        let made = self.sides.drive(request);
        self.report.count_call(&made)
    }

    // Makes tables on the run's own images.
    fn table_maker(&mut self) -> TableMaker<'_, R> {
        TableMaker {
            plan: self.plan,
            altered: false,
            draws: &mut self.draws,
            sides: &mut self.sides,
            report: self.report.again(),
        }
    }

    fn next_call(&mut self) -> io::Result<()> {
        match self.draws.below(100) {
            0..=11 => self.judge_altered(),
            12..=23 => self.make_call(true),
            24..=97 => self.make_call(false),
            _ => self.table_maker().make_some_table(),
        }
    }

    fn ask_now_and_then(&mut self) -> io::Result<()> {
        let image = &self.sides.image;
        ask_now_and_then(self.report.again(), self.draws, self.plan, image)
    }
}

// Both sides start on their own fresh image; a later day is written into both.
pub fn make_run<R: Print>(rt: &R, plan: Plan, tally: &mut Tally) -> io::Result<()> {
    let mut report = Report { rt, tally };
    let mut sides = Sides::on(&filled());
    make_fresh(&mut report, &mut sides, IMAGE_LENGTH)?;
    sides.image.set(DAY, ZONE, plan.day);
    sides.second.set(DAY, ZONE, plan.day);
    let mut run = Run {
        report,
        draws: Draws::from_seed(plan.seed),
        plan,
        sides,
    };
    run.table_maker().open()?;
    for _ in 0..plan.calls {
        run.ask_now_and_then()?;
        run.next_call()?;
    }
    Ok(())
}
