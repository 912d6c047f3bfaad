// The counts, and where what differs is shown.
use crate::made::{Difference, Made};
use crate::tally::Tally;
use ledger_book::Page;
use std::io;

const MOST_SHOWN: u64 = 5;

#[derive(Drop)]
pub struct Report<'a, R: Print> {
    pub rt: &'a R,
    pub tally: &'a mut Tally,
}

impl<R: Print> Report<'_, R> {
    // The same, lent to a part of the run.
    pub fn again(&mut self) -> Report<'_, R> {
        Report {
            rt: self.rt,
            tally: self.tally,
        }
    }

    // Lends the tally: where a report lies in another struct, the check has no rule for its field as an argument.
    pub fn tally(&mut self) -> &mut Tally {
        self.tally
    }

    // Counts a difference; whether it is one of the first five, which are shown.
    fn count_difference(&mut self) -> bool {
        self.tally.differences = self.tally.differences.wrapping_add(1);
        self.tally.differences <= MOST_SHOWN
    }

    // Shows after how many calls of all runs, something told of what was made, and both numbers.
    pub fn show(
        &mut self,
        words: &str,
        told: &str,
        value: u64,
        difference: Option<Difference>,
    ) -> io::Result<()> {
        let Some(
            Difference {
                of_library,
                of_ledger,
            },
        ) = difference
        else {
            return Ok(());
        };
        if self.count_difference() {
            let calls = self.tally.calls;
            println!(self.rt; "{words}{calls}\n{told}{value}")?;
            println!(self.rt; "  number of the library {of_library}")?;
            println!(self.rt; "  number of the ledger {of_ledger}")?;
        }
        Ok(())
    }

    pub fn show_call(&mut self, words: &str, made: &Made) -> io::Result<()> {
        let kind = made.request.kind_byte();
        self.show(words, "  kind ", kind, made.verdict.difference)
    }

    pub fn count_call(&mut self, made: &Made) -> io::Result<()> {
        self.tally.count_call(made);
        self.show_call("difference at call ", made)
    }

    // On an altered image a call is not counted with the others.
    pub fn show_at_altered(&mut self, made: &Made) -> io::Result<()> {
        self.show_call("difference at an altered image after call ", made)
    }

    pub fn count_altered(&mut self, made: &Made, sound: &Page) -> io::Result<()> {
        self.tally.count_altered(made, sound);
        self.show_at_altered(made)
    }

    pub fn count_fresh(&mut self, length: usize, agree: bool) -> io::Result<()> {
        self.tally.fresh = self.tally.fresh.wrapping_add(1);
        if !agree && self.count_difference() {
            println!(self.rt; "difference at the fresh entry, length {length}")?;
        }
        Ok(())
    }
}
