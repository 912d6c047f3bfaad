// Calls that meet one condition, those of them accepted, and those refused by the number that goes with it.
use ledger_book::Refusal;
use std::fmt;

#[derive(Clone, Copy, Debug, Default, PartialEq, Eq, PartialOrd, Ord, Hash)]
pub struct Trials {
    pub calls: u64,
    pub accepted: u64,
    pub refused: u64,
}

impl Trials {
    pub const NONE: Trials = Trials {
        calls: 0,
        accepted: 0,
        refused: 0,
    };

    pub fn count(&mut self, number: u64, refusal: Refusal) {
        let accepted = u64::from(number == 0);
        let refused = u64::from(number == refusal as u64);
        self.calls = self.calls.wrapping_add(1);
        self.accepted = self.accepted.wrapping_add(accepted);
        self.refused = self.refused.wrapping_add(refused);
    }

    // Whether the counts are not as they must be: some calls accepted where the value is one that may be; elsewhere none, and some refused.
    pub fn is_missed(&self, may_be: bool) -> bool {
        let accepted = self.accepted != 0;
        let refused = self.refused != 0;
        accepted != may_be || !(may_be || refused)
    }
}

impl fmt::Display for Trials {
    fn fmt<W: fmt::Write>(&self, f: &mut fmt::Formatter<W>) -> fmt::Result {
        let Trials {
            calls,
            accepted,
            refused,
        } = *self;
        write!(f, "{calls:>7}{accepted:>7}{refused:>7}")
    }
}

// Rows of three conditions.
#[derive(Clone, Copy, Debug, Default, PartialEq, Eq, PartialOrd, Ord, Hash)]
pub struct TrialTable<const ROWS: usize> {
    rows: [[Trials; 3]; ROWS],
}

impl<const ROWS: usize> TrialTable<ROWS> {
    pub fn empty() -> Self {
        TrialTable {
            rows: [[Trials::NONE; 3]; ROWS],
        }
    }

    pub fn rows(&self) -> &[[Trials; 3]] {
        &self.rows
    }

    pub fn row(&self, row: u64) -> [Trials; 3] {
        let trials = self.rows.get(row as usize);
        trials.copied().unwrap_or([Trials::NONE; 3])
    }

    pub fn count(&mut self, row: u64, column: u64, number: u64, refusal: Refusal) {
        if let Some(trials) = self.rows.get_mut(row as usize)
            && let Some(trials) = trials.get_mut(column as usize)
        {
            trials.count(number, refusal);
        }
    }
}
