// Counts in rows. A column that a table does not have counts nothing, and rows that it does not have share one, `beyond`: no caller names either,
// and each function is safe by itself.
use std::fmt;

#[derive(Clone, Copy, Debug, Default, PartialEq, Eq, PartialOrd, Ord, Hash)]
pub struct CountRow<const COLUMNS: usize> {
    counts: [u64; COLUMNS],
}

impl<const COLUMNS: usize> CountRow<COLUMNS> {
    pub fn empty() -> Self {
        CountRow {
            counts: [0; COLUMNS],
        }
    }

    pub fn counted(&self, column: u64) -> u64 {
        self.counts.get(column as usize).copied().unwrap_or(0)
    }

    pub fn add_many(&mut self, column: u64, more: u64) {
        if let Some(count) = self.counts.get_mut(column as usize) {
            *count = count.wrapping_add(more);
        }
    }

    pub fn add(&mut self, column: u64) {
        self.add_many(column, 1);
    }

    // One more in each column of which this is so.
    pub fn add_each(&mut self, counts: &[(u64, bool)]) {
        for (column, is_so) in counts {
            self.add_many(*column, u64::from(*is_so));
        }
    }

    pub fn total(&self) -> u64 {
        self.counts
            .iter()
            .fold(0, |total, count| total.wrapping_add(*count))
    }

    // Of how many columns this is so, by their number and whether anything was counted there.
    pub fn how_many<F: Fn(usize, bool) -> bool>(&self, is_so: F) -> usize
        requires { F.IsAlwaysCallable is_so }
    {
        self.counts
            .iter()
            .enumerate()
            .filter(|(column, count)| is_so(*column, **count != 0))
            .count()
    }
}

// To the right in columns of seven.
impl<const COLUMNS: usize> fmt::Display for CountRow<COLUMNS> {
    fn fmt<W: fmt::Write>(&self, f: &mut fmt::Formatter<W>) -> fmt::Result {
        for count in &self.counts {
            write!(f, "{count:>7}")?;
        }
        Ok(())
    }
}

#[derive(Clone, Copy, Debug, Default, PartialEq, Eq, PartialOrd, Ord, Hash)]
pub struct Counts<const ROWS: usize, const COLUMNS: usize> {
    rows: [CountRow<COLUMNS>; ROWS],
    // What is counted in a row that the table does not have. With it the check knows that a row fits in memory, which the derives ask for.
    beyond: CountRow<COLUMNS>,
}

impl<const ROWS: usize, const COLUMNS: usize> Counts<ROWS, COLUMNS> {
    pub fn empty() -> Self {
        Counts {
            rows: [CountRow {
                counts: [0; COLUMNS],
            }; ROWS],
            beyond: CountRow {
                counts: [0; COLUMNS],
            },
        }
    }

    pub fn rows(&self) -> &[CountRow<COLUMNS>] {
        &self.rows
    }

    pub fn add_many(&mut self, row: u64, column: u64, more: u64) {
        match self.rows.get_mut(row as usize) {
            Some(counts) => counts.add_many(column, more),
            None => self.beyond.add_many(column, more),
        }
    }

    pub fn add(&mut self, row: u64, column: u64) {
        self.add_many(row, column, 1);
    }

    pub fn add_each(&mut self, row: u64, counts: &[(u64, bool)]) {
        match self.rows.get_mut(row as usize) {
            Some(row) => row.add_each(counts),
            None => self.beyond.add_each(counts),
        }
    }

    pub fn counted(&self, row: u64, column: u64) -> u64 {
        match self.rows.get(row as usize) {
            Some(counts) => counts.counted(column),
            None => self.beyond.counted(column),
        }
    }

    // The same of all rows. By their numbers (c): in a `for` over the rows the goal `listed` of the generic call stayed open.
    pub fn how_many<F: Fn(usize, usize, bool) -> bool>(&self, is_so: F) -> usize
        requires { F.IsAlwaysCallable is_so }
    {
        let mut found = 0usize;
        for row in 0..ROWS {
            for column in 0..COLUMNS {
                if is_so(row, column, self.counted(row as u64, column as u64) != 0) {
                    found = found.wrapping_add(1);
                }
            }
        }
        found
    }
}
