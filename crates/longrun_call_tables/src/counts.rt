// What a table of calls has reached.
use ledger_book::{
    ANSWER_LENGTH, ANSWER_NUMBER_END, ANSWER_PHASE_END, Answers, ENTRY_COUNT_END, IMAGE_LENGTH,
    MOST_CALLS, OUTCOME, RECEIPTS, place_of,
};
use longrun_counts::{MadeTable, Report, Tally};
use longrun_draws::{TableFault, answers_wanted};
use std::io;

// ── Rows and columns of the tally ───────────────────────────────────────────────────────────────

#[derive(Clone, Copy)]
pub enum TableSize {
    NoCall,
    OneCall,
    Fewer,
    Most,
    TooMany,
}

fn size_of(calls: u64) -> TableSize {
    match calls {
        0 => TableSize::NoCall,
        1 => TableSize::OneCall,
        2..MOST_CALLS => TableSize::Fewer,
        MOST_CALLS => TableSize::Most,
        _ => TableSize::TooMany,
    }
}

// The bytes for answers, beside those that the calls want.
#[derive(Clone, Copy)]
enum AnswerRoom {
    TooFew,
    OneTooFew,
    Exact,
    ToSpare,
    More,
}

const ANSWER: u64 = ANSWER_LENGTH as u64;

fn answer_room(given: u64, wanted: u64) -> AnswerRoom {
    if given < wanted {
        return match wanted.wrapping_sub(given) {
            1 => AnswerRoom::OneTooFew,
            _ => AnswerRoom::TooFew,
        };
    }
    match given.wrapping_sub(wanted) {
        0 => AnswerRoom::Exact,
        1..ANSWER => AnswerRoom::ToSpare,
        _ => AnswerRoom::More,
    }
}

// ── Answers ─────────────────────────────────────────────────────────────────────────────────────

fn number_at(answers: &Answers, k: u64) -> u64 {
    answers.field(k, 0..ANSWER_NUMBER_END)
}

fn count_entries(answers: &Answers, k: u64, tally: &mut Tally) {
    let entries = answers.field(k, ANSWER_PHASE_END..ENTRY_COUNT_END);
    for entry in 1..=entries.min(RECEIPTS) {
        let outcome = answers.field(k, place_of(OUTCOME, entry));
        tally.table_outcomes.add(outcome.wrapping_sub(1));
    }
}

// Whether a call was accepted behind one that was refused.
fn goes_on(calls: u64, answers: &Answers) -> bool {
    (0..calls)
        .map(|k| number_at(answers, k))
        .skip_while(|number| *number == 0)
        .any(|number| number == 0)
}

// ── All ─────────────────────────────────────────────────────────────────────────────────────────

fn count_size(made: &MadeTable, tally: &mut Tally) {
    let column = match (made.verdict.is_accepted(), made.bad_image) {
        (true, false) => 0,
        (true, true) => 1,
        (false, false) => 2,
        (false, true) => 3,
    };
    let size = size_of(made.lengths.whole_calls());
    tally.table_sizes.add(size as u64, column);
}

fn count_room(made: &MadeTable, tally: &mut Tally) {
    let calls = made.lengths.whole_calls();
    let no_other_fault = matches!(
        made.lengths.fault(),
        None | Some(TableFault::AnswersTooShort)
    );
    if calls != 0 && no_other_fault {
        let room = answer_room(made.lengths.answers, answers_wanted(calls));
        tally.table_answers.add(room as u64);
    }
}

fn count_fault(made: &MadeTable, fault: TableFault, tally: &mut Tally) {
    tally
        .table_faults
        .add(fault as u64, u64::from(made.bad_image));
    if fault == TableFault::RecordCutShort {
        tally.table_rests.add(made.lengths.rest().wrapping_sub(1));
    }
}

// A table that was taken. Of a bad image each of its calls says that it is bad.
fn count_taken(made: &MadeTable, tally: &mut Tally) {
    let calls = made.lengths.whole_calls();
    for k in 0..calls {
        tally.table_numbers.add(number_at(&made.answers, k));
        count_entries(&made.answers, k, tally);
    }
    if goes_on(calls, &made.answers) {
        tally.accepted_behind = tally.accepted_behind.wrapping_add(1);
    }
    if made.bad_image && calls != 0 {
        let right_length = made.lengths.image == IMAGE_LENGTH as u64;
        tally.table_images.add(u64::from(right_length));
    }
}

// Counts a table that was driven.
pub fn count_table(made: &MadeTable, tally: &mut Tally) {
    tally.tables = tally.tables.wrapping_add(1);
    count_size(made, tally);
    count_room(made, tally);
    if made.verdict.is_accepted() {
        count_taken(made, tally);
    } else {
        // Without a fault in its lengths no table may be refused: then it counts as one with several.
        let fault = made.lengths.fault().unwrap_or(TableFault::Several);
        count_fault(made, fault, tally);
    }
}

// Counts a table that was driven, and shows where the two sides differ.
pub fn report_table<R: Print>(mut report: Report<'_, R>, made: &MadeTable) -> io::Result<()> {
    count_table(made, report.tally);
    report.show(
        "difference at a table of calls after call ",
        "  calls in it ",
        made.lengths.whole_calls(),
        made.verdict.difference,
    )
}

#[cfg(test)]
mod tests {
    use super::*;
    use ledger_book::{CALL_LENGTH, Refusal};
    use longrun_counts::Verdict;
    use longrun_draws::Lengths;

    // A table whose sides differ, with answers that are all zeros.
    fn made(calls_length: usize, number: u64) -> MadeTable {
        MadeTable {
            lengths: Lengths {
                calls: calls_length as u64,
                ..Lengths::of_calls(2)
            },
            bad_image: false,
            answers: Answers::filled(0),
            verdict: Verdict::new(number, 0, false),
        }
    }

    #[test]
    fn counts_tables_and_no_difference(rt: HostRuntime) {
        let mut tally = Tally::empty();
        count_table(&made(2 * CALL_LENGTH, 0), &mut tally);
        count_table(&made(CALL_LENGTH + 1, Refusal::BadTable as u64), &mut tally);
        assert_eq!(rt; tally.tables, 2);
        assert_eq!(rt; tally.table_sizes.counted(TableSize::Fewer as u64, 0), 1);
        assert_eq!(rt; tally.table_sizes.counted(TableSize::OneCall as u64, 2), 1);
        assert_eq!(rt; tally.table_answers.counted(AnswerRoom::Exact as u64), 1);
        assert_eq!(rt; tally.table_numbers.counted(0), 2);
        assert_eq!(rt; tally.table_rests.counted(0), 1);
        assert_eq!(rt; tally.differences, 0);
    }
}
