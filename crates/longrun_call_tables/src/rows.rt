// The rows about tables of calls, and what no table reached.
use crate::counts::TableSize;
use ledger_book::{MOST_CALLS, Refusal};
use longrun_counts::Tally;
use longrun_tables::numbered_rows;
use std::io;

// ── What no table reached ───────────────────────────────────────────────────────────────────────

// Tables with too many calls are refused always.
fn is_size(row: usize, column: usize) -> bool {
    row != TableSize::TooMany as usize || column >= 2
}

// An answer in a table is never too short.
fn is_number(number: usize) -> bool {
    number != Refusal::ShortAnswer as usize
}

// Counts that are 0 and must not be, or the other way round.
fn missed_edges(tally: &Tally) -> usize {
    let sizes = &tally.table_sizes;
    let numbers = &tally.table_numbers;
    let missed = |_, reached: bool| !reached;
    usize::from(tally.tables == 0)
        .wrapping_add(usize::from(tally.accepted_behind == 0))
        .wrapping_add(sizes.how_many(|row, column, reached| reached != is_size(row, column)))
        .wrapping_add(tally.table_images.how_many(missed))
        .wrapping_add(tally.table_faults.how_many(|_, _, reached| !reached))
        .wrapping_add(tally.table_rests.how_many(missed))
        .wrapping_add(tally.table_answers.how_many(missed))
        .wrapping_add(numbers.how_many(|number, reached| reached != is_number(number)))
        .wrapping_add(tally.table_outcomes.how_many(missed))
}

// ── Rows ────────────────────────────────────────────────────────────────────────────────────────

// That a table of each size has.
const FEWEST_CALLS: [u64; 5] = [0, 1, 2, MOST_CALLS, MOST_CALLS + 1];

fn print_sizes(rt: &impl Print, tally: &Tally) -> io::Result<()> {
    println!(rt;
        "by calls in them (0, 1, 2 to 31, 32, 33 and more): taken, on a bad image, refused by 14, on a bad image"
    )?;
    for (row, calls) in tally.table_sizes.rows().iter().zip(&FEWEST_CALLS) {
        println!(rt; "{calls:>7}{row}")?;
    }
    Ok(())
}

fn print_faults(rt: &impl Print, tally: &Tally) -> io::Result<()> {
    println!(rt; "taken with calls on a bad image: of another length, not valid")?;
    println!(rt; "{}", tally.table_images)?;
    println!(rt;
        "refused by 14, for too many calls, a record cut short, answers too short, several of these: on a valid image, on a bad one"
    )?;
    numbered_rows(rt, 1, tally.table_faults.rows())?;
    println!(rt; "for a record cut short, of 1 to 23 bytes")?;
    println!(rt; "{}", tally.table_rests)?;
    println!(rt;
        "bytes for answers: two or more too few, one too few, exact, less than an answer to spare, more"
    )?;
    println!(rt; "{}", tally.table_answers)
}

fn print_answers(rt: &impl Print, tally: &Tally) -> io::Result<()> {
    println!(rt; "calls in tables that were taken, by number from 0 on")?;
    println!(rt; "{}", tally.table_numbers)?;
    println!(rt; "their entries, by outcome from 1 on")?;
    println!(rt; "{}", tally.table_outcomes)?;
    let accepted_behind = tally.accepted_behind;
    println!(rt; "tables with an accepted call behind a refused one: {accepted_behind}")
}

pub fn print_call_tables(rt: &impl Print, tally: &Tally) -> io::Result<()> {
    println!(rt; "tables of calls driven: {}", tally.tables)?;
    print_sizes(rt, tally)?;
    print_faults(rt, tally)?;
    print_answers(rt, tally)?;
    let missed = missed_edges(tally);
    println!(rt; "edges of tables of calls that no table reached: {missed}")
}
