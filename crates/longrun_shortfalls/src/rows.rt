// The rows about shortfalls, and what no asking reached.
use crate::counts::{AskedImage, OwingRow};
use crate::owing::OwingClass;
use ledger_book::Refusal;
use longrun_counts::Tally;
use longrun_tables::numbered_rows;
use std::io;

// ── What no asking reached ──────────────────────────────────────────────────────────────────────

// A valid image, as the rows up to that of an afternoon have it, is not bad, and a bad one has no figures.
fn is_number(row: usize, number: usize) -> bool {
    let valid = row <= AskedImage::ValidInAfternoon as usize;
    number == Refusal::ShortAnswer as usize || (number == 0) == valid
}

// Where nothing is taken no lot has a penalty.
fn is_owing(row: usize, class: usize) -> bool {
    let penalties = [
        OwingClass::OnePenalty as usize,
        OwingClass::SeveralPenalties as usize,
        OwingClass::TradesAndPenalties as usize,
    ];
    row != OwingRow::NothingTaken as usize || !penalties.contains(&class)
}

// Counts that are 0 and must not be, or the other way round.
fn missed_edges(tally: &Tally) -> usize {
    let (asked, owing) = (&tally.asked, &tally.owing);
    let missed = |_, reached: bool| !reached;
    asked
        .how_many(|row, number, reached| reached != is_number(row, number))
        .wrapping_add(tally.figures_room.how_many(missed))
        .wrapping_add(tally.close_lots.how_many(|_, _, reached| !reached))
        .wrapping_add(owing.how_many(|row, class, reached| reached != is_owing(row, class)))
        .wrapping_add(tally.short.how_many(missed))
        .wrapping_add(tally.paid_figures.how_many(missed))
        .wrapping_add(tally.paid_less.how_many(missed))
}

// ── Rows ────────────────────────────────────────────────────────────────────────────────────────

fn print_asked(rt: &impl Print, tally: &Tally) -> io::Result<()> {
    println!(rt;
        "shortfalls asked for, of a valid image in a morning, in an afternoon, of another length, of a bad image in a morning, in an"
    )?;
    println!(rt; "afternoon: by number from 0 on")?;
    numbered_rows(rt, 1, tally.asked.rows())?;
    println!(rt;
        "bytes for figures: none, two or more too few, one too few, exact, one to spare, more"
    )?;
    println!(rt; "{}", tally.figures_room)
}

fn print_owing(rt: &impl Print, tally: &Tally) -> io::Result<()> {
    println!(rt;
        "lots that are struck, lodged, with a penalty: due earlier, today, tomorrow, later; in an afternoon due, due later"
    )?;
    numbered_rows(rt, 1, tally.close_lots.rows())?;
    println!(rt;
        "accounts short of money, with enough, with nothing to pay: due is one struck lot, one lodged, one penalty, several trades,"
    )?;
    println!(rt; "several penalties, both")?;
    numbered_rows(rt, 1, tally.owing.rows())?;
    println!(rt;
        "figures above 0: of one fen, with a full payment below the deposit, of account 1, of account 96, of 33 bits or more"
    )?;
    println!(rt; "{}", tally.short)
}

fn print_paid(rt: &impl Print, tally: &Tally) -> io::Result<()> {
    println!(rt; "figures paid in before a close, by what is due")?;
    println!(rt; "{}", tally.paid_figures)?;
    println!(rt; "but for one fen: of a struck trade, of a lodged one")?;
    println!(rt; "{}", tally.paid_less)
}

pub fn print_shortfalls(rt: &impl Print, tally: &Tally) -> io::Result<()> {
    print_asked(rt, tally)?;
    print_owing(rt, tally)?;
    print_paid(rt, tally)?;
    let missed = missed_edges(tally);
    println!(rt; "edges of shortfalls that no asking reached: {missed}")
}
