// What an asking has reached.
use crate::owing::{Owing, due_lot};
use ledger_book::{
    ACCOUNTS, Cells, DAY, DUE, FIGURES_LENGTH, IMAGE_LENGTH, Page, Phase, RECEIPTS, ZONE,
};
use longrun_counts::{Asked, Tally};

// ── Lengths and images ──────────────────────────────────────────────────────────────────────────

// The bytes for figures; in the order of the tally's columns.
#[derive(Clone, Copy)]
enum FiguresRoom {
    NoRoom,
    TooFew,
    OneTooFew,
    Exact,
    OneToSpare,
    More,
}

const FIGURES: u64 = FIGURES_LENGTH as u64;

const ONE_TOO_FEW: u64 = FIGURES - 1;

const ONE_TO_SPARE: u64 = FIGURES + 1;

fn figures_room(room: u64) -> FiguresRoom {
    match room {
        0 => FiguresRoom::NoRoom,
        1..ONE_TOO_FEW => FiguresRoom::TooFew,
        ONE_TOO_FEW => FiguresRoom::OneTooFew,
        FIGURES => FiguresRoom::Exact,
        ONE_TO_SPARE => FiguresRoom::OneToSpare,
        _ => FiguresRoom::More,
    }
}

// In the order of the tally's rows.
#[derive(Clone, Copy)]
pub enum AskedImage {
    ValidInMorning,
    ValidInAfternoon,
    OfOtherLength,
    BadInMorning,
    BadInAfternoon,
}

fn is_afternoon(image: &Page) -> bool {
    image.phase() == Phase::Afternoon
}

fn asked_image(image: &Page, image_length: u64, bad: bool) -> AskedImage {
    if image_length != IMAGE_LENGTH as u64 {
        return AskedImage::OfOtherLength;
    }
    match (bad, is_afternoon(image)) {
        (false, false) => AskedImage::ValidInMorning,
        (false, true) => AskedImage::ValidInAfternoon,
        (true, false) => AskedImage::BadInMorning,
        (true, true) => AskedImage::BadInAfternoon,
    }
}

// `bad` is what the image is found to be with room for the figures.
pub fn count_asking(image: &Page, asked: &Asked, bad: bool, tally: &mut Tally) {
    let row = asked_image(image, asked.image_length, bad);
    tally.asked.add(row as u64, asked.verdict.number);
    tally.figures_room.add(figures_room(asked.room) as u64);
}

// ── Lots ────────────────────────────────────────────────────────────────────────────────────────

// When a close works a lot, as a morning sees it, and then as an afternoon does; in the order of the tally's columns.
#[derive(Clone, Copy, PartialEq, Eq)]
enum DueTime {
    Earlier,
    Today,
    Tomorrow,
    Later,
    UpToToday,
    AfterToday,
}

fn due_time(image: &Page, lot: u64) -> DueTime {
    let day = image.cell(DAY, ZONE);
    let due = image.cell(DUE, lot);
    if is_afternoon(image) {
        return if due <= day {
            DueTime::UpToToday
        } else {
            DueTime::AfterToday
        };
    }
    if due < day {
        return DueTime::Earlier;
    }
    match due.wrapping_sub(day) {
        0 => DueTime::Today,
        1 => DueTime::Tomorrow,
        _ => DueTime::Later,
    }
}

// Counts the lots of a valid image; what the next morning close takes is added to what is owing on the way.
pub fn count_lots(image: &Page, owing: &mut Owing, tally: &mut Tally) {
    for lot in 1..=RECEIPTS {
        if let Some(due) = due_lot(image, lot) {
            let time = due_time(image, lot);
            tally.close_lots.add(due as u64, time as u64);
            if time == DueTime::Earlier || time == DueTime::Today {
                owing.add_lot(image, lot, due);
            }
        }
    }
}

// ── Accounts ────────────────────────────────────────────────────────────────────────────────────

// In the order of the tally's rows.
#[derive(Clone, Copy)]
pub enum OwingRow {
    LacksMoney,
    HasEnough,
    NothingTaken,
}

// In the order of the tally's columns.
#[derive(Clone, Copy)]
enum ShortCount {
    OneFen,
    BelowDeposit,
    FirstAccount,
    LastAccount,
    AboveU32,
}

fn count_figure(figure: u64, below_deposit: bool, account: u64, tally: &mut Tally) {
    let is_short = figure != 0;
    tally.short.add_each(&[
        (ShortCount::OneFen as u64, figure == 1),
        (ShortCount::BelowDeposit as u64, is_short && below_deposit),
        (ShortCount::FirstAccount as u64, is_short && account == 1),
        (
            ShortCount::LastAccount as u64,
            is_short && account == ACCOUNTS,
        ),
        (ShortCount::AboveU32 as u64, figure > 4294967295),
    ]);
}

fn count_account(image: &Page, owing: &Owing, account: u64, tally: &mut Tally) {
    let dues = owing.of(account);
    let figure = owing.figure_of(image, account);
    let row = match figure {
        0 if dues.takes_money() => OwingRow::HasEnough,
        0 => OwingRow::NothingTaken,
        _ => OwingRow::LacksMoney,
    };
    if let Some(class) = dues.class() {
        tally.owing.add(row as u64, class as u64);
    }
    count_figure(figure, dues.has_any_below_deposit(), account, tally);
}

pub fn count_accounts(image: &Page, owing: &Owing, tally: &mut Tally) {
    for account in 1..=ACCOUNTS {
        count_account(image, owing, account, tally);
    }
}
