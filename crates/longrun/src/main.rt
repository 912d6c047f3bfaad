// Long runs of calls: the library beside the second ledger (01 Holding 6). Each has an image and an answer buffer of its own; number,
// whole image and whole answer are compared after every call. Most calls are sensible ones that carry lots through all states. The
// others are wild (fields at the ends of their ranges, wrong lengths), or meet a copy of the image with one field out of place, with what
// a lot holds put elsewhere, or with a total about its limit. Openings, and calls now and then, go in tables; a table is also compared with
// its calls made one by one. Now and then both are asked for shortfalls. The fresh entry is compared for buffers of all lengths.
//
// The last line counts the differences.
#![tactic(auto)]

mod runs;

use ledger_book::{ACCOUNTS, LAST_DAY, RECEIPTS};
use longrun_call_tables::print_call_tables;
use longrun_calls::{Opening, Plan};
use longrun_counts::Tally;
use longrun_shortfalls::print_shortfalls;
use longrun_tables::{print_differences, print_reached};
use std::io;

fn plan(seed: u64, calls: u64, receipts: u64, accounts: u64, closes: u64) -> Plan {
    Plan {
        seed,
        calls,
        receipts,
        accounts,
        closes,
        day: 1,
        opening: 0,
    }
}

// Few lots and accounts, so that most calls meet lots in the middle of their way.
fn small_zones(rt: &impl Print, tally: &mut Tally) -> io::Result<()> {
    runs::make_run(rt, plan(11400714819323198485, 16000, 24, 8, 40), tally)?;
    runs::make_run(rt, plan(15111557264842353923, 14000, 40, 12, 30), tally)?;
    runs::make_run(rt, plan(2685821657736338717, 18000, 8, 3, 60), tally)
}

// All lots go through closes and quotes first, so that answers are full. The calls after that draw from all receipts and accounts in
// one run, from half and a quarter of them in the other.
fn long_answers(rt: &impl Print, tally: &mut Tally) -> io::Result<()> {
    let all = Plan {
        opening: Opening::OneContract as u64,
        ..plan(10140107109312335319, 12000, RECEIPTS, ACCOUNTS, 12)
    };
    let half = Plan {
        opening: Opening::EachContract as u64,
        ..plan(6364136223846793005, 12000, RECEIPTS / 2, ACCOUNTS / 4, 20)
    };
    runs::make_run(rt, all, tally)?;
    runs::make_run(rt, half, tally)
}

// Money up to the limit, and the last days that a zone has.
fn last_days(rt: &impl Print, tally: &mut Tally) -> io::Result<()> {
    let late = Plan {
        day: LAST_DAY - 150,
        opening: Opening::ToLimit as u64,
        ..plan(12605985483714917081, 12000, 24, 6, 40)
    };
    runs::make_run(rt, late, tally)
}

fn main(rt: HostRuntime) -> io::Result<()> {
    let mut tally = Tally::empty();
    runs::all_lengths(&rt, &mut tally)?;
    small_zones(&rt, &mut tally)?;
    long_answers(&rt, &mut tally)?;
    last_days(&rt, &mut tally)?;
    print_reached(&rt, &tally)?;
    print_call_tables(&rt, &tally)?;
    print_shortfalls(&rt, &tally)?;
    print_differences(&rt, &tally)
}
