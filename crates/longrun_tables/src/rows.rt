// The tables that the program writes.
use crate::edges::missed_edges;
use crate::pairs::print_pairs;
use ledger_book::State;
use longrun_counts::{CountRow, Limit, Tally};
use std::io;

// Rows one behind another, named from `first` on.
pub fn numbered_rows<const COLUMNS: usize>(
    rt: &impl Print,
    first: u64,
    rows: &[CountRow<COLUMNS>],
) -> io::Result<()> {
    for (row, name) in rows.iter().zip(first..) {
        println!(rt; "{name:>7}{row}")?;
    }
    Ok(())
}

// ── Contracts and entries ───────────────────────────────────────────────────────────────────────

fn print_entries(rt: &impl Print, tally: &Tally) -> io::Result<()> {
    println!(rt;
        "contracts: listings, bids, quotes, lots struck, quotes that struck two or more, of these at one price, at different prices, at both"
    )?;
    numbered_rows(rt, 1, tally.contracts.rows())?;
    println!(rt;
        "entries by outcome (the last row: last part payments): all, by premium -5000, below 0, 0, above 0, 5000"
    )?;
    for (row, outcome) in tally.outcomes.rows().iter().zip(1u64..) {
        let all = row.total();
        println!(rt; "{outcome:>7}{all:>7}{row}")?;
    }
    let most_entries = tally.most_entries;
    println!(rt; "most entries in an answer: {most_entries}")
}

// ── Limits ──────────────────────────────────────────────────────────────────────────────────────

// The number before each limit, the limit and the next: calls, those accepted, those refused by the limit's number.
fn limit_rows(rt: &impl Print, tally: &Tally, words: &str, limits: &[Limit]) -> io::Result<()> {
    println!(rt; "{words}")?;
    for limit in limits {
        let first = limit.value().wrapping_sub(1);
        let trials = tally.limits.row(*limit as u64);
        for (trials, value) in trials.iter().zip(first..) {
            println!(rt; "  {value}{trials}")?;
        }
    }
    Ok(())
}

fn print_limits(rt: &impl Print, tally: &Tally) -> io::Result<()> {
    limit_rows(
        rt,
        tally,
        "amount of a pay-in: calls, accepted, refused by 4",
        &[Limit::PayInAmount],
    )?;
    limit_rows(
        rt,
        tally,
        "amount of a take-out: calls, accepted, refused by 4",
        &[Limit::TakeOutAmount],
    )?;
    limit_rows(
        rt,
        tally,
        "amount of an invoice: calls, accepted, refused by 4",
        &[Limit::InvoiceAmount],
    )?;
    limit_rows(
        rt,
        tally,
        "total that a pay-in makes: calls, accepted, refused by 12",
        &[Limit::TotalAfter],
    )?;
    limit_rows(
        rt,
        tally,
        "total of an image: calls, accepted, refused by 2",
        &[Limit::TotalBefore],
    )
}

fn print_premiums(rt: &impl Print, tally: &Tally) -> io::Result<()> {
    limit_rows(
        rt,
        tally,
        "premium of a registration: calls, accepted, refused by 4",
        &[Limit::LeastPremium, Limit::HighestPremium],
    )?;
    limit_rows(
        rt,
        tally,
        "price + basis + premium of a limit bid: calls, accepted, refused by 10",
        &[Limit::LimitBidPrice],
    )?;
    limit_rows(
        rt,
        tally,
        "price + basis + premium of a market bid: calls, accepted, refused by 10",
        &[Limit::MarketBidPrice],
    )
}

fn print_altered(rt: &impl Print, tally: &Tally) -> io::Result<()> {
    limit_rows(
        rt,
        tally,
        "premium put into an image: calls, accepted, refused by 2",
        &[Limit::AlteredLeastPremium, Limit::AlteredHighestPremium],
    )?;
    limit_rows(
        rt,
        tally,
        "price + basis + premium with one put in: calls, accepted, refused by 2",
        &[Limit::AlteredPrice],
    )?;
    println!(rt; "premium put in where nobody has the receipt: calls, accepted, refused by 2")?;
    println!(rt; "{}", tally.nobodys_premium)
}

fn print_parts(rt: &impl Print, tally: &Tally) -> io::Result<()> {
    println!(rt;
        "confirmed invoices (the second row: a lot's last): all, of 1 fen, after others, paid nothing, their share, one fen more, else"
    )?;
    numbered_rows(rt, 1, tally.parts.rows())?;
    limit_rows(
        rt,
        tally,
        "paid put into a trade beside what it must be, something confirmed: calls, accepted, refused by 2",
        &[Limit::PaidForSome],
    )?;
    limit_rows(
        rt,
        tally,
        "paid put into a trade beside what it must be, nothing confirmed: calls, accepted, refused by 2",
        &[Limit::PaidForNothing],
    )
}

fn print_holders(rt: &impl Print, tally: &Tally) -> io::Result<()> {
    println!(rt;
        "what a lot holds put elsewhere, by its state (the last row: lot 128): frozen from the seller, from the account before, free;"
    )?;
    println!(rt; "of each: calls, accepted, refused by 2")?;
    let first = State::BidStands as u64;
    for ([seller, before, free], state) in tally.holders.rows().iter().zip(first..) {
        println!(rt; "{state:>7}{seller}{before}{free}")?;
    }
    Ok(())
}

// ── All ─────────────────────────────────────────────────────────────────────────────────────────

pub fn print_reached(rt: &impl Print, tally: &Tally) -> io::Result<()> {
    print_pairs(rt, tally)?;
    print_entries(rt, tally)?;
    print_limits(rt, tally)?;
    print_premiums(rt, tally)?;
    print_altered(rt, tally)?;
    print_parts(rt, tally)?;
    print_holders(rt, tally)?;
    let missed = missed_edges(tally);
    println!(rt; "edges of premiums, parts and held money that no call reached: {missed}")?;
    println!(rt; "altered images refused by 2: {}", tally.refused_images)?;
    println!(rt; "altered images still valid: {}", tally.valid_images)?;
    println!(rt; "buffers given to the fresh entry: {}", tally.fresh)
}

pub fn print_differences(rt: &impl Print, tally: &Tally) -> io::Result<()> {
    println!(rt; "{} differences", tally.differences)
}
