// What requests 2 to 4 of document 02 have at their edges and no call reached.
use longrun_counts::{LIMITS, Limit, PartCount, Tally, Trials};

// Of the limits of request 2, two end a range and the others begin one; request 3 leaves one number.
fn may_be(limit: Limit, step: usize) -> bool {
    match limit {
        Limit::PaidForSome | Limit::PaidForNothing => step == 1,
        Limit::HighestPremium | Limit::AlteredHighestPremium => step < 2,
        _ => step > 0,
    }
}

fn missed_steps(tally: &Tally, limit: Limit) -> usize {
    tally
        .limits
        .row(limit as u64)
        .iter()
        .enumerate()
        .filter(|(step, trials)| trials.is_missed(may_be(limit, *step)))
        .count()
}

// From the first limit of request 2 on.
fn missed_limits(tally: &Tally) -> usize {
    LIMITS.iter().skip(Limit::LeastPremium as usize).fold(
        0,
        |missed, limit| missed.wrapping_add(missed_steps(tally, *limit)),
    )
}

// Whether an invoice can be counted there: a lot's last one, in the second row, pays something, and every one its own share of the rest or
// one fen more.
fn is_part(row: usize, what: usize) -> bool {
    let is_last = row == 1;
    what != PartCount::PaidOther as usize && !(is_last && what == PartCount::PaidNothing as usize)
}

fn missed_places(places: &[Trials]) -> usize {
    places
        .iter()
        .filter(|trials| trials.is_missed(false))
        .count()
}

// No image in which what a lot holds is elsewhere is valid.
fn missed_holders(tally: &Tally) -> usize {
    tally.holders.rows().iter().fold(
        0,
        |missed, places| missed.wrapping_add(missed_places(places)),
    )
}

pub fn missed_edges(tally: &Tally) -> usize {
    let missed_parts = tally
        .parts
        .how_many(|row, what, reached| reached != is_part(row, what));
    // Each outcome, and the last payment, of lots with a premium of each class.
    let missed_outcomes = tally.outcomes.how_many(|_, _, reached| !reached);
    missed_limits(tally)
        .wrapping_add(missed_parts)
        .wrapping_add(missed_holders(tally))
        .wrapping_add(missed_outcomes)
        .wrapping_add(usize::from(tally.nobodys_premium.is_missed(false)))
}
