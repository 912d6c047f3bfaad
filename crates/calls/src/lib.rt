// What an accepted call does in an image, part by part.
#![tactic(auto)]

ghost use Rattle.std.specs.Prelude.{true, ◌≡◌, ◌≤◌, length};
ghost use Rattle.units.specs.Ranges.{receipt_count};
ghost use Rattle.zone.specs.Valid.{valid_zone};
ghost use Rattle.image.specs.Image.{valid_image, decode, encode, Encoded, Fits};
ghost use Rattle.rules.specs.declared.Call.{Call};
ghost use Rattle.rules.specs.Effects.{opening, ending, sweeps, rule_at, effect};
ghost use Rattle.rules.specs.Events.{after_lot, sweep};
ghost use Rattle.rules.specs.Kinds.{kind_number};
ghost use Rattle.rules.specs.Order.{answer_order};
ghost use Rattle.rules.specs.Steps.{Accepted, step_on, number_on};
ghost use Rattle.answers.specs.Buffers.{answer_length, entries_from, with_entries, listed};
ghost use Rattle.events.specs.Posting.{CanPost};

use rules::{Call, Event, Kind};
use units::{Fen, YuanPerTonne};

// ── All lots in ascending order ─────────────────────────────────────────────────────────────────

fn sweeps(kind: Kind) -> bool
    ensures { result ≡ sweeps (kind_number kind) }
{
    matches!(kind, Kind::Quote | Kind::MorningClose | Kind::DayClose)
}

// Lots that the call does not concern are passed over; the first search stands before the loop, where its start is known. Returns how many
// entries it has put into the answer, which is the host's buffer and has room for one of each lot.
fn sweep_lots(image: &mut [u8], c: Call, answer: &mut [u8]) -> usize
    requires { Encoded image.old × (valid_zone (decode image.old) ≡ true) × (sweeps c.kind ≡ true) × (answer_length ≤ length answer.old) }
    ensures { (image.new ≡ encode (sweep (rule_at c) receipt_count 1 (decode image.old)).zone) × ((result, answer.new) ≡ listed (sweep (rule_at c) receipt_count 1 (decode image.old)).entries answer.old) }
{
    let mut count = 0;
    let mut found = lots::next_concerned(image, c, 0);
    while let Some(i) = found {
        if let Some(entry) = visits::work_lot(image, c, i as u8 + 1) {
            answers::put_entry(answer, count, entry);
            count += 1;
        }
        found = lots::next_concerned(image, c, i + 1);
    }
    count
}

// ── One lot ─────────────────────────────────────────────────────────────────────────────────────

// What a call did at its receipt: an event is posted, and is the one entry.
fn post_one(image: &mut [u8], at: Option<Event>, answer: &mut [u8]) -> usize
    requires { Encoded image.old × CanPost (decode image.old) at × (answer_length ≤ length answer.old) }
    ensures { (image.new ≡ encode (after_lot (decode image.old) at).zone) × ((result, answer.new) ≡ listed (after_lot (decode image.old) at).entries answer.old) }
{
    match at {
        Some(event) => {
            events::post(image, event);
            answers::put_entry(answer, 0, event.entry);
            1
        }
        None => 0,
    }
}

// ── Opening and ending ──────────────────────────────────────────────────────────────────────────

#[tactic(auto, using(image::specs::Laws::RoundTrip::same_long), unfolding(rules::specs::Effects::opening))]
fn open_call(image: &mut [u8], kind: Kind, c: Call)
    requires { Encoded image.old × (valid_zone (decode image.old) ≡ true) × (number_on (decode image.old) c ≡ 0) × (c.kind ≡ kind_number kind) }
    ensures { image.new ≡ encode (opening c (decode image.old)) }
{
    let total = image::total_in(image);
    match kind {
        Kind::PayIn => {
            events::money::credit_to(image, c.account, Fen(c.amount));
            put::total(image, total + Fen(c.amount));
        }
        Kind::TakeOut => {
            events::money::debit_from(image, c.account, Fen(c.amount));
            put::total(image, total - Fen(c.amount));
        }
        Kind::Quote => {
            let k = usize::from(c.contract - 1);
            put::ask(image, k, YuanPerTonne(c.amount as u32));
        }
        _ => {}
    }
}

#[tactic(auto, using(image::specs::Laws::RoundTrip::same_long), unfolding(rules::specs::Effects::ending))]
fn end_call(image: &mut [u8], kind: Kind)
    requires { Encoded image.old × Fits (decode image.old) }
    ensures { (c : Call) → c.kind ≡ kind_number kind → image.new ≡ encode (ending c (decode image.old)) }
{
    let day = image::day_in(image);
    match kind {
        Kind::MorningClose => put::clock(image, day, true),
        Kind::DayClose => {
            put::no_asks(image);
            put::clock(image, day + 1, false);
        }
        _ => {}
    }
}

// ── The order of the entries ────────────────────────────────────────────────────────────────────

// A quote lists its strikes by price; every other call has its entries as the lots were visited.
#[tactic(auto, using(answers::specs::Laws::Entries::as_they_stand), unfolding(rules::specs::Order::answer_order))]
fn answer_order(kind: Kind, answer: &mut [u8], count: usize)
    requires { (answer_length ≤ length answer.old) × (count ≤ receipt_count) }
    ensures { answer.new ≡ with_entries 0 (answer_order (kind_number kind) (entries_from 0 count answer.old)) answer.old }
{
    if kind == Kind::Quote {
        order::by_price(answer, count);
    }
}

// ── The whole call ──────────────────────────────────────────────────────────────────────────────

// What an accepted call does, where `at` is what it does at the receipt that it names. Returns how many entries the answer has.
pub fn perform(image: &mut [u8], c: Call, at: Option<Event>, answer: &mut [u8]) -> usize
    requires { (valid_image image.old ≡ true) × (step_on (decode image.old) c ≡ Accepted at) × (answer_length ≤ length answer.old) }
    ensures { (image.new ≡ encode (effect (decode image.old) c).zone) × ((result, answer.new) ≡ listed (effect (decode image.old) c).entries answer.old) }
{
    // An accepted call is of a kind.
    let Ok(kind) = Kind::try_from(c.kind) else {
        unreachable!()
    };
    open_call(image, kind, c);
    let count = if sweeps(kind) {
        sweep_lots(image, c, answer)
    } else {
        post_one(image, at, answer)
    };
    end_call(image, kind);
    answer_order(kind, answer, count);
    count
}
