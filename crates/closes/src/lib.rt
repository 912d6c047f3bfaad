// The code of the closes, kinds 11 and 15, at a lot that they come by: in each case the record is put, the money is moved that moves there,
// and the entry is given. What a close does at a lot is by the lot alone, so that no call is handed on.
#![tactic(auto, using(image::specs::Laws::RoundTrip::same_long, events::specs::Laws::Moved::record_kept, crate::specs::Laws::Closing::due_weight, crate::specs::Laws::Closing::buyer_limit))]

ghost use Rattle.std.specs.Prelude.{◌≡◌, ◌+◌, ◌≤◌, leb, Some};
ghost use Rattle.units.specs.Payments.{deposit};
ghost use Rattle.units.specs.Ranges.{money_limit};
ghost use Rattle.zone.specs.declared.Lot.TheVariants.{Idle, Settled, PenaltyDue};
ghost use Rattle.zone.specs.Record.{record_of, trade_of};
ghost use Rattle.rules.specs.Effects.{owned_by, with_lot};
ghost use Rattle.closes.specs.Visited.{Visited, Due, Closed};

use rules::{Entry, Outcome};
use units::{Basis, Fen, PER_RECEIPT, YuanPerTonne};
use zone::{Record, State};

// ── Records after a close ───────────────────────────────────────────────────────────────────────

// Nothing is left of the lot; owner, weight and premium stay.
#[tactic(auto, unfolding(zone::specs::Record::record_of))]
fn idle_record(f: Record) -> Record
    ensures { result ≡ record_of (with_lot f Idle) }
{
    Record {
        state: State::Idle as u8,
        seller: 0,
        buyer: 0,
        contract: 0,
        days: 0,
        due: 0,
        basis: Basis(0),
        price: YuanPerTonne(0),
        pending: Fen(0),
        confirmed: Fen(0),
        paid: Fen(0),
        ..f
    }
}

// The receipt is the buyer's, the trade stays.
#[tactic(auto, unfolding(zone::specs::Record::record_of))]
fn settled_record(f: Record) -> Record
    ensures { result ≡ record_of (owned_by f.buyer f (Settled (trade_of f))) }
{
    Record {
        owner: f.buyer,
        state: State::Settled as u8,
        pending: Fen(0),
        confirmed: Fen(0),
        paid: Fen(0),
        ..f
    }
}

// The seller owes the buyer the penalty, from that day on.
#[tactic(auto, unfolding(zone::specs::Record::record_of))]
fn penalty_record(f: Record, due: u16) -> Record
    ensures { result ≡ record_of (with_lot f (PenaltyDue f.seller f.buyer due)) }
{
    Record {
        state: State::PenaltyDue as u8,
        seller: f.seller,
        buyer: f.buyer,
        due,
        ..idle_record(f)
    }
}

// ── The morning close ───────────────────────────────────────────────────────────────────────────

// Whether the buyer's free money and the deposit reach full.
fn has_money(free: Fen, full: Fen) -> bool
    requires { free.0 ≤ money_limit }
    ensures { result ≡ leb full.0 (free.0 + deposit.0) }
{
    full <= free + units::deposit_per_receipt()
}

// In these three, n and f stay beside the image: a struct of them would have to keep `Due`, which the first write ends.

// Paid in full, the receipt is the buyer's; without the money the deposit passes.
fn close_lodged(image: &mut [u8], n: u8, f: Record) -> Entry
    requires { Due n image.old f × (f.state ≡ 4) }
    ensures { Closed 11 n image.old image.new (Some result) }
{
    let k = usize::from(n - 1);
    let full = validity::full_of(f);
    let held = units::deposit_per_receipt();
    if has_money(lots::free_of(image, f.buyer), full) {
        put::receipt_record(image, k, settled_record(f));
        events::money::release_to(image, f.buyer, held);
        events::money::freeze_from(image, f.buyer, full);
        return rules::by_buyer(n, Outcome::Settled as u8, f, full.0 as u32);
    }
    put::receipt_record(image, k, idle_record(f));
    events::money::release_to(image, f.buyer, held);
    events::money::debit_from(image, f.buyer, held);
    events::money::credit_to(image, f.seller, held);
    rules::by_buyer(n, Outcome::BuyerDefault as u8, f, PER_RECEIPT as u32)
}

// The deposit is free again. The seller owes the penalty from tomorrow on, or both have defaulted.
fn close_struck(image: &mut [u8], n: u8, f: Record) -> Entry
    requires { Due n image.old f × (f.state ≡ 3) }
    ensures { Closed 11 n image.old image.new (Some result) }
{
    let k = usize::from(n - 1);
    let tomorrow = image::day_in(image) + 1;
    let held = units::deposit_per_receipt();
    if has_money(lots::free_of(image, f.buyer), validity::full_of(f)) {
        put::receipt_record(image, k, penalty_record(f, tomorrow));
        events::money::release_to(image, f.buyer, held);
        return rules::by_seller(n, Outcome::SellerDefault as u8, f, 0);
    }
    put::receipt_record(image, k, idle_record(f));
    events::money::release_to(image, f.buyer, held);
    rules::by_buyer(n, Outcome::BothDefaulted as u8, f, 0)
}

// The penalty, as far as the seller's free money goes.
fn close_penalty(image: &mut [u8], n: u8, f: Record) -> Entry
    requires { Due n image.old f × (f.state ≡ 7) }
    ensures { Closed 11 n image.old image.new (Some result) }
{
    let k = usize::from(n - 1);
    let passed = units::penalty_passed(lots::free_of(image, f.seller));
    put::receipt_record(image, k, idle_record(f));
    events::money::debit_from(image, f.seller, passed);
    events::money::credit_to(image, f.buyer, passed);
    rules::by_seller(n, Outcome::Penalty as u8, f, passed.0 as u32)
}

// A lot of state 3, 4 or 7, on its due day or later.
pub fn close_lot(image: &mut [u8], n: u8) -> Option<Entry>
    requires { Visited n image.old }
    ensures { Closed 11 n image.old image.new result }
{
    let f = image::record_at(image, usize::from(n - 1));
    if image::day_in(image) < f.due {
        return None;
    }
    // The record is valid, so that its number is a state's; one that were none has no event.
    let Ok(state) = State::try_from(f.state) else {
        return None;
    };
    match state {
        State::Lodged => Some(close_lodged(image, n, f)),
        State::Struck => Some(close_struck(image, n, f)),
        State::PenaltyDue => Some(close_penalty(image, n, f)),
        _ => None,
    }
}

// ── The day close ───────────────────────────────────────────────────────────────────────────────

// A listing ends, with the bid that stands on it. Where none stands the buyer is nobody, from whom nothing is freed.
pub fn end_offer(image: &mut [u8], n: u8) -> Option<Entry>
    requires { Visited n image.old }
    ensures { Closed 15 n image.old image.new result }
{
    let k = usize::from(n - 1);
    let f = image::record_at(image, k);
    let Ok(state) = State::try_from(f.state) else {
        return None;
    };
    let frozen = match state {
        State::Listed => Fen(0),
        State::BidStands => units::deposit_per_receipt(),
        _ => return None,
    };
    put::receipt_record(image, k, idle_record(f));
    events::money::release_to(image, f.buyer, frozen);
    Some(rules::by_owner(n, Outcome::Ended as u8, f.seller))
}
