// When a record is valid, and what its lot holds.
#![tactic(auto)]

ghost use Rattle.std.specs.Prelude.{◌≡◌, true, ◌≤◌};
ghost use Rattle.units.specs.Ranges.{most_weight};
ghost use Rattle.zone.specs.Held.{full, held, hold_of};
ghost use Rattle.zone.specs.State.{state_number};
ghost use Rattle.zone.specs.Valid.{invoices_within, no_invoices_ok, fields_ok, record_valid, ask_ok};
ghost use Rattle.validity.specs.ByState.{kept_ok, listing_fits, listing_zero, bid_fits, bid_zero, due_fits, buyer_fits};

use units::{Fen, LAST_DUE, YuanPerTonne};
use zone::{Hold, Record, State};

// ── Fields ──────────────────────────────────────────────────────────────────────────────────────

// State, owner, weight and premium, which every registered receipt has. The numbers up to the last state's are the states': tested so,
// nothing branches.
pub fn kept_ok(r: Record) -> bool
    ensures { result ≡ kept_ok r }
{
    (r.state <= State::PenaltyDue as u8)
        & units::is_account(r.owner)
        & units::is_weight(r.weight.0)
        & units::is_premium(r.premium.0)
}

// Seller, contract, D and basis are a listing's.
fn listing_fits(r: Record) -> bool
    ensures { result ≡ listing_fits r }
{
    units::is_account(r.seller)
        & units::is_contract(r.contract)
        & units::is_days(r.days)
        & units::is_basis(r.basis.0)
}

fn listing_is_zero(r: Record) -> bool
    ensures { result ≡ listing_zero r }
{
    (r.contract == 0) & (r.days == 0) & units::is_zero(r.basis.0)
}

// Buyer and price are a bid's.
fn bid_fits(r: Record) -> bool
    ensures { result ≡ bid_fits r }
{
    units::is_account(r.buyer)
        & units::is_price(u64::from(r.price.0))
        & (r.buyer != r.seller)
        & units::is_payable(r.price, r.basis, r.premium)
}

fn bid_is_zero(r: Record) -> bool
    ensures { result ≡ bid_zero r }
{
    (r.buyer == 0) & (r.price.0 == 0)
}

fn due_fits(r: Record) -> bool
    ensures { result ≡ due_fits r }
{
    (1..=LAST_DUE).contains(&r.due)
}

// The buyer to whom a penalty is due; the trade's price is gone.
fn buyer_fits(r: Record) -> bool
    ensures { result ≡ buyer_fits r }
{
    units::is_account(r.buyer) & (r.price.0 == 0) & (r.buyer != r.seller)
}

#[tactic(auto, unfolding(zone::specs::Valid::no_invoices_ok))]
fn no_invoices_ok(r: Record) -> bool
    ensures { result ≡ no_invoices_ok r }
{
    (r.pending.0 == 0) & (r.confirmed.0 == 0) & (r.paid.0 == 0)
}

#[tactic(auto, unfolding(zone::specs::Held::full))]
pub fn full_of(r: Record) -> Fen
    requires { r.weight.0 ≤ most_weight }
    ensures { result ≡ full r }
{
    units::full_payment(r.price, r.basis, r.premium, r.weight)
}

// The tests go in an order in which no difference falls below 0.
#[tactic(auto, using(crate::proofs::Money::weight_in, crate::proofs::Money::full_in), unfolding(zone::specs::Valid::invoices_within))]
fn invoices_within(r: Record) -> bool
    requires { (r.state ≡ 6) × (fields_ok r ≡ true) }
    ensures { result ≡ invoices_within r }
{
    let full = full_of(r);
    r.confirmed < full
        && r.pending <= full - r.confirmed
        && units::is_paid_so_far(full, r.confirmed, r.paid)
}

// ── One record, by its state ────────────────────────────────────────────────────────────────────

// Each of these judges a record in its state that `kept_ok` has passed. They are apart so that whoever reads a record out of an image
// reads, once it knows the state, only the fields that the state's tests need. They take the record itself, as `verdict` has it: a type
// for one that `kept_ok` has passed would ask more of callers.

#[tactic(auto, using(crate::proofs::ByState::idle, crate::proofs::ByState::judged))]
pub fn idle_ok(r: Record) -> bool
    requires { (kept_ok r ≡ true) × (r.state ≡ 0) }
    ensures { result ≡ record_valid r }
{
    (r.seller == 0) & listing_is_zero(r) & bid_is_zero(r) & (r.due == 0) & no_invoices_ok(r)
}

#[tactic(auto, using(crate::proofs::ByState::listed, crate::proofs::ByState::judged))]
pub fn listed_ok(r: Record) -> bool
    requires { (kept_ok r ≡ true) × (r.state ≡ 1) }
    ensures { result ≡ record_valid r }
{
    listing_fits(r) & bid_is_zero(r) & (r.due == 0) & (r.owner == r.seller) & no_invoices_ok(r)
}

#[tactic(auto, using(crate::proofs::ByState::standing, crate::proofs::ByState::judged))]
pub fn bid_stands_ok(r: Record) -> bool
    requires { (kept_ok r ≡ true) × (r.state ≡ 2) }
    ensures { result ≡ record_valid r }
{
    listing_fits(r) & bid_fits(r) & (r.due == 0) & (r.owner == r.seller) & no_invoices_ok(r)
}

// Struck, or lodged.
#[tactic(auto, using(crate::proofs::ByState::struck, crate::proofs::ByState::judged))]
pub fn struck_ok(r: Record) -> bool
    requires { (kept_ok r ≡ true) × (3 ≤ r.state) × (r.state ≤ 4) }
    ensures { result ≡ record_valid r }
{
    listing_fits(r) & bid_fits(r) & due_fits(r) & (r.owner == r.seller) & no_invoices_ok(r)
}

#[tactic(auto, using(crate::proofs::ByState::bought, crate::proofs::ByState::judged))]
pub fn settled_ok(r: Record) -> bool
    requires { (kept_ok r ≡ true) × (r.state ≡ 5) }
    ensures { result ≡ record_valid r }
{
    listing_fits(r) & bid_fits(r) & due_fits(r) & (r.owner == r.buyer) & no_invoices_ok(r)
}

// The invoices last: the full payment that they are tested against is that of a price which can be paid.
#[tactic(auto, using(crate::proofs::ByState::bought, crate::proofs::ByState::fields_decide, crate::proofs::ByState::tests_decide), unfolding(zone::specs::Valid::invoices_ok))]
pub fn first_paid_ok(r: Record) -> bool
    requires { (kept_ok r ≡ true) × (r.state ≡ 6) }
    ensures { result ≡ record_valid r }
{
    (listing_fits(r) & bid_fits(r) & due_fits(r) & (r.owner == r.buyer)) && invoices_within(r)
}

#[tactic(auto, using(crate::proofs::ByState::owing, crate::proofs::ByState::judged))]
pub fn penalty_due_ok(r: Record) -> bool
    requires { (kept_ok r ≡ true) × (r.state ≡ 7) }
    ensures { result ≡ record_valid r }
{
    units::is_account(r.seller)
        & listing_is_zero(r)
        & buyer_fits(r)
        & due_fits(r)
        & (r.owner == r.seller)
        & no_invoices_ok(r)
}

#[tactic(auto, unfolding(zone::specs::Valid::ask_ok))]
pub fn ask_ok(ask: YuanPerTonne) -> bool
    ensures { result ≡ ask_ok ask }
{
    units::is_ask(u64::from(ask.0))
}

// ── What a lot holds ────────────────────────────────────────────────────────────────────────────

// After the first payment the record has what was paid since, so that nothing is divided again. The tests are those of the definition, by the
// state's number.
#[tactic(auto, using(crate::proofs::Money::weight_valid, crate::proofs::Money::full_valid, crate::proofs::Money::paid_valid, crate::proofs::Money::paid_as_due), unfolding(zone::specs::Held::held))]
fn held(r: Record) -> Fen
    requires { record_valid r ≡ true }
    ensures { result ≡ held r }
{
    let state = r.state;
    if (State::BidStands as u8..=State::Lodged as u8).contains(&state) {
        units::deposit_per_receipt()
    } else if state == State::Settled as u8 {
        full_of(r)
    } else if state == State::FirstPaid as u8 {
        units::rest_payment(full_of(r)) - r.paid
    } else {
        Fen(0)
    }
}

pub fn hold_of(r: Record) -> Hold
    requires { record_valid r ≡ true }
    ensures { result ≡ hold_of r }
{
    Hold {
        from: r.buyer,
        fen: held(r),
    }
}
