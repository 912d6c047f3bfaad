// The number of a call: the first of 3 to 13 that applies, or none.
#![tactic(auto)]

ghost use Rattle.std.specs.Prelude.{true, false, ◌≡◌, ◌≤◌, ◌<◌, ◌^◌};
ghost use Rattle.std.specs.Result.{IfOk, MatchResult};
ghost use Rattle.units.specs.Ranges.{is_amount, most_price, money_limit};
ghost use Rattle.zone.specs.Held.{held_from};
ghost use Rattle.zone.specs.Valid.{record_valid};
ghost use Rattle.rules.specs.declared.Refusal.TheVariants.{BadCall};
ghost use Rattle.rules.specs.Kinds.{kind_number, refusal_number};
ghost use Rattle.rules.specs.Numbers.{ill_formed, out_of_range, wrong_phase, wrong_state, wrong_party, not_above, lacks_ask, not_payable, lacks_money, above_limit, above_invoice, first_number};
ghost use Rattle.rules.specs.Ready.{Ready};

use rules::{Call, Kind, Refusal, View};
use units::{Fen, LAST_DAY, MONEY_LIMIT, YuanPerTonne};
use zone::{Record, State};

// A call with its kind read.
#[derive(Clone, Copy)]
struct KnownCall {
    kind: Kind,
    call: Call,
    ghost same: { call.kind ≡ kind_number kind },
}

// ── One test for each number ────────────────────────────────────────────────────────────────────

// Number 3, or the call with its kind.
#[tactic(auto, unfolding(rules::specs::Numbers::ill_formed), using(rules::specs::Laws::Numbered::is_kind, rules::specs::Laws::Numbered::read_within, rules::specs::Laws::Numbered::unread_outside))]
fn well_formed(c: Call) -> Result<KnownCall, Refusal>
    ensures { MatchResult result (λ known. (known.call ≡ c) × (ill_formed c ≡ false)) (λ refusal. (refusal ≡ BadCall) × (ill_formed c ≡ true)) }
{
    let kind = Kind::try_from(c.kind)?;
    if !fields::unused_zero(c) {
        return Err(Refusal::BadCall);
    }
    Ok(KnownCall { kind, call: c })
}

#[tactic(auto, unfolding(rules::specs::Numbers::out_of_range))]
fn out_of_range(c: KnownCall) -> bool
    ensures { result ≡ out_of_range c.call }
{
    !fields::in_range(c.call)
}

#[tactic(auto, unfolding(rules::specs::Numbers::wrong_phase))]
fn wrong_phase(v: View, c: KnownCall) -> bool
    ensures { result ≡ wrong_phase v c.call }
{
    match c.kind {
        Kind::MorningClose => v.afternoon,
        Kind::DayClose => !v.afternoon | (v.day == LAST_DAY),
        _ => false,
    }
}

// The kind names a state, and the receipt is not in it.
#[tactic(auto, unfolding(rules::specs::Numbers::wrong_state))]
fn wrong_state(c: KnownCall, f: Record) -> bool
    ensures { result ≡ wrong_state c.call f }
{
    let state = f.state;
    let registered = f.owner != 0;
    let pending = f.pending.0 != 0;
    match c.kind {
        Kind::Register => registered,
        Kind::List => !((state == State::Idle as u8) & registered),
        Kind::WithdrawListing | Kind::LimitBid | Kind::MarketBid => {
            !((state == State::Listed as u8) | (state == State::BidStands as u8))
        }
        Kind::WithdrawBid => state != State::BidStands as u8,
        Kind::Lodge => state != State::Struck as u8,
        Kind::FirstPayment => state != State::Settled as u8,
        Kind::Invoice => !((state == State::FirstPaid as u8) & !pending),
        Kind::Confirm => !((state == State::FirstPaid as u8) & pending),
        _ => false,
    }
}

// The kind names a party, and the caller is another.
#[tactic(auto, unfolding(rules::specs::Numbers::wrong_party))]
fn wrong_party(c: KnownCall, f: Record) -> bool
    ensures { result ≡ wrong_party c.call f }
{
    let caller = c.call.account;
    match c.kind {
        Kind::List => caller != f.owner,
        Kind::WithdrawListing | Kind::Lodge | Kind::FirstPayment | Kind::Invoice => {
            caller != f.seller
        }
        Kind::WithdrawBid | Kind::Confirm => caller != f.buyer,
        Kind::LimitBid | Kind::MarketBid => caller == f.seller,
        _ => false,
    }
}

#[tactic(auto, unfolding(rules::specs::Numbers::not_above))]
fn not_above(c: KnownCall, f: Record) -> bool
    ensures { result ≡ not_above c.call f }
{
    match c.kind {
        Kind::LimitBid => c.call.amount <= u64::from(f.price.0),
        _ => false,
    }
}

#[tactic(auto, unfolding(rules::specs::Numbers::lacks_ask))]
fn lacks_ask(v: View, c: KnownCall) -> bool
    ensures { result ≡ lacks_ask v c.call }
{
    match c.kind {
        Kind::MarketBid => v.ask.0 == 0,
        _ => false,
    }
}

#[tactic(auto, unfolding(rules::specs::Numbers::not_payable))]
fn not_payable(v: View, c: KnownCall, f: Record) -> bool
    requires { c.call.kind ≡ 6 → c.call.amount ≤ most_price }
    ensures { result ≡ not_payable v c.call f }
{
    match c.kind {
        Kind::LimitBid => {
            let price = YuanPerTonne(c.call.amount as u32);
            !units::is_payable(price, f.basis, f.premium)
        }
        Kind::MarketBid => !units::is_payable(v.ask, f.basis, f.premium),
        _ => false,
    }
}

// What the lot holds from an account.
fn held_from(a: u8, f: Record) -> Fen
    requires { record_valid f ≡ true }
    ensures { (result.0 ≡ held_from a f) × (result.0 < 2 ^ 32) }
{
    let held = validity::hold_of(f);
    if a == held.from { held.fen } else { Fen(0) }
}

#[tactic(auto, unfolding(rules::specs::Numbers::lacks_money))]
fn lacks_money(v: View, c: KnownCall, f: Record) -> bool
    requires { Ready v f }
    ensures { result ≡ lacks_money v c.call f }
{
    let free = v.free.caller;
    match c.kind {
        Kind::TakeOut => free < Fen(c.call.amount),
        Kind::LimitBid | Kind::MarketBid => {
            free + held_from(c.call.account, f) < units::deposit_per_receipt()
        }
        _ => false,
    }
}

#[tactic(auto, unfolding(rules::specs::Numbers::above_limit))]
fn above_limit(v: View, c: KnownCall) -> bool
    requires total { v.total.0 ≤ money_limit }
    requires amount { c.call.kind ≡ 1 → is_amount c.call.amount ≡ true }
    ensures { result ≡ above_limit v c.call }
{
    match c.kind {
        Kind::PayIn => MONEY_LIMIT < v.total.0 + c.call.amount,
        _ => false,
    }
}

#[tactic(auto, unfolding(rules::specs::Numbers::above_invoice))]
fn above_invoice(c: KnownCall, f: Record) -> bool
    requires valid { record_valid f ≡ true }
    requires amount { c.call.kind ≡ 13 → is_amount c.call.amount ≡ true }
    ensures { result ≡ above_invoice c.call f }
{
    match c.kind {
        Kind::Invoice => validity::full_of(f).0 < f.confirmed.0 + c.call.amount,
        _ => false,
    }
}

// The kind of a call that none of the numbers refuses.
#[tactic(auto, unfolding(rules::specs::Numbers::first_number))]
pub fn judge(v: View, c: Call, f: Record) -> Result<Kind, Refusal>
    requires { Ready v f }
    ensures number { MatchResult result (λ kind. first_number v c f ≡ 0) (λ refusal. first_number v c f ≡ refusal_number refusal) }
    ensures kind { IfOk result (λ kind. c.kind ≡ kind_number kind) }
{
    let known = well_formed(c)?;
    if out_of_range(known) {
        return Err(Refusal::OutOfRange);
    }
    if wrong_phase(v, known) {
        return Err(Refusal::WrongPhase);
    }
    if wrong_state(known, f) {
        return Err(Refusal::WrongState);
    }
    if wrong_party(known, f) {
        return Err(Refusal::WrongParty);
    }
    if not_above(known, f) {
        return Err(Refusal::NotAbove);
    }
    if lacks_ask(v, known) {
        return Err(Refusal::NoAsk);
    }
    if not_payable(v, known, f) {
        return Err(Refusal::NothingToPay);
    }
    if lacks_money(v, known, f) {
        return Err(Refusal::NoMoney);
    }
    if above_limit(v, known) {
        return Err(Refusal::OverLimit);
    }
    if above_invoice(known, f) {
        return Err(Refusal::OverInvoice);
    }
    Ok(known.kind)
}
