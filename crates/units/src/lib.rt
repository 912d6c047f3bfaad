// Yuan per tonne, fen and kilograms as types, the ranges of numbers, and the money of a trade.
#![tactic(auto)]

ghost use Rattle.std.specs.Prelude.{◌≡◌, ◌+◌, ◌-◌, ◌≤◌, ◌<◌, ◌^◌, eqb};
ghost use Rattle.units.specs.Ranges.{within, is_zero, is_account, is_receipt, is_contract, is_days, is_price, is_ask, most_weight, is_basis, is_premium, is_weight, is_amount};
ghost use Rattle.units.specs.Payments.{fen, unit_price, at_least_0, payable, full_payment, first_payment, rest_payment, paid_so_far, part_payment, deposit, penalty_passed};

use std::ops::{Add, Sub};

// A price: whole yuan per tonne.
#[derive(Clone, Copy, PartialEq, Eq, PartialOrd, Ord)]
pub struct YuanPerTonne(pub u32);

// What a listing adds to the price of its reference contract: whole yuan per tonne, of either sign.
#[derive(Clone, Copy, PartialEq, Eq, PartialOrd, Ord)]
pub struct Basis(pub i32);

// What a receipt adds to the price for the grade of its bales, in every sale: whole yuan per tonne, of either sign.
#[derive(Clone, Copy, PartialEq, Eq, PartialOrd, Ord)]
pub struct Premium(pub i32);

// Money: whole fen.
#[derive(Clone, Copy, PartialEq, Eq, PartialOrd, Ord)]
pub struct Fen(pub u64);

impl Add for Fen {
    type Output = Fen;

    ghost can_add = { λ a b. a.0 + b.0 < 2 ^ 64 };

    ghost add_gives = { λ a b sum. sum ≡ fen (a.0 + b.0) };

    fn add(self, more: Fen) -> Fen {
        Fen(self.0 + more.0)
    }
}

impl Sub for Fen {
    type Output = Fen;

    ghost can_sub = { λ a b. b.0 ≤ a.0 };

    ghost sub_gives = { λ a b rest. rest ≡ fen (a.0 - b.0) };

    fn sub(self, taken: Fen) -> Fen {
        Fen(self.0 - taken.0)
    }
}

// Weight.
#[derive(Clone, Copy, PartialEq, Eq, PartialOrd, Ord)]
pub struct Kilograms(pub u32);

// ── Counts and limits ───────────────────────────────────────────────────────────────────────────

pub const ACCOUNTS: usize = 96;

pub const RECEIPTS: usize = 128;

pub const CONTRACTS: usize = 8;

pub const LAST_DAY: u16 = 30000;

pub const LAST_DUE: u16 = 30003;

// Fen: all money of a zone, and what a deposit and a penalty are for each receipt.
pub const MONEY_LIMIT: u64 = 1000000000000000;

pub const PER_RECEIPT: u64 = 5000000;

// ── Ranges ──────────────────────────────────────────────────────────────────────────────────────

pub fn is_zero(x: i32) -> bool
    ensures { result ≡ is_zero x }
{
    x == 0
}

// Accounts, receipts and contracts have numbers from 1 on.
fn counts_to(last: usize, n: u8) -> bool
    ensures { result ≡ within 1 last n }
{
    (1..=last).contains(&usize::from(n))
}

pub fn is_account(n: u8) -> bool
    ensures { result ≡ is_account n }
{
    counts_to(ACCOUNTS, n)
}

pub fn is_receipt(n: u8) -> bool
    ensures { result ≡ is_receipt n }
{
    counts_to(RECEIPTS, n)
}

pub fn is_contract(n: u8) -> bool
    ensures { result ≡ is_contract n }
{
    counts_to(CONTRACTS, n)
}

pub fn is_days(n: u8) -> bool
    ensures { result ≡ is_days n }
{
    n <= 3
}

// Whether a number as it came is a price, on the whole u64.
pub fn is_price(x: u64) -> bool
    ensures { result ≡ is_price x }
{
    (5..=200000).contains(&x) & (x % 5 == 0)
}

// None, or a price.
pub fn is_ask(x: u64) -> bool
    ensures { result ≡ is_ask x }
{
    (x == 0) | is_price(x)
}

// A basis and a premium differ in a limit alone: one function of it would be as long as both.
pub fn is_basis(x: i32) -> bool
    ensures { result ≡ is_basis x }
{
    (-50000..=50000).contains(&x)
}

pub fn is_premium(x: i32) -> bool
    ensures { result ≡ is_premium x }
{
    (-5000..=5000).contains(&x)
}

pub fn is_weight(x: u32) -> bool
    ensures { result ≡ is_weight x }
{
    (1000..=60000).contains(&x)
}

pub fn is_amount(x: u64) -> bool
    ensures { result ≡ is_amount x }
{
    (1..=1000000000000).contains(&x)
}

// ── The money of a trade ────────────────────────────────────────────────────────────────────────

// Price, basis and premium stay three parameters, and so do full, confirmed and paid: the definitions of specs/ are functions of three. That
// full is below 2^32 stands at each of five: a type for it would ask more of callers.

// price + basis + premium: at 64 bits the sum never wraps.
#[tactic(auto, unfolding(crate::specs::Payments::unit_price))]
fn unit_price(price: YuanPerTonne, basis: Basis, premium: Premium) -> i64
    ensures { result ≡ unit_price price basis premium }
{
    i64::from(price.0) + i64::from(basis.0) + i64::from(premium.0)
}

// The sum as an unsigned number. No valid trade has a sum below 0; here it counts as 0.
#[tactic(auto, using(crate::proofs::SignedSums::natural, crate::proofs::SignedSums::unit_small))]
fn price_to_pay(price: YuanPerTonne, basis: Basis, premium: Premium) -> u64
    ensures { (result ≡ at_least_0 (unit_price price basis premium)) × (result < 2 ^ 33) }
{
    unit_price(price, basis, premium).max(0).cast_unsigned()
}

// Whether a trade at this price has anything to pay: the sum is at least 1.
#[tactic(auto, unfolding(crate::specs::Payments::payable))]
pub fn is_payable(price: YuanPerTonne, basis: Basis, premium: Premium) -> bool
    ensures { result ≡ payable price basis premium }
{
    1 <= unit_price(price, basis, premium)
}

#[tactic(auto, unfolding(crate::specs::Payments::full_payment))]
pub fn full_payment(price: YuanPerTonne, basis: Basis, premium: Premium, weight: Kilograms) -> Fen
    requires { weight.0 ≤ most_weight }
    ensures { result ≡ full_payment price basis premium weight }
{
    Fen((price_to_pay(price, basis, premium) * u64::from(weight.0) + 5) / 10)
}

#[tactic(auto, unfolding(crate::specs::Payments::first_payment))]
pub fn first_payment(full: Fen) -> Fen
    requires { full.0 < 2 ^ 32 }
    ensures { result ≡ first_payment full }
{
    Fen(full.0 * 80 / 100)
}

#[tactic(auto, using(crate::specs::Laws::Bounds::first_le), unfolding(crate::specs::Payments::rest_payment))]
pub fn rest_payment(full: Fen) -> Fen
    requires { full.0 < 2 ^ 32 }
    ensures { result ≡ rest_payment full }
{
    full - first_payment(full)
}

// Of the rest, what invoices confirmed up to this sum have been paid together.
#[tactic(auto, using(crate::specs::Laws::Bounds::rest_le), unfolding(crate::specs::Payments::paid_so_far))]
pub fn paid_so_far(full: Fen, confirmed: Fen) -> Fen
    requires { (full.0 < 2 ^ 32) × (0 < full.0) × (confirmed.0 ≤ full.0) }
    ensures { result ≡ paid_so_far full confirmed }
{
    Fen(rest_payment(full).0 * confirmed.0 / full.0)
}

// Whether `paid` is what invoices confirmed up to this sum have been paid. Products are compared, because they cost less than a division.
#[tactic(auto, using(crate::specs::Laws::Bounds::rest_le, crate::proofs::Shares::product_fits, crate::proofs::Shares::above_rest, crate::proofs::Shares::by_products), unfolding(crate::specs::Payments::paid_so_far))]
pub fn is_paid_so_far(full: Fen, confirmed: Fen, paid: Fen) -> bool
    requires { (full.0 < 2 ^ 32) × (confirmed.0 < full.0) }
    ensures { result ≡ eqb paid.0 (paid_so_far full confirmed).0 }
{
    let rest = rest_payment(full);
    if rest < paid {
        return false;
    }
    let product = rest.0 * confirmed.0;
    let lower = paid.0 * full.0;
    (lower..lower + full.0).contains(&product)
}

// What the confirmation of an invoice pays, where `confirmed` and `paid` stand before it.
#[tactic(auto, using(crate::specs::Laws::Bounds::so_far_up), unfolding(crate::specs::Payments::part_payment))]
pub fn part_payment(full: Fen, confirmed: Fen, paid: Fen, invoice: Fen) -> Fen
    requires { (full.0 < 2 ^ 32) × (0 < invoice.0) × (confirmed.0 + invoice.0 ≤ full.0) × (paid.0 ≡ (paid_so_far full confirmed).0) }
    ensures { result ≡ part_payment full confirmed paid invoice }
{
    paid_so_far(full, confirmed + invoice) - paid
}

// Frozen from the buyer for each receipt bid on.
pub fn deposit_per_receipt() -> Fen
    ensures { result ≡ deposit }
{
    Fen(PER_RECEIPT)
}

// Of the penalty a seller owes, what its free money can pay.
#[tactic(auto, unfolding(crate::specs::Payments::penalty_passed))]
pub fn penalty_passed(free: Fen) -> Fen
    ensures { result ≡ penalty_passed free }
{
    free.min(Fen(PER_RECEIPT))
}
