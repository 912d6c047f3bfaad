// The fields of a call that its kind uses: the others are zero, these are in their ranges.
#![tactic(auto)]

ghost use Rattle.std.specs.Prelude.{[], ◌&&◌, ◌≡◌, eqb};
ghost use Rattle.units.specs.Ranges.{is_zero, is_account, is_receipt};
ghost use Rattle.rules.specs.Kinds.{kind_number};
ghost use Rattle.rules.specs.Numbers.{brackets, unused_zero, in_range, values};

use rules::{Call, Kind};

// Contract, D, basis and weight, which only listings, quotes and registrations use, are zero.
fn no_terms(c: Call) -> bool
    ensures { result ≡ eqb c.contract 0 && eqb c.days 0 && is_zero c.basis && eqb c.weight 0 }
{
    (c.contract == 0) & (c.days == 0) & units::is_zero(c.basis) & (c.weight == 0)
}

// Each field but the spare bytes is zero.
#[tactic(auto, using(crate::proofs::UsedFields::zeros_unused))]
fn none_named(c: Call) -> bool
    ensures { result && eqb c.spare 0 ≡ unused_zero [] 0 (values c) }
{
    no_terms(c) & (c.account == 0) & (c.receipt == 0) & (c.amount == 0)
}

// Each field but the spare bytes is used or zero, by the rows of `brackets`.
#[tactic(auto, using(crate::proofs::UsedFields::zeros_unused))]
fn named_zero(kind: Kind, c: Call) -> bool
    ensures { result && eqb c.spare 0 ≡ unused_zero (brackets (kind_number kind)) 0 (values c) }
{
    match kind {
        Kind::PayIn | Kind::TakeOut => no_terms(c) & (c.receipt == 0),
        Kind::Register => (c.contract == 0) & (c.days == 0) & (c.amount == 0),
        Kind::List => (c.weight == 0) & (c.amount == 0),
        Kind::WithdrawListing
        | Kind::MarketBid
        | Kind::WithdrawBid
        | Kind::Lodge
        | Kind::FirstPayment
        | Kind::Confirm => no_terms(c) & (c.amount == 0),
        Kind::LimitBid | Kind::Invoice => no_terms(c),
        Kind::Quote => {
            (c.days == 0)
                & units::is_zero(c.basis)
                & (c.weight == 0)
                & (c.account == 0)
                & (c.receipt == 0)
        }
        Kind::MorningClose | Kind::DayClose => none_named(c),
    }
}

// Each field is used or zero; the spare bytes are in no row, and a number that is no kind uses no field.
pub fn unused_zero(c: Call) -> bool
    ensures { result ≡ unused_zero (brackets c.kind) 0 (values c) }
{
    let named = match Kind::try_from(c.kind) {
        Ok(kind) => named_zero(kind, c),
        Err(_) => none_named(c),
    };
    named & (c.spare == 0)
}

// Account and receipt are in their ranges.
fn names_lot(c: Call) -> bool
    ensures { result ≡ is_account c.account && is_receipt c.receipt }
{
    units::is_account(c.account) & units::is_receipt(c.receipt)
}

// The fields that a kind uses are in their ranges, by the same rows.
fn ranges_of(kind: Kind, c: Call) -> bool
    ensures { result ≡ in_range (brackets (kind_number kind)) (values c) }
{
    let amount = c.amount;
    match kind {
        Kind::PayIn | Kind::TakeOut => units::is_account(c.account) & units::is_amount(amount),
        Kind::Register => names_lot(c) & units::is_premium(c.basis) & units::is_weight(c.weight),
        Kind::List => {
            names_lot(c)
                & units::is_contract(c.contract)
                & units::is_days(c.days)
                & units::is_basis(c.basis)
        }
        Kind::WithdrawListing
        | Kind::MarketBid
        | Kind::WithdrawBid
        | Kind::Lodge
        | Kind::FirstPayment
        | Kind::Confirm => names_lot(c),
        Kind::LimitBid => names_lot(c) & units::is_price(amount),
        Kind::Quote => units::is_contract(c.contract) & units::is_ask(amount),
        Kind::Invoice => names_lot(c) & units::is_amount(amount),
        Kind::MorningClose | Kind::DayClose => true,
    }
}

// The fields that the kind uses are in their ranges; a number that is no kind uses none.
pub fn in_range(c: Call) -> bool
    ensures { result ≡ in_range (brackets c.kind) (values c) }
{
    match Kind::try_from(c.kind) {
        Ok(kind) => ranges_of(kind, c),
        Err(_) => true,
    }
}
