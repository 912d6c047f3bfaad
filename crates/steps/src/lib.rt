// The outcome of a call at the receipt that it names: a refusal, or what the rule of its kind does there.
#![tactic(auto)]

ghost use Rattle.std.specs.Prelude.{true, ◌≡◌};
ghost use Rattle.rules.specs.Effects.{rule_of, sweeps};
ghost use Rattle.rules.specs.Kinds.{kind_number};
ghost use Rattle.rules.specs.Ready.{Ready, ReadyCall};
ghost use Rattle.rules.specs.Steps.{step_at, told};

use rules::{Call, Event, Kind, Refusal, View};
use zone::Record;

// What a call does at the receipt that it names, by its kind. Pay-ins and take-outs concern no lot. Nor does a quote or a close name one:
// what these do at all lots they do in the image (`visits`).
#[tactic(auto, unfolding(rules::specs::Effects::rule_of, rules::specs::Effects::no_rule, rules::specs::Effects::withdraw_listing, rules::specs::Effects::quote_lot, rules::specs::Effects::day_close_lot), using(rules::specs::Laws::Trades::close_none))]
fn rule_of(kind: Kind, v: View, c: Call, n: u8, f: Record) -> Option<Event>
    requires kind { c.kind ≡ kind_number kind }
    requires ready { Ready v f }
    requires tested { ReadyCall c f }
    requires idle { sweeps (kind_number kind) ≡ true → f.state ≡ 0 }
    ensures { result ≡ rule_of (kind_number kind) v c n f }
{
    match kind {
        Kind::Register => Some(offers::register_at(c, n)),
        Kind::List => Some(offers::list_at(c, n, f)),
        Kind::WithdrawListing => Some(offers::end_listing(n, f)),
        Kind::LimitBid => Some(offers::limit_bid(v, c, n, f)),
        Kind::MarketBid => Some(offers::market_bid(v, c, n, f)),
        Kind::WithdrawBid => Some(offers::withdraw_bid(n, f)),
        Kind::Lodge => Some(trades::lodge_at(n, f)),
        Kind::FirstPayment => Some(trades::pay_first(n, f)),
        Kind::Invoice => Some(trades::invoice_at(c, n, f)),
        Kind::Confirm => Some(trades::confirm_at(n, f)),
        Kind::PayIn | Kind::TakeOut | Kind::Quote | Kind::MorningClose | Kind::DayClose => None,
    }
}

// The outcome at f, the record of the receipt that the call names. Receipt 0 is none, and its record is idle.
pub fn step_at(v: View, c: Call, f: Record) -> Result<Option<Event>, Refusal>
    requires { Ready v f × (c.receipt ≡ 0 → f.state ≡ 0) }
    ensures { told result ≡ step_at v c f }
{
    let kind = numbers::judge(v, c, f)?;
    Ok(rule_of(kind, v, c, c.receipt, f))
}
