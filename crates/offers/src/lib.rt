// The code of the rules of registration, listings and bids. View, call, lot and record go one by one, as the rules of specs/ are functions of
// them.
#![tactic(auto)]

ghost use Rattle.std.specs.Prelude.{◌≡◌, ◌≤◌, Some};
ghost use Rattle.units.specs.Ranges.{most_price, last_day, most_days};
ghost use Rattle.zone.specs.Record.{record_of, bid_of};
ghost use Rattle.rules.specs.Effects.{due_day, bid_stands, struck_receipt, bid_struck, meets_ask, register, list_for, listing_ended, limit_bid, market_bid, withdraw_bid, quote_meets};
ghost use Rattle.rules.specs.Kinds.{outcome_number};
ghost use Rattle.rules.specs.Ready.{Ready};

use rules::{Call, Entry, Event, Outcome, View};
use units::{Basis, Fen, Kilograms, Premium, YuanPerTonne};
use zone::{Bid, Listing, Lot, Receipt, Record, State, Trade};

// ── Registration and listings ───────────────────────────────────────────────────────────────────

// A registration has the premium in the field of the basis.
#[tactic(auto, unfolding(rules::specs::Effects::register))]
pub fn register_at(c: Call, n: u8) -> Event
    ensures { Some result ≡ register c n }
{
    Event {
        entry: rules::by_owner(n, Outcome::Registered as u8, c.account),
        receipt: Receipt {
            owner: c.account,
            weight: Kilograms(c.weight),
            premium: Premium(c.basis),
            lot: Lot::Idle,
        },
    }
}

#[tactic(auto, unfolding(rules::specs::Effects::list_for))]
pub fn list_at(c: Call, n: u8, f: Record) -> Event
    ensures { Some result ≡ list_for c n f }
{
    let listing = Listing {
        seller: c.account,
        contract: c.contract,
        days: c.days,
        basis: Basis(c.basis),
    };
    Event {
        entry: rules::by_owner(n, Outcome::Listed as u8, c.account),
        receipt: rules::with_lot(f, Lot::Listed(listing)),
    }
}

pub fn end_listing(n: u8, f: Record) -> Event
    ensures { Some result ≡ listing_ended n f }
{
    Event {
        entry: rules::by_owner(n, Outcome::Ended as u8, f.seller),
        receipt: rules::with_lot(f, Lot::Idle),
    }
}

// ── Bids ────────────────────────────────────────────────────────────────────────────────────────

fn due_day(v: View, days: u8) -> u16
    requires { (v.day ≤ last_day) × (days ≤ most_days) }
    ensures { result ≡ due_day v days }
{
    if v.afternoon & (days == 0) {
        v.day + 1
    } else {
        v.day + u16::from(days)
    }
}

// From the bidder to the seller, with the price.
fn bid_entry(n: u8, outcome: Outcome, f: Record, b: Bid) -> Entry
    ensures { result ≡ record { lot = n; outcome = outcome_number outcome; from = b.buyer; to = f.seller; number = b.price.0 } }
{
    Entry {
        lot: n,
        outcome: outcome as u8,
        from: b.buyer,
        to: f.seller,
        number: b.price.0,
    }
}

fn stand(n: u8, f: Record, b: Bid) -> Event
    ensures { Some result ≡ bid_stands n f b }
{
    Event {
        entry: bid_entry(n, Outcome::BidStands, f, b),
        receipt: rules::with_lot(f, Lot::BidStands(zone::listing_of(f), b)),
    }
}

#[tactic(auto, using(crate::proofs::Days::valid_days))]
fn strike(v: View, n: u8, f: Record, b: Bid) -> Event
    requires { Ready v f }
    ensures { Some result ≡ bid_struck v n f b }
{
    let trade = Trade {
        listing: zone::listing_of(f),
        bid: b,
        due: due_day(v, f.days),
    };
    Event {
        entry: bid_entry(n, Outcome::Struck, f, b),
        receipt: rules::with_lot(f, Lot::Struck(trade)),
    }
}

fn meets_ask(v: View, price: YuanPerTonne) -> bool
    ensures { result ≡ meets_ask v price }
{
    (v.ask != YuanPerTonne(0)) & (v.ask <= price)
}

#[tactic(auto, unfolding(rules::specs::Effects::limit_bid))]
pub fn limit_bid(v: View, c: Call, n: u8, f: Record) -> Event
    requires { Ready v f × (c.amount ≤ most_price) }
    ensures { Some result ≡ limit_bid v c n f }
{
    let price = YuanPerTonne(c.amount as u32);
    let bid = Bid {
        buyer: c.account,
        price,
    };
    if meets_ask(v, price) {
        strike(v, n, f, bid)
    } else {
        stand(n, f, bid)
    }
}

#[tactic(auto, unfolding(rules::specs::Effects::market_bid))]
pub fn market_bid(v: View, c: Call, n: u8, f: Record) -> Event
    requires { Ready v f }
    ensures { Some result ≡ market_bid v c n f }
{
    let bid = Bid {
        buyer: c.account,
        price: v.ask,
    };
    strike(v, n, f, bid)
}

#[tactic(auto, unfolding(rules::specs::Effects::withdraw_bid))]
pub fn withdraw_bid(n: u8, f: Record) -> Event
    ensures { Some result ≡ withdraw_bid n f }
{
    Event {
        entry: rules::by_buyer(n, Outcome::BidWithdrawn as u8, f, 0),
        receipt: rules::with_lot(f, Lot::Listed(zone::listing_of(f))),
    }
}

// A standing bid of the quoted contract that meets the new ask.
pub fn quote_meets(v: View, c: Call, f: Record) -> bool
    ensures { result ≡ quote_meets v c f }
{
    (f.state == State::BidStands as u8) & (f.contract == c.contract) & meets_ask(v, f.price)
}

// The record of a lot whose standing bid is struck.
#[tactic(auto, using(crate::proofs::Days::valid_days), unfolding(zone::specs::Record::record_of))]
pub fn struck_record(v: View, f: Record) -> Record
    requires { Ready v f }
    ensures { result ≡ record_of (struck_receipt v f (bid_of f)) }
{
    let due = due_day(v, f.days);
    Record {
        state: State::Struck as u8,
        due,
        pending: Fen(0),
        confirmed: Fen(0),
        paid: Fen(0),
        ..f
    }
}
