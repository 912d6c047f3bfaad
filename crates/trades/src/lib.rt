// The code of the rules of a struck trade: lodging, payments and invoices. Call, lot and record go one by one, as the rules of specs/ are
// functions of them. An amount of a trade fits 32 bits by the promises of `units`, so that the casts of entries lose nothing.
#![tactic(auto)]

ghost use Rattle.std.specs.Prelude.{true, ◌≡◌, ◌+◌, ◌<◌, ◌^◌, Some};
ghost use Rattle.zone.specs.Valid.{record_valid};
ghost use Rattle.rules.specs.Effects.{lodge, pay_first, send_invoice, confirmed_lot, confirm};

use rules::{Call, Event, Outcome};
use units::Fen;
use zone::{Invoices, Lot, Record};

#[tactic(auto, unfolding(rules::specs::Effects::lodge))]
pub fn lodge_at(n: u8, f: Record) -> Event
    ensures { Some result ≡ lodge n f }
{
    Event {
        entry: rules::by_seller(n, Outcome::Lodged as u8, f, 0),
        receipt: rules::with_lot(f, Lot::Lodged(zone::trade_of(f))),
    }
}

// ── Payments and invoices ───────────────────────────────────────────────────────────────────────

#[tactic(auto, using(crate::proofs::Fits::valid_weight, crate::proofs::Fits::full_fits, crate::proofs::Fits::first_fits), unfolding(rules::specs::Effects::pay_first))]
pub fn pay_first(n: u8, f: Record) -> Event
    requires { record_valid f ≡ true }
    ensures { Some result ≡ pay_first n f }
{
    let paid = units::first_payment(validity::full_of(f));
    let lot = Lot::FirstPaid(zone::trade_of(f), zone::no_invoices());
    Event {
        entry: rules::by_buyer(n, Outcome::FirstPaid as u8, f, paid.0 as u32),
        receipt: rules::with_lot(f, lot),
    }
}

#[tactic(auto, unfolding(rules::specs::Effects::send_invoice))]
pub fn invoice_at(c: Call, n: u8, f: Record) -> Event
    requires { c.amount < 2 ^ 32 }
    ensures { Some result ≡ send_invoice c n f }
{
    let invoices = Invoices {
        pending: Fen(c.amount),
        confirmed: f.confirmed,
        paid: f.paid,
    };
    Event {
        entry: rules::by_seller(n, Outcome::Invoiced as u8, f, c.amount as u32),
        receipt: rules::with_lot(f, Lot::FirstPaid(zone::trade_of(f), invoices)),
    }
}

// Over once all is confirmed, else with the invoice confirmed and its part paid.
fn confirmed_lot(f: Record, full: Fen, part: Fen) -> Lot
    requires { (f.confirmed.0 + f.pending.0 < 2 ^ 63) × (f.paid.0 + part.0 < 2 ^ 63) }
    ensures { result ≡ confirmed_lot f full part }
{
    let confirmed = f.confirmed + f.pending;
    if confirmed == full {
        return Lot::Idle;
    }
    let invoices = Invoices {
        pending: Fen(0),
        confirmed,
        paid: f.paid + part,
    };
    Lot::FirstPaid(zone::trade_of(f), invoices)
}

pub fn confirm_at(n: u8, f: Record) -> Event
    requires { (record_valid f ≡ true) × (f.state ≡ 6) × (0 < f.pending.0) }
    ensures { Some result ≡ confirm n f }
{
    let full = validity::full_of(f);
    let part = units::part_payment(full, f.confirmed, f.paid, f.pending);
    Event {
        entry: rules::by_buyer(n, Outcome::PartPaid as u8, f, part.0 as u32),
        receipt: rules::with_lot(f, confirmed_lot(f, full, part)),
    }
}
