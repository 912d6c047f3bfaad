// A call at one lot of an image: what its rule reads, and what it does there.
#![tactic(auto, using(image::specs::Laws::RoundTrip::same_long))]

ghost use Rattle.std.specs.Prelude.{true, ◌≡◌, ◌≤◌, ◌<◌, length};
ghost use Rattle.units.specs.Ranges.{contract_count, receipt_count};
ghost use Rattle.zone.specs.Valid.{record_valid, valid_zone};
ghost use Rattle.image.specs.Image.{valid_image, decode, Encoded, Fits};
ghost use Rattle.image.specs.Layout.{image_length, record_in, receipt_run};
ghost use Rattle.rules.specs.Effects.{sweeps};
ghost use Rattle.rules.specs.Kinds.{kind_number};
ghost use Rattle.rules.specs.Steps.{step_on, told};
ghost use Rattle.rules.specs.View.{view_of, record_of_receipt, ask_of, free_of};
ghost use Rattle.lots.specs.Concerned.{concerned, FirstFrom};

use rules::{Call, Event, FreeMoney, Kind, Refusal, View};
use units::{Fen, Kilograms, Premium, RECEIPTS, YuanPerTonne};
use zone::{Lot, Receipt, Record, State};

// ── What a rule reads ───────────────────────────────────────────────────────────────────────────

// Free money of any account number; who is no account has none.
pub fn free_of(image: &[u8], a: u8) -> Fen
    requires { length image.now ≡ image_length }
    ensures { result ≡ free_of (decode image.now).accounts a }
{
    if !units::is_account(a) {
        return Fen(0);
    }
    image::account_at(image, usize::from(a - 1)).free
}

// The ask of a contract; a receipt without a listing has contract 0, and that has none.
fn ask_of(image: &[u8], n: u8) -> YuanPerTonne
    requires { (length image.now ≡ image_length) × (n ≤ contract_count) }
    ensures { result ≡ ask_of (decode image.now).asks n }
{
    if n == 0 {
        return YuanPerTonne(0);
    }
    image::ask_at(image, usize::from(n - 1))
}

// The record of any receipt number; a number that is none has the record of no receipt.
fn record_of_receipt(image: &[u8], n: u8) -> Record
    requires { Encoded image.now × Fits (decode image.now) }
    ensures { result ≡ record_of_receipt (decode image.now) n }
{
    if !units::is_receipt(n) {
        return zone::record_of(Receipt {
            owner: 0,
            weight: Kilograms(0),
            premium: Premium(0),
            lot: Lot::Idle,
        });
    }
    image::record_at(image, usize::from(n - 1))
}

#[tactic(auto, using(image::specs::Laws::RoundTrip::same_long, crate::specs::Laws::Visits::contract_in), unfolding(rules::specs::View::view_of, image::specs::Image::decode))]
pub fn view_of(image: &[u8], a: u8, f: Record) -> View
    requires { (length image.now ≡ image_length) × (record_valid f ≡ true) }
    ensures { result ≡ view_of (decode image.now) a f }
{
    View {
        day: image::day_in(image),
        afternoon: image::afternoon_in(image),
        ask: ask_of(image, f.contract),
        free: FreeMoney {
            caller: free_of(image, a),
            buyer: free_of(image, f.buyer),
            seller: free_of(image, f.seller),
        },
        total: image::total_in(image),
    }
}

// ── The outcome of a call at the receipt that it names ──────────────────────────────────────────

pub fn step_of(image: &[u8], c: Call) -> Result<Option<Event>, Refusal>
    requires { valid_image image.now ≡ true }
    ensures { told result ≡ step_on (decode image.now) c }
{
    let f = record_of_receipt(image, c.receipt);
    steps::step_at(view_of(image, c.account, f), c, f)
}

// ── A lot that a call through all lots comes by ─────────────────────────────────────────────────

// Whether the call's rule can do anything at lot k, by its state and contract: the test is cheaper than the rule.
#[tactic(auto, unfolding(crate::specs::Concerned::concerned))]
fn concerns(image: &[u8], kind: Kind, c: Call, k: usize) -> bool
    requires { (length image.now ≡ image_length) × (k < receipt_count) × (c.kind ≡ kind_number kind) }
    ensures { result ≡ concerned c (record_in (receipt_run image.now k)).state (record_in (receipt_run image.now k)).contract }
{
    let state = image::state_at(image, k);
    match kind {
        Kind::Quote => (state == State::BidStands as u8)
            & (image::contract_at(image, k) == c.contract),
        // For speed: one comparison passes over the lots before struck, which are most of an idle zone's.
        Kind::MorningClose => {
            state >= State::Struck as u8
                && ((state == State::Struck as u8)
                    | (state == State::Lodged as u8)
                    | (state == State::PenaltyDue as u8))
        }
        _ => (state == State::Listed as u8) | (state == State::BidStands as u8),
    }
}

// The next lot from lot k on that the call concerns. At those before it, or at all of them where there is none, the call's rule has no
// event. Which of them are passed over is speed alone. Lots count from 0 here.
pub fn next_concerned(image: &[u8], c: Call, k: usize) -> Option<usize>
    requires { Encoded image.now × (valid_zone (decode image.now) ≡ true) × (sweeps c.kind ≡ true) × (k ≤ receipt_count) }
    ensures { FirstFrom c (decode image.now) k result }
{
    // A call that goes through all lots is of a kind.
    let Ok(kind) = Kind::try_from(c.kind) else {
        unreachable!()
    };
    (k..RECEIPTS).find(|&i| concerns(image, kind, c, i))
}
