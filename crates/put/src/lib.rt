// A part of a zone, put where it stands in the image.
#![tactic(auto)]

ghost use Rattle.std.specs.Prelude.{◌≡◌, ◌+◌, ◌%◌, ◌≤◌, ◌<◌, length, take, set};
ghost use Rattle.std.proofs.lemmas.List.Edits.{sets};
ghost use Rattle.units.specs.Ranges.{account_count, receipt_count, contract_count};
ghost use Rattle.zone.specs.Record.{record_of, receipt_of};
ghost use Rattle.zone.specs.Valid.{no_asks};
ghost use Rattle.zone.specs.Parts.{with_clock, with_asks, with_accounts, with_receipts, with_total};
ghost use Rattle.image.specs.Layout.{account_length, receipt_length, price_place, premium_place, record_bytes, account_bytes};
ghost use Rattle.image.specs.Image.{decode, encode, Encoded};

use image::{
    ACCOUNT_LENGTH, ACCOUNT_START, ASK_LENGTH, BASIS_PLACE, CONFIRMED_PLACE, CONTRACT_START,
    DAY_PLACE, DUE_PLACE, FROZEN_PLACE, PAID_PLACE, PENDING_PLACE, PHASE_PLACE, PREMIUM_PLACE,
    PRICE_PLACE, RECEIPT_LENGTH, RECEIPT_START, TOTAL_PLACE, WEIGHT_PLACE,
};
use units::{CONTRACTS, Fen, YuanPerTonne};
use zone::{Account, Record};

// ── Runs of bytes ───────────────────────────────────────────────────────────────────────────────

#[tactic(auto, using(wire::specs::Laws::Bytes::sets_append, wire::specs::Laws::Bytes::length_le_bytes), unfolding(image::specs::Layout::account_bytes))]
pub fn account_bytes(image: &mut [u8], at: usize, a: Account)
    requires { at + account_length ≤ length image.old }
    ensures { image.new ≡ sets image.old at (account_bytes a) }
{
    wire::put_u64(image, at, a.free.0);
    wire::put_u64(image, at + FROZEN_PLACE, a.frozen.0);
}

// A record's single bytes, due day, weight and basis.
fn record_first_fields(image: &mut [u8], at: usize, r: Record)
    requires { at + receipt_length ≤ length image.old }
    ensures { image.new ≡ sets image.old at (take price_place (record_bytes r)) }
{
    let single = [r.owner, r.state, r.seller, r.buyer, r.contract, r.days];
    wire::put_run(image, at, &single);
    wire::put_u16(image, at + DUE_PLACE, r.due);
    wire::put_u32(image, at + WEIGHT_PLACE, r.weight.0);
    wire::put_i32(image, at + BASIS_PLACE, r.basis.0);
}

// An amount in four bytes. In a valid record it is below 2^32, so that nothing is cut off. A cast by itself would ask for that, but any
// record is put.
fn low_half(n: Fen) -> u32
    ensures { result ≡ n.0 % 4294967296 }
{
    (n.0 % 4294967296) as u32
}

// All fields but the premium.
fn record_but_premium(image: &mut [u8], at: usize, r: Record)
    requires { at + receipt_length ≤ length image.old }
    ensures { image.new ≡ sets image.old at (take premium_place (record_bytes r)) }
{
    record_first_fields(image, at, r);
    wire::put_u32(image, at + PRICE_PLACE, r.price.0);
    wire::put_u32(image, at + PENDING_PLACE, low_half(r.pending));
    wire::put_u32(image, at + CONFIRMED_PLACE, low_half(r.confirmed));
    wire::put_u32(image, at + PAID_PLACE, low_half(r.paid));
}

pub fn record_bytes(image: &mut [u8], at: usize, r: Record)
    requires { at + receipt_length ≤ length image.old }
    ensures { image.new ≡ sets image.old at (record_bytes r) }
{
    record_but_premium(image, at, r);
    wire::put_i32(image, at + PREMIUM_PLACE, r.premium.0);
}

// ── Parts of a zone ─────────────────────────────────────────────────────────────────────────────

#[tactic(auto, using(image::specs::Laws::RoundTrip::same_long, image::specs::Laws::Places::clock_put))]
pub fn clock(image: &mut [u8], day: u16, afternoon: bool)
    requires { Encoded image.old }
    ensures { image.new ≡ encode (with_clock (decode image.old) day afternoon) }
{
    wire::put_u16(image, DAY_PLACE, day);
    image[PHASE_PLACE] = image::phase(afternoon);
}

#[tactic(auto, using(image::specs::Laws::RoundTrip::same_long, image::specs::Laws::Places::total_put))]
pub fn total(image: &mut [u8], total: Fen)
    requires { Encoded image.old }
    ensures { image.new ≡ encode (with_total (decode image.old) total) }
{
    wire::put_u64(image, TOTAL_PLACE, total.0);
}

#[tactic(auto, using(image::specs::Laws::RoundTrip::same_long, image::specs::Laws::Places::account_put))]
pub fn account(image: &mut [u8], k: usize, a: Account)
    requires { Encoded image.old × (k < account_count) }
    ensures { image.new ≡ encode (with_accounts (decode image.old) (set (decode image.old).accounts k a)) }
{
    account_bytes(image, ACCOUNT_START + k * ACCOUNT_LENGTH, a);
}

#[tactic(auto, using(image::specs::Laws::RoundTrip::same_long, image::specs::Laws::Places::ask_put), unfolding(image::specs::Layout::ask_bytes))]
pub fn ask(image: &mut [u8], k: usize, ask: YuanPerTonne)
    requires { Encoded image.old × (k < contract_count) }
    ensures { image.new ≡ encode (with_asks (decode image.old) (set (decode image.old).asks k ask)) }
{
    wire::put_u32(image, CONTRACT_START + k * ASK_LENGTH, ask.0);
}

// Every ask is none.
#[tactic(auto, using(image::specs::Laws::RoundTrip::same_long, image::specs::Laws::Places::asks_cleared))]
pub fn no_asks(image: &mut [u8])
    requires { Encoded image.old }
    ensures { image.new ≡ encode (with_asks (decode image.old) no_asks) }
{
    wire::put_zeros(image, CONTRACT_START, CONTRACTS * ASK_LENGTH);
}

// A receipt, by its record.
#[tactic(auto, using(image::specs::Laws::RoundTrip::same_long, image::specs::Laws::Places::receipt_put), unfolding(image::specs::Layout::receipt_bytes))]
pub fn receipt_record(image: &mut [u8], k: usize, f: Record)
    requires { Encoded image.old × (k < receipt_count) × (record_of (receipt_of f) ≡ f) }
    ensures { image.new ≡ encode (with_receipts (decode image.old) (set (decode image.old).receipts k (receipt_of f))) }
{
    record_bytes(image, RECEIPT_START + k * RECEIPT_LENGTH, f);
}
