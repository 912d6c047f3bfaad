// An image of bytes as a zone: where each part stands, and each part read there.
#![tactic(auto)]

ghost use Rattle.std.specs.Prelude.{◌≡◌, ◌+◌, ◌*◌, ◌≤◌, ◌<◌, length};
ghost use Rattle.units.specs.Payments.{fen};
ghost use Rattle.units.specs.Ranges.{account_count, receipt_count, contract_count};
ghost use Rattle.image.specs.Table.{run_at};
ghost use Rattle.image.specs.Layout.{account_length, receipt_length, image_length, account_run, ask_run, receipt_run, day_in, afternoon_in, phase_byte, total_in, account_in, ask_in, record_in};

use units::{ACCOUNTS, Basis, CONTRACTS, Fen, Kilograms, Premium, RECEIPTS, YuanPerTonne};
use zone::{Account, Record};

// ── Lengths, starts and places, named as in Layout ──────────────────────────────────────────────

pub const ACCOUNT_COUNT_PLACE: usize = 0;

pub const RECEIPT_COUNT_PLACE: usize = ACCOUNT_COUNT_PLACE + 2;

pub const CONTRACT_COUNT_PLACE: usize = RECEIPT_COUNT_PLACE + 2;

pub const DAY_PLACE: usize = CONTRACT_COUNT_PLACE + 2;

pub const ACCOUNT_START_PLACE: usize = DAY_PLACE + 2;

pub const CONTRACT_START_PLACE: usize = ACCOUNT_START_PLACE + 4;

pub const RECEIPT_START_PLACE: usize = CONTRACT_START_PLACE + 4;

pub const PHASE_PLACE: usize = RECEIPT_START_PLACE + 4;

pub const TOTAL_PLACE: usize = PHASE_PLACE + 4;

pub const HEADER_LENGTH: usize = TOTAL_PLACE + 8;

pub const FREE_PLACE: usize = 0;

pub const FROZEN_PLACE: usize = FREE_PLACE + 8;

pub const ACCOUNT_LENGTH: usize = FROZEN_PLACE + 8;

pub const ASK_LENGTH: usize = 4;

pub const OWNER_PLACE: usize = 0;

pub const STATE_PLACE: usize = OWNER_PLACE + 1;

pub const SELLER_PLACE: usize = STATE_PLACE + 1;

pub const BUYER_PLACE: usize = SELLER_PLACE + 1;

pub const CONTRACT_PLACE: usize = BUYER_PLACE + 1;

pub const DAYS_PLACE: usize = CONTRACT_PLACE + 1;

pub const DUE_PLACE: usize = DAYS_PLACE + 1;

pub const WEIGHT_PLACE: usize = DUE_PLACE + 2;

pub const BASIS_PLACE: usize = WEIGHT_PLACE + 4;

pub const PRICE_PLACE: usize = BASIS_PLACE + 4;

pub const PENDING_PLACE: usize = PRICE_PLACE + 4;

pub const CONFIRMED_PLACE: usize = PENDING_PLACE + 4;

pub const PAID_PLACE: usize = CONFIRMED_PLACE + 4;

pub const PREMIUM_PLACE: usize = PAID_PLACE + 4;

pub const RECEIPT_LENGTH: usize = PREMIUM_PLACE + 4;

pub const ACCOUNT_START: usize = HEADER_LENGTH;

pub const CONTRACT_START: usize = ACCOUNT_START + ACCOUNTS * ACCOUNT_LENGTH;

pub const RECEIPT_START: usize = CONTRACT_START + CONTRACTS * ASK_LENGTH;

pub const IMAGE_LENGTH: usize = RECEIPT_START + RECEIPTS * RECEIPT_LENGTH;

// The counts and starts as the header has them.
pub const HEADER_ACCOUNTS: u16 = ACCOUNTS as u16;

pub const HEADER_RECEIPTS: u16 = RECEIPTS as u16;

pub const HEADER_CONTRACTS: u16 = CONTRACTS as u16;

pub const HEADER_ACCOUNT_START: u32 = ACCOUNT_START as u32;

pub const HEADER_CONTRACT_START: u32 = CONTRACT_START as u32;

pub const HEADER_RECEIPT_START: u32 = RECEIPT_START as u32;

// ── A part, read where it stands ────────────────────────────────────────────────────────────────

// An image stays a slice whose length each of these requires: the entries take slices from C, whose length `verdict::image_ok` tests once.
// Its tables are read by index, from 0 on.

pub fn day_in(image: &[u8]) -> u16
    requires { length image.now ≡ image_length }
    ensures { result ≡ day_in image.now }
{
    wire::get_u16(image, DAY_PLACE)
}

pub fn afternoon_in(image: &[u8]) -> bool
    requires { length image.now ≡ image_length }
    ensures { result ≡ afternoon_in image.now }
{
    image[PHASE_PLACE] == 1
}

pub fn total_in(image: &[u8]) -> Fen
    requires { length image.now ≡ image_length }
    ensures { result ≡ fen (total_in image.now) }
{
    Fen(wire::get_u64(image, TOTAL_PLACE))
}

// Row k of a table: `size` bytes of each, the first at `start`.
fn row(image: &[u8], start: usize, size: usize, k: usize) -> &[u8]
    requires { start + (k + 1) * size ≤ length image.now }
    ensures bytes { result.now ≡ run_at start size image.now k }
    ensures size { length result.now ≡ size }
{
    let at = start + k * size;
    &image[at..at + size]
}

#[tactic(auto, unfolding(crate::specs::Layout::account_in))]
fn account_in(s: &[u8]) -> Account
    requires { length s.now ≡ account_length }
    ensures { result ≡ account_in s.now }
{
    Account {
        free: Fen(wire::get_u64(s, FREE_PLACE)),
        frozen: Fen(wire::get_u64(s, FROZEN_PLACE)),
    }
}

pub fn account_at(image: &[u8], k: usize) -> Account
    requires { (length image.now ≡ image_length) × (k < account_count) }
    ensures { result ≡ account_in (account_run image.now k) }
{
    // The slice where it stands, and not by `row`: so the compiler sees which fields are put back as they were read.
    let at = ACCOUNT_START + k * ACCOUNT_LENGTH;
    account_in(&image[at..at + ACCOUNT_LENGTH])
}

#[tactic(auto, unfolding(crate::specs::Layout::ask_in))]
pub fn ask_at(image: &[u8], k: usize) -> YuanPerTonne
    requires { (length image.now ≡ image_length) × (k < contract_count) }
    ensures { result ≡ ask_in (ask_run image.now k) }
{
    YuanPerTonne(wire::get_u32(row(image, CONTRACT_START, ASK_LENGTH, k), 0))
}

#[tactic(auto, unfolding(crate::specs::Layout::record_in))]
fn record_in(s: &[u8]) -> Record
    requires { length s.now ≡ receipt_length }
    ensures { result ≡ record_in s.now }
{
    Record {
        owner: s[OWNER_PLACE],
        state: s[STATE_PLACE],
        seller: s[SELLER_PLACE],
        buyer: s[BUYER_PLACE],
        contract: s[CONTRACT_PLACE],
        days: s[DAYS_PLACE],
        due: wire::get_u16(s, DUE_PLACE),
        weight: Kilograms(wire::get_u32(s, WEIGHT_PLACE)),
        basis: Basis(wire::get_i32(s, BASIS_PLACE)),
        price: YuanPerTonne(wire::get_u32(s, PRICE_PLACE)),
        pending: Fen(u64::from(wire::get_u32(s, PENDING_PLACE))),
        confirmed: Fen(u64::from(wire::get_u32(s, CONFIRMED_PLACE))),
        paid: Fen(u64::from(wire::get_u32(s, PAID_PLACE))),
        premium: Premium(wire::get_i32(s, PREMIUM_PLACE)),
    }
}

pub fn record_at(image: &[u8], k: usize) -> Record
    requires { (length image.now ≡ image_length) × (k < receipt_count) }
    ensures { result ≡ record_in (receipt_run image.now k) }
{
    // As in `account_at`.
    let at = RECEIPT_START + k * RECEIPT_LENGTH;
    record_in(&image[at..at + RECEIPT_LENGTH])
}

// A lot's state and contract, without the rest of its record.
#[tactic(auto, unfolding(crate::specs::Layout::record_in))]
pub fn state_at(image: &[u8], k: usize) -> u8
    requires { (length image.now ≡ image_length) × (k < receipt_count) }
    ensures { result ≡ (record_in (receipt_run image.now k)).state }
{
    row(image, RECEIPT_START, RECEIPT_LENGTH, k)[STATE_PLACE]
}

#[tactic(auto, unfolding(crate::specs::Layout::record_in))]
pub fn contract_at(image: &[u8], k: usize) -> u8
    requires { (length image.now ≡ image_length) × (k < receipt_count) }
    ensures { result ≡ (record_in (receipt_run image.now k)).contract }
{
    row(image, RECEIPT_START, RECEIPT_LENGTH, k)[CONTRACT_PLACE]
}

// The byte of a phase.
pub fn phase(afternoon: bool) -> u8
    ensures { result ≡ phase_byte afternoon }
{
    u8::from(afternoon)
}
