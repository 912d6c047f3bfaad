// What the lots of an image hold from each account, and whether bytes are a valid image.
#![tactic(auto)]

ghost use Rattle.std.specs.Prelude.{◌≡◌, ◌+◌, ◌-◌, ◌^◌, ◌<◌, ◌≤◌, true, ◌≢◌, length, replicate, slice_index_or};
ghost use Rattle.units.specs.Payments.{fen};
ghost use Rattle.units.specs.Ranges.{receipt_count, money_limit};
ghost use Rattle.zone.specs.State.{state_number};
ghost use Rattle.zone.specs.Valid.{blank, record_valid, ask_ok, all};
ghost use Rattle.image.specs.Layout.{image_length, receipt_length, header_ok, receipt_run, record_in, asks_in};
ghost use Rattle.image.specs.Image.{valid_image};
ghost use Rattle.validity.specs.ByState.{kept_ok};
ghost use Rattle.verdict.specs.Sums.{no_hold, valid_hold, add_to, frozen_sums, valid_records, books_by_sums};
ghost use Rattle.verdict.specs.Walk.{BlankFrom, marked};

use image::{
    ACCOUNT_COUNT_PLACE, ACCOUNT_START_PLACE, CONTRACT_COUNT_PLACE, CONTRACT_START_PLACE,
    HEADER_ACCOUNT_START, HEADER_ACCOUNTS, HEADER_CONTRACT_START, HEADER_CONTRACTS,
    HEADER_RECEIPT_START, HEADER_RECEIPTS, IMAGE_LENGTH, PHASE_PLACE, PREMIUM_PLACE,
    RECEIPT_COUNT_PLACE, RECEIPT_LENGTH, RECEIPT_START, RECEIPT_START_PLACE,
};
use units::{ACCOUNTS, CONTRACTS, Fen, LAST_DAY, MONEY_LIMIT, RECEIPTS};
use zone::{Hold, State};

// The zero bytes behind the phase.
const FIRST_ZERO: usize = PHASE_PLACE + 1;

const SECOND_ZERO: usize = PHASE_PLACE + 2;

const THIRD_ZERO: usize = PHASE_PLACE + 3;

// 2^50, the least power of two above the limit of all money.
const ABOVE_LIMIT: u64 = 1125899906842624;

// Counts, starts, phase and the three zero bytes.
#[tactic(auto, unfolding(image::specs::Layout::header_ok))]
fn header_ok(image: &[u8]) -> bool
    requires { length image.now ≡ image_length }
    ensures { result ≡ header_ok image.now }
{
    (wire::get_u16(image, ACCOUNT_COUNT_PLACE) == HEADER_ACCOUNTS)
        & (wire::get_u16(image, RECEIPT_COUNT_PLACE) == HEADER_RECEIPTS)
        & (wire::get_u16(image, CONTRACT_COUNT_PLACE) == HEADER_CONTRACTS)
        & (wire::get_u32(image, ACCOUNT_START_PLACE) == HEADER_ACCOUNT_START)
        & (wire::get_u32(image, CONTRACT_START_PLACE) == HEADER_CONTRACT_START)
        & (wire::get_u32(image, RECEIPT_START_PLACE) == HEADER_RECEIPT_START)
        & (image[PHASE_PLACE] <= 1)
        & (image[FIRST_ZERO] == 0)
        & (image[SECOND_ZERO] == 0)
        & (image[THIRD_ZERO] == 0)
}

// Whether each ask is none or a price.
fn asks_ok(image: &[u8]) -> bool
    requires { length image.now ≡ image_length }
    ensures { result ≡ all ask_ok (asks_in image.now) }
{
    (0..CONTRACTS).all(|i| validity::ask_ok(image::ask_at(image, i)))
}

// ── The records ─────────────────────────────────────────────────────────────────────────────────

#[tactic(auto, using(image::specs::Laws::Table::byte_in), unfolding(image::specs::Layout::record_in))]
fn owner_at(image: &[u8], k: usize) -> u8
    requires { (length image.now ≡ image_length) × (k < receipt_count) }
    ensures { result ≡ (record_in (receipt_run image.now k)).owner }
{
    image[RECEIPT_START + k * RECEIPT_LENGTH]
}

// A receipt that nobody has registered is zero in all its bytes. Eight are read at a time, the premium by itself: quicker than field by
// field.
#[tactic(auto, using(crate::specs::Laws::Zeros::zeros_test))]
fn all_zero(s: &[u8]) -> bool
    requires { length s.now ≡ receipt_length }
    ensures { result ≡ blank (record_in s.now) }
{
    (wire::get_u64(s, 0) == 0)
        & (wire::get_u64(s, 8) == 0)
        & (wire::get_u64(s, 16) == 0)
        & (wire::get_u64(s, 24) == 0)
        & (wire::get_u32(s, PREMIUM_PLACE) == 0)
}

#[tactic(auto, using(image::specs::Laws::Table::part_wide))]
fn blank_at(image: &[u8], k: usize) -> bool
    requires { (length image.now ≡ image_length) × (k < receipt_count) }
    ensures { result ≡ blank (record_in (receipt_run image.now k)) }
{
    let at = RECEIPT_START + k * RECEIPT_LENGTH;
    all_zero(&image[at..at + RECEIPT_LENGTH])
}

// Nobody has registered a receipt from here on. Where numbers are given from the front, most of an idle zone lies there, and a loop of
// its own passes over it quicker than the walk.
fn registered_end(image: &[u8]) -> usize
    requires { length image.now ≡ image_length }
    ensures { (result ≤ receipt_count) × BlankFrom image.now result }
{
    for k in (0..RECEIPTS).rev() {
        if !blank_at(image, k) {
            return k + 1;
        }
    }
    0
}

// Each state reads the record anew, so that only what it tests is loaded: with the whole record at hand for all states, the registers do
// not suffice.
fn state_ok(image: &[u8], k: usize, state: State) -> bool
    requires { (length image.now ≡ image_length) × (k < receipt_count) × (kept_ok (record_in (receipt_run image.now k)) ≡ true) × ((record_in (receipt_run image.now k)).state ≡ state_number state) }
    ensures { result ≡ record_valid (record_in (receipt_run image.now k)) }
{
    match state {
        State::Idle => validity::idle_ok(image::record_at(image, k)),
        State::Listed => validity::listed_ok(image::record_at(image, k)),
        State::BidStands => validity::bid_stands_ok(image::record_at(image, k)),
        State::Struck | State::Lodged => validity::struck_ok(image::record_at(image, k)),
        State::Settled => validity::settled_ok(image::record_at(image, k)),
        State::FirstPaid => validity::first_paid_ok(image::record_at(image, k)),
        State::PenaltyDue => validity::penalty_due_ok(image::record_at(image, k)),
    }
}

// Whether the record of a registered receipt is valid.
fn registered_ok(image: &[u8], k: usize) -> bool
    requires { (length image.now ≡ image_length) × (k < receipt_count) × ((record_in (receipt_run image.now k)).owner ≢ 0) }
    ensures { result ≡ record_valid (record_in (receipt_run image.now k)) }
{
    if !validity::kept_ok(image::record_at(image, k)) {
        return false;
    }
    // `kept_ok` leaves no other number.
    let Ok(state) = State::try_from(image::state_at(image, k)) else {
        unreachable!()
    };
    state_ok(image, k, state)
}

// ── What the lots hold ──────────────────────────────────────────────────────────────────────────

pub fn no_hold() -> Hold
    ensures { result ≡ no_hold }
{
    Hold {
        from: 0,
        fen: Fen(0),
    }
}

// What the lot of record k holds. A record that is not valid holds nothing and loses its mark. Marks are written for such records alone:
// a flag for all of them, carried through the walk, costs an eighth of a call.
fn hold_at(image: &[u8], k: usize, valid: &mut [bool]) -> Hold
    requires { (length image.now ≡ image_length) × (k < receipt_count) × (length valid.old ≡ receipt_count) }
    ensures { (result ≡ valid_hold (record_in (receipt_run image.now k))) × (valid.new ≡ marked valid.old k (record_valid (record_in (receipt_run image.now k)))) }
{
    if owner_at(image, k) == 0 {
        if blank_at(image, k) {
            return no_hold();
        }
        valid[k] = false;
        return no_hold();
    }
    if !registered_ok(image, k) {
        valid[k] = false;
        return no_hold();
    }
    validity::hold_of(image::record_at(image, k))
}

// What a lot holds goes to the sum of the account that it names; nobody, number 0, has none.
pub fn add_hold(sums: &mut [Fen], hold: Hold)
    requires known { hold.from ≤ length sums.old }
    requires room { (slice_index_or sums.old (hold.from - 1) (fen 0)).0 + hold.fen.0 < 2 ^ 64 }
    ensures { sums.new ≡ add_to hold.from hold.fen.0 sums.old }
{
    let from = usize::from(hold.from);
    if from != 0 {
        sums[from - 1] = sums[from - 1] + hold.fen;
    }
}

// What the lots hold from each account, in one walk from the last record to the first: what a lot holds goes to the sum of its buyer. A
// record that is not valid adds nothing and loses its mark.
pub fn frozen_sums(image: &[u8], valid: &mut [bool]) -> [Fen; ACCOUNTS]
    requires { (length image.now ≡ image_length) × (valid.old ≡ replicate receipt_count true) }
    ensures { (result ≡ frozen_sums image.now) × (valid.new ≡ valid_records image.now) }
{
    let mut sums = [Fen(0); ACCOUNTS];
    for k in (0..registered_end(image)).rev() {
        let hold = hold_at(image, k, valid);
        add_hold(&mut sums, hold);
    }
    sums
}

// ── The verdict ─────────────────────────────────────────────────────────────────────────────────

// By `&`: without a branch it becomes vector code.
fn all_set(marks: &[bool]) -> bool
    ensures { result ≡ all (λ b. b) marks.now }
{
    marks.iter().fold(true, |ok, mark| ok & *mark)
}

// Whether the records are valid, each frozen is what the lots hold from that account, and the total is all money. The loop decides nothing,
// so that it becomes vector code: it gathers the bits of free money, those in which frozen money differs, and one sum that may wrap. Where
// free money has no bit from 2^50 on, the sum has not wrapped; where it has one, that money is above the limit of all money.
fn books_ok(image: &[u8], total: u64) -> bool
    requires { (length image.now ≡ image_length) × (total ≤ money_limit) }
    ensures { result ≡ books_by_sums image.now total }
{
    let mut valid = [true; RECEIPTS];
    let sums = frozen_sums(image, &mut valid);
    if !all_set(&valid) {
        return false;
    }
    let mut money: u64 = 0;
    let mut free_bits: u64 = 0;
    let mut other_bits: u64 = 0;
    for (i, held) in sums.iter().enumerate() {
        let a = image::account_at(image, i);
        free_bits |= a.free.0;
        other_bits |= a.frozen.0 ^ held.0;
        money = money.wrapping_add(a.free.0.wrapping_add(held.0));
    }
    (free_bits < ABOVE_LIMIT) & (other_bits == 0) & (total == money)
}

// The verdict on any bytes.
pub fn image_ok(image: &[u8]) -> bool
    ensures { result ≡ valid_image image.now }
{
    if image.len() != IMAGE_LENGTH {
        return false;
    }
    let total = image::total_in(image).0;
    if MONEY_LIMIT < total {
        return false;
    }
    let day = image::day_in(image);
    if !(header_ok(image) & (1 <= day) & (day <= LAST_DAY) & asks_ok(image)) {
        return false;
    }
    books_ok(image, total)
}
