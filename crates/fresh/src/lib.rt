// A fresh zone, and the bytes of a whole zone.
#![tactic(auto)]

ghost use Rattle.std.specs.Prelude.{◌≡◌, ◌+◌, ◌*◌, ◌≤◌, ℕ, List, false, length, take};
ghost use Rattle.std.proofs.lemmas.List.Edits.{sets};
ghost use Rattle.zone.specs.Valid.{no_receipt, fresh_zone};
ghost use Rattle.image.specs.Table.{table_bytes};
ghost use Rattle.image.specs.Layout.{image_length, account_length, ask_length, receipt_length, phase_place, header_bytes, account_bytes, ask_bytes, receipt_bytes};
ghost use Rattle.image.specs.Image.{encode};

use image::{
    ACCOUNT_COUNT_PLACE, ACCOUNT_LENGTH, ACCOUNT_START, ACCOUNT_START_PLACE, ASK_LENGTH,
    CONTRACT_COUNT_PLACE, CONTRACT_START, CONTRACT_START_PLACE, DAY_PLACE, HEADER_ACCOUNT_START,
    HEADER_ACCOUNTS, HEADER_CONTRACT_START, HEADER_CONTRACTS, HEADER_RECEIPT_START,
    HEADER_RECEIPTS, PHASE_PLACE, RECEIPT_COUNT_PLACE, RECEIPT_LENGTH, RECEIPT_START,
    RECEIPT_START_PLACE, TOTAL_PLACE,
};
use units::{ACCOUNTS, CONTRACTS, Fen, Kilograms, Premium, RECEIPTS, YuanPerTonne};
use zone::{Account, Lot, Receipt, Zone};

fn no_receipt() -> Receipt
    ensures { result ≡ no_receipt }
{
    Receipt {
        owner: 0,
        weight: Kilograms(0),
        premium: Premium(0),
        lot: Lot::Idle,
    }
}

#[tactic(auto, unfolding(zone::specs::Valid::fresh_zone))]
pub fn fresh_zone() -> Zone
    ensures { result ≡ fresh_zone }
{
    Zone {
        day: 1,
        afternoon: false,
        asks: [YuanPerTonne(0); CONTRACTS],
        accounts: [Account {
            free: Fen(0),
            frozen: Fen(0),
        }; ACCOUNTS],
        receipts: [no_receipt(); RECEIPTS],
        total: Fen(0),
    }
}

// ── The bytes of a zone ─────────────────────────────────────────────────────────────────────────

// Counts, day and starts.
fn put_counts(image: &mut [u8], day: u16)
    requires { length image.old ≡ image_length }
    ensures { image.new ≡ sets image.old 0 (take phase_place (header_bytes day false 0)) }
{
    wire::put_u16(image, ACCOUNT_COUNT_PLACE, HEADER_ACCOUNTS);
    wire::put_u16(image, RECEIPT_COUNT_PLACE, HEADER_RECEIPTS);
    wire::put_u16(image, CONTRACT_COUNT_PLACE, HEADER_CONTRACTS);
    wire::put_u16(image, DAY_PLACE, day);
    wire::put_u32(image, ACCOUNT_START_PLACE, HEADER_ACCOUNT_START);
    wire::put_u32(image, CONTRACT_START_PLACE, HEADER_CONTRACT_START);
    wire::put_u32(image, RECEIPT_START_PLACE, HEADER_RECEIPT_START);
}

fn put_header(image: &mut [u8], day: u16, afternoon: bool, total: Fen)
    requires { length image.old ≡ image_length }
    ensures { image.new ≡ sets image.old 0 (header_bytes day afternoon total.0) }
{
    put_counts(image, day);
    wire::put_run(image, PHASE_PLACE, &[image::phase(afternoon), 0, 0, 0]);
    wire::put_u64(image, TOTAL_PLACE, total.0);
}

// An item of one of the three tables.
trait Item {
    ghost size: { ℕ };

    ghost bytes: { Self → List ℕ };

    // A function, because a clause of a generic function cannot read an associated constant.
    fn length() -> usize
        ensures { result ≡ size };

    fn put(self, image: &mut [u8], at: usize)
        requires { at + size ≤ length image.old }
        ensures { image.new ≡ sets image.old at (bytes self) };
}

impl Item for Account {
    ghost size = { account_length };

    ghost bytes = { account_bytes };

    fn length() -> usize {
        ACCOUNT_LENGTH
    }

    fn put(self, image: &mut [u8], at: usize) {
        put::account_bytes(image, at, self);
    }
}

impl Item for YuanPerTonne {
    ghost size = { ask_length };

    ghost bytes = { ask_bytes };

    fn length() -> usize {
        ASK_LENGTH
    }

    #[tactic(auto, unfolding(image::specs::Layout::ask_bytes))]
    fn put(self, image: &mut [u8], at: usize) {
        wire::put_u32(image, at, self.0);
    }
}

impl Item for Receipt {
    ghost size = { receipt_length };

    ghost bytes = { receipt_bytes };

    fn length() -> usize {
        RECEIPT_LENGTH
    }

    #[tactic(auto, unfolding(image::specs::Layout::receipt_bytes))]
    fn put(self, image: &mut [u8], at: usize) {
        put::record_bytes(image, at, zone::record_of(self));
    }
}

// The items of a table one behind the other, from `start` on, each with as many bytes as any other. An item's place is its index times that.
fn put_table<T: Item + Copy>(image: &mut [u8], start: usize, items: &[T])
    requires room { start + length items.now * T.size ≤ length image.old }
    requires wide { (item : T) → length (T.bytes item) ≡ T.size }
    ensures { image.new ≡ sets image.old start (table_bytes T.bytes items.now) }
{
    for (i, item) in items.iter().enumerate() {
        item.put(image, start + i * T::length());
    }
}

pub fn write_image(image: &mut [u8], z: Zone)
    requires { length image.old ≡ image_length }
    ensures { image.new ≡ encode z }
{
    put_header(image, z.day, z.afternoon, z.total);
    put_table(image, ACCOUNT_START, &z.accounts);
    put_table(image, CONTRACT_START, &z.asks);
    put_table(image, RECEIPT_START, &z.receipts);
}
