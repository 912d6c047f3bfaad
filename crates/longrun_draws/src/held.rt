// What a lot holds, put elsewhere in an image.
use ledger_book::{ACCOUNTS, BUYER, Cells, FREE, FROZEN, Page, SELLER};

// Where to: frozen money of the seller, frozen money of the account before the buyer, the buyer's free money.
#[derive(Clone, Copy)]
pub enum HeldPlace {
    Seller,
    AccountBefore,
    Free,
}

pub const HELD_PLACES: [HeldPlace; 3] = [
    HeldPlace::Seller,
    HeldPlace::AccountBefore,
    HeldPlace::Free,
];

// A number past the places is that of free money.
impl From<u64> for HeldPlace {
    fn from(number: u64) -> HeldPlace {
        match number {
            0 => HeldPlace::Seller,
            1 => HeldPlace::AccountBefore,
            _ => HeldPlace::Free,
        }
    }
}

pub fn raise(image: &mut Page, column: u64, row: u64, by: u64) {
    let value = image.cell(column, row).wrapping_add(by);
    image.set(column, row, value);
}

// The last account stands before the first.
fn account_before(account: u64) -> u64 {
    match account {
        1 => ACCOUNTS,
        _ => account.wrapping_sub(1),
    }
}

// Out of the buyer's frozen money; the total still agrees.
pub fn move_held(image: &mut Page, lot: u64, place: HeldPlace) {
    let held = image.held(lot);
    let buyer = image.cell(BUYER, lot);
    let seller = image.cell(SELLER, lot);
    raise(image, FROZEN, buyer, held.wrapping_neg());
    match place {
        HeldPlace::Seller => raise(image, FROZEN, seller, held),
        HeldPlace::AccountBefore => raise(image, FROZEN, account_before(buyer), held),
        HeldPlace::Free => raise(image, FREE, buyer, held),
    }
}
