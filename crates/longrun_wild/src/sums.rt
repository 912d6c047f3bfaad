// Sums that fit again: frozen money and total as the lots and balances make them.
use ledger_book::{ACCOUNTS, BUYER, Cells, FREE, FROZEN, Page, RECEIPTS, TOTAL, ZONE, is_account};
use longrun_draws::raise;

fn clear_frozen(image: &mut Page) {
    for account in 1..=ACCOUNTS {
        image.set(FROZEN, account, 0);
    }
}

fn freeze_all(image: &mut Page) {
    for lot in 1..=RECEIPTS {
        let buyer = image.cell(BUYER, lot);
        if is_account(buyer) {
            let held = image.held(lot);
            raise(image, FROZEN, buyer, held);
        }
    }
}

fn add_up(image: &mut Page) {
    let total = (1..=ACCOUNTS).fold(0u64, |total, account| {
        let free = image.cell(FREE, account);
        total
            .wrapping_add(free)
            .wrapping_add(image.cell(FROZEN, account))
    });
    image.set(TOTAL, ZONE, total);
}

pub fn rebook(image: &mut Page) {
    clear_frozen(image);
    freeze_all(image);
    add_up(image);
}
