// The four moves of money, in the accounts of an image. Account 0 is nobody, and moves of nobody's money move none.
// That it is an image stands in each contract: the bytes are the host's (C interface), so that no type of ours holds them.
ghost use Rattle.std.specs.Prelude.{◌≡◌, ◌≤◌, ◌<◌};
ghost use Rattle.units.specs.Ranges.{account_count, money_limit};
ghost use Rattle.zone.specs.Parts.{with_accounts};
ghost use Rattle.image.specs.Image.{decode, encode, Encoded, Fits};
ghost use Rattle.rules.specs.Events.{credit, debit, release, freeze, money_moved};
ghost use Rattle.rules.specs.Ready.{Funds};
ghost use Rattle.rules.specs.View.{free_of, frozen_of};
ghost use Rattle.events.specs.Money.{changed, Affords};

use units::Fen;
use zone::{Account, Hold};

// What is added to and taken from free money, and held and freed of frozen money.
#[derive(Clone, Copy)]
struct Change {
    added: Fen,
    taken: Fen,
    held: Fen,
    freed: Fen,
}

const NO_CHANGE: Change = Change {
    added: Fen(0),
    taken: Fen(0),
    held: Fen(0),
    freed: Fen(0),
};

fn change_account(image: &mut [u8], a: u8, by: Change)
    requires { Encoded image.old × Affords (decode image.old).accounts a by }
    ensures { image.new ≡ encode (with_accounts (decode image.old) (changed a by (decode image.old).accounts)) }
{
    if a == 0 {
        return;
    }
    let k = usize::from(a - 1);
    let old = image::account_at(image, k);
    let new = Account {
        free: old.free + by.added - by.taken,
        frozen: old.frozen + by.held - by.freed,
    };
    put::account(image, k, new);
}

#[tactic(auto, using(crate::specs::Laws::Changed::credit_changed))]
pub fn credit_to(image: &mut [u8], a: u8, n: Fen)
    requires { Encoded image.old × Fits (decode image.old) × (a ≤ account_count) × (0 < a → n.0 ≤ money_limit) }
    ensures { image.new ≡ encode (with_accounts (decode image.old) (credit a n (decode image.old).accounts)) }
{
    let credited = Change {
        added: n,
        ..NO_CHANGE
    };
    change_account(image, a, credited);
}

#[tactic(auto, using(crate::specs::Laws::Changed::debit_changed))]
pub fn debit_from(image: &mut [u8], a: u8, n: Fen)
    requires { Encoded image.old × Fits (decode image.old) × (a ≤ account_count) × (0 < a → n.0 ≤ (free_of (decode image.old).accounts a).0) }
    ensures { image.new ≡ encode (with_accounts (decode image.old) (debit a n (decode image.old).accounts)) }
{
    let debited = Change {
        taken: n,
        ..NO_CHANGE
    };
    change_account(image, a, debited);
}

#[tactic(auto, using(crate::specs::Laws::Changed::release_changed, crate::specs::Laws::Changed::frozen_at_most))]
pub fn release_to(image: &mut [u8], a: u8, n: Fen)
    requires { Encoded image.old × Fits (decode image.old) × (a ≤ account_count) × (0 < a → n.0 ≤ (frozen_of (decode image.old).accounts a).0) }
    ensures { image.new ≡ encode (with_accounts (decode image.old) (release a n (decode image.old).accounts)) }
{
    let released = Change {
        added: n,
        freed: n,
        ..NO_CHANGE
    };
    change_account(image, a, released);
}

#[tactic(auto, using(crate::specs::Laws::Changed::freeze_changed, rules::specs::Laws::Moves::at_most))]
pub fn freeze_from(image: &mut [u8], a: u8, n: Fen)
    requires { Encoded image.old × Fits (decode image.old) × (a ≤ account_count) × (0 < a → n.0 ≤ (free_of (decode image.old).accounts a).0) }
    ensures { image.new ≡ encode (with_accounts (decode image.old) (freeze a n (decode image.old).accounts)) }
{
    let frozen = Change {
        taken: n,
        held: n,
        ..NO_CHANGE
    };
    change_account(image, a, frozen);
}

// What the lot held is freed, n passes from one account to the other, and what the lot now holds is frozen.
pub fn move_money(image: &mut [u8], old: Hold, from: u8, to: u8, n: Fen, new: Hold)
    requires { Encoded image.old × Fits (decode image.old) × Funds (decode image.old).accounts old from to n new }
    ensures { image.new ≡ encode (with_accounts (decode image.old) (money_moved old from to n new (decode image.old).accounts)) }
{
    release_to(image, old.from, old.fen);
    debit_from(image, from, n);
    credit_to(image, to, n);
    freeze_from(image, new.from, new.fen);
}
