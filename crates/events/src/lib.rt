// An event posted in an image: the lot's receipt is changed, and its money follows.
#![tactic(auto)]

ghost use Rattle.std.specs.Prelude.{◌≡◌};
ghost use Rattle.image.specs.Image.{decode, encode, Encoded};
ghost use Rattle.rules.specs.Events.{money_of, posted};
ghost use Rattle.events.specs.Posting.{Postable};

pub mod money;

use rules::{Entry, Event, Outcome};
use units::Fen;

// The money that passes by an entry: in these four outcomes its number is fen. In the others it is a price, an amount that does not
// pass, or 0.
#[tactic(auto, using(rules::specs::Laws::Tables::among_joined), unfolding(rules::specs::Events::money_of))]
fn money_of(e: Entry) -> Fen
    ensures { result ≡ money_of e }
{
    if (e.outcome == Outcome::FirstPaid as u8)
        | (e.outcome == Outcome::PartPaid as u8)
        | (e.outcome == Outcome::BuyerDefault as u8)
        | (e.outcome == Outcome::Penalty as u8)
    {
        Fen(u64::from(e.number))
    } else {
        Fen(0)
    }
}

pub fn post(image: &mut [u8], event: Event)
    requires { Encoded image.old × Postable (decode image.old) event.entry event.receipt }
    ensures { image.new ≡ encode (posted (decode image.old) event.entry event.receipt) }
{
    let entry = event.entry;
    let k = usize::from(entry.lot - 1);
    let old = validity::hold_of(image::record_at(image, k));
    let after = zone::record_of(event.receipt);
    let new = validity::hold_of(after);
    put::receipt_record(image, k, after);
    money::move_money(image, old, entry.from, entry.to, money_of(entry), new);
}
