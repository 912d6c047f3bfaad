// A lot that a call through all lots comes by: what the call does there, in the image.
#![tactic(auto, using(image::specs::Laws::RoundTrip::same_long))]

ghost use Rattle.std.specs.Prelude.{true, ◌≡◌};
ghost use Rattle.rules.specs.Effects.{sweeps};
ghost use Rattle.lots.specs.Noted.{Worked};
ghost use Rattle.closes.specs.Visited.{Visited};

use rules::{Call, Entry, Kind, Outcome};

// A quote, by far the most frequent call. What a bid holds stays frozen when it is struck: no money moves, and the record alone is put.
fn strike_lot(image: &mut [u8], c: Call, n: u8) -> Option<Entry>
    requires { Visited n image.old × (c.kind ≡ 9) }
    ensures { Worked c n image.old image.new result }
{
    let k = usize::from(n - 1);
    let f = image::record_at(image, k);
    let v = lots::view_of(image, c.account, f);
    if !offers::quote_meets(v, c, f) {
        return None;
    }
    put::receipt_record(image, k, offers::struck_record(v, f));
    Some(rules::by_buyer(n, Outcome::Struck as u8, f, f.price.0))
}

// What a call through all lots does at lot n.
pub fn work_lot(image: &mut [u8], c: Call, n: u8) -> Option<Entry>
    requires { Visited n image.old × (sweeps c.kind ≡ true) }
    ensures { Worked c n image.old image.new result }
{
    // A call that goes through all lots is of a kind, and of one of these three.
    let Ok(kind) = Kind::try_from(c.kind) else {
        unreachable!()
    };
    match kind {
        Kind::Quote => strike_lot(image, c, n),
        Kind::MorningClose => closes::close_lot(image, n),
        Kind::DayClose => closes::end_offer(image, n),
        _ => unreachable!(),
    }
}
