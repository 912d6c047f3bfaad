// What each account has to pay in before the morning close.
#![tactic(auto)]

ghost use Rattle.std.specs.Prelude.{true, false, ◌≡◌, ◌≤◌, length};
ghost use Rattle.std.proofs.lemmas.List.Edits.{sets};
ghost use Rattle.units.specs.Payments.{fen};
ghost use Rattle.zone.specs.State.{state_number};
ghost use Rattle.zone.specs.Valid.{record_valid};
ghost use Rattle.image.specs.Image.{valid_image, decode};
ghost use Rattle.image.specs.Layout.{afternoon_in};
ghost use Rattle.shortfalls.specs.Shortfalls.{excess, figures_length, figure_bytes};
ghost use Rattle.shortfalls.specs.Walk.{owed_when_due, owed_of, owed_sums};

use units::{ACCOUNTS, Fen, PER_RECEIPT, RECEIPTS};
use zone::{Hold, Record, State};

// ── Lengths, named as in Shortfalls ─────────────────────────────────────────────────────────────

pub const FIGURE_LENGTH: usize = 8;

pub const FIGURES_LENGTH: usize = ACCOUNTS * FIGURE_LENGTH;

// ── What is owed for a lot ──────────────────────────────────────────────────────────────────────

#[tactic(auto, unfolding(crate::specs::Shortfalls::excess))]
fn excess(n: Fen, m: Fen) -> Fen
    ensures { result ≡ fen (excess n.0 m.0) }
{
    Fen(n.0.saturating_sub(m.0))
}

// What is owed for a lot that is due: the penalty by its seller, or by its buyer what full has above the deposit.
fn owed_when_due(r: Record, state: State) -> Hold
    requires { (record_valid r ≡ true) × (r.state ≡ state_number state) }
    ensures { result ≡ owed_when_due r }
{
    match state {
        State::Struck | State::Lodged => Hold {
            from: r.buyer,
            fen: excess(validity::full_of(r), units::deposit_per_receipt()),
        },
        State::PenaltyDue => Hold {
            from: r.seller,
            fen: Fen(PER_RECEIPT),
        },
        _ => verdict::no_hold(),
    }
}

// The state comes first, by its number: it decides for most lots. No valid record has a number that is no state's.
#[tactic(auto, unfolding(crate::specs::Walk::owed_of))]
fn owed_of(r: Record, day: u16) -> Hold
    requires { record_valid r ≡ true }
    ensures { result ≡ owed_of day r }
{
    if r.state < State::Struck as u8 {
        return verdict::no_hold();
    }
    if day < r.due {
        return verdict::no_hold();
    }
    let Ok(state) = State::try_from(r.state) else {
        unreachable!()
    };
    owed_when_due(r, state)
}

// ── What each account owes ──────────────────────────────────────────────────────────────────────

// One walk from the last lot to the first: what is owed for a lot goes to the sum of the account that it names.
fn owed_sums(image: &[u8], day: u16) -> [Fen; ACCOUNTS]
    requires { valid_image image.now ≡ true }
    ensures { result ≡ owed_sums day image.now }
{
    let mut sums = [Fen(0); ACCOUNTS];
    for k in (0..RECEIPTS).rev() {
        let owed = owed_of(image::record_at(image, k), day);
        verdict::add_hold(&mut sums, owed);
    }
    sums
}

// ── The figures ─────────────────────────────────────────────────────────────────────────────────

// In a morning: what an account owes, less its free money. The figures are put by index: after `chunks_exact_mut` a proof knows their length
// alone.
fn put_morning_figures(image: &[u8], figures: &mut [u8])
    requires { (valid_image image.now ≡ true) × (afternoon_in image.now ≡ false) × (figures_length ≤ length figures.old) }
    ensures { figures.new ≡ sets figures.old 0 (figure_bytes (decode image.now)) }
{
    let sums = owed_sums(image, image::day_in(image));
    for (i, owed) in sums.iter().enumerate() {
        let a = image::account_at(image, i);
        let figure = excess(*owed, a.free);
        wire::put_u64(figures, i * FIGURE_LENGTH, figure.0);
    }
}

// The figures of a valid image, in the first bytes of a buffer. In an afternoon they are zero.
pub fn put_figures(image: &[u8], figures: &mut [u8])
    requires { (valid_image image.now ≡ true) × (figures_length ≤ length figures.old) }
    ensures { figures.new ≡ sets figures.old 0 (figure_bytes (decode image.now)) }
{
    if image::afternoon_in(image) {
        wire::put_zeros(figures, 0, FIGURES_LENGTH);
        return;
    }
    put_morning_figures(image, figures);
}
