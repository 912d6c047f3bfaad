// The entries that a C host calls.
#![tactic(auto)]

ghost use Rattle.std.specs.Prelude.{true, ◌≡◌, ◌*◌, ◌≤◌, length};
ghost use Rattle.std.specs.Result.{OnErr};
ghost use Rattle.image.specs.Image.{valid_image, decode, encode};
ghost use Rattle.rules.specs.Effects.{effect};
ghost use Rattle.rules.specs.Kinds.{refusal_number, returned};
ghost use Rattle.rules.specs.Steps.{step_on, Accepted};
ghost use Rattle.answers.specs.Buffers.{answer_length, accepted_answer, cleared};
ghost use Rattle.crz.specs.CallTable.{in_turn, table_fits, table_entry};
ghost use Rattle.crz.specs.Figures.{shortfalls_entry};
ghost use Rattle.crz.specs.Fresh.{fresh_entry};
ghost use Rattle.crz.specs.Returned.{answered, call_with, call_entry};

use answers::{ANSWER_LENGTH, CALL_LENGTH, MOST_CALLS};
use image::IMAGE_LENGTH;
use rules::{Call, Event, Refusal};
use shortfalls::FIGURES_LENGTH;

fn number(refusal: Refusal) -> u8
    ensures { result ≡ refusal_number refusal }
{
    refusal as u8
}

// What an entry returns: the number of its refusal, 0 where there is none.
fn returned(done: Result<(), Refusal>) -> u32
    ensures { result ≡ returned done }
{
    match done {
        Ok(()) => 0,
        Err(refusal) => u32::from(number(refusal)),
    }
}

// ── A call ──────────────────────────────────────────────────────────────────────────────────────

// An accepted call: what it does in the image, and the answer, over zeros.
fn carry_out(image: &mut [u8], answer: &mut [u8], c: Call, at: Option<Event>)
    requires { (answer_length ≤ length answer.old) × (cleared answer.old ≡ answer.old) × (valid_image image.old ≡ true) × (step_on (decode image.old) c ≡ Accepted at) }
    ensures { (image.new ≡ encode (effect (decode image.old) c).zone) × (answer.new ≡ accepted_answer (effect (decode image.old) c).zone (effect (decode image.old) c).entries answer.old) }
{
    let count = calls::perform(image, c, at, answer);
    answers::put_header(answer, image, count);
}

// Carries a call out, or refuses it with the image as it was and zeros in the answer.
fn carry(image: &mut [u8], valid: bool, c: Call, answer: &mut [u8]) -> Result<(), Refusal>
    requires verdict { valid ≡ valid_image image.old }
    requires long { answer_length ≤ length answer.old }
    ensures left { (returned result, image.new, answered result answer.new) ≡ call_with image.old c answer.old }
    ensures zeros { OnErr result (answer.new ≡ cleared answer.old) }
{
    answers::clear(answer);
    if !valid {
        return Err(Refusal::BadImage);
    }
    let at = lots::step_of(image, c)?;
    carry_out(image, answer, c, at);
    Ok(())
}

// A call given by its fields, on an image whose verdict is known. The verdict stays beside the image as a flag: a table is judged
// once, and each of its calls keeps what was found, so that a struct would only be lent on and taken apart.
pub fn make_call(image: &mut [u8], valid: bool, c: Call, answer: &mut [u8]) -> u32
    requires { valid ≡ valid_image image.old }
    ensures { (result, image.new, answer.new) ≡ call_with image.old c answer.old }
{
    if answer.len() < ANSWER_LENGTH {
        return Refusal::ShortAnswer as u32;
    }
    match carry(image, valid, c, answer) {
        Ok(()) => 0,
        Err(refusal) => answers::refuse(answer, number(refusal)),
    }
}

// Makes a call on an image. Returns 0 and writes image and answer, or a refusal's number: 1 writes nothing, any other fills the answer.
#[tactic(auto, using(crate::specs::Laws::Returned::record_call))]
pub fn crz_call(image: &mut [u8], call: &[u8], answer: &mut [u8]) -> u32
    ensures { (result, image.new, answer.new) ≡ call_entry image.old call.now answer.old }
{
    let valid = verdict::image_ok(image);
    make_call(image, valid, answers::read_call(call), answer)
}

// ── A table of calls ────────────────────────────────────────────────────────────────────────────

// Calls in turn, each with its own part of the answers. (Not by `chunks_exact_mut`: after it a proof knows the length of the answers alone.)
fn make_calls(image: &mut [u8], valid: bool, calls: &[Call], answers: &mut [u8])
    requires { (valid ≡ valid_image image.old) × (length calls.now * answer_length ≤ length answers.old) }
    ensures { (image.new, answers.new) ≡ in_turn call_with image.old calls.now answers.old }
{
    for (i, c) in calls.iter().enumerate() {
        let at = i * ANSWER_LENGTH;
        make_call(image, valid, *c, &mut answers[at..at + ANSWER_LENGTH]);
    }
}

// Whether a table of so many bytes is taken, with answers of so many.
#[tactic(auto, unfolding(crate::specs::CallTable::table_fits), using(crate::specs::Laws::CallTable::room_for))]
fn table_fits(calls: usize, answers: usize) -> bool
    ensures { result ≡ table_fits calls answers }
{
    let count = calls / CALL_LENGTH;
    (calls % CALL_LENGTH == 0) & (count <= MOST_CALLS) & (count <= answers / ANSWER_LENGTH)
}

fn make_table(image: &mut [u8], calls: &[u8], answers: &mut [u8]) -> Result<(), Refusal>
    ensures { (returned result, image.new, answers.new) ≡ table_entry image.old calls.now answers.old }
{
    if !table_fits(calls.len(), answers.len()) {
        return Err(Refusal::BadTable);
    }
    let valid = verdict::image_ok(image);
    let count = calls.len() / CALL_LENGTH;
    let table = answers::read_calls(calls);
    make_calls(image, valid, &table[..count], answers);
    Ok(())
}

// Makes a table of calls on an image and returns 0, with the number of each in its own answer; or 14, by the lengths alone, and leaves all
// buffers as they are.
pub fn crz_table(image: &mut [u8], calls: &[u8], answers: &mut [u8]) -> u32
    ensures { (result, image.new, answers.new) ≡ table_entry image.old calls.now answers.old }
{
    returned(make_table(image, calls, answers))
}

// ── Shortfalls ──────────────────────────────────────────────────────────────────────────────────

#[tactic(auto, unfolding(crate::specs::Figures::shortfalls_entry))]
fn write_figures(image: &[u8], figures: &mut [u8]) -> Result<(), Refusal>
    ensures { (returned result, image.now, figures.new) ≡ shortfalls_entry image.now figures.old }
{
    if figures.len() < FIGURES_LENGTH {
        return Err(Refusal::ShortAnswer);
    }
    if !verdict::image_ok(image) {
        return Err(Refusal::BadImage);
    }
    shortfalls::put_figures(image, figures);
    Ok(())
}

// Writes what each account has to pay in before the morning close and returns 0; or 1 where the figures are too short, then 2 where the
// image is not valid, and writes nothing.
pub fn crz_shortfalls(image: &[u8], figures: &mut [u8]) -> u32
    ensures { (result, image.now, figures.new) ≡ shortfalls_entry image.now figures.old }
{
    returned(write_figures(image, figures))
}

// ── A fresh image ───────────────────────────────────────────────────────────────────────────────

#[tactic(auto, unfolding(crate::specs::Fresh::fresh_entry))]
fn write_fresh(image: &mut [u8]) -> Result<(), Refusal>
    ensures { (returned result, image.new) ≡ fresh_entry image.old }
{
    if image.len() != IMAGE_LENGTH {
        return Err(Refusal::BadImage);
    }
    fresh::write_image(image, fresh::fresh_zone());
    Ok(())
}

// Writes a fresh image and returns 0; a buffer of another length than an image's is left as it is, with 2.
pub fn crz_fresh(image: &mut [u8]) -> u32
    ensures { (result, image.new) ≡ fresh_entry image.old }
{
    returned(write_fresh(image))
}
