// The entries that a C host calls: each is that of crate `crz`, which says what it does.
#![tactic(auto)]

ghost use Rattle.std.specs.Prelude.{◌≡◌};
ghost use Rattle.crz.specs.CallTable.{table_entry};
ghost use Rattle.crz.specs.Figures.{shortfalls_entry};
ghost use Rattle.crz.specs.Fresh.{fresh_entry};
ghost use Rattle.crz.specs.Returned.{call_entry};

#[unsafe(no_mangle)]
pub extern "C" fn crz_call(image: &mut [u8], call: &[u8], answer: &mut [u8]) -> u32
    ensures { (result, image.new, answer.new) ≡ call_entry image.old call.now answer.old }
{
    crz::crz_call(image, call, answer)
}

#[unsafe(no_mangle)]
pub extern "C" fn crz_table(image: &mut [u8], calls: &[u8], answers: &mut [u8]) -> u32
    ensures { (result, image.new, answers.new) ≡ table_entry image.old calls.now answers.old }
{
    crz::crz_table(image, calls, answers)
}

#[unsafe(no_mangle)]
pub extern "C" fn crz_shortfalls(image: &[u8], figures: &mut [u8]) -> u32
    ensures { (result, image.now, figures.new) ≡ shortfalls_entry image.now figures.old }
{
    crz::crz_shortfalls(image, figures)
}

#[unsafe(no_mangle)]
pub extern "C" fn crz_fresh(image: &mut [u8]) -> u32
    ensures { (result, image.new) ≡ fresh_entry image.old }
{
    crz::crz_fresh(image)
}
