// The lamp strip of a layout (document 01, "Lamps and book"): a code for each key of the octave, of two octaves where the scale is
// equalized, since its colours may alternate from octave to octave (document 02, W-204). A code has two bytes (W-207).
//
// Home, which is key 0 and every key whole octaves from it, is 0; natural keys have 1, sharp layers even codes from 2 on, flat layers odd
// codes from 3 on, and enharmonic ones 65,535. Lamps follow the layers and not the names.
// specs/: Lamps defines, Answers says what each call answers, Theorems and Examples state what holds.
// Every entry point answers every input; the module of parts asks for more, as its head says. Nothing is assumed.
#![tactic(auto)]

pub mod parts;

ghost use Rattle.std.specs.Prelude.{◌≡◌, length};
ghost use Rattle.answer.specs.Refusals.{outcome_of};
ghost use Rattle.answer.specs.Lent.{in_room, counted, Filled};
ghost use Rattle.layout_lamps.specs.Answers.{get_strip, get_lamp};

use answer::Refusal;
use layout::{IsomorphicLayout, prepared};
use pergen::stepping;

// The lamp code of each key of an octave, of two octaves where the scale is equalized (1, 2, 3, 4, 18, 10).
pub fn lamp_strip(layout: IsomorphicLayout, out: &mut [u16]) -> Result<usize, Refusal>
    ensures { Filled (in_room (length out.old) (get_strip layout)) (outcome_of result) out.old out.new }
{
    let found = layout::parts::ask(layout)?;
    parts::write_strip(layout_layers::parts::plan_of(found), out)
}

// How many codes `lamp_strip` writes (1, 2, 3, 4, 18).
pub fn strip_len(layout: IsomorphicLayout) -> Result<usize, Refusal>
    ensures { outcome_of result ≡ counted (get_strip layout) }
{
    let found = layout::parts::ask(layout)?;
    let plan = layout_layers::parts::plan_of(found);
    Ok(layout_layers::parts::entries(plan.equalized, plan.chain))
}

// The lamp code of one key, whatever its octave, below 0 too: what `lamp_strip` writes repeats (1, 2, 3, 4, 18).
pub fn lamp(layout: IsomorphicLayout, key: i32) -> Result<u16, Refusal>
    ensures { outcome_of result ≡ get_lamp layout key }
{
    let found = layout::parts::ask(layout)?;
    let prepared = prepared::prepare(found);
    let count = layout_layers::keys::entry_count(prepared.found.octave, prepared.found.pattern);
    let place = math::parts::rem_u32(key, count);
    let asked = stepping::key_at(prepared.solved, place);
    let total = layout_layers::keys::total_of(prepared);
    Ok(parts::lamp_of(prepared, total, asked))
}
