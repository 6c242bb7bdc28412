// The scale's name of a layout, after `IsomorphicLayout::get_scale_name` in src/layout.rs of the original.
//
// Holds the name and its length (document 01, "Step patterns"); the names stand in the table of `genchain::names`.
// The definitions are those of `layout`: ScaleNames says which name a pattern's scale has, Answers what each call answers.
// Every entry point answers every input; `parts` asks for more, as its head says. Nothing is assumed.
#![tactic(auto)]

pub mod parts;

ghost use Rattle.std.specs.Prelude.{◌≡◌, length};
ghost use Rattle.answer.specs.Refusals.{outcome_of};
ghost use Rattle.answer.specs.Lent.{in_room, counted, Filled};
ghost use Rattle.layout.specs.Answers.{get_scale_name};

use answer::Refusal;
use genchain::names;
use layout::IsomorphicLayout;

// How many bytes the scale's name has (1, 2, 3, 4, 18).
pub fn scale_name_len(layout: IsomorphicLayout) -> Result<usize, Refusal>
    ensures { outcome_of result ≡ counted (get_scale_name layout) }
{
    let found = layout::parts::ask(layout)?;
    Ok(names::text_len(parts::place_of(found.chain, found.pattern)))
}

// The scale's name, as "diatonic" (1, 2, 3, 4, 18, 10).
pub fn get_scale_name(layout: IsomorphicLayout, out: &mut [u8]) -> Result<usize, Refusal>
    ensures { Filled (in_room (length out.old) (get_scale_name layout)) (outcome_of result) out.old out.new }
{
    let found = layout::parts::ask(layout)?;
    names::fill(parts::place_of(found.chain, found.pattern), out)
}
