// The names of keys as text, after `NoteFormatter` in src/pergen.rs of the original.
//
// Holds the text of a name from a key's accidentals, the letters of a chain and the sign style, its length, and writing it
// into a lent slice (document 01, "Pergen and spelling", the paragraph "Name").
// specs/: Names defines the text, Reading a reader of it, Answers says what each call answers, Theorems what a name tells.
// `sharp_first` is the style: the primary step is at least the secondary. Signs are then # and b, else - and +.
// Every entry point answers every input; the modules of parts ask for more, as their heads say. Nothing is assumed.
#![tactic(auto)]

pub mod plans;
pub mod texts;

ghost use Rattle.std.specs.Prelude.{◌≡◌, length};
ghost use Rattle.answer.specs.Refusals.{outcome_of};
ghost use Rattle.answer.specs.Lent.{Filled};
ghost use Rattle.notes.specs.Answers.{name_length_outcome, name_outcome};

use answer::Refusal;
use genchain::rows;
use pergen::Accidentals;

// How many bytes the name of a key with these accidentals has, in the letters of a chain (1).
pub fn name_len(code: u16, accidentals: Accidentals, sharp_first: bool) -> Result<usize, Refusal>
    ensures { outcome_of result ≡ name_length_outcome code sharp_first accidentals }
{
    let row = rows::read(code)?;
    let plan = plans::plan_name(row, accidentals, sharp_first);
    Ok(plans::plan_length(plan))
}

// The name of a key with these accidentals, in the letters of a chain, as an engraver cuts it (1, 10).
pub fn write_name(
    code: u16,
    accidentals: Accidentals,
    sharp_first: bool,
    out: &mut [u8],
) -> Result<usize, Refusal>
    ensures { Filled (name_outcome code sharp_first accidentals (length out.old)) (outcome_of result) out.old out.new }
{
    let row = rows::read(code)?;
    let plan = plans::plan_name(row, accidentals, sharp_first);
    texts::write_planned(plan, out)
}
