// How many layouts the octave divisions have, chain by chain (document 02, W-202).
//
// Holds the report over all 400 divisions: a line for each chain code, with the number of its layouts with sharpness above 0, below 0 and
// at 0. The layouts are those of `edo_layouts`.
// specs/: Counts defines the report, Theorems states that it counts each layout once, Examples has small counts.
// The entry point answers every input; `parts` asks for more, as its head says. Nothing is assumed.
#![tactic(auto)]

pub mod parts;

ghost use Rattle.std.specs.Prelude.{length};
ghost use Rattle.answer.specs.Refusals.{outcome_of};
ghost use Rattle.answer.specs.Lent.{held_in, Filled};
ghost use Rattle.edo_counts.specs.Counts.{report};

use answer::Refusal;
use text::writer;

// The report at the front of a slice that holds it (10). It is short, so it is made first and measured.
pub fn report(out: &mut [u8]) -> Result<usize, Refusal>
    ensures { Filled (held_in (length out.old) report) (outcome_of result) out.old out.new }
{
    let mut text = [0u8; 144];
    let count = parts::put_report(&mut text);
    if out.len() < count {
        return Err(Refusal::Room);
    }
    writer::put_text(out, 0, &text[..count]);
    Ok(count)
}
