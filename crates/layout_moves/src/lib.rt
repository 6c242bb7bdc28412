// The board's moves of a layout: what a primary and a secondary step of its own pattern are in octaves and generators (document 02, W-214).
//
// Holds them as a table, beside the pattern, and as four numbers in a slice; `mos_moves` has the moves of every pattern of a walk, and all
// that holds of them.
// specs/: Answers says what each call answers, Theorems and Examples state what holds. Every entry point answers every input. Nothing is
// assumed.
#![tactic(auto)]

ghost use Rattle.std.specs.Prelude.{length};
ghost use Rattle.answer.specs.Refusals.{outcome_of};
ghost use Rattle.answer.specs.Lent.{in_room, Filled};
ghost use Rattle.mos_moves.specs.Answers.{Tabled};
ghost use Rattle.layout.specs.Answers.{get_mos};
ghost use Rattle.layout_moves.specs.Answers.{get_moves, get_move_numbers};

use answer::Refusal;
use layout::IsomorphicLayout;
use mos::Mos;
use mos_moves::Moves;

// The pattern of the layout's letters, with its moves in the lent table: the primary row first, octaves before generators (1, 2, 3, 4, 18).
pub fn get_moves(layout: IsomorphicLayout, moves: &mut Moves) -> Result<Mos, Refusal>
    ensures { Tabled (outcome_of result) (get_mos layout) (get_moves layout) moves.old moves.new }
{
    let found = layout::parts::ask(layout)?;
    let pattern = found.pattern;
    *moves = mos_moves::parts::pattern_moves(found.octave, found.generator, pattern);
    Ok(pattern)
}

// The same four numbers at the front of a slice: the primary row's octaves and generators, then the secondary row's (1, 2, 3, 4, 18, 10).
pub fn write_moves(layout: IsomorphicLayout, out: &mut [i32]) -> Result<usize, Refusal>
    ensures { Filled (in_room (length out.old) (get_move_numbers layout)) (outcome_of result) out.old out.new }
{
    let found = layout::parts::ask(layout)?;
    if out.len() < 4 {
        return Err(Refusal::Room);
    }
    let pattern = found.pattern;
    let moves = mos_moves::parts::pattern_moves(found.octave, found.generator, pattern);
    Ok(mos_moves::parts::put_moves(out, 0, moves))
}
