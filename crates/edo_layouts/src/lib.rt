// The layouts of an octave division, after `IsomorphicLayout::find_by_edo` in src/layout.rs of the original (document 02, W-202).
//
// Holds the layout of one chain, and the list of all chains that have one, where a caller says only into how many steps the octave is
// divided. Each has document 01's start, and says whether its tritave is the second choice, as the original's flag does.
// specs/: Layouts defines, Theorems and Examples state what holds.
// Every entry point answers every input; `parts` asks for more, as its head says. Nothing is assumed.
#![tactic(auto)]

pub mod parts;

ghost use Rattle.std.specs.Prelude.{◌≡◌, length};
ghost use Rattle.answer.specs.Refusals.{outcome_of};
ghost use Rattle.answer.specs.Lent.{in_room, Filled};
ghost use Rattle.edo_layouts.specs.Layouts.{chain_outcome, find_by_edo};

use answer::Refusal;
use layout::IsomorphicLayout;
use mos::Mos;

// A chain's layout, whether its tritave is the second choice, and the step pattern of its letters.
#[derive(Clone, Copy)]
pub struct EdoLayout {
    pub layout: IsomorphicLayout,
    pub second: bool,
    pub pattern: Mos,
}

// The layout of one chain where n steps make an octave: with the first choice for the tritave, or else with the second. Where neither gives
// one, the refusal is the first's (15, 1, 2, 3, 4).
pub fn find_chain_by_edo(n: u16, genchain: u16) -> Result<EdoLayout, Refusal>
    ensures { outcome_of result ≡ chain_outcome n genchain }
{
    let choices = edo_tritaves::tritaves(n)?;
    parts::serve(n, genchain, choices)
}

// The layouts of all chains that have one, by rising chain code: of each the code, the tritave, and 1 for the second choice, else 0
// (15, 10).
pub fn find_by_edo(n: u16, out: &mut [u16]) -> Result<usize, Refusal>
    ensures { Filled (in_room (length out.old) (find_by_edo n)) (outcome_of result) out.old out.new }
{
    let choices = edo_tritaves::tritaves(n)?;
    parts::write_layouts(n, choices, out)
}
