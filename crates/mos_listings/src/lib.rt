// Listings of the walks of a step pattern: all its children, all its parents, and how many numbers that takes, after `Mos` of
// src/pergen.rs of the original (document 01, "Step patterns").
//
// `parts` holds the listing, one for both walks, and the counting by leaps.
// Every entry point answers any four numbers; what is no pattern is refused (7), and so is a slice that is too short (10).
// The definitions are those of `mos`: Walks defines, Answers says what each call answers. Nothing is assumed; that the self calls of `parts`
// become loops, or keep few frames, is measured and not proved.
#![tactic(auto)]

pub mod parts;

ghost use Rattle.std.specs.Prelude.{◌≡◌, length};
ghost use Rattle.answer.specs.Refusals.{outcome_of};
ghost use Rattle.answer.specs.Lent.{Filled};
ghost use Rattle.mos.specs.Walks.{children, parents, listed};
ghost use Rattle.mos.specs.Answers.{of_pattern, listing_outcome};

use answer::Refusal;
use mos::Mos;
use mos::pattern::Pattern;

// The walk of children of a pattern, and the walk of parents, which goes along the children of the pattern's dual.
#[derive(Clone, Copy)]
pub enum Walk {
    Children,
    Parents,
}

// How many numbers `children` writes (7).
pub fn children_len(mos: Mos) -> Result<usize, Refusal>
    ensures { outcome_of result ≡ of_pattern mos (length (listed (children mos))) }
{
    let pattern = Pattern::of(mos)?;
    Ok(parts::count_children(pattern) as usize * 4)
}

// How many numbers `parents` writes (7).
pub fn parents_len(mos: Mos) -> Result<usize, Refusal>
    ensures { outcome_of result ≡ of_pattern mos (length (listed (parents mos))) }
{
    let pattern = Pattern::of(mos)?;
    Ok(parts::count_children(pattern.dual()) as usize * 4)
}

// All patterns of the walk of children, this one first, four numbers each: both counts, both steps (7, 10).
pub fn children(mos: Mos, out: &mut [u16]) -> Result<usize, Refusal>
    ensures { Filled (listing_outcome mos (children mos) (length out.old)) (outcome_of result) out.old out.new }
{
    let pattern = Pattern::of(mos)?;
    parts::fill(Walk::Children, pattern, out)
}

// All patterns of the walk of parents, this one first, four numbers each: both counts, both steps (7, 10).
pub fn parents(mos: Mos, out: &mut [u16]) -> Result<usize, Refusal>
    ensures { Filled (listing_outcome mos (parents mos) (length out.old)) (outcome_of result) out.old out.new }
{
    let pattern = Pattern::of(mos)?;
    parts::fill(Walk::Parents, pattern.dual(), out)
}
