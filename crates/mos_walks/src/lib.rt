// Walks from a step pattern: the search for a number of steps, the k-th child and parent, and the genesis, after `Mos` of
// src/pergen.rs of the original.
//
// Holds what asks for one pattern of a walk (document 01, "Step patterns"); `mos_listings` writes whole walks. `parts` holds the
// walks themselves, which call themselves; `search` holds the search that making a layout goes by, a loop (document 02, W-205).
// Every entry point answers any four numbers; what is no pattern is refused (7).
// The definitions and theorems are those of `mos`: Walks defines, Answers says what each call answers, Theorems, Scale and
// IntervalClasses state what holds of every walk. Nothing is assumed; that the self calls become loops is measured and not proved.
#![tactic(auto)]

pub mod parts;
pub mod search;

ghost use Rattle.std.specs.Prelude.{◌≡◌, slice_get};
ghost use Rattle.answer.specs.Refusals.{outcome_of};
ghost use Rattle.mos.specs.Walks.{children, parents, first_with, genesis_of};
ghost use Rattle.mos.specs.Answers.{of_pattern};

use answer::Refusal;
use mos::Mos;
use mos::pattern::Pattern;

// The first pattern of the walk of children with so many steps: as many as the chain has letters (7).
pub fn find_child(mos: Mos, num_steps: u32) -> Result<Option<Mos>, Refusal>
    ensures { outcome_of result ≡ of_pattern mos (first_with num_steps (children mos)) }
{
    let pattern = Pattern::of(mos)?;
    let mut found = None;
    parts::seek(
        pattern.mos.num_primary_steps,
        pattern.mos.num_secondary_steps,
        pattern.mos.primary_step,
        pattern.mos.secondary_step,
        num_steps,
        &mut found,
    );
    Ok(found)
}

// The k-th pattern of the walk of children, this one for 0 (7).
pub fn nth_child(mos: Mos, k: u32) -> Result<Option<Mos>, Refusal>
    ensures { outcome_of result ≡ of_pattern mos (slice_get (children mos) k) }
{
    let pattern = Pattern::of(mos)?;
    let mut found = None;
    parts::descend(pattern, k, &mut found);
    Ok(found)
}

// The k-th pattern of the walk of parents, this one for 0 (7).
pub fn nth_parent(mos: Mos, k: u32) -> Result<Option<Mos>, Refusal>
    ensures { outcome_of result ≡ of_pattern mos (slice_get (parents mos) k) }
{
    let pattern = Pattern::of(mos)?;
    let mut found = None;
    parts::ascend(pattern, k, &mut found);
    Ok(found)
}

// The last of its parents, itself where it has none (7). For a pattern on the walk from a genesis, that genesis, which shows the generator.
pub fn genesis(mos: Mos) -> Result<Mos, Refusal>
    ensures { outcome_of result ≡ of_pattern mos (genesis_of mos) }
{
    let pattern = Pattern::of(mos)?;
    let mut last = pattern.mos;
    parts::root(pattern, &mut last);
    Ok(last)
}
