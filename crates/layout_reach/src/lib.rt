// The nearest key of a letter, and the keys in reach of a key (document 02, W-203).
//
// Holds the answer to a lost pupil: which key of the octave that is named by a letter alone, with any stars, is nearest, counted round the
// octave; and the list of all keys within a distance.
// specs/: Reach defines, Answers says what each call answers, Theorems and Examples state what holds.
// Every entry point answers every input; `parts` asks for more, as its head says. Nothing is assumed.
#![tactic(auto)]

pub mod parts;

ghost use Rattle.std.specs.Prelude.{◌≡◌, length};
ghost use Rattle.answer.specs.Refusals.{outcome_of};
ghost use Rattle.answer.specs.Lent.{in_room, Filled};
ghost use Rattle.layout_reach.specs.Answers.{get_nearest, get_reach, CountsReach};

use answer::Refusal;
use layout::IsomorphicLayout;

// The key of the octave nearest to a key, among those whose name is the letter at this place in the chain, with any stars; of two equally
// near the lower (1, 2, 3, 4, 18, 16).
pub fn nearest_natural(layout: IsomorphicLayout, key: i32, letter: u16) -> Result<u16, Refusal>
    ensures { outcome_of result ≡ get_nearest layout key letter }
{
    let found = layout::parts::ask(layout)?;
    parts::nearest_of_letter(found, key, letter)
}

// The keys of the octave within a distance of a key, rising (1, 2, 3, 4, 18, 10).
pub fn keys_in_reach(
    layout: IsomorphicLayout,
    key: i32,
    distance: u16,
    out: &mut [u16],
) -> Result<usize, Refusal>
    ensures { Filled (in_room (length out.old) (get_reach layout key distance)) (outcome_of result) out.old out.new }
{
    let found = layout::parts::ask(layout)?;
    parts::write_reach(found.octave, key, distance, out)
}

// How many keys `keys_in_reach` writes, whatever the key (1, 2, 3, 4, 18).
pub fn keys_in_reach_len(layout: IsomorphicLayout, distance: u16) -> Result<usize, Refusal>
    ensures { CountsReach layout distance (outcome_of result) }
{
    let found = layout::parts::ask(layout)?;
    Ok(parts::reach_count(found.octave, distance))
}
