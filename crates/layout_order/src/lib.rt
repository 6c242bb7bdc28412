// A list of a layout's keys in the order of the chain, as the cap store files caps, and back in the order of the keys (document 02, W-214).
//
// Holds both ways. An entry is any number of 16 bits: a key's number, a cap's, a lamp code. The first `octave` entries of the list go to a
// second list, whose later entries stay as they are.
// specs/: Order defines, Answers says what each call answers, Theorems and Examples state what holds.
// Every entry point answers every input; `parts` asks for more, as its head says. Nothing is assumed.
#![tactic(auto)]

mod parts;

ghost use Rattle.std.specs.Prelude.{length};
ghost use Rattle.answer.specs.Refusals.{outcome_of};
ghost use Rattle.answer.specs.Lent.{in_room, Filled};
ghost use Rattle.layout_order.specs.Answers.{get_chain_order, get_key_order};

use crate::parts::ListOrder;
use answer::Refusal;
use layout::IsomorphicLayout;

// The entry of each key at its place in the chain: one cycle after the other, and in each the keys as the chain meets them
// (1, 2, 3, 4, 18, 10). A list that is shorter than the octave is refused with 10, whichever it is.
pub fn to_chain_order(
    layout: IsomorphicLayout,
    entries: &[u16],
    out: &mut [u16],
) -> Result<usize, Refusal>
    ensures { Filled (in_room (length out.old) (get_chain_order layout entries.now)) (outcome_of result) out.old out.new }
{
    parts::rearrange(layout, ListOrder::Chain, entries, out)
}

// The same entries back in the order of the keys (1, 2, 3, 4, 18, 10).
pub fn to_key_order(
    layout: IsomorphicLayout,
    entries: &[u16],
    out: &mut [u16],
) -> Result<usize, Refusal>
    ensures { Filled (in_room (length out.old) (get_key_order layout entries.now)) (outcome_of result) out.old out.new }
{
    parts::rearrange(layout, ListOrder::Keys, entries, out)
}
