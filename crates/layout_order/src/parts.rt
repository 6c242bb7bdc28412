// One walk from key to key serves both ways: they differ in which of the two lists is in chain order. Degree and cycle are carried along,
// so that no key costs a division.
//
// Parts, and no entry points: callers have asked what a `requires` names.
ghost use Rattle.std.specs.Prelude.{◌≡◌, ◌&&◌, ◌≤◌, leb, length};
ghost use Rattle.answer.specs.Refusals.{outcome_of};
ghost use Rattle.answer.specs.Lent.{in_room, Filled};
ghost use Rattle.pergen.specs.Parts.{At};
ghost use Rattle.layout.specs.Parts.{layout_in};
ghost use Rattle.layout_order.specs.Parts.{other, position_in, rearranged, ordered_in, get_order};

use answer::Refusal;
use layout::prepared::Prepared;
use layout::{IsomorphicLayout, prepared};
use pergen::stepping;
use pergen::stepping::Key;

// The two orders that a list of entries may have: that of the chain, or that of the keys.
#[derive(Clone, Copy)]
pub(crate) enum ListOrder {
    Chain,
    Keys,
}

impl ListOrder {
    // The order that this one is not.
    fn other(self) -> ListOrder
        ensures { result ≡ other self }
    {
        match self {
            ListOrder::Chain => ListOrder::Keys,
            ListOrder::Keys => ListOrder::Chain,
        }
    }

    // Where a list in this order has the entry of a key.
    fn position_of(self, prepared: Prepared, key: Key) -> usize
        requires { At prepared.solved key }
        ensures { result ≡ position_in self prepared.found.octave prepared.found.generator key.number }
    {
        match self {
            ListOrder::Chain => key.cycle as usize * prepared.solved.reduced_period as usize
                + key.degree as usize,
            ListOrder::Keys => key.number as usize,
        }
    }
}

// Question 10 of both lists: has each of them an entry for every key of the octave?
fn both_hold(octave: u16, entries: usize, room: usize) -> bool
    ensures { result ≡ (leb octave entries && leb octave room) }
{
    let keys = octave as usize;
    keys <= entries && keys <= room
}

// Each key's entry from where the one list has it to where the other has.
fn put_order(prepared: Prepared, order: ListOrder, entries: &[u16], out: &mut [u16])
    requires { (prepared.found.octave ≤ length entries.now) × (prepared.found.octave ≤ length out.old) }
    ensures { out.new ≡ rearranged order prepared.found.octave prepared.found.generator entries.now prepared.found.octave out.old }
{
    let mut key = stepping::first(prepared.solved);
    for _ in 0..prepared.found.octave {
        let from = order.other().position_of(prepared, key);
        let to = order.position_of(prepared, key);
        out[to] = entries[from];
        key = stepping::next(prepared.solved, key);
    }
}

// The list in the other order (10, of either list).
fn write_order(
    prepared: Prepared,
    order: ListOrder,
    entries: &[u16],
    out: &mut [u16],
) -> Result<usize, Refusal>
    ensures { Filled (in_room (length out.old) (ordered_in order entries.now (layout_in prepared))) (outcome_of result) out.old out.new }
{
    let octave = prepared.found.octave;
    if !both_hold(octave, entries.len(), out.len()) {
        return Err(Refusal::Room);
    }
    put_order(prepared, order, entries, out);
    Ok(octave as usize)
}

// The list in this order, from the other (1, 2, 3, 4, 18, 10).
pub(crate) fn rearrange(
    layout: IsomorphicLayout,
    order: ListOrder,
    entries: &[u16],
    out: &mut [u16],
) -> Result<usize, Refusal>
    ensures { Filled (in_room (length out.old) (get_order order layout entries.now)) (outcome_of result) out.old out.new }
{
    let found = layout::parts::ask(layout)?;
    let prepared = prepared::prepare(found);
    write_order(prepared, order, entries, out)
}
