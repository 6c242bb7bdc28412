// Tables of moves by value: that of a genesis, that of a child, that of any pattern by its own numbers, and a walk's tables in a slice.
//
// Parts, and no entry points: each asks for a period above 0, for a table whose numbers are small, or for a pattern of the walk.
ghost use Rattle.std.specs.Prelude.{◌≡◌, ◌+◌, ◌≤◌, length};
ghost use Rattle.mos.specs.Patterns.{genesis};
ghost use Rattle.text.specs.Writing.{Wrote};
ghost use Rattle.mos_moves.specs.Moves.{
  genesis_moves,
  less_row,
  child_moves,
  pattern_moves,
  walk_moves,
  SmallRow,
  SmallTable,
  numbers_of,
  listed_moves,
};
ghost use Rattle.mos_moves.specs.Parts.{OnWalk};

use crate::Moves;
use mos::Mos;
use mos::pattern::Pattern;

// The moves of the genesis.
pub fn start(period: u16, generator: u16) -> Moves
    requires { 1 ≤ period }
    ensures { result ≡ genesis_moves period generator }
{
    let q = (generator / period) as i32;
    [[-q, 1], [1 + q, -1]]
}

// One row from another.
fn less_row(row: [i32; 2], other: [i32; 2]) -> [i32; 2]
    requires { SmallRow row × SmallRow other }
    ensures { result ≡ less_row row other }
{
    [row[0] - other[0], row[1] - other[1]]
}

// The moves of a pattern's child, from the pattern's: the shorter step's row is taken from the longer's.
pub fn child_moves(pattern: Mos, moves: Moves) -> Moves
    requires { SmallTable moves }
    ensures { result ≡ child_moves pattern moves }
{
    let primary = moves[0];
    let secondary = moves[1];
    if pattern.secondary_step < pattern.primary_step {
        return [less_row(primary, secondary), secondary];
    }
    [primary, less_row(secondary, primary)]
}

// The moves of a pattern of the walk by its own numbers: its generators are the other step's count, and so many generators and the step
// say how many octaves. No walk is gone.
pub fn pattern_moves(period: u16, generator: u16, pattern: Mos) -> Moves
    requires { (1 ≤ period) × OnWalk period generator pattern }
    ensures { result ≡ pattern_moves period generator pattern }
{
    let down = (pattern.num_secondary_steps as u32 * generator as u32 - pattern.primary_step as u32)
        / period as u32;
    let up = (pattern.num_primary_steps as u32 * generator as u32 + pattern.secondary_step as u32)
        / period as u32;
    [
        [-(down as i32), pattern.num_secondary_steps as i32],
        [up as i32, -(pattern.num_primary_steps as i32)],
    ]
}

// The four numbers of a table at a place; the place after them.
pub fn put_moves(out: &mut [i32], at: usize, moves: Moves) -> usize
    requires { (at + 4 ≤ length out.old) × SmallTable moves }
    ensures { Wrote out.old at (numbers_of moves) out.new result }
{
    let primary = moves[0];
    let secondary = moves[1];
    out[at] = primary[0];
    out[at + 1] = primary[1];
    out[at + 2] = secondary[0];
    out[at + 3] = secondary[1];
    at + 4
}

// The moves of the whole walk from its genesis, from the slice's front on; how many numbers that are. The walk goes by the four numbers, and
// the genesis is lent: as a `Pattern`, by value or in an option, they would be packed into one word and taken apart in every turn.
pub(crate) fn list_moves(period: u16, generator: u16, first: &Pattern, out: &mut [i32]) -> usize
    requires { (1 ≤ period) × (first.now.mos ≡ genesis period generator) × (length (listed_moves (walk_moves period generator)) ≤ length out.old) }
    ensures { Wrote out.old 0 (listed_moves (walk_moves period generator)) out.new result }
{
    let mut pattern = first.mos;
    let mut table = start(period, generator);
    let mut place = 0;
    while mos::parts::has_child(pattern) {
        place = put_moves(out, place, table);
        let next = child_moves(pattern, table);
        table = next;
        pattern = mos::parts::child_of(pattern);
    }
    put_moves(out, place, table)
}
