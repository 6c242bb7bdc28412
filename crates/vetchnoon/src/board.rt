// The board: a list in chain order and back in key order, and the moves of a layout and of a whole walk.
ghost use Rattle.layout_moves.specs.Answers.{get_move_numbers};
ghost use Rattle.layout_order.specs.Answers.{get_chain_order, get_key_order};
ghost use Rattle.mos_moves.specs.Answers.{get_walk_moves};
ghost use Rattle.vetchnoon_codes.specs.Codes.{Fills};
ghost use Rattle.vetchnoon.specs.Written.{layout};

use crate::parts;

// The first octave many entries of a list, each at its key's place in the chain (1, 2, 3, 4, 18, 10).
#[unsafe(no_mangle)]
pub extern "C" fn vn_to_chain_order(
    chain: u16,
    octave: u16,
    tritave: u16,
    start: u16,
    keys: &[u16],
    out: &mut [u16],
) -> i64
    ensures { Fills (get_chain_order (layout chain octave tritave start) keys.now) result out.old out.new }
{
    let layout = parts::layout_of(chain, octave, tritave, start);
    vetchnoon_codes::count(layout_order::to_chain_order(layout, keys, out))
}

// The same entries back in the order of the keys (1, 2, 3, 4, 18, 10).
#[unsafe(no_mangle)]
pub extern "C" fn vn_to_key_order(
    chain: u16,
    octave: u16,
    tritave: u16,
    start: u16,
    keys: &[u16],
    out: &mut [u16],
) -> i64
    ensures { Fills (get_key_order (layout chain octave tritave start) keys.now) result out.old out.new }
{
    let layout = parts::layout_of(chain, octave, tritave, start);
    vetchnoon_codes::count(layout_order::to_key_order(layout, keys, out))
}

// The moves of the layout's pattern: the primary row's octaves and generators, then the secondary row's (1, 2, 3, 4, 18, 10).
#[unsafe(no_mangle)]
pub extern "C" fn vn_moves(
    chain: u16,
    octave: u16,
    tritave: u16,
    start: u16,
    out: &mut [i32],
) -> i64
    ensures { Fills (get_move_numbers (layout chain octave tritave start)) result out.old out.new }
{
    let layout = parts::layout_of(chain, octave, tritave, start);
    vetchnoon_codes::count(layout_moves::write_moves(layout, out))
}

// The moves of all patterns of the walk from a genesis, four numbers each (2, 10).
#[unsafe(no_mangle)]
pub extern "C" fn vn_walk_moves(period: u16, generator: u16, out: &mut [i32]) -> i64
    ensures { Fills (get_walk_moves period generator) result out.old out.new }
{
    vetchnoon_codes::count(mos_moves::walk_moves(period, generator, out))
}
