// How far a retuning moves a note: one spelling's move, the table of moves, and the largest of them.
ghost use Rattle.std.specs.Prelude.{◌≡◌};
ghost use Rattle.layout_retuning.specs.Answers.{get_moved, get_move_table, get_largest_move};
ghost use Rattle.vetchnoon_codes.specs.Codes.{code_of, Fills};
ghost use Rattle.vetchnoon.specs.Written.{retuning, spelling};

use crate::parts;

// By how many steps round the octave the key that a spelling sounds moves: a letter, signs (sharps above 0, flats below), stars (1, 2, 3,
// 4, 18, of the second layout 3, 4, then 16, 21).
#[unsafe(no_mangle)]
pub extern "C" fn vn_moved(
    chain: u16,
    octave: u16,
    start: u16,
    from_tritave: u16,
    to_tritave: u16,
    letter: u16,
    signs: i32,
    stars: u16,
) -> i64
    ensures { result ≡ code_of (get_moved (retuning chain octave start from_tritave to_tritave) (spelling letter signs stars)) }
{
    let retuning = parts::retuning_of(chain, octave, start, from_tritave, to_tritave);
    vetchnoon_codes::number(layout_retuning::moved(retuning, letter, signs, stars))
}

// The moves of all letters, letter by letter along the chain, each from eight flats to eight sharps (1, 2, 3, 4, 18, of the second layout
// 3, 4, then 10).
#[unsafe(no_mangle)]
pub extern "C" fn vn_move_table(
    chain: u16,
    octave: u16,
    start: u16,
    from_tritave: u16,
    to_tritave: u16,
    out: &mut [u16],
) -> i64
    ensures { Fills (get_move_table (retuning chain octave start from_tritave to_tritave)) result out.old out.new }
{
    let retuning = parts::retuning_of(chain, octave, start, from_tritave, to_tritave);
    vetchnoon_codes::count(layout_retuning::move_table(retuning, out))
}

// The largest move in that table (1, 2, 3, 4, 18, of the second layout 3, 4).
#[unsafe(no_mangle)]
pub extern "C" fn vn_largest_move(
    chain: u16,
    octave: u16,
    start: u16,
    from_tritave: u16,
    to_tritave: u16,
) -> i64
    ensures { result ≡ code_of (get_largest_move (retuning chain octave start from_tritave to_tritave)) }
{
    let retuning = parts::retuning_of(chain, octave, start, from_tritave, to_tritave);
    vetchnoon_codes::number(layout_retuning::largest_move(retuning))
}
