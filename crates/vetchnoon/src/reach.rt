// Keys by their distance: the nearest key of a letter, and the keys in reach of a key.
ghost use Rattle.std.specs.Prelude.{◌≡◌};
ghost use Rattle.layout_reach.specs.Answers.{get_nearest, get_reach};
ghost use Rattle.vetchnoon_codes.specs.Codes.{code_of, Fills};
ghost use Rattle.vetchnoon.specs.Written.{layout};

use crate::parts;

// The key of the octave nearest to a key, of those that a letter alone names, with any stars (1, 2, 3, 4, 18, 16).
#[unsafe(no_mangle)]
pub extern "C" fn vn_nearest_natural(
    chain: u16,
    octave: u16,
    tritave: u16,
    start: u16,
    key: i32,
    letter: u16,
) -> i64
    ensures { result ≡ code_of (get_nearest (layout chain octave tritave start) key letter) }
{
    let layout = parts::layout_of(chain, octave, tritave, start);
    vetchnoon_codes::number(layout_reach::nearest_natural(layout, key, letter))
}

// The keys of the octave within a distance of a key, rising (1, 2, 3, 4, 18, 10).
#[unsafe(no_mangle)]
pub extern "C" fn vn_keys_in_reach(
    chain: u16,
    octave: u16,
    tritave: u16,
    start: u16,
    key: i32,
    distance: u16,
    out: &mut [u16],
) -> i64
    ensures { Fills (get_reach (layout chain octave tritave start) key distance) result out.old out.new }
{
    let layout = parts::layout_of(chain, octave, tritave, start);
    vetchnoon_codes::count(layout_reach::keys_in_reach(layout, key, distance, out))
}
