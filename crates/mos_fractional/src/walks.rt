// The walk of children as loops: one pattern at a time, whatever the generator, in a fixed stack.
//
// Parts, and no entry points: those with a `requires` ask for counts above 0, without which a walk might not end.
ghost use Rattle.std.specs.Prelude.{◌≡◌, length, slice_get};
ghost use Rattle.answer.specs.Refusals.{outcome_of};
ghost use Rattle.mos_fractional.specs.Walk.{children};
ghost use Rattle.mos_fractional.specs.Answers.{listing_outcome};
ghost use Rattle.mos_fractional.specs.Parts.{Growing, Turns, stored_of, answered_of};

use crate::FractionalMos;
use answer::Refusal;

// The k-th pattern of the walk from m, m itself for 0.
pub(crate) fn nth_from(m: FractionalMos, k: u32) -> Option<FractionalMos>
    requires { Growing m }
    ensures { result ≡ slice_get (children m) k }
{
    let mut here = m;
    for _ in 0..k {
        here = here.child()?;
    }
    Some(here)
}

// How many patterns the walk from m has, m included.
pub(crate) fn count_from(m: FractionalMos) -> usize
    requires { Growing m }
    ensures { result ≡ length (children m) }
{
    let mut here = m;
    let mut count: usize = 1;
    while let Some(child) = here.child() {
        here = child;
        count += 1;
    }
    count
}

// What a listing into a slice of `room` patterns stores first, if it stores any (22, 10). Patterns are counted only where a walk could be
// too long for the slice: none has more than 65,535.
pub(crate) fn first(generator: f64, room: usize) -> Option<FractionalMos>
    ensures { Turns result (stored_of (listing_outcome generator room)) }
{
    let Ok(pattern) = FractionalMos::new_genesis(generator) else {
        return None;
    };
    if 65534 < room {
        return Some(pattern);
    }
    let count = count_from(pattern);
    if room < count {
        return None;
    }
    Some(pattern)
}

// What a listing that stored `count` patterns answers. No walk is empty: where nothing was stored the generator is no number (22), or the
// slice too short (10).
pub(crate) fn answer(generator: f64, count: usize) -> Result<usize, Refusal>
    ensures { outcome_of result ≡ answered_of generator count }
{
    if 0 < count {
        return Ok(count);
    }
    let _genesis = FractionalMos::new_genesis(generator)?;
    Err(Refusal::Room)
}
