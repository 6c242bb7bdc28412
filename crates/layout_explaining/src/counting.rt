// The numbers of an explanation: parts, and no entry points. Callers have asked the questions of both spellings.
ghost use Rattle.std.specs.Prelude.{◌≡◌, ◌<◌, pos, ◌-ℤ◌};
ghost use Rattle.pergen.specs.Parts.{SidesOf, SmallSides};
ghost use Rattle.layout.specs.Parts.{layout_of};
ghost use Rattle.layout_explaining.specs.Explanations.{standing_of, verdict_by, explanation_of};
ghost use Rattle.layout_explaining.specs.Parts.{between_sides};

use crate::{Explanation, Standing, Verdict};
use layout::parts::Found;
use layout_reading::reader::Reader;
use pergen::sounding::Sides;
use pergen::{AccidentalsFormat, PerGen, Spelling, sounding};

// A place, from its two sides.
fn place_of(sides: Sides) -> i64
    requires { SmallSides sides }
    ensures { result ≡ pos sides.above -ℤ pos sides.below }
{
    (sides.above as i64) - (sides.below as i64)
}

// How far apart two places are.
fn between(one: Sides, other: Sides) -> u64
    requires { SmallSides one × SmallSides other }
    ensures { result ≡ between_sides one other }
{
    let up = one.above + other.below;
    up.abs_diff(one.below + other.above)
}

// The sides of a spelling's place.
fn sides_in(found: Found, spelling: Spelling) -> Sides
    ensures { SidesOf found.num_letters found.start spelling result }
{
    let format = AccidentalsFormat {
        num_symbols: found.num_letters,
        genchain_origin: found.start,
    };
    sounding::sides_of(format, spelling)
}

// Where a spelling stands.
fn standing(found: Found, spelling: Spelling, sides: Sides) -> Standing
    requires { SidesOf found.num_letters found.start spelling sides }
    ensures { result ≡ standing_of (layout_of found) spelling }
{
    let pergen = PerGen {
        period: found.octave,
        generator: found.generator,
    };
    Standing {
        place: place_of(sides),
        stars: spelling.stars,
        key: sounding::sounded(pergen, sides, spelling.stars),
    }
}

// What follows from stars, distance and reduced period.
fn verdict(one: u16, other: u16, apart: u64, reduced_period: u16) -> Verdict
    requires { 0 < reduced_period }
    ensures { result ≡ verdict_by one other apart reduced_period }
{
    if one != other {
        return Verdict::TwoChains;
    }
    if apart % (reduced_period as u64) == 0 {
        return Verdict::OneKey;
    }
    Verdict::OneChain
}

// The explanation of two spellings. Inlined: called, it would want the whole `Reader` in memory, which is written in pieces.
#[inline(always)]
pub(crate) fn explanation(reader: Reader, one: Spelling, other: Spelling) -> Explanation
    ensures { result ≡ explanation_of (layout_of reader.found) one other }
{
    let found = reader.found;
    let reduced_period = found.octave / reader.cycles;
    let first = sides_in(found, one);
    let second = sides_in(found, other);
    let apart = between(first, second);
    Explanation {
        first: standing(found, one, first),
        second: standing(found, other, second),
        apart,
        reduced_period,
        verdict: verdict(one.stars, other.stars, apart, reduced_period),
    }
}
