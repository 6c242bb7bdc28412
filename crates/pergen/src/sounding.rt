// The place of a spelling and the key that it sounds: parts, and no entry points. Callers have asked questions 2, 5 and 6.
ghost use Rattle.std.specs.Prelude.{◌≡◌, ◌<◌, pos, ◌-ℤ◌};
ghost use Rattle.math.specs.Division.{remainder};
ghost use Rattle.pergen.specs.Spelling.{sounds};
ghost use Rattle.pergen.specs.Parts.{SidesOf, SmallSides};

use crate::{AccidentalsFormat, PerGen, Signs, Spelling};

// A place as a difference of two numbers.
#[derive(Clone, Copy)]
pub struct Sides {
    pub above: u64,
    pub below: u64,
}

// The symbol's index against the origin, with the sharps on the one side or the flats on the other.
pub fn sides_of(format: AccidentalsFormat, spelling: Spelling) -> Sides
    ensures { SidesOf format.num_symbols format.genchain_origin spelling result }
{
    let symbols = format.num_symbols as u64;
    let origin = format.genchain_origin as u64;
    let index = spelling.index as u64;
    let signs = spelling.signs;
    match signs {
        Signs::Sharps(count) => Sides {
            above: index + symbols * (count as u64),
            below: origin,
        },
        Signs::Flats(count) => Sides {
            above: index,
            below: symbols * (count as u64) + origin,
        },
    }
}

// The place itself.
pub(crate) fn difference(sides: Sides) -> i64
    requires { SmallSides sides }
    ensures { result ≡ pos sides.above -ℤ pos sides.below }
{
    (sides.above as i64) - (sides.below as i64)
}

// The place's remainder by the period.
fn place_in_period(sides: Sides, period: u64) -> u64
    requires { 0 < period }
    ensures { result ≡ remainder (pos sides.above -ℤ pos sides.below) period }
{
    let above = sides.above;
    let below = sides.below;
    if above < below {
        return period - 1 - (below - above - 1) % period;
    }
    (above - below) % period
}

// The place is reduced first, so that no product passes 64 bits.
pub fn sounded(pergen: PerGen, sides: Sides, stars: u16) -> u16
    requires { 0 < pergen.period }
    ensures { result ≡ sounds pergen.period pergen.generator (pos sides.above -ℤ pos sides.below) stars }
{
    let period = pergen.period as u64;
    let place = place_in_period(sides, period);
    let key = (pergen.generator as u64) * place + (stars as u64);
    (key % period) as u16
}
