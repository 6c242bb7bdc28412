// The two spellings of a degree: parts, and no entry points. Callers have asked questions 5 and 6.
ghost use Rattle.std.specs.Prelude.{◌≡◌, ◌+◌, ◌≤◌, ◌<◌};
ghost use Rattle.pergen.specs.Spelling.{
  sharp_coordinate,
  flat_coordinate,
  low_sharp_index,
  low_flat_index,
  accidentals_of,
};

use crate::{Accidentals, AccidentalsFormat, Generation};

// d stays below twice the reduced period, so one comparison takes the remainder.
#[tactic(auto, unfolding(crate::specs::Spelling::sharp_coordinate))]
fn sharp_coordinate(reduced: u32, d: u32) -> u32
    requires { d < reduced + reduced }
    ensures { result ≡ sharp_coordinate reduced d }
{
    if d < reduced { d } else { d - reduced }
}

// d passes the last symbol by less than the reduced period, so one comparison takes the remainder.
#[tactic(auto, unfolding(crate::specs::Spelling::flat_coordinate))]
fn flat_coordinate(reduced: u32, symbols: u32, d: u32) -> u32
    requires { (0 < symbols) × (symbols ≤ reduced) × (d + 1 < symbols + reduced) × (reduced ≤ 65535) }
    ensures { result ≡ flat_coordinate reduced symbols d }
{
    let last = symbols - 1;
    if last < d {
        reduced + last - d
    } else {
        last - d
    }
}

#[tactic(auto, unfolding(crate::specs::Spelling::low_sharp_index))]
fn low_sharp_index(reduced: u32, symbols: u32, d: u32) -> u32
    requires { reduced ≤ symbols }
    ensures { result ≡ low_sharp_index reduced symbols d }
{
    if symbols <= d { d - reduced } else { d }
}

#[tactic(auto, unfolding(crate::specs::Spelling::low_flat_index))]
fn low_flat_index(reduced: u32, d: u32, degree: u32) -> u32
    ensures { result ≡ low_flat_index reduced d degree }
{
    if degree == 0 {
        return d;
    }
    if d < reduced { d } else { d - reduced }
}

// Both spellings of a degree: with signs where there are at least as many keys as symbols, and without them otherwise.
pub fn accidentals(
    reduced_period: u16,
    format: AccidentalsFormat,
    generation: Generation,
) -> Accidentals
    requires { (format.genchain_origin < format.num_symbols) × (generation.degree < reduced_period) }
    ensures { result ≡ accidentals_of reduced_period format.num_symbols format.genchain_origin generation.degree generation.cycle }
{
    let reduced = reduced_period as u32;
    let symbols = format.num_symbols as u32;
    let degree = generation.degree as u32;
    let d = (format.genchain_origin as u32) + degree;
    let cycle = generation.cycle;
    if reduced < symbols {
        let sharp = low_sharp_index(reduced, symbols, d);
        let flat = low_flat_index(reduced, d, degree);
        return Accidentals {
            cycle,
            sharp_index: sharp as u16,
            sharp_count: 0,
            flat_index: flat as u16,
            flat_count: 0,
        };
    }
    let sharp = sharp_coordinate(reduced, d);
    let flat = flat_coordinate(reduced, symbols, d);
    Accidentals {
        cycle,
        sharp_index: (sharp % symbols) as u16,
        sharp_count: (sharp / symbols) as u16,
        flat_index: (symbols - 1 - flat % symbols) as u16,
        flat_count: (flat / symbols) as u16,
    }
}
