// How a layout is found, and the key that a spelling sounds in it: parts, and no entry points.
ghost use Rattle.std.specs.Prelude.{◌≡◌, ◌<◌, ◌%◌};
ghost use Rattle.answer.specs.Outcome.{given};
ghost use Rattle.answer.specs.Refusals.{outcome_of};
ghost use Rattle.genchain.specs.Answers.{generator_outcome};
ghost use Rattle.genchain.specs.Chains.{chain_of, row_of};
ghost use Rattle.mos.specs.Patterns.{genesis};
ghost use Rattle.mos.specs.Walks.{children, first_with};
ghost use Rattle.layout.specs.Layouts.{letters_of, with_pattern, layout_outcome};
ghost use Rattle.layout.specs.Answers.{sounded_in};
ghost use Rattle.layout.specs.Parts.{layout_of, found_outcome};

use crate::IsomorphicLayout;
use crate::parts::Found;
use answer::Refusal;
use genchain::rows;
use genchain::rows::ChainRow;
use mos::Mos;
use mos_walks::search;
use pergen::{AccidentalsFormat, PerGen, Spelling};

// The generator within the octave: few are not below it, and these alone are divided.
pub fn within_octave(octave: u16, generator: u16) -> u16
    requires { 0 < octave }
    ensures { result ≡ generator % octave }
{
    if generator < octave {
        return generator;
    }
    generator % octave
}

// The layout with this generator, and the pattern that the walk from its genesis meets (4, 18).
fn with_pattern(
    layout: IsomorphicLayout,
    num_letters: u16,
    generator: u16,
) -> Result<Found, Refusal>
    requires { (num_letters ≡ letters_of layout.genchain) × (generator_outcome layout.genchain layout.octave layout.tritave ≡ given generator) }
    ensures { found_outcome result ≡ with_pattern layout generator (first_with (letters_of layout.genchain) (children (genesis layout.octave generator))) }
{
    let octave = layout.octave;
    let step = within_octave(octave, generator);
    let rest = octave - step;
    let genesis = Mos {
        num_primary_steps: 1,
        num_secondary_steps: 1,
        primary_step: step,
        secondary_step: rest,
    };
    let Some(pattern) = search::first_with(genesis, num_letters as u32) else {
        return Err(Refusal::Pattern);
    };
    let start = layout.start;
    if num_letters <= start {
        return Err(Refusal::Start);
    }
    Ok(Found {
        chain: layout.genchain,
        octave,
        tritave: layout.tritave,
        generator,
        num_letters,
        start,
        pattern,
    })
}

// Questions 1 to 4 and 18, of a layout whose chain has so many letters. Numbers, and no records: they stay in registers.
fn ask_with_letters(
    genchain: u16,
    octave: u16,
    tritave: u16,
    start: u16,
    num_letters: u16,
) -> Result<Found, Refusal>
    requires { num_letters ≡ letters_of genchain }
    ensures { found_outcome result ≡ layout_outcome (record { genchain = genchain; octave = octave; tritave = tritave; start = start }) }
{
    let generator = genchain::generator(genchain, octave, tritave)?;
    let layout = IsomorphicLayout {
        genchain,
        octave,
        tritave,
        start,
    };
    with_pattern(layout, num_letters, generator)
}

// Questions 1 to 4 and 18, of a layout whose chain has this row.
pub fn ask_with_row(layout: IsomorphicLayout, row: ChainRow) -> Result<Found, Refusal>
    requires { row ≡ row_of (chain_of layout.genchain) }
    ensures { found_outcome result ≡ layout_outcome layout }
{
    ask_with_letters(
        layout.genchain,
        layout.octave,
        layout.tritave,
        layout.start,
        row.num_letters,
    )
}

// Questions 1 to 4 and 18.
pub fn ask(layout: IsomorphicLayout) -> Result<Found, Refusal>
    ensures { found_outcome result ≡ layout_outcome layout }
{
    let chain = rows::numbers(layout.genchain);
    ask_with_letters(
        layout.genchain,
        layout.octave,
        layout.tritave,
        layout.start,
        chain.num_letters,
    )
}

// The key that a spelling sounds (16, 21).
pub(crate) fn sounded(found: Found, spelling: Spelling) -> Result<u16, Refusal>
    ensures { outcome_of result ≡ sounded_in (layout_of found) spelling }
{
    let stars = spelling.stars;
    if found.num_letters <= spelling.index {
        return Err(Refusal::Letter);
    }
    if math::gcd_u16(found.octave, found.generator) <= stars {
        return Err(Refusal::Stars);
    }
    let format = AccidentalsFormat {
        num_symbols: found.num_letters,
        genchain_origin: found.start,
    };
    let pergen = PerGen {
        period: found.octave,
        generator: found.generator,
    };
    let sides = pergen::sounding::sides_of(format, spelling);
    Ok(pergen::sounding::sounded(pergen, sides, stars))
}
