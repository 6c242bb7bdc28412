// Both layouts of a retuning, and the moves between them: parts, and no entry points. Callers have asked the questions that a `requires`
// names.
ghost use Rattle.std.specs.Prelude.{◌≡◌, ◌+◌, ◌*◌, ◌%◌, ◌<◌, ◌≤◌, pos, ◌-ℤ◌, length};
ghost use Rattle.answer.specs.Refusals.{outcome_of};
ghost use Rattle.answer.specs.Lent.{held_in, Filled};
ghost use Rattle.text.specs.Writing.{Wrote};
ghost use Rattle.pergen.specs.Spelling.{sounds};
ghost use Rattle.layout_retuning.specs.Retunings.{largest};
ghost use Rattle.layout_retuning.specs.Parts.{layout_at, get_tunings, tunings_outcome, numbers_of, keys_at, steps_by, moved_by, table_by, table_keys, StridesOf, table_length};

use crate::Retuning;
use crate::tunings::Tunings;
use answer::Refusal;
use layout::IsomorphicLayout;
use layout_reach::parts::distance;
use pergen::sounding::Sides;
use pergen::{AccidentalsFormat, PerGen, Spelling};

// The layout with this tritave.
fn layout_at(retuning: Retuning, tritave: u16) -> IsomorphicLayout
    ensures { result ≡ layout_at retuning tritave }
{
    IsomorphicLayout {
        genchain: retuning.genchain,
        octave: retuning.octave,
        tritave,
        start: retuning.start,
    }
}

// Questions 1 to 4 and 18 of the first layout, then those of the second, of which only 3 and 4 may have the answer no.
pub(crate) fn ask(retuning: Retuning) -> Result<Tunings, Refusal>
    ensures { tunings_outcome result ≡ get_tunings retuning }
{
    let one = layout::parts::ask(layout_at(retuning, retuning.from_tritave))?;
    let other = layout::parts::ask(layout_at(retuning, retuning.to_tritave))?;
    Ok(Tunings {
        octave: one.octave,
        num_letters: one.num_letters,
        start: one.start,
        first: one.generator,
        second: other.generator,
    })
}

// The keys that one place of the chain sounds in both tunings.
#[derive(Clone, Copy)]
pub(crate) struct Keys {
    pub first: u16,
    pub second: u16,
}

// The key of a place in one tuning, with so many stars.
fn key_at(octave: u16, generator: u16, place: Sides, stars: u16) -> u16
    requires { 0 < octave }
    ensures { result ≡ sounds octave generator (pos place.above -ℤ pos place.below) stars }
{
    let pergen = PerGen {
        period: octave,
        generator,
    };
    pergen::sounding::sounded(pergen, place, stars)
}

// Both keys of a place, with so many stars.
fn keys_at(tunings: Tunings, place: Sides, stars: u16) -> Keys
    ensures { result ≡ keys_at (numbers_of tunings) (pos place.above -ℤ pos place.below) stars }
{
    Keys {
        first: key_at(tunings.octave, tunings.first, place, stars),
        second: key_at(tunings.octave, tunings.second, place, stars),
    }
}

// The distance of the keys that a spelling sounds in both tunings: its place on the chain is the same, the generator another.
fn steps(tunings: Tunings, spelling: Spelling) -> u16
    ensures { result ≡ steps_by (numbers_of tunings) spelling }
{
    let format = AccidentalsFormat {
        num_symbols: tunings.num_letters,
        genchain_origin: tunings.start,
    };
    let place = pergen::sounding::sides_of(format, spelling);
    let keys = keys_at(tunings, place, spelling.stars);
    distance(tunings.octave, keys.first, keys.second)
}

// The move of a spelling (16, and 21 of both tunings).
pub(crate) fn moved_in(tunings: Tunings, spelling: Spelling) -> Result<u16, Refusal>
    ensures { outcome_of result ≡ moved_by (numbers_of tunings) spelling }
{
    let stars = spelling.stars;
    if tunings.num_letters <= spelling.index {
        return Err(Refusal::Letter);
    }
    if math::gcd_u16(tunings.octave, tunings.first) <= stars
        || math::gcd_u16(tunings.octave, tunings.second) <= stars
    {
        return Err(Refusal::Stars);
    }
    Ok(steps(tunings, spelling))
}

// How many moves the table has: seventeen for each letter.
pub(crate) fn entries(tunings: Tunings) -> u16
    ensures { result ≡ table_length (numbers_of tunings) }
{
    tunings.num_letters * 17
}

// How far both keys go on from an entry of the table to the next: by one sharp, or from a letter's eight sharps to the next letter's eight
// flats, one letter on and sixteen signs back. So no entry costs a division.
#[derive(Clone, Copy)]
pub(crate) struct Strides {
    pub sharp: Keys,
    pub letter: Keys,
}

fn strides_of(tunings: Tunings) -> Strides
    ensures { StridesOf (numbers_of tunings) result }
{
    let letters = tunings.num_letters as u64;
    let on = Sides {
        above: letters,
        below: 0,
    };
    let back = Sides {
        above: 1,
        below: letters * 16,
    };
    Strides {
        sharp: keys_at(tunings, on, 0),
        letter: keys_at(tunings, back, 0),
    }
}

// Both keys of the table's first entry, the first letter with eight flats.
fn first_keys(tunings: Tunings) -> Keys
    ensures { result ≡ table_keys (numbers_of tunings) 0 }
{
    let flats = Sides {
        above: 0,
        below: (tunings.num_letters as u64) * 8 + (tunings.start as u64),
    };
    keys_at(tunings, flats, 0)
}

// The key that is so far on, round the octave.
fn raised(octave: u16, key: u16, by: u16) -> u16
    requires { (key < octave) × (by < octave) }
    ensures { result ≡ (key + by) % octave }
{
    let left = octave - by;
    if key < left {
        return key + by;
    }
    key - left
}

// Both keys, each so far on.
fn both_raised(octave: u16, keys: Keys, by: Keys) -> Keys
    requires { (keys.first < octave) × (by.first < octave) × (keys.second < octave) × (by.second < octave) }
    ensures { (result.first ≡ (keys.first + by.first) % octave) × (result.second ≡ (keys.second + by.second) % octave) }
{
    Keys {
        first: raised(octave, keys.first, by.first),
        second: raised(octave, keys.second, by.second),
    }
}

// Both keys of the next entry. Each stride has a return of its own: one that is chosen first is packed in every turn.
fn next_keys(tunings: Tunings, strides: Strides, entry: u16, keys: Keys) -> Keys
    requires { StridesOf (numbers_of tunings) strides × (keys ≡ table_keys (numbers_of tunings) entry) }
    ensures { result ≡ table_keys (numbers_of tunings) (entry + 1) }
{
    if entry % 17 == 16 {
        return both_raised(tunings.octave, keys, strides.letter);
    }
    both_raised(tunings.octave, keys, strides.sharp)
}

// So many entries of the table at the front of a slice that holds them.
fn put_moves(out: &mut [u16], tunings: Tunings, count: u16)
    requires { count ≤ length out.old }
    ensures { Wrote out.old 0 (table_by (numbers_of tunings) count) out.new count }
{
    let strides = strides_of(tunings);
    let mut keys = first_keys(tunings);
    for entry in 0..count {
        out[entry as usize] = distance(tunings.octave, keys.first, keys.second);
        keys = next_keys(tunings, strides, entry, keys);
    }
}

// The table at the front of a slice that holds it (10).
pub(crate) fn write_table(tunings: Tunings, out: &mut [u16]) -> Result<usize, Refusal>
    ensures { Filled (held_in (length out.old) (table_by (numbers_of tunings) (table_length (numbers_of tunings)))) (outcome_of result) out.old out.new }
{
    let count = entries(tunings);
    if out.len() < count as usize {
        return Err(Refusal::Room);
    }
    put_moves(out, tunings, count);
    Ok(count as usize)
}

// The largest move of the table. The walk is that of `put_moves`: an iterator of the moves would carry strides, keys and entry itself, and be
// longer than both loops.
pub(crate) fn largest_in(tunings: Tunings) -> u16
    ensures { result ≡ largest (table_by (numbers_of tunings) (table_length (numbers_of tunings))) }
{
    let count = entries(tunings);
    let strides = strides_of(tunings);
    let mut keys = first_keys(tunings);
    let mut most: u16 = 0;
    for entry in 0..count {
        most = most.max(distance(tunings.octave, keys.first, keys.second));
        keys = next_keys(tunings, strides, entry, keys);
    }
    most
}
