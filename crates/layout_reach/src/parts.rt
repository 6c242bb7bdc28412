// Distances round the octave, and what is found by them: parts, and no entry points. Callers have asked the questions that a `requires`
// names.
ghost use Rattle.std.specs.Prelude.{◌≡◌, ◌+◌, ◌*◌, ◌<◌, ◌≤◌, ◌-◌, min, pos, length};
ghost use Rattle.answer.specs.Refusals.{outcome_of};
ghost use Rattle.answer.specs.Lent.{held_in, Filled};
ghost use Rattle.text.specs.Writing.{Room, Wrote};
ghost use Rattle.layout.specs.Parts.{layout_of};
ghost use Rattle.layout_reach.specs.Answers.{nearest_in};
ghost use Rattle.math.specs.Passing.{run};
ghost use Rattle.layout_reach.specs.Reach.{distance, in_reach};
ghost use Rattle.layout_reach.specs.Parts.{Block, NearerEnd, NearestIn, NearestFrom, SpanOf};

use answer::Refusal;
use layout::parts::Found;
use pergen::PerGen;
use pergen::sounding::Sides;

// The shorter way round, where the one way is `gap` steps.
fn shorter(octave: u16, gap: u16) -> u16
    requires { gap < octave }
    ensures { result ≡ min gap (octave - gap) }
{
    gap.min(octave - gap)
}

// The distance of two keys of the octave.
pub fn distance(octave: u16, a: u16, b: u16) -> u16
    requires { (a < octave) × (b < octave) }
    ensures { result ≡ distance octave (pos a) (pos b) }
{
    shorter(octave, a.abs_diff(b))
}

// The nearer of a block's two ends; of equally near ones the first.
fn nearer_end(octave: u16, base: u16, last: u16, key: u16) -> u16
    requires { (base < octave) × (last < octave) × (key < octave) }
    ensures { NearerEnd octave base last key result }
{
    if distance(octave, last, key) < distance(octave, base, key) {
        return last;
    }
    base
}

// The nearest of neighbouring keys: the key itself, or from outside one of the ends, since the distance first rises and then falls.
fn nearest_in(octave: u16, base: u16, cycles: u16, key: u16) -> u16
    requires { Block octave base cycles × (key < octave) }
    ensures { NearestIn octave base cycles key result }
{
    let last = base + (cycles - 1);
    if key < base || last < key {
        return nearer_end(octave, base, last, key);
    }
    key
}

// The nearest of a letter's keys: neighbours, one for each number of stars, from the one without on. No key of the octave is looked at.
fn nearest_from(found: Found, key: i32, letter: u16) -> u16
    ensures { NearestFrom found.octave found.generator found.start key letter result }
{
    let pergen = PerGen {
        period: found.octave,
        generator: found.generator,
    };
    let place = Sides {
        above: letter as u64,
        below: found.start as u64,
    };
    let base = pergen::sounding::sounded(pergen, place, 0);
    nearest_in(
        found.octave,
        base,
        math::gcd_u16(found.octave, found.generator),
        math::parts::rem_u16(key, found.octave),
    )
}

// The nearest key of a letter (16).
pub(crate) fn nearest_of_letter(found: Found, key: i32, letter: u16) -> Result<u16, Refusal>
    ensures { outcome_of result ≡ nearest_in (layout_of found) key letter }
{
    if found.num_letters <= letter {
        return Err(Refusal::Letter);
    }
    Ok(nearest_from(found, key, letter))
}

// How many keys of the octave are in reach: the key's own, and as many on either side as the distance says, but never more than all.
pub(crate) fn reach_count(octave: u16, distance: u16) -> usize
    ensures { result ≡ min (2 * distance + 1) octave }
{
    (2 * (distance as usize) + 1).min(octave as usize)
}

// Which keys of the octave are in reach: those below `wrapped`, and those of `from` to `to` - 1.
#[derive(Clone, Copy)]
pub(crate) struct Span {
    pub wrapped: u16,
    pub from: u16,
    pub to: u16,
}

// All keys, or those on both sides of a key, of which some may lie past either end of the octave.
fn reach_span(octave: u16, key: u16, distance: u16) -> Span
    requires { key < octave }
    ensures { SpanOf octave key distance result }
{
    if octave as u32 <= 2 * (distance as u32) + 1 {
        return Span {
            wrapped: 0,
            from: 0,
            to: octave,
        };
    }
    if key < distance {
        return Span {
            wrapped: key + distance + 1,
            from: octave - (distance - key),
            to: octave,
        };
    }
    if octave - key <= distance {
        return Span {
            wrapped: distance + 1 - (octave - key),
            from: key - distance,
            to: octave,
        };
    }
    Span {
        wrapped: 0,
        from: key - distance,
        to: key + distance + 1,
    }
}

// The numbers of `from` to `to` - 1 at a place; the place after the last.
fn put_run(out: &mut [u16], at: usize, from: u16, to: u16) -> usize
    requires { Room out.old at (run from (to - from)) × (from ≤ to) }
    ensures { Wrote out.old at (run from (to - from)) out.new result }
{
    for key in from..to {
        out[at + (key - from) as usize] = key;
    }
    at + (to - from) as usize
}

// The keys in reach at the front of a slice that holds them (10).
pub(crate) fn write_reach(
    octave: u16,
    key: i32,
    distance: u16,
    out: &mut [u16],
) -> Result<usize, Refusal>
    requires { 0 < octave }
    ensures { Filled (held_in (length out.old) (in_reach octave key distance)) (outcome_of result) out.old out.new }
{
    let count = reach_count(octave, distance);
    if out.len() < count {
        return Err(Refusal::Room);
    }
    let span = reach_span(octave, math::parts::rem_u16(key, octave), distance);
    let next = put_run(out, 0, 0, span.wrapped);
    put_run(out, next, span.from, span.to);
    Ok(count)
}
