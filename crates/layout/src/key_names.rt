// A layout, made ready, and what its keys are called: parts, and no entry points.
//
// Keys, names, layers and lamps are all computed from one record, `Prepared`. A key of it is found by `pergen::stepping::key_at`, which
// also goes on to the next; here are the key's spellings and its name. The crates `layout_layers` and `layout_lamps` have its layer and its
// lamp. A name's letters stand in the chain's row, which a call reads once and hands on.
ghost use Rattle.std.specs.Prelude.{◌≡◌, ◌*◌, ◌<◌, pos, length};
ghost use Rattle.answer.specs.Refusals.{outcome_of};
ghost use Rattle.answer.specs.Lent.{held_in, Filled};
ghost use Rattle.math.specs.Division.{remainder};
ghost use Rattle.genchain.specs.Chains.{chain_of, row_of};
ghost use Rattle.pergen.specs.Parts.{Walkable, At, solved_of};
ghost use Rattle.layout.specs.Layouts.{accidentals_in};
ghost use Rattle.layout.specs.Names.{name_in};
ghost use Rattle.layout.specs.Parts.{layout_of, layout_in, Ready, PlannedIn, NamePlanned, StepsLeft, spelled_by, KeyFound};

use crate::one_key::OneKey;
use crate::parts::Found;
use crate::prepared::Prepared;
use crate::{IsomorphicLayout, questions};
use answer::Refusal;
use genchain::rows;
use genchain::rows::ChainRow;
use mos::Mos;
use notes::plans::NamePlan;
use notes::{plans, texts};
use pergen::euclid::{Remainders, Solved};
use pergen::stepping::Key;
use pergen::{Accidentals, AccidentalsFormat, euclid, stepping};

// The numbers that follow from octave and generator. The steps of the pattern are remainders of the extended Euclid, which goes on from
// them: as many generators forward as there are secondary steps leave the primary step, as many backward as there are primary steps the
// secondary one. The larger is divided first. Beside `euclid::solve`, which begins at octave and generator, this saves a name a fifth of its
// time: the walk to the pattern stands for the divisions before it.
fn solve_from_steps(octave: u16, generator: u16, pattern: Mos) -> Solved
    requires { (0 < octave) × StepsLeft octave generator pattern }
    ensures { result ≡ solved_of octave generator }
{
    if pattern.primary_step < pattern.secondary_step {
        return euclid::solve_from(
            octave,
            generator,
            Remainders {
                first: pattern.secondary_step,
                second: pattern.primary_step,
                first_by: pattern.num_primary_steps,
                second_by: pattern.num_secondary_steps,
                negative: true,
            },
        );
    }
    euclid::solve_from(
        octave,
        generator,
        Remainders {
            first: pattern.primary_step,
            second: pattern.secondary_step,
            first_by: pattern.num_secondary_steps,
            second_by: pattern.num_primary_steps,
            negative: false,
        },
    )
}

// The two spellings of a key, by what was solved.
fn spelled_at(solved: Solved, num_letters: u16, start: u16, key: Key) -> Accidentals
    requires { (start < num_letters) × Walkable solved × At solved key }
    ensures { result ≡ spelled_by solved num_letters start key.number }
{
    let generation = stepping::generation(solved, key);
    let format = AccidentalsFormat {
        num_symbols: num_letters,
        genchain_origin: start,
    };
    pergen::spellings::accidentals(solved.reduced_period, format, generation)
}

// The two spellings of one key of the octave, by what was solved.
pub(crate) fn spelled(solved: Solved, num_letters: u16, start: u16, number: u16) -> Accidentals
    requires { (start < num_letters) × Walkable solved × (number < 2 * (solved.reduced_period * solved.num_cycles)) }
    ensures { result ≡ spelled_by solved num_letters start number }
{
    let key = stepping::key_at(solved, number as u32);
    spelled_at(solved, num_letters, start, key)
}

// An accepted layout, made ready.
pub fn prepare(found: Found) -> Prepared
    ensures { Ready result × (result.found ≡ found) }
{
    Prepared {
        found,
        solved: solve_from_steps(found.octave, found.generator, found.pattern),
    }
}

// The key of the octave to which a number, below 0 too, is brought round.
pub fn key_round(prepared: Prepared, number: i32) -> Key
    ensures { At prepared.solved result × (result.number ≡ remainder number prepared.found.octave) }
{
    let index = math::parts::rem_u16(number, prepared.found.octave);
    stepping::key_at(prepared.solved, index as u32)
}

// The two spellings of a key.
pub fn spellings(prepared: Prepared, key: Key) -> Accidentals
    requires { At prepared.solved key }
    ensures { result ≡ accidentals_in (layout_in prepared) (pos key.number) }
{
    let found = prepared.found;
    spelled_at(prepared.solved, found.num_letters, found.start, key)
}

// The plan of a key's name, with the letters of its chain's row. The style goes by the steps: sharp first where the primary is at least the
// secondary.
pub fn plan_name(prepared: Prepared, row: ChainRow, key: Key) -> NamePlan
    requires { (row ≡ row_of (chain_of prepared.found.chain)) × At prepared.solved key }
    ensures { NamePlanned prepared key result }
{
    let pattern = prepared.found.pattern;
    let spelled = spellings(prepared, key);
    plans::plan_name(row, spelled, pattern.secondary_step <= pattern.primary_step)
}

// The two spellings of one key of the octave. What was solved goes on by itself, and this and the plan are inlined: for a single key the
// prepared record, or what was found, would be written in pieces and read back whole, which costs a name a third more.
#[inline(always)]
fn spelled_in(found: Found, number: u16) -> Accidentals
    requires { number < found.octave }
    ensures { result ≡ accidentals_in (layout_of found) (pos number) }
{
    let solved = solve_from_steps(found.octave, found.generator, found.pattern);
    spelled(solved, found.num_letters, found.start, number)
}

// One key of a layout, brought round the octave (1, 2, 3, 4, 18).
pub(crate) fn ask_key(layout: IsomorphicLayout, key: i32) -> Result<OneKey, Refusal>
    ensures { KeyFound layout key result }
{
    let row = rows::row(layout.genchain);
    let found = questions::ask_with_row(layout, row)?;
    let number = math::parts::rem_u16(key, found.octave);
    Ok(OneKey { row, found, number })
}

// The plan of its name.
#[inline(always)]
fn plan_one(key: OneKey) -> NamePlan
    ensures { PlannedIn (layout_of key.found) (pos key.number) result }
{
    let pattern = key.found.pattern;
    let spelled = spelled_in(key.found, key.number);
    plans::plan_name(
        key.row,
        spelled,
        pattern.secondary_step <= pattern.primary_step,
    )
}

// How many bytes its name has.
pub(crate) fn name_length(key: OneKey) -> usize
    ensures { result ≡ length (name_in (layout_of key.found) (pos key.number)) }
{
    plans::plan_length(plan_one(key))
}

// Its name at the front of a slice that holds it (10).
pub(crate) fn write_name(key: OneKey, out: &mut [u8]) -> Result<usize, Refusal>
    ensures { Filled (held_in (length out.old) (name_in (layout_of key.found) (pos key.number))) (outcome_of result) out.old out.new }
{
    texts::write_planned(plan_one(key), out)
}
