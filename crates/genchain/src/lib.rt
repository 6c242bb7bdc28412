// The six chains of letters, after `Genchain` in src/layout.rs of the original.
//
// Holds for each chain code from 0 to 5 the letters, the place of key 0's letter, the generator in a tuning, and the name (document 01,
// "The six chains"). The letters stand in one constant table, in `rows`, the names of chains and scales in another, in `names`;
// `generators` has the chains' rules.
// specs/: Chains has the six chains as data, Answers says what each call answers, Theorems what is proved of the letters, Texts which
// text stands at which place of the table of names.
// Every entry point answers every input; the modules of parts ask for more, as their heads say. Nothing is assumed.
#![tactic(auto)]

mod generators;
pub mod names;
pub mod rows;

ghost use Rattle.std.specs.Prelude.{◌≡◌, length};
ghost use Rattle.answer.specs.Refusals.{outcome_of};
ghost use Rattle.answer.specs.Lent.{Filled};
ghost use Rattle.genchain.specs.Answers.{
  num_letters_outcome,
  start_outcome,
  letters_outcome,
  generator_outcome,
  name_length_outcome,
  name_outcome,
};

use answer::Refusal;

// How many letters the chain has (1).
pub fn num_letters(code: u16) -> Result<u16, Refusal>
    ensures { outcome_of result ≡ num_letters_outcome code }
{
    let row = rows::read(code)?;
    Ok(row.num_letters)
}

// The place of key 0's letter on the chain, counted from 0 (1).
pub fn start(code: u16) -> Result<u16, Refusal>
    ensures { outcome_of result ≡ start_outcome code }
{
    let row = rows::read(code)?;
    Ok(row.start)
}

// The chain's letters in order, as code points (1, 10).
pub fn letters(code: u16, out: &mut [u16]) -> Result<usize, Refusal>
    ensures { Filled (letters_outcome code (length out.old)) (outcome_of result) out.old out.new }
{
    let row = rows::read(code)?;
    let count = row.num_letters as usize;
    answer::asked_room(out.len(), count)?;
    Ok(rows::put_letters(out, row))
}

// The chain's generator in steps of a tuning with so many steps to the octave and to the tritave (1, 2, 3).
pub fn generator(code: u16, octave: u16, tritave: u16) -> Result<u16, Refusal>
    ensures { outcome_of result ≡ generator_outcome code octave tritave }
{
    rows::asked(code)?;
    if octave == 0 {
        return Err(Refusal::Period);
    }
    match code {
        3 => generators::third_of_fourth(octave, tritave),
        4 => generators::quarter_of_fifth(octave, tritave),
        5 => generators::octave_less_sixth(octave, tritave),
        _ => generators::fifth(octave, tritave),
    }
}

// How many bytes the chain's name has (1).
pub fn name_len(code: u16) -> Result<usize, Refusal>
    ensures { outcome_of result ≡ name_length_outcome code }
{
    rows::asked(code)?;
    Ok(names::text_len(1 + 3 * code))
}

// The chain's name, as "Meantone[7]", in UTF-8 (1, 10).
pub fn name(code: u16, out: &mut [u8]) -> Result<usize, Refusal>
    ensures { Filled (name_outcome code (length out.old)) (outcome_of result) out.old out.new }
{
    rows::asked(code)?;
    names::fill(1 + 3 * code, out)
}
