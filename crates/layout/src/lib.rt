// Layouts of the six chains, after `IsomorphicLayout` and `Genchain::create_layout` in src/layout.rs of the original.
//
// Holds making a layout from chain code, octave, tritave and start, its pergen and pattern, a spelling's key, and spellings and names of
// its keys (document 01, "The six chains", "Pergen and spelling", "Step patterns"). `layout_scale_names` has the name of its scale.
// specs/: Layouts, ScaleNames and Names define, Answers says what each call answers, in `layout_scale_names` too, Theorems what a reader
// of key names may rely on, FewestSigns that no spelling is simpler. A layout holds only the four numbers that a caller chose; each call
// asks questions 1 to 4 and 18 of them again.
// Every entry point answers every input; the modules of parts ask for more, as their heads say. Nothing is assumed.
#![tactic(auto)]

mod key_names;
mod one_key;
pub mod parts;
pub mod prepared;
mod questions;

ghost use Rattle.std.specs.Prelude.{◌≡◌, length};
ghost use Rattle.answer.specs.Refusals.{outcome_of};
ghost use Rattle.answer.specs.Lent.{in_room, counted, Filled};
ghost use Rattle.layout.specs.Layouts.{default_layout};
ghost use Rattle.layout.specs.Answers.{create_outcome, get_genchain, get_pergen, get_mos, get_accidentals, get_note_name, get_sounded_key};

use answer::Refusal;
use genchain::rows;
use mos::Mos;
use pergen::{Accidentals, PerGen, Spelling, euclid};

// A chain in a tuning: the chain's code, how many steps make an octave and a tritave, and the index of key 0's letter along the chain.
#[derive(Clone, Copy)]
pub struct IsomorphicLayout {
    pub genchain: u16,
    pub octave: u16,
    pub tritave: u16,
    pub start: u16,
}

// The record with the chain's own start; nothing is asked.
pub fn default_layout(genchain: u16, octave: u16, tritave: u16) -> IsomorphicLayout
    ensures { result ≡ default_layout genchain octave tritave }
{
    let chain = rows::numbers(genchain);
    IsomorphicLayout {
        genchain,
        octave,
        tritave,
        start: chain.start,
    }
}

// The record as it came, where its questions have the answer yes (1, 2, 3, 4, 18).
fn accept(layout: IsomorphicLayout) -> Result<IsomorphicLayout, Refusal>
    ensures { outcome_of result ≡ create_outcome layout }
{
    parts::ask(layout)?;
    Ok(layout)
}

// The layout of a chain in a tuning with so many steps to the octave and to the tritave, with the chain's own start (1, 2, 3, 4).
pub fn create_layout(genchain: u16, octave: u16, tritave: u16) -> Result<IsomorphicLayout, Refusal>
    ensures { outcome_of result ≡ create_outcome (default_layout genchain octave tritave) }
{
    accept(default_layout(genchain, octave, tritave))
}

// The same, with another letter on key 0: the one at index `start` along the chain (1, 2, 3, 4, 18).
pub fn create_layout_beginning(
    genchain: u16,
    octave: u16,
    tritave: u16,
    start: u16,
) -> Result<IsomorphicLayout, Refusal>
    ensures { outcome_of result ≡ create_outcome (record { genchain = genchain; octave = octave; tritave = tritave; start = start }) }
{
    accept(IsomorphicLayout {
        genchain,
        octave,
        tritave,
        start,
    })
}

impl IsomorphicLayout {
    // The chain's code (1, 2, 3, 4, 18).
    pub fn genchain(self) -> Result<u16, Refusal>
        ensures { outcome_of result ≡ get_genchain self }
    {
        let found = parts::ask(self)?;
        Ok(found.chain)
    }

    // The octave as period, with the chain's generator in steps (1, 2, 3, 4, 18).
    pub fn pergen(self) -> Result<PerGen, Refusal>
        ensures { outcome_of result ≡ get_pergen self }
    {
        let found = parts::ask(self)?;
        Ok(PerGen {
            period: found.octave,
            generator: found.generator,
        })
    }

    // The pattern of the letters (1, 2, 3, 4, 18).
    pub fn mos(self) -> Result<Mos, Refusal>
        ensures { outcome_of result ≡ get_mos self }
    {
        let found = parts::ask(self)?;
        let pattern = found.pattern;
        Ok(pattern)
    }

    // The sharp and the flat spelling of a key; a number below 0 is brought round the octave, as in all calls here (1, 2, 3, 4, 18).
    pub fn get_accidentals(self, key: i32) -> Result<Accidentals, Refusal>
        ensures { outcome_of result ≡ get_accidentals self key }
    {
        let found = parts::ask(self)?;
        // from the beginning: nothing then waits for the walk to the pattern
        let solved = euclid::solve(found.octave, found.generator);
        let index = math::parts::rem_u16(key, found.octave);
        Ok(prepared::spelled(solved, found.num_letters, found.start, index))
    }

    // How many bytes a key's name has (1, 2, 3, 4, 18).
    pub fn note_name_len(self, key: i32) -> Result<usize, Refusal>
        ensures { outcome_of result ≡ counted (get_note_name self key) }
    {
        let asked = key_names::ask_key(self, key)?;
        Ok(key_names::name_length(asked))
    }

    // The name of a key, as an engraver cuts it (1, 2, 3, 4, 18, 10).
    pub fn get_note_name(self, key: i32, out: &mut [u8]) -> Result<usize, Refusal>
        ensures { Filled (in_room (length out.old) (get_note_name self key)) (outcome_of result) out.old out.new }
    {
        let asked = key_names::ask_key(self, key)?;
        key_names::write_name(asked, out)
    }

    // The key of the octave that a spelling sounds: a letter of the chain, sharps or flats, stars (1, 2, 3, 4, 18, 16, 21).
    pub fn get_sounded_key(self, spelling: Spelling) -> Result<u16, Refusal>
        ensures { outcome_of result ≡ get_sounded_key self spelling }
    {
        let found = parts::ask(self)?;
        parts::sounded(found, spelling)
    }
}
