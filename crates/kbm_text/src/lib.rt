// Scala keyboard mappings as texts (document 02, W-210): which keys a text maps, and how one is written.
//
// Knows an octave and a choice of keys, and nothing of layouts: `layout_kbm` has the calls over a layout. A mapping is seven head lines
// (size, first and last note, middle note, reference note, frequency, octave degree) and one line for each key of the octave: its number,
// or the mark that it is not mapped. Any bytes may be read; the time goes with their number.
// specs/: Lines and Kinds define what a text says, Reading which keys it maps, Written the text that is written; Theorems and Examples
// state what holds. `read_keys` answers every input; `writer` holds parts, as its head says. Nothing is assumed.
#![tactic(auto)]

mod kinds;
mod scan;
pub mod writer;

ghost use Rattle.std.specs.Prelude.{length};
ghost use Rattle.answer.specs.Refusals.{outcome_of};
ghost use Rattle.answer.specs.Lent.{Filled};
ghost use Rattle.kbm_text.specs.Reading.{read_in};

use answer::Refusal;

// The keys that a mapping of so many entries maps, rising (19, 20, 10).
pub fn read_keys(octave: u16, text: &[u8], out: &mut [u16]) -> Result<usize, Refusal>
    ensures { Filled (read_in octave text.now (length out.old)) (outcome_of result) out.old out.new }
{
    let len = text.len();
    if len < 1 {
        return Err(Refusal::MappingLines);
    }
    if text[len - 1] != b'\n' {
        return Err(Refusal::MappingLines);
    }
    let s = scan::scan_all(octave, text);
    if s.line != 7 + octave as usize {
        return Err(Refusal::MappingLines);
    }
    if !s.fits {
        return Err(Refusal::MappingLines);
    }
    if !s.agrees {
        return Err(Refusal::MappingNumbers);
    }
    if out.len() < s.keys {
        return Err(Refusal::Room);
    }
    Ok(scan::put_keys(text, out))
}
