// Typed note names: the spelling that a text is, and the key of the octave that it names, in a layout.
//
// Holds the way back from a name to its key: a pupil types F# or Gb, a starred D*, a name as it stands on a cap, (D#/Eb)*. A text is read
// whole, byte for byte, with the layout's own letters and signs; any bytes are answered, in a time that goes with their number. Spellings
// need not be printed on any cap.
// specs/: Reading defines what a spelling's text is, Answers what each call answers, Theorems and Examples state what holds.
// Every entry point answers every input. Nothing is assumed.
#![tactic(auto)]

mod names;
pub mod reader;
pub mod spellings;

ghost use Rattle.std.specs.Prelude.{◌≡◌};
ghost use Rattle.answer.specs.Refusals.{outcome_of};
ghost use Rattle.layout_reading.specs.Answers.{get_spelling, get_named_key};

use crate::reader::Reader;
use answer::Refusal;
use layout::IsomorphicLayout;
use pergen::Spelling;

// The spelling that a text is: a letter of the chain, sharps or flats, stars (1, 2, 3, 4, 18, 23, 21).
pub fn read_spelling(layout: IsomorphicLayout, text: &[u8]) -> Result<Spelling, Refusal>
    ensures { outcome_of result ≡ get_spelling layout text.now }
{
    let reader = Reader::ask(layout)?;
    reader.read(text)
}

// The key of the octave that a text names: a spelling's, or a name's with two spellings of one key (1, 2, 3, 4, 18, 23, 21, 24).
pub fn find_key(layout: IsomorphicLayout, text: &[u8]) -> Result<u16, Refusal>
    ensures { outcome_of result ≡ get_named_key layout text.now }
{
    let reader = Reader::ask(layout)?;
    reader.find(text)
}
