// What the questions find of a layout: a part, and no entry point. `questions` has the functions.
//
// The fact in a ghost field stands in a file that names no `Found`, so the record has a file of its own.
ghost use Rattle.layout.specs.Layouts.{IsLaid};

pub(crate) use crate::questions::sounded;
pub use crate::questions::{ask, ask_with_row, within_octave};
use mos::Mos;

// What questions 1 to 4 and 18 find: all that keys and names are made from. The tritave, with chain, octave and start, is what the caller
// chose.
#[derive(Clone, Copy)]
pub struct Found {
    pub chain: u16,
    pub octave: u16,
    pub tritave: u16,
    pub generator: u16,
    pub num_letters: u16,
    pub start: u16,
    pub pattern: Mos,
    pub ghost laid: { IsLaid chain octave tritave generator num_letters start pattern },
}
