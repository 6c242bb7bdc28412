// A layout, made ready: a part, and no entry point. `key_names` has the functions.
//
// The fact in a ghost field stands in a file that names no `Prepared`, so the record has a file of its own.
ghost use Rattle.std.specs.Prelude.{◌≡◌};
ghost use Rattle.pergen.specs.Parts.{solved_of};

pub(crate) use crate::key_names::spelled;
pub use crate::key_names::{key_round, plan_name, prepare, spellings};
use crate::parts::Found;
use pergen::euclid::Solved;

// What the questions found, and what follows from octave and generator: cycles, reduced period, inverse.
#[derive(Clone, Copy)]
pub struct Prepared {
    pub found: Found,
    pub solved: Solved,
    pub ghost ready: { solved ≡ solved_of found.octave found.generator },
}
