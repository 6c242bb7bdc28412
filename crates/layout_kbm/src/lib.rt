// The Scala keyboard mapping of a layout, for other synthesizers (document 02, W-210).
//
// Holds the text of a .kbm file whose mapped keys are the natural ones, how long it is, and a reader that takes such a file with any choice
// of mapped keys. `kbm_text` knows what the text says and reads it.
// specs/: Mappings defines what each call answers, Theorems and Examples state what holds.
// Every entry point answers every input; the module of parts asks for more, as its head says. Nothing is assumed.
#![tactic(auto)]

pub mod parts;

ghost use Rattle.std.specs.Prelude.{◌≡◌, length};
ghost use Rattle.answer.specs.Refusals.{outcome_of};
ghost use Rattle.answer.specs.Lent.{in_room, counted, Filled};
ghost use Rattle.layout_kbm.specs.Mappings.{get_kbm, get_mapped_keys};

use answer::Refusal;
use layout::{IsomorphicLayout, prepared};

// How many bytes `write_kbm` writes (1, 2, 3, 4, 18).
pub fn kbm_len(layout: IsomorphicLayout) -> Result<usize, Refusal>
    ensures { outcome_of result ≡ counted (get_kbm layout) }
{
    let found = layout::parts::ask(layout)?;
    Ok(parts::file_len(prepared::prepare(found)))
}

// The keyboard mapping of a layout: a synthesizer then plays its natural keys and no others (1, 2, 3, 4, 18, 10).
pub fn write_kbm(layout: IsomorphicLayout, out: &mut [u8]) -> Result<usize, Refusal>
    ensures { Filled (in_room (length out.old) (get_kbm layout)) (outcome_of result) out.old out.new }
{
    let found = layout::parts::ask(layout)?;
    parts::write_file(prepared::prepare(found), out)
}

// The keys that a keyboard mapping for a layout maps, rising; any bytes may be handed in (1, 2, 3, 4, 18, 19, 20, 10).
pub fn read_kbm(layout: IsomorphicLayout, text: &[u8], out: &mut [u16]) -> Result<usize, Refusal>
    ensures { Filled (in_room (length out.old) (get_mapped_keys layout text.now)) (outcome_of result) out.old out.new }
{
    let found = layout::parts::ask(layout)?;
    kbm_text::read_keys(found.octave, text, out)
}
