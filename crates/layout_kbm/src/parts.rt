// How a mapping is written: parts, and no entry points. Callers have asked questions 1 to 4 and 18, and 10 before they write.
ghost use Rattle.std.specs.Prelude.{◌≡◌, ◌+◌, ◌*◌, ◌<◌, length, leb};
ghost use Rattle.answer.specs.Refusals.{outcome_of};
ghost use Rattle.answer.specs.Lent.{held_in, Filled};
ghost use Rattle.text.specs.Writing.{Room, Wrote, joined};
ghost use Rattle.kbm_text.specs.Parts.{LengthUpTo};
ghost use Rattle.layout.specs.Parts.{layout_in};
ghost use Rattle.pergen.specs.Parts.{At};
ghost use Rattle.layout_kbm.specs.Mappings.{natural, mapping_in};
ghost use Rattle.layout_kbm.specs.Parts.{entry_in};

use answer::Refusal;
use kbm_text::writer;
use layout::prepared::Prepared;
use pergen::stepping;
use pergen::stepping::Key;

// Is a key of the octave natural?
fn is_natural(prepared: Prepared, key: Key) -> bool
    requires { At prepared.solved key × (key.number < prepared.found.octave) }
    ensures { result ≡ natural (layout_in prepared) key.number }
{
    layout_layers::keys::number_of(prepared, key) == 0
}

// How many bytes all entries have. The walk over the keys is not shared with `put_entries`: a closure for each key would change what it
// captures, of which a proof then knows nothing.
fn entries_len(prepared: Prepared) -> usize
    ensures { LengthUpTo (6 * prepared.found.octave) (joined (entry_in (layout_in prepared)) prepared.found.octave) result }
{
    let solved = prepared.solved;
    let mut total: usize = 0;
    let mut key = stepping::first(solved);
    for number in 0..prepared.found.octave {
        let mapped = is_natural(prepared, key);
        total += writer::entry_len(number, mapped);
        key = stepping::next(solved, key);
    }
    total
}

// All entries from a place on, in a slice that is known to hold them; the place after the last.
fn put_entries(out: &mut [u8], at: usize, prepared: Prepared) -> usize
    requires { Room out.old at (joined (entry_in (layout_in prepared)) prepared.found.octave) }
    ensures { Wrote out.old at (joined (entry_in (layout_in prepared)) prepared.found.octave) out.new result }
{
    let solved = prepared.solved;
    let mut place = at;
    let mut key = stepping::first(solved);
    for number in 0..prepared.found.octave {
        let mapped = is_natural(prepared, key);
        place = writer::put_entry(out, place, number, mapped);
        key = stepping::next(solved, key);
    }
    place
}

// How many bytes the file has.
pub(crate) fn file_len(prepared: Prepared) -> usize
    ensures { result ≡ length (mapping_in (layout_in prepared)) }
{
    writer::head_len(prepared.found.octave) + entries_len(prepared)
}

// The file at the front of a slice that is known to hold it; the place after it.
pub fn put_file(out: &mut [u8], prepared: Prepared) -> usize
    requires { Room out.old 0 (mapping_in (layout_in prepared)) }
    ensures { Wrote out.old 0 (mapping_in (layout_in prepared)) out.new result }
{
    let head = writer::put_head(out, 0, prepared.found.octave);
    put_entries(out, head, prepared)
}

// Do so many bytes hold the file? Where they hold any file of so many keys, it is not measured.
fn has_room(prepared: Prepared, room: usize) -> bool
    ensures { result ≡ leb (length (mapping_in (layout_in prepared))) room }
{
    if 6 * prepared.found.octave as usize + 35 <= room {
        return true;
    }
    file_len(prepared) <= room
}

// The file at the front of a slice that holds it (10).
pub(crate) fn write_file(prepared: Prepared, out: &mut [u8]) -> Result<usize, Refusal>
    ensures { Filled (held_in (length out.old) (mapping_in (layout_in prepared))) (outcome_of result) out.old out.new }
{
    if !has_room(prepared, out.len()) {
        return Err(Refusal::Room);
    }
    Ok(put_file(out, prepared))
}
