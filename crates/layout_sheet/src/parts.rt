// How a record of a sheet is filled: parts, and no entry points.
ghost use Rattle.std.specs.Prelude.{◌≡◌, ◌*◌, ◌≤◌, ◌<◌};
ghost use Rattle.math.specs.Division.{remainder};
ghost use Rattle.pergen.specs.Parts.{Walkable, At};
ghost use Rattle.layout.specs.Layouts.{layout_outcome};
ghost use Rattle.layout.specs.Parts.{layout_in};
ghost use Rattle.layout_lamps.specs.Lamps.{strip_length_in};
ghost use Rattle.layout_sheet.specs.Sheets.{record_in};
ghost use Rattle.layout_sheet.specs.Parts.{source_outcome, OnStrip, Asked};

use crate::Record;
use crate::source::Source;
use answer::Refusal;
use layout::{IsomorphicLayout, prepared};
use layout_layers::keys;
use pergen::euclid::Solved;
use pergen::stepping;
use pergen::stepping::Key;

// What the records of a layout are filled from, where its questions have the answer yes (1, 2, 3, 4, 18).
pub(crate) fn source_of(layout: IsomorphicLayout) -> Result<Source, Refusal>
    ensures { source_outcome result ≡ layout_outcome layout }
{
    let found = layout::parts::ask(layout)?;
    let prepared = prepared::prepare(found);
    Ok(Source {
        prepared,
        total: keys::total_of(prepared),
    })
}

// The key that the walk from record to record begins with: key 0.
pub(crate) fn first_key(source: Source) -> Key
    ensures { OnStrip source result }
{
    stepping::first(source.prepared.solved)
}

// The key with a number, where the last one is known. Beside `key_at` alone this saves a key that follows the last, as most do on a sheet,
// a product and a division: a tenth to a fifth of its record's time.
fn key_after(solved: Solved, last: Key, number: u32) -> Key
    requires { Walkable solved × At solved last × (last.number ≤ 131070) × (number < 2 * (solved.reduced_period * solved.num_cycles)) }
    ensures { At solved result × (result.number ≡ number) }
{
    if number == last.number + 1 {
        return stepping::next(solved, last);
    }
    stepping::key_at(solved, number)
}

// The key that a record asks for, brought round the strip; the last record's key is known.
pub(crate) fn key_asked(source: Source, last: Key, number: i32) -> Key
    requires { OnStrip source last }
    ensures { Asked source number result }
{
    let prepared = source.prepared;
    let count = keys::entry_count(prepared.found.octave, prepared.found.pattern);
    let place = math::parts::rem_u32(number, count);
    key_after(prepared.solved, last, place)
}

// One record, filled from its key, which was found on the strip: what single calls would have given.
pub(crate) fn record_at(source: Source, key: Key, asked: Record) -> Record
    requires { Asked source asked.key key }
    ensures { result ≡ record_in (layout_in source.prepared) asked }
{
    let prepared = source.prepared;
    let spelled = prepared::spellings(prepared, key);
    let stars = spelled.cycle.unwrap_or(0);
    let lamp = layout_lamps::parts::lamp_of(prepared, source.total, key);
    Record {
        key: asked.key,
        sharp_index: spelled.sharp_index,
        sharp_count: spelled.sharp_count,
        flat_index: spelled.flat_index,
        flat_count: spelled.flat_count,
        stars,
        lamp,
    }
}
