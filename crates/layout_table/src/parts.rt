// How a table is written: parts, and no entry points. Callers have asked questions 1 to 4 and 18, and 10 before they write.
//
// The layout is prepared, its chain's row read and its layers counted once for all keys; degree and cycle are carried from key to key.
ghost use Rattle.std.specs.Prelude.{◌≡◌, ◌+◌, ◌*◌, ◌≤◌, length, leb};
ghost use Rattle.answer.specs.Refusals.{outcome_of};
ghost use Rattle.answer.specs.Lent.{held_in, Filled};
ghost use Rattle.text.specs.Writing.{Room, Wrote, joined};
ghost use Rattle.layout.specs.Parts.{layout_in};
ghost use Rattle.notes.specs.Parts.{plan_text, ShortLetters};
ghost use Rattle.layout_table.specs.Tables.{key_line, table_in};
ghost use Rattle.layout_table.specs.Parts.{numbers_in, line_from};

use answer::Refusal;
use genchain::rows;
use layout::prepared;
use layout::prepared::Prepared;
use layout_book::naming::Naming;
use notes::plans::NamePlan;
use notes::texts;
use pergen::stepping;
use text::decimal;
use text::writer::put_byte;

// How many bytes the lines of all keys have without their names. The walk over the keys is not shared with `put_lines`: a closure for each
// key would change what it captures, of which a proof then knows nothing.
fn numbers_length(prepared: Prepared) -> usize
    ensures { (result ≡ length (joined (numbers_in (layout_in prepared)) prepared.found.octave)) × (result ≤ 13 * prepared.found.octave) }
{
    let solved = prepared.solved;
    let layers = layout_layers::keys::total_of(prepared);
    let mut total: usize = 0;
    let mut key = stepping::first(solved);
    for number in 0..prepared.found.octave {
        let lamp = layout_lamps::parts::lamp_of(prepared, layers, key);
        total += decimal::number_len(number) + decimal::number_len(lamp) + 3;
        key = stepping::next(solved, key);
    }
    total
}

// How many bytes the lines of all keys have together: those of all names, and the others.
pub(crate) fn lines_length(prepared: Prepared) -> usize
    ensures { result ≡ length (table_in (layout_in prepared)) }
{
    Naming::of(prepared).names_length() + numbers_length(prepared)
}

// A key's line; the place after it.
fn put_line(out: &mut [u8], at: usize, key: u16, name: NamePlan, lamp: u16) -> usize
    requires { ShortLetters name × Room out.old at (key_line key (plan_text name) lamp) }
    ensures { Wrote out.old at (key_line key (plan_text name) lamp) out.new result }
{
    let number = decimal::put_number(out, at, key);
    let first = put_byte(out, number, b' ');
    let named = texts::put_name(out, first, name);
    let second = put_byte(out, named, b' ');
    let code = decimal::put_number(out, second, lamp);
    put_byte(out, code, b'\n')
}

// The lines of so many keys, from a key on, at the front of a slice that is known to hold them; the place after the last.
pub fn put_lines(out: &mut [u8], prepared: Prepared, from: u16, count: u16) -> usize
    requires { (from + count ≤ prepared.found.octave) × Room out.old 0 (joined (line_from (layout_in prepared) from) count) }
    ensures { Wrote out.old 0 (joined (line_from (layout_in prepared) from) count) out.new result }
{
    let solved = prepared.solved;
    let row = rows::row(prepared.found.chain);
    let layers = layout_layers::keys::total_of(prepared);
    let mut place: usize = 0;
    let mut key = stepping::key_at(solved, from as u32);
    for number in from..from + count {
        let name = prepared::plan_name(prepared, row, key);
        let lamp = layout_lamps::parts::lamp_of(prepared, layers, key);
        place = put_line(out, place, number, name, lamp);
        key = stepping::next(solved, key);
    }
    place
}

// Do so many bytes hold the lines of all keys? Where they hold any table of so many keys, the lines are not measured.
fn has_room(prepared: Prepared, room: usize) -> bool
    ensures { result ≡ leb (length (table_in (layout_in prepared))) room }
{
    let keys = prepared.found.octave as usize;
    if (keys / 5 + 21) * keys <= room {
        return true;
    }
    lines_length(prepared) <= room
}

// The lines of all keys at the front of a slice that holds them (10).
pub(crate) fn write_lines(prepared: Prepared, out: &mut [u8]) -> Result<usize, Refusal>
    ensures { Filled (held_in (length out.old) (table_in (layout_in prepared))) (outcome_of result) out.old out.new }
{
    if !has_room(prepared, out.len()) {
        return Err(Refusal::Room);
    }
    Ok(put_lines(out, prepared, 0, prepared.found.octave))
}
