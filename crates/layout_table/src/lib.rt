// The key table: a line for each key of an octave, with its number, name and lamp code (document 01, "Lamps and book").
//
// Holds the table of a layout, and the whole output for a line of input. A program that cannot hold a whole table writes it in parts, by
// the lines that `parts` puts.
// specs/: Tables defines, Theorems states how much room holds every line and every table, Examples what is printed for some lines.
// Every entry point answers every input, and a refusal changes no byte that was lent. Nothing is assumed.
#![tactic(auto)]

pub mod parts;

ghost use Rattle.std.specs.Prelude.{◌≡◌, length};
ghost use Rattle.answer.specs.Refusals.{outcome_of};
ghost use Rattle.answer.specs.Lent.{held_in, in_room, counted, Filled};
ghost use Rattle.layout_table.specs.Tables.{get_table, output};

use answer::Refusal;
use layout::{IsomorphicLayout, prepared};

// How many bytes a layout's table has (1, 2, 3, 4, 18).
pub fn table_len(layout: IsomorphicLayout) -> Result<usize, Refusal>
    ensures { outcome_of result ≡ counted (get_table layout) }
{
    let found = layout::parts::ask(layout)?;
    Ok(parts::lines_length(prepared::prepare(found)))
}

// A layout's table: a line for each key of the octave (1, 2, 3, 4, 18, 10).
pub fn write_table(layout: IsomorphicLayout, out: &mut [u8]) -> Result<usize, Refusal>
    ensures { Filled (in_room (length out.old) (get_table layout)) (outcome_of result) out.old out.new }
{
    let found = layout::parts::ask(layout)?;
    parts::write_lines(prepared::prepare(found), out)
}

// What the key table program prints for a line: the table of the layout that it asks for, or a refusal's number (14, 1, 2, 3, 4)
// on a line of its own. Only a slice that does not hold the whole output is refused (10); `TablesFit` bounds it.
pub fn respond(line: &[u8], out: &mut [u8]) -> Result<usize, Refusal>
    ensures { Filled (held_in (length out.old) (output line.now)) (outcome_of result) out.old out.new }
{
    match line::layouts::ask_line(line) {
        Err(q) => line::refusals::write_refusal(q.number() as u16, out),
        Ok(found) => parts::write_lines(prepared::prepare(found), out),
    }
}
