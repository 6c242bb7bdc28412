// Writing a layout's book of names (document 01, "Lamps and book"; added by us).
//
// Holds how long the book of an octave's key names is, and its writing into a lent slice; the crate `book` reads it.
// specs/: LayoutBooks defines the book and what each call answers, Theorems says that every offset and length fits 32 bits
// and that a written book is read back, name for name.
// `parts` plans each degree's name once; `lengths` measures an octave's names together, for the book and for the key table. Every entry
// point answers every input. Nothing is assumed.
#![tactic(auto)]

pub mod lengths;
pub mod naming;
pub mod parts;
mod places;

ghost use Rattle.std.specs.Prelude.{◌≡◌, length};
ghost use Rattle.answer.specs.Refusals.{outcome_of};
ghost use Rattle.answer.specs.Lent.{in_room, counted, Filled};
ghost use Rattle.layout_book.specs.LayoutBooks.{get_book};

use crate::naming::Naming;
use answer::Refusal;
use genchain::rows;
use layout::{IsomorphicLayout, prepared};

// How many bytes the book of a layout's key names has (1, 2, 3, 4, 18).
pub fn book_len(layout: IsomorphicLayout) -> Result<usize, Refusal>
    ensures { outcome_of result ≡ counted (get_book layout) }
{
    let row = rows::row(layout.genchain);
    let found = layout::parts::ask_with_row(layout, row)?;
    let prepared = prepared::prepare(found);
    Ok(Naming { prepared, row }.book_length())
}

// The book of the names of an octave's keys, which `book` looks a key up in (1, 2, 3, 4, 18, 10).
pub fn write_book(layout: IsomorphicLayout, out: &mut [u8]) -> Result<usize, Refusal>
    ensures { Filled (in_room (length out.old) (get_book layout)) (outcome_of result) out.old out.new }
{
    let row = rows::row(layout.genchain);
    let found = layout::parts::ask_with_row(layout, row)?;
    let prepared = prepared::prepare(found);
    Naming { prepared, row }.write_book(out)
}
