// Books and key tables (document 01, "Lamps and book").
ghost use Rattle.std.specs.Prelude.{◌≡◌, length};
ghost use Rattle.answer.specs.Lent.{counted};
ghost use Rattle.answer.specs.Outcome.{given};
ghost use Rattle.layout_book.specs.LayoutBooks.{get_book};
ghost use Rattle.layout_table.specs.Tables.{output};
ghost use Rattle.vetchnoon_codes.specs.Codes.{code_of, Fills};
ghost use Rattle.vetchnoon.specs.Written.{layout, pair_output};

use crate::parts;
use answer::Refusal;

// How many bytes a layout's book has (1, 2, 3, 4, 18).
#[unsafe(no_mangle)]
#[tactic(auto, using(crate::proofs::Outputs::books_fit, vetchnoon_codes::proofs::Coding::small_counted))]
pub extern "C" fn vn_book_len(chain: u16, octave: u16, tritave: u16, start: u16) -> i64
    ensures { result ≡ code_of (counted (get_book (layout chain octave tritave start))) }
{
    let layout = parts::layout_of(chain, octave, tritave, start);
    vetchnoon_codes::count(layout_book::book_len(layout))
}

// The book of a layout's key names (1, 2, 3, 4, 18, 10).
#[unsafe(no_mangle)]
pub extern "C" fn vn_book(chain: u16, octave: u16, tritave: u16, start: u16, out: &mut [u8]) -> i64
    ensures { Fills (get_book (layout chain octave tritave start)) result out.old out.new }
{
    let layout = parts::layout_of(chain, octave, tritave, start);
    vetchnoon_codes::count(layout_book::write_book(layout, out))
}

// Offset and length of a key's name in a book (10, 11, 12, 13). Room for both is asked first, as the header says.
#[unsafe(no_mangle)]
pub extern "C" fn vn_book_find(book: &[u8], key: i32, out: &mut [u32]) -> i64
    ensures { Fills (pair_output (length out.old) book.now key) result out.old out.new }
{
    if out.len() < 2 {
        return vetchnoon_codes::refused(Refusal::Room);
    }
    match book::find(book, key) {
        Err(question) => vetchnoon_codes::refused(question),
        Ok(place) => vetchnoon_codes::put_all(out, &[place.offset, place.length]),
    }
}

// What the key table program prints for a line (10).
#[unsafe(no_mangle)]
pub extern "C" fn vn_key_table(line: &[u8], out: &mut [u8]) -> i64
    ensures { Fills (given (output line.now)) result out.old out.new }
{
    vetchnoon_codes::count(layout_table::respond(line, out))
}
