// Looking a key's name up in a book (document 01, "Lamps and book").
//
// Holds the reading of a book: how many keys it has, where a key's name stands, and the name as a part of the
// caller's bytes. Every public function answers any bytes whatever, damaged ones too, with questions 11, 12 and 13,
// and no byte outside the book's text is ever handed out.
// specs/: the format and its questions (Books); which part of the caller's book a lookup hands back (Lookups); that the
// names of an accepted book are its text, and that a written book is read back (Theorems). Nothing is assumed.
#![tactic(auto)]

ghost use Rattle.std.specs.Prelude.{◌+◌, ◌-◌, ◌*◌, ◌≤◌, ◌≡◌, length};
ghost use Rattle.answer.specs.Refusals.{outcome_of};
ghost use Rattle.book.specs.Books.{PairsHeld, place_of, text_covered, keys_outcome, find_outcome};
ghost use Rattle.book.specs.Lookups.{slice, part, LookedUp};

use answer::Refusal;
use text::little_endian::read_u32;

// Where a name stands: its first byte, counted from the book's start, and how many bytes it has.
#[derive(Clone, Copy)]
pub struct Place {
    pub offset: u32,
    pub length: u32,
}

// Where a key's pair says that its name stands.
fn place_at(book: &[u8], key: u32) -> Place
    requires { 4 + 8 * key + 8 ≤ length book.now }
    ensures { result ≡ place_of book.now key }
{
    let pair = 4 + 8 * (key as usize);
    let offset = read_u32(book, pair);
    let length = read_u32(book, pair + 4);
    Place { offset, length }
}

// Question 12. A usize has 64 bits, so the sum of an offset and a length does not wrap.
fn covers(book: &[u8], count: u32) -> bool
    requires { PairsHeld book.now count }
    ensures { result ≡ text_covered book.now }
{
    let mut due = 4 + 8 * (count as usize);
    for key in 0..count {
        let place = place_at(book, key);
        let offset = place.offset as usize;
        if offset != due {
            return false;
        }
        let length = place.length as usize;
        if length < 1 {
            return false;
        }
        due = offset + length;
    }
    due == book.len()
}

// How many keys the book has: 11, 12.
pub fn count(book: &[u8]) -> Result<u32, Refusal>
    ensures { outcome_of result ≡ keys_outcome book.now }
{
    if book.len() < 4 {
        return Err(Refusal::BookPairs);
    }
    let keys = read_u32(book, 0);
    if keys < 1 {
        return Err(Refusal::BookPairs);
    }
    if book.len() < 4 + 8 * (keys as usize) {
        return Err(Refusal::BookPairs);
    }
    if covers(book, keys) {
        return Ok(keys);
    }
    Err(Refusal::BookCover)
}

// Where the key's name stands in the book: 11, 12, 13. A book's keys begin at 0, so 13 refuses a key below 0 too.
pub fn find(book: &[u8], key: i32) -> Result<Place, Refusal>
    ensures { outcome_of result ≡ find_outcome book.now key }
{
    let keys = count(book)?;
    if key < 0 {
        return Err(Refusal::BookKey);
    }
    let index = key as u32;
    if keys <= index {
        return Err(Refusal::BookKey);
    }
    Ok(place_at(book, index))
}

// A key's name, as the part of the caller's book that holds it: 11, 12, 13. The book alone is lent, and only to be read, so that no
// refusal changes a byte.
pub fn name<'a>(book: &'a [u8], key: i32) -> Result<&'a [u8], Refusal>
    ensures { LookedUp (slice book.entry) key result }
{
    let place = find(book, key)?;
    let start = place.offset as usize;
    let end = start + place.length as usize;
    Ok(part_between(book, start, end))
}

// A part of the book, as the caller's own memory.
fn part_between<'a>(book: &'a [u8], start: usize, end: usize) -> &'a [u8]
    requires { (start ≤ end) × (end ≤ length book.now) }
    ensures { slice result ≡ part (slice book.entry) start (end - start) }
{
    &book[start..end]
}
