// The head and the entries of a mapping: parts, and no entry points. What writes asks that there is room, which an entry point tests by
// question 10.
ghost use Rattle.text.specs.Writing.{Room, Wrote};
ghost use Rattle.kbm_text.specs.Written.{head_text, entry_line};
ghost use Rattle.kbm_text.specs.Parts.{LengthUpTo};

use text::decimal::{number_len, put_number};
use text::writer::{put_byte, put_text};

// How many bytes the seven head lines have.
pub fn head_len(octave: u16) -> usize
    ensures { LengthUpTo 35 (head_text octave) result }
{
    2 * number_len(octave) + 25
}

// The seven head lines at a place; the place after them.
pub fn put_head(out: &mut [u8], at: usize, octave: u16) -> usize
    requires { Room out.old at (head_text octave) }
    ensures { Wrote out.old at (head_text octave) out.new result }
{
    let size = put_number(out, at, octave);
    let notes = put_text(out, size, b"\n0\n127\n60\n69\n440.000000\n");
    let degree = put_number(out, notes, octave);
    put_byte(out, degree, b'\n')
}

// How many bytes a key's entry has, with its line feed.
pub fn entry_len(key: u16, mapped: bool) -> usize
    ensures { LengthUpTo 6 (entry_line key mapped) result }
{
    if mapped {
        return number_len(key) + 1;
    }
    2
}

// A key's entry at a place; the place after it.
pub fn put_entry(out: &mut [u8], at: usize, key: u16, mapped: bool) -> usize
    requires { Room out.old at (entry_line key mapped) }
    ensures { Wrote out.old at (entry_line key mapped) out.new result }
{
    if mapped {
        let number = put_number(out, at, key);
        return put_byte(out, number, b'\n');
    }
    put_text(out, at, b"x\n")
}
