// A layout's book: parts, and no entry points. Callers have asked question 10 before they write.
//
// The names are written turn by turn, each degree's planned once for all cycles.
ghost use Rattle.std.specs.Prelude.{◌≡◌, ◌+◌, ◌*◌, ◌/◌, ◌<◌, ◌≤◌, length};
ghost use Rattle.answer.specs.Refusals.{outcome_of};
ghost use Rattle.answer.specs.Lent.{held_in, Filled};
ghost use Rattle.text.specs.Writing.{Room, Wrote, joined};
ghost use Rattle.layout.specs.Parts.{layout_in};
ghost use Rattle.notes.specs.Parts.{starred_text, ShortLetters};
ghost use Rattle.layout_book.specs.LayoutBooks.{book_in};
ghost use Rattle.layout_book.specs.Parts.{numbers_text, entries_in, starred_pair, CyclesFit, Beside};

use crate::naming::Naming;
use crate::places::Places;
use answer::Refusal;
use notes::plans::NamePlan;
use notes::texts;
use pergen::stepping;
use text::little_endian::put_u32;

// An offset and a length; the place after them.
fn put_pair(out: &mut [u8], at: usize, offset: u32, bytes: u32) -> usize
    requires { Room out.old at (numbers_text offset bytes) }
    ensures { Wrote out.old at (numbers_text offset bytes) out.new result }
{
    let next = put_u32(out, at, offset);
    put_u32(out, next, bytes)
}

// The pairs and the names of a degree's keys, one for each cycle, side by side: a pair says where its name was put.
// The place after the last name.
fn put_cycles(out: &mut [u8], plan: NamePlan, cycles: u16, pair: usize, text: usize) -> usize
    requires { ShortLetters plan × CyclesFit out.old plan cycles pair text }
    ensures { Beside out.old pair (joined (starred_pair plan text) cycles) text (joined (starred_text plan) cycles) out.new (pair + 8 * cycles) result }
{
    let mut front = pair;
    let mut behind = text;
    for cycle in 0..cycles {
        let next = texts::put_starred(out, behind, plan, cycle);
        front = put_pair(out, front, behind as u32, (next - behind) as u32);
        behind = next;
    }
    behind
}

impl Naming {
    // How many bytes the book of an octave's keys has.
    pub(crate) fn book_length(self) -> usize
        ensures { result ≡ length (book_in (layout_in self.prepared)) }
    {
        4 + 8 * (self.prepared.found.octave as usize) + self.names_length()
    }

    // The pairs and the names of an octave's keys, side by side. A degree's name is planned once for all cycles; its place along the
    // chain is carried from turn to turn. The place after the last name.
    fn put_entries(self, out: &mut [u8]) -> usize
        requires { Room out.old 4 (entries_in (layout_in self.prepared)) }
        ensures { Wrote out.old 4 (entries_in (layout_in self.prepared)) out.new result }
    {
        let found = self.prepared.found;
        let solved = self.prepared.solved;
        let places = Places::along(self);
        let mut pair: usize = 4;
        let mut text = 4 + 8 * (found.octave as usize);
        let mut place = found.start;
        for turn in 0..solved.reduced_period {
            let plan = self.plan(places.spelled(place));
            text = put_cycles(out, plan, solved.num_cycles, pair, text);
            pair += 8 * (solved.num_cycles as usize);
            place = stepping::next_degree(solved, place);
        }
        text
    }

    // The count, the pairs and the names of an octave's keys; the place after them.
    fn put_book(self, out: &mut [u8]) -> usize
        requires { Room out.old 0 (book_in (layout_in self.prepared)) }
        ensures { Wrote out.old 0 (book_in (layout_in self.prepared)) out.new result }
    {
        put_u32(out, 0, self.prepared.found.octave as u32);
        self.put_entries(out)
    }

    // The book of an octave's keys at the front of a slice that holds it (10).
    pub(crate) fn write_book(self, out: &mut [u8]) -> Result<usize, Refusal>
        ensures { Filled (held_in (length out.old) (book_in (layout_in self.prepared))) (outcome_of result) out.old out.new }
    {
        let bytes = self.book_length();
        if out.len() < bytes {
            return Err(Refusal::Room);
        }
        self.put_book(out);
        Ok(bytes)
    }
}
