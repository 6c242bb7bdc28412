// The names of the chains and of their scales in one constant table: parts, and no entry points. Callers have asked question 1.
ghost use Rattle.std.specs.Prelude.{◌≡◌, ◌<◌, length};
ghost use Rattle.answer.specs.Refusals.{outcome_of};
ghost use Rattle.answer.specs.Lent.{held_in, Filled};
ghost use Rattle.text.specs.Writing.{Room, Wrote};
ghost use Rattle.genchain.specs.Texts.{text_at, text_row_of};

use answer::Refusal;
use text::writer;

// A text in ASCII, 0 past its end, and its length beside it, as `text_row_of` of specs/ has it.
#[derive(Clone, Copy)]
struct TextRow {
    text: [u8; 12],
    length: u16,
}

// Equalized, then for each chain code the chain's name and its scale's for sharpness above and below 0.
const TEXTS: [TextRow; 19] = [
    TextRow {
        text: *b"equalized\0\0\0",
        length: 9,
    },
    TextRow {
        text: *b"Mavila[9]\0\0\0",
        length: 9,
    },
    TextRow {
        text: *b"armotonic\0\0\0",
        length: 9,
    },
    TextRow {
        text: *b"balzano\0\0\0\0\0",
        length: 7,
    },
    TextRow {
        text: *b"Meantone[7]\0",
        length: 11,
    },
    TextRow {
        text: *b"diatonic\0\0\0\0",
        length: 8,
    },
    TextRow {
        text: *b"antidiatonic",
        length: 12,
    },
    TextRow {
        text: *b"Meantone[5]\0",
        length: 11,
    },
    TextRow {
        text: *b"antipentic\0\0",
        length: 10,
    },
    TextRow {
        text: *b"pentic\0\0\0\0\0\0",
        length: 6,
    },
    TextRow {
        text: *b"Porcupine[8]",
        length: 12,
    },
    TextRow {
        text: *b"pine\0\0\0\0\0\0\0\0",
        length: 4,
    },
    TextRow {
        text: *b"antipine\0\0\0\0",
        length: 8,
    },
    TextRow {
        text: *b"Tetracot[7]\0",
        length: 11,
    },
    TextRow {
        text: *b"archeotonic\0",
        length: 11,
    },
    TextRow {
        text: *b"onyx\0\0\0\0\0\0\0\0",
        length: 4,
    },
    TextRow {
        text: *b"Hanson[7]\0\0\0",
        length: 9,
    },
    TextRow {
        text: *b"smitonic\0\0\0\0",
        length: 8,
    },
    TextRow {
        text: *b"mosh\0\0\0\0\0\0\0\0",
        length: 4,
    },
];

// The row at a place. That a place is below 19 stays a `requires` of the four functions: a number with that fact would be unpacked in each.
fn row(place: u16) -> TextRow
    requires { place < 19 }
    ensures { result ≡ text_row_of (text_at place) }
{
    TEXTS[place as usize]
}

// How many bytes the text at a place has.
pub fn text_len(place: u16) -> usize
    requires { place < 19 }
    ensures { result ≡ length (text_at place) }
{
    let found = row(place);
    found.length as usize
}

// The text at a place of the table, at a place of a slice; the place after it.
pub fn put(out: &mut [u8], at: usize, place: u16) -> usize
    requires { (place < 19) × Room out.old at (text_at place) }
    ensures { Wrote out.old at (text_at place) out.new result }
{
    let found = row(place);
    let text = found.text;
    let count = found.length as usize;
    writer::put_text(out, at, &text[..count])
}

// The text at a place of the table, at the front of a slice that holds it (10).
pub fn fill(place: u16, out: &mut [u8]) -> Result<usize, Refusal>
    requires { place < 19 }
    ensures { Filled (held_in (length out.old) (text_at place)) (outcome_of result) out.old out.new }
{
    let found = row(place);
    let text = found.text;
    let count = found.length as usize;
    answer::asked_room(out.len(), count)?;
    writer::put_text(out, 0, &text[..count]);
    Ok(count)
}
