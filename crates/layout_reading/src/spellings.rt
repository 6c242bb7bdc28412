// Reading one spelling: parts, and no entry points.
ghost use Rattle.std.specs.Prelude.{◌≡◌, ◌==◌, ◌<◌, ◌≤◌, length, leb, MatchResult};
ghost use Rattle.std.specs.List.{take_while};
ghost use Rattle.answer.specs.Refusals.{outcome_of};
ghost use Rattle.answer.specs.declared.Refusal.TheVariants.{Stars};
ghost use Rattle.genchain.specs.Chains.{TableRow, letters_in};
ghost use Rattle.mos.specs.Patterns.{primary, secondary};
ghost use Rattle.notes.specs.Names.{sharp_sign, flat_sign, letter_text};
ghost use Rattle.layout.specs.Layouts.{layout_outcome};
ghost use Rattle.layout.specs.Parts.{layout_of};
ghost use Rattle.layout_reading.specs.Reading.{in_front, read_spelling};
ghost use Rattle.layout_reading.specs.Answers.{with_stars, typed_in, spelling_in};
ghost use Rattle.layout_reading.specs.Parts.{reader_outcome, RunAt, FrontIn, MarksFound, spelling_of, typed_outcome};

use crate::reader::Reader;
use answer::Refusal;
use genchain::rows;
use genchain::rows::ChainRow;
use layout::IsomorphicLayout;
use mos::Mos;
use notes::plans;
use pergen::{Signs, Spelling};

// The letter that a text begins with: its index along the chain, and how many bytes it takes.
#[derive(Clone, Copy)]
pub(crate) struct Front {
    pub index: u16,
    pub bytes: usize,
}

// Signs and stars from a place on.
#[derive(Clone, Copy)]
pub(crate) struct Marks {
    pub sharps: usize,
    pub flats: usize,
    pub stars: usize,
}

// A spelling with any number of stars.
#[derive(Clone, Copy)]
pub struct Typed {
    pub index: u16,
    pub signs: Signs,
    pub stars: usize,
}

// How often a byte stands at the front.
fn leading(text: &[u8], byte: u8) -> usize
    ensures { result ≡ length (take_while (λ b. b == byte) text.now) }
{
    text.iter().take_while(|b| **b == byte).count()
}

// How often a byte stands from a place on.
pub(crate) fn run(text: &[u8], at: usize, byte: u8) -> usize
    requires { at ≤ length text.now }
    ensures { RunAt byte at text.now result }
{
    leading(&text[at..], byte)
}

// Does the text begin with this letter? Its bytes are compared, and not what they stand for: half a letter is none.
fn starts(text: &[u8], letter: u16) -> bool
    ensures { result ≡ in_front (letter_text letter) text.now }
{
    if letter < 128 {
        if text.len() < 1 {
            return false;
        }
        return u16::from(text[0]) == letter;
    }
    if text.len() < 2 {
        return false;
    }
    if u16::from(text[0]) != 192 + letter / 64 {
        return false;
    }
    u16::from(text[1]) == 128 + letter % 64
}

fn sharp_sign(sharp_first: bool) -> u8
    ensures { result ≡ sharp_sign sharp_first }
{
    if sharp_first { b'#' } else { b'-' }
}

fn flat_sign(sharp_first: bool) -> u8
    ensures { result ≡ flat_sign sharp_first }
{
    if sharp_first { b'b' } else { b'+' }
}

fn marks_from(sharp_first: bool, at: usize, text: &[u8]) -> Marks
    requires { at ≤ length text.now }
    ensures { MarksFound sharp_first at text.now result }
{
    let sharps = run(text, at, sharp_sign(sharp_first));
    let flats = run(text, at, flat_sign(sharp_first));
    let stars = run(text, at + (sharps + flats), b'*');
    Marks {
        sharps,
        flats,
        stars,
    }
}

// Sharps are # where the primary step is at least the secondary.
fn sharp_first(pattern: Mos) -> bool
    ensures { result ≡ leb (secondary pattern) (primary pattern) }
{
    pattern.secondary_step <= pattern.primary_step
}

fn letter_in_front(row: ChainRow, text: &[u8]) -> Option<Front>
    requires { TableRow row }
    ensures { FrontIn (letters_in row) text.now result }
{
    for place in 0..row.num_letters {
        let letter = row.letters[place as usize];
        if starts(text, letter) {
            return Some(Front {
                index: place,
                bytes: plans::letter_length(letter),
            });
        }
    }
    None
}

// The spelling that a text is, in the letters of a row and with the style's signs, with any number of stars (23).
fn read_text(row: ChainRow, sharp_first: bool, text: &[u8]) -> Result<Typed, Refusal>
    requires { TableRow row }
    ensures { typed_outcome result ≡ read_spelling (letters_in row) sharp_first text.now }
{
    let Some(front) = letter_in_front(row, text) else {
        return Err(Refusal::NoteName);
    };
    let at = front.bytes;
    let marks = marks_from(sharp_first, at, text);
    let sharps = marks.sharps;
    let flats = marks.flats;
    let stars = marks.stars;
    if at + (sharps + flats) + stars < text.len() {
        return Err(Refusal::NoteName);
    }
    if sharps + flats > u32::MAX as usize {
        return Err(Refusal::NoteName);
    }
    let signs = if flats == 0 {
        Signs::Sharps(sharps as u32)
    } else {
        Signs::Flats(flats as u32)
    };
    Ok(Typed {
        index: front.index,
        signs,
        stars,
    })
}

impl Typed {
    // The same letter and signs, with these stars.
    pub fn with_stars(self, stars: u16) -> Spelling
        ensures { result ≡ with_stars stars (spelling_of self) }
    {
        let signs = self.signs;
        Spelling {
            index: self.index,
            signs,
            stars,
        }
    }
}

impl Reader {
    // What is asked of a layout once, before any text (1, 2, 3, 4, 18).
    pub fn ask(layout: IsomorphicLayout) -> Result<Self, Refusal>
        ensures { reader_outcome result ≡ layout_outcome layout }
    {
        let row = rows::row(layout.genchain);
        let found = layout::parts::ask_with_row(layout, row)?;
        let cycles = math::gcd_u16(found.octave, found.generator);
        Ok(Reader { row, found, cycles })
    }

    // The spelling that a text is, with any number of stars (23). Inlined: what is called has the row alone, and no whole `Reader` is copied.
    #[inline(always)]
    pub fn typed_spelling(self, text: &[u8]) -> Result<Typed, Refusal>
        ensures { typed_outcome result ≡ typed_in (layout_of self.found) text.now }
    {
        read_text(self.row, sharp_first(self.found.pattern), text)
    }

    // So many stars, where they are below the cycles (21).
    pub fn stars_below(self, stars: usize) -> Result<u16, Refusal>
        ensures { MatchResult result (λ n. (n ≡ stars) × (stars < self.cycles)) (λ q. (q ≡ Stars) × (self.cycles ≤ stars)) }
    {
        if self.cycles as usize <= stars {
            return Err(Refusal::Stars);
        }
        Ok(stars as u16)
    }

    // The spelling that a text is (23, 21).
    pub(crate) fn read(self, text: &[u8]) -> Result<Spelling, Refusal>
        ensures { outcome_of result ≡ spelling_in (layout_of self.found) text.now }
    {
        let t = self.typed_spelling(text)?;
        let stars = self.stars_below(t.stars)?;
        Ok(t.with_stars(stars))
    }
}
