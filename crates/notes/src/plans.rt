// A name's plan: what is printed, decided before a byte is written. Parts, and no entry points: callers have asked question 1
// and hand in the chain's row, read once for a whole octave.
ghost use Rattle.std.specs.Prelude.{◌≡◌, ℕ, ◌≤◌, ◌<◌, List, length};
ghost use Rattle.genchain.specs.Chains.{TableRow, letters_in};
ghost use Rattle.notes.specs.Names.{letter_text, letter_at, letter_alone, sharp_sign, flat_sign};
ghost use Rattle.notes.specs.Parts.{
  one_plan,
  two_plan,
  LettersOf,
  Planned,
  Measured,
  MarkMeasured,
  BodyMeasured,
};

use genchain::rows::ChainRow;
use pergen::Accidentals;

// One spelling: a letter's code point, a sign, and how many of it.
#[derive(Clone, Copy)]
pub struct Mark {
    pub letter: u16,
    pub sign: u8,
    pub count: u16,
}

// `second` stands beside the flag `both` even where one spelling is printed: `Planned` and `Measured` of specs/ count the signs of both.
//
// A name: the first spelling, or both with / between, in parentheses where `bracketed` is set; then stars.
#[derive(Clone, Copy)]
pub struct NamePlan {
    pub first: Mark,
    pub second: Mark,
    pub both: bool,
    pub bracketed: bool,
    pub stars: u16,
}

// The letter at an index, or a question mark past the last.
pub fn letter_at(row: ChainRow, index: u16) -> u16
    requires { TableRow row }
    ensures { (result ≡ letter_at (letters_in row) index) × (result < 2048) }
{
    if index < row.num_letters {
        row.letters[index as usize]
    } else {
        b'?' as u16
    }
}

// The sign for sharps, by the style.
fn sharp_sign(sharp_first: bool) -> u8
    ensures { result ≡ sharp_sign sharp_first }
{
    if sharp_first { b'#' } else { b'-' }
}

// The sign for flats, by the style.
fn flat_sign(sharp_first: bool) -> u8
    ensures { result ≡ flat_sign sharp_first }
{
    if sharp_first { b'b' } else { b'+' }
}

// Both counts are 0, and the indices equal.
#[tactic(auto, unfolding(crate::specs::Names::letter_alone))]
fn letter_alone(accidentals: Accidentals) -> bool
    ensures { result ≡ letter_alone accidentals }
{
    accidentals.sharp_count == 0
        && accidentals.flat_count == 0
        && accidentals.sharp_index == accidentals.flat_index
}

// One spelling is printed.
fn one(printed: Mark, other: Mark, stars: u16) -> NamePlan
    ensures { result ≡ one_plan printed other stars }
{
    NamePlan {
        first: printed,
        second: other,
        both: false,
        bracketed: false,
        stars,
    }
}

// Both are printed.
fn two(first: Mark, second: Mark, bracketed: bool, stars: u16) -> NamePlan
    ensures { result ≡ two_plan first second bracketed stars }
{
    NamePlan {
        first,
        second,
        both: true,
        bracketed,
        stars,
    }
}

// The plan of a key's name, by the letters at its two indices. Where one spelling is printed, the other stands second.
pub fn plan_letters(
    sharp_letter: u16,
    flat_letter: u16,
    accidentals: Accidentals,
    sharp_first: bool,
) -> NamePlan
    requires { (sharp_letter < 2048) × (flat_letter < 2048) }
    ensures { (letters : List ℕ) → LettersOf letters accidentals sharp_letter flat_letter → Planned letters sharp_first accidentals result }
{
    let sharps = accidentals.sharp_count;
    let flats = accidentals.flat_count;
    let sharp = Mark {
        letter: sharp_letter,
        sign: sharp_sign(sharp_first),
        count: sharps,
    };
    let flat = Mark {
        letter: flat_letter,
        sign: flat_sign(sharp_first),
        count: flats,
    };
    let cycle = accidentals.cycle;
    let bracketed = cycle.is_some();
    let stars = cycle.unwrap_or(0);
    let alone = letter_alone(accidentals);
    if alone {
        return one(sharp, flat, stars);
    }
    if sharps < flats {
        return one(sharp, flat, stars);
    }
    if flats < sharps {
        return one(flat, sharp, stars);
    }
    if sharp_first {
        return two(sharp, flat, bracketed, stars);
    }
    two(flat, sharp, bracketed, stars)
}

// The plan of a key's name.
pub fn plan_name(row: ChainRow, accidentals: Accidentals, sharp_first: bool) -> NamePlan
    requires { TableRow row }
    ensures { Planned (letters_in row) sharp_first accidentals result }
{
    let sharp = letter_at(row, accidentals.sharp_index);
    let flat = letter_at(row, accidentals.flat_index);
    plan_letters(sharp, flat, accidentals, sharp_first)
}

// How many bytes a letter has.
pub fn letter_length(letter: u16) -> usize
    ensures { (result ≡ length (letter_text letter)) × (result ≤ 2) }
{
    if letter < 128 { 1 } else { 2 }
}

fn mark_length(mark: Mark) -> usize
    ensures { MarkMeasured mark result }
{
    letter_length(mark.letter) + mark.count as usize
}

fn body_length(plan: NamePlan) -> usize
    ensures { BodyMeasured plan result }
{
    let first = plan.first;
    let second = plan.second;
    let one = mark_length(first);
    if plan.both {
        let two = one + 1 + mark_length(second);
        if plan.bracketed {
            return two + 2;
        }
        return two;
    }
    one
}

// How many bytes a planned name has.
pub fn plan_length(plan: NamePlan) -> usize
    ensures { Measured plan result }
{
    body_length(plan) + plan.stars as usize
}
