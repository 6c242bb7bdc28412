// Why two spellings are one key, or two: the counting, shown to a pupil. F# and Gb are one key of 12, and two keys of 31.
//
// Holds the explanation of two spellings that are typed as text: where each stands on the chain, which key that is, how far apart they are
// and after how many places the chain comes round, as numbers and as three sentences for a class. The texts are read by `layout_reading`.
// specs/: Explanations and Sentences define, Answers says what each call answers, Theorems and Examples state what holds.
// Every entry point answers every input; `sentences` asks for more, as its head says. Nothing is assumed.
#![tactic(auto)]

mod counting;
mod measures;
mod sentences;
mod typed;

ghost use Rattle.std.specs.Prelude.{◌≡◌, length};
ghost use Rattle.answer.specs.Refusals.{outcome_of};
ghost use Rattle.answer.specs.Lent.{in_room, counted, Filled};
ghost use Rattle.layout.specs.Parts.{layout_of};
ghost use Rattle.layout_explaining.specs.Parts.{CountingOf};
ghost use Rattle.layout_explaining.specs.Answers.{get_explanation, told_in, get_explanation_text, ShortAnswer, LengthTold};

use crate::measures::Counting;
use answer::Refusal;
use layout::IsomorphicLayout;
use layout_reading::reader::Reader;
use notes::plans;

// Where a spelling stands: its place on the chain, counted from key 0's letter, its stars, and the key of the octave that it sounds.
#[derive(Clone, Copy)]
pub struct Standing {
    pub place: i64,
    pub stars: u16,
    pub key: u16,
}

#[derive(Clone, Copy)]
pub enum Verdict {
    // Their stars agree, and their places are a multiple of the reduced period apart.
    OneKey,
    // Their stars agree, and their places are not: two keys of one chain.
    OneChain,
    // Their stars differ: two keys, on different chains.
    TwoChains,
}

// Both spellings, how many places lie between them, after how many places the chain comes round, and what follows.
#[derive(Clone, Copy)]
pub struct Explanation {
    pub first: Standing,
    pub second: Standing,
    pub apart: u64,
    pub reduced_period: u16,
    pub verdict: Verdict,
}

// Why two spellings, typed as texts, are one key or two (1, 2, 3, 4, 18, of the first text and of the second 23, then 21).
pub fn explain(
    layout: IsomorphicLayout,
    first: &[u8],
    second: &[u8],
) -> Result<Explanation, Refusal>
    ensures { outcome_of result ≡ get_explanation layout first.now second.now }
{
    let reader = Reader::ask(layout)?;
    typed::explained(reader, first, second)
}

// What the sentences count by, in a layout that was found.
fn counting_in(reader: Reader) -> Counting
    ensures { CountingOf (layout_of reader.found) result }
{
    Counting {
        letter: plans::letter_at(reader.row, reader.found.start),
        generator: reader.found.generator,
        octave: reader.found.octave,
    }
}

// How many bytes the text has, in a layout that was found.
fn told_len(reader: Reader, first: &[u8], second: &[u8]) -> Result<usize, Refusal>
    ensures { (outcome_of result ≡ counted (told_in (layout_of reader.found) first.now second.now)) × ShortAnswer first.now second.now result }
{
    let e = typed::explained(reader, first, second)?;
    Ok(sentences::text_len(counting_in(reader), first, second, e))
}

// The text at the front of a slice that holds it, in a layout that was found.
fn tell(reader: Reader, first: &[u8], second: &[u8], out: &mut [u8]) -> Result<usize, Refusal>
    ensures { Filled (in_room (length out.old) (told_in (layout_of reader.found) first.now second.now)) (outcome_of result) out.old out.new }
{
    let e = typed::explained(reader, first, second)?;
    sentences::write(counting_in(reader), first, second, e, out)
}

// The same in three sentences, as a class reads them (1, 2, 3, 4, 18, of the first text and of the second 23, then 21, then 10).
pub fn explain_text(
    layout: IsomorphicLayout,
    first: &[u8],
    second: &[u8],
    out: &mut [u8],
) -> Result<usize, Refusal>
    ensures { Filled (in_room (length out.old) (get_explanation_text layout first.now second.now)) (outcome_of result) out.old out.new }
{
    let reader = Reader::ask(layout)?;
    tell(reader, first, second, out)
}

// How many bytes `explain_text` writes (1, 2, 3, 4, 18, of the first text and of the second 23, then 21).
pub fn explain_text_len(
    layout: IsomorphicLayout,
    first: &[u8],
    second: &[u8],
) -> Result<usize, Refusal>
    ensures { LengthTold layout first.now second.now result }
{
    let reader = Reader::ask(layout)?;
    told_len(reader, first, second)
}
