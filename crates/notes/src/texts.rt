// Writing a planned name: parts, and no entry points. Callers have asked question 10 where a `requires` names the room.
//
// That letters are short is asked (`ShortLetters`) and is no ghost field of `Mark`: `marked` of specs/ makes a mark of any letter.
ghost use Rattle.std.specs.Prelude.{◌<◌, length};
ghost use Rattle.answer.specs.Refusals.{outcome_of};
ghost use Rattle.answer.specs.Lent.{held_in, Filled};
ghost use Rattle.text.specs.Writing.{Room, Wrote};
ghost use Rattle.notes.specs.Names.{letter_text};
ghost use Rattle.notes.specs.Parts.{
  mark_text,
  two_text,
  parenthesis_text,
  bracketed_text,
  body_text,
  starred_text,
  plan_text,
  ShortLetters,
};

use crate::plans;
use crate::plans::{Mark, NamePlan};
use answer::Refusal;
use text::writer;

// A code point of one or two bytes.
pub fn put_letter(out: &mut [u8], at: usize, letter: u16) -> usize
    requires { (letter < 2048) × Room out.old at (letter_text letter) }
    ensures { Wrote out.old at (letter_text letter) out.new result }
{
    if letter < 128 {
        return writer::put_byte(out, at, letter as u8);
    }
    let next = writer::put_byte(out, at, (192 + letter / 64) as u8);
    writer::put_byte(out, next, (128 + letter % 64) as u8)
}

// A letter and its signs. One sign, the most frequent number in small octaves, is a store and not a run.
fn put_mark(out: &mut [u8], at: usize, mark: Mark) -> usize
    requires { (mark.letter < 2048) × Room out.old at (mark_text mark) }
    ensures { Wrote out.old at (mark_text mark) out.new result }
{
    let letter = mark.letter;
    let next = put_letter(out, at, letter);
    if mark.count == 1 {
        return writer::put_byte(out, next, mark.sign);
    }
    writer::put_run(out, next, mark.sign, mark.count)
}

fn put_two(out: &mut [u8], at: usize, plan: NamePlan) -> usize
    requires { ShortLetters plan × Room out.old at (two_text plan) }
    ensures { Wrote out.old at (two_text plan) out.new result }
{
    let first = plan.first;
    let second = plan.second;
    let next = put_mark(out, at, first);
    let after = writer::put_byte(out, next, b'/');
    put_mark(out, after, second)
}

// A parenthesis, where one is wanted.
fn put_parenthesis(out: &mut [u8], at: usize, byte: u8, wanted: bool) -> usize
    requires { Room out.old at (parenthesis_text wanted byte) }
    ensures { Wrote out.old at (parenthesis_text wanted byte) out.new result }
{
    if wanted {
        return writer::put_byte(out, at, byte);
    }
    at
}

// Both spellings, in parentheses where the plan says so.
fn put_bracketed(out: &mut [u8], at: usize, plan: NamePlan) -> usize
    requires { ShortLetters plan × Room out.old at (bracketed_text plan) }
    ensures { Wrote out.old at (bracketed_text plan) out.new result }
{
    let bracketed = plan.bracketed;
    let next = put_parenthesis(out, at, b'(', bracketed);
    let after = put_two(out, next, plan);
    put_parenthesis(out, after, b')', bracketed)
}

fn put_body(out: &mut [u8], at: usize, plan: NamePlan) -> usize
    requires { ShortLetters plan × Room out.old at (body_text plan) }
    ensures { Wrote out.old at (body_text plan) out.new result }
{
    let both = plan.both;
    if both {
        return put_bracketed(out, at, plan);
    }
    let first = plan.first;
    put_mark(out, at, first)
}

// A planned name from a place on, with stars for another cycle than the plan's; the place after it.
pub fn put_starred(out: &mut [u8], at: usize, plan: NamePlan, stars: u16) -> usize
    requires { ShortLetters plan × Room out.old at (starred_text plan stars) }
    ensures { Wrote out.old at (starred_text plan stars) out.new result }
{
    let next = put_body(out, at, plan);
    writer::put_run(out, next, b'*', stars)
}

// A planned name from a place on; the place after it.
pub fn put_name(out: &mut [u8], at: usize, plan: NamePlan) -> usize
    requires { ShortLetters plan × Room out.old at (plan_text plan) }
    ensures { Wrote out.old at (plan_text plan) out.new result }
{
    put_starred(out, at, plan, plan.stars)
}

// A planned name at the front of a slice that holds it (10).
pub fn write_planned(plan: NamePlan, out: &mut [u8]) -> Result<usize, Refusal>
    requires { ShortLetters plan }
    ensures { Filled (held_in (length out.old) (plan_text plan)) (outcome_of result) out.old out.new }
{
    let bytes = plans::plan_length(plan);
    answer::asked_room(out.len(), bytes)?;
    put_name(out, 0, plan);
    Ok(bytes)
}
