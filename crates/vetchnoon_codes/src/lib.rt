// What C is answered with, made from the library's answers.
//
// Holds the turning of an answer into one signed number, and of what is `Coded`, a pattern or spellings, into numbers at the front of a
// lent slice.
// All of them are parts, and no entry points: the calls of `vetchnoon` are made of them.
// specs/: Codes says what a code means and what a lent slice then holds, Numbers which numbers stand for an answer.
// Nothing is assumed.
#![tactic(auto)]

ghost use Rattle.std.specs.Prelude.{◌≡◌, ◌<◌, ◌^◌, ℕ, List, length, pos, neg_ℤ};
ghost use Rattle.answer.specs.Outcome.{given};
ghost use Rattle.answer.specs.Refusals.{number_of, outcome_of};
ghost use Rattle.mos.specs.Walks.{fields};
ghost use Rattle.vetchnoon_codes.specs.Codes.{code_of, SmallCount, Fills};
ghost use Rattle.vetchnoon_codes.specs.Numbers.{as_numbers, walk_numbers, accidentals_numbers};

use answer::Refusal;
use mos::Mos;
use pergen::{Accidentals, Generation};

// A refusal is minus its question's number.
pub fn refused(question: Refusal) -> i64
    ensures { result ≡ neg_ℤ (pos (number_of question)) }
{
    -(question.number() as i64)
}

// A number, or a refusal.
pub fn number(answer: Result<u16, Refusal>) -> i64
    ensures { result ≡ code_of (outcome_of answer) }
{
    answer.map_or_else(refused, i64::from)
}

// How many elements were written, or a refusal.
pub fn count(answer: Result<usize, Refusal>) -> i64
    requires { SmallCount answer }
    ensures { result ≡ code_of (outcome_of answer) }
{
    answer.map_or_else(refused, |elements| elements as i64)
}

// Elements at the front of a slice that holds them (10).
pub fn put_all<T: Copy>(out: &mut [T], elements: &[T]) -> i64
    requires { length elements.now < 2 ^ 63 }
    ensures { Fills (given elements.now) result out.old out.new }
{
    let len = elements.len();
    if out.len() < len {
        return refused(Refusal::Room);
    }
    out[..len].copy_from_slice(elements);
    len as i64
}

// Numbers at the front of a slice that holds them (10).
pub fn put(out: &mut [u16], numbers: &[u16]) -> i64
    ensures { Fills (given numbers.now) result out.old out.new }
{
    put_all(out, numbers)
}

// A value that C gets as numbers at the front of a slice.
pub trait Coded {
    // Its numbers.
    ghost numbers: { Self → List ℕ };

    // Writes them (10).
    fn code(self, out: &mut [u16]) -> i64
        ensures { Fills (given (numbers self)) result out.old out.new };
}

// A pattern's four numbers.
impl Coded for Mos {
    ghost numbers = { fields };

    fn code(self, out: &mut [u16]) -> i64 {
        let numbers = [
            self.num_primary_steps,
            self.num_secondary_steps,
            self.primary_step,
            self.secondary_step,
        ];
        put(out, &numbers)
    }
}

// A pattern of a walk, or nothing.
impl Coded for Option<Mos> {
    ghost numbers = { walk_numbers };

    fn code(self, out: &mut [u16]) -> i64 {
        match self {
            Some(pattern) => pattern.code(out),
            None => 0,
        }
    }
}

// Sharp index and count, flat index and count.
impl Coded for Accidentals {
    ghost numbers = { accidentals_numbers };

    fn code(self, out: &mut [u16]) -> i64 {
        let numbers = [
            self.sharp_index,
            self.sharp_count,
            self.flat_index,
            self.flat_count,
        ];
        put(out, &numbers)
    }
}

// A value's numbers, or a refusal (10).
pub fn fill<T: Coded>(out: &mut [u16], answer: Result<T, Refusal>) -> i64
    ensures { Fills (as_numbers T.numbers (outcome_of answer)) result out.old out.new }
{
    match answer {
        Ok(value) => value.code(out),
        Err(question) => refused(question),
    }
}
