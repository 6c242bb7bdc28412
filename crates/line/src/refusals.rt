// The line of a refusal: parts, and no entry points. Callers ask question 10 where they put it at a place that they know.
ghost use Rattle.std.specs.Prelude.{length};
ghost use Rattle.answer.specs.Refusals.{outcome_of};
ghost use Rattle.answer.specs.Lent.{held_in, Filled};
ghost use Rattle.text.specs.Writing.{Room, Wrote};
ghost use Rattle.line.specs.Refusals.{refusal_line};

use answer::Refusal;
use text::decimal;
use text::writer::{put_byte, put_text};

// A refusal's line at the front of a slice that is known to hold it; the place after it. It is put piece by piece and not by a `Display`:
// the memory is fixed, and `Wrote` says each of its bytes.
pub fn put_refusal(out: &mut [u8], number: u16) -> usize
    requires { Room out.old 0 (refusal_line number) }
    ensures { Wrote out.old 0 (refusal_line number) out.new result }
{
    let word = put_text(out, 0, b"refused ");
    let digits = decimal::put_number(out, word, number);
    put_byte(out, digits, b'\n')
}

// A refusal's line at the front of a slice that holds it (10).
pub fn write_refusal(number: u16, out: &mut [u8]) -> Result<usize, Refusal>
    ensures { Filled (held_in (length out.old) (refusal_line number)) (outcome_of result) out.old out.new }
{
    let bytes = decimal::number_len(number) + 9;
    if out.len() < bytes {
        return Err(Refusal::Room);
    }
    put_refusal(out, number);
    Ok(bytes)
}
