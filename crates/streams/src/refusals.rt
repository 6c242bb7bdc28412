// What every program does with a refusal.
ghost use Rattle.answer.specs.Refusals.{number_of};
ghost use Rattle.line.specs.Refusals.{refusal_line};
ghost use Rattle.streams.specs.Streams.{Handed};

use crate::output::Output;
use crate::{output, words};
use answer::Refusal;
use std::io::{Stderr, Stdout};

// Writes the line of a refusal, and says that it is one.
pub fn print_refusal(stdout: Stdout, stderr: Stderr, refusal: Refusal) -> Output
    ensures { Handed (refusal_line (number_of refusal)) result }
{
    let mut out = [0u8; 16];
    let bytes = line::refusals::put_refusal(&mut out, u16::from(refusal.number()));
    let done = output::write_front(output::begin(stdout), &out, bytes);
    words::say_refused(stderr);
    done
}
