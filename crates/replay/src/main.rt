// Replays questions: reads a list of them from standard input, a line each, asks the library, and prints its answers.
//
// A line is a name and numbers with one space before each; the modules say what each name asks. A key, KEY there, has 32 signed
// bits. A number before the name is how many elements the slice has that is lent for the answer; without one it has 65,535. An answer is one line, but for a key
// table, which is several: values with one space between, or `refused` and the number of the question with the answer no. A
// line that is no question is answered with `?`.
// The files `stdin` and `stdout` beside src/ hold a list of questions and the answers that were given by others: by the Rust
// original, and where it has none, by a reading of document 01. docs/DIFFERENCES.md says how they were made.
#![tactic(auto)]

mod books;
mod edo;
mod fractional;
mod layouts;
mod lists;
mod moves;
mod numbers;
mod patterns;
mod pergens;
mod plain;
mod print;
mod questions;
mod sheets;
mod texts;
mod words;

ghost use Rattle.replay.specs.Counts.{IsPrefixLen};

use questions::answered;
use std::io::{Read, Stdin, Stdout};
use words::Line;

// Whether the line, with or without a room before its question, is one; if so, it is answered.
fn answered_any(stdout: Stdout, line: Line) -> bool {
    if let b"table" = line.name {
        return texts::answer_table(stdout, line);
    }
    answered::<numbers::Question>(stdout, line)
        || answered::<pergens::Question>(stdout, line)
        || answered::<patterns::Question>(stdout, line)
        || answered::<fractional::Question>(stdout, line)
        || answered::<plain::Question>(stdout, line)
        || answered::<moves::Question>(stdout, line)
        || answered::<lists::Question>(stdout, line)
        || answered::<texts::Question>(stdout, line)
        || answered::<sheets::Question>(stdout, line)
        || answered::<books::Question>(stdout, line)
}

fn answer_line(stdout: Stdout, bytes: &[u8]) {
    let is_answered = match Line::new(bytes) {
        Some(line) => answered_any(stdout, line),
        None => false,
    };
    print::text(stdout, if is_answered { b"\n" } else { b"?\n" });
}

// The bytes of the next line, its line feed with them, and how many there are.
fn read_line(stdin: Stdin, line: &mut [u8]) -> usize
    ensures { IsPrefixLen result line.new }
{
    for len in 0..line.len() {
        let mut byte = [0u8; 1];
        let mut from = stdin;
        if from.read_exact(&mut byte).is_err() {
            return len;
        }
        line[len] = byte[0];
        if byte[0] == b'\n' {
            return len + 1;
        }
    }
    line.len()
}

// Reads a line and answers it; false at the end of the input. A line has at most 512 bytes.
fn answer_next(stdin: Stdin, stdout: Stdout) -> bool {
    let mut line = [0u8; 512];
    let bytes = read_line(stdin, &mut line);
    if bytes == 0 {
        return false;
    }
    answer_line(stdout, &line[..bytes]);
    true
}

// Answers a list of up to 65,536 lines.
fn main(rt: HostRuntime) {
    for _ in 0..65536 {
        if !answer_next(rt.stdin(), rt.stdout()) {
            return;
        }
    }
}
