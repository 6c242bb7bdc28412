// One line of standard input, byte by byte to its line feed, so that whoever reads on finds the bytes after it, and a person at a terminal is
// answered as soon as the line is typed. Its first 18 bytes are kept, which are enough for every line of `line`.
ghost use Rattle.std.specs.Prelude.{◌≡◌, ◌≤◌, length, take};
ghost use Rattle.streams.specs.Streams.{longest};
ghost use Rattle.streams.specs.Reading.{kept_in, LineRead};

use crate::input;
use crate::input::{Input, LastRead};
use std::io::Stdin;

// A line that was read: a buffer that begins with it, and what was taken from standard input for it.
#[derive(Clone, Copy)]
pub struct KeptLine {
    buffer: [u8; 18],
    input: Input,
    pub ghost read: { ∥ LineRead buffer input ∥₁ },
}

impl KeptLine {
    // What is kept of the line: all of it, or the first 18 bytes of a longer one.
    pub fn kept(&self) -> &[u8]
        ensures { result.now ≡ take self.now.input.kept self.now.buffer }
    {
        &self.buffer[..input::kept(self.input)]
    }

    // Where reading stands behind the line: what the last read had says whether a line feed closed it or the input ended (`input::last`), and
    // whoever reads on goes on from here.
    pub fn input(&self) -> Input
        ensures { result ≡ self.now.input }
    {
        self.input
    }
}

// Keeps one of a line's first 18 bytes at its place; a later one is dropped.
fn keep(line: &mut [u8], at: usize, byte: u8)
    requires { longest ≤ length line.old }
    ensures { line.new ≡ kept_in line.old at byte }
{
    if at < 18 {
        line[at] = byte;
    }
}

// Reads one line to its line feed, or to the end of the input, into a buffer of 18 bytes. A proved loop has to end, and nothing says that
// the input does: it ends after 2^64 - 1 bytes, which no run reads.
fn fill(stdin: Stdin, line: &mut [u8]) -> Input
    requires { longest ≤ length line.old }
    ensures { LineRead line.new result }
{
    let start = input::begin(stdin);
    let mut past = start;
    let mut count: usize = 0;
    for _ in 0..usize::MAX {
        let next = input::next_byte(past, &mut count);
        let LastRead::Byte(byte) = input::last(next) else {
            return next;
        };
        keep(line, input::kept(past), byte);
        if byte == b'\n' {
            return next;
        }
        past = next;
    }
    past
}

// Reads one line to its line feed, or to the end of the input, and keeps its first 18 bytes.
pub fn read_line(stdin: Stdin) -> KeptLine
    ensures { LineRead result.buffer result.input }
{
    let mut buffer = [0u8; 18];
    let input = fill(stdin, &mut buffer);
    KeptLine { buffer, input }
}
