// What was taken from standard input. Its fields are private: no other module makes an `Input`, and no contract tells its count of bytes, so
// that none has `Taken` of bytes that were not read (specs/Streams).
ghost use Rattle.std.specs.Prelude.{◌≡◌, ◌+◌, min};
ghost use Rattle.streams.specs.Streams.{longest, Begun, Next};

use std::io::{Read, Stdin};
use std::num::wrapping_add_usize;

// What the last read had: nothing before the first one, a byte, or none where the input ended or could not be read.
#[derive(Clone, Copy)]
pub enum LastRead {
    Unread,
    Byte(u8),
    End,
}

// Where reading stands: the handle that it reads by, how many bytes were taken (modulo 2^64), of these how many a buffer keeps, and what the
// last read had.
#[derive(Clone, Copy)]
pub struct Input {
    stdin: Stdin,
    taken: usize,
    kept: usize,
    last: LastRead,
}

// Before the first read.
pub fn begin(stdin: Stdin) -> Input
    ensures { Begun result }
{
    Input {
        stdin,
        taken: 0,
        kept: 0,
        last: LastRead::Unread,
    }
}

// One byte more is kept, up to 18.
fn one_more(kept: usize) -> usize
    ensures { result ≡ min longest (kept + 1) }
{
    if kept < 18 { kept + 1 } else { 18 }
}

// One read: the next byte of standard input, or none where the input ends or cannot be read. The lent count goes on with each byte, so that
// whoever reads on from an earlier `Input`, and so forgets a byte, has a count that is not its own.
pub fn next_byte(past: Input, count: &mut usize) -> Input
    ensures { Next past count.old result count.new }
{
    let mut byte = [0u8; 1];
    let mut stdin = past.stdin;
    if stdin.read_exact(&mut byte).is_err() {
        return Input {
            stdin,
            last: LastRead::End,
            ..past
        };
    }
    *count = wrapping_add_usize(*count, 1);
    Input {
        stdin,
        taken: wrapping_add_usize(past.taken, 1),
        kept: one_more(past.kept),
        last: LastRead::Byte(byte[0]),
    }
}

// What the last read had.
pub fn last(input: Input) -> LastRead
    ensures { result ≡ input.last }
{
    input.last
}

// How many of the bytes that were taken are kept.
pub fn kept(input: Input) -> usize
    ensures { result ≡ input.kept }
{
    input.kept
}
