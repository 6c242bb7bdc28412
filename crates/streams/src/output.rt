// What was handed over to standard output. Its fields are private: no other module makes an `Output`, and no contract tells its count of
// bytes, so that none has `Handed` of bytes that were not written (specs/Streams).
ghost use Rattle.std.specs.Prelude.{◌≡◌, ◌≤◌, length, take};
ghost use Rattle.streams.specs.Streams.{Opened, Written};

use std::io::{Stdout, Write};
use std::num::wrapping_add_usize;

// Where writing stands: the handle that it writes by, how many bytes were handed over (modulo 2^64), and whether all of them were taken.
#[derive(Clone, Copy)]
pub struct Output {
    stdout: Stdout,
    handed: usize,
    taken: bool,
}

// Before the first part.
pub fn begin(stdout: Stdout) -> Output
    ensures { Opened result }
{
    Output {
        stdout,
        handed: 0,
        taken: true,
    }
}

// Writes the next part to standard output.
pub fn write(past: Output, text: &[u8]) -> Output
    ensures { Written past text.now result }
{
    let mut stdout = past.stdout;
    let written = stdout.write_all(text).is_ok();
    Output {
        stdout,
        handed: wrapping_add_usize(past.handed, text.len()),
        taken: written && past.taken,
    }
}

// Writes the first so many bytes of a buffer.
pub fn write_front(past: Output, out: &[u8], bytes: usize) -> Output
    requires { bytes ≤ length out.now }
    ensures { Written past (take bytes out.now) result }
{
    write(past, &out[..bytes])
}

// Whether all that was handed over was taken.
pub fn taken(done: Output) -> bool
    ensures { result ≡ done.taken }
{
    done.taken
}
