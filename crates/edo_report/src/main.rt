// Prints the report over all 400 octave divisions: a line for each chain code, with the number of its layouts with sharpness above 0, below
// 0 and at 0 (document 02, W-202).
//
// What is printed is `report` of `edo_counts`; `streams` writes it. Where written bytes go rests on the kit's library.
#![tactic(auto)]

ghost use Rattle.edo_counts.specs.Counts.{report};
ghost use Rattle.streams.specs.Streams.{Handed};

use std::io::Stdout;
use streams::output::Output;
use streams::{output, words};

// Prints the report.
fn print(stdout: Stdout) -> Output
    ensures { Handed report result }
{
    let mut out = [0u8; 144];
    let bytes = edo_counts::parts::put_report(&mut out);
    output::write_front(output::begin(stdout), &out, bytes)
}

fn main(rt: HostRuntime) {
    let done = print(rt.stdout());
    words::say_if_not_written(rt.stderr(), b"edo_report", done);
}
