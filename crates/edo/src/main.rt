// The program for schools: reads a line with a number of steps to the octave, as "31", and prints a line for each layout: chain code,
// octave, tritave, chain name, scale name. Or it prints the number of a refusal: 14, no number of 1 to 5 digits at most 65,535; 15, not 1
// to 400.
//
// What is printed is `output` of the whole line that was read, made by `edo_lines`; `streams` reads the line and writes.
// Which bytes a read hands over, and where written bytes go, rests on the kit's library.
#![tactic(auto)]

ghost use Rattle.edo_lines.specs.Lines.{output};
ghost use Rattle.streams.specs.Reading.{LineIsEnough};
ghost use Rattle.streams.specs.Printing.{Printed};

use std::io::{Stderr, Stdout};
use streams::lines::KeptLine;
use streams::output::Output;
use streams::{lines, output, words};

// Says that a text is a refusal's line, where it is: no layout's line begins with a letter.
fn say_if_refusal(stderr: Stderr, first: u8) {
    if first == b'r' {
        words::say_refused(stderr);
    }
}

// Prints the output for the line that was read.
fn print(stdout: Stdout, stderr: Stderr, line: &KeptLine) -> Output
    ensures { Printed output line.now result }
{
    let mut out = [0u8; 264];
    let bytes = edo_lines::put_output(line.kept(), &mut out);
    let done = output::write_front(output::begin(stdout), &out, bytes);
    say_if_refusal(stderr, out[0]);
    done
}

// A claim, as those of the crate `claims`, which cannot use a program: 18 bytes of a line, and the first line of any bytes, say what is
// printed.
pub fn line_is_enough()
    ensures { LineIsEnough output }
{
    ()
}

fn main(rt: HostRuntime) {
    let line = lines::read_line(rt.stdin());
    let done = print(rt.stdout(), rt.stderr(), &line);
    words::say_if_not_written(rt.stderr(), b"edo", done);
}
