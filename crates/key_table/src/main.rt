// The key table program: reads a line, and prints the table of the layout that it asks for, or the number of a refusal.
//
// What is printed is `output` of the whole line that was read, made by `layout_table::parts`; `streams` reads the line and writes. Of a line
// 18 bytes are kept: a longer line is refused whatever follows (`LineIsEnough`). A table is printed in parts, 78 lines at a time (`TablesFit`
// of `layout_table` bounds a line), so a small stack is enough. specs/: Printing states what the functions between ask for. Which bytes a
// read hands over, and where written bytes go, rests on the kit's library.
#![tactic(auto)]

ghost use Rattle.std.specs.Prelude.{◌≡◌, true, ◌≤◌, ◌<◌, length};
ghost use Rattle.text.specs.Writing.{joined};
ghost use Rattle.layout.specs.Parts.{layout_in, Ready};
ghost use Rattle.layout_table.specs.Tables.{table_in, output};
ghost use Rattle.layout_table.specs.Parts.{line_from};
ghost use Rattle.streams.specs.Streams.{Handed, Written};
ghost use Rattle.streams.specs.Reading.{LineIsEnough};
ghost use Rattle.streams.specs.Printing.{Printed};
ghost use Rattle.key_table.specs.Printing.{Short, Lines};

use layout::prepared;
use layout::prepared::Prepared;
use std::io::{Stderr, Stdout};
use streams::lines::KeptLine;
use streams::output::Output;
use streams::{lines, output, refusals, words};

// How many lines are put into the buffer at once: 78 of 840 bytes fit.
fn at_once(left: u16) -> u16
    ensures { (result ≤ left) × (result ≤ 78) × (0 < left → 0 < result) }
{
    if left < 78 { left } else { 78 }
}

// Writes the lines of so many keys from a key on, by way of the buffer.
fn print_lines(prepared: Prepared, from: u16, count: u16, past: Output, out: &mut [u8]) -> Output
    requires { Lines prepared from count × (65536 ≤ length out.old) }
    ensures { Written past (joined (line_from (layout_in prepared) from) count) result }
{
    let bytes = layout_table::parts::put_lines(out, prepared, from, count);
    output::write(past, &out[..bytes])
}

// Writes a table, so many lines at a time; it stops where a part is not taken.
fn print_table(stdout: Stdout, prepared: Prepared, out: &mut [u8]) -> Output
    requires ready { Ready prepared }
    requires short { Short (layout_in prepared) }
    requires room { 65536 ≤ length out.old }
    ensures { result.taken ≡ true → Handed (table_in (layout_in prepared)) result }
{
    let octave = prepared.found.octave;
    let mut done = output::begin(stdout);
    // no range: the table comes in parts, of which the last is as short as what is left, and a part that is not taken ends it
    let mut from: u16 = 0;
    while from < octave {
        let count = at_once(octave - from);
        done = print_lines(prepared, from, count, done, out);
        if !output::taken(done) {
            return done;
        }
        from += count;
    }
    done
}

// Prints the output for the line that was read. The buffer is small beside the largest table, of 1.7 million bytes, so that a small stack
// is enough.
fn print(stdout: Stdout, stderr: Stderr, line: &KeptLine) -> Output
    ensures { Printed output line.now result }
{
    match line::layouts::ask_line(line.kept()) {
        Err(refusal) => refusals::print_refusal(stdout, stderr, refusal),
        Ok(found) => {
            let mut out = [0u8; 65536];
            print_table(stdout, prepared::prepare(found), &mut out)
        }
    }
}

// A claim, as those of the crate `claims`, which cannot use a program: 18 bytes of a line, and the first line of any bytes, say what is
// printed.
pub fn line_is_enough()
    ensures { LineIsEnough output }
{
    ()
}

fn main(rt: HostRuntime) {
    let line = lines::read_line(rt.stdin());
    let done = print(rt.stdout(), rt.stderr(), &line);
    words::say_if_not_written(rt.stderr(), b"key_table", done);
}
