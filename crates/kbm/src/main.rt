// The keyboard mapping program: reads the key table's line, and prints the Scala keyboard mapping of the layout that it asks for, or the
// number of a refusal (document 02, W-210).
//
// What is printed is `kbm_output` of the whole line that was read, made by `layout_kbm::parts`; `streams` reads the line and writes. It keeps
// 18 bytes of a line: a longer one is refused whatever follows. No mapping of an octave up to 4,096, the largest that question 14 lets
// through, is longer than the buffer (`MappingsFit` of `kbm_text`), so it is written at once and with a small stack. specs/: Printing states
// what is printed, Examples what is printed for some lines. Which bytes a read hands over, and where written bytes go, rests on the kit's
// library.
#![tactic(auto)]

ghost use Rattle.std.specs.Prelude.{◌≤◌};
ghost use Rattle.layout.specs.Parts.{layout_in, Ready};
ghost use Rattle.layout_kbm.specs.Mappings.{mapping_in};
ghost use Rattle.streams.specs.Streams.{Handed};
ghost use Rattle.streams.specs.Reading.{LineIsEnough};
ghost use Rattle.streams.specs.Printing.{Printed};
ghost use Rattle.kbm.specs.Printing.{kbm_output};

use layout::prepared;
use layout::prepared::Prepared;
use std::io::{Stderr, Stdout};
use streams::lines::KeptLine;
use streams::output::Output;
use streams::{lines, output, refusals, words};

// Writes a mapping, of no more keys than question 14 lets through.
fn print_mapping(stdout: Stdout, prepared: Prepared) -> Output
    requires ready { Ready prepared }
    requires few { prepared.found.octave ≤ 4096 }
    ensures { Handed (mapping_in (layout_in prepared)) result }
{
    let mut out = [0u8; 24611];
    let bytes = layout_kbm::parts::put_file(&mut out, prepared);
    output::write_front(output::begin(stdout), &out, bytes)
}

// Prints the output for the line that was read.
fn print(stdout: Stdout, stderr: Stderr, line: &KeptLine) -> Output
    ensures { Printed kbm_output line.now result }
{
    match line::layouts::ask_line(line.kept()) {
        Err(refusal) => refusals::print_refusal(stdout, stderr, refusal),
        Ok(found) => print_mapping(stdout, prepared::prepare(found)),
    }
}

// A claim, as those of the crate `claims`, which cannot use a program: 18 bytes of a line, and the first line of any bytes, say what is
// printed.
pub fn line_is_enough()
    ensures { LineIsEnough kbm_output }
{
    ()
}

fn main(rt: HostRuntime) {
    let line = lines::read_line(rt.stdin());
    let done = print(rt.stdout(), rt.stderr(), &line);
    words::say_if_not_written(rt.stderr(), b"kbm", done);
}
