// Shows the search for a layout's pattern, for a class: reads a line (chain code, octave, tritave) and prints every pattern that the
// search stands at, from the genesis on, a line each: both counts, then both steps. The last line is what the search answers.
//
// The patterns are made by the functions that the search's own loop is made of, and the last line comes from the search. What is printed is
// `output` of the whole line that was read; `streams` reads the line and writes. specs/: Printing defines it, Examples has some lines. Which
// bytes a read hands over, and where written bytes go, rests on the kit's library.
#![tactic(auto)]

ghost use Rattle.std.specs.Prelude.{◌≡◌, true, ◌+◌, ◌≤◌, length};
ghost use Rattle.text.specs.Writing.{Wrote};
ghost use Rattle.mos.specs.Patterns.{is_pattern};
ghost use Rattle.mos.specs.Walks.{children};
ghost use Rattle.line.specs.Refusals.{output_of};
ghost use Rattle.streams.specs.Streams.{Handed, Written};
ghost use Rattle.streams.specs.Printing.{Printed};
ghost use Rattle.passed_patterns.specs.Printing.{
  pattern_line,
  passed,
  pattern_lines,
  answer_line,
  shown,
  shown_from,
  shown_for,
  output,
};

use genchain::rows;
use line::Line;
use mos::Mos;
use mos_walks::search;
use std::io::{Stderr, Stdout};
use streams::lines::KeptLine;
use streams::output::Output;
use streams::{lines, output, refusals, words};
use text::decimal::put_number_then;

// A pattern's line at a place; the place after it.
fn put_pattern(out: &mut [u8], at: usize, m: Mos) -> usize
    requires { at + 24 ≤ length out.old }
    ensures { Wrote out.old at (pattern_line m) out.new result × (result ≤ at + 24) }
{
    let first = put_number_then(out, at, m.num_primary_steps, b' ');
    let second = put_number_then(out, first, m.num_secondary_steps, b' ');
    let third = put_number_then(out, second, m.primary_step, b' ');
    put_number_then(out, third, m.secondary_step, b'\n')
}

fn print_pattern(past: Output, m: Mos) -> Output
    ensures { Written past (pattern_line m) result }
{
    let mut out = [0u8; 24];
    let bytes = put_pattern(&mut out, 0, m);
    output::write_front(past, &out, bytes)
}

// The patterns that the search for n steps stands at.
fn print_patterns(past: Output, genesis: Mos, n: u32) -> Output
    requires { is_pattern genesis ≡ true }
    ensures { Written past (pattern_lines (passed n (children genesis))) result }
{
    let mut pattern = genesis;
    let mut done = past;
    // the search's own loop, with a line printed at each turn
    while mos::parts::count_of(pattern) < n {
        done = print_pattern(done, pattern);
        if !mos::parts::has_child(pattern) {
            return done;
        }
        pattern = mos::parts::child_of(pattern);
    }
    print_pattern(done, pattern)
}

// What the search answers.
fn print_answer(past: Output, found: Option<Mos>) -> Output
    ensures { Written past (answer_line found) result }
{
    match found {
        Some(m) => print_pattern(output::write(past, b"found "), m),
        None => output::write(past, b"nothing\n"),
    }
}

fn print_search(stdout: Stdout, genesis: Mos, n: u32) -> Output
    requires { is_pattern genesis ≡ true }
    ensures { Handed (shown n genesis) result }
{
    let done = print_patterns(output::begin(stdout), genesis, n);
    print_answer(done, search::first_with(genesis, n))
}

fn print_from(stdout: Stdout, stderr: Stderr, asked: Line, generator: u16) -> Output
    ensures { Handed (output_of (shown_from asked generator)) result }
{
    let chain = rows::numbers(asked.genchain);
    match Mos::new_genesis(asked.octave, generator) {
        Err(refusal) => refusals::print_refusal(stdout, stderr, refusal),
        Ok(genesis) => print_search(stdout, genesis, u32::from(chain.num_letters)),
    }
}

fn print_asked(stdout: Stdout, stderr: Stderr, asked: Line) -> Output
    ensures { Handed (output_of (shown_for asked)) result }
{
    match genchain::generator(asked.genchain, asked.octave, asked.tritave) {
        Err(refusal) => refusals::print_refusal(stdout, stderr, refusal),
        Ok(generator) => print_from(stdout, stderr, asked, generator),
    }
}

// Prints the output for the line that was read.
fn print(stdout: Stdout, stderr: Stderr, line: &KeptLine) -> Output
    ensures { Printed output line.now result }
{
    match line::parse(line.kept()) {
        Err(refusal) => refusals::print_refusal(stdout, stderr, refusal),
        Ok(asked) => print_asked(stdout, stderr, asked),
    }
}

fn main(rt: HostRuntime) {
    let line = lines::read_line(rt.stdin());
    let done = print(rt.stdout(), rt.stderr(), &line);
    words::say_if_not_written(rt.stderr(), b"passed_patterns", done);
}
