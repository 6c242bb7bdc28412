// What the program `edo` prints for a line with a number of steps to the octave (document 02, W-202).
//
// Holds the text: a line for each layout, with chain code, octave, tritave, chain name and scale name, or the line of a refusal.
// Parts, and no entry points: `put_output` asks for a slice of 264 bytes, which holds any such text: six lines of at most 44, with two
// names of at most 12 bytes and three numbers of at most five digits.
// specs/: Lines defines the text, Theorems states which bytes of a line matter, Examples has some lines.
// Nothing is assumed.
#![tactic(auto)]

ghost use Rattle.std.specs.Prelude.{◌+◌, ◌≤◌, ◌<◌, length};
ghost use Rattle.genchain.specs.Texts.{text_at};
ghost use Rattle.line.specs.Refusals.{output_of};
ghost use Rattle.text.specs.Writing.{Wrote, joined};
ghost use Rattle.edo_lines.specs.Lines.{numbers_part, names_part, layout_line, division_lines, output};
ghost use Rattle.edo_lines.specs.Parts.{served_line};

use edo_layouts::EdoLayout;
use edo_tritaves::Choices;
use genchain::names;
use layout::IsomorphicLayout;
use text::decimal;
use text::writer::put_byte;

// A layout's chain code, octave and tritave, with a space behind each; the place after them.
fn put_numbers(out: &mut [u8], at: usize, layout: IsomorphicLayout) -> usize
    requires { at + 18 ≤ length out.old }
    ensures { Wrote out.old at (numbers_part layout.genchain layout.octave layout.tritave) out.new result × (result ≤ at + 18) }
{
    let first = decimal::put_number_then(out, at, layout.genchain, b' ');
    let second = decimal::put_number_then(out, first, layout.octave, b' ');
    decimal::put_number_then(out, second, layout.tritave, b' ')
}

// Two names by their places in the table, a space between and a line feed behind; the place after it.
fn put_names(out: &mut [u8], at: usize, chain: u16, scale: u16) -> usize
    requires { (chain < 19) × (scale < 19) × (at + 26 ≤ length out.old) }
    ensures { Wrote out.old at (names_part (text_at chain) (text_at scale)) out.new result × (result ≤ at + 26) }
{
    let named = names::put(out, at, chain);
    let between = put_byte(out, named, b' ');
    let scaled = names::put(out, between, scale);
    put_byte(out, scaled, b'\n')
}

// A layout's line; the place after it.
fn put_line(out: &mut [u8], at: usize, found: EdoLayout) -> usize
    requires { (found.layout.genchain < 6) × (at + 44 ≤ length out.old) }
    ensures { Wrote out.old at (layout_line found) out.new result × (result ≤ at + 44) }
{
    let layout = found.layout;
    let genchain = layout.genchain;
    let scale = layout_scale_names::parts::place_of(genchain, found.pattern);
    let next = put_numbers(out, at, layout);
    put_names(out, next, 1 + 3 * genchain, scale)
}

// The line of a chain's layout, none where it has none; the place after it.
fn put_chain(out: &mut [u8], at: usize, n: u16, genchain: u16, choices: Choices) -> usize
    requires { (genchain < 6) × (at + 44 ≤ length out.old) }
    ensures { Wrote out.old at (served_line n choices genchain) out.new result × (result ≤ at + 44) }
{
    match edo_layouts::parts::serve(n, genchain, choices) {
        Err(_) => at,
        Ok(found) => put_line(out, at, found),
    }
}

// The lines of all chains at the front; the place after them.
fn put_chains(out: &mut [u8], n: u16, choices: Choices) -> usize
    requires { 264 ≤ length out.old }
    ensures { Wrote out.old 0 (joined (served_line n choices) 6) out.new result × (result ≤ 264) }
{
    let mut place: usize = 0;
    for genchain in 0..6 {
        place = put_chain(out, place, n, genchain, choices);
    }
    place
}

// The lines of a division, or of its refusal (15), at the front; the place after them.
fn put_division(out: &mut [u8], n: u16) -> usize
    requires { 264 ≤ length out.old }
    ensures { Wrote out.old 0 (output_of (division_lines n)) out.new result × (result ≤ 264) }
{
    match edo_tritaves::tritaves(n) {
        Err(q) => line::refusals::put_refusal(out, q.number() as u16),
        Ok(choices) => put_chains(out, n, choices),
    }
}

// The whole output for a line at the front (14, 15 are lines of it); the place after it.
pub fn put_output(line: &[u8], out: &mut [u8]) -> usize
    requires { 264 ≤ length out.old }
    ensures { Wrote out.old 0 (output line.now) out.new result × (result ≤ 264) }
{
    match line::parse_number(line) {
        Err(q) => line::refusals::put_refusal(out, q.number() as u16),
        Ok(n) => put_division(out, n),
    }
}
