// The lines that programs read: three decimal numbers for a key table (document 01, question 14), one number for an octave division
// (document 02, W-202).
//
// Holds the reading of such lines, answered for any bytes whatever; the layout that a line asks for; and the line of a refusal. What is here
// has no `requires`, `refusals` has.
// specs/: the line and its question (Lines), the layout (LineLayouts), a refusal's line (Refusals); that a written line is read back, and that later bytes change nothing
// (Theorems). Numbers in decimal are `text`'s. Nothing is assumed.
#![tactic(auto)]

pub mod layouts;
pub mod refusals;

ghost use Rattle.std.specs.Prelude.{◌≡◌, ◌<◌};
ghost use Rattle.answer.specs.Refusals.{outcome_of};
ghost use Rattle.line.specs.Lines.{field_at, line_outcome, number_line};

use answer::Refusal;
use text::decimal::read_number;

// What the line asks for: a chain code, and the step counts of octave and tritave.
#[derive(Clone, Copy)]
pub struct Line {
    pub genchain: u16,
    pub octave: u16,
    pub tritave: u16,
}

// A number with the byte `behind` right behind it, and the place after that byte.
fn read_field(line: &[u8], at: usize, behind: u8) -> Option<(u16, usize)>
    requires { 0 < behind }
    ensures { result ≡ field_at line.now at behind }
{
    let (value, next) = read_number(line, at)?;
    if *line.get(next)? != behind {
        return None;
    }
    Some((value, next + 1))
}

// The three numbers that a line asks a key table of; bytes after its line feed are ignored: 14.
pub fn parse(line: &[u8]) -> Result<Line, Refusal>
    ensures { outcome_of result ≡ line_outcome line.now }
{
    let (genchain, second) = read_field(line, 0, b' ').ok_or(Refusal::Line)?;
    let (octave, third) = read_field(line, second, b' ').ok_or(Refusal::Line)?;
    let (tritave, _) = read_field(line, third, b'\n').ok_or(Refusal::Line)?;
    if 4096 < octave {
        return Err(Refusal::Line);
    }
    Ok(Line {
        genchain,
        octave,
        tritave,
    })
}

// The number that stands alone on a line; bytes after its line feed are ignored: 14.
pub fn parse_number(line: &[u8]) -> Result<u16, Refusal>
    ensures { outcome_of result ≡ number_line line.now }
{
    let (number, _) = read_field(line, 0, b'\n').ok_or(Refusal::Line)?;
    Ok(number)
}
