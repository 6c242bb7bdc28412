// The lines of a text in turn: parts, and no entry points. The text's last byte is known to be a line feed, so that every line has an end.
//
// One pass counts the lines and asks each of them 19 and 20, and one writes the keys; both go by the same kinds.
ghost use Rattle.std.specs.Prelude.{◌≡◌, ◌+◌, ◌-◌, ◌<◌, ◌≤◌, length, take, drop};
ghost use Rattle.text.specs.Writing.{Room, Wrote};
ghost use Rattle.kbm_text.specs.Lines.{lines};
ghost use Rattle.kbm_text.specs.Kinds.{kind_of};
ghost use Rattle.kbm_text.specs.Reading.{due, fits_at, agrees_at, key_at, said, keys_from};
ghost use Rattle.kbm_text.specs.Parts.{Closed, Cut, key_count, next_scan, Scanned, PutKey};

use crate::kinds::{Kind, is_comment, kind_of};

// What the lines so far say: how many there are without comments, whether each fits (19), whether each agrees (20), how many keys are
// mapped. Both flags are kept, since a 19 of a later line goes before a 20 of an earlier one.
#[derive(Clone, Copy)]
pub struct Scan {
    pub line: usize,
    pub fits: bool,
    pub agrees: bool,
    pub keys: usize,
}

// A line's number, and how many keys are written.
#[derive(Clone, Copy)]
pub struct Spot {
    pub line: usize,
    pub put: usize,
}

// The place of the first line feed from a place on.
fn line_end(text: &[u8], at: usize) -> usize
    requires { Closed text.now × (at < length text.now) }
    ensures { Cut text.now at result }
{
    // `position` would answer an Option, whose None cannot come here and would have to be answered all the same.
    let mut end = at;
    while text[end] != b'\n' {
        end += 1;
    }
    end
}

// The line from a place on: what it says, and the place of its line feed.
#[derive(Clone, Copy)]
struct Line {
    kind: Kind,
    end: usize,
}

fn line_from(text: &[u8], at: usize) -> Line
    requires { Closed text.now × (at < length text.now) }
    ensures { Cut text.now at result.end × (result.kind ≡ kind_of (take (result.end - at) (drop at text.now))) }
{
    let end = line_end(text, at);
    let kind = kind_of(&text[at..end]);
    Line { kind, end }
}

// The number that is due on a line: the head's, then the entry's own place.
fn due_at(octave: u16, line: usize) -> usize
    ensures { result ≡ due octave line }
{
    match line {
        0 | 6 => octave as usize,
        1 | 5 => 0,
        2 => 127,
        3 => 60,
        4 => 69,
        _ => line - 7,
    }
}

// 19, of one line.
fn fits_at(line: usize, kind: Kind) -> bool
    ensures { result ≡ fits_at line kind }
{
    match kind {
        Kind::Number(_) => line != 5,
        Kind::Frequency => line == 5,
        Kind::Mark => 7 <= line,
        Kind::Comment | Kind::Other => false,
    }
}

// 20, of one line.
fn agrees_at(octave: u16, line: usize, kind: Kind) -> bool
    ensures { result ≡ agrees_at octave line kind }
{
    match kind {
        Kind::Number(n) => (n as usize) == due_at(octave, line),
        _ => true,
    }
}

// 1 where the line maps a key.
fn key_count(line: usize, kind: Kind) -> usize
    ensures { (result ≡ key_count line kind) × (result ≤ 1) }
{
    match kind {
        Kind::Number(_) if 7 <= line => 1,
        _ => 0,
    }
}

// One line more.
fn step(s: Scan, octave: u16, kind: Kind) -> Scan
    requires { (s.line < 18446744073709551615) × (s.keys ≤ s.line) }
    ensures { (result ≡ next_scan octave s kind) × (result.line ≤ s.line + 1) × (result.keys ≤ result.line) }
{
    if is_comment(kind) {
        return s;
    }
    let line = s.line;
    // Each line is asked both, whatever the lines before said: a line's kind is then gone through once.
    let fitting = fits_at(line, kind);
    let fits = s.fits && fitting;
    let agreeing = agrees_at(octave, line, kind);
    let agrees = s.agrees && agreeing;
    let keys = s.keys + key_count(line, kind);
    Scan {
        line: line + 1,
        fits,
        agrees,
        keys,
    }
}

// What all lines of a text say.
pub(crate) fn scan_all(octave: u16, text: &[u8]) -> Scan
    requires { Closed text.now }
    ensures { Scanned octave text.now result }
{
    // no range: a turn goes on by a line, whose end says where the next begins
    let mut at: usize = 0;
    let mut s = Scan {
        line: 0,
        fits: true,
        agrees: true,
        keys: 0,
    };
    while at < text.len() {
        let line = line_from(text, at);
        s = step(s, octave, line.kind);
        at = line.end + 1;
    }
    s
}

// The key that a line maps, if it maps one, behind those of the lines before.
fn put_key(out: &mut [u16], spot: Spot, kind: Kind) -> Spot
    requires { Room out.old spot.put (key_at spot.line kind) × (spot.line < 65543) }
    ensures { PutKey out.old spot kind out.new result }
{
    if is_comment(kind) {
        return spot;
    }
    let line = spot.line;
    let put = spot.put;
    if key_count(line, kind) == 0 {
        return Spot {
            line: line + 1,
            put,
        };
    }
    out[put] = (line - 7) as u16;
    Spot {
        line: line + 1,
        put: put + 1,
    }
}

// The keys that all lines map, at the front of a slice that is known to hold them.
pub(crate) fn put_keys(text: &[u8], out: &mut [u16]) -> usize
    requires { Closed text.now × Room out.old 0 (keys_from 0 (said (lines text.now))) × (length (said (lines text.now)) ≤ 65542) }
    ensures { Wrote out.old 0 (keys_from 0 (said (lines text.now))) out.new result }
{
    // no range: as in `scan_all`, by lines
    let mut at: usize = 0;
    let mut spot = Spot { line: 0, put: 0 };
    while at < text.len() {
        let line = line_from(text, at);
        spot = put_key(out, spot, line.kind);
        at = line.end + 1;
    }
    spot.put
}
