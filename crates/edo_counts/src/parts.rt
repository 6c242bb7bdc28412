// How layouts are counted, and how the report's lines are written: parts, and no entry points. `put_report` asks for a slice of 144 bytes,
// which holds the report: six lines of four numbers with at most five digits.
ghost use Rattle.std.specs.Prelude.{◌≡◌, ◌+◌, ◌≤◌, ◌<◌, length};
ghost use Rattle.text.specs.Writing.{Wrote};
ghost use Rattle.edo_layouts.specs.Layouts.{chain_outcome, given_of};
ghost use Rattle.edo_counts.specs.Counts.{all_layouts, tally_of, report_line, report};
ghost use Rattle.edo_counts.specs.Parts.{plus, side, Small};

use mos::Mos;
use text::decimal;

// How many layouts have a sharpness above 0, below 0 and at 0.
#[derive(Clone, Copy)]
pub(crate) struct Tally {
    pub above: u16,
    pub below: u16,
    pub equal: u16,
}

impl Tally {
    // One layout more, by its pattern: sharpness is the primary less the secondary step.
    fn with_pattern(self, pattern: Mos) -> Tally
        requires { Small self }
        ensures { result ≡ plus self (side pattern) }
    {
        if pattern.secondary_step < pattern.primary_step {
            return Tally {
                above: self.above + 1,
                ..self
            };
        }
        if pattern.primary_step < pattern.secondary_step {
            return Tally {
                below: self.below + 1,
                ..self
            };
        }
        Tally {
            equal: self.equal + 1,
            ..self
        }
    }

    // The layout of a chain where n steps make an octave, if there is one.
    fn with_chain(self, n: u16, genchain: u16) -> Tally
        requires { Small self }
        ensures { result ≡ plus self (tally_of genchain (given_of (chain_outcome n genchain))) }
    {
        match edo_layouts::find_chain_by_edo(n, genchain) {
            Err(_) => self,
            Ok(found) => self.with_pattern(found.pattern),
        }
    }
}

// The layouts of a chain, over all divisions.
fn tally_chain(genchain: u16) -> Tally
    requires { genchain < 6 }
    ensures { result ≡ tally_of genchain (all_layouts 400) }
{
    let mut tally = Tally {
        above: 0,
        below: 0,
        equal: 0,
    };
    for before in 0..400 {
        tally = tally.with_chain(before + 1, genchain);
    }
    tally
}

// A chain's line; the place after it. No number has more than five digits.
fn put_line(out: &mut [u8], at: usize, genchain: u16, tally: Tally) -> usize
    requires { at + 24 ≤ length out.old }
    ensures { Wrote out.old at (report_line genchain tally.above tally.below tally.equal) out.new result }
{
    let first = decimal::put_number_then(out, at, genchain, b' ');
    let second = decimal::put_number_then(out, first, tally.above, b' ');
    let third = decimal::put_number_then(out, second, tally.below, b' ');
    decimal::put_number_then(out, third, tally.equal, b'\n')
}

// The lines of all chains at the front of a slice; the place after them.
pub fn put_report(out: &mut [u8]) -> usize
    requires { 144 ≤ length out.old }
    ensures { Wrote out.old 0 report out.new result }
{
    let mut place: usize = 0;
    for genchain in 0..6 {
        let tally = tally_chain(genchain);
        place = put_line(out, place, genchain, tally);
    }
    place
}
