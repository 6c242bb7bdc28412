// The runs that layers are written by.
//
// Parts, and no entry points: they ask for a pattern, and for room. An entry point first answers questions 7 and 10.
ghost use Rattle.std.specs.Prelude.{◌≡◌, true, min, ◌+◌, ◌*◌, ◌-◌, ◌/◌, ◌≤◌, ◌<◌, length, replicate};
ghost use Rattle.text.specs.Writing.{Room, Wrote};
ghost use Rattle.mos.specs.Patterns.{is_pattern, primaries, secondaries, primary, secondary, cycles_of};
ghost use Rattle.mos_layers.specs.Layers.{holding, all_sizes, drop_empty, numbered};
ghost use Rattle.mos_layers.specs.Theorems.{sum};
ghost use Rattle.mos_layers.specs.Parts.{run_sizes, Laid, Space};

use crate::{Cursor, Runs};
use mos::Mos;
use mos::pattern::Pattern;
use text::writer::put_run;

// Of two counts, those whose number is above 0. Unused counts are not added.
fn held(a: u16, b: u16, x: u16, y: u16) -> u16
    requires { a * x + b * y ≤ 65535 }
    ensures { result ≡ holding a b x y }
{
    if x == 0 {
        return if y == 0 { 0 } else { b };
    }
    if y == 0 { a } else { a + b }
}

// The layers of counts a and b and divided steps x and y: natural; sharp, full ones first; enharmonic; sharp in reverse.
fn runs_of(a: u16, b: u16, x: u16, y: u16) -> Runs
    requires { a * x + b * y ≤ 65535 }
    ensures { run_sizes result ≡ all_sizes a b x y }
{
    let e = x.saturating_sub(1);
    let f = y.saturating_sub(1);
    let natural = held(a, b, x, y);
    let enharmonic = held(a, b, e % 2, f % 2);
    let times = (e / 2).min(f / 2);
    let full = held(a, b, times, times);
    let first = (e / 2).saturating_sub(f / 2);
    let second = (f / 2).saturating_sub(e / 2);
    Runs {
        sizes: [natural, full, a, b, enharmonic, b, a, full],
        times: [1, times, first, second, 1, second, first, times],
    }
}

// A quotient by the number of cycles, mostly 1: then nothing is divided.
pub fn divided(x: u16, cycles: u16) -> u16
    requires { 0 < cycles }
    ensures { result ≡ x / cycles }
{
    if cycles == 1 {
        return x;
    }
    x / cycles
}

// The layers of a pattern whose steps have the greatest common divisor `cycles`.
pub fn runs_over(m: Mos, cycles: u16) -> Runs
    requires { (is_pattern m ≡ true) × (cycles ≡ cycles_of m) }
    ensures { run_sizes result ≡ all_sizes (primaries m) (secondaries m) (primary m / cycles_of m) (secondary m / cycles_of m) }
{
    let x = divided(m.primary_step, cycles);
    let y = divided(m.secondary_step, cycles);
    runs_of(m.num_primary_steps, m.num_secondary_steps, x, y)
}

// The layers of a pattern.
pub(crate) fn runs_in(m: Pattern) -> Runs
    ensures { run_sizes result ≡ all_sizes (primaries m.mos) (secondaries m.mos) (primary m.mos / cycles_of m.mos) (secondary m.mos / cycles_of m.mos) }
{
    runs_over(m.mos, m.num_cycles())
}

// As many layers of one size as `times` says; none where they are empty.
fn put_layers(out: &mut [u16], c: Cursor, size: u16, times: u16) -> Cursor
    requires { Space (times * size) c out.old }
    ensures { Laid (replicate times size) c result out.old out.new }
{
    if size == 0 {
        return c;
    }
    let mut next = c;
    for _ in 0..times {
        let end = put_run(out, next.at, next.number, size);
        next = Cursor {
            at: end,
            number: next.number + 1,
        };
    }
    next
}

// The list of layer numbers.
pub(crate) fn put_all_layers(out: &mut [u16], runs: Runs)
    requires { (sum (run_sizes runs) ≤ 65535) × (sum (run_sizes runs) ≤ length out.old) }
    ensures { Wrote out.old 0 (numbered 0 (drop_empty (run_sizes runs))) out.new (sum (run_sizes runs)) }
{
    let sizes = runs.sizes;
    let times = runs.times;
    let mut c = Cursor { at: 0, number: 0 };
    for i in 0..8 {
        c = put_layers(out, c, sizes[i], times[i]);
    }
}

// How many layers a run has; none where they are empty.
fn count_run(size: u16, times: u16) -> u32
    ensures { (result ≡ length (drop_empty (replicate times size))) × (result ≤ 65535) }
{
    if size == 0 {
        return 0;
    }
    times as u32
}

// How many layers there are, empty ones dropped.
pub fn count_sizes(runs: Runs) -> u32
    ensures { result ≡ length (drop_empty (run_sizes runs)) }
{
    let sizes = runs.sizes;
    let times = runs.times;
    let mut count: u32 = 0;
    for i in 0..8 {
        count += count_run(sizes[i], times[i]);
    }
    count
}

// The sizes of one run's layers; none where they are empty.
fn put_sizes(out: &mut [u16], at: usize, size: u16, times: u16) -> usize
    requires { Room out.old at (drop_empty (replicate times size)) }
    ensures { Wrote out.old at (drop_empty (replicate times size)) out.new result }
{
    if size == 0 {
        return at;
    }
    put_run(out, at, size, times)
}

// The list of layer sizes.
pub(crate) fn put_all_sizes(out: &mut [u16], runs: Runs)
    requires { Room out.old 0 (drop_empty (run_sizes runs)) }
    ensures { Wrote out.old 0 (drop_empty (run_sizes runs)) out.new (length (drop_empty (run_sizes runs))) }
{
    let sizes = runs.sizes;
    let times = runs.times;
    let mut at: usize = 0;
    for i in 0..8 {
        at = put_sizes(out, at, sizes[i], times[i]);
    }
}
