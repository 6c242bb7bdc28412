// The walks of children and of parents as listings, run by run, and their lengths, by leaps over runs. A run is a part of a walk of children
// in which each child shortens the same step.
//
// Parts, and no entry points.
ghost use Rattle.std.specs.Prelude.{◌≡◌, true, ◌&&◌, length, ltb, leb, None, MatchOption, is_some};
ghost use Rattle.answer.specs.Choice.{pick};
ghost use Rattle.answer.specs.Refusals.{outcome_of};
ghost use Rattle.answer.specs.Lent.{held_in, Filled};
ghost use Rattle.text.specs.Writing.{Room, Wrote};
ghost use Rattle.mos.specs.Patterns.{primary, secondary, is_pattern, child_of};
ghost use Rattle.mos.specs.Walks.{children, fields, listed};
ghost use Rattle.mos_listings.specs.Parts.{Leaps, Listing, dual_parents};
ghost use Rattle.mos_listings.specs.Listed.{walk_of};

use crate::Walk;
use answer::Refusal;
use mos::Mos;
use mos::pattern::Pattern;

// So many patterns further on the walk of children.
#[derive(Clone, Copy)]
struct Leap {
    turns: u16,
    to: Pattern,
}

// Over all children that shorten the same step; none where there is no child.
fn leap_from(m: Pattern) -> Option<Leap>
    ensures { MatchOption result (child_of m.mos ≡ None) (λ leap. Leaps m.mos leap.turns leap.to.mos) }
{
    if !mos::parts::has_child(m.mos) {
        return None;
    }
    let a = m.mos.num_primary_steps;
    let b = m.mos.num_secondary_steps;
    let p = m.mos.primary_step;
    let s = m.mos.secondary_step;
    if s < p {
        let turns = (p - 1) / s;
        return Some(Leap {
            turns,
            to: Pattern {
                mos: Mos {
                    num_primary_steps: a,
                    num_secondary_steps: b + turns * a,
                    primary_step: p - turns * s,
                    secondary_step: s,
                },
            },
        });
    }
    let turns = (s - 1) / p;
    Some(Leap {
        turns,
        to: Pattern {
            mos: Mos {
                num_primary_steps: a + turns * b,
                num_secondary_steps: b,
                primary_step: p,
                secondary_step: s - turns * p,
            },
        },
    })
}

// How many patterns the walk of children has, m included. A self call leaps over all children that shorten the same step.
pub(crate) fn count_children(m: Pattern) -> u32
    ensures { result ≡ length (children m.mos) }
{
    match leap_from(m) {
        Some(leap) => count_children(leap.to) + u32::from(leap.turns),
        None => 1,
    }
}

// Do so many numbers hold the walk of children? There are no more children than the steps' sum, so a long slice needs no count.
pub fn children_fit(m: Pattern, room: usize) -> bool
    ensures { result ≡ leb (length (listed (children m.mos))) room }
{
    let most = (m.mos.primary_step as usize + m.mos.secondary_step as usize + 1) * 4;
    if most <= room {
        return true;
    }
    count_children(m) as usize * 4 <= room
}

// The four numbers of a pattern at a place; the place after them.
fn put_pattern(m: Mos, out: &mut [u16], at: usize) -> usize
    requires { Room out.old at (fields m) }
    ensures { Wrote out.old at (fields m) out.new result }
{
    out[at] = m.num_primary_steps;
    out[at + 1] = m.num_secondary_steps;
    out[at + 2] = m.primary_step;
    out[at + 3] = m.secondary_step;
    at + 4
}

// Where a listing has come to: the next pattern, and its place in the slice.
#[derive(Clone, Copy)]
struct Reached {
    next: Mos,
    at: usize,
}

// Is there a child, and does it shorten the primary step (else the secondary)? It does where that step is the longer one and the
// other is not 0.
fn shortens(m: Mos, of_primary: bool) -> bool
    ensures { result ≡ (is_some (child_of m) && pick of_primary (ltb (secondary m) (primary m)) (leb (primary m) (secondary m))) }
{
    if of_primary {
        if m.secondary_step == 0 {
            return false;
        }
        return m.secondary_step < m.primary_step;
    }
    if m.primary_step == 0 {
        return false;
    }
    m.primary_step < m.secondary_step
}

// The patterns from m on whose children shorten the same step, from a place on. This and the next are two, and so are the walks that go by
// them: tried, one function that asks at each pattern which walk it lists takes up to twice as long, and lists parents slower than the
// original.
fn list_child_run(m: Mos, out: &mut [u16], at: usize) -> Reached
    requires { (is_pattern m ≡ true) × Room out.old at (listed (children m)) }
    ensures { Listing children m out.old at result.next out.new result.at }
{
    let primary = m.secondary_step < m.primary_step;
    let mut next = m;
    let mut place = at;
    while shortens(next, primary) {
        place = put_pattern(next, out, place);
        next = mos::parts::child_of(next);
    }
    Reached { next, at: place }
}

// The patterns from one on whose parents take from the same count, from a place on. It is the dual that is walked: counts and
// steps change places only as they are written.
fn list_parent_run(dual: Mos, out: &mut [u16], at: usize) -> Reached
    requires { (is_pattern «dual» ≡ true) × Room out.old at (listed (dual_parents «dual»)) }
    ensures { Listing dual_parents «dual» out.old at result.next out.new result.at }
{
    let primary = dual.secondary_step < dual.primary_step;
    let mut next = dual;
    let mut place = at;
    while shortens(next, primary) {
        place = put_pattern(mos::parts::dual_of(next), out, place);
        next = mos::parts::child_of(next);
    }
    Reached { next, at: place }
}

// The walk of children from a place on; the place after it. Each self call lists one run: a self call that is lent a slice keeps
// a frame, and there are few runs.
pub(crate) fn list_children(m: Mos, out: &mut [u16], at: usize) -> usize
    requires { (is_pattern m ≡ true) × Room out.old at (listed (children m)) }
    ensures { Wrote out.old at (listed (children m)) out.new result }
{
    let run = list_child_run(m, out, at);
    let last = run.next;
    let after = put_pattern(last, out, run.at);
    if mos::parts::has_child(last) {
        return list_children(mos::parts::child_of(last), out, after);
    }
    after
}

// The walk of parents from a place on, in the same way, given the dual of its first pattern.
fn list_dual_parents(dual: Mos, out: &mut [u16], at: usize) -> usize
    requires { (is_pattern «dual» ≡ true) × Room out.old at (listed (dual_parents «dual»)) }
    ensures { Wrote out.old at (listed (dual_parents «dual»)) out.new result }
{
    let run = list_parent_run(dual, out, at);
    let last = run.next;
    let after = put_pattern(mos::parts::dual_of(last), out, run.at);
    if mos::parts::has_child(last) {
        return list_dual_parents(mos::parts::child_of(last), out, after);
    }
    after
}

// A walk at the slice's front; how many numbers that are.
fn list(walk: Walk, first: Pattern, out: &mut [u16]) -> usize
    requires { Room out.old 0 (listed (walk_of walk first.mos)) }
    ensures { Wrote out.old 0 (listed (walk_of walk first.mos)) out.new result }
{
    match walk {
        Walk::Children => list_children(first.mos, out, 0),
        Walk::Parents => list_dual_parents(first.mos, out, 0),
    }
}

// A walk at the slice's front, where it fits (10).
pub(crate) fn fill(walk: Walk, first: Pattern, out: &mut [u16]) -> Result<usize, Refusal>
    ensures { Filled (held_in (length out.old) (listed (walk_of walk first.mos))) (outcome_of result) out.old out.new }
{
    if !children_fit(first, out.len()) {
        return Err(Refusal::Room);
    }
    Ok(list(walk, first, out))
}
