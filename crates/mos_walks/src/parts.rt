// The walks of children and of parents, as functions that call themselves: the sum of the steps falls with each child, the
// sum of the counts with each parent.
//
// Parts, and no entry points. The deepest walks are 65,534 self calls, in a fixed stack: a self call stands in the last place, and what is
// found goes into a lent place, so that it compiles to a loop. Returned, an Option or a pattern keeps a frame for each self call (tried).
ghost use Rattle.std.specs.Prelude.{◌≡◌, true, slice_get};
ghost use Rattle.mos.specs.Patterns.{mos, is_pattern};
ghost use Rattle.mos.specs.Walks.{children, parents, first_with, genesis_of};
ghost use Rattle.mos_walks.specs.Parts.{Meets};

use mos::Mos;
use mos::pattern::Pattern;

// The first child with n steps of the pattern with counts a and b and steps p and s, itself included: is there one? It goes into the lent
// place, which is else untouched. Counts only grow, so a pattern with more ends the search. The four numbers go separately, and
// the child is asked for before it is made: a pattern, or a child in an `Option`, would be packed into one register at each self call.
pub fn seek(a: u16, b: u16, p: u16, s: u16, n: u32, found: &mut Option<Mos>) -> bool
    requires { is_pattern (mos a b p s) ≡ true }
    ensures { Meets (first_with n (children (mos a b p s))) result found.old found.new }
{
    let here = Mos {
        num_primary_steps: a,
        num_secondary_steps: b,
        primary_step: p,
        secondary_step: s,
    };
    let have = mos::parts::count_of(here);
    if have == n {
        *found = Some(here);
        return true;
    }
    if n < have {
        return false;
    }
    if mos::parts::has_child(here) {
        let child = mos::parts::child_of(here);
        return seek(
            child.num_primary_steps,
            child.num_secondary_steps,
            child.primary_step,
            child.secondary_step,
            n,
            found,
        );
    }
    false
}

// The k-th child, m itself for 0.
pub(crate) fn descend(m: Pattern, k: u32, found: &mut Option<Mos>)
    ensures { found.new ≡ slice_get (children m.mos) k }
{
    if k == 0 {
        *found = Some(m.mos);
        return;
    }
    match m.child() {
        Some(child) => descend(child, k - 1, found),
        None => *found = None,
    }
}

// The k-th parent, m itself for 0.
pub(crate) fn ascend(m: Pattern, k: u32, found: &mut Option<Mos>)
    ensures { found.new ≡ slice_get (parents m.mos) k }
{
    if k == 0 {
        *found = Some(m.mos);
        return;
    }
    match m.parent() {
        Some(parent) => ascend(parent, k - 1, found),
        None => *found = None,
    }
}

// The last parent.
pub(crate) fn root(m: Pattern, found: &mut Mos)
    ensures { found.new ≡ genesis_of m.mos }
{
    match m.parent() {
        Some(parent) => root(parent, found),
        None => *found = m.mos,
    }
}
