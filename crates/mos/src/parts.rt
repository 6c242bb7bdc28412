// What `pattern` is made of: the size of any four numbers, question 7, the genesis, the dual, the child and the parent.
//
// Parts, and no entry points: the genesis asks for a period above 0, and child and parent are asked for only where there is one.
ghost use Rattle.std.specs.Prelude.{◌≡◌, true, ◌*◌, ◌≤◌, ◌<◌, Some, is_some};
ghost use Rattle.mos.specs.Patterns.{size_of, is_pattern, count_of, genesis, dual_of, child_of, parent_of};

use crate::Mos;

fn product(x: u16, y: u16) -> u64
    ensures { (result ≡ x * y) × (result < 4294967296) }
{
    (x as u64) * (y as u64)
}

// The size, which may pass 65,535.
pub fn wide_size(m: Mos) -> u64
    ensures { result ≡ size_of m }
{
    product(m.num_primary_steps, m.primary_step) + product(m.num_secondary_steps, m.secondary_step)
}

// Question 7. Both products fit where their sum does.
pub fn is_pattern(m: Mos) -> bool
    ensures { result ≡ is_pattern m }
{
    wide_size(m) <= 65535
}

// How many steps the pattern has.
pub fn count_of(m: Mos) -> u32
    ensures { result ≡ count_of m }
{
    (m.num_primary_steps as u32) + (m.num_secondary_steps as u32)
}

// The pattern that a generator starts from: one step of its size, and one for the rest of the period.
pub fn genesis_of(period: u16, generator: u16) -> Mos
    requires { 1 ≤ period }
    ensures { result ≡ genesis period generator }
{
    let step = generator % period;
    Mos {
        num_primary_steps: 1,
        num_secondary_steps: 1,
        primary_step: step,
        secondary_step: period - step,
    }
}

// Counts and steps change places.
pub fn dual_of(m: Mos) -> Mos
    ensures { result ≡ dual_of m }
{
    Mos {
        num_primary_steps: m.primary_step,
        num_secondary_steps: m.secondary_step,
        primary_step: m.num_primary_steps,
        secondary_step: m.num_secondary_steps,
    }
}

// Is there a child?
pub fn has_child(m: Mos) -> bool
    ensures { result ≡ is_some (child_of m) }
{
    if m.primary_step == 0 {
        return false;
    }
    if m.secondary_step == 0 {
        return false;
    }
    m.primary_step != m.secondary_step
}

// The child of a pattern that has one.
pub fn child_of(m: Mos) -> Mos
    requires { (is_pattern m ≡ true) × (is_some (child_of m) ≡ true) }
    ensures { child_of m ≡ Some result }
{
    let a = m.num_primary_steps;
    let b = m.num_secondary_steps;
    let p = m.primary_step;
    let s = m.secondary_step;
    if s < p {
        return Mos {
            num_primary_steps: a,
            num_secondary_steps: a + b,
            primary_step: p - s,
            secondary_step: s,
        };
    }
    Mos {
        num_primary_steps: a + b,
        num_secondary_steps: b,
        primary_step: p,
        secondary_step: s - p,
    }
}

// Is there a parent?
pub fn has_parent(m: Mos) -> bool
    ensures { result ≡ is_some (parent_of m) }
{
    has_child(dual_of(m))
}

// The parent of a pattern that has one: swap counts with steps, child, swap back.
pub fn parent_of(m: Mos) -> Mos
    requires { (is_pattern m ≡ true) × (is_some (parent_of m) ≡ true) }
    ensures { parent_of m ≡ Some result }
{
    dual_of(child_of(dual_of(m)))
}
