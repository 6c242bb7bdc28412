// A key, and the walk from key to key: parts, and no entry points. Callers have asked question 2.
//
// That the numbers are `Walkable` is asked here and is no ghost field of `Solved`: `solved_of` of specs/ makes one of any period, 0 too.
//
// `key_at` finds a key by its number; `next` carries degree and cycle along, so that no key costs a division.
ghost use Rattle.std.specs.Prelude.{◌≡◌, ◌+◌, ◌*◌, ◌/◌, ◌%◌, ◌<◌, ◌≤◌};
ghost use Rattle.pergen.specs.Parts.{Walkable, At, generation_from};

use crate::Generation;
use crate::euclid::Solved;

// A key, of this octave or the next: its number, its degree, and its cycle, which is 0 where there is only one.
#[derive(Clone, Copy)]
pub struct Key {
    pub number: u32,
    pub degree: u16,
    pub cycle: u16,
}

// Key 0.
pub fn first(solved: Solved) -> Key
    requires { Walkable solved }
    ensures { At solved result × (result.number ≡ 0) }
{
    Key {
        number: 0,
        degree: 0,
        cycle: 0,
    }
}

// How many keys of its own cycle are below a key. Mostly there is one cycle, and nothing is divided.
fn turn_of(num_cycles: u16, number: u32) -> u32
    requires { 0 < num_cycles }
    ensures { result ≡ number / num_cycles }
{
    if num_cycles == 1 {
        return number;
    }
    number / (num_cycles as u32)
}

// So many keys of a cycle on from key 0, the degrees of the second octave are those of the first.
fn within_cycle(reduced: u32, turn: u32) -> u32
    requires { turn < 2 * reduced }
    ensures { result ≡ turn % reduced }
{
    if turn < reduced {
        return turn;
    }
    turn - reduced
}

// The key with a number; the product is at most 65,535 times 65,535.
pub fn key_at(solved: Solved, number: u32) -> Key
    requires { Walkable solved × (number < 2 * (solved.reduced_period * solved.num_cycles)) }
    ensures { At solved result × (result.number ≡ number) }
{
    let reduced = solved.reduced_period as u32;
    let turn = turn_of(solved.num_cycles, number);
    let within = within_cycle(reduced, turn);
    let degree = (solved.generator_inverse as u32) * within % reduced;
    let cycle = number - turn * (solved.num_cycles as u32);
    Key {
        number,
        degree: degree as u16,
        cycle: cycle as u16,
    }
}

// The degree that follows in the same cycle, as many keys on as there are cycles.
pub fn next_degree(solved: Solved, degree: u16) -> u16
    requires { Walkable solved × (degree < solved.reduced_period) }
    ensures { result ≡ (degree + solved.generator_inverse) % solved.reduced_period }
{
    let left = solved.reduced_period - solved.generator_inverse;
    if degree < left {
        return degree + solved.generator_inverse;
    }
    degree - left
}

// From any key to the next.
pub fn next(solved: Solved, key: Key) -> Key
    requires { Walkable solved × At solved key × (key.number ≤ 131070) }
    ensures { At solved result × (result.number ≡ key.number + 1) }
{
    let number = key.number + 1;
    let cycle = key.cycle + 1;
    if cycle < solved.num_cycles {
        return Key {
            number,
            degree: key.degree,
            cycle,
        };
    }
    Key {
        number,
        degree: next_degree(solved, key.degree),
        cycle: 0,
    }
}

// Degree and cycle as names have them: the cycle is absent where there is only one.
pub fn generation(solved: Solved, key: Key) -> Generation
    requires { At solved key }
    ensures { result ≡ generation_from solved key.number }
{
    let several = 1 < solved.num_cycles;
    Generation {
        cycle: several.then_some(key.cycle),
        degree: key.degree,
    }
}
