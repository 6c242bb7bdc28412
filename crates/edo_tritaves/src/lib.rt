// The tritave counts of an octave division, after `IsomorphicLayout::find_by_edo` and `Val::patent` in the original (document 02, W-202).
//
// Holds, for an octave of 1 to 400 equal steps, how many of them make a tritave: the nearest number, out of one constant table, and the
// second choice where the nearest is far off.
// specs/: Tritaves has the rule in exact powers and what the call answers, Table the 400 numbers, Theorems states that they meet the rule and
// no others do, Examples has cases.
// The entry point answers every input. Nothing is assumed.
#![tactic(auto)]

mod numbers;

ghost use Rattle.std.specs.Prelude.{◌≡◌, ◌≤◌};
ghost use Rattle.answer.specs.Refusals.{outcome_of};
ghost use Rattle.edo_tritaves.specs.Tritaves.{choices_of, tritaves_of};
ghost use Rattle.edo_tritaves.specs.Table.{tritave_table};

use crate::numbers::TRITAVES;
use answer::Refusal;

// The choices for the tritave, in steps: the first, and the second, where there is one.
#[derive(Clone, Copy)]
pub struct Choices {
    pub first: u16,
    pub second: Option<u16>,
}

// The whole table.
fn table() -> [u16; 400]
    ensures { result ≡ tritave_table }
{
    TRITAVES
}

// Both choices. 1054 / 665 is near enough to the logarithm of 3 to the base 2: up to 400 steps, small numbers answer both questions on
// powers.
fn choose(n: u16) -> Choices
    requires { (1 ≤ n) × (n ≤ 400) }
    ensures { result ≡ choices_of n }
{
    let all = table();
    let k = all[n as usize - 1];
    let thirds = 3 * (k as u32);
    let steps = 3162 * (n as u32);
    let second = if 665 * (thirds + 1) < steps {
        Some(k + 1)
    } else if steps < 665 * (thirds - 1) {
        Some(k - 1)
    } else {
        None
    };
    Choices { first: k, second }
}

// How many steps make a tritave where n make an octave: the first choice, and the second where there is one (15).
pub fn tritaves(n: u16) -> Result<Choices, Refusal>
    ensures { outcome_of result ≡ tritaves_of n }
{
    if n == 0 {
        return Err(Refusal::Division);
    }
    if 400 < n {
        return Err(Refusal::Division);
    }
    Ok(choose(n))
}
