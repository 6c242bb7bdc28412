// The search for a pattern with so many steps, as a loop, which making a layout goes by: for a class that steps through it there is one
// frame, and in it one variable, `pattern`, with both counts and both steps. Nothing here calls itself, nor does what it calls.
//
// Parts, and no entry points. `parts::seek`, which calls itself for each pattern, is held to the same definition.
ghost use Rattle.std.specs.Prelude.{◌≡◌, true};
ghost use Rattle.mos.specs.Patterns.{is_pattern};
ghost use Rattle.mos.specs.Walks.{children, first_with};

use mos::Mos;
use mos::pattern::Pattern;

// The first pattern with n steps of the walk of children from m, m itself included. Counts only grow, so a pattern with more ends the
// search. Each end has a return of its own, and the child is asked for before it is made: where the ends met behind the loop, or the child
// came in an `Option`, the four numbers would be packed in every turn.
pub fn first_with(m: Mos, n: u32) -> Option<Mos>
    requires { is_pattern m ≡ true }
    ensures { result ≡ first_with n (children m) }
{
    let mut pattern = Pattern { mos: m };
    while mos::parts::count_of(pattern.mos) != n {
        if n < mos::parts::count_of(pattern.mos) {
            return None;
        }
        if !mos::parts::has_child(pattern.mos) {
            return None;
        }
        pattern = Pattern {
            mos: mos::parts::child_of(pattern.mos),
        };
    }
    // One number after the other: were the pattern answered whole, it would be packed in every turn too.
    Some(Mos {
        num_primary_steps: pattern.mos.num_primary_steps,
        num_secondary_steps: pattern.mos.num_secondary_steps,
        primary_step: pattern.mos.primary_step,
        secondary_step: pattern.mos.secondary_step,
    })
}
