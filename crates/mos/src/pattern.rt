// A step pattern that is one by question 7, so that what is made from it asks no more.
//
// Parts, and no entry points: a caller holds a `Mos`, and `Pattern::of` is where question 7 is asked.
ghost use Rattle.std.specs.Prelude.{◌≡◌, true, false, ◌≤◌, ◌<◌, None, Some, MatchOption, MatchResult};
ghost use Rattle.answer.specs.declared.Refusal.TheVariants.{Period, Size};
ghost use Rattle.mos.specs.Patterns.{is_pattern, genesis, dual_of, child_of, parent_of, size_of, cycles_of};

use crate::{Mos, parts};
use answer::Refusal;

// The four numbers, with both products and the size at most 65,535.
#[derive(Clone, Copy)]
pub struct Pattern {
    pub mos: Mos,
    pub ghost fits: { is_pattern mos ≡ true },
}

impl Pattern {
    // Question 7.
    pub fn of(mos: Mos) -> Result<Pattern, Refusal>
        ensures { MatchResult result (λ pattern. pattern.mos ≡ «mos») (λ refusal. (refusal ≡ Size) × (is_pattern «mos» ≡ false)) }
    {
        if parts::is_pattern(mos) {
            Ok(Pattern { mos })
        } else {
            Err(Refusal::Size)
        }
    }

    // Question 2, then the pattern that a generator starts from.
    pub fn genesis(period: u16, generator: u16) -> Result<Pattern, Refusal>
        ensures { MatchResult result (λ pattern. (1 ≤ period) × (pattern.mos ≡ genesis period generator)) (λ refusal. (refusal ≡ Period) × (period ≡ 0)) }
    {
        if period == 0 {
            return Err(Refusal::Period);
        }
        Ok(Pattern {
            mos: parts::genesis_of(period, generator),
        })
    }

    // Counts and steps change places.
    pub fn dual(self) -> Pattern
        ensures { result.mos ≡ dual_of self.mos }
    {
        Pattern {
            mos: parts::dual_of(self.mos),
        }
    }

    // The next finer pattern of the same generator.
    pub fn child(self) -> Option<Pattern>
        ensures { MatchOption result (child_of self.mos ≡ None) (λ child. child_of self.mos ≡ Some child.mos) }
    {
        if parts::has_child(self.mos) {
            Some(Pattern {
                mos: parts::child_of(self.mos),
            })
        } else {
            None
        }
    }

    // The next coarser pattern of the same generator.
    pub fn parent(self) -> Option<Pattern>
        ensures { MatchOption result (parent_of self.mos ≡ None) (λ parent. parent_of self.mos ≡ Some parent.mos) }
    {
        if parts::has_parent(self.mos) {
            Some(Pattern {
                mos: parts::parent_of(self.mos),
            })
        } else {
            None
        }
    }

    // The period: all steps together.
    pub fn size(self) -> u16
        ensures { result ≡ size_of self.mos }
    {
        parts::wide_size(self.mos) as u16
    }

    // How many chains of notes there are side by side: the steps' greatest common divisor.
    pub fn num_cycles(self) -> u16
        ensures { (result ≡ cycles_of self.mos) × (0 < result) }
    {
        math::gcd_u16(self.mos.primary_step, self.mos.secondary_step)
    }
}
