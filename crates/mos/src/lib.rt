// Step patterns: the moment-of-symmetry scales of a period and a generator, after `Mos` of src/pergen.rs of the original.
//
// Holds the pattern with its child and parent, sizes, sharpness, cycles, `coprime` and keys (document 01, "Step patterns"). A caller holds a
// `Mos`; `pattern` holds one that question 7 was asked of, which the entry points answer from; `parts` and `coprime` are what it is made of.
// `mos_walks` goes on to further children and parents, `mos_listings` lists them, `mos_layers` has a pattern's layers.
// Every entry point answers any four numbers; what is no pattern is refused (7).
// specs/: Patterns, Walks and Coprime define, Answers says what each call answers, here and in `mos_walks` and `mos_listings`, Theorems,
// Scale and IntervalClasses state what holds of every pattern and every walk. Nothing is assumed.
#![tactic(auto)]

pub mod coprime;
pub mod parts;
pub mod pattern;

ghost use Rattle.std.specs.Prelude.{◌≡◌};
ghost use Rattle.answer.specs.Refusals.{outcome_of};
ghost use Rattle.mos.specs.Patterns.{
  collapsed,
  primaries,
  secondaries,
  primary,
  secondary,
  count_of,
  size_of,
  child_of,
  parent_of,
  dual_of,
  mirror_of,
  sharpness_of,
  cycles_of,
  reduced_size_of,
  key_at,
};
ghost use Rattle.mos.specs.Answers.{of_pattern, new_outcome, genesis_outcome, coprime_outcome};

use crate::pattern::Pattern;
use answer::Refusal;

// A step pattern: so many primary and secondary steps, and how large each is.
#[derive(Clone, Copy)]
pub struct Mos {
    pub num_primary_steps: u16,
    pub num_secondary_steps: u16,
    pub primary_step: u16,
    pub secondary_step: u16,
}

impl Mos {
    // A pattern of the caller's own numbers (7).
    pub fn new(
        num_primary_steps: u16,
        num_secondary_steps: u16,
        primary_step: u16,
        secondary_step: u16,
    ) -> Result<Mos, Refusal>
        ensures { outcome_of result ≡ new_outcome num_primary_steps num_secondary_steps primary_step secondary_step }
    {
        let pattern = Pattern::of(Mos {
            num_primary_steps,
            num_secondary_steps,
            primary_step,
            secondary_step,
        })?;
        Ok(pattern.mos)
    }

    // The pattern that a generator starts from: one step of its size, and one for the rest of the period (2).
    pub fn new_genesis(period: u16, generator: u16) -> Result<Mos, Refusal>
        ensures { outcome_of result ≡ genesis_outcome period generator }
    {
        let pattern = Pattern::genesis(period, generator)?;
        Ok(pattern.mos)
    }

    // The pattern whose small steps have vanished. It always is a pattern.
    pub fn new_collapsed(num_large_steps: u16, num_small_steps: u16) -> Mos
        ensures { result ≡ collapsed num_large_steps num_small_steps }
    {
        Mos {
            num_primary_steps: num_large_steps,
            num_secondary_steps: num_small_steps,
            primary_step: 1,
            secondary_step: 0,
        }
    }

    // The next finer pattern of the same generator, or none (7).
    pub fn child(self) -> Result<Option<Mos>, Refusal>
        ensures { outcome_of result ≡ of_pattern self (child_of self) }
    {
        let pattern = Pattern::of(self)?;
        Ok(pattern.child().map(|child| child.mos))
    }

    // The next coarser pattern of the same generator, or none (7).
    pub fn parent(self) -> Result<Option<Mos>, Refusal>
        ensures { outcome_of result ≡ of_pattern self (parent_of self) }
    {
        let pattern = Pattern::of(self)?;
        Ok(pattern.parent().map(|parent| parent.mos))
    }

    // Counts and steps change places (7).
    pub fn dual(self) -> Result<Mos, Refusal>
        ensures { outcome_of result ≡ of_pattern self (dual_of self) }
    {
        let pattern = Pattern::of(self)?;
        Ok(pattern.dual().mos)
    }

    // Primary and secondary change places (7).
    pub fn mirror(self) -> Result<Mos, Refusal>
        ensures { outcome_of result ≡ of_pattern self (mirror_of self) }
    {
        let Pattern { mos } = Pattern::of(self)?;
        Ok(Mos {
            num_primary_steps: mos.num_secondary_steps,
            num_secondary_steps: mos.num_primary_steps,
            primary_step: mos.secondary_step,
            secondary_step: mos.primary_step,
        })
    }

    // The period: all steps together (7).
    pub fn size(self) -> Result<u16, Refusal>
        ensures { outcome_of result ≡ of_pattern self (size_of self) }
    {
        let pattern = Pattern::of(self)?;
        Ok(pattern.size())
    }

    // How many steps there are (7).
    pub fn num_steps(self) -> Result<u32, Refusal>
        ensures { outcome_of result ≡ of_pattern self (count_of self) }
    {
        let pattern = Pattern::of(self)?;
        Ok(parts::count_of(pattern.mos))
    }

    // How many primary steps there are (7).
    pub fn num_primary_steps(self) -> Result<u16, Refusal>
        ensures { outcome_of result ≡ of_pattern self (primaries self) }
    {
        let pattern = Pattern::of(self)?;
        Ok(pattern.mos.num_primary_steps)
    }

    // How many secondary steps there are (7).
    pub fn num_secondary_steps(self) -> Result<u16, Refusal>
        ensures { outcome_of result ≡ of_pattern self (secondaries self) }
    {
        let pattern = Pattern::of(self)?;
        Ok(pattern.mos.num_secondary_steps)
    }

    // How large a primary step is (7).
    pub fn primary_step(self) -> Result<u16, Refusal>
        ensures { outcome_of result ≡ of_pattern self (primary self) }
    {
        let pattern = Pattern::of(self)?;
        Ok(pattern.mos.primary_step)
    }

    // How large a secondary step is (7).
    pub fn secondary_step(self) -> Result<u16, Refusal>
        ensures { outcome_of result ≡ of_pattern self (secondary self) }
    {
        let pattern = Pattern::of(self)?;
        Ok(pattern.mos.secondary_step)
    }

    // By how much a sharp raises a note; below 0 it lowers it (7).
    pub fn sharpness(self) -> Result<i32, Refusal>
        ensures { outcome_of result ≡ of_pattern self (sharpness_of self) }
    {
        let Pattern { mos } = Pattern::of(self)?;
        Ok(i32::from(mos.primary_step) - i32::from(mos.secondary_step))
    }

    // How many chains of notes there are side by side: the steps' greatest common divisor (7).
    pub fn num_cycles(self) -> Result<u16, Refusal>
        ensures { outcome_of result ≡ of_pattern self (cycles_of self) }
    {
        let pattern = Pattern::of(self)?;
        Ok(pattern.num_cycles())
    }

    // The period of one of these chains (7).
    pub fn reduced_size(self) -> Result<u16, Refusal>
        ensures { outcome_of result ≡ of_pattern self (reduced_size_of self) }
    {
        let pattern = Pattern::of(self)?;
        Ok(pattern.size() / pattern.num_cycles())
    }

    // The pattern with a secondary step close by that reaches every key (7, 8).
    pub fn coprime(self) -> Result<Mos, Refusal>
        ensures { outcome_of result ≡ coprime_outcome self }
    {
        let Pattern { mos } = Pattern::of(self)?;
        let coprime = Mos {
            num_primary_steps: mos.num_primary_steps,
            num_secondary_steps: mos.num_secondary_steps,
            primary_step: mos.primary_step,
            secondary_step: coprime::coprime_step(mos.primary_step, mos.secondary_step),
        };
        if parts::is_pattern(coprime) {
            Ok(coprime)
        } else {
            Err(Refusal::CoprimeSize)
        }
    }

    // The key at a place of the keyboard: p primary and s secondary steps from the origin, backward where below 0 (7).
    pub fn get_key(self, p: i16, s: i16) -> Result<i64, Refusal>
        ensures { outcome_of result ≡ of_pattern self (key_at self p s) }
    {
        let Pattern { mos } = Pattern::of(self)?;
        Ok(
            i64::from(p) * i64::from(mos.primary_step)
                + i64::from(s) * i64::from(mos.secondary_step),
        )
    }
}
