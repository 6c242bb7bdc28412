// Step patterns from a fractional generator, for classes that work without step counts: `Mos::<f64>` of src/pergen.rs of the original
// (document 02, W-213).
//
// Holds the pattern, its genesis, its child, and the walk of children from a generator: one pattern of it, how many there are, and all of
// them. A generator that is infinite or not a number is refused (22), and so is a slice that is too short (10); every other input is
// answered. Steps are IEEE 754's doubles, and each sum and subtraction rounds once. A walk ends where a step is 0, where both are equal, or
// where a count would pass 65,535.
// specs/: Fractional and Walk define, Answers says what each call answers, Theorems states what holds of every walk. Nothing is assumed.
#![tactic(auto)]

mod walks;

ghost use Rattle.std.specs.Prelude.{◌≡◌, true, length};
ghost use Rattle.answer.specs.Refusals.{outcome_of};
ghost use Rattle.std.specs.Float.{binary64};
ghost use Rattle.std.specs.Float.Ieee.{rem};
ghost use Rattle.answer.specs.Lent.{Filled};
ghost use Rattle.mos_fractional.specs.Fractional.{one, is_finite, child_of};
ghost use Rattle.mos_fractional.specs.Answers.{genesis_outcome, nth_outcome, length_outcome, listing_outcome};

use answer::Refusal;

// A pattern: how many primary and secondary steps it has, and how large they are, as parts of the octave.
#[repr(C)]
#[derive(Clone, Copy)]
pub struct FractionalMos {
    pub num_primary_steps: u16,
    pub num_secondary_steps: u16,
    pub primary_step: f64,
    pub secondary_step: f64,
}

impl FractionalMos {
    // The pattern that a generator's walk begins with: one primary step, the generator within the octave, and one secondary, the rest (22).
    pub fn new_genesis(generator: f64) -> Result<FractionalMos, Refusal>
        ensures { outcome_of result ≡ genesis_outcome generator }
    {
        let infinity = 1.0 / 0.0;
        if generator < infinity {
            if -infinity < generator {
                let rest = remainder_by_one(generator);
                if rest < 0.0 {
                    let raised = rest + 1.0;
                    return Ok(FractionalMos {
                        num_primary_steps: 1,
                        num_secondary_steps: 1,
                        primary_step: raised,
                        secondary_step: 1.0 - raised,
                    });
                }
                return Ok(FractionalMos {
                    num_primary_steps: 1,
                    num_secondary_steps: 1,
                    primary_step: rest,
                    secondary_step: 1.0 - rest,
                });
            }
        }
        Err(Refusal::FractionalGenerator)
    }

    // The next pattern: as many steps more as the longer step has, which are split off it. Any record is answered; infinite steps, and
    // steps that are not numbers, by IEEE 754's comparisons.
    pub fn child(self) -> Option<FractionalMos>
        ensures { result ≡ child_of self }
    {
        let a = self.num_primary_steps;
        let b = self.num_secondary_steps;
        let p = self.primary_step;
        let s = self.secondary_step;
        if p == 0.0 {
            return None;
        }
        if s == 0.0 {
            return None;
        }
        if 65535 - a < b {
            return None;
        }
        if s < p {
            return Some(FractionalMos {
                num_primary_steps: a,
                num_secondary_steps: a + b,
                primary_step: p - s,
                secondary_step: s,
            });
        }
        if p < s {
            return Some(FractionalMos {
                num_primary_steps: a + b,
                num_secondary_steps: b,
                primary_step: p,
                secondary_step: s - p,
            });
        }
        None
    }
}

// A finite number's remainder by 1, with its sign: what stands behind the point. The subtraction loses nothing. It stands for `x % 1.0`,
// which is a call of the C library's `fmod`.
fn remainder_by_one(x: f64) -> f64
    requires { is_finite x ≡ true }
    ensures { result ≡ rem binary64 x one }
{
    (x - x.trunc()).copysign(x)
}

// The k-th pattern of a generator's walk, the genesis for 0 (22).
pub fn nth_child(generator: f64, k: u32) -> Result<Option<FractionalMos>, Refusal>
    ensures { outcome_of result ≡ nth_outcome generator k }
{
    let first = FractionalMos::new_genesis(generator)?;
    Ok(walks::nth_from(first, k))
}

// How many patterns a generator's walk has, and `children` writes: 65,535 at most (22).
pub fn children_len(generator: f64) -> Result<usize, Refusal>
    ensures { outcome_of result ≡ length_outcome generator }
{
    let first = FractionalMos::new_genesis(generator)?;
    Ok(walks::count_from(first))
}

// All patterns of a generator's walk, the genesis first (22, 10).
pub fn children(generator: f64, out: &mut [FractionalMos]) -> Result<usize, Refusal>
    ensures { Filled (listing_outcome generator (length out.old)) (outcome_of result) out.old out.new }
{
    let mut turn = walks::first(generator, out.len());
    let mut i: usize = 0;
    while let Some(pattern) = turn {
        out[i] = pattern;
        turn = pattern.child();
        i += 1;
    }
    walks::answer(generator, i)
}
