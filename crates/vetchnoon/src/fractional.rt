// Step patterns from a fractional generator (document 02, W-213): a pattern is a struct of its counts and its steps.
ghost use Rattle.std.specs.Prelude.{◌≡◌};
ghost use Rattle.answer.specs.Outcome.{given};
ghost use Rattle.mos_fractional.specs.Fractional.{child_of};
ghost use Rattle.mos_fractional.specs.Walk.{children_from};
ghost use Rattle.mos_fractional.specs.Answers.{of_generator, length_outcome};
ghost use Rattle.vetchnoon_codes.specs.Codes.{code_of, Fills};
ghost use Rattle.vetchnoon.specs.FractionalPatterns.{child_patterns};

use mos_fractional::FractionalMos;

// The child, or nothing (10).
#[unsafe(no_mangle)]
pub extern "C" fn vn_fractional_child(pattern: FractionalMos, out: &mut [FractionalMos]) -> i64
    ensures { Fills (given (child_patterns (child_of pattern))) result out.old out.new }
{
    match pattern.child() {
        None => 0,
        Some(child) => vetchnoon_codes::put_all(out, &[child]),
    }
}

// How many patterns a generator's walk has (22).
#[unsafe(no_mangle)]
#[tactic(auto, using(crate::proofs::FractionalCalls::small_length))]
pub extern "C" fn vn_fractional_children_len(generator: f64) -> i64
    ensures { result ≡ code_of (length_outcome generator) }
{
    vetchnoon_codes::count(mos_fractional::children_len(generator))
}

// All patterns of that walk, the genesis first (22, 10).
#[unsafe(no_mangle)]
#[tactic(auto, using(crate::proofs::FractionalCalls::patterns_in_room))]
pub extern "C" fn vn_fractional_children(generator: f64, out: &mut [FractionalMos]) -> i64
    ensures { Fills (of_generator generator (children_from generator)) result out.old out.new }
{
    vetchnoon_codes::count(mos_fractional::children(generator, out))
}
