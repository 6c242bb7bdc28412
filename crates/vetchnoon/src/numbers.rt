// Numbers, pergens and spellings in a free format (document 01, "Pergen and spelling").
ghost use Rattle.std.specs.Prelude.{◌≡◌, ◌+◌, ◌*◌, pos};
ghost use Rattle.math.specs.Answers.{rem_outcome};
ghost use Rattle.math.specs.Gcd.{gcd_or_one};
ghost use Rattle.pergen.specs.Answers.{get_generation, get_accidentals};
ghost use Rattle.vetchnoon_codes.specs.Codes.{code_of, Fills};
ghost use Rattle.vetchnoon_codes.specs.Numbers.{as_numbers, accidentals_numbers};
ghost use Rattle.vetchnoon.specs.Written.{pergen, format, pergen_output, generation_numbers};

use answer::Refusal;
use pergen::{AccidentalsFormat, PerGen, euclid};

// The version, 7.8.0, in one number, as VN_VERSION of the header is.
#[unsafe(no_mangle)]
pub extern "C" fn vn_version() -> i64
    ensures { result ≡ pos (7 * 65536 + 8 * 256 + 0) }
{
    460800
}

// The greatest common divisor; 0 and 0 give 1.
#[unsafe(no_mangle)]
pub extern "C" fn vn_gcd(x: u16, y: u16) -> i64
    ensures { result ≡ pos (gcd_or_one x y) }
{
    math::gcd_u16(x, y) as i64
}

// The remainder, never negative (2).
#[unsafe(no_mangle)]
pub extern "C" fn vn_rem(numer: i32, denom: u16) -> i64
    ensures { result ≡ code_of (rem_outcome numer denom) }
{
    vetchnoon_codes::number(math::i32_rem_u16(numer, denom))
}

// Cycles, reduced period and inverse (2, 10).
#[unsafe(no_mangle)]
#[tactic(auto, using(crate::proofs::Outputs::pergen_refused, crate::proofs::Outputs::pergen_given))]
pub extern "C" fn vn_pergen(period: u16, generator: u16, out: &mut [u16]) -> i64
    ensures { Fills (pergen_output period generator) result out.old out.new }
{
    if period == 0 {
        return vetchnoon_codes::refused(Refusal::Period);
    }
    let solved = euclid::solve(period, generator);
    let numbers = [
        solved.num_cycles,
        solved.reduced_period,
        solved.generator_inverse,
    ];
    vetchnoon_codes::put(out, &numbers)
}

// A key's degree, whether it has a cycle, and the cycle (2, 10). No `fill`: an impl of `Coded` for another crate's `Generation` is refused here.
#[unsafe(no_mangle)]
pub extern "C" fn vn_generation(period: u16, generator: u16, key: i32, out: &mut [u16]) -> i64
    ensures { Fills (as_numbers generation_numbers (get_generation (pergen period generator) key)) result out.old out.new }
{
    let pergen = PerGen { period, generator };
    match pergen.get_generation(key) {
        Err(question) => vetchnoon_codes::refused(question),
        Ok(generation) => {
            let cycle = generation.cycle;
            let numbers = [
                generation.degree,
                cycle.is_some() as u16,
                cycle.unwrap_or(0),
            ];
            vetchnoon_codes::put(out, &numbers)
        }
    }
}

// A key's sharp index and count, flat index and count (2, 5, 6, 10).
#[unsafe(no_mangle)]
pub extern "C" fn vn_accidentals(
    period: u16,
    generator: u16,
    symbols: u16,
    origin: u16,
    key: i32,
    out: &mut [u16],
) -> i64
    ensures { Fills (as_numbers accidentals_numbers (get_accidentals (pergen period generator) (format symbols origin) key)) result out.old out.new }
{
    let pergen = PerGen { period, generator };
    let format = AccidentalsFormat {
        num_symbols: symbols,
        genchain_origin: origin,
    };
    vetchnoon_codes::fill(out, pergen.get_accidentals(format, key))
}
