// Whole-number helpers, after src/math.rs of the original.
//
// Holds the greatest common divisor, division with a remainder that is never negative (at two widths of the
// denominator), fractions in lowest terms, and a number without its factors of two.
// specs/: Gcd, Division and OddFactors define them and state their theorems; Answers says what each call answers.
// Every entry point answers every input; a denominator of 0 is refused as a period below 1 is (2). `parts` holds remainders for
// callers that know theirs to be above 0. Nothing is assumed.
#![tactic(auto)]

pub mod parts;

ghost use Rattle.std.specs.Prelude.{◌≡◌, ◌<◌, MatchResult};
ghost use Rattle.answer.specs.declared.Refusal.TheVariants.{Period};
ghost use Rattle.answer.specs.Refusals.{outcome_of};
ghost use Rattle.math.specs.Gcd.{GcdOf, lowest_terms};
ghost use Rattle.math.specs.Division.{Divided};
ghost use Rattle.math.specs.OddFactors.{odd_factors};
ghost use Rattle.math.specs.Answers.{divided_outcome, divide_outcome, div_outcome, rem_outcome};

use answer::Refusal;

// The greatest common divisor; 0 and 0 give 1.
pub fn gcd_u16(x: u16, y: u16) -> u16
    ensures { GcdOf x y result }
{
    let mut a = x;
    let mut b = y;
    while b != 0 {
        let rest = a % b;
        a = b;
        b = rest;
    }
    if a == 0 { 1 } else { a }
}

// A fraction.
#[derive(Clone, Copy)]
pub struct Fraction {
    pub numer: u16,
    pub denom: u16,
}

// The fraction in lowest terms; 0 over 0 stays.
pub fn simplify_u16(numer: u16, denom: u16) -> Fraction
    ensures { result ≡ lowest_terms numer denom }
{
    let gcd = gcd_u16(numer, denom);
    Fraction {
        numer: numer / gcd,
        denom: denom / gcd,
    }
}

// The number without its factors of two; 0 stays.
pub fn odd_factors_u16(number: u16) -> u16
    ensures { result ≡ odd_factors number }
{
    if number == 0 {
        return 0;
    }
    let mut odd = number;
    while odd % 2 == 0 {
        odd /= 2;
    }
    odd
}

// Quotient and remainder of a division; the remainder has the denominator's type.
#[derive(Clone, Copy)]
pub struct DividedBy<R> {
    pub quotient: i32,
    pub remainder: R,
}

// The division behind all of them. A negative number is -1 - mirror: its quotient and remainder are mirrored too.
pub(crate) fn divide(numer: i32, denom: u32) -> DividedBy<u32>
    requires { 0 < denom }
    ensures { Divided numer denom result.quotient result.remainder }
{
    if numer < 0 {
        let mirror = (-1 - numer) as u32;
        let turns = (mirror / denom) as i32;
        return DividedBy {
            quotient: -1 - turns,
            remainder: denom - 1 - mirror % denom,
        };
    }
    let number = numer as u32;
    DividedBy {
        quotient: (number / denom) as i32,
        remainder: number % denom,
    }
}

// Question 2, of a denominator.
fn asked(denom: u32) -> Result<(), Refusal>
    ensures { MatchResult result (λ _. 0 < denom) (λ q. (q ≡ Period) × (denom ≡ 0)) }
{
    if denom == 0 {
        return Err(Refusal::Period);
    }
    Ok(())
}

// Quotient and remainder, the remainder never negative (2).
//
// The calls by 16 bits only narrow what those by 32 bits find: with both widths' names, a trait over denominators would be longer, not plainer.
pub fn i32_dr_u32(numer: i32, denom: u32) -> Result<DividedBy<u32>, Refusal>
    ensures { divided_outcome result ≡ divide_outcome numer denom }
{
    asked(denom)?;
    Ok(divide(numer, denom))
}

// Quotient and remainder, the remainder never negative (2).
pub fn i32_dr_u16(numer: i32, denom: u16) -> Result<DividedBy<u16>, Refusal>
    ensures { divided_outcome result ≡ divide_outcome numer denom }
{
    asked(denom as u32)?;
    let divided = divide(numer, denom as u32);
    Ok(DividedBy {
        quotient: divided.quotient,
        remainder: divided.remainder as u16,
    })
}

// The quotient that goes with the remainder that is never negative (2).
pub fn i32_div_u32(numer: i32, denom: u32) -> Result<i32, Refusal>
    ensures { outcome_of result ≡ div_outcome numer denom }
{
    asked(denom)?;
    let divided = divide(numer, denom);
    Ok(divided.quotient)
}

// The quotient that goes with the remainder that is never negative (2).
pub fn i32_div_u16(numer: i32, denom: u16) -> Result<i32, Refusal>
    ensures { outcome_of result ≡ div_outcome numer denom }
{
    i32_div_u32(numer, denom as u32)
}

// The remainder, never negative (2).
pub fn i32_rem_u32(numer: i32, denom: u32) -> Result<u32, Refusal>
    ensures { outcome_of result ≡ rem_outcome numer denom }
{
    asked(denom)?;
    Ok(parts::rem_u32(numer, denom))
}

// The remainder, never negative (2).
pub fn i32_rem_u16(numer: i32, denom: u16) -> Result<u16, Refusal>
    ensures { outcome_of result ≡ rem_outcome numer denom }
{
    asked(denom as u32)?;
    Ok(parts::rem_u16(numer, denom))
}
