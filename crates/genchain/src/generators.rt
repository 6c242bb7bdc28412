// The generator of each chain: parts, and no entry points. Callers have asked questions 1 and 2; these ask 3.
ghost use Rattle.std.specs.Prelude.{◌≡◌, ◌<◌};
ghost use Rattle.answer.specs.Refusals.{outcome_of};
ghost use Rattle.genchain.specs.Chains.{minus, divided_by, twice, fifth, third_of_fourth, quarter_of_fifth, octave_less_sixth};

use answer::Refusal;

// A subtraction that is not negative.
fn minus(from: u16, less: u16) -> Result<u16, Refusal>
    ensures { outcome_of result ≡ minus from less }
{
    from.checked_sub(less).ok_or(Refusal::Generator)
}

// A division that comes out whole.
fn divided_by(divisor: u16, number: u16) -> Result<u16, Refusal>
    requires { 0 < divisor }
    ensures { outcome_of result ≡ divided_by divisor number }
{
    if number % divisor != 0 {
        return Err(Refusal::Generator);
    }
    Ok(number / divisor)
}

// A doubling within 16 bits.
fn twice(number: u16) -> Result<u16, Refusal>
    ensures { outcome_of result ≡ twice number }
{
    number.checked_mul(2).ok_or(Refusal::Generator)
}

// The fifth of the chains of fifths: tritave less octave.
pub(crate) fn fifth(octave: u16, tritave: u16) -> Result<u16, Refusal>
    ensures { outcome_of result ≡ fifth octave tritave }
{
    minus(tritave, octave)
}

// Porcupine's: two octaves less a tritave are a fourth, and it is a third of it.
pub(crate) fn third_of_fourth(octave: u16, tritave: u16) -> Result<u16, Refusal>
    ensures { outcome_of result ≡ third_of_fourth octave tritave }
{
    let octaves = twice(octave)?;
    let fourth = minus(octaves, tritave)?;
    divided_by(3, fourth)
}

// Tetracot's: a quarter of the fifth.
pub(crate) fn quarter_of_fifth(octave: u16, tritave: u16) -> Result<u16, Refusal>
    ensures { outcome_of result ≡ quarter_of_fifth octave tritave }
{
    let fifth = minus(tritave, octave)?;
    divided_by(4, fifth)
}

// Hanson's: an octave less a sixth of the tritave.
pub(crate) fn octave_less_sixth(octave: u16, tritave: u16) -> Result<u16, Refusal>
    ensures { outcome_of result ≡ octave_less_sixth octave tritave }
{
    let sixth = divided_by(6, tritave)?;
    minus(octave, sixth)
}
