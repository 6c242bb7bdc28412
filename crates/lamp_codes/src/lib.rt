// Lamp codes of one byte (document 01, "Lamps and book") and of two (document 02, W-207).
//
// Holds the way of a stored strip from one-byte codes to those that `layout_lamps` gives today, and back to the same bytes.
// specs/: Codes defines, Answers says what each call answers, Theorems and Examples state what holds.
// Every entry point answers every input; a refusal changes no element that was lent. Nothing is assumed.
#![tactic(auto)]

ghost use Rattle.std.specs.Prelude.{◌≡◌, Bool, length};
ghost use Rattle.answer.specs.Refusals.{outcome_of};
ghost use Rattle.answer.specs.Outcome.{and_then};
ghost use Rattle.answer.specs.Lent.{held_in, Filled};
ghost use Rattle.answer.specs.Tests.{all_of};
ghost use Rattle.lamp_codes.specs.Codes.{is_old, wide_code, is_converted, old_code};
ghost use Rattle.lamp_codes.specs.Answers.{converting, get_widened, get_narrowed};

use answer::Refusal;

// A code of one width. Some of them have a partner of the other width.
trait Code: Copy {
    type Partner: Copy;

    ghost has_partner: { Self → Bool };

    ghost partner: { Self → Self.Partner };

    fn has_partner(self) -> bool
        ensures { result ≡ has_partner self };

    // The partner of a code that has one; of another any code.
    fn partner(self) -> Self::Partner
        ensures { result ≡ partner self };
}

// ---- from one byte to two

impl Code for u8 {
    type Partner = u16;

    ghost has_partner = { is_old };

    ghost partner = { wide_code };

    // Below 202, or the last byte.
    fn has_partner(self) -> bool {
        self < 202 || self == 255
    }

    fn partner(self) -> u16 {
        let number = self as u16;
        match number {
            0..=1 => number,
            2..=101 => 2 + 2 * (number - 2),
            102..=201 => 3 + 2 * (number - 102),
            _ => 65535,
        }
    }
}

// ---- and back

impl Code for u16 {
    type Partner = u8;

    ghost has_partner = { is_converted };

    ghost partner = { old_code };

    // Below 202, or the last number.
    fn has_partner(self) -> bool {
        self < 202 || self == 65535
    }

    fn partner(self) -> u8 {
        match self {
            0..=1 => self as u8,
            2..=201 if self % 2 == 0 => (2 + (self - 2) / 2) as u8,
            2..=201 => (102 + (self - 3) / 2) as u8,
            _ => 255,
        }
    }
}

// ---- either way

// Has each of these a partner?
fn all_have_partners<C: Code>(strip: &[C]) -> bool
    ensures { result ≡ all_of C.has_partner strip.now }
{
    // A loop that goes on behind the test, and no `all`, whose loop goes on before it and is slower where its branch lies across two lines.
    for code in strip {
        if !code.has_partner() {
            return false;
        }
    }
    true
}

// The partners of a strip, at the front of a slice that holds them (17, 10).
fn convert<C: Code>(strip: &[C], out: &mut [C::Partner]) -> Result<usize, Refusal>
    ensures { Filled
        (and_then (converting C.has_partner C.partner strip.now) (held_in (length out.old)))
        (outcome_of result) out.old out.new }
{
    if !all_have_partners(strip) {
        return Err(Refusal::Code);
    }
    if out.len() < strip.len() {
        return Err(Refusal::Room);
    }
    for (place, code) in strip.iter().enumerate() {
        out[place] = code.partner();
    }
    Ok(strip.len())
}

// A stored strip of one-byte codes, in codes of two bytes (17, 10).
pub fn widen_strip(strip: &[u8], out: &mut [u16]) -> Result<usize, Refusal>
    ensures { Filled (and_then (get_widened strip.now) (held_in (length out.old))) (outcome_of result) out.old out.new }
{
    convert(strip, out)
}

// A converted strip, in the one-byte codes that it was stored with (17, 10).
pub fn narrow_strip(strip: &[u16], out: &mut [u8]) -> Result<usize, Refusal>
    ensures { Filled (and_then (get_narrowed strip.now) (held_in (length out.old))) (outcome_of result) out.old out.new }
{
    convert(strip, out)
}
