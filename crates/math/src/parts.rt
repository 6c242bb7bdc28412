// The remainder that is never negative, by a divisor that is above 0: parts, and no entry points. Callers have asked question 2.
ghost use Rattle.std.specs.Prelude.{◌≡◌, ◌<◌};
ghost use Rattle.math.specs.Division.{remainder};

// Most numbers are below the divisor already, and these are not divided.
pub fn rem_u32(numer: i32, denom: u32) -> u32
    requires { 0 < denom }
    ensures { result ≡ remainder numer denom }
{
    if numer < 0 {
        let divided = crate::divide(numer, denom);
        return divided.remainder;
    }
    let number = numer as u32;
    if number < denom {
        return number;
    }
    number % denom
}

// The same by a divisor of 16 bits, which the remainder fits too.
pub fn rem_u16(numer: i32, denom: u16) -> u16
    requires { 0 < denom }
    ensures { result ≡ remainder numer denom }
{
    rem_u32(numer, denom as u32) as u16
}
