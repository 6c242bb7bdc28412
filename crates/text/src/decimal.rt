// Numbers of 16 bits in decimal.
//
// Parts, and no entry points: `put_number` and `put_number_then` ask that there is room. An entry point first answers question 10, and then calls
// them.
ghost use Rattle.std.specs.Prelude.{◌≡◌, ◌+◌, ◌/◌, ◌≤◌, ◌<◌, ltb, [], ◌∷◌, ◌++◌};
ghost use Rattle.answer.specs.Choice.{pick};
ghost use Rattle.text.specs.Writing.{Room, Wrote};
ghost use Rattle.text.specs.Decimal.{digits, DigitsLength, digit_at, number_at};

use crate::writer::put_byte;

// How many digits a number has: 1 to 5.
pub fn number_len(n: u16) -> usize
    ensures { DigitsLength n result }
{
    match n {
        0..=9 => 1,
        10..=99 => 2,
        100..=999 => 3,
        1000..=9999 => 4,
        _ => 5,
    }
}

// The first digit of a number below 100, and how far behind it the last one stands.
fn first_digit(n: u16) -> u16
    ensures { result ≡ pick (ltb n 10) n (n / 10) }
{
    if n < 10 { n } else { n / 10 }
}

fn last_place(n: u16) -> usize
    ensures { result ≡ pick (ltb n 10) 0 1 }
{
    if n < 10 { 0 } else { 1 }
}

// The digits of a number, one function for each length: none calls itself, so that a number is written in one piece of code, which was
// measured to be faster than one function for all lengths. Whether a lamp code has one digit or two is as good as chance, so both go one
// way: a single digit is stored twice at its place.
fn put_short(out: &mut [u8], at: usize, n: u16) -> usize
    requires { (n < 100) × Room out.old at (digits n) }
    ensures { Wrote out.old at (digits n) out.new result }
{
    let last = at + last_place(n);
    put_byte(out, at, 48 + first_digit(n) as u8);
    put_byte(out, last, 48 + (n % 10) as u8)
}

fn put_three(out: &mut [u8], at: usize, n: u16) -> usize
    requires { (100 ≤ n) × (n < 1000) × Room out.old at (digits n) }
    ensures { Wrote out.old at (digits n) out.new result }
{
    let next = put_short(out, at, n / 10);
    put_byte(out, next, 48 + (n % 10) as u8)
}

fn put_four(out: &mut [u8], at: usize, n: u16) -> usize
    requires { (1000 ≤ n) × (n < 10000) × Room out.old at (digits n) }
    ensures { Wrote out.old at (digits n) out.new result }
{
    let next = put_three(out, at, n / 10);
    put_byte(out, next, 48 + (n % 10) as u8)
}

fn put_five(out: &mut [u8], at: usize, n: u16) -> usize
    requires { (10000 ≤ n) × Room out.old at (digits n) }
    ensures { Wrote out.old at (digits n) out.new result }
{
    let next = put_four(out, at, n / 10);
    put_byte(out, next, 48 + (n % 10) as u8)
}

// The digits of a number at a place, the highest first, without leading zeros; the place after them.
pub fn put_number(out: &mut [u8], at: usize, n: u16) -> usize
    requires { Room out.old at (digits n) }
    ensures { Wrote out.old at (digits n) out.new result }
{
    match n {
        0..=99 => put_short(out, at, n),
        100..=999 => put_three(out, at, n),
        1000..=9999 => put_four(out, at, n),
        _ => put_five(out, at, n),
    }
}

// The same with one byte right behind the digits.
pub fn put_number_then(out: &mut [u8], at: usize, n: u16, behind: u8) -> usize
    requires { Room out.old at (digits n ++ (behind ∷ [])) }
    ensures { Wrote out.old at (digits n ++ (behind ∷ [])) out.new result }
{
    let next = put_number(out, at, n);
    put_byte(out, next, behind)
}

// The digit at a place, where one stands there.
fn digit_at(text: &[u8], at: usize) -> Option<u32>
    ensures { result ≡ digit_at text.now at }
{
    let byte = *text.get(at)?;
    match byte {
        b'0'..=b'9' => Some(u32::from(byte - b'0')),
        _ => None,
    }
}

// The number that begins at a place, and the place after its digits: 1 to 5 digits, leading zeros among them, which say at most 65,535.
pub fn read_number(text: &[u8], at: usize) -> Option<(u16, usize)>
    ensures { result ≡ number_at text.now at }
{
    let mut value: u32 = 0;
    let mut next = at;
    while let Some(digit) = digit_at(text, next) {
        value = 10 * value + digit;
        next += 1;
        if 65535 < value {
            return None;
        }
        if 5 < next - at {
            return None;
        }
    }
    if next == at {
        return None;
    }
    Some((value as u16, next))
}
