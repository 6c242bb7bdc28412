// Questions on whole numbers.
//
//     gcd X Y          the greatest common divisor
//     simplify X Y     the fraction in lowest terms
//     odd X            the number without factors of two
//     divide16 N D     quotient and remainder, D of 16 bits
//     divide32 N D     quotient and remainder, D of 32 bits
use crate::print;
use crate::questions::Ask;
use crate::words::Words;
use math::{DividedBy, Fraction};
use std::fmt::Display;
use std::io::Stdout;

#[derive(Clone, Copy)]
pub(crate) enum Question {
    Gcd(u16, u16),
    Simplify(u16, u16),
    Odd(u16),
    Divide16(i32, u16),
    Divide32(i32, u32),
}

impl Ask for Question {
    fn asked(name: &[u8], words: &mut Words) -> Option<Question> {
        Some(match name {
            b"gcd" => Question::Gcd(words.read()?, words.read()?),
            b"simplify" => Question::Simplify(words.read()?, words.read()?),
            b"odd" => Question::Odd(words.read()?),
            b"divide16" => Question::Divide16(words.read()?, words.read()?),
            b"divide32" => Question::Divide32(words.read()?, words.read()?),
            _ => return None,
        })
    }

    fn answer(self, stdout: Stdout, _room: u16) {
        match self {
            Question::Gcd(x, y) => print::number(stdout, math::gcd_u16(x, y)),
            Question::Simplify(x, y) => put_fraction(stdout, math::simplify_u16(x, y)),
            Question::Odd(x) => print::number(stdout, math::odd_factors_u16(x)),
            Question::Divide16(n, d) => {
                print::answer(stdout, math::i32_dr_u16(n, d), put_divided)
            }
            Question::Divide32(n, d) => {
                print::answer(stdout, math::i32_dr_u32(n, d), put_divided)
            }
        }
    }
}

fn put_fraction(stdout: Stdout, fraction: Fraction) {
    print::number(stdout, fraction.numer);
    print::next(stdout, fraction.denom);
}

fn put_divided<R: Display + Drop>(stdout: Stdout, divided: DividedBy<R>) {
    print::number(stdout, divided.quotient);
    print::next(stdout, divided.remainder);
}
