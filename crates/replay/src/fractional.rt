// Questions on patterns from a fractional generator. A DOUBLE is two numbers of 32 bits,
// the upper and the lower half of its bits; where these are of no number, it is no number.
//
//     fractional_child COUNT COUNT DOUBLE DOUBLE     the child of a pattern, primary before secondary, or `none`
//     fractional_genesis DOUBLE                      the pattern that a generator's walk begins with
//     fractional_nth DOUBLE PLACE                    the pattern at a place of the walk, from 0, or `none`
//     fractional_len DOUBLE                          how many patterns the walk has
//     fractional_children DOUBLE                     how many were written, or the refusal; then the eight lent, a comma before each
//
// A pattern is printed as it is read. Before the call a lent one has the counts 9 and 8 and the steps 7 and 6, so that it is seen where
// one is left untouched.
use crate::print;
use crate::questions::Ask;
use crate::words::Words;
use mos_fractional::FractionalMos;
use std::io::Stdout;

#[derive(Clone, Copy)]
pub(crate) enum Question {
    Child(FractionalMos),
    Genesis(f64),
    Nth(f64, u32),
    Len(f64),
    Children(f64),
}

impl Ask for Question {
    fn asked(name: &[u8], words: &mut Words) -> Option<Question> {
        Some(match name {
            b"fractional_child" => Question::Child(FractionalMos {
                num_primary_steps: words.read()?,
                num_secondary_steps: words.read()?,
                primary_step: words.read()?,
                secondary_step: words.read()?,
            }),
            b"fractional_genesis" => Question::Genesis(words.read()?),
            b"fractional_nth" => Question::Nth(words.read()?, words.read()?),
            b"fractional_len" => Question::Len(words.read()?),
            b"fractional_children" => Question::Children(words.read()?),
            _ => return None,
        })
    }

    fn answer(self, stdout: Stdout, _room: u16) {
        match self {
            Question::Child(pattern) => put_walked(stdout, pattern.child()),
            Question::Genesis(generator) => {
                print::answer(stdout, FractionalMos::new_genesis(generator), put_pattern)
            }
            Question::Nth(generator, k) => {
                print::answer(stdout, mos_fractional::nth_child(generator, k), put_walked)
            }
            Question::Len(generator) => {
                print::answer(
                    stdout,
                    mos_fractional::children_len(generator),
                    print::number,
                )
            }
            Question::Children(generator) => put_children(stdout, generator),
        }
    }
}

fn put_walked(stdout: Stdout, walked: Option<FractionalMos>) {
    print::found(stdout, walked, put_pattern);
}

fn put_children(stdout: Stdout, generator: f64) {
    let lent = FractionalMos {
        num_primary_steps: 9,
        num_secondary_steps: 8,
        primary_step: 7.0,
        secondary_step: 6.0,
    };
    let mut patterns = [lent; 8];
    let answer = mos_fractional::children(generator, &mut patterns);
    print::answer(stdout, answer, print::number);
    for pattern in patterns {
        print::text(stdout, b", ");
        put_pattern(stdout, pattern);
    }
}

fn put_pattern(stdout: Stdout, m: FractionalMos) {
    print::number(stdout, m.num_primary_steps);
    print::next(stdout, m.num_secondary_steps);
    put_double(stdout, m.primary_step);
    put_double(stdout, m.secondary_step);
}

fn put_double(stdout: Stdout, x: f64) {
    if x == x {
        let bits = f64::to_bits(x);
        print::next(stdout, bits / 4294967296);
        print::next(stdout, bits % 4294967296);
        return;
    }
    print::text(stdout, b" nan");
}
