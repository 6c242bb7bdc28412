// Questions on a free period and generator.
//
//     pergen PERIOD GENERATOR                             the two, cycles, reduced period, inverse
//     generation PERIOD GENERATOR KEY                     degree and cycle
//     accidentals PERIOD GENERATOR SYMBOLS ORIGIN KEY     sharp index and count, flat index and count, cycle
//
// An absent cycle is `-`.
use crate::print;
use crate::questions::Ask;
use crate::words::Words;
use pergen::{Accidentals, AccidentalsFormat, Generation, PerGen};
use std::io::Stdout;

#[derive(Clone, Copy)]
pub(crate) enum Question {
    Pergen(u16, u16),
    Generation(PerGen, i32),
    Accidentals(PerGen, AccidentalsFormat, i32),
}

impl Ask for Question {
    fn asked(name: &[u8], words: &mut Words) -> Option<Question> {
        Some(match name {
            b"pergen" => Question::Pergen(words.read()?, words.read()?),
            b"generation" => Question::Generation(pergen_of(words)?, words.read()?),
            b"accidentals" => Question::Accidentals(
                pergen_of(words)?,
                AccidentalsFormat {
                    num_symbols: words.read()?,
                    genchain_origin: words.read()?,
                },
                words.read()?,
            ),
            _ => return None,
        })
    }

    fn answer(self, stdout: Stdout, _room: u16) {
        match self {
            Question::Pergen(period, generator) => {
                print::answer(stdout, PerGen::new(period, generator), put_pergen)
            }
            Question::Generation(pergen, key) => {
                print::answer(stdout, pergen.get_generation(key), put_generation)
            }
            Question::Accidentals(pergen, format, key) => print::answer(
                stdout,
                pergen.get_accidentals(format, key),
                put_accidentals,
            ),
        }
    }
}

fn pergen_of(words: &mut Words) -> Option<PerGen> {
    Some(PerGen {
        period: words.read()?,
        generator: words.read()?,
    })
}

// Period, generator, cycles, reduced period and inverse.
pub(crate) fn put_pergen(stdout: Stdout, pergen: PerGen) {
    print::number(stdout, pergen.period);
    print::next(stdout, pergen.generator);
    print::next_answer(stdout, pergen.num_cycles());
    print::next_answer(stdout, pergen.reduced_period());
    print::next_answer(stdout, pergen.generator_inverse());
}

fn put_generation(stdout: Stdout, generation: Generation) {
    print::number(stdout, generation.degree);
    put_cycle(stdout, generation.cycle);
}

// The last word of a line.
fn put_cycle(stdout: Stdout, cycle: Option<u16>) {
    match cycle {
        None => print::text(stdout, b" -"),
        Some(number) => print::next(stdout, number),
    }
}

// A key's two spellings.
pub(crate) fn put_accidentals(stdout: Stdout, a: Accidentals) {
    print::four(
        stdout,
        a.sharp_index,
        a.sharp_count,
        a.flat_index,
        a.flat_count,
    );
    put_cycle(stdout, a.cycle);
}
