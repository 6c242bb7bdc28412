// Questions on step patterns. PATTERN is four numbers: primary and secondary count, primary and secondary step.
//
//     new_genesis PERIOD GENERATOR     the pattern that a walk begins with
//     new_collapsed LARGE SMALL        the pattern of two counts with steps 1 and 0
//     pattern PATTERN                  sharpness, steps, size, cycles, reduced size
//     child, parent, genesis, dual, mirror, coprime PATTERN
//                                      another pattern, or `none`
//     get_key PATTERN PRIMARY SECONDARY
//                                      the key at a place of the board, of 16 signed bits each
use crate::print;
use crate::questions::Ask;
use crate::words::Words;
use mos::Mos;
use std::io::Stdout;

#[derive(Clone, Copy)]
pub(crate) enum Question {
    NewGenesis(u16, u16),
    NewCollapsed(u16, u16),
    Pattern(Mos),
    Child(Mos),
    Parent(Mos),
    Genesis(Mos),
    Dual(Mos),
    Mirror(Mos),
    Coprime(Mos),
    GetKey(Mos, i16, i16),
}

impl Ask for Question {
    fn asked(name: &[u8], words: &mut Words) -> Option<Question> {
        Some(match name {
            b"new_genesis" => Question::NewGenesis(words.read()?, words.read()?),
            b"new_collapsed" => Question::NewCollapsed(words.read()?, words.read()?),
            b"pattern" => Question::Pattern(words.read()?),
            b"child" => Question::Child(words.read()?),
            b"parent" => Question::Parent(words.read()?),
            b"genesis" => Question::Genesis(words.read()?),
            b"dual" => Question::Dual(words.read()?),
            b"mirror" => Question::Mirror(words.read()?),
            b"coprime" => Question::Coprime(words.read()?),
            b"get_key" => Question::GetKey(words.read()?, words.read()?, words.read()?),
            _ => return None,
        })
    }

    fn answer(self, stdout: Stdout, _room: u16) {
        match self {
            Question::NewGenesis(period, generator) => {
                print::answer(stdout, Mos::new_genesis(period, generator), put_pattern)
            }
            Question::NewCollapsed(large, small) => {
                put_pattern(stdout, Mos::new_collapsed(large, small))
            }
            Question::Pattern(m) => {
                let made = Mos::new(
                    m.num_primary_steps,
                    m.num_secondary_steps,
                    m.primary_step,
                    m.secondary_step,
                );
                print::answer(stdout, made, put_numbers)
            }
            Question::Child(m) => print::answer(stdout, m.child(), put_walked),
            Question::Parent(m) => print::answer(stdout, m.parent(), put_walked),
            Question::Genesis(m) => print::answer(stdout, mos_walks::genesis(m), put_pattern),
            Question::Dual(m) => print::answer(stdout, m.dual(), put_pattern),
            Question::Mirror(m) => print::answer(stdout, m.mirror(), put_pattern),
            Question::Coprime(m) => print::answer(stdout, m.coprime(), put_pattern),
            Question::GetKey(m, primary, secondary) => {
                print::answer(stdout, m.get_key(primary, secondary), print::number)
            }
        }
    }
}

pub(crate) fn put_pattern(stdout: Stdout, m: Mos) {
    print::four(
        stdout,
        m.num_primary_steps,
        m.num_secondary_steps,
        m.primary_step,
        m.secondary_step,
    );
}

fn put_walked(stdout: Stdout, walked: Option<Mos>) {
    print::found(stdout, walked, put_pattern);
}

fn put_numbers(stdout: Stdout, m: Mos) {
    print::answer(stdout, m.sharpness(), print::number);
    print::space(stdout);
    print::answer(stdout, m.num_steps(), print::number);
    print::next_answer(stdout, m.size());
    print::next_answer(stdout, m.num_cycles());
    print::next_answer(stdout, m.reduced_size());
}
