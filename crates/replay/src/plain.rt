// Questions that a few numbers answer, on layouts and octaves of equal steps. LAYOUT is a chain code, the step counts of octave and
// tritave, and a start; RETUNING is a chain code, the step count of an octave, a start, and the step counts of the tritave before and
// after. The modules `edo`, `layouts` and `books` say what the others ask.
//
//     nearest LAYOUT KEY LETTER              the nearest key that the letter names, by its place along the chain
//     kbm_len LAYOUT                         how many bytes the layout's mapping has
//     moved RETUNING LETTER SIGNS STARS      how far the spelling moves, with its letter's place along the chain
//     move_table RETUNING                    the moves of all letters, from eight flats to eight sharps
//     largest_move RETUNING                  the largest of them
use crate::questions::Ask;
use crate::words::{self, Words};
use crate::{edo, layouts, pergens, print};
use layout::IsomorphicLayout;
use layout_retuning::Retuning;
use std::io::Stdout;

#[derive(Clone, Copy)]
pub(crate) enum Question {
    Tritaves(u16),
    FindChainByEdo(u16, u16),
    KbmLen(IsomorphicLayout),
    BookLen(IsomorphicLayout),
    Nearest(IsomorphicLayout, i32, u16),
    Moved(Retuning, u16, i32, u16),
    LargestMove(Retuning),
    Spelling(IsomorphicLayout, i32),
    Layer(IsomorphicLayout, i32),
    Lamp(IsomorphicLayout, i32),
}

impl Ask for Question {
    fn asked(name: &[u8], words: &mut Words) -> Option<Question> {
        Some(match name {
            b"tritaves" => Question::Tritaves(words.read()?),
            b"find_chain_by_edo" => Question::FindChainByEdo(words.read()?, words.read()?),
            b"kbm_len" => Question::KbmLen(words.read()?),
            b"book_len" => Question::BookLen(words::default_layout(words)?),
            b"book_len_from" => Question::BookLen(words.read()?),
            b"nearest" => Question::Nearest(words.read()?, words.read()?, words.read()?),
            b"moved" => {
                Question::Moved(words.read()?, words.read()?, words.read()?, words.read()?)
            }
            b"largest_move" => Question::LargestMove(words.read()?),
            b"spelling" => Question::Spelling(words::default_layout(words)?, words.read()?),
            b"spelling_from" => Question::Spelling(words.read()?, words.read()?),
            b"layer" => Question::Layer(words::default_layout(words)?, words.read()?),
            b"layer_from" => Question::Layer(words.read()?, words.read()?),
            b"lamp" => Question::Lamp(words::default_layout(words)?, words.read()?),
            b"lamp_from" => Question::Lamp(words.read()?, words.read()?),
            _ => return None,
        })
    }

    fn answer(self, stdout: Stdout, _room: u16) {
        match self {
            Question::Tritaves(n) => {
                print::answer(stdout, edo_tritaves::tritaves(n), edo::put_tritaves)
            }
            Question::FindChainByEdo(n, chain) => print::answer(
                stdout,
                edo_layouts::find_chain_by_edo(n, chain),
                edo::put_chain,
            ),
            Question::KbmLen(layout) => {
                print::answer(stdout, layout_kbm::kbm_len(layout), print::number)
            }
            Question::BookLen(layout) => {
                print::answer(stdout, layout_book::book_len(layout), print::number)
            }
            Question::Nearest(layout, key, letter) => print::answer(
                stdout,
                layout_reach::nearest_natural(layout, key, letter),
                print::number,
            ),
            Question::Moved(retuning, letter, signs, stars) => print::answer(
                stdout,
                layout_retuning::moved(retuning, letter, signs, stars),
                print::number,
            ),
            Question::LargestMove(retuning) => {
                print::answer(
                    stdout,
                    layout_retuning::largest_move(retuning),
                    print::number,
                )
            }
            Question::Spelling(layout, key) => {
                print::answer(
                    stdout,
                    layout.get_accidentals(key),
                    pergens::put_accidentals,
                )
            }
            Question::Layer(layout, key) => {
                let total = layout_layers::layer_count(layout);
                print::answer(
                    stdout,
                    layout_layers::get_layer(layout, key),
                    |to, layer| layouts::put_layer(to, total, layer),
                )
            }
            Question::Lamp(layout, key) => {
                print::answer(stdout, layout_lamps::lamp(layout, key), print::number)
            }
        }
    }
}
