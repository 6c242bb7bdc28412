// Questions that a list of 16-bit numbers answers. LAYOUT is a chain code, the step counts of octave and tritave, and a start; ENTRY.. and
// BYTE.. are lists of at most 256 numbers.
//
//     children, parents PATTERN         the walk, four numbers a pattern
//     layer_sizes, layers PATTERN       the layers of the chain
//     find_by_edo N                     as `edo` says
//     move_table RETUNING               as `plain` says
//     reach LAYOUT KEY DISTANCE         the keys within the distance
//     to_chain_order LAYOUT ENTRY..     each key's entry at its place along the chain
//     to_key_order LAYOUT ENTRY..       each place's entry at its key
//     widen BYTE..                      lamp codes of one byte, in two bytes
//     read_kbm LAYOUT BYTE..            the keys that a mapping's text maps
//     lamps, key_layers                 as `layouts` says
use crate::questions::Ask;
use crate::words::{self, List, Words};
use crate::{layouts, print};
use answer::Refusal;
use layout::IsomorphicLayout;
use layout_retuning::Retuning;
use mos::Mos;
use std::io::Stdout;

#[derive(Drop)]
pub(crate) enum Question {
    Children(Mos),
    Parents(Mos),
    LayerSizes(Mos),
    Layers(Mos),
    FindByEdo(u16),
    MoveTable(Retuning),
    Reach(IsomorphicLayout, i32, u16),
    ToChainOrder(IsomorphicLayout, List<u16>),
    ToKeyOrder(IsomorphicLayout, List<u16>),
    Widen(List<u8>),
    ReadKbm(IsomorphicLayout, List<u8>),
    Lamps(IsomorphicLayout),
    KeyLayers(IsomorphicLayout),
}

impl Ask for Question {
    fn asked(name: &[u8], words: &mut Words) -> Option<Question> {
        Some(match name {
            b"children" => Question::Children(words.read()?),
            b"parents" => Question::Parents(words.read()?),
            b"layer_sizes" => Question::LayerSizes(words.read()?),
            b"layers" => Question::Layers(words.read()?),
            b"find_by_edo" => Question::FindByEdo(words.read()?),
            b"move_table" => Question::MoveTable(words.read()?),
            b"reach" => Question::Reach(words.read()?, words.read()?, words.read()?),
            b"to_chain_order" => Question::ToChainOrder(words.read()?, words.read()?),
            b"to_key_order" => Question::ToKeyOrder(words.read()?, words.read()?),
            b"widen" => Question::Widen(words.read()?),
            b"read_kbm" => Question::ReadKbm(words.read()?, words.read()?),
            b"lamps" => Question::Lamps(words::default_layout(words)?),
            b"lamps_from" => Question::Lamps(words.read()?),
            b"key_layers" => Question::KeyLayers(words::default_layout(words)?),
            b"key_layers_from" => Question::KeyLayers(words.read()?),
            _ => return None,
        })
    }

    // with a frame of its own, so that the stack holds the array for these questions alone
    #[inline(never)]
    fn answer(self, stdout: Stdout, room: u16) {
        // here, and not in one generic function: tried, an array of a type parameter owes that its size is below 2 ^ 63
        let mut all = [0u16; 65536];
        let out = &mut all[..room as usize];
        match self {
            Question::KeyLayers(layout) => {
                let total = layout_layers::layer_count(layout);
                print::filled(
                    stdout,
                    out,
                    |out: &mut [u16]| layout_layers::get_layers(layout, out),
                    |to: Stdout, layers: &[u16]| layouts::put_layers(to, total, layers),
                )
            }
            question => print::filled(
                stdout,
                out,
                |out: &mut [u16]| write(question, out),
                print::list,
            ),
        }
    }
}

fn write(question: Question, out: &mut [u16]) -> Result<usize, Refusal> {
    match question {
        Question::Children(m) => mos_listings::children(m, out),
        Question::Parents(m) => mos_listings::parents(m, out),
        Question::LayerSizes(m) => mos_layers::layer_sizes(m, out),
        Question::Layers(m) => mos_layers::get_layers(m, out),
        Question::FindByEdo(n) => edo_layouts::find_by_edo(n, out),
        Question::MoveTable(retuning) => layout_retuning::move_table(retuning, out),
        Question::Reach(layout, key, distance) => {
            layout_reach::keys_in_reach(layout, key, distance, out)
        }
        Question::ToChainOrder(layout, entries) => {
            layout_order::to_chain_order(layout, entries.as_slice(), out)
        }
        Question::ToKeyOrder(layout, entries) => {
            layout_order::to_key_order(layout, entries.as_slice(), out)
        }
        Question::Widen(strip) => lamp_codes::widen_strip(strip.as_slice(), out),
        Question::ReadKbm(layout, text) => layout_kbm::read_kbm(layout, text.as_slice(), out),
        Question::Lamps(layout) => layout_lamps::lamp_strip(layout, out),
        Question::KeyLayers(layout) => layout_layers::get_layers(layout, out),
    }
}
