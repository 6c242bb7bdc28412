// Questions on moves in octaves and generators. LAYOUT is a chain code, the step counts of octave and tritave, and a start.
//
//     moves LAYOUT                         the layout's pattern and its moves, those of the primary step first
//     write_moves LAYOUT                   its moves alone
//     genesis_moves PERIOD GENERATOR       the pattern that a walk begins with, and its moves
//     nth_moves PERIOD GENERATOR PLACE     the pattern at a place of the walk, from 0, and its moves, or `none`
//     walk_moves PERIOD GENERATOR          the moves of all patterns of the walk
ghost use Rattle.std.specs.Prelude.{◌≡◌, length};

use crate::questions::Ask;
use crate::words::Words;
use crate::{patterns, print};
use answer::Refusal;
use layout::IsomorphicLayout;
use mos::Mos;
use mos_moves::Moves;
use std::io::Stdout;

#[derive(Clone, Copy)]
pub(crate) enum Question {
    Moves(IsomorphicLayout),
    WriteMoves(IsomorphicLayout),
    GenesisMoves(u16, u16),
    NthMoves(u16, u16, u32),
    WalkMoves(u16, u16),
}

impl Ask for Question {
    fn asked(name: &[u8], words: &mut Words) -> Option<Question> {
        Some(match name {
            b"moves" => Question::Moves(words.read()?),
            b"write_moves" => Question::WriteMoves(words.read()?),
            b"genesis_moves" => Question::GenesisMoves(words.read()?, words.read()?),
            b"nth_moves" => Question::NthMoves(words.read()?, words.read()?, words.read()?),
            b"walk_moves" => Question::WalkMoves(words.read()?, words.read()?),
            _ => return None,
        })
    }

    fn answer(self, stdout: Stdout, room: u16) {
        let mut moves = [[0i32; 2]; 2];
        match self {
            Question::Moves(layout) => {
                let found = layout_moves::get_moves(layout, &mut moves);
                print::answer(stdout, found, |to, m| put(to, m, moves))
            }
            Question::GenesisMoves(period, generator) => {
                let found = mos_moves::genesis_moves(period, generator, &mut moves);
                print::answer(stdout, found, |to, m| put(to, m, moves))
            }
            Question::NthMoves(period, generator, k) => {
                let found = mos_moves::nth_moves(period, generator, k, &mut moves);
                print::answer(stdout, found, |to, walked| {
                    print::found(to, walked, |to, m| put(to, m, moves))
                })
            }
            Question::WriteMoves(layout) => put_list(stdout, room, |out: &mut [i32]| {
                layout_moves::write_moves(layout, out)
            }),
            Question::WalkMoves(period, generator) => put_list(stdout, room, |out: &mut [i32]| {
                mos_moves::walk_moves(period, generator, out)
            }),
        }
    }
}

// Room for a list of 65,536 moves. The `ensures` is what lending the array needs: tried without this function, slicing the array leaves its
// goal open.
fn list_room() -> [i32; 65536]
    ensures { 65536 ≡ length result }
{
    [0; 65536]
}

// The moves that a call writes to a slice of so many elements.
#[inline(never)]
fn put_list<W: FnOnce(&mut [i32]) -> Result<usize, Refusal>>(stdout: Stdout, room: u16, write: W)
    requires { W.IsAlwaysCallable write }
{
    let mut all = list_room();
    let end = room as usize;
    print::filled(stdout, &mut all[..end], write, print::joined);
}

// A pattern, and the moves of its two steps.
fn put(stdout: Stdout, m: Mos, moves: Moves) {
    patterns::put_pattern(stdout, m);
    for [octaves, generators] in moves {
        print::next(stdout, octaves);
        print::next(stdout, generators);
    }
}
