// How far a retuning moves a note (document 02, W-212).
//
// Holds the answer for a teacher who retunes before a lesson: by how many steps round the octave the key that a spelling sounds moves, the
// table of these moves over all letters with up to eight sharps or flats, and the largest of them.
// specs/: Retunings defines, Answers says what each call answers, Theorems and Examples state what holds.
// A retuning holds only the five numbers that a caller chose; each call asks the questions of both its layouts again, the first's first.
// Every entry point answers every input; the modules of parts ask for more, as their heads say. Nothing is assumed.
#![tactic(auto)]

mod parts;
mod tunings;

ghost use Rattle.std.specs.Prelude.{◌≡◌, length};
ghost use Rattle.answer.specs.Refusals.{outcome_of};
ghost use Rattle.answer.specs.Lent.{in_room, counted, Filled};
ghost use Rattle.layout_retuning.specs.Retunings.{spelt};
ghost use Rattle.layout_retuning.specs.Answers.{get_moved, get_move_table, get_largest_move};

use answer::Refusal;
use pergen::{Signs, Spelling};

// A chain's code, how many steps make an octave, the index of key 0's letter along the chain, and how many steps make a tritave before and
// after.
#[derive(Clone, Copy)]
pub struct Retuning {
    pub genchain: u16,
    pub octave: u16,
    pub start: u16,
    pub from_tritave: u16,
    pub to_tritave: u16,
}

// How many steps round the octave, the shorter way, the key moves that a spelling sounds: a letter's index along the chain, signs (sharps
// above 0, flats below), stars (1, 2, 3, 4, 18, of the second layout 3, 4, then 16, 21).
pub fn moved(retuning: Retuning, letter: u16, signs: i32, stars: u16) -> Result<u16, Refusal>
    ensures { outcome_of result ≡ get_moved retuning (spelt letter signs stars) }
{
    let tunings = parts::ask(retuning)?;
    let spelling = Spelling {
        index: letter,
        signs: Signs::from_number(signs),
        stars,
    };
    parts::moved_in(tunings, spelling)
}

// The moves of all letters, letter by letter along the chain, each from eight flats to eight sharps, without stars (1, 2, 3, 4, 18, of the
// second layout 3, 4, then 10).
pub fn move_table(retuning: Retuning, out: &mut [u16]) -> Result<usize, Refusal>
    ensures { Filled (in_room (length out.old) (get_move_table retuning)) (outcome_of result) out.old out.new }
{
    let tunings = parts::ask(retuning)?;
    parts::write_table(tunings, out)
}

// How many numbers `move_table` writes (1, 2, 3, 4, 18, of the second layout 3, 4).
pub fn move_table_len(retuning: Retuning) -> Result<usize, Refusal>
    ensures { outcome_of result ≡ counted (get_move_table retuning) }
{
    let tunings = parts::ask(retuning)?;
    Ok(parts::entries(tunings) as usize)
}

// The largest move in the table (1, 2, 3, 4, 18, of the second layout 3, 4).
pub fn largest_move(retuning: Retuning) -> Result<u16, Refusal>
    ensures { outcome_of result ≡ get_largest_move retuning }
{
    let tunings = parts::ask(retuning)?;
    Ok(parts::largest_in(tunings))
}
