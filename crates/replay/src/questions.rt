// A group of questions: how one is read from a line, and how it is answered.
use crate::words::{Line, Words};
use std::io::Stdout;

pub(crate) trait Ask: Sized {
    // The question of a name, with its values.
    fn asked(name: &[u8], words: &mut Words) -> Option<Self>;

    // Prints the answer. `room` is how many elements a slice has that is lent for it.
    fn answer(self, stdout: Stdout, room: u16);
}

// Whether the line is a question of the group; if so, it is answered. With a frame of its own, so that the stack holds only this group's
// values below its answer.
#[inline(never)]
pub(crate) fn answered<Q: Ask + Drop>(stdout: Stdout, line: Line) -> bool {
    let mut words = line.words;
    match Q::asked(line.name, &mut words) {
        Some(question) => {
            let is_whole = words.at_end();
            if is_whole {
                question.answer(stdout, line.room);
            }
            is_whole
        }
        None => false,
    }
}
