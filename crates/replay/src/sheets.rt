// Questions on sheets. LAYOUT is a chain code, the step counts of octave and tritave, and a start.
//
//     sheet LAYOUT KEY KEY KEY KEY     how many records were filled, or the refusal; then the four records, a comma before each
//
// Before the call a record holds 9 8 7 6 5 4 behind its key, so that it is seen where one is left untouched.
use crate::print;
use crate::questions::Ask;
use crate::words::Words;
use layout::IsomorphicLayout;
use layout_sheet::Record;
use std::io::Stdout;

#[derive(Clone, Copy)]
pub(crate) struct Question {
    layout: IsomorphicLayout,
    keys: [i32; 4],
}

impl Ask for Question {
    fn asked(name: &[u8], words: &mut Words) -> Option<Question> {
        Some(match name {
            b"sheet" => Question {
                layout: words.read()?,
                keys: [words.read()?, words.read()?, words.read()?, words.read()?],
            },
            _ => return None,
        })
    }

    fn answer(self, stdout: Stdout, _room: u16) {
        let mut records = self.keys.map(asking);
        let answer = layout_sheet::fill_sheet(self.layout, &mut records);
        print::answer(stdout, answer, print::number);
        for record in records {
            put_record(stdout, record);
        }
    }
}

// A record that asks for a key.
fn asking(key: i32) -> Record {
    Record {
        key,
        sharp_index: 9,
        sharp_count: 8,
        flat_index: 7,
        flat_count: 6,
        stars: 5,
        lamp: 4,
    }
}

fn put_record(stdout: Stdout, record: Record) {
    print::text(stdout, b", ");
    print::number(stdout, record.key);
    print::space(stdout);
    print::four(
        stdout,
        record.sharp_index,
        record.sharp_count,
        record.flat_index,
        record.flat_count,
    );
    print::next(stdout, record.stars);
    print::next(stdout, record.lamp);
}
