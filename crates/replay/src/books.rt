// Questions on books. LAYOUT is as in `layouts`, and so is `_from`, which may stand behind each name but `find_in`.
//
//     book_len LAYOUT       how many bytes the layout's book has
//     book LAYOUT           its bytes, as numbers
//     find LAYOUT KEY       a key looked up in it: offset and length of the name, and the name; or a refusal, told twice
//     find_in KEY BYTE..    the same in any bytes, at most 256
use crate::print;
use crate::questions::Ask;
use crate::words::{List, Words};
use book::Place;
use std::io::Stdout;

#[derive(Drop)]
pub(crate) struct Question {
    key: i32,
    book: List<u8>,
}

impl Ask for Question {
    fn asked(name: &[u8], words: &mut Words) -> Option<Question> {
        Some(match name {
            b"find_in" => Question {
                key: words.read()?,
                book: words.read()?,
            },
            _ => return None,
        })
    }

    fn answer(self, stdout: Stdout, _room: u16) {
        put_lookup(stdout, self.book.as_slice(), self.key);
    }
}

// What the two calls give: offset and length, and the name; each tells a refusal.
pub(crate) fn put_lookup(stdout: Stdout, book: &[u8], key: i32) {
    print::answer(stdout, book::find(book, key), put_place);
    print::space(stdout);
    print::answer(stdout, book::name(book, key), print::text);
}

fn put_place(stdout: Stdout, place: Place) {
    print::number(stdout, place.offset);
    print::next(stdout, place.length);
}
