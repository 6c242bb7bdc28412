// Questions that a text answers. LAYOUT is a chain code, the step counts of octave and tritave, and a start; CODE.. is a list of at most 256
// numbers. The modules `layouts` and `books` say what those on layouts and their books ask.
//
//     chain CODE        the chain's name
//     edo_report        the report over all octaves of equal steps
//     kbm LAYOUT        the bytes of the layout's mapping, as numbers
//     narrow CODE..     lamp codes of two bytes, in one byte again
//     table LINE        all that the key table program prints for the line
use crate::questions::Ask;
use crate::words::{self, Line, List, Words};
use crate::{books, layouts, print};
use layout::IsomorphicLayout;
use std::io::Stdout;

#[derive(Drop)]
pub(crate) enum Question {
    Chain(u16),
    EdoReport,
    Kbm(IsomorphicLayout),
    Narrow(List<u16>),
    Layout(IsomorphicLayout),
    Names(IsomorphicLayout),
    Name(IsomorphicLayout, i32),
    Book(IsomorphicLayout),
    Find(IsomorphicLayout, i32),
}

impl Ask for Question {
    fn asked(name: &[u8], words: &mut Words) -> Option<Question> {
        Some(match name {
            b"chain" => Question::Chain(words.read()?),
            b"edo_report" => Question::EdoReport,
            b"kbm" => Question::Kbm(words.read()?),
            b"narrow" => Question::Narrow(words.read()?),
            b"layout" => Question::Layout(words::default_layout(words)?),
            b"layout_from" => Question::Layout(words.read()?),
            b"names" => Question::Names(words::default_layout(words)?),
            b"names_from" => Question::Names(words.read()?),
            b"name" => Question::Name(words::default_layout(words)?, words.read()?),
            b"name_from" => Question::Name(words.read()?, words.read()?),
            b"book" => Question::Book(words::default_layout(words)?),
            b"book_from" => Question::Book(words.read()?),
            b"find" => Question::Find(words::default_layout(words)?, words.read()?),
            b"find_from" => Question::Find(words.read()?, words.read()?),
            _ => return None,
        })
    }

    // with a frame of its own, so that the stack holds the array for these questions alone
    #[inline(never)]
    fn answer(self, stdout: Stdout, room: u16) {
        let mut all = [0u8; 65536];
        let out = &mut all[..room as usize];
        match self {
            Question::Chain(code) => print::filled(
                stdout,
                out,
                |out: &mut [u8]| genchain::name(code, out),
                print::text,
            ),
            Question::EdoReport => { print::filled(stdout, out, edo_counts::report, print::lines) }
            Question::Kbm(layout) => print::filled(
                stdout,
                out,
                |out: &mut [u8]| layout_kbm::write_kbm(layout, out),
                print::list,
            ),
            Question::Narrow(strip) => print::filled(
                stdout,
                out,
                |out: &mut [u8]| lamp_codes::narrow_strip(strip.as_slice(), out),
                print::list,
            ),
            Question::Layout(layout) => {
                print::answer(stdout, layouts::made(layout), |to, layout| {
                    layouts::put_layout(to, layout, out)
                })
            }
            Question::Names(layout) => {
                print::answer(stdout, layouts::made(layout), |to, layout| {
                    layouts::put_names(to, layout, out)
                })
            }
            Question::Name(layout, key) => print::filled(
                stdout,
                out,
                |out: &mut [u8]| layout.get_note_name(key, out),
                print::text,
            ),
            Question::Book(layout) => print::filled(
                stdout,
                out,
                |out: &mut [u8]| layout_book::write_book(layout, out),
                print::list,
            ),
            Question::Find(layout, key) => print::filled(
                stdout,
                out,
                |out: &mut [u8]| layout_book::write_book(layout, out),
                |to: Stdout, book: &[u8]| books::put_lookup(to, book, key),
            ),
        }
    }
}

// Whether a space and a line of the key table program stand behind the name; if so, the line is answered.
#[inline(never)]
pub(crate) fn answer_table(stdout: Stdout, line: Line) -> bool {
    let Some(table_line) = line.words.behind_space() else {
        return false;
    };
    let mut all = [0u8; 65536];
    print::filled(
        stdout,
        &mut all[..line.room as usize],
        |out: &mut [u8]| layout_table::respond(table_line, out),
        print::lines,
    );
    true
}
