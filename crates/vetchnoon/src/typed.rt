// Typed names: the spelling that a text is, and the key that it names.
ghost use Rattle.std.specs.Prelude.{◌≡◌};
ghost use Rattle.layout_reading.specs.Answers.{get_spelling, get_named_key};
ghost use Rattle.vetchnoon_codes.specs.Codes.{code_of, Fills};
ghost use Rattle.vetchnoon.specs.Written.{layout};
ghost use Rattle.vetchnoon.specs.TypedNames.{as_signed, signs_number, spelling_numbers};

use crate::parts;
use pergen::Signs;

// Signs as one number: as many sharps as it is above 0, or flats as it is below.
fn signs_number(signs: Signs) -> i64
    ensures { result ≡ signs_number signs }
{
    match signs {
        Signs::Sharps(count) => count as i64,
        Signs::Flats(count) => -(count as i64),
    }
}

// The spelling that a text is: the letter's index, signs (sharps above 0, flats below), stars (1, 2, 3, 4, 18, 23, 21, 10).
#[unsafe(no_mangle)]
pub extern "C" fn vn_read_spelling(
    chain: u16,
    octave: u16,
    tritave: u16,
    start: u16,
    text: &[u8],
    out: &mut [i64],
) -> i64
    ensures { Fills (as_signed spelling_numbers (get_spelling (layout chain octave tritave start) text.now)) result out.old out.new }
{
    let layout = parts::layout_of(chain, octave, tritave, start);
    match layout_reading::read_spelling(layout, text) {
        Err(question) => vetchnoon_codes::refused(question),
        Ok(spelling) => {
            let numbers = [
                spelling.index as i64,
                signs_number(spelling.signs),
                spelling.stars as i64,
            ];
            vetchnoon_codes::put_all(out, &numbers)
        }
    }
}

// The key of the octave that a text names: a spelling's, or a name's with two spellings of one key (1, 2, 3, 4, 18, 23, 21, 24).
#[unsafe(no_mangle)]
pub extern "C" fn vn_find_key(chain: u16, octave: u16, tritave: u16, start: u16, text: &[u8]) -> i64
    ensures { result ≡ code_of (get_named_key (layout chain octave tritave start) text.now) }
{
    let layout = parts::layout_of(chain, octave, tritave, start);
    vetchnoon_codes::number(layout_reading::find_key(layout, text))
}
