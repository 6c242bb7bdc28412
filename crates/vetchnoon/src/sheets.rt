// A sheet of keys in one call. The list is its own room, so question 10 always has the answer yes.
ghost use Rattle.layout_sheet.specs.Answers.{get_sheet};
ghost use Rattle.vetchnoon_codes.specs.Codes.{Fills};
ghost use Rattle.vetchnoon.specs.Written.{layout};

use crate::parts;
use layout_sheet::Record;

// Fills each record from its key, in list order; the number of records (1, 2, 3, 4, 18).
#[unsafe(no_mangle)]
pub extern "C" fn vn_sheet(
    chain: u16,
    octave: u16,
    tritave: u16,
    start: u16,
    records: &mut [Record],
) -> i64
    ensures { Fills (get_sheet (layout chain octave tritave start) records.old) result records.old records.new }
{
    let layout = parts::layout_of(chain, octave, tritave, start);
    vetchnoon_codes::count(layout_sheet::fill_sheet(layout, records))
}
