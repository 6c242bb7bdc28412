// A sheet of keys in one call (document 02, W-208): an engraver lends a list of records, and each is filled from its own key.
//
// A record then holds what single calls would have given: the two spellings of `get_accidentals`, the stars, and the code of `lamp`. The
// layout is found once for the whole sheet.
// specs/: Sheets defines, Answers says what the call answers, Parts what the parts behind it promise, Theorems and Examples state what
// holds.
// The entry point answers every input. Nothing is assumed.
#![tactic(auto)]

mod parts;
mod source;

ghost use Rattle.answer.specs.Lent.{Filled};
ghost use Rattle.answer.specs.Refusals.{outcome_of};
ghost use Rattle.layout_sheet.specs.Answers.{get_sheet};

use answer::Refusal;
use layout::IsomorphicLayout;

// One line of a sheet: the key that is asked for, and what the call writes beside it. Numbers only, as C has them: an index is counted
// along the chain, a count is a number of sharps or of flats, stars are the cycle's number or 0.
#[repr(C)]
#[derive(Clone, Copy)]
pub struct Record {
    pub key: i32,
    pub sharp_index: u16,
    pub sharp_count: u16,
    pub flat_index: u16,
    pub flat_count: u16,
    pub stars: u16,
    pub lamp: u16,
}

// Fills every record from its key, in list order; tells how many there are (1, 2, 3, 4, 18).
pub fn fill_sheet(layout: IsomorphicLayout, records: &mut [Record]) -> Result<usize, Refusal>
    ensures { Filled (get_sheet layout records.old) (outcome_of result) records.old records.new }
{
    let source = parts::source_of(layout)?;
    let mut last = parts::first_key(source);
    for record in records.iter_mut() {
        let key = parts::key_asked(source, last, record.key);
        *record = parts::record_at(source, key, *record);
        last = key;
    }
    Ok(records.len())
}
