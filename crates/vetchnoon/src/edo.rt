// Octave divisions: the choices for the tritave, the layouts of all chains, and the report over all divisions.
ghost use Rattle.answer.specs.Outcome.{given};
ghost use Rattle.edo_tritaves.specs.Tritaves.{choice_numbers, tritaves_of};
ghost use Rattle.edo_layouts.specs.Layouts.{find_by_edo};
ghost use Rattle.edo_counts.specs.Counts.{report};
ghost use Rattle.vetchnoon_codes.specs.Codes.{Fills};
ghost use Rattle.vetchnoon_codes.specs.Numbers.{as_numbers};

use edo_tritaves::Choices;

// One number, or two (10).
fn put_choices(out: &mut [u16], choices: Choices) -> i64
    ensures { Fills (given (choice_numbers choices)) result out.old out.new }
{
    match choices.second {
        None => vetchnoon_codes::put(out, &[choices.first]),
        Some(second) => vetchnoon_codes::put(out, &[choices.first, second]),
    }
}

// How many steps make a tritave where n make an octave: the first choice, and the second where there is one (15, 10).
#[unsafe(no_mangle)]
pub extern "C" fn vn_tritaves(n: u16, out: &mut [u16]) -> i64
    ensures { Fills (as_numbers choice_numbers (tritaves_of n)) result out.old out.new }
{
    match edo_tritaves::tritaves(n) {
        Err(q) => vetchnoon_codes::refused(q),
        Ok(choices) => put_choices(out, choices),
    }
}

// The layouts where n steps make an octave, by rising chain code: of each the code, the tritave, and 1 for the second choice, else 0
// (15, 10).
#[unsafe(no_mangle)]
pub extern "C" fn vn_find_by_edo(n: u16, out: &mut [u16]) -> i64
    ensures { Fills (find_by_edo n) result out.old out.new }
{
    vetchnoon_codes::count(edo_layouts::find_by_edo(n, out))
}

// A line for each chain code: the code, and the number of layouts of 1 to 400 steps with sharpness above 0, below 0 and at 0 (10).
#[unsafe(no_mangle)]
pub extern "C" fn vn_edo_report(out: &mut [u8]) -> i64
    ensures { Fills (given report) result out.old out.new }
{
    vetchnoon_codes::count(edo_counts::report(out))
}
