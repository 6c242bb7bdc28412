// Where a scale's name stands in the table: parts, and no entry points. Callers have asked question 1.
ghost use Rattle.std.specs.Prelude.{◌<◌};
ghost use Rattle.genchain.specs.Texts.{PlaceOf};
ghost use Rattle.layout.specs.ScaleNames.{scale_name};

use mos::Mos;
use std::cmp::Ordering;

// The place of a pattern's scale name in the table.
pub fn place_of(code: u16, pattern: Mos) -> u16
    requires { code < 6 }
    ensures { PlaceOf (scale_name code pattern) result }
{
    match pattern.primary_step.cmp(&pattern.secondary_step) {
        Ordering::Greater => 2 + 3 * code,
        Ordering::Less => 3 + 3 * code,
        Ordering::Equal => 0,
    }
}
