// From two texts to the explanation of the spellings that they are: a part, and no entry point.
ghost use Rattle.std.specs.Prelude.{◌≡◌};
ghost use Rattle.answer.specs.Refusals.{outcome_of};
ghost use Rattle.layout.specs.Parts.{layout_of};
ghost use Rattle.layout_explaining.specs.Answers.{explained_in};

use crate::{Explanation, counting};
use answer::Refusal;
use layout_reading::reader::Reader;

// The explanation of what two texts are (23 of the first, of the second; 21 of the first, of the second).
pub(crate) fn explained(reader: Reader, first: &[u8], second: &[u8]) -> Result<Explanation, Refusal>
    ensures { outcome_of result ≡ explained_in (layout_of reader.found) first.now second.now }
{
    let one = reader.typed_spelling(first)?;
    let other = reader.typed_spelling(second)?;
    let stars = reader.stars_below(one.stars)?;
    let others = reader.stars_below(other.stars)?;
    Ok(counting::explanation(reader, one.with_stars(stars), other.with_stars(others)))
}
