// The key that a text names, by one spelling or by two: parts, and no entry points.
ghost use Rattle.std.specs.Prelude.{◌≡◌, ◌==◌, position};
ghost use Rattle.answer.specs.Refusals.{outcome_of};
ghost use Rattle.layout.specs.Parts.{layout_of};
ghost use Rattle.layout.specs.Names.{key_of};
ghost use Rattle.layout_reading.specs.Answers.{starless_in, key_of_both, both_in, slashed_in, enclosed_in, named_in};
ghost use Rattle.layout_reading.specs.Parts.{spelling_of, typed_outcome};

use crate::reader::Reader;
use crate::spellings;
use crate::spellings::Typed;
use answer::Refusal;
use pergen::{AccidentalsFormat, PerGen, Spelling};

// Where a byte first stands in a text.
fn place_of(text: &[u8], byte: u8) -> Option<usize>
    ensures { result ≡ position (λ b. b == byte) text.now }
{
    text.iter().position(|b| *b == byte)
}

// All are inlined: called, they would want the whole `Reader` in memory, where it is written in pieces, and each text would wait for it.
impl Reader {
    // The key that a spelling sounds.
    #[inline(always)]
    fn key_of(self, spelling: Spelling) -> u16
        ensures { result ≡ key_of (layout_of self.found) spelling }
    {
        let format = AccidentalsFormat {
            num_symbols: self.found.num_letters,
            genchain_origin: self.found.start,
        };
        let pergen = PerGen {
            period: self.found.octave,
            generator: self.found.generator,
        };
        let sides = pergen::sounding::sides_of(format, spelling);
        pergen::sounding::sounded(pergen, sides, spelling.stars)
    }

    // The spelling without stars that a text is (23).
    #[inline(always)]
    fn starless(self, text: &[u8]) -> Result<Typed, Refusal>
        ensures { typed_outcome result ≡ starless_in (layout_of self.found) text.now }
    {
        let t = self.typed_spelling(text)?;
        if t.stars != 0 {
            return Err(Refusal::NoteName);
        }
        Ok(t)
    }

    // The key of two spellings, with stars below the cycles (24).
    #[inline(always)]
    fn key_of_both(self, stars: u16, first: Typed, second: Typed) -> Result<u16, Refusal>
        ensures { outcome_of result ≡ key_of_both (layout_of self.found) stars (spelling_of first) (spelling_of second) }
    {
        let one = self.key_of(first.with_stars(stars));
        let other = self.key_of(second.with_stars(stars));
        if one == other {
            return Ok(one);
        }
        Err(Refusal::TwoKeys)
    }

    // The key of the two spellings that two texts are (23, 21, 24).
    #[inline(always)]
    fn both(self, stars: usize, first: &[u8], second: &[u8]) -> Result<u16, Refusal>
        ensures { outcome_of result ≡ both_in (layout_of self.found) stars first.now second.now }
    {
        let one = self.starless(first)?;
        let other = self.starless(second)?;
        let below = self.stars_below(stars)?;
        self.key_of_both(below, one, other)
    }

    // The key of two spellings with / between (23, 21, 24).
    #[inline(always)]
    fn slashed(self, stars: usize, text: &[u8]) -> Result<u16, Refusal>
        ensures { outcome_of result ≡ slashed_in (layout_of self.found) stars text.now }
    {
        let Some(slash) = place_of(text, b'/') else {
            return Err(Refusal::NoteName);
        };
        self.both(stars, &text[..slash], &text[slash + 1..])
    }

    // The same in parentheses, with stars behind (23, 21, 24).
    #[inline(always)]
    fn enclosed(self, text: &[u8]) -> Result<u16, Refusal>
        ensures { outcome_of result ≡ enclosed_in (layout_of self.found) text.now }
    {
        let Some(close) = place_of(text, b')') else {
            return Err(Refusal::NoteName);
        };
        if text[0] != b'(' {
            return Err(Refusal::NoteName);
        }
        let end = close + 1;
        let stars = spellings::run(text, end, b'*');
        if end + stars < text.len() {
            return Err(Refusal::NoteName);
        }
        self.slashed(stars, &text[1..close])
    }

    // The key that a text names (23, 21, 24).
    #[inline(always)]
    pub(crate) fn find(self, text: &[u8]) -> Result<u16, Refusal>
        ensures { outcome_of result ≡ named_in (layout_of self.found) text.now }
    {
        let Some(_) = place_of(text, b'/') else {
            let x = self.read(text)?;
            return Ok(self.key_of(x));
        };
        if 1 < self.cycles {
            return self.enclosed(text);
        }
        self.slashed(0, text)
    }
}
