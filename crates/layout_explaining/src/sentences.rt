// The explanation in words: parts, and no entry points. What writes asks for so many bytes that its text has room, whatever the numbers
// are: a number of 64 bits has at most 20 digits.
ghost use Rattle.std.specs.Prelude.{◌+◌, ◌≤◌, ◌<◌, ◌≡◌, length};
ghost use Rattle.answer.specs.Refusals.{outcome_of};
ghost use Rattle.answer.specs.Lent.{held_in, Filled};
ghost use Rattle.notes.specs.Names.{letter_text};
ghost use Rattle.text.specs.Decimal.{digits};
ghost use Rattle.text.specs.Writing.{Room, Wrote};
ghost use Rattle.layout_explaining.specs.declared.Verdict.TheVariants.{OneKey, OneChain};
ghost use Rattle.layout_explaining.specs.Sentences.{
  numbered,
  plural,
  way_text,
  stars_text,
  raised_text,
  where_text,
  product_text,
  key_text,
  moved_text,
  home_text,
  placed_text,
  apart_text,
  times_text,
  round_text,
  verdict_text,
  sentences,
};
ghost use Rattle.layout_explaining.specs.Answers.{ShortWords};
ghost use Rattle.layout_explaining.specs.Parts.{rest_text, Telling};

use crate::measures::{Counting, Distance};
use crate::{Explanation, Standing, Verdict};
use answer::Refusal;
use notes::texts::put_letter;
use text::decimal::put_number;
use text::writer::{put_byte, put_text};

// The digits of a number at a place; the place after them.
fn put_long(out: &mut [u8], at: usize, n: u64) -> usize
    requires { Room out.old at (digits n) }
    ensures { Wrote out.old at (digits n) out.new result }
{
    if n < 65536 {
        return put_number(out, at, n as u16);
    }
    let next = put_long(out, at, n / 10);
    put_byte(out, next, 48 + (n % 10) as u8)
}

// A word, and a number right behind it.
fn put_numbered(out: &mut [u8], at: usize, word: &[u8], n: u64) -> usize
    requires { at + length word.now + 20 ≤ length out.old }
    ensures { Wrote out.old at (numbered word.now n) out.new result × (result ≤ at + length word.now + 20) }
{
    let next = put_text(out, at, word);
    put_long(out, next, n)
}

// The letter s, but not behind the number 1.
fn put_plural(out: &mut [u8], at: usize, n: u64) -> usize
    requires { at + 1 ≤ length out.old }
    ensures { Wrote out.old at (plural n) out.new result × (result ≤ at + 1) }
{
    if n == 1 {
        return at;
    }
    put_byte(out, at, b's')
}

// Up or down: a bool, as in the definitions `way_text` and `moved_text`, which may not change.
fn put_way(out: &mut [u8], at: usize, up: bool) -> usize
    requires { at + 5 ≤ length out.old }
    ensures { Wrote out.old at (way_text up) out.new result × (result ≤ at + 5) }
{
    if up {
        return put_text(out, at, b" up");
    }
    put_text(out, at, b" down")
}

// Stars, where there are any.
fn put_stars(out: &mut [u8], at: usize, stars: u16) -> usize
    requires { at + 33 ≤ length out.old }
    ensures { Wrote out.old at (stars_text stars) out.new result × (result ≤ at + 33) }
{
    if stars == 0 {
        return at;
    }
    let count = put_numbered(out, at, b", with ", stars as u64);
    let star = put_text(out, count, b" star");
    put_plural(out, star, stars as u64)
}

// The keys that they are, where there are any.
fn put_raised(out: &mut [u8], at: usize, stars: u16) -> usize
    requires { at + 28 ≤ length out.old }
    ensures { Wrote out.old at (raised_text stars) out.new result × (result ≤ at + 28) }
{
    if stars == 0 {
        return at;
    }
    let count = put_numbered(out, at, b" and ", stars as u64);
    put_text(out, count, b" up")
}

// How many places up or down, from key 0's letter.
fn put_where(out: &mut [u8], at: usize, counting: Counting, up: bool, n: u64) -> usize
    requires { at + 58 ≤ length out.old }
    ensures { Wrote out.old at (where_text (letter_text counting.letter) up n) out.new result × (result ≤ at + 58) }
{
    let count = put_numbered(out, at, b" stands ", n);
    let place = put_text(out, count, b" place");
    let places = put_plural(out, place, n);
    let way = put_way(out, places, up);
    let from = put_text(out, way, b" the chain from ");
    put_letter(out, from, counting.letter)
}

// So many generators.
fn put_product(out: &mut [u8], at: usize, generator: u16, up: bool, n: u64, stars: u16) -> usize
    requires { at + 84 ≤ length out.old }
    ensures { Wrote out.old at (product_text generator up n stars) out.new result × (result ≤ at + 84) }
{
    let count = put_numbered(out, at, b": ", n);
    let times = put_numbered(out, count, b" \xc3\x97 ", generator as u64);
    let keys = put_text(out, times, b" keys");
    let way = put_way(out, keys, up);
    put_raised(out, way, stars)
}

// The key, of so many in the octave.
fn put_key(out: &mut [u8], at: usize, key: u16, octave: u16) -> usize
    requires { at + 50 ≤ length out.old }
    ensures { Wrote out.old at (key_text key octave) out.new result × (result ≤ at + 50) }
{
    let number = put_numbered(out, at, b"key ", key as u64);
    let all = put_numbered(out, number, b" of ", octave as u64);
    put_text(out, all, b".\n")
}

// All of it, of n places up or down.
fn put_moved(
    out: &mut [u8],
    at: usize,
    counting: Counting,
    up: bool,
    n: u64,
    stars: u16,
    key: u16,
) -> usize
    requires { at + 230 ≤ length out.old }
    ensures { Wrote out.old at (moved_text (letter_text counting.letter) counting.generator counting.octave up n stars key) out.new result × (result ≤ at + 230) }
{
    let stands = put_where(out, at, counting, up, n);
    let starred = put_stars(out, stands, stars);
    let product = put_product(out, starred, counting.generator, up, n, stars);
    let are = put_text(out, product, b" are ");
    put_key(out, are, key, counting.octave)
}

// All of it, at the place 0.
fn put_home(out: &mut [u8], at: usize, octave: u16, stars: u16, key: u16) -> usize
    requires { at + 115 ≤ length out.old }
    ensures { Wrote out.old at (home_text octave stars key) out.new result × (result ≤ at + 115) }
{
    let begins = put_text(out, at, b" stands where counting begins");
    let starred = put_stars(out, begins, stars);
    let colon = put_text(out, starred, b": ");
    put_key(out, colon, key, octave)
}

// The sentence of a spelling at a place, behind its name.
fn put_placed(
    out: &mut [u8],
    at: usize,
    counting: Counting,
    place: i64,
    stars: u16,
    key: u16,
) -> usize
    requires { at + 230 ≤ length out.old }
    ensures { Wrote out.old at (placed_text (letter_text counting.letter) counting.generator counting.octave place stars key) out.new result × (result ≤ at + 230) }
{
    if place < 0 {
        // by -1 - place, since 64 signed bits hold no 2^63
        let down = (-1 - place) as u64 + 1;
        return put_moved(out, at, counting, false, down, stars, key);
    }
    let up = place as u64;
    if up == 0 {
        return put_home(out, at, counting.octave, stars, key);
    }
    put_moved(out, at, counting, true, up, stars, key)
}

// How far apart.
fn put_apart(out: &mut [u8], at: usize, apart: u64) -> usize
    requires { at + 44 ≤ length out.old }
    ensures { Wrote out.old at (apart_text apart) out.new result × (result ≤ at + 44) }
{
    let count = put_numbered(out, at, b"They are ", apart);
    let place = put_text(out, count, b" place");
    let places = put_plural(out, place, apart);
    put_text(out, places, b" apart, ")
}

// How often round, where it is more than once.
fn put_times(out: &mut [u8], at: usize, distance: Distance) -> usize
    requires { at + 85 ≤ length out.old }
    ensures { Wrote out.old at (times_text distance.apart distance.reduced_period) out.new result × (result ≤ at + 85) }
{
    let often = distance.apart / (distance.reduced_period as u64);
    let count = put_long(out, at, often);
    let times = put_numbered(out, count, b" times the ", distance.reduced_period as u64);
    put_text(out, times, b" after which the chain comes round")
}

// After how many places the chain comes round.
fn put_round(out: &mut [u8], at: usize, distance: Distance) -> usize
    requires { at + 85 ≤ length out.old }
    ensures { Wrote out.old at (round_text distance.apart distance.reduced_period) out.new result × (result ≤ at + 85) }
{
    if (distance.reduced_period as u64) < distance.apart {
        return put_times(out, at, distance);
    }
    put_numbered(
        out,
        at,
        b"and the chain comes round after ",
        distance.reduced_period as u64,
    )
}

// The third sentence, of one key.
fn put_one_key(out: &mut [u8], at: usize, distance: Distance) -> usize
    requires { at + 140 ≤ length out.old }
    ensures { Wrote out.old at (verdict_text OneKey distance.apart distance.reduced_period) out.new result × (result ≤ at + 140) }
{
    if distance.apart == 0 {
        return put_text(out, at, b"They stand at one place: one key.\n");
    }
    let places = put_apart(out, at, distance.apart);
    let round = put_round(out, places, distance);
    put_text(out, round, b": one key.\n")
}

// The third sentence, of two keys on one chain.
fn put_two_keys(out: &mut [u8], at: usize, distance: Distance) -> usize
    requires { at + 140 ≤ length out.old }
    ensures { Wrote out.old at (verdict_text OneChain distance.apart distance.reduced_period) out.new result × (result ≤ at + 140) }
{
    let places = put_apart(out, at, distance.apart);
    let round = put_numbered(
        out,
        places,
        b"and the chain comes round after ",
        distance.reduced_period as u64,
    );
    put_text(out, round, b": two keys.\n")
}

// Whether they are one key, and why.
fn put_verdict(out: &mut [u8], at: usize, verdict: Verdict, distance: Distance) -> usize
    requires { at + 140 ≤ length out.old }
    ensures { Wrote out.old at (verdict_text verdict distance.apart distance.reduced_period) out.new result × (result ≤ at + 140) }
{
    match verdict {
        Verdict::OneKey => put_one_key(out, at, distance),
        Verdict::OneChain => put_two_keys(out, at, distance),
        Verdict::TwoChains => put_text(
            out,
            at,
            b"Their stars differ, so they stand on different chains: two keys.\n",
        ),
    }
}

// The sentence of a spelling, behind its name.
fn put_standing(out: &mut [u8], at: usize, counting: Counting, standing: Standing) -> usize
    requires { at + 230 ≤ length out.old }
    ensures { Wrote out.old at (placed_text (letter_text counting.letter) counting.generator counting.octave standing.place standing.stars standing.key) out.new result × (result ≤ at + 230) }
{
    put_placed(
        out,
        at,
        counting,
        standing.place,
        standing.stars,
        standing.key,
    )
}

// What stands behind the second name: its sentence, and the verdict's.
fn put_rest(out: &mut [u8], counting: Counting, explanation: Explanation) -> usize
    requires { (0 < explanation.reduced_period) × (370 ≤ length out.old) }
    ensures { Wrote out.old 0 (rest_text (letter_text counting.letter) counting.generator counting.octave explanation) out.new result × (result ≤ 370) }
{
    let second = explanation.second;
    let verdict = explanation.verdict;
    let stands = put_standing(out, 0, counting, second);
    let distance = Distance {
        apart: explanation.apart,
        reduced_period: explanation.reduced_period,
    };
    put_verdict(out, stands, verdict, distance)
}

// How many bytes the three sentences have.
pub(crate) fn text_len(
    counting: Counting,
    first: &[u8],
    second: &[u8],
    explanation: Explanation,
) -> usize
    requires { Telling first.now second.now explanation }
    ensures { (result ≡ length (sentences (letter_text counting.letter) counting.generator counting.octave first.now second.now explanation)) × ShortWords first.now second.now result }
{
    let mut one = [0u8; 230];
    let mut other = [0u8; 370];
    let standing = explanation.first;
    let one_end = put_standing(&mut one, 0, counting, standing);
    let other_end = put_rest(&mut other, counting, explanation);
    first.len() + one_end + second.len() + other_end
}

// The three sentences at the front of a slice that holds them (10). What stands behind each name is put together first, beside the slice,
// so that its length is known before a byte is written.
pub(crate) fn write(
    counting: Counting,
    first: &[u8],
    second: &[u8],
    explanation: Explanation,
    out: &mut [u8],
) -> Result<usize, Refusal>
    requires { Telling first.now second.now explanation }
    ensures { Filled (held_in (length out.old) (sentences (letter_text counting.letter) counting.generator counting.octave first.now second.now explanation)) (outcome_of result) out.old out.new }
{
    let mut one = [0u8; 230];
    let mut other = [0u8; 370];
    let standing = explanation.first;
    let one_end = put_standing(&mut one, 0, counting, standing);
    let other_end = put_rest(&mut other, counting, explanation);
    let bytes = first.len() + one_end + second.len() + other_end;
    if out.len() < bytes {
        return Err(Refusal::Room);
    }
    let named = put_text(out, 0, first);
    let told = put_text(out, named, &one[..one_end]);
    let next = put_text(out, told, second);
    put_text(out, next, &other[..other_end]);
    Ok(bytes)
}
