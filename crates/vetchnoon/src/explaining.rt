// Why two typed spellings are one key, or two: the numbers, and the sentences.
ghost use Rattle.std.specs.Prelude.{◌≡◌, ◌<◌, ◌^◌, pos};
ghost use Rattle.answer.specs.Lent.{counted};
ghost use Rattle.answer.specs.Outcome.{given};
ghost use Rattle.layout_explaining.specs.Answers.{get_explanation, get_explanation_text};
ghost use Rattle.vetchnoon_codes.specs.Codes.{code_of, Fills};
ghost use Rattle.vetchnoon.specs.Written.{layout};
ghost use Rattle.vetchnoon.specs.TypedNames.{as_signed, verdict_number, explanation_numbers};

use crate::parts;
use layout_explaining::{Explanation, Verdict};

// A verdict, as C gets it: the numbers of VN_ONE_KEY, VN_TWO_ON_ONE_CHAIN and VN_TWO_ON_DIFFERENT_CHAINS.
fn verdict_number(verdict: Verdict) -> u16
    ensures { result ≡ verdict_number verdict }
{
    match verdict {
        Verdict::OneKey => 0,
        Verdict::OneChain => 1,
        Verdict::TwoChains => 2,
    }
}

// Both places, both stars, both keys, how far apart, the reduced period and the verdict (10).
fn put_explanation(out: &mut [i64], explanation: Explanation) -> i64
    requires { explanation.apart < 2 ^ 63 }
    ensures { Fills (given (explanation_numbers explanation)) result out.old out.new }
{
    let first = explanation.first;
    let second = explanation.second;
    let numbers = [
        first.place,
        second.place,
        first.stars as i64,
        second.stars as i64,
        first.key as i64,
        second.key as i64,
        explanation.apart as i64,
        explanation.reduced_period as i64,
        verdict_number(explanation.verdict) as i64,
    ];
    vetchnoon_codes::put_all(out, &numbers)
}

// Why two spellings, typed as texts, are one key or two: nine numbers (1, 2, 3, 4, 18, of the first text and of the second 23, then 21,
// then 10).
#[unsafe(no_mangle)]
#[tactic(auto, using(crate::proofs::Distances::apart_small))]
pub extern "C" fn vn_explain(
    chain: u16,
    octave: u16,
    tritave: u16,
    start: u16,
    first: &[u8],
    second: &[u8],
    out: &mut [i64],
) -> i64
    ensures { Fills (as_signed explanation_numbers (get_explanation (layout chain octave tritave start) first.now second.now)) result out.old out.new }
{
    let layout = parts::layout_of(chain, octave, tritave, start);
    match layout_explaining::explain(layout, first, second) {
        Err(question) => vetchnoon_codes::refused(question),
        Ok(explanation) => put_explanation(out, explanation),
    }
}

// How many bytes the sentences have (1, 2, 3, 4, 18, of the first text and of the second 23, then 21).
#[unsafe(no_mangle)]
#[tactic(auto, using(crate::proofs::Distances::words_small))]
pub extern "C" fn vn_explain_text_len(
    chain: u16,
    octave: u16,
    tritave: u16,
    start: u16,
    first: &[u8],
    second: &[u8],
) -> i64
    ensures { result ≡ code_of (counted (get_explanation_text (layout chain octave tritave start) first.now second.now)) }
{
    let layout = parts::layout_of(chain, octave, tritave, start);
    vetchnoon_codes::count(layout_explaining::explain_text_len(layout, first, second))
}

// The same in three sentences, as a class reads them (1, 2, 3, 4, 18, of the first text and of the second 23, then 21, then 10).
#[unsafe(no_mangle)]
pub extern "C" fn vn_explain_text(
    chain: u16,
    octave: u16,
    tritave: u16,
    start: u16,
    first: &[u8],
    second: &[u8],
    out: &mut [u8],
) -> i64
    ensures { Fills (get_explanation_text (layout chain octave tritave start) first.now second.now) result out.old out.new }
{
    let layout = parts::layout_of(chain, octave, tritave, start);
    vetchnoon_codes::count(layout_explaining::explain_text(layout, first, second, out))
}
