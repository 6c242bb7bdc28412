// Layouts: a chain code, an octave, a tritave and a start; their numbers, names, spellings, layers and lamps.
ghost use Rattle.std.specs.Prelude.{◌≡◌};
ghost use Rattle.answer.specs.Lent.{counted};
ghost use Rattle.answer.specs.Outcome.{given};
ghost use Rattle.layout_lamps.specs.Answers.{get_strip, get_lamp};
ghost use Rattle.layout.specs.Answers.{get_accidentals, get_scale_name, get_note_name, get_sounded_key};
ghost use Rattle.layout_layers.specs.Answers.{get_layers, get_layer_count, get_layer};
ghost use Rattle.layout_layers.specs.KeyLayers.{kind_of};
ghost use Rattle.vetchnoon_codes.specs.Codes.{code_of, Fills};
ghost use Rattle.vetchnoon_codes.specs.Numbers.{as_numbers, accidentals_numbers};
ghost use Rattle.vetchnoon.specs.Written.{layout, layout_output, spelling, kind_numbers};

use crate::parts;
use layout_layers::Layer;
use pergen::{Signs, Spelling};

// Generator, cycles, reduced period, inverse, then the pattern's four numbers (1, 2, 3, 4, 18, 10).
#[unsafe(no_mangle)]
#[tactic(auto, using(crate::proofs::Outputs::layout_refused, crate::proofs::Outputs::layout_given))]
pub extern "C" fn vn_layout(
    chain: u16,
    octave: u16,
    tritave: u16,
    start: u16,
    out: &mut [u16],
) -> i64
    ensures { Fills (layout_output (layout chain octave tritave start)) result out.old out.new }
{
    let layout = parts::layout_of(chain, octave, tritave, start);
    match layout::parts::ask(layout) {
        Err(question) => vetchnoon_codes::refused(question),
        Ok(found) => {
            let prepared = layout::prepared::prepare(found);
            let solved = prepared.solved;
            let pattern = found.pattern;
            let numbers = [
                found.generator,
                solved.num_cycles,
                solved.reduced_period,
                solved.generator_inverse,
                pattern.num_primary_steps,
                pattern.num_secondary_steps,
                pattern.primary_step,
                pattern.secondary_step,
            ];
            vetchnoon_codes::put(out, &numbers)
        }
    }
}

// The scale's name (1, 2, 3, 4, 18, 10).
#[unsafe(no_mangle)]
pub extern "C" fn vn_scale_name(
    chain: u16,
    octave: u16,
    tritave: u16,
    start: u16,
    out: &mut [u8],
) -> i64
    ensures { Fills (get_scale_name (layout chain octave tritave start)) result out.old out.new }
{
    let layout = parts::layout_of(chain, octave, tritave, start);
    vetchnoon_codes::count(layout_scale_names::get_scale_name(layout, out))
}

// How many bytes a key's name has (1, 2, 3, 4, 18).
#[unsafe(no_mangle)]
#[tactic(auto, using(crate::proofs::Outputs::names_fit, vetchnoon_codes::proofs::Coding::small_counted))]
pub extern "C" fn vn_note_name_len(
    chain: u16,
    octave: u16,
    tritave: u16,
    start: u16,
    key: i32,
) -> i64
    ensures { result ≡ code_of (counted (get_note_name (layout chain octave tritave start) key)) }
{
    let layout = parts::layout_of(chain, octave, tritave, start);
    vetchnoon_codes::count(layout.note_name_len(key))
}

// A key's name (1, 2, 3, 4, 18, 10).
#[unsafe(no_mangle)]
pub extern "C" fn vn_note_name(
    chain: u16,
    octave: u16,
    tritave: u16,
    start: u16,
    key: i32,
    out: &mut [u8],
) -> i64
    ensures { Fills (get_note_name (layout chain octave tritave start) key) result out.old out.new }
{
    let layout = parts::layout_of(chain, octave, tritave, start);
    vetchnoon_codes::count(layout.get_note_name(key, out))
}

// A key's sharp index and count, flat index and count (1, 2, 3, 4, 18, 10).
#[unsafe(no_mangle)]
pub extern "C" fn vn_layout_accidentals(
    chain: u16,
    octave: u16,
    tritave: u16,
    start: u16,
    key: i32,
    out: &mut [u16],
) -> i64
    ensures { Fills (as_numbers accidentals_numbers (get_accidentals (layout chain octave tritave start) key)) result out.old out.new }
{
    let layout = parts::layout_of(chain, octave, tritave, start);
    vetchnoon_codes::fill(out, layout.get_accidentals(key))
}

// The key of the octave that a spelling sounds: a letter, signs (sharps above 0, flats below), stars (1, 2, 3, 4, 18, 16, 21).
#[unsafe(no_mangle)]
pub extern "C" fn vn_sounded_key(
    chain: u16,
    octave: u16,
    tritave: u16,
    start: u16,
    letter: u16,
    signs: i32,
    stars: u16,
) -> i64
    ensures { result ≡ code_of (get_sounded_key (layout chain octave tritave start) (spelling letter signs stars)) }
{
    let layout = parts::layout_of(chain, octave, tritave, start);
    let spelling = Spelling {
        index: letter,
        signs: Signs::from_number(signs),
        stars,
    };
    vetchnoon_codes::number(layout.get_sounded_key(spelling))
}

// How many layer numbers there are (1, 2, 3, 4, 18).
#[unsafe(no_mangle)]
pub extern "C" fn vn_layer_count(chain: u16, octave: u16, tritave: u16, start: u16) -> i64
    ensures { result ≡ code_of (get_layer_count (layout chain octave tritave start)) }
{
    let layout = parts::layout_of(chain, octave, tritave, start);
    vetchnoon_codes::number(layout_layers::layer_count(layout))
}

// The layer number of each key (1, 2, 3, 4, 18, 10).
#[unsafe(no_mangle)]
pub extern "C" fn vn_layout_layers(
    chain: u16,
    octave: u16,
    tritave: u16,
    start: u16,
    out: &mut [u16],
) -> i64
    ensures { Fills (get_layers (layout chain octave tritave start)) result out.old out.new }
{
    let layout = parts::layout_of(chain, octave, tritave, start);
    vetchnoon_codes::count(layout_layers::get_layers(layout, out))
}

// The layer number of one key (1, 2, 3, 4, 18).
#[unsafe(no_mangle)]
pub extern "C" fn vn_layer(chain: u16, octave: u16, tritave: u16, start: u16, key: i32) -> i64
    ensures { result ≡ code_of (get_layer (layout chain octave tritave start) key) }
{
    let layout = parts::layout_of(chain, octave, tritave, start);
    vetchnoon_codes::number(layout_layers::get_layer(layout, key))
}

// A kind of layer, by the numbers of VN_NATURAL, VN_SHARP, VN_ENHARMONIC and VN_FLAT, and which of its kind it is, from 0; 0 for the natural
// one.
fn numbers_of(layer: Layer) -> [u16; 2]
    ensures { result ≡ kind_numbers layer }
{
    match layer {
        Layer::Natural => [0, 0],
        Layer::Sharp(level) => [1, level],
        Layer::Enharmonic(level) => [2, level],
        Layer::Flat(level) => [3, level],
    }
}

// What a layer's number means, of as many as `total` says: its kind, and which of that kind (10).
#[unsafe(no_mangle)]
pub extern "C" fn vn_layer_kind(total: u16, number: u16, out: &mut [u16]) -> i64
    ensures { Fills (given (kind_numbers (kind_of total number))) result out.old out.new }
{
    vetchnoon_codes::put(out, &numbers_of(layout_layers::kind(total, number)))
}

// The lamp code of each key (1, 2, 3, 4, 18, 10).
#[unsafe(no_mangle)]
pub extern "C" fn vn_lamp_strip(
    chain: u16,
    octave: u16,
    tritave: u16,
    start: u16,
    out: &mut [u16],
) -> i64
    ensures { Fills (get_strip (layout chain octave tritave start)) result out.old out.new }
{
    let layout = parts::layout_of(chain, octave, tritave, start);
    vetchnoon_codes::count(layout_lamps::lamp_strip(layout, out))
}

// The lamp code of one key (1, 2, 3, 4, 18).
#[unsafe(no_mangle)]
pub extern "C" fn vn_lamp(chain: u16, octave: u16, tritave: u16, start: u16, key: i32) -> i64
    ensures { result ≡ code_of (get_lamp (layout chain octave tritave start) key) }
{
    let layout = parts::layout_of(chain, octave, tritave, start);
    vetchnoon_codes::number(layout_lamps::lamp(layout, key))
}
