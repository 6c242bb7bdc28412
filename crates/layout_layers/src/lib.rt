// Layers of a layout's keys, after `IsomorphicLayout::get_layers` and `Layer` in src/layout.rs of the original.
//
// Holds the layer number of each key, how many numbers there are, and what a number means: natural, sharp, enharmonic or
// flat (document 01, "Step patterns", the last paragraph). A player colours the keys by them.
// specs/: KeyLayers defines, LampCodes too, Answers says what each call answers, Theorems and Examples state what holds.
// `parts` holds the plan that whole-octave work goes by, `chain` the walk that it goes along.
// Every entry point answers every input. Nothing is assumed.
#![tactic(auto)]

pub mod chain;
pub mod keys;
pub mod parts;
pub mod plan;

ghost use Rattle.std.specs.Prelude.{◌≡◌, length};
ghost use Rattle.answer.specs.Refusals.{outcome_of};
ghost use Rattle.answer.specs.Lent.{in_room, counted, Filled};
ghost use Rattle.layout_layers.specs.KeyLayers.{kind_of};
ghost use Rattle.layout_layers.specs.Answers.{get_layers, get_layer_count, get_layer};

use answer::Refusal;
use layout::{IsomorphicLayout, prepared};
use pergen::stepping;

// What a layer's number means; sharp, enharmonic and flat layers are counted from 0.
#[derive(Clone, Copy)]
pub enum Layer {
    Natural,
    Sharp(u16),
    Enharmonic(u16),
    Flat(u16),
}

// The layer number of each key of an octave, of two octaves where the scale is equalized (1, 2, 3, 4, 18, 10).
pub fn get_layers(layout: IsomorphicLayout, out: &mut [u16]) -> Result<usize, Refusal>
    ensures { Filled (in_room (length out.old) (get_layers layout)) (outcome_of result) out.old out.new }
{
    let found = layout::parts::ask(layout)?;
    parts::write_layers(parts::plan_of(found), out)
}

// How many numbers `get_layers` writes (1, 2, 3, 4, 18).
pub fn layers_len(layout: IsomorphicLayout) -> Result<usize, Refusal>
    ensures { outcome_of result ≡ counted (get_layers layout) }
{
    let found = layout::parts::ask(layout)?;
    let plan = parts::plan_of(found);
    Ok(parts::entries(plan.equalized, plan.chain))
}

// How many layer numbers there are, from 0 on (1, 2, 3, 4, 18).
pub fn layer_count(layout: IsomorphicLayout) -> Result<u16, Refusal>
    ensures { outcome_of result ≡ get_layer_count layout }
{
    let found = layout::parts::ask(layout)?;
    Ok(parts::total_of(parts::plan_of(found)))
}

// The layer number of one key, whatever its octave, below 0 too: what `get_layers` writes repeats (1, 2, 3, 4, 18).
pub fn get_layer(layout: IsomorphicLayout, key: i32) -> Result<u16, Refusal>
    ensures { outcome_of result ≡ get_layer layout key }
{
    let found = layout::parts::ask(layout)?;
    let prepared = prepared::prepare(found);
    let count = keys::entry_count(prepared.found.octave, prepared.found.pattern);
    let entry = math::parts::rem_u32(key, count);
    let asked = stepping::key_at(prepared.solved, entry);
    Ok(keys::number_of(prepared, asked))
}

// What a layer's number means, of as many as `total` says.
pub fn kind(total: u16, number: u16) -> Layer
    ensures { result ≡ kind_of total number }
{
    if number == 0 {
        return Layer::Natural;
    }
    let doubled = 2 * (number as u32);
    let whole = total as u32;
    if doubled < whole {
        return Layer::Sharp(number - 1);
    }
    if doubled == whole {
        return Layer::Enharmonic(number - 1);
    }
    if number < total {
        return Layer::Flat(total - number - 1);
    }
    Layer::Flat(0)
}
