// The layer of a key: parts, and no entry points. Callers hand in the prepared layout.
//
// Five numbers tell the sizes of all layers, and the layer at a place of the chain follows from them by a few comparisons and one division:
// nothing is walked, and nothing kept from key to key.
ghost use Rattle.std.specs.Prelude.{◌≡◌, ◌+◌, ◌*◌, ◌/◌, ◌%◌, ◌<◌, ◌≤◌, length};
ghost use Rattle.mos_layers.specs.Layers.{all_sizes, drop_empty};
ghost use Rattle.pergen.specs.Parts.{At};
ghost use Rattle.layout.specs.Parts.{layout_in};
ghost use Rattle.layout_layers.specs.KeyLayers.{equalized, alternating, entry_count, layer_in, number_in, count_in};
ghost use Rattle.layout_layers.specs.Parts.{sharp_places, sizes_in, Countable, SizesOf, layer_at, alternate_in};

use layout::prepared::Prepared;
use mos::Mos;
use mos_layers::parts::divided;
use pergen::stepping::Key;

// The sizes of the layers of one cycle. Natural and full sharp layers have all letters, as many as `full` says; as many sharp ones as
// `partial` says have the count that is left over, `rest`. The flat layers are the sharp ones in reverse. All together have as many places as
// the chain, so that the enharmonic layer has those that the others leave; there is none where they leave none. `Countable` is asked, and no
// ghost field: the law that gives it counts sizes first, so a field would want a second record of the same five numbers in its proof.
#[derive(Clone, Copy)]
pub(crate) struct Sizes {
    pub letters: u16,
    pub full: u16,
    pub rest: u16,
    pub partial: u16,
    pub places: u16,
}

// The sizes for a steps of x and b steps of y: every second note of a step is natural or sharp, and the count of the longer one is left over.
fn sizes_by(a: u16, b: u16, x: u16, y: u16, places: u16) -> Sizes
    requires { (0 < a) × (0 < b) × (0 < x) × (0 < y) × (a * x + b * y ≡ places) }
    ensures { Countable result × (sizes_in result ≡ all_sizes a b x y) × (result.places ≡ places) }
{
    let letters = a + b;
    let first = (x + 1) / 2;
    let second = (y + 1) / 2;
    if first < second {
        return Sizes {
            letters,
            full: first,
            rest: b,
            partial: second - first,
            places,
        };
    }
    Sizes {
        letters,
        full: second,
        rest: a,
        partial: first - second,
        places,
    }
}

// The sizes of a layout's layers.
pub(crate) fn sizes_of(prepared: Prepared) -> Sizes
    ensures { SizesOf (layout_in prepared) result }
{
    let pattern = prepared.found.pattern;
    let solved = prepared.solved;
    let x = divided(pattern.primary_step, solved.num_cycles);
    let y = divided(pattern.secondary_step, solved.num_cycles);
    sizes_by(
        pattern.num_primary_steps,
        pattern.num_secondary_steps,
        x,
        y,
        solved.reduced_period,
    )
}

// How many places are natural or sharp.
fn sharp_places(sizes: Sizes) -> u16
    requires { Countable sizes }
    ensures { result ≡ sharp_places sizes }
{
    sizes.letters * sizes.full + sizes.rest * sizes.partial
}

// How many layers there are: as many flat ones as sharp ones, the natural one, and the enharmonic one where places are left for it.
fn count_of(sizes: Sizes) -> u16
    requires { Countable sizes }
    ensures { result ≡ length (drop_empty (sizes_in sizes)) }
{
    let layers = sizes.full + sizes.partial;
    let sharp = sharp_places(sizes);
    if sizes.places - sharp == sharp - sizes.letters {
        return layers + (layers - 1);
    }
    layers + layers
}

// The layer at a natural or a sharp place.
fn sharp_layer(sizes: Sizes, place: u16) -> u16
    requires { Countable sizes × (place < sharp_places sizes) }
    ensures { result ≡ layer_at sizes place }
{
    let whole = sizes.letters * sizes.full;
    if place < whole {
        return place / sizes.letters;
    }
    sizes.full + (place - whole) / sizes.rest
}

// The layer at a place of the chain. A flat place mirrors a sharp one: as many places as are behind it are between the sharp one and the
// natural layer, and as many layers.
fn layer_at(sizes: Sizes, place: u16) -> u16
    requires { Countable sizes × (place < sizes.places) }
    ensures { result ≡ layer_at sizes place }
{
    let sharp = sharp_places(sizes);
    let behind = sizes.places - 1 - place;
    if behind < sharp - sizes.letters {
        return count_of(sizes) - sharp_layer(sizes, behind + sizes.letters);
    }
    if place < sharp {
        return sharp_layer(sizes, place);
    }
    sizes.full + sizes.partial
}

// The place on the chain that a degree has, `start` places behind the first letter.
pub(crate) fn chain_place(start: u16, degree: u16, reduced_period: u16) -> u16
    requires { (start < reduced_period) × (degree < reduced_period) }
    ensures { result ≡ (start + degree) % reduced_period }
{
    let left = reduced_period - start;
    if degree < left {
        return degree + start;
    }
    degree - left
}

// Has the layout an equalized scale, whose two layers alternate?
pub(crate) fn is_equalized(pattern: Mos) -> bool
    ensures { result ≡ equalized pattern }
{
    pattern.primary_step == pattern.secondary_step
}

// h: how many groups key 0's letter lies above the chain's first letter, not brought round the octave.
pub(crate) fn offset_of(generator: u16, start: u16, cycles: u16) -> u32
    requires { (0 < cycles) × (start ≤ 8) }
    ensures { (result ≡ generator * start / cycles) × (result ≤ 524280) }
{
    let product = (generator as u32) * (start as u32);
    if cycles == 1 {
        return product;
    }
    product / (cycles as u32)
}

// Which of two layers a group has, in an equalized scale.
pub(crate) fn alternate(letters: u16, secondaries: u16, offset: u32, group: u32) -> u16
    requires { (0 < letters) × (secondaries ≤ 9) × (offset ≤ 524280) × (group ≤ 131070) }
    ensures { result ≡ alternating letters secondaries offset group }
{
    let steps = secondaries as u32;
    let whole = letters as u32;
    let here = offset * steps / whole % 2;
    let there = (group + offset) * steps / whole % 2;
    if here == there {
        return 0;
    }
    1
}

// The layer of a group of keys, one of each cycle, in an equalized scale.
pub(crate) fn alternate_layer(prepared: Prepared, group: u32) -> u16
    requires { group ≤ 131070 }
    ensures { result ≡ alternate_in (layout_in prepared) group }
{
    let found = prepared.found;
    let offset = offset_of(found.generator, found.start, prepared.solved.num_cycles);
    alternate(
        found.num_letters,
        found.pattern.num_secondary_steps,
        offset,
        group,
    )
}

// The layer of a key among those of its own cycle.
fn layer_of(prepared: Prepared, key: Key) -> u16
    requires { At prepared.solved key × (key.number ≤ 131070) }
    ensures { result ≡ layer_in (layout_in prepared) key.number }
{
    let solved = prepared.solved;
    if is_equalized(prepared.found.pattern) {
        return alternate_layer(prepared, key.number / (solved.num_cycles as u32));
    }
    let place = chain_place(prepared.found.start, key.degree, solved.reduced_period);
    layer_at(sizes_of(prepared), place)
}

// The layer number of a key.
pub fn number_of(prepared: Prepared, key: Key) -> u16
    requires { At prepared.solved key × (key.number ≤ 131070) }
    ensures { result ≡ number_in (layout_in prepared) key.number }
{
    layer_of(prepared, key) * prepared.solved.num_cycles + key.cycle
}

// How many layer numbers there are.
pub fn total_of(prepared: Prepared) -> u16
    ensures { result ≡ count_in (layout_in prepared) }
{
    let num_cycles = prepared.solved.num_cycles;
    if is_equalized(prepared.found.pattern) {
        return 2 * num_cycles;
    }
    count_of(sizes_of(prepared)) * num_cycles
}

// How many entries a layout's layers have: an octave's keys, or two where the scale is equalized.
pub fn entry_count(octave: u16, pattern: Mos) -> u32
    ensures { (result ≡ entry_count octave pattern) × (result ≤ 131070) }
{
    let keys = octave as u32;
    if is_equalized(pattern) {
        return 2 * keys;
    }
    keys
}
