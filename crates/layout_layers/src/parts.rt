// The plan of a layout's layers, and all entries by it: parts, and no entry points. Callers have asked question 10 before they write.
//
// The keys of a scale degree have one layer, and their numbers follow each other. Entries are written along the chain, layer by layer;
// an equalized scale, whose layers alternate, is written degree by degree.
ghost use Rattle.std.specs.Prelude.{◌≡◌, true, false, ◌+◌, ◌*◌, ◌/◌, ◌%◌, ◌<◌, ◌≤◌, ltb, length, replicate};
ghost use Rattle.answer.specs.Refusals.{outcome_of};
ghost use Rattle.answer.specs.Choice.{pick};
ghost use Rattle.answer.specs.Lent.{held_in, Filled};
ghost use Rattle.mos_layers.specs.Parts.{run_sizes};
ghost use Rattle.mos_layers.specs.Theorems.{sum};
ghost use Rattle.mos_layers.specs.Layers.{drop_empty};
ghost use Rattle.layout.specs.Layouts.{cycles_in};
ghost use Rattle.layout.specs.Parts.{layout_of};
ghost use Rattle.layout_layers.specs.LampCodes.{code_of};
ghost use Rattle.layout_layers.specs.Kept.{inverse_of, keys_of};
ghost use Rattle.layout_layers.specs.Parts.{Spread, InTurn, InTurns, Walk, Ahead, run_layer, run_number, listed_number, total_of, PlanOf, turn_layer, plan_number, turns_on, Fronted, plan_layers, plan_entries, shown_as, limit, Held};

use crate::chain;
use crate::chain::{Chain, Spot};
use crate::keys::{alternate, is_equalized, offset_of};
use crate::plan::Plan;
use answer::Refusal;
use layout::parts::Found;
use mos_layers::parts::divided;

// The plan of an accepted layout with so many cycles.
pub fn plan_with(found: Found, num_cycles: u16) -> Plan
    requires { num_cycles ≡ cycles_in (layout_of found) }
    ensures { PlanOf (layout_of found) result }
{
    let pattern = found.pattern;
    let runs = mos_layers::parts::runs_over(pattern, num_cycles);
    let reduced_period = divided(found.octave, num_cycles);
    let step = layout::parts::within_octave(found.octave, found.generator);
    let advance = divided(step, num_cycles);
    let offset = offset_of(found.generator, found.start, num_cycles);
    Plan {
        chain: Chain {
            num_cycles,
            reduced_period,
            advance,
            start: found.start,
        },
        runs,
        offset,
        letters: found.num_letters,
        secondaries: pattern.num_secondary_steps,
        equalized: is_equalized(pattern),
    }
}

// The plan of an accepted layout. The divisor of its pattern's steps is the number of cycles.
pub fn plan_of(found: Found) -> Plan
    ensures { PlanOf (layout_of found) result }
{
    let num_cycles = math::gcd_u16(found.pattern.primary_step, found.pattern.secondary_step);
    plan_with(found, num_cycles)
}

// How many layers a run has; none where they are empty.
pub fn layers_in(size: u16, times: u16) -> u16
    ensures { result ≡ length (drop_empty (replicate times size)) }
{
    if 0 < size {
        return times;
    }
    0
}

// How many numbers there are.
pub fn total_of(plan: Plan) -> u16
    ensures { result ≡ total_of plan }
{
    let chain = plan.chain;
    if plan.equalized {
        return 2 * chain.num_cycles;
    }
    let runs = plan.runs;
    (mos_layers::parts::count_sizes(runs) * (chain.num_cycles as u32)) as u16
}

// How many scale degrees the entries have.
pub fn turns_of(equalized: bool, chain: Chain) -> u32
    ensures { (result ≡ turns_on equalized chain) × (result ≤ 131070) }
{
    if equalized {
        return 2 * (chain.reduced_period as u32);
    }
    chain.reduced_period as u32
}

// How many entries there are.
pub fn entries(equalized: bool, chain: Chain) -> usize
    ensures { result ≡ turns_on equalized chain * chain.num_cycles }
{
    (turns_of(equalized, chain) as usize) * (chain.num_cycles as usize)
}

// The code of a number below or above the half of all, which has `left` behind it: sharp layers go up by even codes, flat ones down by odd
// codes. Which side a key is on is as good as chance, so one comparison chooses between the two.
fn side_code(number: u16, left: u16) -> u16
    requires { (number + left ≤ 65535) × (number ≡ left → ⊥) }
    ensures { result ≡ pick (ltb number left) (2 * number) (2 * left + 1) }
{
    if number < left {
        return 2 * number;
    }
    2 * left + 1
}

// The lamp code of a layer's number, of as many as `total` says. It is no `From<Layer>`: that would owe a code for every layer, and 16 bits
// do not hold that of sharp layer 32,767.
pub fn code(total: u16, number: u16) -> u16
    requires { number < total }
    ensures { result ≡ code_of total number }
{
    if number == 0 {
        return 1;
    }
    let left = total - number;
    if number == left {
        return 65535;
    }
    side_code(number, left)
}

// What is written for a number: its code where `total` says of how many, and else the number itself.
fn shown(total: Option<u16>, number: u16) -> u16
    requires { number < limit total }
    ensures { result ≡ shown_as total number }
{
    match total {
        Some(count) => code(count, number),
        None => number,
    }
}

// The entries of one scale degree, one for each cycle: numbers, or codes where there is a `total`; so all writers below. The number is
// carried, so that many codes are computed side by side.
fn put_turn(out: &mut [u16], cycles: u16, turn: u32, layer: u16, total: Option<u16>)
    requires { (0 < cycles) × (turn * cycles + cycles ≤ length out.old) × Held total (layer * cycles + cycles) }
    ensures { Spread (InTurn cycles turn) (λ i. shown_as total (layer * cycles + i % cycles)) out.old out.new }
{
    let at = (turn as usize) * (cycles as usize);
    let mut number = layer * cycles;
    for c in 0..cycles {
        out[at + (c as usize)] = shown(total, number);
        number += 1;
    }
}

// One layer where there is one cycle: one entry, at as many places of the chain as the layer's size says.
fn put_single(out: &mut [u16], chain: Chain, from: Spot, size: u16, entry: u16) -> Spot
    requires { (chain.num_cycles ≡ 1) × Ahead chain from size out.old }
    ensures { Walk chain from result size (λ i. entry) out.old out.new }
{
    let mut spot = from;
    for _ in 0..size {
        out[spot.turn as usize] = entry;
        spot = chain::next_spot(chain, spot);
    }
    spot
}

// One layer: its entries, at as many places of the chain as its size says.
fn put_layer(
    out: &mut [u16],
    chain: Chain,
    from: Spot,
    size: u16,
    layer: u16,
    total: Option<u16>,
) -> Spot
    requires { Ahead chain from size out.old × Held total (layer * chain.num_cycles + chain.num_cycles) }
    ensures { Walk chain from result size (λ i. shown_as total (layer * chain.num_cycles + i % chain.num_cycles)) out.old out.new }
{
    if chain.num_cycles == 1 {
        let entry = shown(total, layer);
        return put_single(out, chain, from, size, entry);
    }
    let mut spot = from;
    for _ in 0..size {
        put_turn(out, chain.num_cycles, spot.turn, layer, total);
        spot = chain::next_spot(chain, spot);
    }
    spot
}

// A run: as many layers of one size as `times` says, numbered from `first` on; none where they are empty.
fn put_run(
    out: &mut [u16],
    chain: Chain,
    from: Spot,
    size: u16,
    times: u16,
    first: u16,
    total: Option<u16>,
) -> Spot
    requires { Ahead chain from (times * size) out.old × Held total ((first + length (drop_empty (replicate times size))) * chain.num_cycles) }
    ensures { Walk chain from result (times * size) (λ i. shown_as total (run_number chain from.place size first i)) out.old out.new }
{
    if size == 0 {
        return from;
    }
    let mut spot = from;
    for k in 0..times {
        spot = put_layer(out, chain, spot, size, first + k, total);
    }
    spot
}

// All entries, along the chain. The plan's numbers are read one by one: they were stored so, and a copy of them all at once would wait for
// each of those stores.
fn put_chain(out: &mut [u16], plan: Plan, total: Option<u16>)
    requires { (total_of plan ≤ limit total) × (plan.equalized ≡ false) × (keys_of plan.chain ≤ length out.old) }
    ensures { Spread (InTurns plan.chain.num_cycles plan.chain.reduced_period) (λ i. shown_as total (listed_number plan.runs plan.chain i)) out.old out.new }
{
    let runs = plan.runs;
    let sizes = runs.sizes;
    let times = runs.times;
    let chain = Chain {
        num_cycles: plan.chain.num_cycles,
        reduced_period: plan.chain.reduced_period,
        advance: plan.chain.advance,
        start: plan.chain.start,
    };
    let mut spot = chain::first_spot(chain);
    let mut first: u16 = 0;
    for i in 0..8 {
        let size = sizes[i];
        let count = times[i];
        spot = put_run(out, chain, spot, size, count, first, total);
        first += layers_in(size, count);
    }
}

// The entries of the first scale degrees of an equalized scale.
fn put_alternating(out: &mut [u16], plan: Plan, turns: u32, total: Option<u16>)
    requires { (total_of plan ≤ limit total) × (plan.equalized ≡ true) × (turns ≤ 131070) × (turns * plan.chain.num_cycles ≤ length out.old) }
    ensures { Spread (InTurns plan.chain.num_cycles turns) (λ i. shown_as total (plan_number plan i)) out.old out.new }
{
    let chain = plan.chain;
    for turn in 0..turns {
        let layer = alternate(plan.letters, plan.secondaries, plan.offset, turn);
        put_turn(out, chain.num_cycles, turn, layer, total);
    }
}

// All entries at the front of a slice that is known to hold them.
pub fn put_entries(out: &mut [u16], plan: Plan, total: Option<u16>)
    requires { (total_of plan ≤ limit total) × (length (plan_layers plan) ≤ length out.old) }
    ensures { Fronted (plan_entries plan total) out.old out.new }
{
    if plan.equalized {
        put_alternating(out, plan, turns_of(plan.equalized, plan.chain), total);
        return;
    }
    put_chain(out, plan, total);
}

// The numbers of all entries at the front of a slice that holds them (10).
pub(crate) fn write_layers(plan: Plan, out: &mut [u16]) -> Result<usize, Refusal>
    ensures { Filled (held_in (length out.old) (plan_layers plan)) (outcome_of result) out.old out.new }
{
    let count = entries(plan.equalized, plan.chain);
    if out.len() < count {
        return Err(Refusal::Room);
    }
    put_entries(out, plan, None);
    Ok(count)
}
