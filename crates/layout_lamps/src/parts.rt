// How codes are found and a strip is written: parts, and no entry points. Callers have asked question 10 before they write.
ghost use Rattle.std.specs.Prelude.{◌≡◌, ◌*◌, ◌%◌, ◌≤◌, ◌<◌, eqb, length};
ghost use Rattle.answer.specs.Refusals.{outcome_of};
ghost use Rattle.answer.specs.Lent.{held_in, Filled};
ghost use Rattle.pergen.specs.Parts.{At};
ghost use Rattle.layout.specs.Parts.{layout_in};
ghost use Rattle.layout_layers.specs.KeyLayers.{count_in};
ghost use Rattle.layout_layers.specs.Parts.{total_of, Fronted, plan_layers};
ghost use Rattle.layout_lamps.specs.Lamps.{lamp_in};
ghost use Rattle.layout_lamps.specs.Parts.{plan_strip};

use answer::Refusal;
use layout::prepared::Prepared;
use layout_layers::plan::Plan;
use pergen::stepping::Key;

// Is a key whole octaves from key 0? It is one of two octaves.
fn is_home(octave: u16, number: u32) -> bool
    requires { (0 < octave) × (number < 2 * octave) }
    ensures { result ≡ eqb (number % octave) 0 }
{
    if number == 0 {
        return true;
    }
    number == octave as u32
}

// The lamp code of a key, of as many layers as `total` says: home, or the code of its layer.
pub fn lamp_of(prepared: Prepared, total: u16, key: Key) -> u16
    requires { (total ≡ count_in (layout_in prepared)) × At prepared.solved key × (key.number < 2 * prepared.found.octave) }
    ensures { result ≡ lamp_in (layout_in prepared) key.number }
{
    if is_home(prepared.found.octave, key.number) {
        return 0;
    }
    layout_layers::parts::code(total, layout_layers::keys::number_of(prepared, key))
}

// The strip at the front of a slice that is known to hold it: key 0 is home, and so is the octave where a second one follows.
fn put_strip(out: &mut [u16], plan: Plan)
    requires { length (plan_layers plan) ≤ length out.old }
    ensures { Fronted (plan_strip plan (total_of plan)) out.old out.new }
{
    let total = layout_layers::parts::total_of(plan);
    layout_layers::parts::put_entries(out, plan, Some(total));
    out[0] = 0;
    let chain = plan.chain;
    let keys = (chain.reduced_period as usize) * (chain.num_cycles as usize);
    if layout_layers::parts::entries(plan.equalized, chain) <= keys {
        return;
    }
    out[keys] = 0;
}

// The strip at the front of a slice that holds it (10).
pub(crate) fn write_strip(plan: Plan, out: &mut [u16]) -> Result<usize, Refusal>
    ensures { Filled (held_in (length out.old) (plan_strip plan (total_of plan))) (outcome_of result) out.old out.new }
{
    let count = layout_layers::parts::entries(plan.equalized, plan.chain);
    if out.len() < count {
        return Err(Refusal::Room);
    }
    put_strip(out, plan);
    Ok(count)
}
