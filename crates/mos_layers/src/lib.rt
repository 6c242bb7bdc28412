// Layers of a step pattern: which notes are natural, sharp, enharmonic and flat, after `Mos::get_layers` of src/pergen.rs
// of the original.
//
// Holds the layer sizes and the list of layer numbers, in the order of the chain (document 01, "Step patterns"); `parts` holds
// the runs that they are written by. Counts that no layer uses are never added.
// Every entry point answers any four numbers; what is no pattern is refused (7), and so is a slice that is too short (10).
// specs/: Layers defines, Answers says what each call answers, Theorems and Examples state what holds. Nothing is assumed.
#![tactic(auto)]

pub mod parts;

ghost use Rattle.std.specs.Prelude.{◌≡◌, length};
ghost use Rattle.answer.specs.Refusals.{outcome_of};
ghost use Rattle.answer.specs.Lent.{Filled};
ghost use Rattle.mos.specs.Answers.{of_pattern};
ghost use Rattle.mos_layers.specs.Layers.{layer_sizes, layers_of};
ghost use Rattle.mos_layers.specs.Answers.{layer_sizes_outcome, layers_outcome};

use answer::Refusal;
use mos::Mos;
use mos::pattern::Pattern;

// The layers as eight runs of layers of one size: how large they are, and how many. Two arrays and no array of pairs: `run_at` and
// `run_sizes`, on which the theorems rest, go by these fields.
#[derive(Clone, Copy)]
pub struct Runs {
    pub sizes: [u16; 8],
    pub times: [u16; 8],
}

// The next place of the list of layers, and the next layer's number.
#[derive(Clone, Copy)]
pub struct Cursor {
    pub at: usize,
    pub number: u16,
}

// The size of each layer, in the order of the chain: natural, sharp, enharmonic, flat (7, 10).
pub fn layer_sizes(mos: Mos, out: &mut [u16]) -> Result<usize, Refusal>
    ensures { Filled (layer_sizes_outcome mos (length out.old)) (outcome_of result) out.old out.new }
{
    let pattern = Pattern::of(mos)?;
    let runs = parts::runs_in(pattern);
    let len = parts::count_sizes(runs) as usize;
    if out.len() < len {
        return Err(Refusal::Room);
    }
    parts::put_all_sizes(out, runs);
    Ok(len)
}

// How many numbers `layer_sizes` writes (7).
pub fn layer_sizes_len(mos: Mos) -> Result<usize, Refusal>
    ensures { outcome_of result ≡ of_pattern mos (length (layer_sizes mos)) }
{
    let pattern = Pattern::of(mos)?;
    Ok(parts::count_sizes(parts::runs_in(pattern)) as usize)
}

// Each layer's number as often as its size: the layer of each note of the chain, as many as `Mos::reduced_size` says (7, 10).
pub fn get_layers(mos: Mos, out: &mut [u16]) -> Result<usize, Refusal>
    ensures { Filled (layers_outcome mos (length out.old)) (outcome_of result) out.old out.new }
{
    let pattern = Pattern::of(mos)?;
    let cycles = pattern.num_cycles();
    let len = (pattern.size() / cycles) as usize;
    if out.len() < len {
        return Err(Refusal::Room);
    }
    parts::put_all_layers(out, parts::runs_over(pattern.mos, cycles));
    Ok(len)
}
