// How a chain is served, and how layouts are written: parts, and no entry points. Callers have asked question 15, and what a `requires`
// names.
ghost use Rattle.std.specs.Prelude.{◌≡◌, ◌+◌, ◌≤◌, length};
ghost use Rattle.answer.specs.Lent.{held_in, Filled};
ghost use Rattle.answer.specs.Refusals.{outcome_of};
ghost use Rattle.text.specs.Writing.{Room, Wrote, joined};
ghost use Rattle.edo_layouts.specs.Layouts.{tried, chain_served, numbers_of};
ghost use Rattle.edo_layouts.specs.Parts.{chain_numbers};

use crate::EdoLayout;
use answer::Refusal;
use edo_tritaves::Choices;

// The layout that one tritave gives (1, 2, 3, 4).
fn try_tritave(n: u16, genchain: u16, tritave: u16, second: bool) -> Result<EdoLayout, Refusal>
    ensures { outcome_of result ≡ tried n genchain tritave second }
{
    let layout = layout::default_layout(genchain, n, tritave);
    let found = layout::parts::ask(layout)?;
    let pattern = found.pattern;
    Ok(EdoLayout {
        layout,
        second,
        pattern,
    })
}

// A chain's layout: the first choice, and the second where there is one and the first gives none.
pub fn serve(n: u16, genchain: u16, choices: Choices) -> Result<EdoLayout, Refusal>
    ensures { outcome_of result ≡ chain_served n genchain choices }
{
    match try_tritave(n, genchain, choices.first, false) {
        Ok(found) => Ok(found),
        Err(refusal) => match choices.second {
            None => Err(refusal),
            Some(second) => try_tritave(n, genchain, second, true).or(Err(refusal)),
        },
    }
}

// Three numbers at a place; the place after them.
fn put_three(out: &mut [u16], at: usize, found: EdoLayout) -> usize
    requires { Room out.old at (numbers_of found) }
    ensures { Wrote out.old at (numbers_of found) out.new result }
{
    out[at] = found.layout.genchain;
    out[at + 1] = found.layout.tritave;
    out[at + 2] = u16::from(found.second);
    at + 3
}

// The numbers of a chain's layout at a place, none where it has none; the place after them.
fn put_chain(out: &mut [u16], at: usize, n: u16, genchain: u16, choices: Choices) -> usize
    requires { at + 3 ≤ length out.old }
    ensures { Wrote out.old at (chain_numbers n choices genchain) out.new result }
{
    match serve(n, genchain, choices) {
        Err(_) => at,
        Ok(found) => put_three(out, at, found),
    }
}

// The numbers of all chains' layouts at the front; the place after them.
fn put_chains(out: &mut [u16], n: u16, choices: Choices) -> usize
    requires { 18 ≤ length out.old }
    ensures { Wrote out.old 0 (joined (chain_numbers n choices) 6) out.new result }
{
    let mut place: usize = 0;
    for genchain in 0..6 {
        place = put_chain(out, place, n, genchain, choices);
    }
    place
}

// Numbers at the front of a slice that holds them (10).
fn fill(out: &mut [u16], numbers: &[u16]) -> Result<usize, Refusal>
    ensures { Filled (held_in (length out.old) numbers.now) (outcome_of result) out.old out.new }
{
    let len = numbers.len();
    if out.len() < len {
        return Err(Refusal::Room);
    }
    out[..len].copy_from_slice(numbers);
    Ok(len)
}

// The numbers of all chains' layouts at the front of a slice that holds them (10). They are few, so they are made first and measured.
pub(crate) fn write_layouts(n: u16, choices: Choices, out: &mut [u16]) -> Result<usize, Refusal>
    ensures { Filled (held_in (length out.old) (joined (chain_numbers n choices) 6)) (outcome_of result) out.old out.new }
{
    let mut numbers = [0u16; 18];
    let count = put_chains(&mut numbers, n, choices);
    fill(out, &numbers[..count])
}
