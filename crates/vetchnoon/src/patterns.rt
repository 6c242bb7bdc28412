// Step patterns (document 01, "Step patterns"): a pattern is its primary and secondary count, then its steps.
ghost use Rattle.mos_layers.specs.Layers.{layers_of};
ghost use Rattle.mos.specs.Answers.{of_pattern, coprime_outcome};
ghost use Rattle.mos.specs.Patterns.{mos, child_of, parent_of, key_at};
ghost use Rattle.mos.specs.Walks.{children, parents, genesis_of, fields, listed};
ghost use Rattle.vetchnoon_codes.specs.Codes.{Fills, FillsOne};
ghost use Rattle.vetchnoon_codes.specs.Numbers.{as_numbers, walk_numbers};
ghost use Rattle.vetchnoon.specs.Written.{find_output};

use crate::parts;
use mos::Mos;

// The child, or nothing (7, 10).
#[unsafe(no_mangle)]
pub extern "C" fn vn_mos_child(
    primary_count: u16,
    secondary_count: u16,
    primary_step: u16,
    secondary_step: u16,
    out: &mut [u16],
) -> i64
    ensures { Fills (as_numbers walk_numbers (of_pattern (mos primary_count secondary_count primary_step secondary_step) (child_of (mos primary_count secondary_count primary_step secondary_step)))) result out.old out.new }
{
    let mos = parts::mos_of(primary_count, secondary_count, primary_step, secondary_step);
    vetchnoon_codes::fill(out, mos.child())
}

// The parent, or nothing (7, 10).
#[unsafe(no_mangle)]
pub extern "C" fn vn_mos_parent(
    primary_count: u16,
    secondary_count: u16,
    primary_step: u16,
    secondary_step: u16,
    out: &mut [u16],
) -> i64
    ensures { Fills (as_numbers walk_numbers (of_pattern (mos primary_count secondary_count primary_step secondary_step) (parent_of (mos primary_count secondary_count primary_step secondary_step)))) result out.old out.new }
{
    let mos = parts::mos_of(primary_count, secondary_count, primary_step, secondary_step);
    vetchnoon_codes::fill(out, mos.parent())
}

// The pattern that the walk of parents ends with (7, 10).
#[unsafe(no_mangle)]
pub extern "C" fn vn_mos_genesis(
    primary_count: u16,
    secondary_count: u16,
    primary_step: u16,
    secondary_step: u16,
    out: &mut [u16],
) -> i64
    ensures { Fills (as_numbers fields (of_pattern (mos primary_count secondary_count primary_step secondary_step) (genesis_of (mos primary_count secondary_count primary_step secondary_step)))) result out.old out.new }
{
    let mos = parts::mos_of(primary_count, secondary_count, primary_step, secondary_step);
    vetchnoon_codes::fill(out, mos_walks::genesis(mos))
}

// The pattern with a secondary step close by that reaches every key (7, 8, 10).
#[unsafe(no_mangle)]
pub extern "C" fn vn_mos_coprime(
    primary_count: u16,
    secondary_count: u16,
    primary_step: u16,
    secondary_step: u16,
    out: &mut [u16],
) -> i64
    ensures { Fills (as_numbers fields (coprime_outcome (mos primary_count secondary_count primary_step secondary_step))) result out.old out.new }
{
    let mos = parts::mos_of(primary_count, secondary_count, primary_step, secondary_step);
    vetchnoon_codes::fill(out, mos.coprime())
}

// The first pattern with so many steps on the walk from a genesis, or nothing (2, 10).
#[unsafe(no_mangle)]
#[tactic(auto, using(crate::proofs::Outputs::find_refused, crate::proofs::Outputs::find_given))]
pub extern "C" fn vn_mos_find(period: u16, generator: u16, steps: u16, out: &mut [u16]) -> i64
    ensures { Fills (find_output period generator steps) result out.old out.new }
{
    match Mos::new_genesis(period, generator) {
        Err(question) => vetchnoon_codes::refused(question),
        Ok(genesis) => vetchnoon_codes::fill(out, mos_walks::find_child(genesis, steps as u32)),
    }
}

// The whole walk of children, four numbers a pattern (7, 10).
#[unsafe(no_mangle)]
#[tactic(auto, using(crate::proofs::Outputs::listing_in_room))]
pub extern "C" fn vn_mos_children(
    primary_count: u16,
    secondary_count: u16,
    primary_step: u16,
    secondary_step: u16,
    out: &mut [u16],
) -> i64
    ensures { Fills (of_pattern (mos primary_count secondary_count primary_step secondary_step) (listed (children (mos primary_count secondary_count primary_step secondary_step)))) result out.old out.new }
{
    let mos = parts::mos_of(primary_count, secondary_count, primary_step, secondary_step);
    vetchnoon_codes::count(mos_listings::children(mos, out))
}

// The whole walk of parents, four numbers a pattern (7, 10).
#[unsafe(no_mangle)]
#[tactic(auto, using(crate::proofs::Outputs::listing_in_room))]
pub extern "C" fn vn_mos_parents(
    primary_count: u16,
    secondary_count: u16,
    primary_step: u16,
    secondary_step: u16,
    out: &mut [u16],
) -> i64
    ensures { Fills (of_pattern (mos primary_count secondary_count primary_step secondary_step) (listed (parents (mos primary_count secondary_count primary_step secondary_step)))) result out.old out.new }
{
    let mos = parts::mos_of(primary_count, secondary_count, primary_step, secondary_step);
    vetchnoon_codes::count(mos_listings::parents(mos, out))
}

// Each layer's number as often as its size (7, 10).
#[unsafe(no_mangle)]
#[tactic(auto, using(crate::proofs::Outputs::layers_in_room))]
pub extern "C" fn vn_mos_layers(
    primary_count: u16,
    secondary_count: u16,
    primary_step: u16,
    secondary_step: u16,
    out: &mut [u16],
) -> i64
    ensures { Fills (of_pattern (mos primary_count secondary_count primary_step secondary_step) (layers_of (mos primary_count secondary_count primary_step secondary_step))) result out.old out.new }
{
    let mos = parts::mos_of(primary_count, secondary_count, primary_step, secondary_step);
    vetchnoon_codes::count(mos_layers::get_layers(mos, out))
}

// The key at a place of the keyboard, p primary and s secondary steps from the origin (7, 10).
#[unsafe(no_mangle)]
pub extern "C" fn vn_mos_key(
    primary_count: u16,
    secondary_count: u16,
    primary_step: u16,
    secondary_step: u16,
    p: i16,
    s: i16,
    out: &mut [i64],
) -> i64
    ensures { FillsOne (of_pattern (mos primary_count secondary_count primary_step secondary_step) (key_at (mos primary_count secondary_count primary_step secondary_step) p s)) result out.old out.new }
{
    let mos = parts::mos_of(primary_count, secondary_count, primary_step, secondary_step);
    match mos.get_key(p, s) {
        Err(question) => vetchnoon_codes::refused(question),
        Ok(key) => vetchnoon_codes::put_all(out, &[key]),
    }
}
