// The board's moves: what a primary and a secondary step are in octaves and generators, for each pattern of a walk (document 02, W-214).
//
// Holds the moves of a period and a generator: at the genesis, of the k-th pattern of the walk of children, and of all of them in a
// listing beside that of `mos_listings`. A table has the primary row first, and in each row octaves before generators. It goes by value
// between the functions here; a caller lends one, beside an answer that holds the pattern, since an enum holds no array.
// specs/: Moves defines, Answers says what each call answers and what a lent table then holds, Theorems and Examples state what
// holds. Every entry point answers every input; `parts` asks for more, as its head says. Nothing is assumed.
#![tactic(auto)]

pub mod parts;

ghost use Rattle.std.specs.Prelude.{length};
ghost use Rattle.answer.specs.Refusals.{outcome_of};
ghost use Rattle.answer.specs.Lent.{in_room, Filled};
ghost use Rattle.mos.specs.Answers.{genesis_outcome};
ghost use Rattle.mos_moves.specs.Answers.{
  Tabled,
  genesis_table,
  nth_outcome,
  nth_table,
  get_walk_moves,
};

use answer::Refusal;
use mos::Mos;
use mos::pattern::Pattern;

// A table: the primary row first, and in each row octaves before generators.
pub type Moves = [[i32; 2]; 2];

// The genesis of a period and a generator, with its moves in the lent table (2).
pub fn genesis_moves(period: u16, generator: u16, moves: &mut Moves) -> Result<Mos, Refusal>
    ensures { Tabled (outcome_of result) (genesis_outcome period generator) (genesis_table period generator) moves.old moves.new }
{
    let genesis = Pattern::genesis(period, generator)?;
    *moves = parts::start(period, generator);
    Ok(genesis.mos)
}

// The k-th pattern of the walk of children from the genesis, the genesis for 0, with its moves in the lent table (2). The walk goes by the
// four numbers, as `parts::list_moves` says.
pub fn nth_moves(
    period: u16,
    generator: u16,
    k: u32,
    moves: &mut Moves,
) -> Result<Option<Mos>, Refusal>
    ensures { Tabled (outcome_of result) (nth_outcome period generator k) (nth_table period generator k) moves.old moves.new }
{
    let genesis = Pattern::genesis(period, generator)?;
    let mut pattern = genesis.mos;
    let mut table = parts::start(period, generator);
    for _ in 0..k {
        if !mos::parts::has_child(pattern) {
            return Ok(None);
        }
        let next = parts::child_moves(pattern, table);
        table = next;
        pattern = mos::parts::child_of(pattern);
    }
    *moves = table;
    Ok(Some(pattern))
}

// The moves of all patterns of that walk, four numbers each: the primary row's octaves and generators, then the secondary row's (2, 10).
pub fn walk_moves(period: u16, generator: u16, out: &mut [i32]) -> Result<usize, Refusal>
    ensures { Filled (in_room (length out.old) (get_walk_moves period generator)) (outcome_of result) out.old out.new }
{
    let genesis = Pattern::genesis(period, generator)?;
    if !mos_listings::parts::children_fit(genesis, out.len()) {
        return Err(Refusal::Room);
    }
    Ok(parts::list_moves(period, generator, &genesis, out))
}
