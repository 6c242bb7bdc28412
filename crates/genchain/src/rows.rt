// The table of the chains: parts, and no entry points. Callers have asked question 10 before they write.
//
// The table is put into memory where it is read by a code, so read a chain's row once for a call, and hand the row on.
//
// That a row is a `TableRow` is asked and is no ghost field: `row_of` of specs/ makes a row of any chain.
ghost use Rattle.std.specs.Prelude.{◌≡◌, ◌<◌, ◌≤◌, ltb, length, MatchResult};
ghost use Rattle.answer.specs.declared.Refusal.TheVariants.{Chain};
ghost use Rattle.text.specs.Writing.{Room, Wrote};
ghost use Rattle.genchain.specs.Chains.{chain_of, row_of, TableRow, letters_in};

use answer::Refusal;

// A chain's letters as code points, 0 past the last; how many there are; the place of key 0's letter.
#[derive(Clone, Copy)]
pub struct ChainRow {
    pub letters: [u16; 9],
    pub num_letters: u16,
    pub start: u16,
}

// By chain code; 946 is β and 966 is φ.
const CHAINS: [ChainRow; 6] = [
    ChainRow {
        letters: [946, 70, 67, 71, 68, 65, 69, 66, 966],
        num_letters: 9,
        start: 4,
    },
    ChainRow {
        letters: [70, 67, 71, 68, 65, 69, 66, 0, 0],
        num_letters: 7,
        start: 3,
    },
    ChainRow {
        letters: [67, 71, 68, 65, 69, 0, 0, 0, 0],
        num_letters: 5,
        start: 2,
    },
    ChainRow {
        letters: [65, 66, 67, 68, 69, 70, 71, 72, 0],
        num_letters: 8,
        start: 3,
    },
    ChainRow {
        letters: [65, 66, 67, 68, 69, 70, 71, 0, 0],
        num_letters: 7,
        start: 3,
    },
    ChainRow {
        letters: [67, 65, 70, 68, 66, 71, 69, 0, 0],
        num_letters: 7,
        start: 3,
    },
];

// Question 1.
pub fn is_chain(code: u16) -> bool
    ensures { result ≡ ltb code 6 }
{
    code < 6
}

// Question 1, where an answer needs the yes.
pub fn asked(code: u16) -> Result<(), Refusal>
    ensures { MatchResult result (λ _. code < 6) (λ q. (q ≡ Chain) × (6 ≤ code)) }
{
    if is_chain(code) {
        return Ok(());
    }
    Err(Refusal::Chain)
}

// The row of a chain, read by its code (1).
pub fn read(code: u16) -> Result<ChainRow, Refusal>
    ensures { MatchResult result (λ found. (code < 6) × (found ≡ row_of (chain_of code))) (λ q. (q ≡ Chain) × (6 ≤ code)) }
{
    asked(code)?;
    Ok(row(code))
}

// The row of a chain, read by its code; one without letters for a code from 6 on. It is total and no Option, as `row_of` is, since callers
// that asked no question yet go by it.
pub fn row(code: u16) -> ChainRow
    ensures { result ≡ row_of (chain_of code) }
{
    if is_chain(code) {
        return CHAINS[code as usize];
    }
    ChainRow {
        letters: [0, 0, 0, 0, 0, 0, 0, 0, 0],
        num_letters: 0,
        start: 0,
    }
}

// How many letters a chain has, and the place of key 0's letter.
#[derive(Clone, Copy)]
pub struct ChainNumbers {
    pub num_letters: u16,
    pub start: u16,
}

// The two numbers of a row.
fn numbers_in(row: ChainRow) -> ChainNumbers
    ensures { (result.num_letters ≡ row.num_letters) × (result.start ≡ row.start) }
{
    ChainNumbers {
        num_letters: row.num_letters,
        start: row.start,
    }
}

// The two numbers of a chain, for a call that needs no letters. Each place of the table is a constant here, so that nothing of it is put
// into memory.
pub fn numbers(code: u16) -> ChainNumbers
    ensures { (result.num_letters ≡ length (chain_of code).letters) × (result.start ≡ (chain_of code).start) }
{
    match code {
        0 => numbers_in(CHAINS[0]),
        1 => numbers_in(CHAINS[1]),
        2 => numbers_in(CHAINS[2]),
        3 => numbers_in(CHAINS[3]),
        4 => numbers_in(CHAINS[4]),
        5 => numbers_in(CHAINS[5]),
        _ => ChainNumbers {
            num_letters: 0,
            start: 0,
        },
    }
}

// The letters of a row at the front of a slice; how many there are.
pub(crate) fn put_letters(out: &mut [u16], row: ChainRow) -> usize
    requires { TableRow row × Room out.old 0 (letters_in row) }
    ensures { Wrote out.old 0 (letters_in row) out.new result }
{
    let count = row.num_letters as usize;
    let letters = row.letters;
    out[..count].copy_from_slice(&letters[..count]);
    count
}
