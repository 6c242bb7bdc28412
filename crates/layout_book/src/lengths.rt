// How long the names of an octave's keys are together: parts, and no entry points.
//
// The length is taken along the chain, in whole rounds through the letters where it can be.
ghost use Rattle.std.specs.Prelude.{◌≡◌, ◌+◌, ◌*◌, ◌-◌, ◌/◌, ◌%◌, ◌<◌, ◌≤◌, length};
ghost use Rattle.text.specs.Writing.{joined};
ghost use Rattle.genchain.specs.Chains.{TableRow, letters_in};
ghost use Rattle.layout_book.specs.Parts.{
  bare_at,
  Stretch,
  stretch_name,
  letter_in,
  NamesMeasured,
  one_place_on,
  CanGoOn,
};

use crate::naming::Naming;
use genchain::rows::ChainRow;
use notes::plans;
use pergen::Accidentals;

// How many bytes the letters of a chain have together.
fn letters_length(row: ChainRow) -> usize
    requires { TableRow row }
    ensures { (result ≡ length (joined (letter_in (letters_in row)) row.num_letters)) × (result ≤ 18) }
{
    let mut total: usize = 0;
    for letter in &row.letters[..row.num_letters as usize] {
        total += plans::letter_length(*letter);
    }
    total
}

// The index of the letter after this one, or of the first.
fn next_index(letters: u16, index: u16) -> u16
    requires { index < letters }
    ensures { result ≡ (index + 1) % letters }
{
    let next = index + 1;
    if next < letters {
        return next;
    }
    0
}

// 1 where the letters begin anew, otherwise 0: a number and no flag, since a count of signs goes up or down by it.
fn carry(letters: u16, index: u16) -> u16
    requires { index < letters }
    ensures { result ≡ (index + 1) / letters }
{
    let next = index + 1;
    if next < letters {
        return 0;
    }
    1
}

// The spellings at the next place along the chain, past the letters alone. No place costs a division.
fn go_on(letters: u16, spelled: Accidentals) -> Accidentals
    requires { CanGoOn letters spelled }
    ensures { result ≡ one_place_on letters spelled }
{
    Accidentals {
        cycle: spelled.cycle,
        sharp_index: next_index(letters, spelled.sharp_index),
        sharp_count: spelled.sharp_count + carry(letters, spelled.sharp_index),
        flat_index: next_index(letters, spelled.flat_index),
        flat_count: spelled.flat_count - carry(letters, spelled.flat_index),
    }
}

// How many rounds through the letters stand at each end of the chain with fewer signs of their own kind, the letters alone not counted.
fn rounds_of(letters: u16, degrees: u16) -> u16
    requires { (0 < letters) × (letters ≤ degrees) }
    ensures { letters * (2 * result + 1) ≤ degrees }
{
    (degrees / letters - 1) / 2
}

impl Naming {
    // How many bytes the names without stars have together, along the chain from a place with the first letter and `sharps` sharps
    // up to another.
    fn stretch_length(self, sharps: u16, end: u16) -> usize
        requires { Stretch self.prepared sharps end }
        ensures { (result ≡ length (joined (stretch_name self.prepared sharps) (end - self.prepared.found.num_letters * sharps))) × (result ≤ 39325 * 65535) }
    {
        let letters = self.prepared.found.num_letters;
        let first = letters * sharps;
        let flat = self.prepared.solved.reduced_period - first + (letters - 1);
        let mut spelled = Accidentals {
            cycle: self.first_cycle(),
            sharp_index: 0,
            sharp_count: sharps,
            flat_index: letters - 1 - flat % letters,
            flat_count: flat / letters,
        };
        let mut total: usize = 0;
        for _ in first..end {
            total += plans::plan_length(self.plan(spelled));
            spelled = go_on(letters, spelled);
        }
        total
    }

    // How many bytes the names of cycle 0 have together. Taken along the chain they are the letters alone, then rounds with one sharp,
    // two sharps and so on, and from the other end rounds with one flat, two flats and so on, each as long as the letters and their
    // signs; only the names in the middle, less than two rounds, are looked at one by one.
    fn bare_length(self) -> usize
        ensures { result ≡ length (joined (bare_at self.prepared) self.prepared.solved.reduced_period) }
    {
        let letters = self.prepared.found.num_letters;
        let degrees = self.prepared.solved.reduced_period;
        let rounds = rounds_of(letters, degrees);
        let middle = self.stretch_length(rounds + 1, degrees - letters * rounds);
        let alone = letters_length(self.row);
        let many = rounds as usize;
        let signs = (letters as usize) * (many * (many + 1));
        alone * (2 * many + 1) + signs + middle
    }

    // How many bytes the names of an octave's keys have together: in each cycle the bare names, and a star for each cycle before it.
    pub fn names_length(self) -> usize
        ensures { NamesMeasured self.prepared result }
    {
        let cycles = self.prepared.solved.num_cycles as usize;
        let degrees = self.prepared.solved.reduced_period as usize;
        cycles * self.bare_length() + degrees * (cycles * (cycles - 1) / 2)
    }
}
