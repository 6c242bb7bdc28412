// The spellings at places along a layout's chain: parts, and no entry points.
//
// Signs are counted by a quotient, the rounds through the letters, which is a product with the reciprocal of the letters, times 2³¹.
ghost use Rattle.std.specs.Prelude.{◌≡◌, ◌/◌, ◌<◌, ◌≤◌};
ghost use Rattle.pergen.specs.Pergen.{shown};
ghost use Rattle.pergen.specs.Spelling.{by_coordinates};
ghost use Rattle.layout_book.specs.Parts.{flat_beside, Reciprocal};

use crate::naming::Naming;
use pergen::Accidentals;

// The cycle that the spellings show, the letters and the degrees of a chain.
#[derive(Clone, Copy)]
pub(crate) struct Places {
    cycle: Option<u16>,
    letters: u16,
    degrees: u16,
    reciprocal: u32,
    ghost by_letters: { Reciprocal letters reciprocal },
    ghost enough: { letters ≤ degrees },
}

impl Places {
    // Those of cycle 0 of a layout.
    pub(crate) fn along(naming: Naming) -> Places
        ensures { (result.cycle ≡ shown naming.prepared.solved.num_cycles 0) × (result.letters ≡ naming.prepared.found.num_letters) × (result.degrees ≡ naming.prepared.solved.reduced_period) }
    {
        let letters = naming.prepared.found.num_letters;
        Places {
            cycle: naming.first_cycle(),
            letters,
            degrees: naming.prepared.solved.reduced_period,
            reciprocal: 2147483648 / (letters as u32) + 1,
        }
    }

    // A number by the letters, without a division.
    fn quotient(self, number: u16) -> u16
        ensures { result ≡ number / self.letters }
    {
        ((number as u64) * (self.reciprocal as u64) / 2147483648) as u16
    }

    // The spellings at a place: a letter alone, or one with sharps and one with flats.
    pub(crate) fn spelled(self, place: u16) -> Accidentals
        requires { place < self.degrees }
        ensures { result ≡ by_coordinates self.cycle self.letters place (flat_beside self.degrees self.letters place) }
    {
        if place < self.letters {
            return Accidentals {
                cycle: self.cycle,
                sharp_index: place,
                sharp_count: 0,
                flat_index: place,
                flat_count: 0,
            };
        }
        let last = self.letters - 1;
        let flat = self.degrees - place + last;
        let sharps = self.quotient(place);
        let flats = self.quotient(flat);
        Accidentals {
            cycle: self.cycle,
            sharp_index: place - self.letters * sharps,
            sharp_count: sharps,
            flat_index: last - (flat - self.letters * flats),
            flat_count: flats,
        }
    }
}
