// What the names of a layout's keys are made from: parts, and no entry points.
ghost use Rattle.std.specs.Prelude.{◌≡◌};
ghost use Rattle.genchain.specs.Chains.{chain_of, row_of};
ghost use Rattle.pergen.specs.Pergen.{shown};
ghost use Rattle.layout_book.specs.Parts.{SpelledPlanned};

use genchain::rows;
use genchain::rows::ChainRow;
use layout::prepared::Prepared;
use notes::plans;
use notes::plans::NamePlan;
use pergen::{Accidentals, stepping};

// A layout, made ready, and the row of its chain, which a call reads once.
#[derive(Clone, Copy)]
pub struct Naming {
    pub prepared: Prepared,
    pub row: ChainRow,
    pub ghost own_row: { row ≡ row_of (chain_of prepared.found.chain) },
}

impl Naming {
    // That of a layout, with the row read by its chain's code.
    pub fn of(prepared: Prepared) -> Naming
        ensures { result.prepared ≡ prepared }
    {
        Naming {
            prepared,
            row: rows::row(prepared.found.chain),
        }
    }

    // Key 0's cycle, as names have it.
    pub(crate) fn first_cycle(self) -> Option<u16>
        ensures { result ≡ shown self.prepared.solved.num_cycles 0 }
    {
        let solved = self.prepared.solved;
        let generation = stepping::generation(solved, stepping::first(solved));
        generation.cycle
    }

    // The plan of a name by its spellings.
    pub(crate) fn plan(self, spelled: Accidentals) -> NamePlan
        ensures { SpelledPlanned self.prepared spelled result }
    {
        let pattern = self.prepared.found.pattern;
        plans::plan_name(
            self.row,
            spelled,
            pattern.secondary_step <= pattern.primary_step,
        )
    }
}
