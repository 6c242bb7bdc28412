// A layout that texts are read in: a part, and no entry point. `spellings` and `names` have its methods.
//
// The facts in the ghost fields stand in files that name no `Reader`, so the record has a file of its own.
ghost use Rattle.std.specs.Prelude.{◌≡◌};
ghost use Rattle.std.specs.Coded.{Coded-set};
ghost use Rattle.genchain.specs.Chains.{chain_of, row_of};
ghost use Rattle.layout.specs.Layouts.{cycles_in};
ghost use Rattle.layout.specs.Parts.{layout_of};

use genchain::rows::ChainRow;
use layout::parts::Found;

// What questions 1 to 4 and 18 find, with the row of the chain and the number of cycles.
#[derive(Clone, Copy)]
pub struct Reader {
    pub row: ChainRow,
    pub found: Found,
    pub cycles: u16,
    pub ghost row_is: { row ≡ row_of (chain_of found.chain) } by { Coded-set row-code row (row_of (chain_of found.chain)) },
    pub ghost cycles_are: { cycles ≡ cycles_in (layout_of found) },
}
