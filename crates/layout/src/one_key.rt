// One key of a layout, for its name: a part, and no entry point. `key_names` has the functions.
ghost use Rattle.std.specs.Prelude.{◌≡◌, ◌<◌};
ghost use Rattle.genchain.specs.Chains.{chain_of, row_of};

use crate::parts::Found;
use genchain::rows::ChainRow;

// What the name of one key is written from: the chain's row, which a call reads once, the layout that was found, and the key's number in
// the octave.
#[derive(Clone, Copy)]
pub(crate) struct OneKey {
    pub(crate) row: ChainRow,
    pub(crate) found: Found,
    pub(crate) number: u16,
    pub(crate) ghost row_is: { row ≡ row_of (chain_of found.chain) },
    pub(crate) ghost below: { number < found.octave },
}
