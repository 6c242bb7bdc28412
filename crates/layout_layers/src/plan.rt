// The plan of a layout's layers: a part, and no entry point. `parts` makes it and goes by it.
ghost use Rattle.layout_layers.specs.Kept.{IsSound};

use crate::chain::Chain;
use mos_layers::Runs;

// What all keys of a layout have in common.
#[derive(Clone, Copy)]
pub struct Plan {
    pub chain: Chain,
    pub runs: Runs,
    pub offset: u32,
    pub letters: u16,
    pub secondaries: u16,
    pub equalized: bool,
    pub ghost sound: { IsSound chain runs offset letters secondaries equalized },
}
