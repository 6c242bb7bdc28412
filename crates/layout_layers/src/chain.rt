// The walk along the chain of generators: parts, and no entry points.
//
// A layer's keys are neighbours on the chain, not on the keyboard. Whole-octave work goes from place to place of the chain: the layer stays
// until its places are used up, and the next place's scale degree is one addition away.
ghost use Rattle.std.specs.Prelude.{◌≡◌, ◌+◌, ◌<◌};
ghost use Rattle.layout_layers.specs.Kept.{Unbroken};
ghost use Rattle.layout_layers.specs.Parts.{SpotAt};

// The numbers of a chain. A place on is `advance` scale degrees on; key 0 has the place `start`.
#[derive(Clone, Copy)]
pub struct Chain {
    pub num_cycles: u16,
    pub reduced_period: u16,
    pub advance: u16,
    pub start: u16,
}

// A place of the chain, and its scale degree.
#[derive(Clone, Copy)]
pub struct Spot {
    pub place: u32,
    pub turn: u32,
}

// Place 0: as many advances behind key 0 as the start says.
pub fn first_spot(chain: Chain) -> Spot
    requires { Unbroken chain }
    ensures { SpotAt chain result × (result.place ≡ 0) }
{
    let whole = chain.reduced_period as u32;
    let ahead = (chain.start as u32) * (chain.advance as u32) % whole;
    if ahead == 0 {
        return Spot { place: 0, turn: 0 };
    }
    Spot {
        place: 0,
        turn: whole - ahead,
    }
}

// One place on.
pub fn next_spot(chain: Chain, spot: Spot) -> Spot
    requires { Unbroken chain × SpotAt chain spot × (spot.place < chain.reduced_period) }
    ensures { SpotAt chain result × (result.place ≡ spot.place + 1) }
{
    let advance = chain.advance as u32;
    let left = (chain.reduced_period as u32) - advance;
    let place = spot.place + 1;
    if spot.turn < left {
        return Spot {
            place,
            turn: spot.turn + advance,
        };
    }
    Spot {
        place,
        turn: spot.turn - left,
    }
}
