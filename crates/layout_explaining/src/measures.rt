// What the sentences measure by: parts, and no entry points.
//
// The facts in the ghost fields stand in files that name neither record, so these have a file of their own.
ghost use Rattle.std.specs.Prelude.{◌<◌};

// The letter of key 0, where counting begins, a code point of one or two bytes; the steps of a generator and of an octave.
#[derive(Clone, Copy)]
pub(crate) struct Counting {
    pub letter: u16,
    pub generator: u16,
    pub octave: u16,
    ghost short: { letter < 2048 },
}

// How many places lie between two spellings, and after how many the chain comes round.
#[derive(Clone, Copy)]
pub(crate) struct Distance {
    pub apart: u64,
    pub reduced_period: u16,
    ghost comes_round: { 0 < reduced_period },
}
