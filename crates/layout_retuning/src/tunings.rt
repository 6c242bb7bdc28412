// What both layouts' questions find: a part, and no entry point. `parts` has the functions.
//
// The facts in the ghost fields stand in files that name no `Tunings`, so the record has a file of its own.
ghost use Rattle.std.specs.Prelude.{◌<◌, ◌≤◌};

// The octave, the number of letters and the start, which are the same in both, and the two generators.
#[derive(Clone, Copy)]
pub(crate) struct Tunings {
    pub octave: u16,
    pub num_letters: u16,
    pub start: u16,
    pub first: u16,
    pub second: u16,
    ghost positive: { 0 < octave },
    ghost few_letters: { num_letters ≤ 9 },
}
