// Questions on an octave of N equal steps.
//
//     tritaves N                    the tritave, and the second choice where there is one
//     find_by_edo N                 of each layout its chain code, its tritave, and 1 for the second choice, else 0
//     find_chain_by_edo N CODE      of one chain's layout its chain code, octave, tritave and start, 1 for the second choice, else 0,
//                                   and its pattern
use crate::{patterns, print};
use edo_layouts::EdoLayout;
use edo_tritaves::Choices;
use std::io::Stdout;

pub(crate) fn put_tritaves(stdout: Stdout, choices: Choices) {
    print::number(stdout, choices.first);
    if let Some(second) = choices.second {
        print::next(stdout, second);
    }
}

pub(crate) fn put_chain(stdout: Stdout, found: EdoLayout) {
    let layout = found.layout;
    print::four(
        stdout,
        layout.genchain,
        layout.octave,
        layout.tritave,
        layout.start,
    );
    print::next(stdout, found.second as u8);
    print::space(stdout);
    patterns::put_pattern(stdout, found.pattern);
}
