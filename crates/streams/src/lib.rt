// Standard input, output and error, for the programs.
//
// Holds the one function that reads a byte of standard input and the one that writes to standard output, the records that only these two
// make, the reading of one line, the line of a refusal, and what a program says on standard error. Parts of programs, and no entry points.
// specs/: Streams says what was taken and what was handed over, Reading what is read of a line. Which bytes a read hands over, and where
// written bytes go, rests on the kit's library.
#![tactic(auto)]

pub mod input;
pub mod lines;
pub mod output;
pub mod refusals;
pub mod words;
