// The C interface of the library: `include/vetchnoon.h` declares what stands here.
//
// Holds one function for each call of the header, in `numbers`, `patterns`, `fractional`, `chains`, `edo`, `layouts`, `reach`, `retuning`,
// `board`, `kbm`, `sheets`, `strips`, `books`, `typed` and `explaining`, over the library's calls and the parts of `vetchnoon_codes`. A
// call answers a signed number: a value or the number of elements that it wrote, or minus the number of the question that was answered
// with no (`code_of` and `Fills` in the specs of `vetchnoon_codes`).
// specs/: Written says which numbers a call writes, TypedNames which signed ones, FractionalPatterns which patterns, Examples what some
// calls answer.
// Every call answers every input. Assumed is what the header asks of a caller: that a slice's pointer and length are good.
#![tactic(auto)]

pub mod board;
pub mod books;
pub mod chains;
pub mod edo;
pub mod explaining;
pub mod fractional;
pub mod kbm;
pub mod layouts;
pub mod numbers;
mod parts;
pub mod patterns;
pub mod reach;
pub mod retuning;
pub mod sheets;
pub mod strips;
pub mod typed;
