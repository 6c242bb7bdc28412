// Texts and numbers in slices of bytes, for all crates that write or read them.
//
// Holds in `writer` a byte, a run and a text put at a place, in `decimal` numbers with their digits, written and read, and in
// `little_endian` numbers of four bytes, least first. Parts, and no entry points: what writes asks that there is room, which an
// entry point tests by question 10. Reading a decimal number asks for nothing.
// specs/: what writing means, and texts joined over a range of keys (Writing); digits (Decimal); four bytes (LittleEndian); that
// what is written is read back (Theorems). Nothing is assumed.
#![tactic(auto)]

pub mod decimal;
pub mod little_endian;
pub mod writer;
