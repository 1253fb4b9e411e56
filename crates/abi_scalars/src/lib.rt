//! Reads what the grammars of mangled C++ symbols have alike (Itanium C++ ABI 5.1): digits and the numbers that they
//! write, source names, indices, and what stands in front of an encoding and after it. Tests whether bytes are UTF-8.
//!
//! Each function takes bytes of a symbol, mostly all that are left of it, and looks at their front. `numerals.rt` has
//! numbers as values, and none is past 2^64 - 1. `texts.rt` has numbers and identifiers as they are written,
//! `scalar.rt` numbers and source names at a place of the input, and `symbol.rt` the prefix and the suffix of a symbol.
//! The contracts are equations with definitions of `specs/`, and bounds. `utf8.rt` takes any bytes.
//!
//! Two grammars read by it: that of names, in `itanium_syntax`, and that of declarations, in
//! `cxx_reader`. What they read in different ways isn't here, such as a call offset. Begin with `numerals.rt`.
#![tactic(auto)]

pub mod numerals;
pub mod scalar;
pub mod symbol;
pub mod texts;
pub mod utf8;
