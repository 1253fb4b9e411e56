//! Tells what the next bytes of a mangled C++ symbol are (Itanium C++ ABI 5.1).
//!
//! Most productions with several alternatives have a function `.._case`, which returns the alternative that the next
//! bytes select. If several fit, the first one counts. Other functions read single items: numbers, source names, the
//! abbreviations of std, operators, qualifiers, call offsets, and what stands around an encoding. Some functions
//! return a constant text that is printed, such as that of an operator. No function here composes a text, or calls a
//! reader of `itanium_reader` or `itanium_productions`. The contracts are equations with definitions of `specs/`, and
//! bounds.
//!
//! The qualifiers are those of `demangle_quals`. Begin with `names.rt`. `scalar.rt` is the public module of readers
//! for single items.
#![tactic(auto)]

pub mod abbreviations;
pub mod args;
pub mod context;
pub mod encodings;
pub mod expressions;
pub mod names;
pub mod numerals;
pub mod offsets;
pub mod operators;
pub mod scalar;
pub mod specials;
pub mod types;

pub use abi_scalars::symbol;
