//! Defines how the bytes of a mangled C++ symbol are read as a tree (Itanium C++ ABI 5.1). What a tree prints is
//! defined in `cxx_printer`, and what the answer is in `cxx_demangle/specs/Answer`.
//!
//! No code of this crate runs: it has definitions, the enums that these share with the readers, and a law. Begin with
//! `specs/Symbol`, and with `specs/Parses`, whose steps all parsers are made of.
#![tactic(auto)]

pub mod cases;
pub mod laws;
pub mod rows;
