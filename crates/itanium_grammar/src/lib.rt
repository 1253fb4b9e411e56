//! Defines the result of a symbol: how the bytes of a mangled C++ symbol are read as a tree, and how that tree is
//! printed (Itanium C++ ABI 5.1). `itanium_demangle` is proved against these definitions.
//!
//! No code of this crate runs. The functions in `laws.rt` do nothing: their contracts are statements that other crates
//! use, such as that two readings agree.
//!
//! The definitions cite those of `itanium_syntax` and `demangle_edit`. Begin with `specs/Answer`, and then read
//! `specs/Grammar` and `specs/Tree`.
#![tactic(auto)]

pub mod laws;
