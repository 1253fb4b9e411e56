//! The qualifiers of a type or a member function (`const`, `volatile`, `restrict`, `&`, `&&`) and the kinds of
//! pointers and references, as a symbol has them (Itanium C++ ABI 5.1.5), with the texts that they print.
//!
//! The crate has plain enums and a struct, and functions that return the printed words. It uses std alone. Begin with
//! `quals.rt`.
#![tactic(auto)]

mod quals;

pub use crate::quals::{Pointer, Quals, Reference, reference_bytes};
