//! Demangles C++ symbols of the Itanium C++ ABI as declarations, as LLVM and `c++filt` print them.
//!
//! `Demangler` reads the bytes of a symbol as a tree (`cxx_reader`), and prints it (`cxx_printer`). Its answer is the
//! printing of the one tree that the grammar reads (`cxx_grammar`). Begin with `demangler.rt`; `specs/Answer` defines
//! the answer.
#![tactic(auto)]

mod demangler;
pub mod laws;

pub use crate::demangler::{DemangleError, Demangler, MAX_DEPTH, MAX_TEXT, Printing};
pub use cxx_printer::{Kind, Mode, Style};
pub use growing_text::Text;
