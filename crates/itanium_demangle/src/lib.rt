//! Demangles C++ symbols of the Itanium C++ ABI. The result is the symbol's name, with its template arguments and
//! without the parameters of a function; or a special name, such as that of a virtual table.
//!
//! A crate that uses this one names it in its line of `crates.txt`, as in `names: itanium_demangle`. The allocator
//! comes from the `HostRuntime` that `main` and each test are given.
//!
//! ```rust
//! use itanium_demangle::Demangler;
//! use std::process::ExitCode;
//!
//! fn main(rt: HostRuntime) -> ExitCode {
//!     let mut demangler = Demangler::new();
//!     match demangler.demangle(rt.alloc(), "_ZN3Foo3barEv") {
//!         // Prints Foo::bar.
//!         Ok(Some(name)) => match println!(rt; "{name}") {
//!             Ok(()) => ExitCode::SUCCESS,
//!             Err(_) => ExitCode::FAILURE,
//!         },
//!         // The symbol has no name: it is no mangled one, or isn't read.
//!         Ok(None) => ExitCode::SUCCESS,
//!         // An allocation failed.
//!         Err(_) => ExitCode::FAILURE,
//!     }
//! }
//! ```
//!
//! The name is borrowed until the next call. Use one `Demangler` for many symbols: each keeps its buffer from one
//! symbol to the next.
//!
//! `prepare` reads a symbol. Then `text` returns the result, `entered` and `most_saved` return counts, `component` a
//! text of the substitution table, `buffer` its shapes. `demangle_owned` returns the name as a string, `is_utf8` tests
//! bytes, and the module `scalar` reads single items.
//!
//! `itanium_productions` reads the symbol, and `itanium_grammar` defines its result. The proofs of this crate show
//! that the readers agree with the grammar. Begin with `demangler.rt`.
#![tactic(auto)]

mod demangler;
pub mod laws;
mod mangled_name;

pub use crate::demangler::{Demangler, MAX_DEPTH, demangle_owned};
pub use abi_scalars::utf8::is_utf8;
pub use itanium_reader::MAX_TEXT;
pub use itanium_syntax::scalar;
