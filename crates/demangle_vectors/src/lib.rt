//! Tests in Rattle that cross crates. The merge gate proves them with the code, and runs them over the proved build:
//!
//! - scripts of several calls over a buffer and its edits;
//! - of the demangler: values before and after their symbols, counts, components, the limits, the readers of numbers;
//! - of the filter: a few lines between a source and a sink in memory, a source or sink that fails at each of its
//!   calls, and a `Tally` over readers and writers of std.
//!
//! The lists of `corpus/` have symbols with their names, counts and components, which are asked of the built programs.
//!
//! The expected texts come from the grammar's definition and from what each call is to do, and not from what the code
//! returns.
#![tactic(auto)]

#[cfg(test)]
mod buffer;
#[cfg(test)]
mod edits;
#[cfg(test)]
mod ends;
#[cfg(test)]
mod memory;
#[cfg(test)]
mod scalars;
#[cfg(test)]
mod tally;
#[cfg(test)]
mod texts;
#[cfg(test)]
mod values;
