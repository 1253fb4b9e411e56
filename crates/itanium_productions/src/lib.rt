//! The mutually recursive readers: each production that can contain itself through others, such as `<type>` and
//! `<name>`, is read here. Most readers are named after their production, which stands above them in the ABI's
//! notation. A production that contains none of these, such as `<source-name>` or `<substitution>`, is read by a
//! method of `Reader` in `itanium_reader`.
//!
//! The readers call one another, so they are proved together. Each equals its function in `specs/Parser` of
//! `itanium_reader`, and those of `frames.rt` equal theirs in `specs/Frames`. Only `itanium_demangle` uses this crate.
//! `itanium_demangle` proves that the parser agrees with the grammar.
//!
//! The readers call the methods of `itanium_reader`. Begin with `read_name` in `names.rt`, and then read `read_type`
//! in `types.rt`. `read_encoding` in `encodings.rt` is for thunks, local names and external names.
#![tactic(auto)]

/// The value of a result. An error is returned from the function around it, as it is. `?` also converts the error,
/// which each proof has to follow. The macros stand above the modules, because they can only be used below.
macro_rules! tri {
    ($result:expr) => {
        match $result {
            Ok(value) => value,
            Err(error) => return Err(error),
        }
    };
}

/// The value of a result. If an allocation failed, the function around it returns `Stop::Memory`.
macro_rules! or_memory {
    ($result:expr) => {
        match $result {
            Ok(value) => value,
            Err(std::alloc::AllocError) => return Err(itanium_reader::Stop::Memory),
        }
    };
}

mod args;
mod encodings;
mod expressions;
mod frames;
mod names;
mod specials;
mod types;

pub use crate::names::read_name;
pub use crate::specials::read_special_name;
