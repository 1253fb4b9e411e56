//! The type `Reader`, which the readers of productions share. A `Reader` has the bytes that are left, the buffer with
//! the substitution table, and the piece that was read last. Its methods read the leaves of the grammar, such as
//! `<source-name>`, and parts of larger productions. They call none of the mutually recursive readers, which are in
//! `itanium_productions`.
//!
//! Only `itanium_demangle` and `itanium_productions` use this crate. Its `specs/Parser` defines the parser as
//! functions over shapes, without a buffer. Each reader is proved to equal its function there.
//!
//! The crate uses `itanium_syntax` to tell what the next bytes are, and `demangle_text` and `demangle_edit` for the
//! text. Its contracts use shapes of `itanium_grammar`. Begin with `reader.rt`, and then read `names.rt`.
#![tactic(auto)]

/// The value of a result. An error is returned from the function around it, as it is. `?` also converts the error,
/// which each proof has to follow. The macros stand above the modules, because they can only be used below.
macro_rules! tri {
    ($result:expr) => {
        match $result {
            Ok(value) => value,
            Err(error) => return Err(error),
        }
    };
}

/// The value of a result. If an allocation failed, the function around it returns `Stop::Memory`.
macro_rules! or_memory {
    ($result:expr) => {
        match $result {
            Ok(value) => value,
            Err(std::alloc::AllocError) => return Err(Stop::Memory),
        }
    };
}

mod expressions;
mod names;
mod reader;
mod specials;
mod stop;
mod types;

pub use crate::reader::{MAX_TEXT, Reader, text_limit};
pub use crate::stop::{ReadResult, Stop};
