//! Reads the bytes of a mangled symbol as the nodes of a tree (Itanium C++ ABI 5.1). Begin with `encodings.rt`, whose
//! `read_encoding` reads all of a symbol, and with `reader.rt`. The definitions of `cxx_grammar` say what each reader is
//! proved to do.
#![tactic(auto)]

/// The value of a result. An error is returned as it is.
macro_rules! tri {
    ($result:expr) => {
        match $result {
            Ok(value) => value,
            Err(error) => return Err(error),
        }
    };
}

mod args;
mod bases;
mod binds;
mod cases;
mod compounds;
mod constraints;
mod counts;
mod declarations;
mod encodings;
mod expressions;
mod floats;
mod functions;
mod literals;
mod locals;
mod modules;
mod names;
mod operators;
mod ordinals;
mod params;
mod reader;
mod requirements;
mod row_nodes;
mod rows;
mod skips;
mod specials;
mod symbols;
mod types;
mod unnamed;
mod unresolved;
mod vendors;
mod words;

pub use crate::reader::{Invented, Reader};
pub use crate::symbols::{Reading, read_symbol, read_type_alone};
