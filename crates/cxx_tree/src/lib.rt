//! Trees of demangled symbols, as nodes of an arena (Itanium C++ ABI 5.1). Begin with `node.rt` and `arena.rt`;
//! `specs/Tree` defines the trees. `names.rt`, `types.rt`, `expressions.rt` and `lambdas.rt` make the nodes that are
//! more than a call of `Arena::push`.
#![tactic(auto)]

/// The value of a result. An error is returned as it is.
macro_rules! tri {
    ($result:expr) => {
        match $result {
            Ok(value) => value,
            Err(error) => return Err(error),
        }
    };
}

mod arena;
pub mod bind;
mod children;
mod counts;
mod digits;
mod expressions;
mod kinds;
mod lambdas;
mod measuring;
mod names;
mod node;
mod phrases;
mod texts;
mod types;

pub use crate::arena::{Arena, Stop};
pub use crate::counts::Measure;
pub use crate::digits::{MOST_DIGITS, number_bytes, push_number};
pub use crate::kinds::{Context, Cv, Guard, Listing, Manner, Phrase, Prec, RefQual, Role, Std};
pub use crate::lambdas::Signature;
pub use crate::node::{
    Declaration, Encoding, Function, List, Node, NodeText, Part, Parts, Plain, Range,
};
pub use crate::types::Clauses;
