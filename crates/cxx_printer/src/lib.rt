//! Prints trees of demangled symbols as LLVM does, or as GNU's c++filt does. Begin with `symbol.rt`, and then `print.rt`.
#![tactic(auto)]

/// The value of a result. An error is returned from the function around it, as it is.
macro_rules! tri {
    ($result:expr) => {
        match $result {
            Ok(value) => value,
            Err(error) => return Err(error),
        }
    };
}

mod env;
pub mod laws;
mod operands;
mod parts;
mod print;
mod shapes;
mod symbol;
mod words;
mod writing;

pub use crate::env::Style;
pub use crate::parts::{
    Kind, has_qualifiers, kind_of, print_base_name, print_context, print_parameters,
    print_return_type,
};
pub use crate::symbol::{Mode, Symbol, print_symbol};
