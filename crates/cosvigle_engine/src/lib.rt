//! The engine of the program `cosvigle` and of the library for C: reads symbols, and types alone, for the filters of
//! `text_filter`.
//!
//! `DeclarationReader` reads them by `cxx_demangle`. With it `filter_with` and `replace` of `text_filter` print
//! declarations. Begin with `reader.rt`; `specs/Printed` defines what is printed.
#![tactic(auto)]

mod reader;

pub use cxx_demangle::{DemangleError, Demangler, Kind, Mode, Printing as Part, Style};
pub use reader::{DeclarationReader, Printing};
pub use text_filter::{
    Failed, FilterFault, ReplaceOptions, Sink, Source, SymbolReader, Tally, filter_with, replace,
};
