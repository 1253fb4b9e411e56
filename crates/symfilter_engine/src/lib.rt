//! The engine of the program `symfilter`: copies text from a source to a sink, and demangles symbols on the way.
//!
//! `filter` takes each line as one symbol, and writes its name, or the line itself if it has none. A line that begins
//! with a symbol is one: `_Z3foo at main.c` becomes `foo`.
//!
//! `text_filter` copies, and finds the symbols. `NameReader` reads them by `itanium_demangle`. With it `filter_with`
//! and `replace` of `text_filter` print names. Begin with `filtering.rt`.
#![tactic(auto)]

mod filtering;
mod symbols;

pub use filtering::filter;
pub use symbols::NameReader;
pub use text_filter::{
    Failed, FilterFault, ReplaceOptions, Sink, Source, SymbolReader, Tally, filter_with, replace,
};
