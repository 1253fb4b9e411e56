//! Copies text from a source to a sink, and replaces symbols on the way by what a reader prints for them.
//!
//! `filter_with` takes each line as one symbol, and writes what is printed for it, or the line itself if nothing is.
//! `replace` does so with each symbol in a word. Before each read, `filter_with` has written all whole lines. `replace`
//! has written all but a last word that may hold a symbol.
//!
//! `SymbolReader` is the trait of what reads symbols. Its relation `prints` says what is printed for a symbol, and the
//! contracts here speak of any such relation. `Source` and `Sink` are the traits of what is read and written. A `Tally`
//! makes one of a reader or a writer of std. A `FilterFault` says why the copying ended early.
//!
//! `growing_text` holds the output. Begin with `symbols.rt`, `filtering.rt` and `replacing.rt`, and with `chunks.rt`,
//! which has the loop of both.
#![tactic(auto)]

mod byte_search;
mod chunks;
mod fault;
mod filtering;
mod output;
mod prefixes;
mod replacing;
mod streams;
mod symbols;
mod tally;
mod word_bounds;
mod words;
mod writing;

pub use fault::FilterFault;
pub use filtering::filter_with;
pub use replacing::replace;
pub use streams::{Failed, Sink, Source};
pub use symbols::{ReplaceOptions, SymbolReader};
pub use tally::Tally;
pub use words::{has_prefix, prefix_chars_len, stripped};
