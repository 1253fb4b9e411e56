//! What a handle keeps between calls.
ghost use Rattle.std.specs.Prelude.{◌≡◌, ◌≢◌, [], None, IfOk, OnErr, IsErrOf};
ghost use Rattle.cxx_demangle.specs.declared.demangler.DemangleError.TheVariants as errors;
ghost use Rattle.cosvigle_c.specs.Kept.{HasRead, KeepsNothing};
ghost use Rattle.cosvigle_c.specs.Numbers as numbers;

use crate::numbers::within;
use cosvigle_engine::{DemangleError, Demangler, Printing};
use std::alloc::Global;
use text_filter::has_prefix;

/// A demangler, the limit for its symbols, and a text that was made and that the caller has yet to take.
#[derive(Drop)]
pub struct Kept {
    /// The demangler, which keeps the last symbol.
    pub demangler: Demangler,
    /// How many nodes may be kept to read a symbol. `None` is the default.
    pub limit: Option<usize>,
    /// The text. It is empty if there is none.
    pub text: Vec<u8>,
}

impl Kept {
    /// Returns a new demangler, the default limit, and no text. Allocates nothing.
    pub fn new(alloc: Global) -> Kept
        ensures demangler { KeepsNothing result.demangler }
        ensures limit { result.limit ≡ None }
        ensures text { result.text.items ≡ [] }
    {
        Kept {
            demangler: Demangler::new(alloc),
            limit: None,
            text: Vec::new(alloc),
        }
    }

    /// Reads a symbol, or a type if types are asked for and the text has no symbol's prefix. The demangler keeps what
    /// is printed of it, and what it was read as. Returns an error if an allocation fails, or if the symbol needs more
    /// than the limit; then the demangler keeps nothing.
    pub fn read(
        &mut self,
        alloc: Global,
        asked: Printing,
        symbol: &str,
    ) -> Result<bool, DemangleError>
        ensures read { IfOk result
            (λ _. HasRead (numbers.within asked self.old.limit) symbol.now self.new.demangler) }
        ensures err { OnErr result (KeepsNothing self.new.demangler) }
        ensures over_limit { IsErrOf result errors.Limit → self.old.limit ≢ None }
        ensures limit { self.new.limit ≡ self.old.limit }
        ensures text { self.new.text ≡ self.old.text }
    {
        let printing = within(asked, self.limit);
        if printing.types && !has_prefix(symbol.as_bytes()) {
            return self.demangler.prepare_type(alloc, symbol, printing.part);
        }
        self.demangler.prepare(alloc, symbol, printing.part)
    }
}
