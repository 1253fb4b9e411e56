//! What is printed for a symbol, and who reads it.
ghost use Rattle.std.specs.Prelude.{◌≡◌, ◌≢◌, None, IfOk, OnErr, IsErrOf, is_some};
ghost use Rattle.cxx_demangle.specs.declared.demangler.DemangleError.TheVariants as errors;
ghost use Rattle.cosvigle_engine.specs.Printed.{IsAnswer, IsPrintedAs, printed_each, unprefixed_stays};

use cxx_demangle::{DemangleError, Demangler};
use std::alloc::{AllocError, Global};
use text_filter::{SymbolReader, has_prefix};

/// What is read, and what is printed of it.
#[derive(Clone, Copy, PartialEq)]
pub struct Printing {
    /// Whether a text without the prefix of a symbol is read as a type: `i` is `int`.
    pub types: bool,
    /// What is printed of a symbol, and how much may be kept to read it.
    pub part: cxx_demangle::Printing,
}

/// Reads symbols as declarations, and types. Keeps its memory for its next symbol.
#[derive(Drop)]
pub struct DeclarationReader {
    /// The demangler, which keeps the last symbol.
    pub demangler: Demangler,
}

impl DeclarationReader {
    /// Returns a value that has read no symbol. Allocates nothing.
    pub fn new(alloc: Global) -> Self
        ensures empty { result.demangler.text ≡ None }
    {
        DeclarationReader {
            demangler: Demangler::new(alloc),
        }
    }

    /// Reads a symbol, or a type if types are asked for and the text has no symbol's prefix. The demangler keeps what is
    /// printed of it. Returns `true` if something is. Returns an error if an allocation fails, or if the symbol needs
    /// more than the limit that the caller set; then nothing is kept.
    #[inline(always)]
    pub fn prepare(
        &mut self,
        alloc: Global,
        printing: Printing,
        symbol: &str,
    ) -> Result<bool, DemangleError>
        ensures answer { IfOk result (λ _. IsAnswer printing symbol.now self.new.demangler.text) }
        ensures found { IfOk result (λ found. found ≡ is_some self.new.demangler.text) }
        ensures limit { IsErrOf result errors.Limit → printing.part.limit ≢ None }
        ensures err { OnErr result (self.new.demangler.text ≡ None) }
    {
        if printing.types && !has_prefix(symbol.as_bytes()) {
            return self.demangler.prepare_type(alloc, symbol, printing.part);
        }
        self.demangler.prepare(alloc, symbol, printing.part)
    }
}

impl SymbolReader for DeclarationReader {
    type Printing = Printing;

    ghost all = { λ printing. printing.types };

    ghost prints = { IsPrintedAs };

    ghost text = { λ reader. reader.demangler.text };

    ghost answers = { printed_each };

    ghost unprefixed = { unprefixed_stays };

    #[inline(always)]
    fn reads_all(printing: Printing) -> bool {
        printing.types
    }

    #[inline(always)]
    fn read(&mut self, alloc: Global, printing: Printing, symbol: &str) -> Result<(), AllocError> {
        match self.prepare(alloc, printing, symbol) {
            Ok(_) => Ok(()),
            // What needs more than the limit stays.
            Err(DemangleError::Limit) => Ok(()),
            Err(DemangleError::Memory) => Err(AllocError),
        }
    }

    #[inline(always)]
    fn text(&self) -> Option<&str> {
        self.demangler.text()
    }
}
