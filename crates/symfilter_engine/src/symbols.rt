//! The reader of names.
ghost use Rattle.std.specs.Prelude.{false};
ghost use Rattle.symfilter_engine.specs.Printed.{prints, prints_each, unprefixed_stays};

use itanium_demangle::Demangler;
use std::alloc::{AllocError, Global};
use text_filter::SymbolReader;

/// Reads names. Keeps its memory for its next symbol.
#[derive(Drop)]
pub struct NameReader {
    demangler: Demangler,
}

impl NameReader {
    /// Returns a value that has read no symbol. Allocates nothing.
    pub fn new() -> Self {
        NameReader {
            demangler: Demangler::new(),
        }
    }
}

impl SymbolReader for NameReader {
    type Printing = ();

    ghost all = { λ _. false };

    ghost prints = { prints };

    ghost text = { λ reader. reader.demangler.text };

    ghost answers = { prints_each };

    ghost unprefixed = { λ printing _. unprefixed_stays printing };

    #[inline(always)]
    fn reads_all(_: ()) -> bool {
        false
    }

    #[inline(always)]
    fn read(&mut self, alloc: Global, _: (), symbol: &str) -> Result<(), AllocError> {
        self.demangler.prepare(alloc, symbol)?;
        Ok(())
    }

    #[inline(always)]
    fn text(&self) -> Option<&str> {
        self.demangler.text()
    }
}
