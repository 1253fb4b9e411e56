//! Who reads symbols, what is printed for them, and where they may be.
ghost use Rattle.std.specs.Prelude.{◌≡◌, ◌≢◌, ℕ, List, Bool, false, Option, None, slice_index, OnOk, OnErr, option_map};
ghost use Rattle.text_filter.specs.Printed.{AnswersEach};

use std::alloc::{AllocError, Global};

/// Reads symbol after symbol, and keeps what is printed for the last one.
pub trait SymbolReader {
    /// What may be printed for a symbol, where there is a choice.
    type Printing: Copy;

    // Whether a text without the prefix of a symbol is read too.
    ghost all: { Self.Printing → Bool };

    // What is printed for a symbol, or that it stays as it is.
    ghost prints: { Self.Printing → List ℕ → Option (List ℕ) → Type 0 };

    // What is printed for the last symbol. None: it stays, or none has been read.
    ghost text: { Self → Option (List ℕ) };

    /// Returns whether a text that doesn't begin with an underscore is read too, as the name of a type.
    fn reads_all(printing: Self::Printing) -> bool
        ensures value { result ≡ all printing };

    /// Reads a symbol. Afterwards the reader has the text that is printed for it, or no text if the symbol stays as it
    /// is. Returns an error if an allocation fails; then it has no text.
    fn read(
        &mut self,
        alloc: Global,
        printing: Self::Printing,
        symbol: &str,
    ) -> Result<(), AllocError>
        ensures printed { OnOk result (prints printing symbol.now (text self.new)) }
        ensures err { OnErr result (text self.new ≡ None) };

    /// Returns what is printed for the last symbol, borrowed until the next call.
    fn text(&self) -> Option<&str>
        ensures value { option_map (λ text. text.now) result ≡ text self.now };

    // Something is printed for each symbol, or it stays.
    ghost answers: { (printing : Self.Printing) → AnswersEach (prints printing) };

    // What doesn't begin with an underscore stays, unless all is read.
    ghost unprefixed: { (printing : Self.Printing) → all printing ≡ false → (symbol : List ℕ)
        → slice_index symbol 0 ≢ 95 → prints printing symbol None };
}

/// How symbols in words are replaced.
#[derive(Clone, Copy, PartialEq)]
pub struct ReplaceOptions<P> {
    /// Whether one more underscore stands in front of each symbol, and is dropped.
    pub strip: bool,
    /// What replaces a symbol.
    pub printing: P,
}

/// Where a symbol may be.
#[derive(Clone, Copy)]
pub(crate) enum Placement<P> {
    /// A whole line may be a symbol.
    Lines(P),
    /// A symbol may be in a word, after the word's prefix characters.
    Words(ReplaceOptions<P>),
}
