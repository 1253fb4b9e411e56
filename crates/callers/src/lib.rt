//! Four short callers of `Demangler`, as examples of how its contract is used. The result of `demangle` borrows the
//! demangler, so its clause `kept` says what the demangler has when that borrow has ended. From that clause each
//! function here gets a plain clause for its own caller. `ask` and `entered_by` end the borrow. `answer_after` returns
//! the borrowed result. `component_of` ends the borrow, and returns a borrowed component. The module `memory` has a
//! caller of the filter, over a source and a sink in memory.
#![tactic(auto)]

ghost use Rattle.std.specs.Prelude.{◌≡◌, ◌≤◌, ◌*◌, IfOk, OnOk, OnErr, MatchResult, ⊤, option_map, length};
ghost use Rattle.std.specs.Borrow.{sem};
ghost use mathlib.Core.Option.{none};
ghost use denote.Follow.{follows_so};
ghost use Rattle.itanium_demangle.specs.contracts.demangler.Demangler.{the_row};
ghost use Rattle.itanium_grammar.specs.Answer.{IsAnswer};
ghost use Rattle.itanium_demangle.specs.Demangler.{IsPrepared};
ghost use Rattle.itanium_demangle.specs.LastResult.{no_result};
ghost use Rattle.callers.specs.Component.{IsComponent};
ghost use Rattle.callers.specs.Lengths.{IsAnswerLen};

use itanium_demangle::Demangler;
use std::alloc::{AllocError, Global};

pub mod memory;
#[cfg(test)]
mod tests;

/// Demangles a symbol and drops the result. The value keeps the result, with the symbol's counts and
/// components. After an error the value keeps nothing: no text and no component, and both counts are 0.
pub fn ask(demangler: &mut Demangler, alloc: Global, symbol: &str) -> Result<(), AllocError>
    ensures answer { OnOk result (IsAnswer symbol.now demangler.new.text) }
    ensures prepared { OnOk result (IsPrepared symbol.now demangler.new) }
    ensures nothing { OnErr result (demangler.new ≡ no_result) }
{
    demangler.demangle(alloc, symbol)?;
    Ok(())
}

/// Returns how many counted productions a symbol enters, which is at most two for each of its bytes. The value's
/// `entered` returns the same afterwards. After an error the value keeps nothing.
pub fn entered_by(
    demangler: &mut Demangler,
    alloc: Global,
    symbol: &str,
) -> Result<usize, AllocError>
    ensures kept { IfOk result (λ entered. entered ≡ demangler.new.entered) }
    ensures prepared { OnOk result (IsPrepared symbol.now demangler.new) }
    ensures bound { IfOk result (λ entered. entered ≤ 2 * length symbol.now) }
    ensures nothing_kept { OnErr result (demangler.new ≡ no_result) }
{
    demangler.demangle(alloc, symbol)?;
    Ok(demangler.entered())
}

/// Demangles two symbols with the same value. Returns the length of the first result in bytes, and then the second
/// result. The second result is that of its symbol, whatever the first was, also after an error.
pub fn answer_after<'a>(
    demangler: &'a mut Demangler,
    alloc: Global,
    before: &str,
    symbol: &'a str,
) -> (
    Result<Option<usize>, AllocError>,
    Result<Option<&'a str>, AllocError>,
)
    ensures before { IfOk result.0 (IsAnswerLen before.now) }
    ensures answer { IfOk result.1 (λ found. IsAnswer symbol.now (option_map (λ text. text.now) found)) }
    // `last` is the value after the borrow by the result.
    ensures* kept { sem 𝓛 (follows_so the_row the_row demangler.entry.ghost_name none (λ _ _. ⊤)
        (λ last. MatchResult result.1
        (λ found. (last.text ≡ option_map (λ text. text.now) found) × IsPrepared symbol.now last)
        (λ _. last ≡ no_result))) }
{
    let len = match ask(demangler, alloc, before) {
        Ok(_) => Ok(demangler.text().map(str::len)),
        Err(error) => Err(error),
    };
    (len, demangler.demangle(alloc, symbol))
}

/// Returns the component of a symbol with the index `i`, from 0 on, borrowed until the next call. A component is the
/// printing of a tree that the symbol's reading leaves in the substitution table. Returns `None` past the last
/// component, and if the symbol has no result.
pub fn component_of<'a>(
    demangler: &'a mut Demangler,
    alloc: Global,
    symbol: &str,
    i: usize,
) -> Result<Option<&'a [u8]>, AllocError>
    ensures component { IfOk result (λ found. IsComponent symbol.now i (option_map (λ text. text.now) found)) }
    // `last` is the value after the borrow by the component.
    ensures* kept { sem 𝓛 (follows_so the_row the_row demangler.entry.ghost_name none (λ _ _. ⊤)
        (λ last. MatchResult result
        (λ _. IsAnswer symbol.now last.text × IsPrepared symbol.now last)
        (λ _. last ≡ no_result))) }
{
    demangler.demangle(alloc, symbol)?;
    Ok(demangler.component(i))
}
