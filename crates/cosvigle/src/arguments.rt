//! Demangles symbols that are arguments.
ghost use Rattle.std.specs.Prelude.{◌≡◌, [], ◌∷◌, ◌++◌, IfOk, OnOk};
ghost use Rattle.cosvigle.specs.Arguments as spec;
ghost use Rattle.cosvigle.specs.Arguments.{IsArgumentAnswer};

use abi_scalars::utf8::is_utf8;
use cosvigle_engine::{DeclarationReader, Printing, ReplaceOptions, SymbolReader};
use std::alloc::{AllocError, Global};
use std::str;
use text_filter::{prefix_chars_len, stripped};

/// What is printed for an argument: `front`, and then `text`.
#[derive(Clone, Copy)]
pub struct Printed<'a> {
    /// The bytes in front of the symbol.
    pub front: &'a [u8],
    /// What is printed for the symbol, or the argument.
    pub text: &'a [u8],
}

/// Returns what is printed for an argument: the bytes in front of its symbol, as in a word, and then what is printed
/// for the symbol. If that is nothing, or the symbol isn't UTF-8, the argument itself is printed. If `options.strip` is
/// set, one underscore in front of the symbol is dropped. Returns an error if an allocation fails.
pub fn answer_of<'a>(
    alloc: Global,
    symbols: &'a mut DeclarationReader,
    options: ReplaceOptions<Printing>,
    argument: &'a [u8],
) -> Result<Printed<'a>, AllocError>
    ensures answer { IfOk result (λ printed.
        IsArgumentAnswer options argument.now (printed.front.now ++ printed.text.now)) }
{
    let len = prefix_chars_len(options.strip, argument);
    let symbol = stripped(options.strip, &argument[len..]);
    if !is_utf8(symbol) {
        return Ok(Printed {
            front: b"",
            text: argument,
        });
    }
    let symbol = unsafe { str::from_utf8_unchecked(symbol) };
    symbols.read(alloc, options.printing, symbol)?;
    match symbols.text() {
        Some(answer) => Ok(Printed {
            front: &argument[..len],
            text: answer.as_bytes(),
        }),
        None => Ok(Printed {
            front: b"",
            text: argument,
        }),
    }
}

/// Sets `line` to what is printed for an argument, and a line feed. Returns an error if an allocation fails.
pub fn set_line(line: &mut Vec<u8>, printed: Printed<'_>) -> Result<(), AllocError>
    ensures line { OnOk result (line.new.items
        ≡ printed.entry.front.now ++ (printed.entry.text.now ++ spec.line_feed ∷ [])) }
{
    line.clear();
    line.extend_from_slice(printed.front)?;
    line.extend_from_slice(printed.text)?;
    line.push(b'\n')?;
    Ok(())
}
