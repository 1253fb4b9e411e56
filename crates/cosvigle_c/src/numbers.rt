//! What the numbers of a call from C ask for.
ghost use Rattle.std.specs.Prelude.{◌≡◌};
ghost use Rattle.cosvigle_c.specs.Numbers as spec;

use cosvigle_engine::{Kind, Mode, Printing, Style};

/// The bytes of memory for each node that may be kept to read a symbol, with all that may be kept beside it.
const NODE_MEMORY: usize = 256;

/// The parts of a symbol.
#[derive(Clone, Copy)]
pub enum Piece {
    /// The base of the name.
    BaseName,
    /// The scopes around it.
    Context,
    /// The parameters, in parentheses.
    Parameters,
    /// The return type.
    ReturnType,
}

/// Returns how much of a declaration the number asks for, or `None` if it asks for two modes.
fn mode_of(number: u32) -> Option<Mode>
    ensures value { result ≡ spec.mode_of number }
{
    match number {
        0 => Some(Mode::Declaration),
        1 => Some(Mode::Signature),
        2 => Some(Mode::Name),
        _ => None,
    }
}

/// Returns the style that the number asks for, or `None` if it asks for two.
fn style_of(number: u32) -> Option<Style>
    ensures value { result ≡ spec.style_of number }
{
    match number {
        0 => Some(Style::Gnu),
        1 => Some(Style::GnuShort),
        2 => Some(Style::Llvm),
        _ => None,
    }
}

/// Returns whether the number asks for types too, or `None` if it has a bit that is unknown.
fn types_of(number: u32) -> Option<bool>
    ensures value { result ≡ spec.types_of number }
{
    match number {
        0 => Some(false),
        1 => Some(true),
        _ => None,
    }
}

/// Returns what a sum of flags asks for, without a limit. The two lowest bits are the mode, the next two the style, and
/// the fifth asks for types.
pub(crate) fn printing_of(flags: u32) -> Option<Printing>
    ensures value { result ≡ spec.printing_of flags }
{
    let Some(mode) = mode_of(flags % 4) else {
        return None;
    };
    let Some(style) = style_of(flags / 4 % 4) else {
        return None;
    };
    let Some(types) = types_of(flags / 16) else {
        return None;
    };
    Some(Printing {
        types,
        part: cosvigle_engine::Part {
            mode,
            style,
            limit: None,
        },
    })
}

/// Returns the same printing with this limit.
pub(crate) fn within(printing: Printing, limit: Option<usize>) -> Printing
    ensures value { result ≡ spec.within printing limit }
{
    Printing {
        types: printing.types,
        part: cosvigle_engine::Part {
            mode: printing.part.mode,
            style: printing.part.style,
            limit,
        },
    }
}

/// Returns how many nodes may be kept to read a symbol in so many bytes of memory. 0 is the default.
pub(crate) fn limit_of(bytes: usize) -> Option<usize>
    ensures value { result ≡ spec.limit_of bytes }
{
    if bytes == 0 {
        return None;
    }
    Some(bytes / NODE_MEMORY)
}

/// Returns the part that the number asks for.
pub(crate) fn piece_of(number: u32) -> Option<Piece>
    ensures value { result ≡ spec.piece_of number }
{
    match number {
        0 => Some(Piece::BaseName),
        1 => Some(Piece::Context),
        2 => Some(Piece::Parameters),
        3 => Some(Piece::ReturnType),
        _ => None,
    }
}

/// Returns the number of what a symbol stands for: 0 if it wasn't read.
pub(crate) fn number_of(kind: Option<Kind>) -> i32
    ensures value { result ≡ spec.number_of kind }
{
    match kind {
        None => 0,
        Some(Kind::Function) => 1,
        Some(Kind::Data) => 2,
        Some(Kind::Special) => 3,
    }
}
