//! Productions in a frame of their own, and the words that are printed around them.
#![tactic(auto, using(itanium_reader::proofs::Rules::words))]

ghost use Rattle.std.specs.Prelude.{◌≡◌, ◌++◌, OnOk};
ghost use Rattle.demangle_text.specs.State.{shape, IsRun, SameFrame, main_bytes};
ghost use Rattle.demangle_text.specs.Shape.{text};
ghost use Rattle.itanium_reader.specs.Outcome.{state, Gives, CountFits, TakesSome, SavedBounds};
ghost use Rattle.itanium_productions.specs.Frames as spec;

use crate::expressions::{read_expression, read_operand};
use crate::names::read_name;
use crate::types::read_type;
use itanium_reader::{ReadResult, Reader};
use itanium_syntax::context::Context;

/// What is read in a frame of its own.
#[derive(Clone, Copy)]
pub(crate) enum Framed {
    /// `<type>`
    FramedType,
    /// `<name>`, whose own qualifiers are printed after it
    FramedName,
    /// `<expression>`
    FramedExpression,
    /// `<expression>`, in parentheses unless it is an external name
    FramedOperand,
}

/// Reads the production that `framed` names in a frame of its own. Pieces that lived before keep their shapes. The
/// output afterwards is the old output followed by the text of `found`.
#[cycle(reader)]
#[inline(always)]
pub(crate) fn read_framed(
    reader: &mut Reader,
    depth: usize,
    context: Context,
    framed: Framed,
) -> ReadResult
    requires count_fits { CountFits 2 (state reader.old) }
    ensures reads { Gives result reader.new (spec.parse_framed framed depth context (state reader.old)) }
    ensures kept { OnOk result (SameFrame reader.old.buffer.value reader.new.buffer.value) }
    ensures output { OnOk result (main_bytes reader.new.buffer.value
        ≡ main_bytes reader.old.buffer.value ++ text (shape reader.new.buffer.value reader.new.found)) }
    ensures bounds { TakesSome 2 result (state reader.old) (state reader.new) }
    ensures saved { SavedBounds 0 result (state reader.old) (state reader.new) }
{
    let mark = reader.buffer.open();
    let read = match framed {
        Framed::FramedType => read_type(reader, depth, context),
        Framed::FramedName => read_name(reader, depth, context, false),
        Framed::FramedExpression => read_expression(reader, depth, context),
        Framed::FramedOperand => read_operand(reader, depth, context),
    };
    tri!(read);
    reader.close_found(mark)
}

/// Prints `words`, reads a production in a frame of its own, and prints `close`. The production's text is printed right
/// after the words, so it need not move. Afterwards `found` is the whole.
#[cycle(reader)]
#[inline(always)]
pub(crate) fn read_worded(
    reader: &mut Reader,
    depth: usize,
    context: Context,
    words: &[u8],
    framed: Framed,
    close: &[u8],
) -> ReadResult
    requires count_fits { CountFits 2 (state reader.old) }
    ensures reads { Gives result reader.new (spec.parse_between words.now
        (spec.parse_framed framed depth context) close.now (state reader.old)) }
    ensures run { OnOk result (IsRun reader.old.buffer.value reader.new.buffer.value) }
    ensures bounds { TakesSome 2 result (state reader.old) (state reader.new) }
    ensures saved { SavedBounds 0 result (state reader.old) (state reader.new) }
{
    let begun = or_memory!(reader.buffer.push(words));
    tri!(read_framed(reader, depth, context, framed));
    reader.join_words(begun, close)
}
