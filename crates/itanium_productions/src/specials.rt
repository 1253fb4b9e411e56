//! Special names (Itanium C++ ABI 5.1.4, "Other Special Functions and Entities").
#![tactic(auto, using(itanium_reader::proofs::Rules::buffers))]

ghost use Rattle.std.specs.Prelude.{◌≡◌, ◌<◌, OnOk, length};
ghost use Rattle.demangle_text.specs.State.{IsRun};
ghost use Rattle.itanium_reader.specs.Parser as spec;
ghost use Rattle.itanium_reader.specs.Outcome.{state, Gives, CountFits, TakesSome, SavedBounds};

use crate::encodings::read_encoding;
use crate::frames::{Framed, read_framed, read_worded};
use crate::types::read_type;
use itanium_reader::{ReadResult, Reader, Stop};
use itanium_syntax::context::Context;
use itanium_syntax::encodings::EncodingEnd;
use itanium_syntax::offsets::past_base_offset;
use itanium_syntax::specials::{SpecialCase, special_case, special_close, special_text};

/// Reads `GR <name> [<seq-id>] _`, a reference temporary.
#[cycle(reader)]
pub(crate) fn read_temporary(reader: &mut Reader, depth: usize, context: Context) -> ReadResult
    requires count_fits { CountFits 0 (state reader.old) }
    requires some { 0 < length reader.old.rest.now }
    ensures reads { Gives result reader.new (spec.parse_temporary (spec.parse_name depth context) (state reader.old)) }
    ensures run { OnOk result (IsRun reader.old.buffer.value reader.new.buffer.value) }
    ensures bounds { TakesSome 0 result (state reader.old) (state reader.new) }
    ensures saved { SavedBounds 1 result (state reader.old) (state reader.new) }
{
    reader.skip(2);
    tri!(read_framed(reader, depth, context, Framed::FramedName));
    reader.end_temporary()
}

/// Reads `TC <type> <offset number> _ <base type>`, a construction vtable.
#[tactic(auto, using(itanium_reader::proofs::Rules::words))]
#[cycle(reader)]
pub(crate) fn read_construction(reader: &mut Reader, depth: usize, context: Context) -> ReadResult
    requires count_fits { CountFits 0 (state reader.old) }
    requires some { 0 < length reader.old.rest.now }
    ensures reads { Gives result reader.new
        (spec.parse_construction (spec.parse_type depth context) (state reader.old)) }
    ensures run { OnOk result (IsRun reader.old.buffer.value reader.new.buffer.value) }
    ensures bounds { TakesSome 0 result (state reader.old) (state reader.new) }
    ensures saved { SavedBounds 1 result (state reader.old) (state reader.new) }
{
    reader.skip(2);
    tri!(read_type(reader, depth, context));
    let class = reader.found;
    let Some(rest) = past_base_offset(reader.rest) else {
        return Err(Stop::Unreadable);
    };
    reader.rest = rest;
    let begun = or_memory!(reader.buffer.push(b"construction vtable for "));
    tri!(read_framed(reader, depth, context, Framed::FramedType));
    let whole = reader.buffer.up_to_end(begun);
    reader.found = or_memory!(reader.buffer.join(whole, b"-in-", class));
    Ok(())
}

/// Reads `T <call-offset> <encoding>` or `T c <call-offset> <call-offset> <encoding>`. At most `depth` counted
/// productions may nest, this one included.
#[tactic(auto, using(itanium_reader::proofs::Rules::thunks))]
#[cycle(reader)]
pub(crate) fn read_thunk(reader: &mut Reader, depth: usize, context: Context) -> ReadResult
    requires count_fits { CountFits 1 (state reader.old) }
    requires some { 0 < length reader.old.rest.now }
    ensures reads { Gives result reader.new (spec.parse_thunk depth context (state reader.old)) }
    ensures run { OnOk result (IsRun reader.old.buffer.value reader.new.buffer.value) }
    ensures refused { depth ≡ 0 → reader.new.entered ≡ reader.old.entered }
    ensures bounds { TakesSome 1 result (state reader.old) (state reader.new) }
    ensures saved { SavedBounds 1 result (state reader.old) (state reader.new) }
{
    let depth = tri!(reader.enter(depth));
    tri!(reader.open_thunk());
    let begun = reader.found;
    let mark = reader.buffer.open();
    tri!(read_encoding(reader, depth, context, EncodingEnd::AfterName));
    tri!(reader.close_found(mark));
    tri!(reader.join_words(begun, b")}"));
    reader.check_width()
}

/// Reads `<special-name>`. Returns `Stop::Unreadable` for a special name that isn't supported.
#[tactic(auto, using(itanium_reader::proofs::Rules::specials))]
#[cycle(reader)]
pub fn read_special_name(reader: &mut Reader, depth: usize, context: Context) -> ReadResult
    requires count_fits { CountFits 1 (state reader.old) }
    ensures reads { Gives result reader.new (spec.parse_special depth context (state reader.old)) }
    ensures run { OnOk result (IsRun reader.old.buffer.value reader.new.buffer.value) }
    ensures bounds { TakesSome 1 result (state reader.old) (state reader.new) }
    ensures saved { SavedBounds 1 result (state reader.old) (state reader.new) }
{
    let inner = match special_case(reader.rest) {
        SpecialCase::TypeSpecial => Framed::FramedType,
        SpecialCase::NameSpecial => Framed::FramedName,
        SpecialCase::TemporarySpecial => return read_temporary(reader, depth, context),
        SpecialCase::ConstructionSpecial => return read_construction(reader, depth, context),
        SpecialCase::ThunkSpecial => return read_thunk(reader, depth, context),
        SpecialCase::UnreadableSpecial => return Err(Stop::Unreadable),
    };
    let words = special_text(reader.rest);
    let close = special_close(reader.rest);
    reader.skip(2);
    read_worded(reader, depth, context, words, inner, close)
}
