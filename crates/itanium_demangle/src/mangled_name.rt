//! Reads what follows the prefix of a symbol (Itanium C++ ABI 5.1.2).
ghost use Rattle.std.specs.Prelude.{OnOk};
ghost use Rattle.demangle_text.specs.State.{IsRun};
ghost use Rattle.itanium_grammar.specs.Answer.{initial};
ghost use Rattle.itanium_grammar.specs.Cases.{AfterName};
ghost use Rattle.itanium_reader.specs.Parser as spec;
ghost use Rattle.itanium_reader.specs.Outcome.{state, Gives, CountFits, TakesSome, SavedBounds};
ghost use Rattle.itanium_demangle.specs.Meaning.{ReadsAs};

use itanium_productions::{read_name, read_special_name};
use itanium_reader::{ReadResult, Reader};
use itanium_syntax::context::{Context, INITIAL};
use itanium_syntax::encodings::begins_special;

/// Reads what follows the prefix of a symbol: an encoding that ends right after its name. At most `depth` counted
/// productions may nest. A call of `read_encoding` would give the same and take 43 instructions more a name.
#[tactic(auto, using(itanium_reader::proofs::Rules::symbols))]
#[inline(always)]
fn read_symbol_name(reader: &mut Reader, depth: usize, context: Context) -> ReadResult
    requires count_fits { CountFits 1 (state reader.old) }
    ensures reads { Gives result reader.new (spec.parse_encoding depth AfterName context (state reader.old)) }
    ensures run { OnOk result (IsRun reader.old.buffer.value reader.new.buffer.value) }
    ensures bounds { TakesSome 1 result (state reader.old) (state reader.new) }
    ensures saved { SavedBounds 1 result (state reader.old) (state reader.new) }
{
    if begins_special(reader.rest) {
        read_special_name(reader, depth, context)
    } else {
        read_name(reader, depth, context, false)
    }
}

/// Reads `<mangled-name>` after its prefix. At most `depth` counted productions may nest.
#[tactic(auto, using(crate::proofs::Rules::readings))]
#[inline(always)]
pub(crate) fn read_mangled_name(reader: &mut Reader, depth: usize) -> ReadResult
    requires count_fits { CountFits 1 (state reader.old) }
    ensures reads { Gives result reader.new (spec.parse_encoding depth AfterName initial (state reader.old)) }
    // In terms of trees: `Ok` is a reading of the bytes, with which every other agrees. `Stop::Unreadable` means that
    // no reading is within the limits.
    ensures reading { ReadsAs result depth reader.old reader.new }
    ensures run { OnOk result (IsRun reader.old.buffer.value reader.new.buffer.value) }
    ensures bounds { TakesSome 1 result (state reader.old) (state reader.new) }
    ensures saved { SavedBounds 1 result (state reader.old) (state reader.new) }
{
    read_symbol_name(reader, depth, INITIAL)
}
