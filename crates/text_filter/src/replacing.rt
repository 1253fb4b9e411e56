//! The replacement of symbols in words.
ghost use Rattle.std.specs.Prelude.{◌≡◌, ◌↔◌, false, [], IsTrue, IsErrOf, IfSome, Some, OnOk, OnErr};
ghost use Rattle.text_filter.specs.Printed.{Words, worded};
ghost use Rattle.text_filter.specs.Filtered.{FiltersAll, FiltersBeginning, FiltersWhole, ReplacesAllButKept, WritesFiltered};

use super::chunks::filter_chunks;
use super::fault::FilterFault;
use super::streams::{Sink, Source};
use super::symbols::{Placement, ReplaceOptions, SymbolReader};
use std::alloc::Global;

/// Reads to the end, and writes the replaced text: each symbol in a word is replaced by what is printed for it. A word
/// is a maximal run of ASCII letters, digits, `_`, `$` and `.`. Its symbol is at its front, or after `.`, `$`, `__imp_`
/// or the name of a section, as in `.text._Z1fv`. These prefix characters and the dots at the word's end stay. With
/// `strip`, one more underscore is in front of the symbol, and is dropped. If the reader reads all texts, each word is
/// one.
///
/// Before each read, all that was read is written, except a last word that may hold a symbol. In such a word a symbol
/// follows the prefix characters, or it begins with a dot, or it has fewer than twelve bytes. A line may have any
/// length, since only such a word is kept.
///
/// The faults are those of `filter`, and what was written is a beginning of the replaced text. After `Read` that is
/// the text of all but the word that is kept, and after `Memory` that of some whole words.
pub fn replace<S: SymbolReader, R: Source, W: Sink>(
    alloc: Global,
    symbols: &mut S,
    options: ReplaceOptions<S::Printing>,
    source: &mut R,
    sink: &mut W,
) -> Result<(), FilterFault>
    requires source_not_failed { R.failed source.old ≡ false }
    requires sink_not_failed { W.failed sink.old ≡ false }
    ensures read { IsErrOf result FilterFault.Read ↔ IsTrue (R.failed source.new) }
    ensures write { IsErrOf result FilterFault.Write ↔ IsTrue (W.failed sink.new) }
    // Neither source nor sink is called after a failure, which `called_late` would record.
    ensures source_in_time { R.called_late source.new ≡ R.called_late source.old }
    ensures sink_in_time { W.called_late sink.new ≡ W.called_late sink.old }
    // These clauses hold if the bytes of the source and of the sink are known.
    ensures used_up { OnOk result (IfSome (R.remaining source.old) (λ _. R.remaining source.new ≡ Some [])) }
    ensures ok { OnOk result (IfSome (R.remaining source.old) (λ given.
        WritesFiltered (Words (worded S.all S.prints options)) given (W.taken sink.old) (W.taken sink.new))) }
    // Whether or not its bytes are known, the source gave some, and their replaced text was written.
    ensures all { OnOk result (FiltersAll (Words (worded S.all S.prints options))
        (R.remaining source.old) (R.remaining source.new) (W.taken sink.old) (W.taken sink.new)) }
    ensures err { OnErr result (FiltersBeginning (Words (worded S.all S.prints options))
        (R.remaining source.old) (R.remaining source.new) (W.taken sink.old) (W.taken sink.new)) }
    // Any call of the source may fail. All that the source gave is written before each call, except a word that may
    // hold a symbol.
    ensures put { IsErrOf result FilterFault.Read → ReplacesAllButKept (worded S.all S.prints options)
        (R.remaining source.old) (R.remaining source.new) (W.taken sink.old) (W.taken sink.new) }
    // After a failed allocation whole words have been written, and nothing of the next word.
    ensures memory { IsErrOf result FilterFault.Memory → FiltersWhole (Words (worded S.all S.prints options))
        (R.remaining source.old) (R.remaining source.new) (W.taken sink.old) (W.taken sink.new) }
{
    filter_chunks(alloc, symbols, Placement::Words(options), source, sink)
}
