//! The filter of lines.
ghost use Rattle.std.specs.Prelude.{◌≡◌, ◌↔◌, false, [], IsTrue, IsErrOf, IfSome, Some, OnOk, OnErr};
ghost use Rattle.text_filter.specs.Printed.{Lines};
ghost use Rattle.text_filter.specs.Filtered.{FiltersAll, FiltersBeginning, FiltersAllButKept, FiltersWhole, WritesFiltered};

use super::chunks::filter_chunks;
use super::fault::FilterFault;
use super::streams::{Sink, Source};
use super::symbols::{Placement, SymbolReader};
use std::alloc::Global;

/// Reads to the end, and writes for each line what is printed for it as a symbol. A line is written as it is if nothing
/// is printed for it, or if it isn't UTF-8. A line goes up to the next line feed or the end of the input. If it has a
/// line feed, that is written too. Before each read, all whole lines that were read are written.
///
/// Returns at the first fault, and calls neither source nor sink after it. The fault is `Read` if the source has
/// failed, `Write` if the sink has failed, and `Memory` if an allocation has failed. What was written is then a
/// beginning of the filtered text: after `Read` the text of all whole lines that were read, and after `Memory` that of
/// some whole lines. The clause `memory` says that the output ends between two lines then. That it ends right before
/// the line whose allocation failed isn't proved.
pub fn filter_with<S: SymbolReader, R: Source, W: Sink>(
    alloc: Global,
    symbols: &mut S,
    printing: S::Printing,
    source: &mut R,
    sink: &mut W,
) -> Result<(), FilterFault>
    requires source_not_failed { R.failed source.old ≡ false }
    requires sink_not_failed { W.failed sink.old ≡ false }
    ensures read { IsErrOf result FilterFault.Read ↔ IsTrue (R.failed source.new) }
    ensures write { IsErrOf result FilterFault.Write ↔ IsTrue (W.failed sink.new) }
    // Neither source nor sink is called after a failure, which `called_late` would record.
    ensures source_in_time { R.called_late source.new ≡ R.called_late source.old }
    ensures sink_in_time { W.called_late sink.new ≡ W.called_late sink.old }
    // These clauses hold if the bytes of the source and of the sink are known.
    ensures used_up { OnOk result (IfSome (R.remaining source.old) (λ _. R.remaining source.new ≡ Some [])) }
    ensures ok { OnOk result (IfSome (R.remaining source.old) (λ given.
        WritesFiltered (Lines (S.prints printing)) given (W.taken sink.old) (W.taken sink.new))) }
    // Whether or not its bytes are known, the source gave some, and their filtered text was written.
    ensures all { OnOk result (FiltersAll (Lines (S.prints printing))
        (R.remaining source.old) (R.remaining source.new) (W.taken sink.old) (W.taken sink.new)) }
    ensures err { OnErr result (FiltersBeginning (Lines (S.prints printing))
        (R.remaining source.old) (R.remaining source.new) (W.taken sink.old) (W.taken sink.new)) }
    // Any call of the source may fail. All whole lines that the source gave are written before each call.
    ensures put { IsErrOf result FilterFault.Read → FiltersAllButKept (S.prints printing)
        (R.remaining source.old) (R.remaining source.new) (W.taken sink.old) (W.taken sink.new) }
    // After a failed allocation whole lines have been written, and nothing of the next line.
    ensures memory { IsErrOf result FilterFault.Memory → FiltersWhole (Lines (S.prints printing))
        (R.remaining source.old) (R.remaining source.new) (W.taken sink.old) (W.taken sink.new) }
{
    filter_chunks(alloc, symbols, Placement::Lines(printing), source, sink)
}
