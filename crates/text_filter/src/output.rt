//! Writes to a sink.
ghost use Rattle.std.specs.Prelude.{◌≡◌, true, false, ◌<◌, OnOk, OnErr};
ghost use Rattle.std.specs.Io.KnownBytes.{Appends};
ghost use Rattle.text_filter.specs.Fault.{IsWriteOutcome};
ghost use Rattle.text_filter.specs.Progress.{WritesFrontOfBytes};

use super::fault::FilterFault;
use super::streams::{Failed, Sink};

/// Writes all the bytes. Returns `FilterFault::Write` if the sink fails.
pub(crate) fn write_all<W: Sink>(sink: &mut W, bytes: &[u8]) -> Result<(), FilterFault>
    requires not_failed { W.failed sink.old ≡ false }
    ensures outcome { IsWriteOutcome result (W.failed sink.new) }
    ensures in_time { W.called_late sink.new ≡ W.called_late sink.old }
    ensures ok { OnOk result (Appends (W.taken sink.old) (W.taken sink.new) bytes.now) }
    ensures fails { OnErr result (W.failed sink.new ≡ true) }
    ensures err { OnErr result (WritesFrontOfBytes bytes.now (W.taken sink.old) (W.taken sink.new)) }
{
    let mut rest = bytes;
    while !rest.is_empty() {
        match sink.put(rest) {
            Ok(count) => rest = &rest[count..],
            Err(Failed) => return Err(FilterFault::Write),
        }
    }
    Ok(())
}
