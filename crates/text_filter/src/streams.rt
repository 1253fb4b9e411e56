//! The source from which bytes are read, and the sink to which they are written.
ghost use Rattle.std.specs.Prelude.{◌≡◌, ℕ, List, Bool, true, false, Option, None, ◌<◌, ◌≤◌, length, take, IsTrue, IfOk, IfSome, OnOk, OnErr};
ghost use Rattle.std.specs.Io.KnownBytes.{Appends, Consumes, IsAtEnd, Keeps};

/// A source or a sink has failed. The cause isn't kept.
#[derive(Clone, Copy, Debug, PartialEq, Eq)]
pub struct Failed;

/// Bytes are read from a source.
pub trait Source {
    // The bytes that are left, if they are known.
    ghost remaining: { Self → Option (List ℕ) } = { λ _. None };

    // Whether a read has failed. Once true, it stays true.
    ghost failed: { Self → Bool };
    // Whether a call was made after a failure, if that is recorded.
    ghost called_late: { Self → Option Bool } = { λ _. None };
    // The most further calls that give a byte.
    ghost calls_left: { Self → ℕ };

    /// Returns whether a call has failed. Once true, the result stays true.
    fn failed(&self) -> bool
        ensures value { result ≡ failed self.now };

    /// Reads the next bytes into the front of the slice, and returns their number. If the slice isn't empty, 0 means
    /// the end. A failed call gives no byte.
    fn take(&mut self, into: &mut [u8]) -> Result<usize, Failed>
        ensures bound { IfOk result (λ count. count ≤ length into.new) }
        ensures gives { IfOk result (λ count.
            Consumes (remaining self.old) (remaining self.new) (take count into.new)) }
        ensures end { IfOk result (λ count. count ≡ 0 → 0 < length into.new → IsAtEnd (remaining self.new)) }
        ensures fewer { IfOk result (λ count. 0 < count → calls_left self.new < calls_left self.old) }
        ensures fails { OnErr result (failed self.new ≡ true) }
        ensures gives_none { OnErr result (Keeps (remaining self.old) (remaining self.new)) }
        ensures stays { OnOk result (failed self.new ≡ failed self.old) }
        ensures in_time { failed self.old ≡ false → called_late self.new ≡ called_late self.old }
        ensures late { failed self.old ≡ true → IfSome (called_late self.new) IsTrue };
}

/// Bytes are written to a sink.
pub trait Sink {
    // The bytes taken so far, if they are known.
    ghost taken: { Self → Option (List ℕ) } = { λ _. None };

    // Whether a write has failed. Once true, it stays true.
    ghost failed: { Self → Bool };

    // Whether a call was made after a failure, if that is recorded.
    ghost called_late: { Self → Option Bool } = { λ _. None };

    /// Returns whether a call has failed. Once true, the result stays true.
    fn failed(&self) -> bool
        ensures value { result ≡ failed self.now };

    /// Writes a beginning of the bytes, and returns its length. Writes at least one byte if there is one. A failed
    /// call writes no byte.
    fn put(&mut self, bytes: &[u8]) -> Result<usize, Failed>
        ensures bound { IfOk result (λ count. count ≤ length bytes.now) }
        ensures some { IfOk result (λ count. 0 < length bytes.now → 0 < count) }
        ensures takes { IfOk result (λ count. Appends (taken self.old) (taken self.new) (take count bytes.now)) }
        ensures fails { OnErr result (failed self.new ≡ true) }
        ensures takes_none { OnErr result (Keeps (taken self.old) (taken self.new)) }
        ensures stays { OnOk result (failed self.new ≡ failed self.old) }
        ensures in_time { failed self.old ≡ false → called_late self.new ≡ called_late self.old }
        ensures late { failed self.old ≡ true → IfSome (called_late self.new) IsTrue };
}
