//! What a source and a sink promise.
ghost use Rattle.std.specs.Prelude.{◌≡◌, ℕ, ◌+◌, ◌<◌, ◌≤◌, ◌⊎◌, ◌||◌, List, length, take, Option, Bool, true, false, IfOk, OnOk, OnErr};
ghost use Rattle.edge_io.specs.Bytes.{Consumes, Appends, Keeps, IsAtEnd, Rose, is_end};

/// A read or a write failed.
#[derive(Clone, Copy, Debug, PartialEq, Eq)]
pub struct Failed;

/// Where bytes are read from. Its count of faults never falls.
///
/// Each read is shown a sink of type `K`, so that a source can tell whether it was asked for more while bytes still waited there.
/// What is generic over `K` and is handed one sink has no other to show.
pub trait Source<K: Sink> {
    /// The bytes that are left, where the source tells them.
    ghost left: { Self → Option (List ℕ) };

    /// How many reads have failed, up to the greatest `u64`.
    ghost faults: { Self → ℕ };

    /// Whether a read into a buffer that isn't empty has answered 0.
    ghost ended: { Self → Bool };

    /// Whether a read has begun while bytes waited in the sink that it was shown.
    ghost hasty: { Self → Bool };

    /// Moves the next bytes to the front of the buffer, and gives how many they are. 0 is the end of
    /// input, where the buffer isn't empty. What stands in the buffer behind them is left open.
    ///
    /// `Failed` comes only where the count of faults rose, and moves nothing.
    fn read(&mut self, sink: &K, buf: &mut [u8]) -> Result<usize, Failed>
        ensures bound { IfOk result (λ n. n ≤ length buf.new) }
        ensures moved { IfOk result (λ n. Consumes (left self.old) (left self.new) (take n buf.new)) }
        ensures end { IfOk result (λ n. n ≡ 0 → 0 < length buf.old → IsAtEnd (left self.new)) }
        ensures mark { ended self.new ≡ (ended self.old || is_end result (length buf.old)) }
        ensures haste { hasty self.new ≡ (hasty self.old || K.waits sink.now) }
        ensures failed { OnErr result (Rose (faults self.old) (faults self.new)) }
        ensures kept { OnErr result (Keeps (left self.old) (left self.new)) }
        ensures unfailed { OnOk result (faults self.new ≡ faults self.old) }
        ensures counts { faults self.old ≤ faults self.new };
}

/// Where bytes are written to. Its count of faults never falls.
pub trait Sink {
    /// The bytes that the sink holds, where it tells them.
    ghost held: { Self → Option (List ℕ) };

    /// How many writes and flushes have failed, and how many writes have taken nothing of a piece that isn't empty, up to the
    /// greatest `u64`.
    ghost faults: { Self → ℕ };

    /// Whether bytes were written behind the last flush that didn't fail, so that some may wait in the sink.
    ghost waits: { Self → Bool };

    /// Whether bytes were written behind the last flush that didn't fail.
    fn is_waiting(&self) -> bool
        ensures { result ≡ waits self.now };

    /// Appends the first bytes of the piece, and gives how many they are.
    ///
    /// `Failed`, and 0 of a piece that isn't empty, come only where the count of faults rose.
    fn write(&mut self, piece: &[u8]) -> Result<usize, Failed>
        ensures bound { IfOk result (λ n. n ≤ length piece.now) }
        ensures appended { IfOk result (λ n. Appends (held self.old) (held self.new) (take n piece.now)) }
        ensures nothing { IfOk result (λ n. n ≡ 0 → 0 < length piece.now → Rose (faults self.old) (faults self.new)) }
        ensures failed { OnErr result (Rose (faults self.old) (faults self.new)) }
        ensures kept { OnErr result (Keeps (held self.old) (held self.new)) }
        ensures unfailed { IfOk result (λ n. 0 < n ⊎ length piece.now ≡ 0 → faults self.new ≡ faults self.old) }
        ensures waiting { IfOk result (λ n. 0 < n → waits self.new ≡ true) }
        ensures still_waiting { waits self.old ≡ true → waits self.new ≡ true }
        ensures counts { faults self.old ≤ faults self.new };

    /// Hands on what waits in the sink, so that nothing waits behind an `Ok`. What it holds stays, whether or not it waits.
    ///
    /// `Failed` comes only where the count of faults rose.
    fn flush(&mut self) -> Result<(), Failed>
        ensures kept { Keeps (held self.old) (held self.new) }
        ensures failed { OnErr result (Rose (faults self.old) (faults self.new)) }
        ensures unfailed { OnOk result (faults self.new ≡ faults self.old) }
        ensures handed_on { OnOk result (waits self.new ≡ false) }
        ensures still_waiting { OnErr result (waits self.old ≡ true → waits self.new ≡ true) }
        ensures counts { faults self.old ≤ faults self.new };
}

/// Raises a count of faults, which stays at the greatest `u64`.
pub(crate) fn count_fault(faults: &mut u64)
    ensures rose { Rose faults.old faults.new }
    ensures by_one { faults.new ≤ faults.old + 1 }
    ensures counts { faults.old ≤ faults.new }
{
    *faults = faults.saturating_add(1);
}
