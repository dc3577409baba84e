//! What is read, as an engine sees it.
ghost use Rattle.std.specs.Prelude.{◌≤◌, ℕ, List, Option, length, IfOk};
ghost use Rattle.std.specs.Io.KnownBytes.{ReadConsumes};
ghost use Rattle.byte_streams.specs.Causes.{HasCause, CountsOne};

use crate::fault::StreamFault;

/// How many reads one stream gets, 2^40 - 1. Who would read once more refuses as where the stream failed.
pub const MOST_READS: u64 = 1_099_511_627_775;

/// Bytes to read. A read is refused only where the count of failures rose in it.
pub trait Input {
    /// The bytes that reads will give from here on, where they are known.
    ghost remaining: { Self → Option (List ℕ) };

    /// How often it failed.
    ghost failures: { Self → ℕ };

    /// How often it was read.
    ghost reads: { Self → ℕ };

    /// Reads some bytes into the front of `buf` and says how many: none only at the end, or where `buf` is empty.
    /// PeerFailed (49) where it failed.
    fn read(&mut self, buf: &mut [u8]) -> Result<usize, StreamFault>
        ensures bound { IfOk result (λ n. n ≤ length buf.new) }
        ensures bytes { ReadConsumes (remaining self.old) (remaining self.new) result buf.new }
        ensures counted { CountsOne (reads self.old) (reads self.new) }
        ensures cause { HasCause (failures self.old) (failures self.new) result };
}
