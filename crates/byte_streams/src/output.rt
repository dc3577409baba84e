//! What is written to, as an engine sees it.
ghost use Rattle.std.specs.Prelude.{◌≡◌, ◌≤◌, ℕ, List, Option, length, IfOk, OnOk, OnErr};
ghost use Rattle.std.specs.Io.KnownBytes.{Appends, Keeps, WriteAppends};
ghost use Rattle.std.specs.Prelude.{true, false};
ghost use Rattle.byte_streams.specs.Causes.{HasCause, AppendsFront, Rose};

use crate::fault::StreamFault;

/// A place to write to. A call is refused only where the count of failures rose in it.
pub trait Output {
    /// The bytes that were written, where they are known.
    ghost contents: { Self → Option (List ℕ) };

    /// Nothing that was written is held back.
    ghost is_handed_on: { Self → Type 0 };

    /// How often it failed.
    ghost failures: { Self → ℕ };

    /// Writes a front of these bytes and says how many: none only where there are none. PeerFailed (49) where it
    /// failed.
    fn write(&mut self, bytes: &[u8]) -> Result<usize, StreamFault>
        ensures bound { IfOk result (λ n. n ≤ length bytes.now) }
        ensures some { IfOk result (λ n. n ≡ 0 → length bytes.now ≡ 0) }
        ensures bytes { WriteAppends (contents self.old) (contents self.new) result bytes.now }
        ensures cause { HasCause (failures self.old) (failures self.new) result };

    /// How often it failed, up to 2^64 - 1.
    fn count_failures(&self) -> u64
        ensures { result ≡ failures self.now };

    /// Hands on what is held back. PeerFailed (49) where it failed.
    fn flush(&mut self) -> Result<(), StreamFault>
        ensures kept { Keeps (contents self.old) (contents self.new) }
        ensures handed { OnOk result (is_handed_on self.new) }
        ensures cause { HasCause (failures self.old) (failures self.new) result };
}

/// Writes all these bytes. PeerFailed (49) where the output failed; then a front of them was written.
pub fn write_bytes<O: Output>(output: &mut O, bytes: &[u8]) -> Result<(), StreamFault>
    ensures bytes { OnOk result (Appends (O.contents output.old) (O.contents output.new) bytes.now) }
    ensures front { OnErr result (AppendsFront (O.contents output.old) (O.contents output.new) bytes.now) }
    ensures cause { HasCause (O.failures output.old) (O.failures output.new) result }
{
    let mut at = 0;
    while at < bytes.len() {
        at += output.write(&bytes[at..])?;
    }
    Ok(())
}

/// Whether an output has failed since it had failed so often; a count at its greatest tells that it has.
pub fn has_failed_since<O: Output>(output: &O, before: u64) -> bool
    ensures rose { result ≡ true → Rose before (O.failures output.now) }
    ensures stood { result ≡ false → O.failures output.now ≤ before }
{
    let now = output.count_failures();
    now > before || now == u64::MAX
}
