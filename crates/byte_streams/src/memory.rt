//! An output in memory, for tests.
ghost use Rattle.std.specs.Prelude.{◌≡◌, ◌≤◌, ◌<◌, ◌+◌, ◌++◌, ℕ, List, [], Option, Some};
ghost use Rattle.std.specs.Prelude.{length, take, drop};
ghost use Rattle.byte_streams.specs.Causes.{Rose};

use crate::fault::StreamFault;
use crate::output::Output;
use std::alloc::Global;

/// Bytes that were written, where so many writes pass and later ones fail.
#[derive(Drop)]
pub struct MemOutput {
    bytes: Vec<u8>,
    handed_on: usize,
    passing: u64,
    failures: u64,
}

impl MemOutput {
    ghost use Rattle.byte_streams.specs.Memory.{failures_of, handed_of, held_of};

    /// Nothing was written.
    pub fn new(alloc: Global, passing: u64) -> MemOutput
        ensures bytes { held_of result ≡ [] }
        ensures handed { handed_of result ≡ 0 }
        ensures failures { failures_of result ≡ 0 }
    {
        MemOutput {
            bytes: Vec::new(alloc),
            handed_on: 0,
            passing,
            failures: 0,
        }
    }

    /// What was written.
    pub fn bytes(&self) -> &[u8]
        ensures { result.now ≡ held_of self.now }
    {
        self.bytes.as_slice()
    }

    /// How many of these bytes are handed on.
    pub fn handed_on(&self) -> usize
        ensures { result ≡ handed_of self.now }
    {
        self.handed_on
    }

    // Counts a failure.
    fn fail(&mut self) -> StreamFault
        ensures bytes { self.new.bytes ≡ self.old.bytes }
        ensures rose { Rose self.old.failures self.new.failures }
        ensures later { self.old.failures ≤ self.new.failures }
    {
        self.failures = self.failures.saturating_add(1);
        StreamFault::PeerFailed
    }
}

impl Output for MemOutput {
    ghost contents = { λ output. Some output.bytes.items };

    ghost is_handed_on = { λ output. output.handed_on ≡ length output.bytes.items };

    ghost failures = { λ output. output.failures };

    fn write(&mut self, bytes: &[u8]) -> Result<usize, StreamFault> {
        if self.passing == 0 {
            return Err(self.fail());
        }
        self.passing -= 1;
        match self.bytes.extend_from_slice(bytes) {
            Ok(()) => Ok(bytes.len()),
            Err(_) => Err(self.fail()),
        }
    }

    fn count_failures(&self) -> u64 {
        self.failures
    }

    fn flush(&mut self) -> Result<(), StreamFault> {
        self.handed_on = self.bytes.len();
        Ok(())
    }
}
