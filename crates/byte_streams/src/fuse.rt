//! An input that fails from a given read on, for tests.
ghost use Rattle.std.specs.Prelude.{◌≡◌, ◌≤◌, ◌<◌, ◌+◌, ℕ, List, Option, length, take, drop};

use crate::fault::StreamFault;
use crate::input::Input;

/// Another input, of whose reads a number pass and each later one fails and leaves that input alone.
#[derive(Drop)]
pub struct FuseInput<I: Input> {
    inner: I,
    passing: u64,
    failures: u64,
    reads: u64,
}

impl<I: Input> FuseInput<I> {
    ghost use Rattle.byte_streams.specs.Memory.{inner_of, passing_in, reads_of};

    /// So many reads pass.
    pub fn new(inner: I, passing: u64) -> FuseInput<I>
        ensures inner { inner_of result ≡ inner }
        ensures passing { passing_in result ≡ passing }
        ensures reads { reads_of result ≡ 0 }
    {
        FuseInput {
            inner,
            passing,
            failures: 0,
            reads: 0,
        }
    }

    /// How many more reads pass.
    pub fn passing(&self) -> u64
        ensures { result ≡ passing_in self.now }
    {
        self.passing
    }

    /// How often it was read.
    pub fn reads(&self) -> u64
        ensures { result ≡ reads_of self.now }
    {
        self.reads
    }
}

impl<I: Input> Input for FuseInput<I> {
    ghost remaining = { λ input. I.remaining input.inner };

    ghost failures = { λ input. I.failures input.inner + input.failures };

    ghost reads = { λ input. input.reads };

    fn read(&mut self, buf: &mut [u8]) -> Result<usize, StreamFault> {
        self.reads = self.reads.saturating_add(1);
        if self.passing == 0 {
            self.failures = self.failures.saturating_add(1);
            return Err(StreamFault::PeerFailed);
        }
        self.passing -= 1;
        self.inner.read(buf)
    }
}
