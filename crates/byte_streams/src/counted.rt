//! Streams over std's readers and writers.
ghost use Rattle.std.specs.Prelude.{◌≡◌, ◌≤◌, ◌<◌, ◌+◌, ℕ, List, Option, length, take, drop};
ghost use Rattle.std.specs.Prelude.{false, true, IfOk, OnOk, OnErr};
ghost use Rattle.std.specs.Io.KnownBytes.{Appends};
ghost use Rattle.byte_streams.specs.Causes.{Rose};

use crate::fault::StreamFault;
use crate::input::Input;
use crate::output::Output;
use std::io::{Read, Write};

/// A reader, how often it failed, and how often it was read.
#[derive(Drop)]
pub struct CountedReader<R: Read + Drop> {
    inner: R,
    failures: u64,
    reads: u64,
}

impl<R: Read + Drop> CountedReader<R> {
    ghost use Rattle.byte_streams.specs.Counted.{reader_of, failures_of, reads_of};

    /// A reader that wasn't read yet.
    pub fn new(inner: R) -> CountedReader<R>
        ensures inner { reader_of result ≡ inner }
        ensures failures { failures_of result ≡ 0 }
        ensures reads { reads_of result ≡ 0 }
    {
        CountedReader {
            inner,
            failures: 0,
            reads: 0,
        }
    }
}

impl<R: Read + Drop> Input for CountedReader<R> {
    ghost remaining = { λ input. R.remaining input.inner };

    ghost failures = { λ input. input.failures };

    ghost reads = { λ input. input.reads };

    fn read(&mut self, buf: &mut [u8]) -> Result<usize, StreamFault> {
        self.reads = self.reads.saturating_add(1);
        match self.inner.read(buf) {
            Ok(n) => Ok(n),
            Err(_) => {
                self.failures = self.failures.saturating_add(1);
                Err(StreamFault::PeerFailed)
            }
        }
    }
}

/// A writer, how often it failed, and whether it was written to since it was flushed.
#[derive(Drop)]
pub struct CountedWriter<W: Write + Drop> {
    inner: W,
    failures: u64,
    is_flushed: bool,
}

impl<W: Write + Drop> CountedWriter<W> {
    ghost use Rattle.byte_streams.specs.Counted.{writer_of, faults_of};

    /// A writer that nothing was written to.
    pub fn new(inner: W) -> CountedWriter<W>
        ensures inner { writer_of result ≡ inner }
        ensures failures { faults_of result ≡ 0 }
    {
        CountedWriter {
            inner,
            failures: 0,
            is_flushed: true,
        }
    }

    /// The writer.
    pub fn into_inner(self) -> W
        ensures { result ≡ writer_of self }
    {
        let CountedWriter {
            inner,
            failures: _,
            is_flushed: _,
        } = self;
        inner
    }

    // Counts a failure of the writer.
    fn fail(&mut self) -> StreamFault
        ensures inner { self.new.inner ≡ self.old.inner }
        ensures rose { Rose self.old.failures self.new.failures }
        ensures later { self.old.failures ≤ self.new.failures }
    {
        self.failures = self.failures.saturating_add(1);
        StreamFault::PeerFailed
    }
}

impl<W: Write + Drop> Output for CountedWriter<W> {
    ghost contents = { λ output. W.contents output.inner };

    ghost is_handed_on = { λ output. output.is_flushed ≡ true };

    ghost failures = { λ output. output.failures };

    fn write(&mut self, bytes: &[u8]) -> Result<usize, StreamFault> {
        if bytes.is_empty() {
            return Ok(0);
        }
        self.is_flushed = false;
        match self.inner.write(bytes) {
            Ok(0) => Err(self.fail()),
            Ok(n) => Ok(n),
            Err(_) => Err(self.fail()),
        }
    }

    fn count_failures(&self) -> u64 {
        self.failures
    }

    fn flush(&mut self) -> Result<(), StreamFault> {
        match self.inner.flush() {
            Ok(()) => {
                self.is_flushed = true;
                Ok(())
            }
            Err(_) => Err(self.fail()),
        }
    }
}
