//! An output for code that knows std's writers alone.
ghost use Rattle.std.specs.Prelude.{◌≡◌, ◌≤◌, ◌<◌, ◌+◌, ◌++◌, ◌∷◌, [], ℕ, List, Option};
ghost use Rattle.std.specs.Prelude.{length, min, true, false, Ok, Err, IfOk, IfErr, OnOk, OnErr, IsTrue, codes};
ghost use Rattle.std.specs.Io.KnownBytes.{Appends, Keeps};
ghost use Rattle.std.proofs.Props.{props};
ghost use Rattle.byte_streams.specs.Causes.{Rose};

use crate::fault::SinkFault;
use crate::output::Output;
use std::io;
use std::io::{ErrorKind, Write};

/// An output, and whether it failed in the run of writes that was begun last.
///
/// It is itself a writer of std. What such code answers says nothing of the output, but what is kept here does: it
/// is so of each value of the type, whatever the code did.
#[derive(Drop)]
pub struct Sink<O: Output + Drop> {
    inner: O,
    begun: u64,
    failed: bool,
    ghost later: { begun ≤ O.failures inner } by { Prim.hlevel props },
    ghost cause: { failed ≡ true
        → min (begun + 1) 18446744073709551615 ≤ O.failures inner } by { Prim.hlevel props },
}

impl<O: Output + Drop> Write for Sink<O> {
    ghost contents = { λ sink. O.contents sink.inner };

    fn write(&mut self, buf: &[u8]) -> io::Result<usize> {
        match self.inner.write(buf) {
            Ok(n) => Ok(n),
            Err(_) => {
                self.failed = true;
                Err(io::Error::from(ErrorKind::Other))
            }
        }
    }

    fn flush(&mut self) -> io::Result<()> {
        match self.inner.flush() {
            Ok(()) => Ok(()),
            Err(_) => {
                self.failed = true;
                Err(io::Error::from(ErrorKind::Other))
            }
        }
    }
}

impl<O: Output + Drop> Sink<O> {
    ghost use Rattle.byte_streams.specs.Sinks.{begun_of, failed_of, inner_of, PeerCause, told};

    /// Nothing was written by way of it.
    pub fn new(inner: O) -> Sink<O>
        ensures { inner_of result ≡ inner }
    {
        let begun = inner.count_failures();
        Sink {
            inner,
            begun,
            failed: false,
        }
    }

    /// Begins a run of writes by code that knows std's writers alone, and says how often the output had failed before.
    pub fn begin(&mut self) -> u64
        ensures inner { inner_of self.new ≡ inner_of self.old }
        ensures count { result ≡ O.failures (inner_of self.old) }
        ensures begun { begun_of self.new ≡ result }
        ensures working { failed_of self.new ≡ false }
    {
        let count = self.inner.count_failures();
        self.begun = count;
        self.failed = false;
        count
    }

    /// What the answer of a run of writes is that was begun at this count: PeerFailed (49) where the output failed
    /// in it, and OutOfMemory (70) at another error, or where another run was begun meanwhile.
    pub fn answered(&self, count: u64, answer: io::Result<()>) -> Result<(), SinkFault>
        ensures ok { OnOk result (answer ≡ Ok tt) }
        ensures told { begun_of self.now ≡ count → result ≡ told (failed_of self.now) answer }
        ensures cause { PeerCause result count (O.failures (inner_of self.now)) }
    {
        if self.begun != count {
            return Err(SinkFault::OutOfMemory);
        }
        match answer {
            Ok(()) => Ok(()),
            Err(_) => {
                if self.failed {
                    Err(SinkFault::PeerFailed)
                } else {
                    Err(SinkFault::OutOfMemory)
                }
            }
        }
    }

    /// Hands on what is held back. PeerFailed (49) where the output failed, and only there.
    pub fn hand_on(&mut self) -> Result<(), SinkFault>
        ensures kept { Keeps (O.contents (inner_of self.old)) (O.contents (inner_of self.new)) }
        ensures handed { OnOk result (O.is_handed_on (inner_of self.new)) }
        ensures cause { PeerCause result (O.failures (inner_of self.old)) (O.failures (inner_of self.new)) }
        ensures only_peer { IfErr result (λ e. e ≡ SinkFault.PeerFailed) }
    {
        match self.inner.flush() {
            Ok(()) => Ok(()),
            Err(_) => Err(SinkFault::PeerFailed),
        }
    }

    /// The output.
    pub fn into_inner(self) -> O
        ensures { result ≡ inner_of self }
    {
        let Sink {
            inner,
            begun: _,
            failed: _,
        } = self;
        inner
    }
}
