//! An output that is lent to code that knows std's writers alone, and comes back however that ends.
ghost use Rattle.std.specs.Prelude.{◌≡◌};

use crate::output::Output;
use std::io;
use std::io::{ErrorKind, Write};

/// An output, as a writer of std that goes back to its place when it is let go of.
///
/// Who gives it away, to code that keeps its writer or lets go of it at a refusal, finds the output in that place
/// again, and sees by its own count whether it failed.
pub struct Lent<'a, O: Output + Drop> {
    inner: O,
    back: &'a mut Option<O>,
}

impl<'a, O: Output + Drop> Lent<'a, O> {
    ghost use Rattle.byte_streams.specs.Lending.{output_of};

    /// An output whose place is this.
    pub fn new(inner: O, back: &'a mut Option<O>) -> Lent<'a, O>
        ensures { output_of result ≡ inner }
    {
        Lent { inner, back }
    }

    /// The output, which isn't lent any more.
    pub fn into_inner(self) -> O
        ensures { result ≡ output_of self.entry }
    {
        let Lent { inner, back: _ } = self;
        inner
    }
}

impl<O: Output + Drop> Drop for Lent<'_, O> {
    fn drop(self) {
        let Lent { inner, back } = self;
        *back = Some(inner);
    }
}

impl<O: Output + Drop> Write for Lent<'_, O> {
    ghost contents = { λ lent. O.contents lent.inner };

    fn write(&mut self, buf: &[u8]) -> io::Result<usize> {
        match self.inner.write(buf) {
            Ok(n) => Ok(n),
            Err(_) => Err(io::Error::from(ErrorKind::Other)),
        }
    }

    fn flush(&mut self) -> io::Result<()> {
        match self.inner.flush() {
            Ok(()) => Ok(()),
            Err(_) => Err(io::Error::from(ErrorKind::Other)),
        }
    }
}
