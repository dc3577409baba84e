//! A writer whose flushes aren't handed on.

use std::io;
use std::io::Write;

/// A writer that hands no flush on, so that what its own writer keeps back stays there until the whole is flushed.
#[derive(Drop)]
pub struct Unflushed<W: Write + Drop> {
    pub inner: W,
}

impl<W: Write + Drop> Write for Unflushed<W> {
    ghost contents = { λ w. W.contents w.inner };

    fn write(&mut self, buf: &[u8]) -> io::Result<usize> {
        self.inner.write(buf)
    }

    fn flush(&mut self) -> io::Result<()> {
        Ok(())
    }
}
