//! Readers and writers for the tests, cut anyhow and failing.

use byte_streams::{CountedReader, FuseInput, Output};
use ra_serve::ClientItems;
use std::alloc::Global;
use std::io;
use std::io::{ErrorKind, Read, Write};

/// A reader that gives so many bytes at a time.
#[derive(Drop)]
pub(crate) struct Cut<'a> {
    bytes: &'a [u8],
    size: usize,
}

impl Read for Cut<'_> {
    fn read(&mut self, buf: &mut [u8]) -> io::Result<usize> {
        let n = self.size.min(self.bytes.len()).min(buf.len());
        buf[..n].copy_from_slice(&self.bytes[..n]);
        self.bytes = &self.bytes[n..];
        Ok(n)
    }
}

/// A reader that gives so many bytes at a time, of whose reads so many pass.
pub(crate) type Fused<'a> = FuseInput<CountedReader<Cut<'a>>>;

/// The items of such a reader, of a client that is told by an output.
pub(crate) fn items_from<O: Output>(
    alloc: Global,
    bytes: &[u8],
    size: usize,
    passing: u64,
) -> ClientItems<Fused<'_>, O> {
    let size = size.max(1);
    let reader = CountedReader::new(Cut { bytes, size });
    ClientItems::new(alloc, FuseInput::new(reader, passing))
}

/// A writer that takes what there is room for, and doesn't hand it on where it is closed.
#[derive(Drop)]
pub(crate) struct Held<'a> {
    pub(crate) bytes: &'a mut Vec<u8>,
    pub(crate) closed: bool,
}

impl<'a> Write for Held<'a> {
    fn write(&mut self, buf: &[u8]) -> io::Result<usize> {
        self.bytes.extend_from_slice(buf)?;
        Ok(buf.len())
    }

    fn flush(&mut self) -> io::Result<()> {
        if self.closed {
            return Err(io::Error::from(ErrorKind::BrokenPipe));
        }
        Ok(())
    }
}

/// A writer of whose calls so many pass, writes and flushes, and each later one fails.
#[derive(Drop)]
pub(crate) struct Passing<'a> {
    pub(crate) bytes: &'a mut Vec<u8>,
    pub(crate) left: u64,
}

impl Passing<'_> {
    // Lets one more call pass.
    fn pass(&mut self) -> io::Result<()> {
        if self.left == 0 {
            return Err(io::Error::from(ErrorKind::BrokenPipe));
        }
        self.left -= 1;
        Ok(())
    }
}

impl<'a> Write for Passing<'a> {
    fn write(&mut self, buf: &[u8]) -> io::Result<usize> {
        self.pass()?;
        self.bytes.extend_from_slice(buf)?;
        Ok(buf.len())
    }

    fn flush(&mut self) -> io::Result<()> {
        self.pass()
    }
}
