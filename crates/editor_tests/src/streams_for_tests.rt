//! Readers and writers for the tests, cut anyhow and failing.

use byte_streams::CountedReader;
use ra_edit::stream::ItemStream;
use std::alloc::Global;
use std::io;
use std::io::{ErrorKind, Read, Write};

/// A reader that gives so many bytes at a time, and at their end the end of input or an error.
#[derive(Drop)]
pub(crate) struct Lent<'a> {
    bytes: &'a [u8],
    size: usize,
    breaks: bool,
}

impl Read for Lent<'_> {
    fn read(&mut self, buf: &mut [u8]) -> io::Result<usize> {
        if self.breaks && self.bytes.is_empty() {
            return Err(io::Error::from(ErrorKind::ConnectionReset));
        }
        let n = self.size.min(self.bytes.len()).min(buf.len());
        buf[..n].copy_from_slice(&self.bytes[..n]);
        self.bytes = &self.bytes[n..];
        Ok(n)
    }
}

/// The items of bytes that come so many at a time, and behind them the end of input or an error.
pub(crate) fn items_from(
    alloc: Global,
    bytes: &[u8],
    size: usize,
    breaks: bool,
) -> ItemStream<CountedReader<Lent<'_>>> {
    let size = size.max(1);
    let reader = CountedReader::new(Lent {
        bytes,
        size,
        breaks,
    });
    ItemStream::new(alloc, reader)
}

/// A writer that takes so many writes, each of so many bytes at most, and fails from then on.
#[derive(Drop)]
pub(crate) struct Failing<'a> {
    pub(crate) bytes: &'a mut Vec<u8>,
    pub(crate) left: usize,
    pub(crate) size: usize,
}

impl<'a> Failing<'a> {
    /// A writer that doesn't fail by itself.
    pub(crate) fn never(bytes: &'a mut Vec<u8>) -> Failing<'a> {
        Failing {
            bytes,
            left: usize::MAX,
            size: usize::MAX,
        }
    }
}

impl<'a> Write for Failing<'a> {
    fn write(&mut self, buf: &[u8]) -> io::Result<usize> {
        if self.left == 0 {
            return Err(io::Error::from(ErrorKind::BrokenPipe));
        }
        self.left -= 1;
        let n = buf.len().min(self.size);
        self.bytes.extend_from_slice(&buf[..n])?;
        Ok(n)
    }

    fn flush(&mut self) -> io::Result<()> {
        Ok(())
    }
}
