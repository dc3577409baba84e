//! Sessions for the tests: what a server says, cut anyhow, and a client over it.

use byte_streams::{CountedReader, MemOutput};
use ra_client::{ClientFault, ClientPort};
use std::alloc::{AllocError, Global};
use std::io;
use std::io::{ErrorKind, Read};
use std::process::Abort;

/// The URL that the client asks for.
pub(crate) const URL: &[u8] = b"svn://127.0.0.1:3690/";

/// What the server says in the opening.
pub(crate) const OPENED: &[u8] =
    b"( success ( 2 2 ( ) ( edit-pipeline atomic-revprops ) ) ) ( success ( ( ANONYMOUS ) 36:6a1f0c3e-0000-4000-8000-000000000001 ) ) ( success ( ) ) ( success ( 36:6a1f0c3e-0000-4000-8000-000000000001 21:svn://127.0.0.1:3690/ ( ) ) ) ";

/// What the client says in it.
pub(crate) const SAID: &[u8] =
    b"( 2 ( edit-pipeline ) 21:svn://127.0.0.1:3690/ ) ( ANONYMOUS ( 0: ) ) ";

/// A reader that gives so many bytes at a time, and at their end the end of input or an error.
#[derive(Drop)]
pub(crate) struct Lent<'a> {
    bytes: &'a [u8],
    size: usize,
    breaks: bool,
}

impl<'a> Lent<'a> {
    /// Bytes with the end of input behind them.
    pub(crate) fn new(bytes: &'a [u8], size: usize) -> Lent<'a> {
        Lent {
            bytes,
            size,
            breaks: false,
        }
    }
}

impl Read for Lent<'_> {
    fn read(&mut self, buf: &mut [u8]) -> io::Result<usize> {
        if self.breaks && self.bytes.is_empty() {
            return Err(io::Error::from(ErrorKind::ConnectionReset));
        }
        let n = self.size.min(self.bytes.len()).min(buf.len());
        buf[..n].copy_from_slice(&self.bytes[..n]);
        self.bytes = &self.bytes[n..];
        Ok(n)
    }
}

/// A client's port over bytes that are lent.
pub(crate) type Port<'a> = ClientPort<CountedReader<Lent<'a>>, MemOutput>;

/// How a server's bytes come: so many at a time, behind them the end of input or an error; and how many writes pass.
#[derive(Clone, Copy)]
pub(crate) struct Line {
    pub(crate) size: usize,
    pub(crate) breaks: bool,
    pub(crate) passing: u64,
}

/// All at once, one byte at a time, and all at once before an error.
pub(crate) const WHOLE: Line = Line {
    size: 4_096,
    breaks: false,
    passing: u64::MAX,
};

pub(crate) const SINGLE: Line = Line {
    size: 1,
    breaks: false,
    passing: u64::MAX,
};

pub(crate) const BROKEN: Line = Line {
    size: 4_096,
    breaks: true,
    passing: u64::MAX,
};

/// Opens a port over a whole session's bytes.
pub(crate) fn open<'a>(
    alloc: Global,
    bytes: &'a [u8],
    line: &Line,
) -> Result<Port<'a>, ClientFault> {
    let reader = CountedReader::new(Lent {
        bytes,
        size: line.size,
        breaks: line.breaks,
    });
    ClientPort::open(alloc, URL, reader, MemOutput::new(alloc, line.passing))
}

/// The bytes of a session with these answers behind its opening.
pub(crate) fn session(alloc: Global, answers: &[u8]) -> Result<Vec<u8>, AllocError> {
    let mut bytes = Vec::from_slice(alloc, OPENED)?;
    bytes.extend_from_slice(answers)?;
    Ok(bytes)
}

/// The same, where memory doesn't run out.
pub(crate) fn told(rt: &impl Abort, alloc: Global, answers: &[u8]) -> Vec<u8> {
    session(alloc, answers).expect(rt, "memory")
}

/// Whether what a client wrote is its opening, and then this.
pub(crate) fn is_said(written: &[u8], asked: &[u8]) -> bool {
    match written.strip_prefix(SAID) {
        Some(rest) => rest == asked,
        None => false,
    }
}

/// Ends the test with the place of the case that is wrong, if one is.
pub(crate) fn none_is_wrong(rt: &impl Abort, wrong: Option<usize>) {
    if let Some(case) = wrong {
        panic!(rt; "case {case}");
    }
}

/// The number of a refusal, 0 where there is none.
pub(crate) fn number_of<T: Drop>(answer: Result<T, ClientFault>) -> u8 {
    match answer {
        Ok(_) => 0,
        Err(fault) => fault.number(),
    }
}
