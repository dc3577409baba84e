//! Reads and writes that pass and that fail, and how they are counted.

use byte_streams::{
    CountedReader, CountedWriter, FuseInput, Input, Lent, MemOutput, Output, Sink, SinkFault,
    StreamFault, VecWriter, has_failed_since, write_bytes,
};
use std::alloc::Global;
use std::io;
use std::io::{Read, Write};

// How many bytes the next read of two gives, and 9 where it fails.
fn next<I: Input>(input: &mut I) -> usize {
    let mut piece = [0u8; 2];
    input.read(&mut piece).unwrap_or(9)
}

#[test]
fn a_reader_is_read_to_its_end(rt: HostRuntime) {
    let mut input = CountedReader::new(b"hello".as_slice());
    assert!(rt; next(&mut input) == 2 && next(&mut input) == 2);
    assert!(rt; next(&mut input) == 1 && next(&mut input) == 0);
}

#[test]
fn reads_behind_a_fuse_fail(rt: HostRuntime) {
    let mut input = FuseInput::new(CountedReader::new(b"hello".as_slice()), 2);
    assert!(rt; next(&mut input) == 2 && next(&mut input) == 2 && input.passing() == 0);
    assert!(rt; next(&mut input) == 9 && next(&mut input) == 9 && input.reads() == 4);
}

// A reader that always fails.
#[derive(Drop)]
struct Broken;

impl Read for Broken {
    fn read(&mut self, _buf: &mut [u8]) -> io::Result<usize> {
        Err(io::Error::from(io::ErrorKind::ConnectionReset))
    }
}

#[test]
fn a_failed_read_is_a_failure(rt: HostRuntime) {
    let mut input = CountedReader::new(Broken);
    let mut piece = [0u8; 2];
    assert!(rt; input.read(&mut piece) == Err(StreamFault::PeerFailed));
}

// A writer that takes nothing and hands nothing on.
#[derive(Drop)]
struct Closed;

impl Write for Closed {
    fn write(&mut self, _buf: &[u8]) -> io::Result<usize> {
        Err(io::Error::from(io::ErrorKind::BrokenPipe))
    }

    fn flush(&mut self) -> io::Result<()> {
        Err(io::Error::from(io::ErrorKind::BrokenPipe))
    }
}

// A writer that says that it took nothing.
#[derive(Drop)]
struct Full;

impl Write for Full {
    fn write(&mut self, _buf: &[u8]) -> io::Result<usize> {
        Ok(0)
    }

    fn flush(&mut self) -> io::Result<()> {
        Ok(())
    }
}

// Whether writing a byte fails once and is counted once.
fn fails_once<O: Output>(output: &mut O) -> bool {
    write_bytes(output, b"x") == Err(StreamFault::PeerFailed) && output.count_failures() == 1
}

#[test]
fn failed_writes_are_counted(rt: HostRuntime) {
    let mut closed = CountedWriter::new(Closed);
    assert!(rt; fails_once(&mut closed));
    assert!(rt; closed.flush() == Err(StreamFault::PeerFailed) && closed.count_failures() == 2);
    let mut full = CountedWriter::new(Full);
    assert!(rt; fails_once(&mut full));
    assert!(rt; write_bytes(&mut full, b"") == Ok(()) && full.flush() == Ok(()));
    assert!(rt; full.count_failures() == 1);
    assert!(rt; full.into_inner().write(b"y").is_ok());
}

#[test]
fn memory_holds_back_until_a_flush(rt: HostRuntime) {
    let mut output = MemOutput::new(rt.alloc(), 1);
    assert!(rt; write_bytes(&mut output, b"ab") == Ok(()) && output.handed_on() == 0);
    assert!(rt; output.flush() == Ok(()) && output.handed_on() == 2);
    assert!(rt; fails_once(&mut output) && output.bytes() == b"ab".as_slice());
}

// Whether a writer to memory has these bytes, lent and given.
fn has_written(out: VecWriter, bytes: &[u8]) -> bool {
    let is_lent = out.as_slice() == Ok(bytes);
    match out.into_bytes() {
        Ok(given) => is_lent && given.as_slice() == bytes,
        Err(_) => false,
    }
}

#[test]
fn each_write_to_memory_is_appended(rt: HostRuntime) {
    let mut out = VecWriter::with_room(rt.alloc(), 2);
    out.write(b"hel");
    out.write(b"lo");
    assert!(rt; out.as_slice() == Ok(b"hello".as_slice()));
    out.restart(9);
    out.write(b"x");
    assert!(rt; has_written(out, b"x"));
    assert!(rt; has_written(VecWriter::new(rt.alloc()), b""));
}

// Code that knows std's writers alone.
fn write_number<W: Write>(out: &mut W, number: u32) -> io::Result<()> {
    write!(out, "{number}\n")
}

// What writing a number comes to, where so many writes pass.
fn written(alloc: Global, passing: u64) -> Result<(), SinkFault> {
    let mut sink = Sink::new(MemOutput::new(alloc, passing));
    let count = sink.begin();
    let answer = write_number(&mut sink, 7);
    sink.answered(count, answer)
}

#[test]
fn a_run_of_writes_tells_a_failure(rt: HostRuntime) {
    assert!(rt; written(rt.alloc(), 9) == Ok(()));
    assert!(rt; written(rt.alloc(), 0) == Err(SinkFault::PeerFailed));
    assert!(rt; SinkFault::PeerFailed.number() == 49 && SinkFault::OutOfMemory.number() == 70);
}

// What an error that comes of no write comes to, by the count that its run began at or by another one.
fn another_error(alloc: Global, other: u64) -> Result<(), SinkFault> {
    let mut sink = Sink::new(MemOutput::new(alloc, 0));
    let count = sink.begin();
    sink.answered(count + other, Err(io::Error::from(io::ErrorKind::Other)))
}

#[test]
fn another_error_is_no_failure_of_the_stream(rt: HostRuntime) {
    assert!(rt; another_error(rt.alloc(), 0) == Err(SinkFault::OutOfMemory));
    assert!(rt; another_error(rt.alloc(), 1) == Err(SinkFault::OutOfMemory));
}

#[test]
fn a_sink_hands_on_and_gives_its_output_back(rt: HostRuntime) {
    let mut sink = Sink::new(MemOutput::new(rt.alloc(), 9));
    let _count = sink.begin();
    assert!(rt; write_number(&mut sink, 12).is_ok() && sink.hand_on() == Ok(()));
    let output = sink.into_inner();
    assert!(rt; output.bytes() == b"12\n".as_slice() && output.handed_on() == 3);
    assert!(rt; Sink::new(CountedWriter::new(Closed)).hand_on() == Err(SinkFault::PeerFailed));
}

// Code that keeps its writer: what it writes, and whether that was taken.
fn is_taken<W: Write + Drop>(mut out: W) -> bool {
    write_number(&mut out, 7).is_ok()
}

// Whether an output that passes so many writes is back behind such code, with these bytes, and has failed or not.
fn comes_back(alloc: Global, passing: u64, bytes: &[u8], failed: bool) -> bool {
    let output = MemOutput::new(alloc, passing);
    let before = output.count_failures();
    let mut back = None;
    let taken = is_taken(Lent::new(output, &mut back));
    match back {
        Some(output) => {
            taken != failed
                && output.bytes() == bytes
                && has_failed_since(&output, before) == failed
        }
        None => false,
    }
}

#[test]
fn what_is_lent_comes_back(rt: HostRuntime) {
    assert!(rt; comes_back(rt.alloc(), 9, b"7\n", false));
    assert!(rt; comes_back(rt.alloc(), 0, b"", true));
}

// What is left of an output that is written to and taken out again, and whether its place stays empty.
fn taken_out(alloc: Global) -> bool {
    let mut back = None;
    let mut lent = Lent::new(MemOutput::new(alloc, 9), &mut back);
    let written = write_number(&mut lent, 12).is_ok() && lent.flush().is_ok();
    let output = lent.into_inner();
    written && output.bytes() == b"12\n".as_slice() && output.handed_on() == 3 && back.is_none()
}

#[test]
fn what_is_taken_out_stays_out(rt: HostRuntime) {
    assert!(rt; taken_out(rt.alloc()));
}
