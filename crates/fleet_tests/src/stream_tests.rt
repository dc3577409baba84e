//! Runs whose input or output fails, and the engines without a status.

use crate::dumps::{HEAD, ONE_FILE, ZERO, joined};
use byte_streams::{CountedReader, FuseInput, Input, MemOutput, Output};
use fleet_disk::{HeldFiles, StdFolders};
use fleet_engines::{records_dont_matter, revisions_are_grouped, run_canon, run_list};
use fleet_main::law::one_dump;
use fleet_main::{Command, HostFolders, run};
use std::alloc::Global;

// More writes than a run makes.
const WRITES: u64 = 1_000_000;

// Runs `canon` to an output that takes so many writes, which it answers: whether it ends with status 1 and one line, that
// a stream failed.
fn tells<H: HeldFiles, I: Input>(
    alloc: Global,
    files: &H,
    input: &mut I,
    passing: u64,
) -> (bool, MemOutput) {
    let mut errors = MemOutput::new(alloc, WRITES);
    let mut folders = HostFolders::new(StdFolders::new(files));
    let (status, output) = run(
        alloc,
        &mut folders,
        Command::Canon { deltas: false },
        input,
        MemOutput::new(alloc, passing),
        &mut errors,
    );
    let line = b"svnfleet: 49 stream failed\n".as_slice();
    (status == 1 && errors.bytes() == line, output)
}

#[test]
fn failed_reader_is_told(rt: HostRuntime) {
    let alloc = rt.alloc();
    let whole = joined(&rt, alloc, &[HEAD, ZERO, ONE_FILE]);
    let written = joined(&rt, alloc, &[HEAD, ZERO]);
    let mut broken = FuseInput::new(CountedReader::new(whole.as_slice()), 1);
    let (told, output) = tells(alloc, &rt, &mut broken, WRITES);
    assert!(rt; told && broken.reads() == 2);
    assert!(rt; output.bytes() == written.as_slice() && output.handed_on() == written.len());
}

#[test]
fn failed_writer_is_told(rt: HostRuntime) {
    let alloc = rt.alloc();
    let whole = joined(&rt, alloc, &[HEAD, ZERO, ONE_FILE]);
    let mut input = FuseInput::new(CountedReader::new(whole.as_slice()), 9);
    let (told, output) = tells(alloc, &rt, &mut input, 0);
    assert!(rt; told && output.count_failures() == 1 && input.reads() == 1);
}

// Whether a run with no room for its line on standard error ends with status 1 all the same.
fn ends_without_its_line<H: HeldFiles, I: Input>(alloc: Global, files: &H, input: &mut I) -> bool {
    let mut errors = MemOutput::new(alloc, 0);
    let mut folders = HostFolders::new(StdFolders::new(files));
    let (status, output) = run(
        alloc,
        &mut folders,
        Command::Canon { deltas: false },
        input,
        MemOutput::new(alloc, WRITES),
        &mut errors,
    );
    status == 1 && errors.count_failures() == 1 && output.bytes().is_empty()
}

#[test]
fn a_line_that_is_lost(rt: HostRuntime) {
    let nothing = [];
    let mut input = CountedReader::new(nothing.as_slice());
    assert!(rt; ends_without_its_line(rt.alloc(), &rt, &mut input));
}

// Whether `list` writes these bytes.
fn lists(alloc: Global, bytes: &[u8], wanted: &[u8]) -> bool {
    let mut listed = MemOutput::new(alloc, WRITES);
    let answer = run_list(alloc, false, &mut CountedReader::new(bytes), &mut listed);
    answer.is_ok() && listed.bytes() == wanted
}

// Whether `canon` writes bytes as they are.
fn copies(alloc: Global, bytes: &[u8]) -> bool {
    let mut copied = MemOutput::new(alloc, WRITES);
    let answer = run_canon(alloc, false, &mut CountedReader::new(bytes), &mut copied);
    answer.is_ok() && copied.bytes() == bytes
}

#[test]
fn commands_answer_without_a_status(rt: HostRuntime) {
    let alloc = rt.alloc();
    let whole = joined(&rt, alloc, &[HEAD, ZERO, ONE_FILE]);
    assert!(rt; lists(alloc, whole.as_slice(), b"revision 1\nD 1 /\nF 1 6 a\n"));
    assert!(rt; copies(alloc, whole.as_slice()));
}

#[test]
fn laws_are_called() {
    records_dont_matter();
    revisions_are_grouped();
    one_dump();
}
