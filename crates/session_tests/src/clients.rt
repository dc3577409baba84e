//! What clients send, and what they are told.

use crate::serve_sessions::asking;
use crate::stores::long_store;
use byte_streams::{CountedReader, MemOutput};
use ra_serve::{ClientItems, End, HeldStore, RepoPort, serve};
use std::alloc::Global;
use std::process::Abort;

/// The newest revision, all three, and one that isn't there.
pub(crate) const READING: &[u8] = b"( get-latest-rev ( ) ) ( replay-range ( 0 2 0 true ) ) \
    ( check-path ( 3:b/x ( 2 ) ) ) ( get-dir ( 0: ( 2 ) false true ( ) ) ) ( rev-proplist ( 1 ) ) \
    ( check-path ( 1:t ( 3 ) ) ) ( replay ( 3 0 true ) ) ( rev-proplist ( 3 ) ) ";

/// All that a port tells a client that sends this behind its opening, where the root is this one. None where the
/// session ends in another way than with its input.
pub(crate) fn told<P: RepoPort>(
    rt: &impl Abort,
    alloc: Global,
    port: &mut P,
    url: &[u8],
    asked: &[u8],
) -> Option<Vec<u8>> {
    let sent = asking(rt, alloc, asked);
    let mut items = ClientItems::new(alloc, CountedReader::new(sent.as_slice()));
    let out = MemOutput::new(alloc, u64::MAX);
    match serve(alloc, port, url, &mut items, out) {
        Ok((out, End::Input)) => Some(Vec::from_slice(alloc, out.bytes()).expect(rt, "memory")),
        _ => None,
    }
}

/// What a store of one's own, the one with the copy, tells a client that sends this.
pub(crate) fn told_by_store(
    rt: &impl Abort,
    alloc: Global,
    url: &[u8],
    asked: &[u8],
) -> Option<Vec<u8>> {
    let mut port = HeldStore::new(alloc, long_store(rt, alloc), false);
    let told = told(rt, alloc, &mut port, url, asked);
    let _disk = port.into_store().into_disk();
    told
}
