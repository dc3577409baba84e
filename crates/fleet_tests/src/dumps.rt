//! Dumps that tests read.

use std::alloc::Global;
use std::process::Abort;

// The version block, 31 bytes.
pub(crate) const HEAD: &str = "SVN-fs-dump-format-version: 2\n\n";

// Revision 0 without properties, 74 bytes.
pub(crate) const ZERO: &str =
    "Revision-number: 0\nProp-content-length: 10\nContent-length: 10\n\nPROPS-END\n\n";

// Revision 1 adds file `a` with a text of six bytes: 275 bytes.
pub(crate) const ONE_FILE: &str =
    "Revision-number: 1\nProp-content-length: 29\nContent-length: 29\n\nK 7\nsvn:log\nV 2\nhi\nPROPS-END\n\nNode-path: a\nNode-kind: file\nNode-action: add\nProp-content-length: 10\nText-content-length: 6\nText-content-md5: b1946ac92492d2347c6235b4d2611184\nContent-length: 16\n\nPROPS-END\nhello\n\n\n";

// Revision 2 deletes it: 110 bytes.
pub(crate) const NO_FILE: &str =
    "Revision-number: 2\nProp-content-length: 10\nContent-length: 10\n\nPROPS-END\n\nNode-path: a\nNode-action: delete\n\n\n\n";

// Parts behind one another.
pub(crate) fn joined(rt: &impl Abort, alloc: Global, parts: &[&str]) -> Vec<u8> {
    let mut all = Vec::new(alloc);
    for part in parts {
        all.extend_from_slice(part.as_bytes()).expect(rt, "memory");
    }
    all
}
