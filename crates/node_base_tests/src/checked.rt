//! How the tests tell what is wrong, and helpers that they share.

use node_base::{PropName, PropValue, Props};
use std::alloc::{AllocError, Global};
use std::process::Abort;

/// Ends the test with the case that is wrong, if one is.
pub(crate) fn none_is_wrong(rt: &impl Abort, wrong: Option<&str>) {
    if let Some(case) = wrong {
        rt.panic(case);
    }
}

/// Ends the test with the first case that doesn't hold, if one doesn't.
pub(crate) fn all_hold(rt: &impl Abort, cases: &[(bool, &str)]) {
    for (holds, case) in cases {
        if !*holds {
            rt.panic(*case);
        }
    }
}

/// Whether this was written, where there was memory for it.
pub(crate) fn is_text(written: Result<String, AllocError>, text: &str) -> bool {
    match written {
        Ok(written) => written.as_str() == text,
        Err(_) => false,
    }
}

/// Gives a map a property, for which it has room.
pub(crate) fn put(rt: &impl Abort, alloc: Global, props: &mut Props, name: &[u8], value: &[u8]) {
    let name = PropName::parse(alloc, name).expect(rt, "a name");
    let bytes = Vec::from_slice(alloc, value).expect(rt, "memory");
    let value = PropValue::new(bytes).expect(rt, "a value");
    assert!(rt; props.fits_with(name.as_bytes()));
    props.set(alloc, name, value).expect(rt, "memory");
}

/// Adds lines with the numbers from 0 on, each between a front and a back.
pub(crate) fn add_lines(
    rt: &impl Abort,
    alloc: Global,
    block: &mut Vec<u8>,
    front: &str,
    count: usize,
    back: &str,
) {
    for i in 0..count {
        let line = format!(in alloc; "{front}{i:05}{back}").expect(rt, "memory");
        block
            .extend_from_slice(line.as_bytes())
            .expect(rt, "memory");
    }
}

/// Adds the end of a block.
pub(crate) fn add_end(rt: &impl Abort, block: &mut Vec<u8>) {
    block.extend_from_slice(b"PROPS-END\n").expect(rt, "memory");
}

/// The bytes with another one in a place.
pub(crate) fn with_byte(
    rt: &impl Abort,
    alloc: Global,
    bytes: &[u8],
    at: usize,
    byte: u8,
) -> Vec<u8> {
    let mut changed = Vec::from_slice(alloc, bytes).expect(rt, "memory");
    if at < changed.len() {
        changed[at] = byte;
    }
    changed
}
