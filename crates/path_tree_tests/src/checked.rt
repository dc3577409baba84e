//! How the tests tell what is wrong, and bytes that they join.

use std::alloc::Global;
use std::process::Abort;

/// Ends the test with the case that is wrong, if one is.
pub(crate) fn none_is_wrong(rt: &impl Abort, wrong: Option<&str>) {
    if let Some(case) = wrong {
        rt.panic(case);
    }
}

/// Ends the test with the first case that doesn't hold, if one doesn't.
pub(crate) fn all_hold(rt: &impl Abort, cases: &[(bool, &str)]) {
    for (holds, case) in cases {
        if !*holds {
            rt.panic(*case);
        }
    }
}

/// Bytes and more behind them.
pub(crate) fn joined(rt: &impl Abort, alloc: Global, front: &[u8], back: &[u8]) -> Vec<u8> {
    let mut bytes = Vec::from_slice(alloc, front).expect(rt, "memory");
    bytes.extend_from_slice(back).expect(rt, "memory");
    bytes
}
