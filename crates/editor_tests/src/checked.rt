//! How the tests tell what is wrong.

use std::process::Abort;

/// Ends the test with the place of the case that is wrong, if one is.
pub(crate) fn none_is_wrong(rt: &impl Abort, wrong: Option<usize>) {
    if let Some(case) = wrong {
        panic!(rt; "case {case}");
    }
}
