//! How the tests tell what is wrong.

use std::fmt::Debug;
use std::process::Abort;

/// Ends the test with the case that is wrong, if one is.
pub(crate) fn none_is_wrong<T: Debug + Drop>(rt: &impl Abort, wrong: Option<T>) {
    if let Some(case) = wrong {
        panic!(rt; "case {case:?}");
    }
}
