//! Tests of `ra_update` through its public items.
#![tactic(auto)]

#[cfg(test)]
mod edit_tests;
pub mod edits;
