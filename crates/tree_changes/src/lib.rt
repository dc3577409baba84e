//! The changes that make one tree of another.
#![tactic(auto)]

pub use between::changes_between;

mod between;
mod changes;
