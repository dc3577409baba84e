//! What makes one tree of another, and the trees that working copies report.
#![tactic(auto)]

pub use copy::put_copy;
pub use depth::Depth;
pub use difference::{Change, Difference, Parts};
pub use error::ReportError;
pub use folder::subtree;
pub use limit::limited;
pub use report::Report;
pub use sparse::{Limit, Part, limit_all, limit_one};
pub use tell::differences;

mod copy;
mod depth;
mod difference;
mod error;
mod folder;
mod limit;
mod merge;
mod report;
mod sparse;
mod tell;
