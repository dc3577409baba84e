//! Why a report is refused.
ghost use Rattle.std.specs.Prelude.{◌≡◌};
ghost use Rattle.tree_reports.specs.declared.error.ReportError.TheVariants.{OutOfMemory};

use node_base::texts;
use std::alloc::AllocError;
use thiserror::Error;

/// Why a report is refused. What was reported before stays.
#[derive(Clone, Copy, Debug, Error, PartialEq, Eq)]
pub enum ReportError {
    /// The root is reported at the beginning, and not again.
    #[error("the root is reported first, and once")]
    Root,
    /// What is above the path was reported as no folder.
    #[error("no folder was reported above the path")]
    NoFolder,
    /// Nothing is at the path in the revision that was reported.
    #[error("the reported path is not in its revision")]
    NotThere,
    /// What is below the path would pass the limits of paths.
    #[error("{}", texts::TOO_LONG)]
    TooLong,
    /// Memory ran out.
    #[error("{}", texts::OUT_OF_MEMORY)]
    OutOfMemory,
}

impl From<AllocError> for ReportError {
    ghost from_gives = { λ _ e. e ≡ OutOfMemory };

    fn from(_error: AllocError) -> ReportError {
        ReportError::OutOfMemory
    }
}
