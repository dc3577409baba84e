//! What is done over a mirror and its source.
use node_base::{PropValue, RevNo};
use sync_core::Token;

/// What a run over a mirror and its source is to do.
#[derive(Drop)]
pub enum Work {
    /// Make it the mirror of the source, which is reached by that URL.
    Initialize {
        url: PropValue,
    },
    /// Bring it up to the source, under a job's token; where it is to steal, over a lock that stands.
    Synchronize {
        token: Token,
        steal: bool,
    },
    /// Copy the properties of the revisions from `low` to `high` again, under a job's token.
    CopyRevprops {
        token: Token,
        low: RevNo,
        high: RevNo,
    },
}
