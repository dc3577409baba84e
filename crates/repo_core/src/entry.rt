//! What an accepted change of a repository is, as a journal keeps it.

use dump_load::ChangeSet;
use node_base::{Props, RevNo};

/// One accepted change of a repository.
#[derive(Drop)]
pub enum Entry {
    /// The revision after the head: its number, the changes that make its tree, and its properties.
    Revised {
        number: RevNo,
        set: ChangeSet,
        props: Props,
    },
    /// All properties of a revision that is there.
    Mapped {
        number: RevNo,
        props: Props,
    },
}
