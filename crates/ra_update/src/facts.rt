//! What is told beside two trees.

use node_base::{Props, RevNo};
use path_tree::Tree;

/// What an edit makes, and what it tells beside what differs.
#[derive(Clone, Copy)]
pub struct Facts<'a> {
    /// The tree that is wanted, with the numbers of the revisions that last changed its nodes.
    pub target: &'a Tree,
    /// Its revision.
    pub number: RevNo,
    /// The revision that what was reported is known at.
    pub base: Option<RevNo>,
    /// The repository's identity in text.
    pub identity: &'a [u8],
    /// The properties of the repository's revisions, from revision 0 on.
    pub revisions: &'a [Props],
    /// Whether what is told of a node beside its own properties is told of the root too. Subversion's client takes none of
    /// it there where it named an entry of the root.
    pub tells_root: bool,
    /// Whether folders in which nothing differs are opened too.
    pub opens: bool,
}
