//! One call of an editor.

use crate::{Bytes, Source};
use node_base::{NodePath, PropName, RevNo};

/// A call of an editor with all that it says. What a call acts on is named by its full path; where two paths are given,
/// the first is that of the directory in which it acts.
#[derive(Drop)]
pub enum Call {
    /// The revision that is shown.
    Target(RevNo),
    /// The root is opened, with the revision that it is known at.
    OpenRoot(Option<RevNo>),
    /// In a directory, a directory is added, perhaps as a copy.
    AddDir(NodePath, NodePath, Option<Source>),
    /// In a directory, a directory is opened, with the revision that it is known at.
    OpenDir(NodePath, NodePath, Option<RevNo>),
    /// In a directory, an entry is deleted, with the revision that it is known at.
    DeleteEntry(NodePath, NodePath, Option<RevNo>),
    /// In a directory, a file is added, perhaps as a copy.
    AddFile(NodePath, NodePath, Option<Source>),
    /// In a directory, a file is opened, with the revision that it is known at.
    OpenFile(NodePath, NodePath, Option<RevNo>),
    /// A directory's property gets a value, or is removed.
    DirProp(NodePath, PropName, Option<Bytes>),
    /// A file's property gets a value, or is removed.
    FileProp(NodePath, PropName, Option<Bytes>),
    /// A file's new text begins, empty.
    TextStart(NodePath),
    /// The next piece of a file's new text.
    TextPiece(NodePath, Bytes),
    /// A file's new text ends.
    TextEnd(NodePath),
    /// A file is closed, with the MD5 of its text where it was given one.
    CloseFile(NodePath, Option<[u8; 16]>),
    /// A directory is closed.
    CloseDir(NodePath),
    /// The edit ends.
    CloseEdit,
}
