//! The delta editor: a revision shown as calls, and who may be shown it.
//!
//! An [`Editor`] is shown one revision of a repository as a sequence of calls: directories and files are opened, added,
//! changed and closed, entries deleted. What is open is a baton that has to be closed, or discarded after a refusal. A
//! [`Recorder`] keeps the calls:
//!
//! ```text
//! let mut editor = Recorder::new(alloc);
//! let mut root = editor.open_root(None)?;
//! editor.delete_entry(&mut root, &path, None)?;
//! editor.close_dir(root)?;
//! let calls = editor.close_edit()?;        // OpenRoot, DeleteEntry, CloseDir, CloseEdit
//! ```
//!
//! Contract: a call that answers Ok has added itself, with full paths, to what the editor was shown, and `close_edit`
//! hands the whole list on. A refusal is one that the editor says it may answer there.
#![tactic(auto)]

pub use bytes::Bytes;
pub use call::Call;
pub use editor::Editor;
pub use fault::EditorFault;
pub use node_base::Source;
pub use recorder::{OpenDir, OpenFile, Recorder};
pub use text_editor::TextEditor;

mod bytes;
mod call;
mod editor;
mod fault;
pub mod law;
mod recorder;
mod text_editor;
