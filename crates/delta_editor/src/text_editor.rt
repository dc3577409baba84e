//! The trait of an editor that knows the texts of open files.
ghost use Rattle.std.specs.Prelude.{◌≡◌, List, ℕ, IfOk};
ghost use Rattle.node_base.specs.Path.{Path};
ghost use Rattle.delta_editor.specs.Calls.{Call};

use crate::Editor;
use node_base::Text;
use std::alloc::AllocError;

/// An editor that can be asked what an open file's text is so far: what a difference that comes for the file is a
/// difference from. Before the file is given a text, that is the one with which it was opened or added.
pub trait TextEditor: Editor {
    ghost Texts: { Type 0 }; // from what it has texts

    ghost texts: { Self → Texts };

    ghost has_text: { Texts → List Call → Path → List ℕ
        → Type 0  -- from that, after such calls, the text so far of the file that is open at the path
    };

    /// The text so far of an open file, for another owner.
    fn text_so_far(&self, file: &Self::File) -> Result<Text, AllocError>
        ensures { IfOk result (λ t. (calls : List Call) → Self.shows self.now calls
            → has_text (texts self.now) calls (Self.file_path file.now) t) };

    // From where it has texts is settled when it begins.
    ghost same_texts: { (one other : Self) → Self.Editor.began one ≡ Self.Editor.began other → texts one ≡ texts other };
}
