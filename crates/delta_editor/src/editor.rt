//! The trait of an editor.
ghost use Rattle.std.specs.Prelude.{◌≡◌, List, [], ◌∷◌, IfOk, OnErr};
ghost use Rattle.std.specs.Option.{option_copied};
ghost use Rattle.node_base.specs.Path.{Path};
ghost use Rattle.delta_editor.specs.Calls.{Call, Ends, LetsGo, MayRefuse, StaysShown, Takes};
ghost use Rattle.delta_editor.specs.declared.call.Call.TheVariants as call;
ghost use Rattle.delta_editor.specs.declared.fault.EditorFault.{EditorFault};

use crate::{EditorFault, Source};
use node_base::{NodePath, PropName, RevNo};

/// Who is shown a revision, call by call, as Subversion's delta editor is: `target`, `open_root`, then directories and
/// files opened, added, changed and closed, entries deleted, and `close_edit`.
///
/// `Dir` and `File` are batons: what is open. A type that isn't `Drop` makes sure that each is closed or discarded
/// once. A close takes its baton, on a refusal too. After any refusal the caller discards the batons that are open and
/// calls `abort_edit`; nothing is said of what the editor was shown from then on.
///
/// The caller keeps the nesting: what is closed, takes a child or has an entry deleted is the innermost open thing; a
/// file is given at most one text, its pieces between `text_start` and `text_end`; the root is opened once. The word
/// for it is `IsNested`, of the whole list of calls. No method asks for it: an editor that needs it says so in what it
/// shows.
pub trait Editor {
    /// What an edit comes to.
    type Done;

    ghost shows: { Self → List Call → Type 0  -- which calls it was shown: a call that answers Ok has added itself
    };

    ghost done_shows: { Self.Done → List Call → Type 0  -- the same of what `close_edit` answers
    };

    ghost Began: { Type 0  -- the type of what an editor began with
    };

    // What an editor began with, which no call changes: the trees that a builder builds over, or what a writer held.
    ghost began: { Self → Began };

    ghost done_began: { Self.Done → Began  -- the same of what `close_edit` answers
    };

    ghost refuses: { Began → List Call → Call → EditorFault
        → Type 0  -- where it began with that, after such calls, the refusals that the next call may meet
    };

    ghost lets_go: { Self → List Path → Type 0  -- what is open that it was let go of, in order: a discard has added itself
    };

    ghost given_up: { Self → Type 0  -- it was given up, by `abort_edit` or by a `close_edit` that was refused
    };

    /// Names the revision that is shown.
    fn target(&mut self, rev: RevNo) -> Result<(), EditorFault>
        ensures shown { Takes shows self.old self.new (call.Target rev) result }
        ensures refused { MayRefuse shows began refuses self.old (call.Target rev) result }
        ensures began { began self.new ≡ began self.old };

    /// Opens the root. `base` is the revision that it is known at, here and in the calls below: the one before the
    /// revision that is shown.
    fn open_root(&mut self, base: Option<RevNo>) -> Result<Self::Dir, EditorFault>
        ensures shown { Takes shows self.old self.new (call.OpenRoot base) result }
        ensures baton { IfOk result (λ d. dir_path d ≡ []) }
        ensures refused { MayRefuse shows began refuses self.old (call.OpenRoot base) result }
        ensures began { began self.new ≡ began self.old };

    /// Ends the edit, and gives what it came to.
    fn close_edit(self) -> Result<Self::Done, EditorFault>
        ensures shown { Ends shows done_shows self result }
        ensures began { IfOk result (λ d. done_began d ≡ began self) }
        ensures refused { MayRefuse shows began refuses self call.CloseEdit result }
        ensures given_up { OnErr result (given_up self) };

    /// Gives the edit up after a refusal.
    fn abort_edit(self)
        ensures { given_up self };

    /// A directory that is open.
    type Dir;

    ghost dir_path: { Self.Dir → Path  -- the full path of an open directory
    };

    /// Adds a directory in `up`, empty or as a copy of `from`.
    fn add_dir(
        &mut self,
        up: &mut Self::Dir,
        path: &NodePath,
        from: Option<&Source>,
    ) -> Result<Self::Dir, EditorFault>
        ensures shown { Takes shows self.old self.new
            (call.AddDir (dir_path up.old) path.now (option_copied from.entry)) result }
        ensures baton { IfOk result (λ d. dir_path d ≡ path.now) }
        ensures up { dir_path up.new ≡ dir_path up.old }
        ensures refused { MayRefuse shows began refuses self.old
            (call.AddDir (dir_path up.old) path.now (option_copied from.entry)) result }
        ensures began { began self.new ≡ began self.old };

    /// Opens a directory in `up`.
    fn open_dir(
        &mut self,
        up: &mut Self::Dir,
        path: &NodePath,
        base: Option<RevNo>,
    ) -> Result<Self::Dir, EditorFault>
        ensures shown { Takes shows self.old self.new (call.OpenDir (dir_path up.old) path.now base) result }
        ensures baton { IfOk result (λ d. dir_path d ≡ path.now) }
        ensures up { dir_path up.new ≡ dir_path up.old }
        ensures refused { MayRefuse shows began refuses self.old (call.OpenDir (dir_path up.old) path.now base) result }
        ensures began { began self.new ≡ began self.old };

    /// Deletes an entry of `up`, a file or a directory with all that is in it.
    fn delete_entry(
        &mut self,
        up: &mut Self::Dir,
        path: &NodePath,
        base: Option<RevNo>,
    ) -> Result<(), EditorFault>
        ensures shown { Takes shows self.old self.new (call.DeleteEntry (dir_path up.old) path.now base) result }
        ensures up { dir_path up.new ≡ dir_path up.old }
        ensures refused { MayRefuse shows began refuses self.old
            (call.DeleteEntry (dir_path up.old) path.now base) result }
        ensures began { began self.new ≡ began self.old };

    /// Gives a directory's property a value, or with none removes it.
    fn dir_prop(
        &mut self,
        dir: &mut Self::Dir,
        name: &PropName,
        value: Option<&[u8]>,
    ) -> Result<(), EditorFault>
        ensures shown { Takes shows self.old self.new
            (call.DirProp (dir_path dir.old) name.now (option_copied value.entry)) result }
        ensures baton { dir_path dir.new ≡ dir_path dir.old }
        ensures refused { MayRefuse shows began refuses self.old
            (call.DirProp (dir_path dir.old) name.now (option_copied value.entry)) result }
        ensures began { began self.new ≡ began self.old };

    /// Closes a directory.
    fn close_dir(&mut self, dir: Self::Dir) -> Result<(), EditorFault>
        ensures shown { Takes shows self.old self.new (call.CloseDir (dir_path dir)) result }
        ensures refused { MayRefuse shows began refuses self.old (call.CloseDir (dir_path dir)) result }
        ensures began { began self.new ≡ began self.old };

    /// Lets go of an open directory after a refusal.
    fn discard_dir(&mut self, dir: Self::Dir)
        ensures began { began self.new ≡ began self.old }
        ensures shown { StaysShown shows self.old self.new }
        ensures let_go { LetsGo lets_go self.old self.new (dir_path dir ∷ []) };

    /// A file that is open.
    type File;

    ghost file_path: { Self.File → Path  -- the full path of an open file
    };

    /// Adds a file in `up`, empty or as a copy of `from`.
    fn add_file(
        &mut self,
        up: &mut Self::Dir,
        path: &NodePath,
        from: Option<&Source>,
    ) -> Result<Self::File, EditorFault>
        ensures shown { Takes shows self.old self.new
            (call.AddFile (dir_path up.old) path.now (option_copied from.entry)) result }
        ensures baton { IfOk result (λ d. file_path d ≡ path.now) }
        ensures up { dir_path up.new ≡ dir_path up.old }
        ensures refused { MayRefuse shows began refuses self.old
            (call.AddFile (dir_path up.old) path.now (option_copied from.entry)) result }
        ensures began { began self.new ≡ began self.old };

    /// Opens a file in `up`.
    fn open_file(
        &mut self,
        up: &mut Self::Dir,
        path: &NodePath,
        base: Option<RevNo>,
    ) -> Result<Self::File, EditorFault>
        ensures shown { Takes shows self.old self.new (call.OpenFile (dir_path up.old) path.now base) result }
        ensures baton { IfOk result (λ d. file_path d ≡ path.now) }
        ensures up { dir_path up.new ≡ dir_path up.old }
        ensures refused { MayRefuse shows began refuses self.old
            (call.OpenFile (dir_path up.old) path.now base) result }
        ensures began { began self.new ≡ began self.old };

    /// Gives a file's property a value, or with none removes it.
    fn file_prop(
        &mut self,
        file: &mut Self::File,
        name: &PropName,
        value: Option<&[u8]>,
    ) -> Result<(), EditorFault>
        ensures shown { Takes shows self.old self.new
            (call.FileProp (file_path file.old) name.now (option_copied value.entry)) result }
        ensures baton { file_path file.new ≡ file_path file.old }
        ensures refused { MayRefuse shows began refuses self.old
            (call.FileProp (file_path file.old) name.now (option_copied value.entry)) result }
        ensures began { began self.new ≡ began self.old };

    /// Begins a file's new text, which takes the place of the one before.
    fn text_start(&mut self, file: &mut Self::File) -> Result<(), EditorFault>
        ensures shown { Takes shows self.old self.new (call.TextStart (file_path file.old)) result }
        ensures baton { file_path file.new ≡ file_path file.old }
        ensures refused { MayRefuse shows began refuses self.old (call.TextStart (file_path file.old)) result }
        ensures began { began self.new ≡ began self.old };

    /// Adds a piece to the text that has begun.
    fn text_piece(&mut self, file: &mut Self::File, piece: &[u8]) -> Result<(), EditorFault>
        ensures shown { Takes shows self.old self.new (call.TextPiece (file_path file.old) piece.now) result }
        ensures baton { file_path file.new ≡ file_path file.old }
        ensures refused { MayRefuse shows began refuses self.old
            (call.TextPiece (file_path file.old) piece.now) result }
        ensures began { began self.new ≡ began self.old };

    /// Ends the text that has begun.
    fn text_end(&mut self, file: &mut Self::File) -> Result<(), EditorFault>
        ensures shown { Takes shows self.old self.new (call.TextEnd (file_path file.old)) result }
        ensures baton { file_path file.new ≡ file_path file.old }
        ensures refused { MayRefuse shows began refuses self.old (call.TextEnd (file_path file.old)) result }
        ensures began { began self.new ≡ began self.old };

    /// Closes a file. `sum` is the MD5 of its text (RFC 1321) where it was given one.
    fn close_file(&mut self, file: Self::File, sum: Option<[u8; 16]>) -> Result<(), EditorFault>
        ensures shown { Takes shows self.old self.new (call.CloseFile (file_path file) sum) result }
        ensures refused { MayRefuse shows began refuses self.old (call.CloseFile (file_path file) sum) result }
        ensures began { began self.new ≡ began self.old };

    /// Lets go of an open file after a refusal.
    fn discard_file(&mut self, file: Self::File)
        ensures began { began self.new ≡ began self.old }
        ensures shown { StaysShown shows self.old self.new }
        ensures let_go { LetsGo lets_go self.old self.new (file_path file ∷ []) };
}
