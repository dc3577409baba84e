//! An editor that makes a set of changes of what it is shown.
ghost use Rattle.std.specs.Prelude.{◌≡◌, ◌≤◌, ◌||◌, length, not, true, false, Some, None, [], List};
ghost use Rattle.std.specs.Prelude.{IsSome, IfOk};
ghost use Rattle.std.specs.Option.{option_copied};
ghost use Rattle.std.specs.FinMap as map;
ghost use Rattle.node_base.specs.Tree.{PathMap};
ghost use Rattle.node_base.specs.declared.limits.TheConstants.{REVISION};
ghost use Rattle.dump_load.specs.Changes.{is_add, is_delete, settles, IsNormal};
ghost use Rattle.editor_ends.specs.BuildFaults.{begun};
ghost use Rattle.editor_ends.specs.Builders.{has_shown, trees_of, set_within, text_at};
ghost use Rattle.editor_ends.specs.Builders.{BeginsToBuild, IsSetFrom, MakesFrom, RefusesToBuild};

use crate::building::{append_text, delete, new_change, open_or_add, put_prop, start_text};
use crate::finish::finish;
use delta_editor::{Editor, EditorFault, Source, TextEditor};
use dump_load::{Applied, Change, ChangeSet, begin};
use node_base::{Action, NodeKind, NodePath, PropName, RevNo, Text};
use path_tree::Tree;
use std::alloc::{AllocError, Global};

/// Makes the set of changes that it is shown as calls, for the revision that comes after some trees.
///
/// A target that is named has to be the number of the trees (16). Bases aren't read, and the sum of a closed file
/// isn't compared. Refused at the call that brings it: an add or a deletion of the root (10); a path that is opened
/// or added twice, or deleted after it or something below it was touched (15); the fault of the change that the
/// call begins (8, 11 to 14, 17); a property or a text past its limit (8). Refused at the end: more than 4,096
/// changes (8). Each call may be refused for want of memory (70).
#[derive(Drop)]
pub struct BuildEditor<'a> {
    alloc: Global,
    trees: &'a [Tree],
    tree: Tree,
    changes: Vec<Change>,
}

/// A set of changes, the trees that it was built over and the tree that it makes of them.
#[derive(Drop)]
pub struct Built<'a> {
    trees: &'a [Tree],
    set: ChangeSet,
    tree: Tree,
}

/// A directory that is open in a `BuildEditor`. It has to be closed or discarded.
pub struct BuiltDir {
    path: NodePath,
}

/// A file that is open in a `BuildEditor`. It has to be closed or discarded.
pub struct BuiltFile {
    path: NodePath,
}

impl<'a> Built<'a> {
    /// The set that the calls come to: a normal set of 4,096 changes at most, without a fault over the trees before
    /// it and with the effect of the calls. It has a change of each path that they change and of no other, with the
    /// action, the kind and the source that they ask for there, and with the properties, and the text, that they
    /// come to, where they say what these are.
    pub fn set(&self) -> &ChangeSet
        ensures within { result.now ≡ set_within self.now }
        ensures built { IsSetFrom self.now result.now }
    {
        &self.set
    }

    /// The set of changes alone, of which the same holds.
    pub fn into_set(self) -> ChangeSet
        ensures within { result ≡ set_within self.entry }
        ensures built { IsSetFrom self.entry result }
    {
        let Built {
            trees: _,
            set,
            tree: _,
        } = self;
        set
    }

    /// The set with the tree that it makes, so that who commits it needn't apply it again.
    pub fn into_applied(self) -> Applied
        ensures within { result.set ≡ set_within self.entry }
        ensures makes { MakesFrom self.entry result.set result.tree }
    {
        let Built {
            trees: _,
            set,
            tree,
        } = self;
        Applied { set, tree }
    }
}

impl<'a> BuildEditor<'a> {
    /// An editor that was shown nothing yet, over the trees of the revisions so far, 65,535 at most, the newest last.
    pub fn new(alloc: Global, trees: &'a [Tree]) -> Result<BuildEditor<'a>, AllocError>
        requires { length trees.now ≤ REVISION }
        ensures new { IfOk result (λ e. has_shown e []) }
        ensures over { IfOk result (λ e. trees_of e ≡ trees.now) }
    {
        Ok(BuildEditor {
            alloc,
            trees,
            tree: begin(alloc, trees)?,
            changes: Vec::new(alloc),
        })
    }

    fn open_or_add(
        &mut self,
        action: Action,
        kind: NodeKind,
        path: &NodePath,
        from: Option<&Source>,
    ) -> Result<NodePath, EditorFault>
        requires known { (is_add action || not (settles action)) ≡ true }
        requires sourced { is_add action ≡ false → from ≡ None }
        ensures begins { BeginsToBuild self.old self.new (begun action (Some kind) path.now (option_copied from.entry))
            result }
        ensures baton { IfOk result (λ p. p ≡ path.now) }
        ensures refused { RefusesToBuild self.old (begun action (Some kind) path.now (option_copied from.entry))
            result }
        ensures over { trees_of self.new ≡ trees_of self.old }
    {
        let baton = path.copy(self.alloc)?;
        let change = new_change(self.alloc, action, Some(kind), path, from)?;
        open_or_add(
            self.alloc,
            self.trees,
            &mut self.tree,
            &mut self.changes,
            change,
        )?;
        Ok(baton)
    }
}

impl<'a> Editor for BuildEditor<'a> {
    ghost use Rattle.editor_ends.specs.BuildFaults.{RefusesWithin};
    ghost use Rattle.editor_ends.specs.Built.{BuildsWithin, IsBuiltOf};

    type Dir = BuiltDir;

    type File = BuiltFile;

    type Done = Built<'a>;

    ghost shows = { λ e calls. BuildsWithin e.trees.now e.tree e.changes.items calls };

    ghost done_shows = { λ d calls. IsBuiltOf d.trees.now d.set d.tree calls };

    ghost dir_path = { λ d. d.path };

    ghost file_path = { λ f. f.path };

    ghost Began = { List PathMap };

    ghost began = { λ e. e.trees.now };

    ghost done_began = { λ d. d.trees.now };

    ghost refuses = { RefusesWithin };

    // It keeps neither what it is let go of nor that it is given up.
    ghost lets_go = { λ e paths. Unit {0} };

    ghost given_up = { λ e. Unit {0} };

    fn target(&mut self, rev: RevNo) -> Result<(), EditorFault> {
        if rev.index() == self.trees.len() {
            Ok(())
        } else {
            Err(EditorFault::WrongNumber)
        }
    }

    fn open_root(&mut self, base: Option<RevNo>) -> Result<BuiltDir, EditorFault> {
        let root = NodePath::root(self.alloc);
        Ok(BuiltDir {
            path: self.open_or_add(Action::Modify, NodeKind::Dir, &root, None)?,
        })
    }

    fn add_dir(
        &mut self,
        up: &mut BuiltDir,
        path: &NodePath,
        from: Option<&Source>,
    ) -> Result<BuiltDir, EditorFault> {
        Ok(BuiltDir {
            path: self.open_or_add(Action::Add, NodeKind::Dir, path, from)?,
        })
    }

    fn open_dir(
        &mut self,
        up: &mut BuiltDir,
        path: &NodePath,
        base: Option<RevNo>,
    ) -> Result<BuiltDir, EditorFault> {
        Ok(BuiltDir {
            path: self.open_or_add(Action::Modify, NodeKind::Dir, path, None)?,
        })
    }

    fn delete_entry(
        &mut self,
        up: &mut BuiltDir,
        path: &NodePath,
        base: Option<RevNo>,
    ) -> Result<(), EditorFault> {
        let change = new_change(self.alloc, Action::Delete, None, path, None)?;
        delete(
            self.alloc,
            self.trees,
            &mut self.tree,
            &mut self.changes,
            change,
        )
    }

    fn add_file(
        &mut self,
        up: &mut BuiltDir,
        path: &NodePath,
        from: Option<&Source>,
    ) -> Result<BuiltFile, EditorFault> {
        Ok(BuiltFile {
            path: self.open_or_add(Action::Add, NodeKind::File, path, from)?,
        })
    }

    fn open_file(
        &mut self,
        up: &mut BuiltDir,
        path: &NodePath,
        base: Option<RevNo>,
    ) -> Result<BuiltFile, EditorFault> {
        Ok(BuiltFile {
            path: self.open_or_add(Action::Modify, NodeKind::File, path, None)?,
        })
    }

    fn dir_prop(
        &mut self,
        dir: &mut BuiltDir,
        name: &PropName,
        value: Option<&[u8]>,
    ) -> Result<(), EditorFault> {
        put_prop(
            self.alloc,
            &mut self.tree,
            &mut self.changes,
            &dir.path,
            name,
            value,
        )
    }

    fn file_prop(
        &mut self,
        file: &mut BuiltFile,
        name: &PropName,
        value: Option<&[u8]>,
    ) -> Result<(), EditorFault> {
        put_prop(
            self.alloc,
            &mut self.tree,
            &mut self.changes,
            &file.path,
            name,
            value,
        )
    }

    fn text_start(&mut self, file: &mut BuiltFile) -> Result<(), EditorFault> {
        start_text(self.alloc, &mut self.tree, &mut self.changes, &file.path)
    }

    fn text_piece(&mut self, file: &mut BuiltFile, piece: &[u8]) -> Result<(), EditorFault> {
        append_text(
            self.alloc,
            &mut self.tree,
            &mut self.changes,
            &file.path,
            piece,
        )
    }

    fn text_end(&mut self, file: &mut BuiltFile) -> Result<(), EditorFault> {
        Ok(())
    }

    fn close_file(&mut self, file: BuiltFile, sum: Option<[u8; 16]>) -> Result<(), EditorFault> {
        let BuiltFile { path: _ } = file;
        Ok(())
    }

    fn close_dir(&mut self, dir: BuiltDir) -> Result<(), EditorFault> {
        let BuiltDir { path: _ } = dir;
        Ok(())
    }

    fn discard_file(&mut self, file: BuiltFile) {
        let BuiltFile { path: _ } = file;
    }

    fn discard_dir(&mut self, dir: BuiltDir) {
        let BuiltDir { path: _ } = dir;
    }

    fn close_edit(self) -> Result<Built<'a>, EditorFault> {
        let BuildEditor {
            alloc,
            trees,
            tree,
            changes,
        } = self;
        let set = finish(alloc, &tree, changes)?;
        Ok(Built { trees, set, tree })
    }

    fn abort_edit(self) {
        let BuildEditor {
            alloc: _,
            trees: _,
            tree: _,
            changes: _,
        } = self;
    }
}

impl<'a> TextEditor for BuildEditor<'a> {
    ghost use Rattle.editor_ends.specs.Builders.{HasText};

    ghost Texts = { List PathMap };

    ghost texts = { trees_of };

    ghost has_text = { HasText };

    #[tactic(auto, using(crate::proofs::Texts::has_text))]
    fn text_so_far(&self, file: &BuiltFile) -> Result<Text, AllocError> {
        text_at(self.alloc, &self.tree, &file.path)
    }

    ghost same_texts = { λ one other h. h };
}

// The text at a path, for another owner; the empty one where no file is there.
#[tactic(auto, using(crate::proofs::Texts::text_found))]
fn text_at(alloc: Global, tree: &Tree, path: &NodePath) -> Result<Text, AllocError>
    ensures { IfOk result (λ t. t ≡ text_at (map.get tree.now) path.now) }
{
    match tree.get(path.names()) {
        Some(node) => match &node.text {
            Some(text) => text.share(),
            None => Text::empty(alloc),
        },
        None => Text::empty(alloc),
    }
}
