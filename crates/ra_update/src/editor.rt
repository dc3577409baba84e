//! An editor that writes an update: what a drive shows it, with what a client wants to know beside that.

ghost use Rattle.std.specs.Prelude.{◌≡◌, ◌++◌, [], ◌∷◌, ℕ, List, Option, Some, None, IfOk, IfErr, OnOk};
ghost use Rattle.std.specs.Option.{option_map};
ghost use Rattle.std.specs.FinMap as finite;
ghost use Rattle.node_base.specs.Path.{Path};
ghost use Rattle.delta_editor.specs.Calls.{Adds};
ghost use Rattle.delta_editor.specs.declared.call.Call.TheVariants as call;
ghost use Rattle.delta_editor.specs.declared.fault.EditorFault.TheVariants.{OutOfMemory};
ghost use Rattle.ra_edit.specs.Wire.{Shows, held_before};
ghost use Rattle.ra_update.specs.Entries.{entry_calls, entry_props, given, revision_prop, root_calls};
ghost use Rattle.ra_update.specs.Updated.{Begun, ShowsUpdated, Stopped, begun, begun_with, done_begun_with};
ghost use Rattle.ra_update.specs.Updated.{path_of_dir, path_of_file, written_by};
ghost use Rattle.ra_update.specs.Updates.{MayStop};

use crate::batons::{UpdateDir, UpdateFile};
use crate::facts::Facts;
use crate::names::EntryNames;
use crate::reported::{dir_in, file_in, has_already};
use delta_editor::{Editor, EditorFault, Source};
use itoa::Buffer;
use node_base::{Node, NodePath, PropName, RevNo};
use path_tree::Tree;
use ra_edit::wire::{WireDir, WireEditor, WireFile, Written};
use std::alloc::Global;
use std::io::Write;

/// Writes what a drive shows it, each call with the edit's revisions in place of the drive's, and behind each call that
/// opens or adds something what a client wants to know of the target's node there. It leaves out each property that the
/// tree which was reported has there, in a node of that kind, with that value.
pub struct UpdateEditor<'a, W: Write + Drop> {
    alloc: Global,
    inner: WireEditor<W>,
    names: EntryNames,
    facts: &'a Facts<'a>,
    reported: &'a Tree,
}

/// The writer behind an edit that was ended as a replay.
#[derive(Drop)]
pub struct Ended<'a, W> {
    out: Written<W>,
    facts: &'a Facts<'a>,
    reported: &'a Tree,
}

impl<'a, W: Write + Drop> UpdateEditor<'a, W> {
    /// An editor that writes behind what the writer has.
    pub fn new(
        alloc: Global,
        reported: &'a Tree,
        facts: &'a Facts<'a>,
        out: W,
    ) -> Result<UpdateEditor<'a, W>, EditorFault>
        ensures begins { IfOk result (λ e. ShowsUpdated W.contents e []) }
        ensures began { IfOk result (λ e. begun_with W.contents e ≡ begun (W.contents out) facts.now reported.now) }
        ensures memory { IfErr result (λ e. e ≡ OutOfMemory) }
    {
        let names = EntryNames::new(alloc)?;
        let inner = WireEditor::new(alloc, out)?;
        Ok(UpdateEditor {
            alloc,
            inner,
            names,
            facts,
            reported,
        })
    }

    /// The writer, as the calls so far left it.
    pub fn into_writer(self) -> W
        ensures { result ≡ written_by self.entry }
    {
        let UpdateEditor {
            alloc: _,
            inner,
            names: _,
            facts: _,
            reported: _,
        } = self;
        inner.into_writer()
    }
}

// A property of the revision that last changed a node.
fn revision_prop<'a>(facts: &Facts<'a>, node: &Node, name: &[u8]) -> Option<&'a [u8]>
    ensures { option_map (λ v. v.now) result ≡ revision_prop facts.now node.now name.now }
{
    let props = facts.revisions.get(node.changed.index())?;
    props.get(name)
}

// Tells of a directory what a client wants to know.
fn tell_dir<W: Write + Drop>(
    editor: &mut WireEditor<W>,
    names: &EntryNames,
    facts: &Facts<'_>,
    dir: &mut WireDir,
    node: &Node,
) -> Result<(), EditorFault>
    ensures shown { OnOk result (Adds (Shows W.contents) editor.old editor.new
        (given (call.DirProp (path_of_dir dir.old)) (entry_props facts.now node.now))) }
    ensures refused { IfErr result (Stopped W.contents editor.old) }
    ensures baton { path_of_dir dir.new ≡ path_of_dir dir.old }
    ensures began { held_before W.contents editor.new ≡ held_before W.contents editor.old }
{
    let mut digits = Buffer::new();
    let number = digits.format(node.changed.get()).as_bytes();
    editor.dir_prop(dir, &names.number, Some(number))?;
    editor.dir_prop(dir, &names.date, revision_prop(facts, node, b"svn:date"))?;
    editor.dir_prop(
        dir,
        &names.author,
        revision_prop(facts, node, b"svn:author"),
    )?;
    editor.dir_prop(dir, &names.identity, Some(facts.identity))
}

// Tells of a file what a client wants to know.
fn tell_file<W: Write + Drop>(
    editor: &mut WireEditor<W>,
    names: &EntryNames,
    facts: &Facts<'_>,
    file: &mut WireFile,
    node: &Node,
) -> Result<(), EditorFault>
    ensures shown { OnOk result (Adds (Shows W.contents) editor.old editor.new
        (given (call.FileProp (path_of_file file.old)) (entry_props facts.now node.now))) }
    ensures refused { IfErr result (Stopped W.contents editor.old) }
    ensures baton { path_of_file file.new ≡ path_of_file file.old }
    ensures began { held_before W.contents editor.new ≡ held_before W.contents editor.old }
{
    let mut digits = Buffer::new();
    let number = digits.format(node.changed.get()).as_bytes();
    editor.file_prop(file, &names.number, Some(number))?;
    editor.file_prop(file, &names.date, revision_prop(facts, node, b"svn:date"))?;
    editor.file_prop(
        file,
        &names.author,
        revision_prop(facts, node, b"svn:author"),
    )?;
    editor.file_prop(file, &names.identity, Some(facts.identity))
}

// A directory that was opened, with what is told of it.
fn entered<W: Write + Drop>(
    editor: &mut WireEditor<W>,
    names: &EntryNames,
    facts: &Facts<'_>,
    wire: WireDir,
    path: NodePath,
) -> Result<UpdateDir, EditorFault>
    requires { path_of_dir wire ≡ path }
    ensures shown { OnOk result
        (Adds (Shows W.contents) editor.old editor.new (entry_calls facts.now call.DirProp path)) }
    ensures refused { IfErr result (Stopped W.contents editor.old) }
    ensures baton { IfOk result (λ d. path_of_dir d.wire ≡ path) }
    ensures began { held_before W.contents editor.new ≡ held_before W.contents editor.old }
{
    let mut wire = wire;
    let Some(node) = facts.target.get(path.names()) else {
        return Ok(UpdateDir { wire, path });
    };
    match tell_dir(editor, names, facts, &mut wire, node) {
        Ok(()) => Ok(UpdateDir { wire, path }),
        Err(fault) => {
            editor.discard_dir(wire);
            Err(fault)
        }
    }
}

// The root that was opened, with what is told of it.
fn root_entered<W: Write + Drop>(
    editor: &mut WireEditor<W>,
    names: &EntryNames,
    facts: &Facts<'_>,
    wire: WireDir,
    root: NodePath,
) -> Result<UpdateDir, EditorFault>
    requires is { path_of_dir wire ≡ root }
    requires root { root ≡ [] }
    ensures shown { OnOk result (Adds (Shows W.contents) editor.old editor.new (root_calls facts.now)) }
    ensures refused { IfErr result (Stopped W.contents editor.old) }
    ensures baton { IfOk result (λ d. path_of_dir d.wire ≡ root) }
    ensures began { held_before W.contents editor.new ≡ held_before W.contents editor.old }
{
    if !facts.tells_root {
        return Ok(UpdateDir { wire, path: root });
    }
    entered(editor, names, facts, wire, root)
}

// A file that was opened, with what is told of it.
fn started<W: Write + Drop>(
    editor: &mut WireEditor<W>,
    names: &EntryNames,
    facts: &Facts<'_>,
    wire: WireFile,
    path: NodePath,
) -> Result<UpdateFile, EditorFault>
    requires { path_of_file wire ≡ path }
    ensures shown { OnOk result
        (Adds (Shows W.contents) editor.old editor.new (entry_calls facts.now call.FileProp path)) }
    ensures refused { IfErr result (Stopped W.contents editor.old) }
    ensures baton { IfOk result (λ f. path_of_file f.wire ≡ path) }
    ensures began { held_before W.contents editor.new ≡ held_before W.contents editor.old }
{
    let mut wire = wire;
    let Some(node) = facts.target.get(path.names()) else {
        return Ok(UpdateFile { wire, path });
    };
    match tell_file(editor, names, facts, &mut wire, node) {
        Ok(()) => Ok(UpdateFile { wire, path }),
        Err(fault) => {
            editor.discard_file(wire);
            Err(fault)
        }
    }
}

impl<'a, W: Write + Drop> Editor for UpdateEditor<'a, W> {
    type Dir = UpdateDir;

    type File = UpdateFile;

    type Done = Ended<'a, W>;

    ghost shows = { ShowsUpdated W.contents };

    ghost done_shows = { λ d calls. Unit {0} };

    ghost dir_path = { λ d. path_of_dir d.wire };

    ghost file_path = { λ f. path_of_file f.wire };

    ghost Began = { Begun };

    ghost began = { begun_with W.contents };

    ghost done_began = { done_begun_with W.contents };

    // Memory is wanted for what it opens.
    ghost refuses = { λ begun calls c e. MayStop e };

    // It keeps neither what it is let go of nor that it is given up.
    ghost lets_go = { λ e paths. Unit {0} };

    ghost given_up = { λ e. Unit {0} };

    fn target(&mut self, _rev: RevNo) -> Result<(), EditorFault> {
        self.inner.target(self.facts.number)
    }

    fn open_root(&mut self, _base: Option<RevNo>) -> Result<UpdateDir, EditorFault> {
        let root = NodePath::root(self.alloc);
        let dir = self.inner.open_root(self.facts.base)?;
        root_entered(&mut self.inner, &self.names, self.facts, dir, root)
    }

    fn add_dir(
        &mut self,
        up: &mut UpdateDir,
        path: &NodePath,
        from: Option<&Source>,
    ) -> Result<UpdateDir, EditorFault> {
        let place = path.copy(self.alloc)?;
        let dir = self.inner.add_dir(&mut up.wire, path, from)?;
        entered(&mut self.inner, &self.names, self.facts, dir, place)
    }

    fn open_dir(
        &mut self,
        up: &mut UpdateDir,
        path: &NodePath,
        _base: Option<RevNo>,
    ) -> Result<UpdateDir, EditorFault> {
        let place = path.copy(self.alloc)?;
        let dir = self.inner.open_dir(&mut up.wire, path, self.facts.base)?;
        entered(&mut self.inner, &self.names, self.facts, dir, place)
    }

    fn delete_entry(
        &mut self,
        up: &mut UpdateDir,
        path: &NodePath,
        _base: Option<RevNo>,
    ) -> Result<(), EditorFault> {
        self.inner.delete_entry(&mut up.wire, path, self.facts.base)
    }

    fn add_file(
        &mut self,
        up: &mut UpdateDir,
        path: &NodePath,
        from: Option<&Source>,
    ) -> Result<UpdateFile, EditorFault> {
        let place = path.copy(self.alloc)?;
        let file = self.inner.add_file(&mut up.wire, path, from)?;
        started(&mut self.inner, &self.names, self.facts, file, place)
    }

    fn open_file(
        &mut self,
        up: &mut UpdateDir,
        path: &NodePath,
        _base: Option<RevNo>,
    ) -> Result<UpdateFile, EditorFault> {
        let place = path.copy(self.alloc)?;
        let file = self.inner.open_file(&mut up.wire, path, self.facts.base)?;
        started(&mut self.inner, &self.names, self.facts, file, place)
    }

    fn dir_prop(
        &mut self,
        dir: &mut UpdateDir,
        name: &PropName,
        value: Option<&[u8]>,
    ) -> Result<(), EditorFault> {
        if has_already(dir_in(self.reported, &dir.path), name, value) {
            return Ok(());
        }
        self.inner.dir_prop(&mut dir.wire, name, value)
    }

    fn file_prop(
        &mut self,
        file: &mut UpdateFile,
        name: &PropName,
        value: Option<&[u8]>,
    ) -> Result<(), EditorFault> {
        if has_already(file_in(self.reported, &file.path), name, value) {
            return Ok(());
        }
        self.inner.file_prop(&mut file.wire, name, value)
    }

    fn text_start(&mut self, file: &mut UpdateFile) -> Result<(), EditorFault> {
        self.inner.text_start(&mut file.wire)
    }

    fn text_piece(&mut self, file: &mut UpdateFile, piece: &[u8]) -> Result<(), EditorFault> {
        self.inner.text_piece(&mut file.wire, piece)
    }

    fn text_end(&mut self, file: &mut UpdateFile) -> Result<(), EditorFault> {
        self.inner.text_end(&mut file.wire)
    }

    fn close_file(&mut self, file: UpdateFile, sum: Option<[u8; 16]>) -> Result<(), EditorFault> {
        let UpdateFile { wire, path: _ } = file;
        self.inner.close_file(wire, sum)
    }

    fn close_dir(&mut self, dir: UpdateDir) -> Result<(), EditorFault> {
        let UpdateDir { wire, path: _ } = dir;
        self.inner.close_dir(wire)
    }

    fn discard_file(&mut self, file: UpdateFile) {
        let UpdateFile { wire, path: _ } = file;
        self.inner.discard_file(wire)
    }

    fn discard_dir(&mut self, dir: UpdateDir) {
        let UpdateDir { wire, path: _ } = dir;
        self.inner.discard_dir(wire)
    }

    /// Ends it as a replay. An update ends otherwise: `into_writer` gives what was written up to its end.
    fn close_edit(self) -> Result<Ended<'a, W>, EditorFault> {
        let UpdateEditor {
            alloc: _,
            inner,
            names: _,
            facts,
            reported,
        } = self;
        let out = inner.close_edit()?;
        Ok(Ended {
            out,
            facts,
            reported,
        })
    }

    fn abort_edit(self) {
        let _ = self.into_writer();
    }
}
