//! An editor that keeps what it is shown.
ghost use Rattle.std.specs.Prelude.{◌≡◌, [], ◌∷◌, ◌++◌, IfOk, OnOk};
ghost use Rattle.std.specs.Option.{option_copied};
ghost use Rattle.delta_editor.specs.declared.call.Call.TheVariants as call;
ghost use Rattle.delta_editor.specs.declared.fault.EditorFault.TheVariants.{OutOfMemory};

use crate::{Bytes, Call, Editor, EditorFault, Source};
use node_base::{NodePath, PropName, RevNo};
use std::alloc::{AllocError, Global};
use std::marker::Model;

/// Keeps the calls that it is shown, in order. It refuses for want of memory alone (70).
#[derive(Drop)]
pub struct Recorder {
    alloc: Global,
    calls: Vec<Call>,
}

/// A directory that is open in a recorder, seen by contracts as its path. It has to be closed or discarded.
pub struct OpenDir {
    path: NodePath,
}

impl Model for OpenDir {
    ghost use Rattle.node_base.specs.Path.{Path, coded_path};

    ghost Value = { Path };

    ghost coded = { coded_path };

    ghost view = { λ d. d.path };
}

/// A file that is open in a recorder, seen by contracts as its path. It has to be closed or discarded.
pub struct OpenFile {
    path: NodePath,
}

impl Model for OpenFile {
    ghost use Rattle.node_base.specs.Path.{Path, coded_path};

    ghost Value = { Path };

    ghost coded = { coded_path };

    ghost view = { λ f. f.path };
}

impl Recorder {
    ghost use Rattle.delta_editor.specs.Recorded.{calls_of};

    /// Nothing was shown yet.
    pub fn new(alloc: Global) -> Recorder
        ensures { calls_of result ≡ [] }
    {
        Recorder {
            alloc,
            calls: Vec::new(alloc),
        }
    }

    /// The calls that it was shown, in order.
    pub fn calls(&self) -> &[Call]
        ensures { result.now ≡ calls_of self.now }
    {
        self.calls.as_slice()
    }

    fn keep(&mut self, call: Call) -> Result<(), AllocError>
        ensures { OnOk result (calls_of self.new ≡ calls_of self.old ++ call ∷ []) }
    {
        self.calls.push(call)?;
        Ok(())
    }
}

fn copied_source(alloc: Global, source: Option<&Source>) -> Result<Option<Source>, AllocError>
    ensures { IfOk result (λ s. s ≡ option_copied source.entry) }
{
    match source {
        None => Ok(None),
        Some(source) => Ok(Some(Source {
            path: source.path.copy(alloc)?,
            revision: source.revision,
        })),
    }
}

fn copied_value(alloc: Global, value: Option<&[u8]>) -> Result<Option<Bytes>, AllocError>
    ensures { IfOk result (λ v. v ≡ option_copied value.entry) }
{
    match value {
        None => Ok(None),
        Some(value) => Ok(Some(Bytes::copy_of(alloc, value)?)),
    }
}

impl Editor for Recorder {
    ghost use Rattle.delta_editor.specs.Calls.{Call};
    ghost use Rattle.delta_editor.specs.Recorded.{calls_of};

    type Dir = OpenDir;

    type File = OpenFile;

    type Done = Vec<Call>;

    ghost shows = { λ r calls. calls_of r ≡ calls };

    ghost done_shows = { λ d calls. d.items ≡ calls };

    ghost dir_path = { λ d. d };

    ghost file_path = { λ f. f };

    ghost Began = { Unit {0} };

    ghost began = { λ r. tt };

    ghost done_began = { λ d. tt };

    ghost refuses = { λ nothing calls c e. e ≡ OutOfMemory };

    // It keeps neither what it is let go of nor that it is given up.
    ghost lets_go = { λ r paths. Unit {0} };

    ghost given_up = { λ r. Unit {0} };

    fn target(&mut self, rev: RevNo) -> Result<(), EditorFault> {
        self.keep(Call::Target(rev))?;
        Ok(())
    }

    fn open_root(&mut self, base: Option<RevNo>) -> Result<OpenDir, EditorFault> {
        self.keep(Call::OpenRoot(base))?;
        Ok(OpenDir {
            path: NodePath::root(self.alloc),
        })
    }

    fn add_dir(
        &mut self,
        up: &mut OpenDir,
        path: &NodePath,
        from: Option<&Source>,
    ) -> Result<OpenDir, EditorFault> {
        let from = copied_source(self.alloc, from)?;
        let above = up.path.copy(self.alloc)?;
        let baton = path.copy(self.alloc)?;
        let path = path.copy(self.alloc)?;
        self.keep(Call::AddDir(above, path, from))?;
        Ok(OpenDir { path: baton })
    }

    fn open_dir(
        &mut self,
        up: &mut OpenDir,
        path: &NodePath,
        base: Option<RevNo>,
    ) -> Result<OpenDir, EditorFault> {
        let above = up.path.copy(self.alloc)?;
        let baton = path.copy(self.alloc)?;
        let path = path.copy(self.alloc)?;
        self.keep(Call::OpenDir(above, path, base))?;
        Ok(OpenDir { path: baton })
    }

    fn delete_entry(
        &mut self,
        up: &mut OpenDir,
        path: &NodePath,
        base: Option<RevNo>,
    ) -> Result<(), EditorFault> {
        let above = up.path.copy(self.alloc)?;
        let path = path.copy(self.alloc)?;
        self.keep(Call::DeleteEntry(above, path, base))?;
        Ok(())
    }

    fn add_file(
        &mut self,
        up: &mut OpenDir,
        path: &NodePath,
        from: Option<&Source>,
    ) -> Result<OpenFile, EditorFault> {
        let from = copied_source(self.alloc, from)?;
        let above = up.path.copy(self.alloc)?;
        let baton = path.copy(self.alloc)?;
        let path = path.copy(self.alloc)?;
        self.keep(Call::AddFile(above, path, from))?;
        Ok(OpenFile { path: baton })
    }

    fn open_file(
        &mut self,
        up: &mut OpenDir,
        path: &NodePath,
        base: Option<RevNo>,
    ) -> Result<OpenFile, EditorFault> {
        let above = up.path.copy(self.alloc)?;
        let baton = path.copy(self.alloc)?;
        let path = path.copy(self.alloc)?;
        self.keep(Call::OpenFile(above, path, base))?;
        Ok(OpenFile { path: baton })
    }

    fn dir_prop(
        &mut self,
        dir: &mut OpenDir,
        name: &PropName,
        value: Option<&[u8]>,
    ) -> Result<(), EditorFault> {
        let path = dir.path.copy(self.alloc)?;
        let name = name.copy(self.alloc)?;
        let value = copied_value(self.alloc, value)?;
        self.keep(Call::DirProp(path, name, value))?;
        Ok(())
    }

    fn file_prop(
        &mut self,
        file: &mut OpenFile,
        name: &PropName,
        value: Option<&[u8]>,
    ) -> Result<(), EditorFault> {
        let path = file.path.copy(self.alloc)?;
        let name = name.copy(self.alloc)?;
        let value = copied_value(self.alloc, value)?;
        self.keep(Call::FileProp(path, name, value))?;
        Ok(())
    }

    fn text_start(&mut self, file: &mut OpenFile) -> Result<(), EditorFault> {
        let path = file.path.copy(self.alloc)?;
        self.keep(Call::TextStart(path))?;
        Ok(())
    }

    fn text_piece(&mut self, file: &mut OpenFile, piece: &[u8]) -> Result<(), EditorFault> {
        let path = file.path.copy(self.alloc)?;
        let piece = Bytes::copy_of(self.alloc, piece)?;
        self.keep(Call::TextPiece(path, piece))?;
        Ok(())
    }

    fn text_end(&mut self, file: &mut OpenFile) -> Result<(), EditorFault> {
        let path = file.path.copy(self.alloc)?;
        self.keep(Call::TextEnd(path))?;
        Ok(())
    }

    fn close_file(&mut self, file: OpenFile, sum: Option<[u8; 16]>) -> Result<(), EditorFault> {
        let OpenFile { path } = file;
        self.keep(Call::CloseFile(path, sum))?;
        Ok(())
    }

    fn close_dir(&mut self, dir: OpenDir) -> Result<(), EditorFault> {
        let OpenDir { path } = dir;
        self.keep(Call::CloseDir(path))?;
        Ok(())
    }

    fn discard_file(&mut self, file: OpenFile) {
        let OpenFile { path: _ } = file;
    }

    fn discard_dir(&mut self, dir: OpenDir) {
        let OpenDir { path: _ } = dir;
    }

    fn close_edit(self) -> Result<Vec<Call>, EditorFault> {
        let mut this = self;
        this.keep(Call::CloseEdit)?;
        let Recorder { alloc: _, calls } = this;
        Ok(calls)
    }

    fn abort_edit(self) {
        let Recorder { alloc: _, calls: _ } = self;
    }
}
