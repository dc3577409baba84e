//! An editor that writes the calls that it is shown as commands of the ra_svn protocol.

ghost use Rattle.std.specs.Prelude.{◌≡◌, ◌+◌, ℕ, List, [], ◌∷◌, ◌++◌, Option, Some, None, IfOk};
ghost use Rattle.std.specs.Prelude.{IfErr, IsOk, OnOk};
ghost use Rattle.std.specs.Io.KnownBytes.{Keeps};
ghost use Rattle.std.specs.Io.Buffered.{writer_buffer, writer_contents};
ghost use Rattle.delta_editor.specs.declared.fault.EditorFault.TheVariants.{OutOfMemory, PeerFailed};
ghost use Rattle.ra_edit.specs.Tokens.{newest};
ghost use Rattle.ra_edit.specs.Wire.{Shows, Holds, held_before, done_held_before, inner_of, writer_of, room_of};

use crate::command;
use crate::name::Name;
use crate::token::{Place, Tokens};
use delta_editor::{Editor, EditorFault, Source};
use node_base::{NodePath, PropName, RevNo};
use std::alloc::Global;
use std::io;
use std::io::{BufWriter, Write};
use std::snapshot::Snapshot;

/// How many bytes are kept back at most until they are written: the longest command of a revision within the limits
/// has 65,842.
pub const ROOM: usize = 66_560;

/// Writes the calls that it is shown, each as its commands in the one spelling that is written. What is opened gets
/// the tokens `t0`, `t1`, `t2` and so on in the order of opening. A piece of a text is written in windows of at
/// most 65,536 bytes.
///
/// `new` reserves its room once. From then on its calls take no memory: they answer `PeerFailed` (49) where the writer
/// failed, or where 2^64 - 1 tokens are given out, and nothing else.
///
/// The caller keeps the nesting, and opens or adds in a directory only paths with more names than its own.
pub struct WireEditor<W: Write + Drop> {
    alloc: Global,
    out: BufWriter<W>,
    start: Snapshot<W>,
    tokens: Tokens,
}

/// A directory that is open in a wire editor. It has to be closed or discarded.
pub struct WireDir {
    place: Place,
}

/// A file that is open in a wire editor. It has to be closed or discarded.
pub struct WireFile {
    place: Place,
}

/// The writer behind an edit.
#[derive(Drop)]
pub struct Written<W> {
    out: W,
    start: Snapshot<W>,
}

impl<W> Written<W> {
    /// The writer. It holds what it had when the editor was made and the commands of the edit.
    pub fn into_inner(self) -> W
        ensures { result ≡ writer_of self }
    {
        self.out
    }
}

impl<W: Write + Drop> WireEditor<W> {
    /// An editor that writes behind what the writer has. `OutOfMemory` (70) where its room can't be had; the writer
    /// is let go of then.
    pub fn new(alloc: Global, out: W) -> Result<WireEditor<W>, EditorFault>
        ensures begins { IfOk result (λ e. Shows W.contents e []) }
        ensures began { IfOk result (λ e. held_before W.contents e ≡ W.contents out) }
        ensures room { IfOk result (λ e. room_of e ≡ 66560) }
        ensures memory { IfErr result (λ e. e ≡ OutOfMemory) }
    {
        let start = Snapshot::of(&out);
        match BufWriter::with_capacity(alloc, ROOM, out) {
            Ok(out) => Ok(WireEditor {
                alloc,
                out,
                start,
                tokens: Tokens::new(),
            }),
            Err(_) => Err(EditorFault::OutOfMemory),
        }
    }

    /// Gives the edit up, behind a refusal too: the writer, as the calls so far left it.
    pub fn into_writer(self) -> W
        ensures { result ≡ inner_of self }
    {
        let WireEditor {
            alloc: _,
            out,
            start: _,
            tokens: _,
        } = self;
        let (out, _) = out.into_parts();
        out
    }
}

/// Writes out what is kept back, where the whole of a command is there.
fn sent<W: Write + Drop>(out: &mut BufWriter<W>, written: io::Result<()>) -> Result<(), EditorFault>
    ensures whole { OnOk result (IsOk written) }
    ensures kept { OnOk result (Keeps (writer_contents W.contents out.old) (writer_contents W.contents out.new)) }
    ensures none_waits { OnOk result (writer_buffer out.new ≡ []) }
    ensures fault { IfErr result (λ e. e ≡ PeerFailed) }
{
    match written {
        Ok(()) => match out.flush() {
            Ok(()) => Ok(()),
            Err(_) => Err(EditorFault::PeerFailed),
        },
        Err(_) => Err(EditorFault::PeerFailed),
    }
}

impl<W: Write + Drop> Editor for WireEditor<W> {
    type Dir = WireDir;

    type File = WireFile;

    type Done = Written<W>;

    ghost shows = { Shows W.contents };

    ghost done_shows = { Holds W.contents };

    ghost dir_path = { λ d. d.place.path.value };

    ghost file_path = { λ f. f.place.path.value };

    ghost Began = { Option (List ℕ) };

    ghost began = { held_before W.contents };

    ghost done_began = { done_held_before W.contents };

    ghost refuses = { λ held calls c e. e ≡ PeerFailed };

    // It keeps neither what it is let go of nor that it is given up.
    ghost lets_go = { λ e paths. Unit {0} };

    ghost given_up = { λ e. Unit {0} };

    fn target(&mut self, rev: RevNo) -> Result<(), EditorFault> {
        let written = command::write_numbered(&mut self.out, Name::TargetRev, rev.get());
        sent(&mut self.out, written)
    }

    fn open_root(&mut self, base: Option<RevNo>) -> Result<WireDir, EditorFault> {
        let place = Place::of(&NodePath::root(self.alloc));
        let Some(child) = self.tokens.give(&place) else {
            return Err(EditorFault::PeerFailed);
        };
        let written = command::write_open_root(&mut self.out, Name::OpenRoot, base, child);
        sent(&mut self.out, written)?;
        Ok(WireDir { place })
    }

    fn add_dir(
        &mut self,
        up: &mut WireDir,
        path: &NodePath,
        from: Option<&Source>,
    ) -> Result<WireDir, EditorFault> {
        let parent = self.tokens.at(&up.place);
        let place = Place::of(path);
        let Some(child) = self.tokens.give(&place) else {
            return Err(EditorFault::PeerFailed);
        };
        let written = command::write_add(&mut self.out, Name::AddDir, path, parent, child, from);
        sent(&mut self.out, written)?;
        Ok(WireDir { place })
    }

    fn open_dir(
        &mut self,
        up: &mut WireDir,
        path: &NodePath,
        base: Option<RevNo>,
    ) -> Result<WireDir, EditorFault> {
        let parent = self.tokens.at(&up.place);
        let place = Place::of(path);
        let Some(child) = self.tokens.give(&place) else {
            return Err(EditorFault::PeerFailed);
        };
        let written = command::write_open_node(
            &mut self.out,
            Name::OpenDir,
            path,
            parent,
            child,
            base,
        );
        sent(&mut self.out, written)?;
        Ok(WireDir { place })
    }

    fn delete_entry(
        &mut self,
        up: &mut WireDir,
        path: &NodePath,
        base: Option<RevNo>,
    ) -> Result<(), EditorFault> {
        let parent = self.tokens.at(&up.place);
        let written = command::write_delete(&mut self.out, Name::DeleteEntry, path, base, parent);
        sent(&mut self.out, written)
    }

    fn add_file(
        &mut self,
        up: &mut WireDir,
        path: &NodePath,
        from: Option<&Source>,
    ) -> Result<WireFile, EditorFault> {
        let parent = self.tokens.at(&up.place);
        let place = Place::of(path);
        let Some(child) = self.tokens.give(&place) else {
            return Err(EditorFault::PeerFailed);
        };
        let written = command::write_add(&mut self.out, Name::AddFile, path, parent, child, from);
        sent(&mut self.out, written)?;
        Ok(WireFile { place })
    }

    fn open_file(
        &mut self,
        up: &mut WireDir,
        path: &NodePath,
        base: Option<RevNo>,
    ) -> Result<WireFile, EditorFault> {
        let parent = self.tokens.at(&up.place);
        let place = Place::of(path);
        let Some(child) = self.tokens.give(&place) else {
            return Err(EditorFault::PeerFailed);
        };
        let written = command::write_open_node(
            &mut self.out,
            Name::OpenFile,
            path,
            parent,
            child,
            base,
        );
        sent(&mut self.out, written)?;
        Ok(WireFile { place })
    }

    fn dir_prop(
        &mut self,
        dir: &mut WireDir,
        name: &PropName,
        value: Option<&[u8]>,
    ) -> Result<(), EditorFault> {
        let at = self.tokens.at(&dir.place);
        let name = name.as_bytes();
        let written = command::write_prop(&mut self.out, Name::ChangeDirProp, at, name, value);
        sent(&mut self.out, written)
    }

    fn file_prop(
        &mut self,
        file: &mut WireFile,
        name: &PropName,
        value: Option<&[u8]>,
    ) -> Result<(), EditorFault> {
        let at = self.tokens.at(&file.place);
        let name = name.as_bytes();
        let written = command::write_prop(&mut self.out, Name::ChangeFileProp, at, name, value);
        sent(&mut self.out, written)
    }

    fn text_start(&mut self, file: &mut WireFile) -> Result<(), EditorFault> {
        let at = self.tokens.at(&file.place);
        let written = command::write_text_start(&mut self.out, at);
        sent(&mut self.out, written)
    }

    fn text_piece(&mut self, file: &mut WireFile, piece: &[u8]) -> Result<(), EditorFault> {
        let at = self.tokens.at(&file.place);
        let written = command::write_piece(&mut self.out, at, piece);
        sent(&mut self.out, written)
    }

    fn text_end(&mut self, file: &mut WireFile) -> Result<(), EditorFault> {
        let at = self.tokens.at(&file.place);
        let written = command::write_ended(&mut self.out, Name::TextdeltaEnd, at);
        sent(&mut self.out, written)
    }

    fn close_file(&mut self, file: WireFile, sum: Option<[u8; 16]>) -> Result<(), EditorFault> {
        let WireFile { place } = file;
        let at = self.tokens.at(&place);
        let written = command::write_close_file(&mut self.out, Name::CloseFile, at, sum);
        sent(&mut self.out, written)
    }

    fn close_dir(&mut self, dir: WireDir) -> Result<(), EditorFault> {
        let WireDir { place } = dir;
        let at = self.tokens.at(&place);
        let written = command::write_ended(&mut self.out, Name::CloseDir, at);
        sent(&mut self.out, written)
    }

    fn discard_file(&mut self, file: WireFile) {
        let WireFile { place: _ } = file;
    }

    fn discard_dir(&mut self, dir: WireDir) {
        let WireDir { place: _ } = dir;
    }

    fn close_edit(self) -> Result<Written<W>, EditorFault> {
        let WireEditor {
            alloc: _,
            mut out,
            start,
            tokens: _,
        } = self;
        let written = command::write_bare(&mut out, Name::FinishReplay);
        sent(&mut out, written)?;
        let (out, _) = out.into_parts();
        Ok(Written { out, start })
    }

    fn abort_edit(self) {
        let _ = self.into_writer();
    }
}
