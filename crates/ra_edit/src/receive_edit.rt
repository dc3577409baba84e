//! An edit that is received: what is open, and what a command does.

ghost use Rattle.std.specs.Prelude.{◌≡◌, ◌+◌, ◌≤◌, ◌<◌, ◌∷◌, ◌&&◌, []};
ghost use Rattle.std.specs.Prelude.{Option, length, reverse, IfOk, IfErr, IsSomeAnd, OnOk, OnErr, Ok, Err};
ghost use Rattle.std.specs.Prelude.{Some, None, true, false, vec_len, vec_capacity, slice_get};
ghost use Rattle.std.specs.Option.{option_copied, option_map};
ghost use Rattle.std.specs.List.{concat};
ghost use Rattle.md5.specs.Md5.{Holds, md5};
ghost use Rattle.node_base.specs.Path.{same_name};
ghost use Rattle.delta_editor.specs.Calls.{Adds, LetsGo, StaysShown};
ghost use Rattle.delta_editor.specs.declared.call.Call.{Call};
ghost use Rattle.delta_editor.specs.declared.call.Call.TheVariants as call;
ghost use Rattle.svndiff.specs.Streams.{reading, Reads};
ghost use Rattle.ra_edit.specs.Edits.{At, Begun, is_free, last_calls, Within};
ghost use Rattle.ra_edit.specs.declared.name.Name.TheVariants as word;
ghost use Rattle.ra_edit.specs.Refusals.{open_of, unless, is_in_dir, has_dir, for_token, in_file, at_start, at_text};
ghost use Rattle.ra_edit.specs.Refusals.{behind_end, of_stream};
ghost use Rattle.ra_edit.specs.Refusals.{at_chunk, at_end, at_close, is_finish, due, refusal, RefusedFor};
ghost use Rattle.ra_edit.specs.Refusals.{RefusesOne, IfOwn};
ghost use Rattle.ra_edit.specs.declared.command_fault.CommandFault.{CommandFault};
ghost use Rattle.ra_edit.specs.declared.command_fault.CommandFault.TheVariants as fault;
ghost use Rattle.ra_edit.specs.Edit.{StandsAt, RefusedAs, dirs_named, is_unopened, is_announced, has_root, dir_paths};
ghost use Rattle.ra_edit.specs.Edit.{TextEnds};
ghost use Rattle.ra_edit.specs.Edit.{SumIs, IsBase, IsGivenText, IsInText, all_open};
ghost use Rattle.ra_edit.specs.declared.receive_command.Command.TheVariants as command;
ghost use Rattle.ra_edit.specs.declared.receive_edit.Given.TheVariants as given;
ghost use Rattle.ra_edit.specs.Editing.{Does, Steps, RefusesAt, RefusesDue, MayMeet, KeepsOpen, TakesInnermost};
ghost use Rattle.ra_edit.specs.Editing.{EndsEdit, IsGivenUp, DoesInFile, RefusesGiven, RefusesInFile, MeetsOne};
ghost use Rattle.ra_edit.specs.Editing.{MeetsPiece};

use crate::command_fault::CommandFault;
use crate::receive_command::Command;
use crate::receive_text::take_chunk;
use delta_editor::{Editor, EditorFault, TextEditor};
use md5::{Digest, Md5};
use node_base::{NodePath, PropName, RevNo, Source, Text};
use std::alloc::{AllocError, Global};
use std::cmp::Ordering;
use std::mem;
use svndiff::reader::WindowReader;

// A directory that is open, and its token.
pub struct OpenDir<D> {
    token: Vec<u8>,
    baton: D,
}

// What was given of a file's text.
#[derive(Drop)]
pub enum Given {
    // Nothing.
    Nothing,
    // So much, with what has come of the window that isn't whole.
    Begun(WindowReader, Md5),
    // All of it, with this MD5.
    Whole([u8; 16]),
}

// A file that is open, and its token.
pub struct OpenFile<F> {
    token: Vec<u8>,
    baton: F,
    given: Given,
}

// Which commands have come.
#[derive(Clone, Copy)]
pub enum Stage {
    // None.
    Begun,
    // The target.
    Targeted,
    // The root was opened.
    Inside,
    // `close-edit`, with or without a root.
    Announced(bool),
}

/// An edit that is received: the editor, and what is open.
pub struct Edit<E: Editor> {
    editor: E,
    stage: Stage,
    // The innermost last.
    dirs: Vec<OpenDir<E::Dir>>,
    file: Option<OpenFile<E::File>>,
}

// Whether two tokens are the same.
#[tactic(auto, using(crate::proofs::Steps::name_of_same))]
fn is_same(a: &[u8], b: &[u8]) -> bool
    ensures same { result ≡ same_name a.now b.now }
    ensures is { result ≡ true → a.now ≡ b.now }
{
    a.cmp(&b) == Ordering::Equal
}

impl<E: Editor> Edit<E> {
    /// Before the first command.
    pub fn new(alloc: Global, editor: E) -> Edit<E>
        ensures editor { result.editor ≡ editor }
        ensures stands { StandsAt E.dir_path E.file_path result Begun }
    {
        Edit {
            editor,
            stage: Stage::Begun,
            dirs: Vec::new(alloc),
            file: None,
        }
    }

    /// Does what a command says; `finish-replay` answers true, and nothing is done for it yet.
    pub fn step(&mut self, command: Command) -> Result<bool, CommandFault>
        ensures moved { Steps E.Editor self.old self.new command result }
        ensures refused { RefusesAt E.Editor self.old (λ at. refusal at command) result }
        ensures own { MayMeet E.Editor self.old command result }
        ensures still { KeepsOpen E.Editor self.old self.new command result }
        ensures began { E.began self.new.editor ≡ E.began self.old.editor }
    {
        if let Command::Finish = &command {
            return Ok(true);
        }
        if self.is_announced() {
            return Err(CommandFault::BadShape);
        }
        self.perform(command)?;
        Ok(false)
    }

    // Does what a command says that isn't the end.
    fn perform(&mut self, command: Command) -> Result<(), CommandFault>
        ensures moved { Does E.Editor self.old self.new command result }
        ensures refused { IfErr result
            (λ f. is_finish command ≡ false → RefusedAs E.dir_path E.file_path self.old command f) }
        ensures own { MayMeet E.Editor self.old command result }
        ensures still { KeepsOpen E.Editor self.old self.new command result }
        ensures began { E.began self.new.editor ≡ E.began self.old.editor }
    {
        match command {
            Command::Target(rev) => self.target(rev),
            Command::OpenRoot(base, token) => self.open_root(base, token),
            Command::DeleteEntry(path, base, up) => self.delete_entry(path, base, up),
            Command::AddDir(path, up, token, from) => self.add_dir(path, up, token, from),
            Command::OpenDir(path, up, token, base) => self.open_dir(path, up, token, base),
            Command::DirProp(token, name, value) => self.dir_prop(token, name, value),
            Command::CloseDir(token) => self.close_dir(token),
            Command::AddFile(path, up, token, from) => self.add_file(path, up, token, from),
            Command::OpenFile(path, up, token, base) => self.open_file(path, up, token, base),
            Command::FileProp(token, name, value) => self.file_prop(token, name, value),
            Command::TextStart(token) => self.text_start(token),
            Command::Chunk(token, bytes) => self.chunk(token, bytes),
            Command::TextEnd(token) => self.text_end(token),
            Command::CloseFile(token, sum) => self.close_file(token, sum),
            Command::CloseEdit => self.close_edit(),
            Command::Abort => Err(CommandFault::Refused),
            Command::Finish => Err(CommandFault::BadShape),
        }
    }

    fn target(&mut self, rev: RevNo) -> Result<(), CommandFault>
        ensures moved { Does E.Editor self.old self.new (command.Target rev) result }
        ensures refused { RefusesDue E.Editor self.old (command.Target rev) result }
        ensures own { MayMeet E.Editor self.old (command.Target rev) result }
        ensures still { KeepsOpen E.Editor self.old self.new (command.Target rev) result }
        ensures began { E.began self.new.editor ≡ E.began self.old.editor }
    {
        let Stage::Begun = self.stage else {
            return Err(CommandFault::BadShape);
        };
        self.editor.target(rev)?;
        self.stage = Stage::Targeted;
        Ok(())
    }

    /// Whether the end was announced.
    pub fn is_announced(&self) -> bool
        ensures { result ≡ is_announced self.now.stage }
    {
        match self.stage {
            Stage::Announced(_) => true,
            Stage::Begun | Stage::Targeted | Stage::Inside => false,
        }
    }

    // Whether the root wasn't opened, nor an end announced.
    fn is_unopened(&self) -> bool
        ensures { result ≡ is_unopened self.now.stage }
    {
        match self.stage {
            Stage::Begun | Stage::Targeted => true,
            Stage::Inside | Stage::Announced(_) => false,
        }
    }

    fn open_root(&mut self, base: Option<RevNo>, token: Vec<u8>) -> Result<(), CommandFault>
        ensures moved { Does E.Editor self.old self.new (command.OpenRoot base token) result }
        ensures refused { RefusesDue E.Editor self.old (command.OpenRoot base token) result }
        ensures own { MayMeet E.Editor self.old (command.OpenRoot base token) result }
        ensures still { KeepsOpen E.Editor self.old self.new (command.OpenRoot base token) result }
        ensures began { E.began self.new.editor ≡ E.began self.old.editor }
    {
        if !self.is_unopened() {
            return Err(CommandFault::BadShape);
        }
        self.dirs.reserve(1)?;
        let baton = self.editor.open_root(base)?;
        self.dirs.push_reserved(OpenDir { token, baton });
        self.stage = Stage::Inside;
        Ok(())
    }

    // Takes the innermost open thing, which is a directory with this token.
    fn take_innermost(&mut self, token: &[u8]) -> Result<OpenDir<E::Dir>, CommandFault>
        ensures taken { TakesInnermost self.old self.new token.now result }
        ensures refused { RefusesAt E.Editor self.old
            (λ at. unless (is_in_dir token.now (open_of at)) fault.BadToken) result }
        ensures own { IfErr result (IfOwn (λ f. ⊥)) }
        ensures kept { OnErr result (self.new.dirs.items ≡ self.old.dirs.items) }
        ensures room { OnOk result ((vec_len self.new.dirs + 1 ≡ vec_len self.old.dirs)
            × (vec_capacity self.new.dirs ≡ vec_capacity self.old.dirs)) }
        ensures file { self.new.file ≡ self.old.file }
        ensures editor { self.new.editor ≡ self.old.editor }
        ensures stage { self.new.stage ≡ self.old.stage }
    {
        if self.file.is_some() {
            return Err(CommandFault::BadToken);
        }
        match self.dirs.pop() {
            None => Err(CommandFault::BadToken),
            Some(dir) => {
                if is_same(dir.token.as_slice(), token) {
                    Ok(dir)
                } else {
                    self.dirs.push_reserved(dir);
                    Err(CommandFault::BadToken)
                }
            }
        }
    }

    // Whether nothing that is open has the token.
    fn is_free(&self, token: &[u8]) -> bool
        ensures { result ≡ is_free token.now (dirs_named E.dir_path self.now.dirs.items) }
    {
        for dir in self.dirs.iter() {
            if is_same(dir.token.as_slice(), token) {
                return false;
            }
        }
        true
    }

    // Room for one more, by a token that isn't in use, in the innermost open thing, which is a directory with this
    // token.
    fn take_parent(&mut self, up: &[u8], token: &[u8]) -> Result<OpenDir<E::Dir>, CommandFault>
        ensures taken { TakesInnermost self.old self.new up.now result }
        ensures refused { RefusesAt E.Editor self.old
            (λ at. unless (is_free token.now (open_of at) && is_in_dir up.now (open_of at)) fault.BadToken) result }
        ensures own { IfErr result (IfOwn (λ f. ⊥)) }
        ensures kept { OnErr result (self.new.dirs.items ≡ self.old.dirs.items) }
        ensures free { OnOk result (is_free token.now (dirs_named E.dir_path self.old.dirs.items) ≡ true) }
        ensures room { OnOk result (vec_len self.new.dirs + 2 ≤ vec_capacity self.new.dirs) }
        ensures file { self.new.file ≡ self.old.file }
        ensures editor { self.new.editor ≡ self.old.editor }
        ensures stage { self.new.stage ≡ self.old.stage }
    {
        if !self.is_free(token) {
            return Err(CommandFault::BadToken);
        }
        self.dirs.reserve(1)?;
        self.take_innermost(up)
    }

    fn delete_entry(
        &mut self,
        path: NodePath,
        base: Option<RevNo>,
        up: Vec<u8>,
    ) -> Result<(), CommandFault>
        ensures moved { Does E.Editor self.old self.new (command.DeleteEntry path base up) result }
        ensures refused { RefusesDue E.Editor self.old (command.DeleteEntry path base up) result }
        ensures own { MayMeet E.Editor self.old (command.DeleteEntry path base up) result }
        ensures still { KeepsOpen E.Editor self.old self.new (command.DeleteEntry path base up) result }
        ensures began { E.began self.new.editor ≡ E.began self.old.editor }
    {
        let mut dir = self.take_innermost(up.as_slice())?;
        let done = self.editor.delete_entry(&mut dir.baton, &path, base);
        self.dirs.push_reserved(dir);
        done?;
        Ok(())
    }

    fn add_dir(
        &mut self,
        path: NodePath,
        up: Vec<u8>,
        token: Vec<u8>,
        from: Option<Source>,
    ) -> Result<(), CommandFault>
        ensures moved { Does E.Editor self.old self.new (command.AddDir path up token from) result }
        ensures refused { RefusesDue E.Editor self.old (command.AddDir path up token from) result }
        ensures own { MayMeet E.Editor self.old (command.AddDir path up token from) result }
        ensures still { KeepsOpen E.Editor self.old self.new (command.AddDir path up token from) result }
        ensures began { E.began self.new.editor ≡ E.began self.old.editor }
    {
        let mut dir = self.take_parent(up.as_slice(), token.as_slice())?;
        let done = self.editor.add_dir(&mut dir.baton, &path, from.as_ref());
        self.dirs.push_reserved(dir);
        let baton = done?;
        self.dirs.push_reserved(OpenDir { token, baton });
        Ok(())
    }

    fn open_dir(
        &mut self,
        path: NodePath,
        up: Vec<u8>,
        token: Vec<u8>,
        base: Option<RevNo>,
    ) -> Result<(), CommandFault>
        ensures moved { Does E.Editor self.old self.new (command.OpenDir path up token base) result }
        ensures refused { RefusesDue E.Editor self.old (command.OpenDir path up token base) result }
        ensures own { MayMeet E.Editor self.old (command.OpenDir path up token base) result }
        ensures still { KeepsOpen E.Editor self.old self.new (command.OpenDir path up token base) result }
        ensures began { E.began self.new.editor ≡ E.began self.old.editor }
    {
        let mut dir = self.take_parent(up.as_slice(), token.as_slice())?;
        let done = self.editor.open_dir(&mut dir.baton, &path, base);
        self.dirs.push_reserved(dir);
        let baton = done?;
        self.dirs.push_reserved(OpenDir { token, baton });
        Ok(())
    }

    // The place of a directory that is open with this token.
    fn find(&self, token: &[u8]) -> Result<usize, CommandFault>
        ensures place { IfOk result (λ i. i < vec_len self.now.dirs) }
        ensures found { IfOk result (λ i. IsSomeAnd (slice_get self.now.dirs.items i) (λ d. d.token.items
            ≡ token.now)) }
        ensures none { IfErr result (λ f. (f ≡ fault.BadToken)
            × (has_dir token.now (dirs_named E.dir_path self.now.dirs.items) ≡ false)) }
    {
        for (i, dir) in self.dirs.iter().enumerate() {
            if is_same(dir.token.as_slice(), token) {
                return Ok(i);
            }
        }
        Err(CommandFault::BadToken)
    }

    fn dir_prop(
        &mut self,
        token: Vec<u8>,
        name: PropName,
        value: Option<Vec<u8>>,
    ) -> Result<(), CommandFault>
        ensures moved { Does E.Editor self.old self.new (command.DirProp token name value) result }
        ensures refused { RefusesDue E.Editor self.old (command.DirProp token name value) result }
        ensures own { MayMeet E.Editor self.old (command.DirProp token name value) result }
        ensures still { KeepsOpen E.Editor self.old self.new (command.DirProp token name value) result }
        ensures began { E.began self.new.editor ≡ E.began self.old.editor }
    {
        let at = self.find(token.as_slice())?;
        let dir = &mut self.dirs[at];
        self.editor
            .dir_prop(&mut dir.baton, &name, slice_of(&value))?;
        Ok(())
    }

    fn close_dir(&mut self, token: Vec<u8>) -> Result<(), CommandFault>
        ensures moved { Does E.Editor self.old self.new (command.CloseDir token) result }
        ensures refused { RefusesDue E.Editor self.old (command.CloseDir token) result }
        ensures own { MayMeet E.Editor self.old (command.CloseDir token) result }
        ensures still { KeepsOpen E.Editor self.old self.new (command.CloseDir token) result }
        ensures began { E.began self.new.editor ≡ E.began self.old.editor }
    {
        let OpenDir { token: _, baton } = self.take_innermost(token.as_slice())?;
        self.editor.close_dir(baton)?;
        Ok(())
    }

    fn add_file(
        &mut self,
        path: NodePath,
        up: Vec<u8>,
        token: Vec<u8>,
        from: Option<Source>,
    ) -> Result<(), CommandFault>
        ensures moved { Does E.Editor self.old self.new (command.AddFile path up token from) result }
        ensures refused { RefusesDue E.Editor self.old (command.AddFile path up token from) result }
        ensures own { MayMeet E.Editor self.old (command.AddFile path up token from) result }
        ensures still { KeepsOpen E.Editor self.old self.new (command.AddFile path up token from) result }
        ensures began { E.began self.new.editor ≡ E.began self.old.editor }
    {
        let mut dir = self.take_parent(up.as_slice(), token.as_slice())?;
        let done = self.editor.add_file(&mut dir.baton, &path, from.as_ref());
        self.dirs.push_reserved(dir);
        let baton = done?;
        self.hold(token, baton);
        Ok(())
    }

    fn open_file(
        &mut self,
        path: NodePath,
        up: Vec<u8>,
        token: Vec<u8>,
        base: Option<RevNo>,
    ) -> Result<(), CommandFault>
        ensures moved { Does E.Editor self.old self.new (command.OpenFile path up token base) result }
        ensures refused { RefusesDue E.Editor self.old (command.OpenFile path up token base) result }
        ensures own { MayMeet E.Editor self.old (command.OpenFile path up token base) result }
        ensures still { KeepsOpen E.Editor self.old self.new (command.OpenFile path up token base) result }
        ensures began { E.began self.new.editor ≡ E.began self.old.editor }
    {
        let mut dir = self.take_parent(up.as_slice(), token.as_slice())?;
        let done = self.editor.open_file(&mut dir.baton, &path, base);
        self.dirs.push_reserved(dir);
        let baton = done?;
        self.hold(token, baton);
        Ok(())
    }

    // A file was opened.
    fn hold(&mut self, token: Vec<u8>, baton: E::File)
        requires none { self.old.file ≡ None }
        ensures file { self.new.file ≡ Some (record { token = token; baton = baton; given = given.Nothing }) }
        ensures dirs { self.new.dirs ≡ self.old.dirs }
        ensures editor { self.new.editor ≡ self.old.editor }
        ensures stage { self.new.stage ≡ self.old.stage }
    {
        let file = OpenFile {
            token,
            baton,
            given: Given::Nothing,
        };
        match mem::replace(&mut self.file, Some(file)) {
            None => {}
            Some(_before) => unreachable!(),
        }
    }

    fn file_prop(
        &mut self,
        token: Vec<u8>,
        name: PropName,
        value: Option<Vec<u8>>,
    ) -> Result<(), CommandFault>
        ensures moved { Does E.Editor self.old self.new (command.FileProp token name value) result }
        ensures refused { RefusesDue E.Editor self.old (command.FileProp token name value) result }
        ensures own { MayMeet E.Editor self.old (command.FileProp token name value) result }
        ensures still { KeepsOpen E.Editor self.old self.new (command.FileProp token name value) result }
        ensures began { E.began self.new.editor ≡ E.began self.old.editor }
    {
        let Some(file) = &mut self.file else {
            return Err(CommandFault::BadToken);
        };
        give_prop(&mut self.editor, file, token, name, value)?;
        Ok(())
    }

    /// Begins the text of the open file, which has this token and none yet.
    pub fn text_start(&mut self, token: Vec<u8>) -> Result<(), CommandFault>
        ensures moved { Does E.Editor self.old self.new (command.TextStart token) result }
        ensures refused { RefusesDue E.Editor self.old (command.TextStart token) result }
        ensures own { MayMeet E.Editor self.old (command.TextStart token) result }
        ensures still { KeepsOpen E.Editor self.old self.new (command.TextStart token) result }
        ensures began { E.began self.new.editor ≡ E.began self.old.editor }
    {
        let Some(file) = &mut self.file else {
            return Err(CommandFault::BadToken);
        };
        begin_text(&mut self.editor, file, token)?;
        Ok(())
    }

    /// Takes bytes of the text of the open file, which has this token.
    pub fn chunk(&mut self, token: Vec<u8>, bytes: Vec<u8>) -> Result<(), CommandFault>
        ensures moved { Does E.Editor self.old self.new (command.Chunk token bytes) result }
        ensures refused { RefusesDue E.Editor self.old (command.Chunk token bytes) result }
        ensures own { MayMeet E.Editor self.old (command.Chunk token bytes) result }
        ensures still { KeepsOpen E.Editor self.old self.new (command.Chunk token bytes) result }
        ensures began { E.began self.new.editor ≡ E.began self.old.editor }
    {
        let Some(file) = &mut self.file else {
            return Err(CommandFault::BadToken);
        };
        give_bytes(&mut self.editor, file, token, bytes)?;
        Ok(())
    }

    /// Ends the text of the open file, which has this token.
    pub fn text_end(&mut self, token: Vec<u8>) -> Result<(), CommandFault>
        ensures moved { Does E.Editor self.old self.new (command.TextEnd token) result }
        ensures refused { RefusesDue E.Editor self.old (command.TextEnd token) result }
        ensures own { MayMeet E.Editor self.old (command.TextEnd token) result }
        ensures still { KeepsOpen E.Editor self.old self.new (command.TextEnd token) result }
        ensures began { E.began self.new.editor ≡ E.began self.old.editor }
    {
        let Some(file) = &mut self.file else {
            return Err(CommandFault::BadToken);
        };
        close_text(&mut self.editor, file, token)?;
        Ok(())
    }

    /// Whether the open file, which has this token, is in its text.
    pub fn check_text(&self, token: &[u8]) -> Result<(), CommandFault>
        ensures in_text { OnOk result
            ((at : At) → StandsAt E.dir_path E.file_path self.now at → IsInText token.now at) }
        ensures refused { RefusesAt E.Editor self.now
            (λ at. behind_end at (in_file token.now (open_of at) at_text)) result }
        ensures own { IfErr result (IfOwn (λ f. ⊥)) }
    {
        if self.is_announced() {
            return Err(CommandFault::BadShape);
        }
        let Some(file) = &self.file else {
            return Err(CommandFault::BadToken);
        };
        check_given(file, token)
    }

    fn close_file(&mut self, token: Vec<u8>, sum: Option<[u8; 16]>) -> Result<(), CommandFault>
        ensures moved { Does E.Editor self.old self.new (command.CloseFile token sum) result }
        ensures refused { RefusesDue E.Editor self.old (command.CloseFile token sum) result }
        ensures own { MayMeet E.Editor self.old (command.CloseFile token sum) result }
        ensures still { KeepsOpen E.Editor self.old self.new (command.CloseFile token sum) result }
        ensures began { E.began self.new.editor ≡ E.began self.old.editor }
    {
        let OpenFile {
            token: _,
            baton,
            given: _,
        } = self.take_file(token.as_slice(), sum)?;
        self.editor.close_file(baton, sum)?;
        Ok(())
    }

    // Takes the open file, which has this token, and this sum where there is one and a text came.
    fn take_file(
        &mut self,
        token: &[u8],
        sum: Option<[u8; 16]>,
    ) -> Result<OpenFile<E::File>, CommandFault>
        ensures taken { IfOk result (λ f. (self.old.file ≡ Some f) × (f.token.items ≡ token.now)
            × SumIs f.given sum) }
        ensures refused { RefusesAt E.Editor self.old (λ at. in_file token.now (open_of at) (at_close sum)) result }
        ensures own { IfErr result (IfOwn (λ f. ⊥)) }
        ensures kept { OnErr result (self.new.file ≡ self.old.file) }
        ensures none { OnOk result (self.new.file ≡ None) }
        ensures dirs { self.new.dirs ≡ self.old.dirs }
        ensures editor { self.new.editor ≡ self.old.editor }
        ensures stage { self.new.stage ≡ self.old.stage }
    {
        let Some(file) = &self.file else {
            return Err(CommandFault::BadToken);
        };
        if !is_same(file.token.as_slice(), token) {
            return Err(CommandFault::BadToken);
        }
        check_sum(&file.given, sum)?;
        match self.file.take() {
            Some(file) => Ok(file),
            None => Err(CommandFault::BadToken),
        }
    }

    // Whether nothing is open.
    fn is_closed(&self) -> bool
        ensures closed { result ≡ true → (self.now.dirs.items ≡ []) × (self.now.file ≡ None) }
        ensures open { result ≡ false → self.now.dirs.items ≡ [] → self.now.file ≡ None → ⊥ }
    {
        self.file.is_none() && self.dirs.is_empty()
    }

    fn close_edit(&mut self) -> Result<(), CommandFault>
        ensures moved { Does E.Editor self.old self.new command.CloseEdit result }
        ensures refused { RefusesDue E.Editor self.old command.CloseEdit result }
        ensures own { MayMeet E.Editor self.old command.CloseEdit result }
        ensures still { KeepsOpen E.Editor self.old self.new command.CloseEdit result }
        ensures began { E.began self.new.editor ≡ E.began self.old.editor }
    {
        if self.is_announced() {
            return Err(CommandFault::BadShape);
        }
        if !self.is_closed() {
            return Err(CommandFault::BadToken);
        }
        let root = self.has_root();
        self.stage = Stage::Announced(root);
        Ok(())
    }

    // Whether the root was opened.
    fn has_root(&self) -> bool
        ensures { result ≡ has_root self.now.stage }
    {
        match self.stage {
            Stage::Begun | Stage::Targeted => false,
            Stage::Inside => true,
            Stage::Announced(root) => root,
        }
    }

    /// Ends the edit at `finish-replay`: the root is opened and closed where it wasn't, and the editor's
    /// `close_edit` is called. `BadToken` (46) where something is open; then it is discarded, and the edit is
    /// aborted.
    pub fn finish(self) -> Result<E::Done, CommandFault>
        ensures done { EndsEdit E.Editor self result }
        ensures began { IfOk result (λ d. E.done_began d ≡ E.began self.editor) }
        ensures refused { RefusesAt E.Editor self (λ at. refusal at command.Finish) result }
        ensures own { MayMeet E.Editor self command.Finish result }
        ensures gives_up { OnErr result (IsGivenUp E.Editor self) }
    {
        if !self.is_closed() {
            self.abort();
            return Err(CommandFault::BadToken);
        }
        let root = self.has_root();
        let mut editor = self.into_closed();
        if root {
            return Ok(editor.close_edit()?);
        }
        if let Err(fault) = show_root(&mut editor) {
            editor.abort_edit();
            return Err(fault.into());
        }
        Ok(editor.close_edit()?)
    }

    // The editor, where nothing is open.
    fn into_closed(self) -> E
        requires dirs { self.dirs.items ≡ [] }
        requires file { self.file ≡ None }
        ensures { result ≡ self.editor }
    {
        let Edit {
            editor,
            stage: _,
            dirs,
            file,
        } = self;
        match file {
            None => {}
            Some(_open) => unreachable!(),
        }
        dirs.destroy_empty();
        editor
    }

    /// Discards what is open, and aborts the edit.
    pub fn abort(self)
        ensures { IsGivenUp E.Editor self }
    {
        self.into_editor().abort_edit();
    }

    // The editor, once what is open is discarded, the innermost first. It was shown no more.
    fn into_editor(self) -> E
        ensures shown { StaysShown E.shows self.editor result }
        ensures let_go { LetsGo E.lets_go self.editor result (all_open E.dir_path E.file_path self) }
    {
        let Edit {
            editor,
            stage: _,
            dirs,
            file,
        } = self;
        match file {
            None => discard_dirs(editor, dirs),
            Some(
                OpenFile {
                    token: _,
                    baton,
                    given: _,
                },
            ) => {
                let mut left = editor;
                left.discard_file(baton);
                discard_dirs(left, dirs)
            }
        }
    }
}

impl<E: TextEditor> Edit<E> {
    /// The text so far of the file that is open; the empty one where none is.
    pub fn base(&self, alloc: Global) -> Result<Text, AllocError>
        ensures { IfOk result (IsBase E.shows E.texts E.file_path E.has_text self.now) }
    {
        match &self.file {
            Some(file) => self.editor.text_so_far(&file.baton),
            None => Text::empty(alloc),
        }
    }
}

// The editor, once these directories are discarded, the last one first.
fn discard_dirs<E: Editor>(editor: E, dirs: Vec<OpenDir<E::Dir>>) -> E
    ensures shown { StaysShown E.shows editor result }
    ensures let_go { LetsGo E.lets_go editor result (dir_paths E.dir_path dirs.items) }
{
    let mut left = editor;
    let mut open = dirs;
    while let Some(dir) = open.pop() {
        discard_dir(&mut left, dir);
    }
    open.destroy_empty();
    left
}

// Discards one of them.
fn discard_dir<E: Editor>(editor: &mut E, dir: OpenDir<E::Dir>)
    ensures shown { StaysShown E.shows editor.old editor.new }
    ensures let_go { LetsGo E.lets_go editor.old editor.new (E.dir_path dir.baton ∷ []) }
{
    let OpenDir { token: _, baton } = dir;
    editor.discard_dir(baton);
}

// The bytes of a value, where there is one.
fn slice_of(value: &Option<Vec<u8>>) -> Option<&[u8]>
    ensures { option_map (λ v. v.now) result ≡ option_map (λ s. s.items) value.now }
{
    match value {
        Some(value) => Some(value.as_slice()),
        None => None,
    }
}

// The root, opened without a base and closed.
fn show_root<E: Editor>(editor: &mut E) -> Result<(), EditorFault>
    ensures shown { OnOk result (Adds E.shows editor.old editor.new (call.OpenRoot None ∷ call.CloseDir [] ∷ [])) }
    ensures refused { IfErr result
        (RefusesOne E.shows E.began E.refuses editor.old (call.OpenRoot None ∷ call.CloseDir [] ∷ [])) }
    ensures began { E.began editor.new ≡ E.began editor.old }
{
    let root = editor.open_root(None)?;
    editor.close_dir(root)?;
    Ok(())
}

// Whether the open file, which has this token, is in its text.
fn check_given<F>(file: &OpenFile<F>, token: &[u8]) -> Result<(), CommandFault>
    ensures in_text { OnOk result (IsGivenText file.now.given × (file.now.token.items ≡ token.now)) }
    ensures refused { RefusesInFile file.now token.now at_text result }
    ensures own { IfErr result (IfOwn (λ f. ⊥)) }
{
    if !is_same(file.token.as_slice(), token) {
        return Err(CommandFault::BadToken);
    }
    match &file.given {
        Given::Begun(_, _) => Ok(()),
        Given::Nothing | Given::Whole(_) => Err(CommandFault::BadShape),
    }
}

// Gives a property of the open file, which has this token, a value, or removes it.
fn give_prop<E: Editor>(
    editor: &mut E,
    file: &mut OpenFile<E::File>,
    token: Vec<u8>,
    name: PropName,
    value: Option<Vec<u8>>,
) -> Result<(), CommandFault>
    ensures moved { DoesInFile E.Editor editor.old editor.new file.old file.new
        (command.FileProp token name value) result }
    ensures refused { IfErr result (λ f. RefusedFor f (for_token token.items file.old.token.items None)) }
    ensures own { MeetsOne E.Editor editor.old
        (call.FileProp (E.file_path file.old.baton) name (option_map (λ s. s.items) value) ∷ []) result }
    ensures path { E.file_path file.new.baton ≡ E.file_path file.old.baton }
    ensures began { E.began editor.new ≡ E.began editor.old }
{
    if !is_same(file.token.as_slice(), token.as_slice()) {
        return Err(CommandFault::BadToken);
    }
    editor.file_prop(&mut file.baton, &name, slice_of(&value))?;
    Ok(())
}

// Begins the text of the open file, which has this token and none yet.
fn begin_text<E: Editor>(
    editor: &mut E,
    file: &mut OpenFile<E::File>,
    token: Vec<u8>,
) -> Result<(), CommandFault>
    ensures moved { DoesInFile E.Editor editor.old editor.new file.old file.new (command.TextStart token) result }
    ensures refused { RefusesInFile file.old token.items at_start result }
    ensures own { MeetsOne E.Editor editor.old (call.TextStart (E.file_path file.old.baton) ∷ []) result }
    ensures path { E.file_path file.new.baton ≡ E.file_path file.old.baton }
    ensures began { E.began editor.new ≡ E.began editor.old }
{
    if !is_same(file.token.as_slice(), token.as_slice()) {
        return Err(CommandFault::BadToken);
    }
    let Given::Nothing = file.given else {
        return Err(CommandFault::BadShape);
    };
    editor.text_start(&mut file.baton)?;
    file.given = Given::Begun(WindowReader::new(), Md5::new());
    Ok(())
}

// Takes bytes of the text of the open file, which has this token.
fn give_bytes<E: Editor>(
    editor: &mut E,
    file: &mut OpenFile<E::File>,
    token: Vec<u8>,
    bytes: Vec<u8>,
) -> Result<(), CommandFault>
    ensures moved { DoesInFile E.Editor editor.old editor.new file.old file.new (command.Chunk token bytes) result }
    ensures refused { RefusesInFile file.old token.items (at_chunk bytes.items) result }
    ensures own { MeetsPiece E.Editor editor.old file.old bytes.items result }
    ensures path { E.file_path file.new.baton ≡ E.file_path file.old.baton }
    ensures began { E.began editor.new ≡ E.began editor.old }
{
    if !is_same(file.token.as_slice(), token.as_slice()) {
        return Err(CommandFault::BadToken);
    }
    let Given::Begun(reader, sum) = &mut file.given else {
        return Err(CommandFault::BadShape);
    };
    take_chunk(editor, &mut file.baton, reader, sum, bytes.as_slice())?;
    Ok(())
}

// Ends the text of the open file, which has this token.
fn close_text<E: Editor>(
    editor: &mut E,
    file: &mut OpenFile<E::File>,
    token: Vec<u8>,
) -> Result<(), CommandFault>
    ensures moved { DoesInFile E.Editor editor.old editor.new file.old file.new (command.TextEnd token) result }
    ensures refused { RefusesInFile file.old token.items at_end result }
    ensures own { MeetsOne E.Editor editor.old (call.TextEnd (E.file_path file.old.baton) ∷ []) result }
    ensures path { E.file_path file.new.baton ≡ E.file_path file.old.baton }
    ensures began { E.began editor.new ≡ E.began editor.old }
{
    if !is_same(file.token.as_slice(), token.as_slice()) {
        return Err(CommandFault::BadToken);
    }
    let sum = end_text(&mut file.given)?;
    editor.text_end(&mut file.baton)?;
    file.given = Given::Whole(sum);
    Ok(())
}

// The MD5 of a text that ends between windows.
fn end_text(given: &mut Given) -> Result<[u8; 16], CommandFault>
    ensures ends { IfOk result (λ sum. TextEnds given.old sum) }
    ensures refused { RefusesGiven given.old at_end result }
    ensures own { IfErr result (IfOwn (λ f. ⊥)) }
{
    match mem::replace(given, Given::Nothing) {
        Given::Begun(reader, sum) => {
            reader.finish()?;
            Ok(sum.finalize())
        }
        Given::Nothing | Given::Whole(_) => Err(CommandFault::BadShape),
    }
}

// The sum that came is that of the text, where both are there.
fn check_sum(given: &Given, sum: Option<[u8; 16]>) -> Result<(), CommandFault>
    ensures is { OnOk result (SumIs given.now sum) }
    ensures refused { RefusesGiven given.now (at_close sum) result }
    ensures own { IfErr result (IfOwn (λ f. ⊥)) }
{
    match given {
        Given::Nothing => Ok(()),
        Given::Begun(..) => Err(CommandFault::BadShape),
        Given::Whole(found) => match sum {
            Some(wanted) if wanted != *found => Err(CommandFault::BadSum),
            Some(_) | None => Ok(()),
        },
    }
}
