//! An edit that is received, whose texts come as differences.

ghost use Rattle.std.specs.Prelude.{◌≡◌, Option, None, IfOk, IfErr, OnOk, OnErr, true, false, if◌then◌else◌};
ghost use Rattle.svndiff.specs.Spelling.{windows, head};
ghost use Rattle.svndiff.specs.DeltaReading.{is_between, is_failed};
ghost use Rattle.ra_edit.specs.Edit.{StandsAt};
ghost use Rattle.ra_edit.specs.Edits.{Begun, SumsTo};
ghost use Rattle.ra_edit.specs.declared.name.Name.TheVariants as word;
ghost use Rattle.ra_edit.specs.Refusals.{refusal};
ghost use Rattle.ra_edit.specs.Differences.{GoesOn, RefusesBytes};
ghost use Rattle.ra_edit.specs.declared.command_fault.CommandFault.TheVariants as fault;
ghost use Rattle.ra_edit.specs.declared.receive_command.Command.TheVariants as command;
ghost use Rattle.ra_edit.specs.Editing.{RefusesAt, MayMeet, EndsEdit, IsGivenUp};
ghost use Rattle.ra_edit.specs.DeltaEditing.{StepsOver, StepsAnyhow, RefusesOver, RefusesAnyhow};

use crate::command_fault::CommandFault;
use crate::receive_command::Command;
use crate::receive_edit::Edit;
use delta_editor::TextEditor;
use node_base::Text;
use std::alloc::{AllocError, Global};
use svndiff::delta_reader::DeltaReader;
use svndiff::writer::{write_head, write_windows};

/// A text that comes as a difference: from which text, and what has come of it.
#[derive(Drop)]
pub struct Difference {
    base: Text,
    reader: DeltaReader,
}

impl Difference {
    // What the windows make that end in bytes.
    fn take(&mut self, alloc: Global, bytes: &[u8]) -> Result<Vec<u8>, CommandFault>
        ensures base { self.new.base ≡ self.old.base }
        ensures made { IfOk result (λ made. GoesOn self.old.base self.old.reader.delta bytes.now made.items
            self.new.reader.delta) }
        ensures refused { IfErr result (RefusesBytes self.old.base self.old.reader.delta bytes.now) }
    {
        let mut made = Vec::new(alloc);
        let mut rest = bytes;
        while !rest.is_empty() {
            rest = self.reader.next(self.base.as_slice(), rest)?;
            made.extend_from_slice(self.reader.made())?;
        }
        Ok(made)
    }

    // The end of the bytes, which comes between windows.
    fn finish(self) -> Result<(), CommandFault>
        ensures ended { OnOk result (is_between self.reader.delta.window ≡ true) }
        ensures within { OnErr result (is_between self.reader.delta.window ≡ false) }
        ensures refused { IfErr result
            (λ f. f ≡ (if is_failed self.reader.delta.window then fault.Failed else fault.BadWindow)) }
    {
        let Difference { base: _, reader } = self;
        reader.finish()?;
        Ok(())
    }
}

/// An edit that is received, and the difference that its open text comes as. What the windows make that end in a chunk
/// of a difference is given as windows of new data.
pub struct DeltaEdit<E: TextEditor> {
    alloc: Global,
    edit: Edit<E>,
    coming: Option<Difference>,
}

impl<E: TextEditor> DeltaEdit<E> {
    /// Before the first command.
    pub fn new(alloc: Global, editor: E) -> DeltaEdit<E>
        ensures editor { result.edit.editor ≡ editor }
        ensures stands { StandsAt E.dir_path E.file_path result.edit Begun }
        ensures none { result.coming ≡ None }
    {
        DeltaEdit {
            alloc,
            edit: Edit::new(alloc, editor),
            coming: None,
        }
    }

    /// Does what a command says, which has this sum of a base; `finish-replay` answers true, and nothing is done for it
    /// yet.
    pub fn step(&mut self, command: Command, sum: Option<[u8; 16]>) -> Result<bool, CommandFault>
        ensures moved { StepsOver E.Editor E.texts E.has_text self.old self.new command sum result }
        ensures refused { RefusesOver E.Editor E.texts E.has_text self.old self.new command sum result }
        ensures began { E.began self.new.edit.editor ≡ E.began self.old.edit.editor }
    {
        match command {
            Command::TextStart(token) => self.text_start(token, sum),
            Command::Chunk(token, bytes) => self.chunk(token, bytes),
            Command::TextEnd(token) => self.text_end(token),
            command => self.edit.step(command),
        }
    }

    // Begins a text. What the file's text is so far is asked first.
    fn text_start(&mut self, token: Vec<u8>, sum: Option<[u8; 16]>) -> Result<bool, CommandFault>
        ensures moved { StepsOver E.Editor E.texts E.has_text self.old self.new (command.TextStart token) sum result }
        ensures refused { RefusesOver E.Editor E.texts E.has_text self.old self.new
            (command.TextStart token) sum result }
        ensures began { E.began self.new.edit.editor ≡ E.began self.old.edit.editor }
    {
        if self.edit.is_announced() {
            return Err(CommandFault::BadShape);
        }
        let base = self.edit.base(self.alloc)?;
        self.edit.text_start(copied(self.alloc, token.as_slice())?)?;
        if !is_sum(&base, sum) {
            return Err(CommandFault::BadSum);
        }
        self.edit.chunk(token, head(self.alloc)?)?;
        self.coming = Some(Difference {
            base,
            reader: DeltaReader::new(self.alloc),
        });
        Ok(false)
    }

    // Takes bytes of the difference that is open.
    fn chunk(&mut self, token: Vec<u8>, bytes: Vec<u8>) -> Result<bool, CommandFault>
        ensures moved { StepsAnyhow E.Editor E.texts E.has_text self.old self.new (command.Chunk token bytes) result }
        ensures refused { RefusesAnyhow E.Editor E.texts E.has_text self.old self.new
            (command.Chunk token bytes) result }
        ensures began { E.began self.new.edit.editor ≡ E.began self.old.edit.editor }
    {
        self.edit.check_text(token.as_slice())?;
        let Some(coming) = &mut self.coming else {
            return Err(CommandFault::BadShape);
        };
        let made = coming.take(self.alloc, bytes.as_slice())?;
        self.edit
            .chunk(token, in_windows(self.alloc, made.as_slice())?)?;
        Ok(false)
    }

    // Ends the difference that is open.
    fn text_end(&mut self, token: Vec<u8>) -> Result<bool, CommandFault>
        ensures moved { StepsAnyhow E.Editor E.texts E.has_text self.old self.new (command.TextEnd token) result }
        ensures refused { RefusesAnyhow E.Editor E.texts E.has_text self.old self.new (command.TextEnd token) result }
        ensures began { E.began self.new.edit.editor ≡ E.began self.old.edit.editor }
    {
        self.edit.check_text(token.as_slice())?;
        let Some(coming) = self.coming.take() else {
            return Err(CommandFault::BadShape);
        };
        coming.finish()?;
        self.edit.text_end(token)?;
        Ok(false)
    }

    /// Ends the edit at `finish-replay`, as [`Edit::finish`].
    pub fn finish(self) -> Result<E::Done, CommandFault>
        ensures done { EndsEdit E.Editor self.edit result }
        ensures began { IfOk result (λ d. E.done_began d ≡ E.began self.edit.editor) }
        ensures refused { RefusesAt E.Editor self.edit (λ at. refusal at command.Finish) result }
        ensures own { MayMeet E.Editor self.edit command.Finish result }
        ensures gives_up { OnErr result (IsGivenUp E.Editor self.edit) }
    {
        let DeltaEdit {
            alloc: _,
            edit,
            coming: _,
        } = self;
        edit.finish()
    }

    /// Discards what is open, and aborts the edit.
    pub fn abort(self)
        ensures { IsGivenUp E.Editor self.edit }
    {
        let DeltaEdit {
            alloc: _,
            edit,
            coming: _,
        } = self;
        edit.abort();
    }
}

// Bytes for another owner.
fn copied(alloc: Global, bytes: &[u8]) -> Result<Vec<u8>, AllocError>
    ensures { IfOk result (λ v. v.items ≡ bytes.now) }
{
    Vec::from_slice(alloc, bytes)
}

// The front of a text in windows.
fn head(alloc: Global) -> Result<Vec<u8>, AllocError>
    ensures { IfOk result (λ v. v.items ≡ head) }
{
    let mut bytes = Vec::new(alloc);
    match write_head(&mut bytes) {
        Ok(()) => Ok(bytes),
        Err(_) => Err(AllocError),
    }
}

// A part of a text in windows of new data.
fn in_windows(alloc: Global, made: &[u8]) -> Result<Vec<u8>, AllocError>
    ensures { IfOk result (λ v. v.items ≡ windows made.now) }
{
    let mut bytes = Vec::new(alloc);
    match write_windows(&mut bytes, made) {
        Ok(()) => Ok(bytes),
        Err(_) => Err(AllocError),
    }
}

// Whether a sum that came, if one did, is the text's.
fn is_sum(text: &Text, sum: Option<[u8; 16]>) -> bool
    ensures is { result ≡ true → SumsTo sum text.now }
    ensures other { result ≡ false → SumsTo sum text.now → ⊥ }
{
    match sum {
        Some(sum) => sum == text.sum(),
        None => true,
    }
}
