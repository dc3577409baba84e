//! The words of commands: how they are written, and as what they are read.

ghost use Rattle.std.specs.Prelude.{◌≡◌, None, IfSome, true, false};
ghost use Rattle.ra_edit.specs.Names.{word_of, is_of_file};
ghost use Rattle.ra_edit.specs.declared.name.Name.{Name};

/// Which command it is, or a failure in place of one.
#[derive(Clone, Copy)]
pub enum Name {
    TargetRev,
    OpenRoot,
    DeleteEntry,
    AddDir,
    OpenDir,
    ChangeDirProp,
    CloseDir,
    AddFile,
    OpenFile,
    ChangeFileProp,
    ApplyTextdelta,
    TextdeltaChunk,
    TextdeltaEnd,
    CloseFile,
    CloseEdit,
    FinishReplay,
    AbortEdit,
    Failure,
}

impl Name {
    /// Its word.
    pub fn word(self) -> &'static str
        ensures { result.now ≡ word_of self }
    {
        match self {
            Name::TargetRev => "target-rev",
            Name::OpenRoot => "open-root",
            Name::DeleteEntry => "delete-entry",
            Name::AddDir => "add-dir",
            Name::OpenDir => "open-dir",
            Name::ChangeDirProp => "change-dir-prop",
            Name::CloseDir => "close-dir",
            Name::AddFile => "add-file",
            Name::OpenFile => "open-file",
            Name::ChangeFileProp => "change-file-prop",
            Name::ApplyTextdelta => "apply-textdelta",
            Name::TextdeltaChunk => "textdelta-chunk",
            Name::TextdeltaEnd => "textdelta-end",
            Name::CloseFile => "close-file",
            Name::CloseEdit => "close-edit",
            Name::FinishReplay => "finish-replay",
            Name::AbortEdit => "abort-edit",
            Name::Failure => "failure",
        }
    }

    /// The name that a word is.
    pub fn any(word: &[u8]) -> Option<Name>
        ensures name { IfSome result (λ n. word.now ≡ word_of n) }
        ensures none { result ≡ None → (n : Name) → word.now ≡ word_of n → ⊥ }
    {
        match Name::outer(word) {
            Some(name) => Some(name),
            None => Name::of_file(word),
        }
    }

    // Those that open, close and delete directories, and those of an edit.
    fn outer(word: &[u8]) -> Option<Name>
        ensures name { IfSome result (λ n. word.now ≡ word_of n) }
        ensures none { result ≡ None → (n : Name) → is_of_file n ≡ false → word.now ≡ word_of n → ⊥ }
    {
        if is(word, Name::TargetRev) {
            Some(Name::TargetRev)
        } else if is(word, Name::OpenRoot) {
            Some(Name::OpenRoot)
        } else if is(word, Name::DeleteEntry) {
            Some(Name::DeleteEntry)
        } else if is(word, Name::AddDir) {
            Some(Name::AddDir)
        } else if is(word, Name::OpenDir) {
            Some(Name::OpenDir)
        } else if is(word, Name::ChangeDirProp) {
            Some(Name::ChangeDirProp)
        } else if is(word, Name::CloseDir) {
            Some(Name::CloseDir)
        } else if is(word, Name::CloseEdit) {
            Some(Name::CloseEdit)
        } else if is(word, Name::FinishReplay) {
            Some(Name::FinishReplay)
        } else if is(word, Name::AbortEdit) {
            Some(Name::AbortEdit)
        } else if is(word, Name::Failure) {
            Some(Name::Failure)
        } else {
            None
        }
    }

    // Those of what is done with files.
    fn of_file(word: &[u8]) -> Option<Name>
        ensures name { IfSome result (λ n. word.now ≡ word_of n) }
        ensures none { result ≡ None → (n : Name) → is_of_file n ≡ true → word.now ≡ word_of n → ⊥ }
    {
        if is(word, Name::AddFile) {
            Some(Name::AddFile)
        } else if is(word, Name::OpenFile) {
            Some(Name::OpenFile)
        } else if is(word, Name::ChangeFileProp) {
            Some(Name::ChangeFileProp)
        } else if is(word, Name::ApplyTextdelta) {
            Some(Name::ApplyTextdelta)
        } else if is(word, Name::TextdeltaChunk) {
            Some(Name::TextdeltaChunk)
        } else if is(word, Name::TextdeltaEnd) {
            Some(Name::TextdeltaEnd)
        } else if is(word, Name::CloseFile) {
            Some(Name::CloseFile)
        } else {
            None
        }
    }
}

// Whether these are the bytes of a name's word.
fn is(word: &[u8], name: Name) -> bool
    ensures same { result ≡ true → word.now ≡ word_of name }
    ensures other { result ≡ false → word.now ≡ word_of name → ⊥ }
{
    word == name.word().as_bytes()
}
