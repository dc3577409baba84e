//! Editor commands and their items, as the ra_svn protocol has them.

ghost use Rattle.std.specs.Prelude.{◌≡◌, ◌≤◌, ◌⊎◌, List, [], ◌∷◌, reverse, IfOk, IfErr, Ok};
ghost use Rattle.std.specs.Prelude.{true, false, ℕ};
ghost use Rattle.std.specs.Option.{option_map};
ghost use Rattle.ra_item.specs.Items.{Word, Number, Text};
ghost use Rattle.node_base.specs.PathText.{path_read};
ghost use Rattle.node_base.specs.Props.{prop_name_read};
ghost use Rattle.ra_edit.specs.Commands.{list};
ghost use Rattle.ra_edit.specs.Edits.{IsRevision, IsString, IsSum, IsSource};
ghost use Rattle.ra_edit.specs.Differences.{SaysSum, IsNoDelta, params_over, ReadsOver};
ghost use Rattle.ra_edit.specs.Receiving.{left_of, IsPath, IsPropName, Forms, AWord, AText, AList};
ghost use Rattle.ra_edit.specs.Receiving.{ARevision, APath, APropName, ABase, AValue, ASum, ASource, NotRead};
ghost use Rattle.ra_edit.specs.Receiving.{params_of, IsNoCommand, ReadsNext, ReadsForm, Misses};
ghost use Rattle.ra_edit.specs.declared.name.Name.TheVariants as word;
ghost use Rattle.ra_edit.specs.declared.shape_fault.ShapeFault.TheVariants as shape;
ghost use Rattle.node_base.specs.Path.{Path};

use crate::name::Name;
use crate::shape_fault::ShapeFault;
use hex::decode_to_slice;
use node_base::limits::REVISION;
use node_base::{NodePath, PathFault, PropFault, PropName, RevNo, Source};
use ra_item::item::{Content, Item};
use std::alloc::Global;

/// One command of an editor drive. What is open is named by a token, a string that the peer chose when it was opened.
#[derive(Drop)]
pub enum Command {
    /// `target-rev`: the revision that is shown.
    Target(RevNo),
    /// `open-root`: the root is opened by a token.
    OpenRoot(Option<RevNo>, Vec<u8>),
    /// `delete-entry`: an entry is deleted in a directory.
    DeleteEntry(NodePath, Option<RevNo>, Vec<u8>),
    /// `add-dir`: in a directory, a directory is added by a token.
    AddDir(NodePath, Vec<u8>, Vec<u8>, Option<Source>),
    /// `open-dir`: in a directory, a directory is opened by a token.
    OpenDir(NodePath, Vec<u8>, Vec<u8>, Option<RevNo>),
    /// `change-dir-prop`: a directory's property gets a value, or is removed.
    DirProp(Vec<u8>, PropName, Option<Vec<u8>>),
    /// `close-dir`.
    CloseDir(Vec<u8>),
    /// `add-file`: in a directory, a file is added by a token.
    AddFile(NodePath, Vec<u8>, Vec<u8>, Option<Source>),
    /// `open-file`: in a directory, a file is opened by a token.
    OpenFile(NodePath, Vec<u8>, Vec<u8>, Option<RevNo>),
    /// `change-file-prop`: a file's property gets a value, or is removed.
    FileProp(Vec<u8>, PropName, Option<Vec<u8>>),
    /// `apply-textdelta`: a file's text begins.
    TextStart(Vec<u8>),
    /// `textdelta-chunk`: bytes of a file's text in windows.
    Chunk(Vec<u8>, Vec<u8>),
    /// `textdelta-end`: a file's text ends.
    TextEnd(Vec<u8>),
    /// `close-file`, with the MD5 of its text or none.
    CloseFile(Vec<u8>, Option<[u8; 16]>),
    /// `close-edit`.
    CloseEdit,
    /// `finish-replay`: the end.
    Finish,
    /// `abort-edit`, or a failure in place of a command.
    Abort,
}

// The items of a list that weren't taken yet.
#[derive(Drop)]
struct Params {
    // The next one last.
    items: Vec<Item>,
}

impl Params {
    // All the items of a list.
    fn all(items: Vec<Item>) -> Params
        ensures { left_of result ≡ items.items }
    {
        let mut items = items;
        items.as_mut_slice().reverse();
        Params { items }
    }

    // The items of an item that is a list.
    fn of(item: Item) -> Result<Params, ShapeFault>
        ensures read { IfOk result (λ p. item ≡ list (left_of p)) }
        ensures none { IfErr result (NotRead (AList ∷ []) (item ∷ [])) }
    {
        match item.into_content() {
            Content::List(items) => Ok(Params::all(items)),
            Content::Word(_) | Content::Number(_) | Content::Text(_) => Err(ShapeFault::BadShape),
        }
    }

    // The next item.
    #[tactic(auto, using(crate::proofs::Receiving::turned))]
    fn next(&mut self) -> Result<Item, ShapeFault>
        ensures read { IfOk result (λ x. left_of self.old ≡ x ∷ left_of self.new) }
        ensures none { IfErr result (λ f. left_of self.old ≡ []) }
    {
        match self.items.pop() {
            Some(item) => Ok(item),
            None => Err(ShapeFault::BadShape),
        }
    }

    // The next item, which is a word.
    fn word(&mut self) -> Result<Vec<u8>, ShapeFault>
        ensures read { IfOk result (λ w. left_of self.old ≡ Word w.items ∷ left_of self.new) }
        ensures none { Misses self.old (AWord ∷ []) result }
    {
        match self.next()?.into_content() {
            Content::Word(word) => Ok(word),
            Content::List(_) | Content::Number(_) | Content::Text(_) => Err(ShapeFault::BadShape),
        }
    }

    // The next item, which is a string.
    fn text(&mut self) -> Result<Vec<u8>, ShapeFault>
        ensures read { IfOk result (λ t. left_of self.old ≡ Text t.items ∷ left_of self.new) }
        ensures none { Misses self.old (AText ∷ []) result }
    {
        match self.next()?.into_content() {
            Content::Text(text) => Ok(text),
            Content::List(_) | Content::Number(_) | Content::Word(_) => Err(ShapeFault::BadShape),
        }
    }

    // The next item, which is a list.
    fn list(&mut self) -> Result<Params, ShapeFault>
        ensures read { IfOk result (λ p. left_of self.old ≡ list (left_of p) ∷ left_of self.new) }
        ensures none { Misses self.old (AList ∷ []) result }
    {
        Params::of(self.next()?)
    }

    // The next item, which is a revision.
    fn revision(&mut self) -> Result<RevNo, ShapeFault>
        ensures read { IfOk result (λ n. (n ≤ REVISION) × (left_of self.old ≡ Number n ∷ left_of self.new)) }
        ensures none { Misses self.old (ARevision ∷ []) result }
    {
        match self.next()?.into_content() {
            Content::Number(n) if n <= REVISION as u64 => Ok(RevNo::new(n as u16)),
            Content::Number(_) | Content::List(_) | Content::Text(_) | Content::Word(_) => {
                Err(ShapeFault::BadShape)
            }
        }
    }

    // Whether nothing is left.
    fn is_empty(&self) -> bool
        ensures empty { result ≡ true → left_of self.now ≡ [] }
        ensures more { result ≡ false → left_of self.now ≡ [] → ⊥ }
    {
        self.items.is_empty()
    }

    // The next item, which is a path.
    fn path(&mut self, alloc: Global) -> Result<NodePath, ShapeFault>
        ensures read { ReadsNext IsPath self.old self.new result }
        ensures none { Misses self.old (APath ∷ []) result }
    {
        let text = self.text()?;
        read_path(alloc, text.as_slice())
    }

    // The next item, which is a property's name.
    fn prop_name(&mut self) -> Result<PropName, ShapeFault>
        ensures read { ReadsNext IsPropName self.old self.new result }
        ensures none { Misses self.old (APropName ∷ []) result }
    {
        match PropName::from_bytes(self.text()?) {
            Ok(name) => Ok(name),
            Err(PropFault::OutOfMemory) => Err(ShapeFault::OutOfMemory),
            Err(_) => Err(ShapeFault::BadShape),
        }
    }

    // The next item, which is a list of a revision or of nothing.
    fn base(&mut self) -> Result<Option<RevNo>, ShapeFault>
        ensures read { ReadsNext IsRevision self.old self.new result }
        ensures none { Misses self.old (ABase ∷ []) result }
    {
        let mut inner = self.list()?;
        if inner.is_empty() {
            return Ok(None);
        }
        Ok(Some(inner.revision()?))
    }

    // The next item, which is a list of a string or of nothing.
    fn value(&mut self) -> Result<Option<Vec<u8>>, ShapeFault>
        ensures read { ReadsNext (λ v. IsString (option_map (λ s. s.items) v)) self.old self.new result }
        ensures none { Misses self.old (AValue ∷ []) result }
    {
        let mut inner = self.list()?;
        if inner.is_empty() {
            return Ok(None);
        }
        Ok(Some(inner.text()?))
    }

    // The next item, which is a list of a sum in hexadecimal digits or of nothing.
    fn sum(&mut self) -> Result<Option<[u8; 16]>, ShapeFault>
        ensures read { ReadsNext IsSum self.old self.new result }
        ensures none { Misses self.old (ASum ∷ []) result }
    {
        let Some(digits) = self.value()? else {
            return Ok(None);
        };
        let mut sum = [0u8; 16];
        match decode_to_slice(digits.as_slice(), &mut sum) {
            Ok(()) => Ok(Some(sum)),
            Err(_) => Err(ShapeFault::BadShape),
        }
    }

    // The next item, which is a list of a source's path, behind one slash or none, and its revision, or of nothing.
    fn source(&mut self, alloc: Global) -> Result<Option<Source>, ShapeFault>
        ensures read { ReadsNext IsSource self.old self.new result }
        ensures none { Misses self.old (ASource ∷ []) result }
    {
        let mut inner = self.list()?;
        if inner.is_empty() {
            return Ok(None);
        }
        let text = inner.text()?;
        let path = read_path(alloc, without_slash(text.as_slice()))?;
        let revision = inner.revision()?;
        Ok(Some(Source { path, revision }))
    }
}

// A path without a slash in front.
fn without_slash(text: &[u8]) -> &[u8]
    ensures rest { (text.now ≡ result.now) ⊎ (text.now ≡ 47 ∷ result.now) }
    ensures bare { (rest : List ℕ) → text.now ≡ 47 ∷ rest → rest ≡ result.now }
{
    match text.split_first() {
        Some((b'/', rest)) => rest,
        _ => text,
    }
}

// The path that bytes spell.
fn read_path(alloc: Global, text: &[u8]) -> Result<NodePath, ShapeFault>
    ensures read { IfOk result (λ p. path_read text.now ≡ Ok p) }
    ensures none { IfErr result (λ f. f ≡ shape.BadShape → (p : Path) → path_read text.now ≡ Ok p → ⊥) }
{
    match NodePath::parse(alloc, text) {
        Ok(path) => Ok(path),
        Err(PathFault::OutOfMemory) => Err(ShapeFault::OutOfMemory),
        Err(PathFault::TooLong | PathFault::BadPath) => Err(ShapeFault::BadShape),
    }
}

impl Command {
    /// The command that an item is. `BadShape` (48) where it is none: its name, what it names, a path, a property's
    /// name or a revision; `OutOfMemory` (70).
    pub fn parse(alloc: Global, item: Item) -> Result<Command, ShapeFault>
        ensures forms { IfOk result (λ c. Forms c item) }
        ensures none { IfErr result (IsNoCommand item) }
    {
        let mut parts = Params::of(item)?;
        let word = parts.word()?;
        let mut params = parts.list()?;
        match Name::any(word.as_slice()) {
            Some(name) => any_command(alloc, name, &mut params),
            None => Err(ShapeFault::BadShape),
        }
    }

    /// The command that an item is, and the sum that an `apply-textdelta` has of the text from which a difference
    /// follows; none where it has none, and for any other command. Errors as [`Command::parse`], and `BadShape` (48)
    /// where what stands for the sum is none.
    pub fn parse_over_base(
        alloc: Global,
        item: Item,
    ) -> Result<(Command, Option<[u8; 16]>), ShapeFault>
        ensures forms { IfOk result (λ p. Forms p.0 item × SaysSum item p.1) }
        ensures none { IfErr result (IsNoDelta item) }
    {
        let mut parts = Params::of(item)?;
        let word = parts.word()?;
        let mut params = parts.list()?;
        match Name::any(word.as_slice()) {
            Some(name) => over_base(alloc, name, &mut params),
            None => Err(ShapeFault::BadShape),
        }
    }
}

// The command that a name and its parameters are, and the sum of a base where it is an `apply-textdelta` that has one.
fn over_base(
    alloc: Global,
    name: Name,
    params: &mut Params,
) -> Result<(Command, Option<[u8; 16]>), ShapeFault>
    ensures forms { ReadsOver params.old name result }
    ensures none { Misses params.old (params_over name) result }
{
    if let Name::ApplyTextdelta = name {
        return text_over_base(params);
    }
    match any_command(alloc, name, params) {
        Ok(command) => Ok((command, None)),
        Err(fault) => Err(fault),
    }
}

fn text_over_base(params: &mut Params) -> Result<(Command, Option<[u8; 16]>), ShapeFault>
    ensures forms { ReadsOver params.old word.ApplyTextdelta result }
    ensures none { Misses params.old (params_over word.ApplyTextdelta) result }
{
    let token = params.text()?;
    let sum = params.sum()?;
    Ok((Command::TextStart(token), sum))
}

fn any_command(alloc: Global, name: Name, params: &mut Params) -> Result<Command, ShapeFault>
    ensures forms { ReadsForm params.old name result }
    ensures none { Misses params.old (params_of name) result }
{
    match name {
        Name::TargetRev => target_rev(params),
        Name::OpenRoot => open_root(params),
        Name::DeleteEntry => delete_entry(alloc, params),
        Name::AddDir => add_dir(alloc, params),
        Name::OpenDir => open_dir(alloc, params),
        Name::ChangeDirProp => change_dir_prop(params),
        Name::CloseDir => close_dir(params),
        Name::AddFile => add_file(alloc, params),
        Name::OpenFile => open_file(alloc, params),
        Name::ChangeFileProp => change_file_prop(params),
        Name::ApplyTextdelta => apply_textdelta(params),
        Name::TextdeltaChunk => textdelta_chunk(params),
        Name::TextdeltaEnd => textdelta_end(params),
        Name::CloseFile => close_file(params),
        Name::CloseEdit => Ok(Command::CloseEdit),
        Name::FinishReplay => Ok(Command::Finish),
        Name::AbortEdit | Name::Failure => Ok(Command::Abort),
    }
}

fn target_rev(params: &mut Params) -> Result<Command, ShapeFault>
    ensures forms { ReadsForm params.old word.TargetRev result }
    ensures none { Misses params.old (params_of word.TargetRev) result }
{
    Ok(Command::Target(params.revision()?))
}

fn open_root(params: &mut Params) -> Result<Command, ShapeFault>
    ensures forms { ReadsForm params.old word.OpenRoot result }
    ensures none { Misses params.old (params_of word.OpenRoot) result }
{
    let base = params.base()?;
    Ok(Command::OpenRoot(base, params.text()?))
}

fn delete_entry(alloc: Global, params: &mut Params) -> Result<Command, ShapeFault>
    ensures forms { ReadsForm params.old word.DeleteEntry result }
    ensures none { Misses params.old (params_of word.DeleteEntry) result }
{
    let path = params.path(alloc)?;
    let base = params.base()?;
    Ok(Command::DeleteEntry(path, base, params.text()?))
}

fn add_dir(alloc: Global, params: &mut Params) -> Result<Command, ShapeFault>
    ensures forms { ReadsForm params.old word.AddDir result }
    ensures none { Misses params.old (params_of word.AddDir) result }
{
    let path = params.path(alloc)?;
    let up = params.text()?;
    let token = params.text()?;
    Ok(Command::AddDir(path, up, token, params.source(alloc)?))
}

fn open_dir(alloc: Global, params: &mut Params) -> Result<Command, ShapeFault>
    ensures forms { ReadsForm params.old word.OpenDir result }
    ensures none { Misses params.old (params_of word.OpenDir) result }
{
    let path = params.path(alloc)?;
    let up = params.text()?;
    let token = params.text()?;
    Ok(Command::OpenDir(path, up, token, params.base()?))
}

fn change_dir_prop(params: &mut Params) -> Result<Command, ShapeFault>
    ensures forms { ReadsForm params.old word.ChangeDirProp result }
    ensures none { Misses params.old (params_of word.ChangeDirProp) result }
{
    let token = params.text()?;
    let name = params.prop_name()?;
    Ok(Command::DirProp(token, name, params.value()?))
}

fn close_dir(params: &mut Params) -> Result<Command, ShapeFault>
    ensures forms { ReadsForm params.old word.CloseDir result }
    ensures none { Misses params.old (params_of word.CloseDir) result }
{
    Ok(Command::CloseDir(params.text()?))
}

fn add_file(alloc: Global, params: &mut Params) -> Result<Command, ShapeFault>
    ensures forms { ReadsForm params.old word.AddFile result }
    ensures none { Misses params.old (params_of word.AddFile) result }
{
    let path = params.path(alloc)?;
    let up = params.text()?;
    let token = params.text()?;
    Ok(Command::AddFile(path, up, token, params.source(alloc)?))
}

fn open_file(alloc: Global, params: &mut Params) -> Result<Command, ShapeFault>
    ensures forms { ReadsForm params.old word.OpenFile result }
    ensures none { Misses params.old (params_of word.OpenFile) result }
{
    let path = params.path(alloc)?;
    let up = params.text()?;
    let token = params.text()?;
    Ok(Command::OpenFile(path, up, token, params.base()?))
}

fn change_file_prop(params: &mut Params) -> Result<Command, ShapeFault>
    ensures forms { ReadsForm params.old word.ChangeFileProp result }
    ensures none { Misses params.old (params_of word.ChangeFileProp) result }
{
    let token = params.text()?;
    let name = params.prop_name()?;
    Ok(Command::FileProp(token, name, params.value()?))
}

fn apply_textdelta(params: &mut Params) -> Result<Command, ShapeFault>
    ensures forms { ReadsForm params.old word.ApplyTextdelta result }
    ensures none { Misses params.old (params_of word.ApplyTextdelta) result }
{
    let token = params.text()?;
    let _sum = params.list()?;
    Ok(Command::TextStart(token))
}

fn textdelta_chunk(params: &mut Params) -> Result<Command, ShapeFault>
    ensures forms { ReadsForm params.old word.TextdeltaChunk result }
    ensures none { Misses params.old (params_of word.TextdeltaChunk) result }
{
    let token = params.text()?;
    Ok(Command::Chunk(token, params.text()?))
}

fn textdelta_end(params: &mut Params) -> Result<Command, ShapeFault>
    ensures forms { ReadsForm params.old word.TextdeltaEnd result }
    ensures none { Misses params.old (params_of word.TextdeltaEnd) result }
{
    Ok(Command::TextEnd(params.text()?))
}

fn close_file(params: &mut Params) -> Result<Command, ShapeFault>
    ensures forms { ReadsForm params.old word.CloseFile result }
    ensures none { Misses params.old (params_of word.CloseFile) result }
{
    let token = params.text()?;
    Ok(Command::CloseFile(token, params.sum()?))
}
