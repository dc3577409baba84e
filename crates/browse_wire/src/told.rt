//! What a server tells a reading client.
//!
//! Each `Err` is the writer's own; then some of the bytes may have been written.

ghost use Rattle.std.specs.Prelude.{◌≡◌, ◌∷◌, [], map, length, OnOk, Some, None, false};
ghost use Rattle.std.specs.Option.{option_map};
ghost use Rattle.std.specs.FinMap as finite;
ghost use Rattle.std.specs.Io.KnownBytes.{Appends};
ghost use Rattle.ra_item.specs.Items.{spell, spell_all, row, Word, Number, Text};
ghost use Rattle.node_base.specs.PathText.{path_text};
ghost use Rattle.ra_wire.specs.Commands.{truth_word};
ghost use Rattle.ra_wire.specs.Replies.{answer_of, list, failure, string, properties, node_kind_word};
ghost use Rattle.browse_wire.specs.Told.{info_item, info_or_none, stat_answer, action_word, source_item, change_item};
ghost use Rattle.browse_wire.specs.Told.{log_item, end_item, location_item, segment_item, no_locks};
ghost use Rattle.browse_wire.specs.Told.{refusal_number, refusal_text};

use crate::pieces::write_absolute;
use node_base::{NodeKind, NodePath, Props};
use ra_item::writer::{write_close, write_number, write_open, write_text, write_word};
use ra_wire::pieces::{
    write_end, write_kind_text, write_kind_word, write_name, write_none, write_path,
    write_text_or_none, write_truth,
};
use ra_wire::reply_writer::write_wanted;
use std::io;
use std::io::Write;

/// What stands at a path: its kind, how long its text is, whether it has properties, and the revision that last
/// changed it, with its date and its author.
#[derive(Drop)]
pub struct NodeInfo {
    pub kind: NodeKind,
    pub size: u64,
    pub has_props: bool,
    pub created: u64,
    pub date: Option<Vec<u8>>,
    pub author: Option<Vec<u8>>,
}

/// What a revision did to a path.
#[derive(Clone, Copy, Debug, PartialEq, Eq, Drop)]
pub enum Action {
    /// It came to be.
    Added,
    /// It was removed.
    Deleted,
    /// It was removed, and another came to be.
    Replaced,
    /// Its text or its properties changed.
    Modified,
}

/// What a revision did to a path, where a copy came from, and whether its text and its properties changed.
#[derive(Drop)]
pub struct ChangedPath {
    pub path: NodePath,
    pub action: Action,
    pub source: Option<(NodePath, u64)>,
    pub kind: NodeKind,
    pub text: bool,
    pub props: bool,
}

/// An entry of a log: a revision with its changed paths, its author, date and message, and its other properties.
#[derive(Drop)]
pub struct LogEntry {
    pub changes: Vec<ChangedPath>,
    pub revision: u64,
    pub author: Option<Vec<u8>>,
    pub date: Option<Vec<u8>>,
    pub message: Option<Vec<u8>>,
    pub others: Props,
}

/// Why a command isn't answered.
#[derive(Clone, Copy, Debug, PartialEq, Eq, Drop)]
pub enum Refusal {
    /// A command of another name (210001).
    UnknownCommand,
    /// Nothing stands at the path (160013).
    NoSuchPath,
    /// The revision isn't there (160006).
    NoSuchRevision,
    /// What is asked isn't offered (200007).
    NotSupported,
}

impl Refusal {
    /// Subversion's number for it.
    pub fn number(self) -> u64
        ensures { result ≡ refusal_number self }
    {
        match self {
            Refusal::UnknownCommand => 210001,
            Refusal::NoSuchPath => 160013,
            Refusal::NoSuchRevision => 160006,
            Refusal::NotSupported => 200007,
        }
    }

    /// What it says.
    pub fn text(self) -> &'static [u8]
        ensures { result.now ≡ refusal_text self }
    {
        match self {
            Refusal::UnknownCommand => b"this server only answers readers",
            Refusal::NoSuchPath => b"path not found",
            Refusal::NoSuchRevision => b"no such revision",
            Refusal::NotSupported => b"not supported",
        }
    }
}

// What follows a node's kind and size.
fn write_rest<W: Write>(
    out: &mut W,
    has_props: bool,
    created: u64,
    date: &Option<Vec<u8>>,
    author: &Option<Vec<u8>>,
) -> io::Result<()>
    ensures { OnOk result (Appends (W.contents out.old) (W.contents out.new)
        (spell_all (row (Word (truth_word has_props) ∷ Number created ∷ string (option_map (λ t. t.items) date.now)
        ∷ string (option_map (λ t. t.items) author.now) ∷ [])))) }
{
    write_truth(out, has_props)?;
    write_number(out, created)?;
    write_text_or_none(out, date)?;
    write_text_or_none(out, author)
}

// What stands at a path, as an item.
fn write_info<W: Write>(out: &mut W, info: &NodeInfo) -> io::Result<()>
    ensures { OnOk result (Appends (W.contents out.old) (W.contents out.new) (spell (info_item info.now))) }
{
    write_open(out)?;
    write_kind_word(out, info.kind)?;
    write_number(out, info.size)?;
    write_rest(out, info.has_props, info.created, &info.date, &info.author)?;
    write_close(out)
}

// The same in brackets.
fn write_info_or_none<W: Write>(out: &mut W, info: &Option<NodeInfo>) -> io::Result<()>
    ensures { OnOk result (Appends (W.contents out.old) (W.contents out.new) (spell (info_or_none info.now))) }
{
    match info {
        None => write_none(out),
        Some(info) => {
            write_open(out)?;
            write_info(out, info)?;
            write_close(out)
        }
    }
}

// The same with an answer's name.
fn write_info_named<W: Write>(out: &mut W, name: &[u8], info: &Option<NodeInfo>) -> io::Result<()>
    ensures { OnOk result (Appends (W.contents out.old) (W.contents out.new)
        (spell (answer_of name.now (info_or_none info.now ∷ [])))) }
{
    write_name(out, name)?;
    write_info_or_none(out, info)?;
    write_end(out)
}

/// The answer to `stat`: what stands at a path, or nothing.
pub fn write_stat<W: Write>(out: &mut W, info: &Option<NodeInfo>) -> io::Result<()>
    ensures { OnOk result (Appends (W.contents out.old) (W.contents out.new) (spell (stat_answer info.now))) }
{
    write_info_named(out, b"success", info)
}

// A letter for what a revision did.
fn write_action<W: Write>(out: &mut W, action: Action) -> io::Result<()>
    ensures { OnOk result (Appends (W.contents out.old) (W.contents out.new) (spell (Word (action_word action)))) }
{
    match action {
        Action::Added => write_word(out, b"A"),
        Action::Deleted => write_word(out, b"D"),
        Action::Replaced => write_word(out, b"R"),
        Action::Modified => write_word(out, b"M"),
    }
}

// Where a copy came from.
fn write_source<W: Write>(out: &mut W, source: &Option<(NodePath, u64)>) -> io::Result<()>
    ensures { OnOk result (Appends (W.contents out.old) (W.contents out.new) (spell (source_item source.now))) }
{
    match source {
        None => write_none(out),
        Some((path, revision)) => {
            write_open(out)?;
            write_absolute(out, path)?;
            write_number(out, *revision)?;
            write_close(out)
        }
    }
}

// What a path is, and what of it changed.
fn write_changed<W: Write>(out: &mut W, kind: NodeKind, text: bool, props: bool) -> io::Result<()>
    ensures { OnOk result (Appends (W.contents out.old) (W.contents out.new)
        (spell (list (Text (node_kind_word kind) ∷ Word (truth_word text) ∷ Word (truth_word props) ∷ [])))) }
{
    write_open(out)?;
    write_kind_text(out, kind)?;
    write_truth(out, text)?;
    write_truth(out, props)?;
    write_close(out)
}

// What a revision did to a path.
fn write_change<W: Write>(out: &mut W, change: &ChangedPath) -> io::Result<()>
    ensures { OnOk result (Appends (W.contents out.old) (W.contents out.new) (spell (change_item change.now))) }
{
    write_open(out)?;
    write_absolute(out, &change.path)?;
    write_action(out, change.action)?;
    write_source(out, &change.source)?;
    write_changed(out, change.kind, change.text, change.props)?;
    write_close(out)
}

// The same of each path.
fn write_changes<W: Write>(out: &mut W, changes: &[ChangedPath]) -> io::Result<()>
    ensures { OnOk result (Appends (W.contents out.old) (W.contents out.new)
        (spell_all (row (map change_item changes.now)))) }
{
    for change in changes {
        write_change(out, change)?;
    }
    Ok(())
}

// The same in brackets.
fn write_all_changes<W: Write>(out: &mut W, changes: &[ChangedPath]) -> io::Result<()>
    ensures { OnOk result (Appends (W.contents out.old) (W.contents out.new)
        (spell (list (map change_item changes.now)))) }
{
    write_open(out)?;
    write_changes(out, changes)?;
    write_close(out)
}

// How many properties there are.
fn write_count<W: Write>(out: &mut W, props: &Props) -> io::Result<()>
    ensures { OnOk result (Appends (W.contents out.old) (W.contents out.new)
        (spell (Number (length (finite.entries props.now))))) }
{
    let entries = props.entries();
    write_number(out, entries.len() as u64)
}

// Properties.
fn write_props<W: Write>(out: &mut W, props: &Props) -> io::Result<()>
    ensures { OnOk result (Appends (W.contents out.old) (W.contents out.new)
        (spell (properties (finite.entries props.now)))) }
{
    write_wanted(out, props, true)
}

// The flags behind an entry's message, and its other properties.
fn write_others<W: Write>(out: &mut W, others: &Props) -> io::Result<()>
    ensures { OnOk result (Appends (W.contents out.old) (W.contents out.new)
        (spell_all (row (Word (truth_word false) ∷ Word (truth_word false) ∷ Number (length (finite.entries others.now))
        ∷ properties (finite.entries others.now) ∷ Word (truth_word false) ∷ [])))) }
{
    write_truth(out, false)?;
    write_truth(out, false)?;
    write_count(out, others)?;
    write_props(out, others)?;
    write_truth(out, false)
}

// A revision's author, date and message.
fn write_usual<W: Write>(
    out: &mut W,
    author: &Option<Vec<u8>>,
    date: &Option<Vec<u8>>,
    message: &Option<Vec<u8>>,
) -> io::Result<()>
    ensures { OnOk result (Appends (W.contents out.old) (W.contents out.new)
        (spell_all (row (string (option_map (λ t. t.items) author.now) ∷ string (option_map (λ t. t.items) date.now)
        ∷ string (option_map (λ t. t.items) message.now) ∷ [])))) }
{
    write_text_or_none(out, author)?;
    write_text_or_none(out, date)?;
    write_text_or_none(out, message)
}

/// An entry of a log.
pub fn write_log_entry<W: Write>(out: &mut W, entry: &LogEntry) -> io::Result<()>
    ensures { OnOk result (Appends (W.contents out.old) (W.contents out.new) (spell (log_item entry.now))) }
{
    write_open(out)?;
    write_all_changes(out, entry.changes.as_slice())?;
    write_number(out, entry.revision)?;
    write_usual(out, &entry.author, &entry.date, &entry.message)?;
    write_others(out, &entry.others)?;
    write_close(out)
}

/// The end of entries, locations or segments.
pub fn write_last<W: Write>(out: &mut W) -> io::Result<()>
    ensures { OnOk result (Appends (W.contents out.old) (W.contents out.new) (spell end_item)) }
{
    write_word(out, b"done")
}

/// Where a node stood in a revision.
pub fn write_location<W: Write>(out: &mut W, revision: u64, path: &NodePath) -> io::Result<()>
    ensures { OnOk result (Appends (W.contents out.old) (W.contents out.new)
        (spell (location_item revision path.now))) }
{
    write_open(out)?;
    write_number(out, revision)?;
    write_absolute(out, path)?;
    write_close(out)
}

// Brackets that are empty or hold a path.
fn write_path_or_none<W: Write>(out: &mut W, path: Option<&NodePath>) -> io::Result<()>
    ensures { OnOk result (Appends (W.contents out.old) (W.contents out.new)
        (spell (string (option_map (λ p. path_text p.now) path.entry)))) }
{
    match path {
        None => write_none(out),
        Some(path) => {
            write_open(out)?;
            write_path(out, path)?;
            write_close(out)
        }
    }
}

/// From which to which revision a node stood at a path, or nowhere.
pub fn write_segment<W: Write>(
    out: &mut W,
    first: u64,
    last: u64,
    path: Option<&NodePath>,
) -> io::Result<()>
    ensures { OnOk result (Appends (W.contents out.old) (W.contents out.new)
        (spell (segment_item first last (option_map (λ p. p.now) path.entry)))) }
{
    write_open(out)?;
    write_number(out, first)?;
    write_number(out, last)?;
    write_path_or_none(out, path)?;
    write_close(out)
}

// Empty brackets with an answer's name.
fn write_empty<W: Write>(out: &mut W, name: &[u8]) -> io::Result<()>
    ensures { OnOk result (Appends (W.contents out.old) (W.contents out.new)
        (spell (answer_of name.now (list [] ∷ [])))) }
{
    write_name(out, name)?;
    write_none(out)?;
    write_end(out)
}

/// The answer to `get-lock` and `get-locks`: there are none.
pub fn write_no_locks<W: Write>(out: &mut W) -> io::Result<()>
    ensures { OnOk result (Appends (W.contents out.old) (W.contents out.new) (spell no_locks)) }
{
    write_empty(out, b"success")
}

// A number and a text with the name of a refusal.
fn write_refused<W: Write>(out: &mut W, name: &[u8], n: u64, text: &[u8]) -> io::Result<()>
    ensures { OnOk result (Appends (W.contents out.old) (W.contents out.new)
        (spell (answer_of name.now (list (Number n ∷ Text text.now ∷ Text [] ∷ Number 0 ∷ []) ∷ [])))) }
{
    write_name(out, name)?;
    write_open(out)?;
    write_number(out, n)?;
    write_text(out, text)?;
    write_text(out, b"")?;
    write_number(out, 0)?;
    write_close(out)?;
    write_end(out)
}

// The same as a failure.
fn write_failed<W: Write>(out: &mut W, n: u64, text: &[u8]) -> io::Result<()>
    ensures { OnOk result (Appends (W.contents out.old) (W.contents out.new) (spell (failure n text.now))) }
{
    write_refused(out, b"failure", n, text)
}

/// A refusal, by Subversion's number and a text.
pub fn write_refusal<W: Write>(out: &mut W, refusal: Refusal) -> io::Result<()>
    ensures { OnOk result (Appends (W.contents out.old) (W.contents out.new)
        (spell (failure (refusal_number refusal) (refusal_text refusal)))) }
{
    write_failed(out, refusal.number(), refusal.text())
}
