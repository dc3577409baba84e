//! What a reading client asks.

ghost use Rattle.std.specs.Prelude.{◌≡◌, IfOk, IfErr, Some, None};
ghost use Rattle.std.specs.List.{list_any};
ghost use Rattle.std.specs.Str.{bytes_eq};
ghost use Rattle.ra_item.specs.Items.{End};
ghost use Rattle.ra_wire.specs.Params.{left_of, parts_in, bracketed};
ghost use Rattle.browse_wire.specs.Faults.{Missed, ReadIs};
ghost use Rattle.browse_wire.specs.Depths.{depth_in, word_of};
ghost use Rattle.browse_wire.specs.Fields.{or_missing};
ghost use Rattle.browse_wire.specs.Asks.{is_own, is_own_name, ask_as, revprops_as, Judged};
ghost use Rattle.browse_wire.specs.AskReading.{stat_in, log_in, locations_in, segments_in, file_revs_in, reparent_in};
ghost use Rattle.browse_wire.specs.AskReading.{get_lock_in, get_locks_in, update_in, switch_in, status_in, diff_in, dated_rev_in};
ghost use Rattle.browse_wire.specs.AskReading.{named, own_in, ask_in, revprops_in, revprops_named};

use crate::depth::{Depth, or_all, or_empty, or_files};
use crate::fault::BrowseFault;
use crate::fields::{
    depth_or, maybe_depth_or_none, maybe_number, maybe_number_or_none, next_list, next_number,
    next_numbers, next_path, next_paths, next_text, next_texts, next_truth, next_word, number_or,
    truth_or,
};
use node_base::NodePath;
use ra_item::item::{Content, Item};
use ra_wire::command::Command;
use ra_wire::params::Params;
use std::alloc::Global;

/// Which properties of a revision are wanted in a log.
#[derive(Drop)]
pub enum RevpropsWanted {
    /// Its author, its date and its message.
    Usual,
    /// All.
    Every,
    /// Those of these names.
    These(Vec<Vec<u8>>),
}

/// What a `log` asks.
#[derive(Drop)]
pub struct LogOrder {
    /// Revisions are wanted in which one of these, or something below it, changed.
    pub paths: Vec<NodePath>,
    /// The first and the last revision, in this order; the newest one where it is missing.
    pub start: Option<u64>,
    pub end: Option<u64>,
    /// Whether the changed paths are wanted.
    pub changed_paths: bool,
    /// Whether a copy ends a path's history.
    pub strict: bool,
    /// The most revisions that are wanted; 0 where all are.
    pub limit: u64,
    /// Whether merged revisions are wanted too.
    pub merged: bool,
    pub revprops: RevpropsWanted,
}

/// What an `update` asks. A missing revision is the newest one, and a missing depth is as reported.
#[derive(Drop)]
pub struct UpdateOrder {
    pub revision: Option<u64>,
    pub target: NodePath,
    pub depth: Option<Depth>,
    /// Whether copies may be told as such.
    pub copies: bool,
    pub ignores_ancestry: bool,
}

/// What a `switch` asks: an update to what stands at another URL.
#[derive(Drop)]
pub struct SwitchOrder {
    pub revision: Option<u64>,
    pub target: NodePath,
    pub url: Vec<u8>,
    pub depth: Option<Depth>,
    pub copies: bool,
    pub ignores_ancestry: bool,
}

/// What a `status` asks.
#[derive(Drop)]
pub struct StatusOrder {
    pub revision: Option<u64>,
    pub target: NodePath,
    pub depth: Option<Depth>,
}

/// What a `diff` asks: how what was reported differs from what stands at a URL.
#[derive(Drop)]
pub struct DiffOrder {
    pub revision: Option<u64>,
    pub target: NodePath,
    pub url: Vec<u8>,
    pub depth: Option<Depth>,
    pub ignores_ancestry: bool,
    /// Whether texts are wanted.
    pub texts: bool,
}

/// What a client asks. A missing revision is the newest one, and a missing depth is as reported.
#[derive(Drop)]
pub enum BrowseCommand {
    /// A command that a server without browsing answers too.
    Plain(Command),
    /// `stat`: a path and a revision.
    Stat(NodePath, Option<u64>),
    /// `log`
    Log(LogOrder),
    /// `get-locations`: where the node that a path names in a peg revision stood in these revisions.
    GetLocations(NodePath, u64, Vec<u64>),
    /// `get-location-segments`: a path, a peg revision, and the youngest and the oldest revision.
    GetLocationSegments(NodePath, Option<u64>, Option<u64>, Option<u64>),
    /// `get-file-revs`: a path, the first and the last revision, and whether merged revisions are wanted.
    GetFileRevs(NodePath, Option<u64>, Option<u64>, bool),
    /// `reparent`: the session's new URL.
    Reparent(Vec<u8>),
    /// `get-lock`
    GetLock(NodePath),
    /// `get-locks`: a path, and how far below it.
    GetLocks(NodePath, Option<Depth>),
    /// `update`
    Update(UpdateOrder),
    /// `switch`
    Switch(SwitchOrder),
    /// `status`
    Status(StatusOrder),
    /// `diff`
    Diff(DiffOrder),
    /// `get-dated-rev`: a date.
    GetDatedRev(Vec<u8>),
}

impl BrowseCommand {
    /// What an item asks. `UnknownCommand` for a command of another name; `ReplayForm` as `Command::parse`;
    /// `ExcludedDepth` for a command with the depth `exclude`; `BadShape` for any other item that is no command;
    /// `OutOfMemory`.
    pub fn parse(alloc: Global, item: Item) -> Result<BrowseCommand, BrowseFault>
        ensures read { ReadIs ask_as result (ask_in item) }
        ensures judged { Judged item result }
    {
        read(alloc, item)
    }
}

// What an item is read as.
fn read(alloc: Global, item: Item) -> Result<BrowseCommand, BrowseFault>
    ensures { ReadIs ask_as result (ask_in item) }
{
    if is_own(&item) {
        own(alloc, item)
    } else {
        match Command::parse(alloc, item) {
            Ok(command) => Ok(BrowseCommand::Plain(command)),
            Err(fault) => Err(BrowseFault::from(fault)),
        }
    }
}

// Whether an item has a name that a server without browsing doesn't know.
fn is_own(item: &Item) -> bool
    ensures { result ≡ is_own item.now }
{
    let Content::List(parts) = item.content() else {
        return false;
    };
    let Some(first) = parts.first() else {
        return false;
    };
    let Content::Word(word) = first.content() else {
        return false;
    };
    is_own_name(word.as_slice())
}

// Whether a name is one of these.
fn is_own_name(word: &[u8]) -> bool
    ensures { result ≡ is_own_name word.now }
{
    word == b"stat".as_slice()
        || word == b"log".as_slice()
        || word == b"get-locations".as_slice()
        || word == b"get-location-segments".as_slice()
        || word == b"get-file-revs".as_slice()
        || word == b"reparent".as_slice()
        || word == b"get-lock".as_slice()
        || word == b"get-locks".as_slice()
        || word == b"update".as_slice()
        || word == b"switch".as_slice()
        || word == b"status".as_slice()
        || word == b"diff".as_slice()
        || word == b"get-dated-rev".as_slice()
}

// A command of one of these names.
#[tactic(auto, using(crate::proofs::Misses::missed))]
fn own(alloc: Global, item: Item) -> Result<BrowseCommand, BrowseFault>
    ensures { ReadIs ask_as result (own_in item) }
{
    let mut parts = Params::of(item)?;
    let word = next_word(&mut parts)?;
    let mut params = next_list(&mut parts)?;
    named(alloc, word.as_slice(), &mut params)
}

// The command of a name with parameters.
fn named(alloc: Global, word: &[u8], params: &mut Params) -> Result<BrowseCommand, BrowseFault>
    ensures { ReadIs ask_as result (named word.now (left_of params.old)) }
{
    if word == b"stat".as_slice() {
        stat(alloc, params)
    } else if word == b"log".as_slice() {
        log(alloc, params)
    } else if word == b"get-locations".as_slice() {
        locations(alloc, params)
    } else if word == b"get-location-segments".as_slice() {
        segments(alloc, params)
    } else if word == b"get-file-revs".as_slice() {
        file_revs(alloc, params)
    } else if word == b"reparent".as_slice() {
        Ok(BrowseCommand::Reparent(next_text(params)?))
    } else if word == b"get-lock".as_slice() {
        Ok(BrowseCommand::GetLock(next_path(alloc, params)?))
    } else if word == b"get-locks".as_slice() {
        locks(alloc, params)
    } else if word == b"update".as_slice() {
        update(alloc, params)
    } else if word == b"switch".as_slice() {
        switch(alloc, params)
    } else if word == b"status".as_slice() {
        status(alloc, params)
    } else if word == b"diff".as_slice() {
        diff(alloc, params)
    } else if word == b"get-dated-rev".as_slice() {
        Ok(BrowseCommand::GetDatedRev(next_text(params)?))
    } else {
        Err(BrowseFault::UnknownCommand)
    }
}

fn stat(alloc: Global, params: &mut Params) -> Result<BrowseCommand, BrowseFault>
    ensures { ReadIs ask_as result (stat_in (left_of params.old)) }
{
    let path = next_path(alloc, params)?;
    Ok(BrowseCommand::Stat(path, maybe_number(params)?))
}

fn log(alloc: Global, params: &mut Params) -> Result<BrowseCommand, BrowseFault>
    ensures { ReadIs ask_as result (log_in (left_of params.old)) }
{
    let paths = next_paths(alloc, params)?;
    let start = maybe_number(params)?;
    let end = maybe_number(params)?;
    let changed_paths = next_truth(params)?;
    let strict = next_truth(params)?;
    let limit = number_or(params, 0)?;
    let merged = truth_or(params, false)?;
    let revprops = revprops(alloc, params)?;
    Ok(BrowseCommand::Log(LogOrder {
        paths,
        start,
        end,
        changed_paths,
        strict,
        limit,
        merged,
        revprops,
    }))
}

// Which properties of revisions are wanted.
fn revprops(alloc: Global, params: &mut Params) -> Result<RevpropsWanted, BrowseFault>
    ensures read { IfOk result (λ r. revprops_in (left_of params.old) ≡ Some (revprops_as r, End)) }
    ensures none { IfErr result (Missed (revprops_in (left_of params.old))) }
{
    if params.is_empty() {
        return Ok(RevpropsWanted::Usual);
    }
    let word = next_word(params)?;
    if word.as_slice() == b"all-revprops".as_slice() {
        Ok(RevpropsWanted::Every)
    } else if word.as_slice() == b"revprops".as_slice() {
        Ok(RevpropsWanted::These(next_texts(alloc, params)?))
    } else {
        Err(BrowseFault::BadShape)
    }
}

fn locations(alloc: Global, params: &mut Params) -> Result<BrowseCommand, BrowseFault>
    ensures { ReadIs ask_as result (locations_in (left_of params.old)) }
{
    let path = next_path(alloc, params)?;
    let peg = next_number(params)?;
    let numbers = next_numbers(alloc, params)?;
    Ok(BrowseCommand::GetLocations(path, peg, numbers))
}

fn segments(alloc: Global, params: &mut Params) -> Result<BrowseCommand, BrowseFault>
    ensures { ReadIs ask_as result (segments_in (left_of params.old)) }
{
    let path = next_path(alloc, params)?;
    let peg = maybe_number(params)?;
    let start = maybe_number(params)?;
    let end = maybe_number(params)?;
    Ok(BrowseCommand::GetLocationSegments(path, peg, start, end))
}

fn file_revs(alloc: Global, params: &mut Params) -> Result<BrowseCommand, BrowseFault>
    ensures { ReadIs ask_as result (file_revs_in (left_of params.old)) }
{
    let path = next_path(alloc, params)?;
    let start = maybe_number(params)?;
    let end = maybe_number(params)?;
    let merged = truth_or(params, false)?;
    Ok(BrowseCommand::GetFileRevs(path, start, end, merged))
}

#[tactic(auto, using(crate::proofs::Misses::wanted_word))]
fn locks(alloc: Global, params: &mut Params) -> Result<BrowseCommand, BrowseFault>
    ensures { ReadIs ask_as result (get_locks_in (left_of params.old)) }
{
    let path = next_path(alloc, params)?;
    let depth = or_all(maybe_depth_or_none(params)?);
    Ok(BrowseCommand::GetLocks(path, depth.wanted()?))
}

#[tactic(auto, using(crate::proofs::Misses::wanted_word))]
fn update(alloc: Global, params: &mut Params) -> Result<BrowseCommand, BrowseFault>
    ensures { ReadIs ask_as result (update_in (left_of params.old)) }
{
    let revision = maybe_number(params)?;
    let target = next_path(alloc, params)?;
    let recurse = next_truth(params)?;
    let depth = depth_or(params, or_files(recurse))?;
    let copies = truth_or(params, false)?;
    let ignores_ancestry = truth_or(params, false)?;
    Ok(BrowseCommand::Update(UpdateOrder {
        revision,
        target,
        depth: depth.wanted()?,
        copies,
        ignores_ancestry,
    }))
}

#[tactic(auto, using(crate::proofs::Misses::wanted_word))]
fn switch(alloc: Global, params: &mut Params) -> Result<BrowseCommand, BrowseFault>
    ensures { ReadIs ask_as result (switch_in (left_of params.old)) }
{
    let revision = maybe_number(params)?;
    let target = next_path(alloc, params)?;
    let recurse = next_truth(params)?;
    let url = next_text(params)?;
    let depth = depth_or(params, or_files(recurse))?;
    let copies = truth_or(params, false)?;
    let ignores_ancestry = truth_or(params, false)?;
    Ok(BrowseCommand::Switch(SwitchOrder {
        revision,
        target,
        url,
        depth: depth.wanted()?,
        copies,
        ignores_ancestry,
    }))
}

#[tactic(auto, using(crate::proofs::Misses::wanted_word))]
fn status(alloc: Global, params: &mut Params) -> Result<BrowseCommand, BrowseFault>
    ensures { ReadIs ask_as result (status_in (left_of params.old)) }
{
    let target = next_path(alloc, params)?;
    let recurse = next_truth(params)?;
    let revision = maybe_number_or_none(params)?;
    let depth = depth_or(params, or_empty(recurse))?;
    Ok(BrowseCommand::Status(StatusOrder {
        revision,
        target,
        depth: depth.wanted()?,
    }))
}

#[tactic(auto, using(crate::proofs::Misses::wanted_word))]
fn diff(alloc: Global, params: &mut Params) -> Result<BrowseCommand, BrowseFault>
    ensures { ReadIs ask_as result (diff_in (left_of params.old)) }
{
    let revision = maybe_number(params)?;
    let target = next_path(alloc, params)?;
    let recurse = next_truth(params)?;
    let ignores_ancestry = next_truth(params)?;
    let url = next_text(params)?;
    let texts = truth_or(params, true)?;
    let depth = depth_or(params, or_files(recurse))?;
    Ok(BrowseCommand::Diff(DiffOrder {
        revision,
        target,
        url,
        depth: depth.wanted()?,
        ignores_ancestry,
        texts,
    }))
}
