//! What a working copy reports of itself.

ghost use Rattle.std.specs.Prelude.{◌≡◌, Ok, Err, None};
ghost use Rattle.ra_wire.specs.Params.{left_of};
ghost use Rattle.browse_wire.specs.Faults.{ReadIs};
ghost use Rattle.browse_wire.specs.Depths.{all_below};
ghost use Rattle.browse_wire.specs.Reports.{report_as, reported_as, report_in, named, known_depth};
ghost use Rattle.browse_wire.specs.Reports.{set_path_in, delete_path_in, link_path_in, state_in, Judged};

use crate::depth::{Depth, DepthWord, Reach};
use crate::fault::BrowseFault;
use crate::fields::{
    depth_or, maybe_text_or_none, next_list, next_number, next_path, next_text, next_truth,
    next_word,
};
use node_base::NodePath;
use ra_item::item::Item;
use ra_wire::params::Params;
use std::alloc::Global;

/// How a path stands in a working copy.
#[derive(Drop)]
pub struct Reported {
    pub path: NodePath,
    pub revision: u64,
    /// Whether it is an empty directory, whatever the revision has there.
    pub start_empty: bool,
    /// The token of a lock on it.
    pub token: Option<Vec<u8>>,
    /// How much of it there is.
    pub depth: Reach,
}

/// What a working copy reports of itself.
#[derive(Drop)]
pub enum ReportCommand {
    /// `set-path`: a path stands so.
    SetPath(Reported),
    /// `delete-path`: a path is missing.
    DeletePath(NodePath),
    /// `link-path`: a path stands as another URL's.
    LinkPath(Reported, Vec<u8>),
    /// `finish-report`
    FinishReport,
    /// `abort-report`
    AbortReport,
}

impl ReportCommand {
    /// What an item reports. `UnknownCommand` for another name; `BadShape` for any other item that reports nothing;
    /// `OutOfMemory`.
    pub fn parse(alloc: Global, item: Item) -> Result<ReportCommand, BrowseFault>
        ensures read { ReadIs report_as result (report_in item) }
        ensures judged { Judged item result }
    {
        read(alloc, item)
    }
}

// What an item is read as.
#[tactic(auto, using(crate::proofs::Misses::missed))]
fn read(alloc: Global, item: Item) -> Result<ReportCommand, BrowseFault>
    ensures { ReadIs report_as result (report_in item) }
{
    let mut parts = Params::of(item)?;
    let word = next_word(&mut parts)?;
    let mut params = next_list(&mut parts)?;
    named(alloc, word.as_slice(), &mut params)
}

// What a name with parameters reports.
fn named(alloc: Global, word: &[u8], params: &mut Params) -> Result<ReportCommand, BrowseFault>
    ensures { ReadIs report_as result (named word.now (left_of params.old)) }
{
    if word == b"set-path".as_slice() {
        set_path(alloc, params)
    } else if word == b"delete-path".as_slice() {
        delete_path(alloc, params)
    } else if word == b"link-path".as_slice() {
        link_path(alloc, params)
    } else if word == b"finish-report".as_slice() {
        Ok(ReportCommand::FinishReport)
    } else if word == b"abort-report".as_slice() {
        Ok(ReportCommand::AbortReport)
    } else {
        Err(BrowseFault::UnknownCommand)
    }
}

fn set_path(alloc: Global, params: &mut Params) -> Result<ReportCommand, BrowseFault>
    ensures { ReadIs report_as result (set_path_in (left_of params.old)) }
{
    let path = next_path(alloc, params)?;
    Ok(ReportCommand::SetPath(state(path, params)?))
}

fn delete_path(alloc: Global, params: &mut Params) -> Result<ReportCommand, BrowseFault>
    ensures { ReadIs report_as result (delete_path_in (left_of params.old)) }
{
    Ok(ReportCommand::DeletePath(next_path(alloc, params)?))
}

fn link_path(alloc: Global, params: &mut Params) -> Result<ReportCommand, BrowseFault>
    ensures { ReadIs report_as result (link_path_in (left_of params.old)) }
{
    let path = next_path(alloc, params)?;
    let url = next_text(params)?;
    Ok(ReportCommand::LinkPath(state(path, params)?, url))
}

// How a path stands.
fn state(path: NodePath, params: &mut Params) -> Result<Reported, BrowseFault>
    ensures { ReadIs reported_as result (state_in path (left_of params.old)) }
{
    let revision = next_number(params)?;
    let start_empty = next_truth(params)?;
    let token = maybe_text_or_none(params)?;
    let depth = known_depth(depth_or(params, DepthWord::Known(Depth::Infinity))?)?;
    Ok(Reported {
        path,
        revision,
        start_empty,
        token,
        depth,
    })
}

// The depth of a report.
fn known_depth(word: DepthWord) -> Result<Reach, BrowseFault>
    ensures { result ≡ known_depth word }
{
    match word {
        DepthWord::Known(depth) => Ok(Reach::To(depth)),
        DepthWord::AsReported => Err(BrowseFault::BadShape),
        DepthWord::Excluded => Ok(Reach::Excluded),
    }
}
