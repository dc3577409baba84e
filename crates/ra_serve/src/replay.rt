//! Revisions as their edits.

ghost use Rattle.std.specs.Prelude.{◌≡◌, ◌<◌, ◌≤◌, ◌++◌, length, Some, None};
ghost use Rattle.node_base.specs.declared.limits.TheConstants.{REVISION};
ghost use Rattle.editor_ends.specs.Drive.{drive};
ghost use Rattle.ra_item.specs.Items.{spell};
ghost use Rattle.ra_edit.specs.Commands.{edit_bytes};
ghost use Rattle.ra_wire.specs.Replies.{done, revprops};
ghost use Rattle.ra_wire.specs.Commands.{Replay as ReplayOf, ReplayRange};
ghost use Rattle.repo_core.specs.Repository.{Repository};
ghost use Rattle.ra_serve.specs.Ports.{no_revision};
ghost use Rattle.ra_serve.specs.Tellings.{GoesOn, Sends, TellsCommand, GivesMore};

use crate::ask::{newest, revision};
use crate::fault::{PortFault, ServeFault};
use crate::port::{Replay, RepoPort};
use crate::told::refuse;
use crate::unflushed::Unflushed;
use delta_editor::EditorFault;
use dump_load::ChangeSet;
use edit_road::send::send_set;
use node_base::RevNo;
use path_tree::Tree;
use ra_wire::reply_writer::{write_done, write_revprops};
use std::alloc::Global;
use std::io::Write;

/// Writes the edit of a revision over the trees before it. Its commands aren't handed on one by one, but as the writer
/// does it.
fn write_edit<W: Write + Drop>(
    alloc: Global,
    trees: &[Tree],
    set: &ChangeSet,
    out: W,
) -> Result<W, ServeFault>
    requires few { length trees.now ≤ REVISION }
    ensures { Sends W.contents out (edit_bytes (drive trees.now set.now)) result }
{
    match send_set(alloc, trees, set, Unflushed { inner: out }) {
        Ok(out) => Ok(out.inner),
        Err(EditorFault::PeerFailed) => Err(ServeFault::WriteFailed),
        Err(_) => Err(ServeFault::OutOfMemory),
    }
}

/// Writes the properties of a revision, and its edit over the trees before it.
fn write_revision<W: Write + Drop>(
    alloc: Global,
    trees: &[Tree],
    replay: &Replay,
    out: W,
) -> Result<W, ServeFault>
    requires few { length trees.now ≤ REVISION }
    ensures { Sends W.contents out
        (spell (revprops replay.now.props) ++ edit_bytes (drive trees.now replay.now.set)) result }
{
    let mut out = out;
    write_revprops(&mut out, &replay.props)?;
    write_edit(alloc, trees, &replay.set, out)
}

// Says that all is sent.
fn done<W: Write + Drop>(out: W) -> Result<W, ServeFault>
    ensures { Sends W.contents out (spell done) result }
{
    let mut out = out;
    write_done(&mut out)?;
    Ok(out)
}

/// Answers `replay`.
pub fn replay<P: RepoPort, W: Write + Drop>(
    alloc: Global,
    port: &mut P,
    number: u64,
    out: W,
) -> Result<W, ServeFault>
    ensures told { TellsCommand P.RepoPort W.contents port.old port.new out (ReplayOf number) result }
    ensures adds { GivesMore W.contents out result }
    ensures goes { GoesOn P.refusals P.is_mirror port.old port.new }
{
    let number = match revision(port, number) {
        Ok(number) => number,
        Err(fault) => return refuse(fault, out),
    };
    match port.replay_of(number) {
        Ok(replay) => {
            let trees = &port.trees()[..number.index()];
            let out = write_edit(alloc, trees, &replay.set, out)?;
            done(out)
        }
        Err(fault) => refuse(fault, out),
    }
}

/// Answers `replay-range`, revision by revision.
pub fn range<P: RepoPort, W: Write + Drop>(
    alloc: Global,
    port: &mut P,
    first: u64,
    last: u64,
    out: W,
) -> Result<W, ServeFault>
    ensures told { TellsCommand P.RepoPort W.contents port.old port.new out (ReplayRange first last) result }
    ensures adds { GivesMore W.contents out result }
    ensures goes { GoesOn P.refusals P.is_mirror port.old port.new }
{
    let head = match newest(port) {
        Ok(head) => head,
        Err(fault) => return refuse(fault, out),
    };
    if first > head {
        return refuse(PortFault::NoSuchRevision, out);
    }
    if last > head {
        return refuse(PortFault::NoSuchRevision, out);
    }
    revisions(alloc, port, first as u16, last as u16, out)
}

// The revisions of a range that is there.
fn revisions<P: RepoPort, W: Write + Drop>(
    alloc: Global,
    port: &mut P,
    first: u16,
    last: u16,
    out: W,
) -> Result<W, ServeFault>
    requires there { (x : Repository) → P.repository port.old ≡ Some x → (first < length x.revisions)
        × (last < length x.revisions) }
    ensures told { TellsCommand P.RepoPort W.contents port.old port.new out (ReplayRange first last) result }
    ensures adds { GivesMore W.contents out result }
    ensures goes { GoesOn P.refusals P.is_mirror port.old port.new }
{
    let mut sent = out;
    for number in u32::from(first)..u32::from(last) + 1 {
        let number = RevNo::new(number as u16);
        match port.replay_of(number) {
            Ok(replay) => {
                let trees = &port.trees()[..number.index()];
                sent = write_revision(alloc, trees, &replay, sent)?;
            }
            Err(fault) => return refuse(fault, sent),
        }
    }
    done(sent)
}
