//! What is told of one node.

ghost use Rattle.std.specs.Prelude.{◌≡◌, IfOk};
ghost use Rattle.std.specs.Option.{option_copied};
ghost use Rattle.browse_wire.specs.Asks.{Stat};
ghost use Rattle.browse_wire.specs.Told.{stat_answer};
ghost use Rattle.ra_serve.specs.Tellings.{GivesMore};
ghost use Rattle.ra_denial.specs.Places.{place_as};
ghost use Rattle.ra_denial.specs.Stops.{PortStays};
ghost use Rattle.ra_denial.specs.Writing.{TellsItem};
ghost use Rattle.ra_browse.specs.Answers.{size_told, stat_told};
ghost use Rattle.ra_browse.specs.Tellings.{made_as};
ghost use Rattle.ra_browse.specs.Writing.{Replies, seen_node};

use crate::look::{Seen, see};
use crate::made::{Made, date_told};
use browse_wire::told::{NodeInfo, write_stat};
use browse_wire::url::SessionUrl;
use node_base::{Node, NodePath, Text};
use ra_denial::tell;
use ra_serve::{RepoPort, ServeFault};
use std::alloc::{AllocError, Global};
use std::io::Write;

/// Answers `stat`.
pub fn stat<P: RepoPort, W: Write + Drop>(
    alloc: Global,
    port: &mut P,
    place: &SessionUrl,
    path: &NodePath,
    number: Option<u64>,
    out: W,
) -> Result<W, ServeFault>
    ensures told { Replies P.RepoPort W.Write port.old port.new out (place_as place.now) (Stat path.now number) result }
    ensures adds { GivesMore W.contents out result }
    ensures stays { PortStays P.RepoPort port.old port.new }
{
    match see(alloc, port, &place.path, path, number) {
        Ok(seen) => tell_stat(alloc, seen, out),
        Err(stop) => tell(stop, out),
    }
}

// Tells of what stands somewhere, or that nothing does.
fn tell_stat<W: Write + Drop>(alloc: Global, seen: Seen, out: W) -> Result<W, ServeFault>
    ensures { TellsItem W.Write out (stat_told (seen_node seen) (made_as seen.made)) result }
{
    let Seen {
        tree,
        names,
        made,
        ..
    } = seen;
    match info_of(alloc, tree.get(names.as_slice()), made) {
        Ok(info) => tell_info(&info, out),
        Err(_) => Err(ServeFault::OutOfMemory),
    }
}

fn tell_info<W: Write + Drop>(info: &Option<NodeInfo>, out: W) -> Result<W, ServeFault>
    ensures { TellsItem W.Write out (stat_answer info.now) result }
{
    let mut out = out;
    write_stat(&mut out, info)?;
    Ok(out)
}

// What is told of a node of a revision that was made so.
fn info_of(alloc: Global, node: Option<&Node>, made: Made) -> Result<Option<NodeInfo>, AllocError>
    ensures { IfOk result (λ i. stat_answer i ≡ stat_told (option_copied node.entry) (made_as made)) }
{
    let Some(node) = node else {
        return Ok(None);
    };
    let Made { date, author } = made;
    let date = date_told(alloc, date)?;
    Ok(Some(NodeInfo {
        kind: node.kind(),
        size: size_told(&node.text),
        has_props: !node.props.is_empty(),
        created: u64::from(node.changed.get()),
        date,
        author,
    }))
}

// How long a text is. A directory has no size.
fn size_told(text: &Option<Text>) -> u64
    ensures { result ≡ size_told text.now }
{
    match text {
        Some(text) => text.len() as u64,
        None => u64::MAX,
    }
}
