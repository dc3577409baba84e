//! What a command that a report follows wants.

ghost use Rattle.std.specs.Prelude.{◌≡◌, ◌++◌, true, false, None};
ghost use Rattle.browse_wire.specs.Asks.{ask_as};
ghost use Rattle.browse_wire.specs.Depths.{word_of};
ghost use Rattle.ra_denial.specs.Places.{place_as};
ghost use Rattle.ra_denial.specs.Stops.{Decides};
ghost use Rattle.ra_report.specs.Given.{link_place, GivesOrder};
ghost use Rattle.ra_report.specs.Orders.{awaits_report, depth_wanted, here_denied, is_short, part_denied, there_denied};
ghost use Rattle.ra_report.specs.Orders.{order_denied, IsOrder};

use crate::shown::depth_of;
use crate::take::path_in;
use browse_wire::ask::BrowseCommand;
use browse_wire::depth::Depth as Below;
use browse_wire::url::SessionUrl;
use node_base::NodePath;
use ra_denial::{Denial, Stop, path_at};
use std::alloc::Global;
use tree_reports::Depth;

/// What is wanted: what stands at a path from the repository's root, in a revision, or in the newest where none is named.
/// A target is its name in the folder that a working copy has, and the root where it is that folder.
#[derive(Drop)]
pub struct Order {
    pub revision: Option<u64>,
    pub path: NodePath,
    pub target: NodePath,
    /// How deep the target is looked at; as deep as it is reported where none is named.
    pub depth: Option<Depth>,
    /// Whether what is switched stays so.
    pub keeps: bool,
}

/// Whether a report follows a command.
pub fn awaits_report(command: &BrowseCommand) -> bool
    ensures { result ≡ awaits_report (ask_as command.now) }
{
    match command {
        BrowseCommand::Update(_) => true,
        BrowseCommand::Switch(_) => true,
        BrowseCommand::Status(_) => true,
        BrowseCommand::Diff(_) => true,
        _ => false,
    }
}

/// Why no report follows a command: it isn't one that a report follows, or it wants a part of the folder that isn't one
/// name, or what stands at a URL that isn't below the session's root, or at a path past the limits. No
/// repository is asked.
pub fn ordered(alloc: Global, place: &SessionUrl, command: &BrowseCommand) -> Result<(), Stop>
    ensures { Decides (order_denied (place_as place.now) (ask_as command.now)) (λ _. Unit {0}) result }
{
    match order_of(alloc, place, command) {
        Ok(_order) => Ok(()),
        Err(stop) => Err(stop),
    }
}

/// The order that a command is.
pub fn order_of(alloc: Global, place: &SessionUrl, command: &BrowseCommand) -> Result<Order, Stop>
    ensures { Decides (order_denied (place_as place.now) (ask_as command.now))
        (IsOrder (place_as place.now) (ask_as command.now)) result }
{
    match command {
        BrowseCommand::Update(order) => {
            here(alloc, place, &order.target, order.depth, order.revision)
        }
        BrowseCommand::Switch(order) => there(
            alloc,
            place,
            &order.target,
            order.depth,
            order.url.as_slice(),
            order.revision,
        ),
        BrowseCommand::Status(order) => {
            here(alloc, place, &order.target, order.depth, order.revision)
        }
        BrowseCommand::Diff(order) => there(
            alloc,
            place,
            &order.target,
            order.depth,
            order.url.as_slice(),
            order.revision,
        ),
        _ => Err(Stop::Denied(Denial::Unsupported)),
    }
}

// What stands where the session stands.
fn here(
    alloc: Global,
    place: &SessionUrl,
    target: &NodePath,
    depth: Option<Below>,
    revision: Option<u64>,
) -> Result<Order, Stop>
    ensures { GivesOrder (here_denied (place_as place.now) target.now) revision (place.now.path ++ target.now)
        target.now depth true result }
{
    if let Some(why) = part_denied(target) {
        return Err(Stop::Denied(why));
    }
    match path_in(alloc, &place.path, target) {
        Ok(path) => order_at(alloc, revision, path, target, depth, true),
        Err(stop) => Err(stop),
    }
}

// What stands at a path.
fn order_at(
    alloc: Global,
    revision: Option<u64>,
    path: NodePath,
    target: &NodePath,
    depth: Option<Below>,
    keeps: bool,
) -> Result<Order, Stop>
    ensures { GivesOrder None revision path target.now depth keeps result }
{
    match target.copy(alloc) {
        Ok(target) => Ok(Order {
            revision,
            path,
            target,
            depth: depth_wanted(depth),
            keeps,
        }),
        Err(_) => Err(Stop::OutOfMemory),
    }
}

// What stands at another URL.
fn there(
    alloc: Global,
    place: &SessionUrl,
    target: &NodePath,
    depth: Option<Below>,
    url: &[u8],
    revision: Option<u64>,
) -> Result<Order, Stop>
    ensures { GivesOrder (there_denied (place_as place.now) target.now url.now) revision
        (link_place (place_as place.now) url.now) target.now depth false result }
{
    if let Some(why) = part_denied(target) {
        return Err(Stop::Denied(why));
    }
    match path_at(alloc, place, url) {
        Ok(path) => order_at(alloc, revision, path, target, depth, false),
        Err(stop) => Err(stop),
    }
}

// Whether a part of a folder is wanted that isn't offered.
fn part_denied(target: &NodePath) -> Option<Denial>
    ensures { result ≡ part_denied target.now }
{
    if is_short(target) {
        return None;
    }
    Some(Denial::Unsupported)
}

/// Whether a target is the folder, or one name in it.
pub fn is_short(target: &NodePath) -> bool
    ensures { result ≡ is_short target.now }
{
    match target.names() {
        [] => true,
        [_] => true,
        _ => false,
    }
}

// The depth of a command as one of trees.
fn depth_wanted(depth: Option<Below>) -> Option<Depth>
    ensures { result ≡ depth_wanted (word_of depth) }
{
    match depth {
        Some(depth) => Some(depth_of(depth)),
        None => None,
    }
}
