//! Which revisions changed some paths.

ghost use Rattle.std.specs.Prelude.{◌≡◌, ◌++◌, ◌∷◌, suc, take, map, [], Some, IfOk, if◌then◌else◌};
ghost use Rattle.std.specs.Io.KnownBytes.{Keeps};
ghost use Rattle.std.specs.Io.Buffered.{writer_contents};
ghost use Rattle.repo_core.specs.Repository.{Repository, trees_of};
ghost use Rattle.browse_wire.specs.Asks.{Log};
ghost use Rattle.ra_serve.specs.Answers.{asked};
ghost use Rattle.ra_serve.specs.Tellings.{GivesMore};
ghost use Rattle.ra_history.specs.Rows.{props_of};
ghost use Rattle.ra_log.specs.Entries.{log_as};
ghost use Rattle.ra_log.specs.Rows.{entries_in};
ghost use Rattle.ra_denial.specs.Denials.{no_revision};
ghost use Rattle.ra_denial.specs.Places.{place_as};
ghost use Rattle.ra_denial.specs.Stops.{Finds, PortStays};
ghost use Rattle.ra_denial.specs.Writing.{TellsBytes};
ghost use Rattle.ra_browse.specs.Histories.{paths_below};
ghost use Rattle.ra_browse.specs.Seeking.{FindsUpTo, FindsIn, RefusesEnds, AllStandAt, FindsPlacesAt};
ghost use Rattle.ra_browse.specs.Seeking.{SeeksLog, SeeksLogBetween, SeeksLogOf};
ghost use Rattle.ra_browse.specs.Tellings.{AreRows, TellsLogged};
ghost use Rattle.ra_browse.specs.Writing.{Replies, ended};

use crate::location::{newer, place_in, shared};
use browse_wire::ask::LogOrder;
use browse_wire::told::write_last;
use browse_wire::url::SessionUrl;
use node_base::{NodePath, Props, RevNo};
use path_history::{HistoryFault, Place, SetRow};
use path_tree::Tree;
use ra_denial::{Denial, Stop, stopped, tell_behind_last};
use ra_history::{LogRange, SetsStop, props_up_to, revisions_told, trees_up_to};
use ra_log::{LogRows, write_entries};
use ra_serve::{PortFault, RepoPort, ServeFault, asked};
use ra_wire::reply_writer::write_done;
use std::alloc::Global;
use std::io::{BufWriter, Write};

/// How many bytes of a log are kept back at most until they are written.
pub const ROOM: usize = 16_384;

/// The places of which a log is told, its range, and what it looks at.
#[derive(Drop)]
pub struct LogSought {
    places: Vec<Place>,
    range: LogRange,
    rows: LogRows,
}

/// Answers `log`.
pub fn get_log<P: RepoPort, W: Write + Drop>(
    alloc: Global,
    port: &mut P,
    place: &SessionUrl,
    order: &LogOrder,
    out: W,
) -> Result<W, ServeFault>
    ensures told { Replies P.RepoPort W.Write port.old port.new out (place_as place.now)
        (Log (log_as order.now)) result }
    ensures adds { GivesMore W.contents out result }
    ensures stays { PortStays P.RepoPort port.old port.new }
{
    match seek(alloc, port, &place.path, order) {
        Ok(sought) => tell_sought(alloc, &sought, order, out),
        Err(stop) => tell_behind_last(stop, out),
    }
}

// What is looked for.
fn seek<P: RepoPort>(
    alloc: Global,
    port: &mut P,
    base: &NodePath,
    order: &LogOrder,
) -> Result<LogSought, Stop>
    ensures found { SeeksLog P.RepoPort port.old port.new base.now order.now result }
    ensures stays { PortStays P.RepoPort port.old port.new }
{
    match ends(port, order.start, order.end) {
        Ok((first, last)) => seek_between(alloc, port, base, order, first, last),
        Err(fault) => Err(stopped(fault)),
    }
}

/// The first and the last revision of a range.
pub fn ends<P: RepoPort>(
    port: &mut P,
    start: Option<u64>,
    end: Option<u64>,
) -> Result<(RevNo, RevNo), PortFault>
    ensures first { (x : Repository) → P.repository port.old ≡ Some x → IfOk result (λ r. r.0 ≡ asked x start) }
    ensures last { (x : Repository) → P.repository port.old ≡ Some x → IfOk result (λ r. r.1 ≡ asked x end) }
    ensures refused { RefusesEnds P.RepoPort port.old port.new start end result }
    ensures stays { PortStays P.RepoPort port.old port.new }
{
    let first = match asked(port, start) {
        Ok(first) => first,
        Err(fault) => return Err(fault),
    };
    match asked(port, end) {
        Ok(last) => Ok((first, last)),
        Err(fault) => Err(fault),
    }
}

// What is looked for from one revision to another.
fn seek_between<P: RepoPort>(
    alloc: Global,
    port: &mut P,
    base: &NodePath,
    order: &LogOrder,
    first: RevNo,
    last: RevNo,
) -> Result<LogSought, Stop>
    ensures found { SeeksLogBetween P.RepoPort port.old port.new base.now order.now first last result }
    ensures stays { PortStays P.RepoPort port.old port.new }
{
    let highest = newer(first, last);
    match places_at(alloc, port, base, order.paths.as_slice(), highest) {
        Ok(places) => {
            let range = LogRange {
                first,
                last,
                limit: order.limit,
                crosses_copies: !order.strict,
            };
            with_rows(alloc, port, highest, order.changed_paths, range, places)
        }
        Err(stop) => Err(stop),
    }
}

// The places of paths behind another in a revision, where something stands at each.
fn places_at<P: RepoPort>(
    alloc: Global,
    port: &mut P,
    base: &NodePath,
    paths: &[NodePath],
    number: RevNo,
) -> Result<Vec<Place>, Stop>
    ensures found { FindsPlacesAt P.RepoPort port.old port.new number (paths_below base.now paths.now) result }
    ensures stays { PortStays P.RepoPort port.old port.new }
{
    match port.tree(number) {
        Ok(tree) => places_in(alloc, &tree, number, base, paths),
        Err(fault) => Err(stopped(fault)),
    }
}

// The same of the revision's tree. No path stands for the root.
fn places_in(
    alloc: Global,
    tree: &Tree,
    number: RevNo,
    base: &NodePath,
    paths: &[NodePath],
) -> Result<Vec<Place>, Stop>
    ensures { AllStandAt tree.now number (paths_below base.now paths.now) result }
{
    if paths.is_empty() {
        return root_in(alloc, tree, number);
    }
    each_in(alloc, tree, number, base, paths)
}

// The same of the root alone.
fn root_in(alloc: Global, tree: &Tree, number: RevNo) -> Result<Vec<Place>, Stop>
    ensures { AllStandAt tree.now number ([] ∷ []) result }
{
    let root = NodePath::root(alloc);
    let next = match place_in(alloc, tree, number, &root, &root) {
        Ok(next) => next,
        Err(stop) => return Err(stop),
    };
    let mut places = Vec::new(alloc);
    if places.push(next).is_err() {
        return Err(Stop::OutOfMemory);
    }
    Ok(places)
}

// The same of paths, one after another.
fn each_in(
    alloc: Global,
    tree: &Tree,
    number: RevNo,
    base: &NodePath,
    paths: &[NodePath],
) -> Result<Vec<Place>, Stop>
    ensures { AllStandAt tree.now number (map (λ q. base.now ++ q) paths.now) result }
{
    let mut places = Vec::new(alloc);
    for path in paths {
        let next = match place_in(alloc, tree, number, base, path) {
            Ok(next) => next,
            Err(stop) => return Err(stop),
        };
        if places.push(next).is_err() {
            return Err(Stop::OutOfMemory);
        }
    }
    Ok(places)
}

// Places and a range, with what a log looks at up to a revision.
fn with_rows<P: RepoPort>(
    alloc: Global,
    port: &mut P,
    last: RevNo,
    wanted: bool,
    range: LogRange,
    places: Vec<Place>,
) -> Result<LogSought, Stop>
    ensures found { SeeksLogOf P.RepoPort port.old port.new last wanted range places.items result }
    ensures stays { PortStays P.RepoPort port.old port.new }
{
    match rows_at(alloc, port, last, wanted) {
        Ok(rows) => Ok(LogSought {
            places,
            range,
            rows,
        }),
        Err(stop) => Err(stop),
    }
}

/// What a log looks at, up to a revision.
pub fn rows_at<P: RepoPort>(
    alloc: Global,
    port: &mut P,
    last: RevNo,
    wanted: bool,
) -> Result<LogRows, Stop>
    ensures found { Finds P.RepoPort (λ x. no_revision x last) (λ x r. AreRows x last wanted r)
        port.old port.new result }
    ensures stays { PortStays P.RepoPort port.old port.new }
{
    let sets = match shared(alloc, port, last) {
        Ok(sets) => sets,
        Err(stop) => return Err(stop),
    };
    let props = match shared_props(alloc, port, last) {
        Ok(props) => props,
        Err(stop) => return Err(stop),
    };
    match shared_trees(alloc, port, last, wanted) {
        Ok(trees) => Ok(LogRows { sets, props, trees }),
        Err(stop) => Err(stop),
    }
}

// The properties of the revisions from 0 up to one.
fn shared_props<P: RepoPort>(alloc: Global, port: &mut P, last: RevNo) -> Result<Vec<Props>, Stop>
    ensures found { FindsUpTo P.RepoPort port.old port.new last (λ x. props_of x.revisions) result }
    ensures stays { PortStays P.RepoPort port.old port.new }
{
    match props_up_to(alloc, port, last) {
        Ok(props) => Ok(props),
        Err(SetsStop::Port(fault)) => Err(stopped(fault)),
        Err(SetsStop::OutOfMemory) => Err(Stop::OutOfMemory),
    }
}

// Their trees.
fn all_trees<P: RepoPort>(alloc: Global, port: &mut P, last: RevNo) -> Result<Vec<Tree>, Stop>
    ensures found { FindsUpTo P.RepoPort port.old port.new last (λ x. trees_of x.revisions) result }
    ensures stays { PortStays P.RepoPort port.old port.new }
{
    match trees_up_to(alloc, port, last) {
        Ok(trees) => Ok(trees),
        Err(SetsStop::Port(fault)) => Err(stopped(fault)),
        Err(SetsStop::OutOfMemory) => Err(Stop::OutOfMemory),
    }
}

// The same where they are wanted, and none where they aren't, of a revision that is there.
fn shared_trees<P: RepoPort>(
    alloc: Global,
    port: &mut P,
    last: RevNo,
    wanted: bool,
) -> Result<Vec<Tree>, Stop>
    ensures found { FindsIn P.RepoPort port.old port.new last
        (λ x v. v.items ≡ (if wanted then take (suc last) (trees_of x.revisions) else [])) result }
    ensures stays { PortStays P.RepoPort port.old port.new }
{
    if wanted {
        return all_trees(alloc, port, last);
    }
    Ok(Vec::new(alloc))
}

// Tells what is looked for.
fn tell_sought<W: Write + Drop>(
    alloc: Global,
    sought: &LogSought,
    order: &LogOrder,
    out: W,
) -> Result<W, ServeFault>
    ensures { IfOk result (λ w. TellsLogged (log_as order.now) sought.now (W.contents out) (W.contents w)) }
{
    let sets = SetRow {
        row: &sought.rows.sets,
    };
    match revisions_told(alloc, &sets, &sought.places, &sought.range) {
        Ok(numbers) => tell_entries(alloc, order, &sought.rows, &numbers, out),
        Err(HistoryFault::TooLong) => tell_behind_last(Stop::Denied(Denial::NoPath), out),
        Err(HistoryFault::OutOfMemory) => Err(ServeFault::OutOfMemory),
    }
}

// Tells the entries of these revisions, and that they are all. Of their many short pieces so much is kept back.
fn tell_entries<W: Write + Drop>(
    alloc: Global,
    order: &LogOrder,
    rows: &LogRows,
    numbers: &[u16],
    out: W,
) -> Result<W, ServeFault>
    ensures { TellsBytes W.Write out (ended (entries_in (log_as order.now) rows.now numbers.now)) result }
{
    let Ok(kept) = BufWriter::with_capacity(alloc, ROOM, out) else {
        return Err(ServeFault::OutOfMemory);
    };
    match tell_pieces(alloc, order, rows, numbers, kept) {
        Ok(kept) => written(kept),
        Err(fault) => Err(fault),
    }
}

/// Writes what is kept back.
pub fn written<W: Write + Drop>(kept: BufWriter<W>) -> Result<W, ServeFault>
    ensures { IfOk result (λ w. Keeps (writer_contents W.contents kept) (W.contents w)) }
{
    match kept.into_inner() {
        Ok(out) => Ok(out),
        Err(_) => Err(ServeFault::WriteFailed),
    }
}

// Tells the same piece by piece.
fn tell_pieces<W: Write + Drop>(
    alloc: Global,
    order: &LogOrder,
    rows: &LogRows,
    numbers: &[u16],
    out: W,
) -> Result<W, ServeFault>
    ensures { TellsBytes W.Write out (ended (entries_in (log_as order.now) rows.now numbers.now)) result }
{
    let mut out = out;
    write_entries(alloc, &mut out, order, rows, numbers)?;
    write_last(&mut out)?;
    write_done(&mut out)?;
    Ok(out)
}
