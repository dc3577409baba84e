//! The versions of a file.

ghost use Rattle.std.specs.Prelude.{◌≡◌, ◌++◌, Bool, take, reverse, is_none, true, IfOk, IfErr};
ghost use Rattle.std.specs.FinMap as finite;
ghost use Rattle.browse_wire.specs.Asks.{FileRevs};
ghost use Rattle.path_history.specs.Histories.{IsTooLong};
ghost use Rattle.path_history.specs.declared.fault.HistoryFault.TheVariants.{TooLong};
ghost use Rattle.ra_serve.specs.Tellings.{GivesMore};
ghost use Rattle.ra_denial.specs.Places.{place_as};
ghost use Rattle.ra_denial.specs.Stops.{PortStays};
ghost use Rattle.ra_denial.specs.Writing.{TellsBytes};
ghost use Rattle.ra_browse.specs.Histories.{down_to, AreVersions};
ghost use Rattle.ra_browse.specs.Answers.{file_denied};
ghost use Rattle.ra_browse.specs.Seeking.{SeeksVersions, SeeksVersionsBetween, SeeksVersionsOf};
ghost use Rattle.ra_browse.specs.Seeking.{FindsVersion, HasVersion};
ghost use Rattle.ra_browse.specs.Tellings.{TellsVersions};
ghost use Rattle.ra_browse.specs.Writing.{Replies, ended};
ghost use Rattle.ra_log.specs.Rows.{versions_in};

use crate::location::{newer, place_in};
use crate::log::{ROOM, ends, rows_at, written};
use browse_wire::told::write_last;
use browse_wire::url::SessionUrl;
use node_base::{NodePath, RevNo};
use path_history::{Asked, HistoryFault, Place, SetRow, history_of};
use path_tree::Tree;
use ra_denial::{Denial, Stop, stopped, tell_behind_last};
use ra_log::{LogRows, write_versions};
use ra_serve::{RepoPort, ServeFault};
use ra_wire::reply_writer::write_done;
use std::alloc::Global;
use std::io::{BufWriter, Write};

/// The place of a file, the revision from which on its versions are told, and what they are told by, up to the place's
/// revision.
#[derive(Drop)]
pub struct VersionsSought {
    from: Place,
    first: RevNo,
    rows: LogRows,
}

/// Answers `get-file-revs`.
pub fn get_file_revs<P: RepoPort, W: Write + Drop>(
    alloc: Global,
    port: &mut P,
    place: &SessionUrl,
    path: &NodePath,
    start: Option<u64>,
    end: Option<u64>,
    out: W,
) -> Result<W, ServeFault>
    ensures told { (merged : Bool) → Replies P.RepoPort W.Write port.old port.new out (place_as place.now)
        (FileRevs path.now start end merged) result }
    ensures adds { GivesMore W.contents out result }
    ensures stays { PortStays P.RepoPort port.old port.new }
{
    match seek(alloc, port, &place.path, path, start, end) {
        Ok(sought) => tell_sought(alloc, &sought, out),
        Err(stop) => tell_behind_last(stop, out),
    }
}

// What is looked for.
fn seek<P: RepoPort>(
    alloc: Global,
    port: &mut P,
    base: &NodePath,
    path: &NodePath,
    start: Option<u64>,
    end: Option<u64>,
) -> Result<VersionsSought, Stop>
    ensures found { SeeksVersions P.RepoPort port.old port.new (base.now ++ path.now) start end result }
    ensures stays { PortStays P.RepoPort port.old port.new }
{
    match ends(port, start, end) {
        Ok((first, last)) => seek_between(alloc, port, base, path, first, last),
        Err(fault) => Err(stopped(fault)),
    }
}

// What is looked for from one revision to another.
fn seek_between<P: RepoPort>(
    alloc: Global,
    port: &mut P,
    base: &NodePath,
    path: &NodePath,
    first: RevNo,
    last: RevNo,
) -> Result<VersionsSought, Stop>
    ensures found { SeeksVersionsBetween P.RepoPort port.old port.new (base.now ++ path.now) first last result }
    ensures stays { PortStays P.RepoPort port.old port.new }
{
    match file_at(alloc, port, base, path, first, last) {
        Ok(from) => with_rows(alloc, port, from, first),
        Err(stop) => Err(stop),
    }
}

// The place of a file, with what its versions are told by.
fn with_rows<P: RepoPort>(
    alloc: Global,
    port: &mut P,
    from: Place,
    first: RevNo,
) -> Result<VersionsSought, Stop>
    ensures found { SeeksVersionsOf P.RepoPort port.old port.new from first result }
    ensures stays { PortStays P.RepoPort port.old port.new }
{
    match rows_at(alloc, port, from.revision, true) {
        Ok(rows) => Ok(VersionsSought { from, first, rows }),
        Err(stop) => Err(stop),
    }
}

// The place of a path behind another in the newer of two revisions, where a file stands there.
fn file_at<P: RepoPort>(
    alloc: Global,
    port: &mut P,
    base: &NodePath,
    path: &NodePath,
    first: RevNo,
    last: RevNo,
) -> Result<Place, Stop>
    ensures found { FindsVersion P.RepoPort port.old port.new (base.now ++ path.now) first last result }
    ensures stays { PortStays P.RepoPort port.old port.new }
{
    let highest = newer(first, last);
    match port.tree(highest) {
        Ok(tree) => file_in(alloc, &tree, base, path, first, last),
        Err(fault) => Err(stopped(fault)),
    }
}

// The same of the revision's tree.
fn file_in(
    alloc: Global,
    tree: &Tree,
    base: &NodePath,
    path: &NodePath,
    first: RevNo,
    last: RevNo,
) -> Result<Place, Stop>
    ensures { HasVersion tree.now (base.now ++ path.now) first last result }
{
    if last.get() < first.get() {
        return Err(Stop::Denied(Denial::Unsupported));
    }
    let place = match place_in(alloc, tree, newer(first, last), base, path) {
        Ok(place) => place,
        Err(stop) => return Err(stop),
    };
    if !is_file_at(tree, &place.path) {
        return Err(Stop::Denied(Denial::NotFile));
    }
    Ok(place)
}

// Whether a file stands at a path, where something does.
fn is_file_at(tree: &Tree, path: &NodePath) -> bool
    ensures { result ≡ is_none (file_denied (finite.get tree.now path.now)) }
{
    match tree.get(path.names()) {
        Some(node) => node.text.is_some(),
        None => false,
    }
}

// Tells what is looked for.
fn tell_sought<W: Write + Drop>(
    alloc: Global,
    sought: &VersionsSought,
    out: W,
) -> Result<W, ServeFault>
    ensures { IfOk result (λ w. TellsVersions sought.now (W.contents out) (W.contents w)) }
{
    match places_of(alloc, sought) {
        Ok(places) => tell_versions(alloc, &sought.rows, &places, out),
        Err(HistoryFault::TooLong) => tell_behind_last(Stop::Denied(Denial::NoPath), out),
        Err(HistoryFault::OutOfMemory) => Err(ServeFault::OutOfMemory),
    }
}

// Where the file was changed, oldest first.
fn places_of(alloc: Global, sought: &VersionsSought) -> Result<Vec<Place>, HistoryFault>
    ensures told { IfOk result (λ v. AreVersions sought.now.rows.sets.items sought.now.from sought.now.first v.items) }
    ensures refused { IfErr result (λ e. e ≡ TooLong → IsTooLong true sought.now.rows.sets.items sought.now.from) }
{
    let sets = SetRow {
        row: &sought.rows.sets,
    };
    let asked = Asked {
        lowest: RevNo::ZERO,
        highest: sought.from.revision,
        limit: 0,
        crosses_copies: true,
    };
    match history_of(alloc, &sets, sought.from.copy(alloc)?, &asked) {
        Ok(history) => Ok(from_oldest(sought.first, history)),
        Err(fault) => Err(fault),
    }
}

// Of a history, newest first, what reaches down to a revision, oldest first.
fn from_oldest(first: RevNo, history: Vec<Place>) -> Vec<Place>
    ensures { result.items ≡ reverse (down_to first history.items) }
{
    let mut places = history;
    let count = count_down_to(first, places.as_slice());
    places.truncate(count);
    places.as_mut_slice().reverse();
    places
}

// How many places of a history, newest first, reach down to a revision.
fn count_down_to(first: RevNo, places: &[Place]) -> usize
    ensures { take result places.now ≡ down_to first places.now }
{
    let mut count = 0;
    for place in places {
        count += 1;
        if place.revision.get() <= first.get() {
            return count;
        }
    }
    count
}

// Tells the versions at these places, and that they are all. Of their many short pieces so much is kept back.
fn tell_versions<W: Write + Drop>(
    alloc: Global,
    rows: &LogRows,
    places: &[Place],
    out: W,
) -> Result<W, ServeFault>
    ensures { TellsBytes W.Write out (ended (versions_in rows.now places.now)) result }
{
    let Ok(kept) = BufWriter::with_capacity(alloc, ROOM, out) else {
        return Err(ServeFault::OutOfMemory);
    };
    match tell_pieces(rows, places, kept) {
        Ok(kept) => written(kept),
        Err(fault) => Err(fault),
    }
}

// Tells the same piece by piece.
fn tell_pieces<W: Write + Drop>(rows: &LogRows, places: &[Place], out: W) -> Result<W, ServeFault>
    ensures { TellsBytes W.Write out (ended (versions_in rows.now places.now)) result }
{
    let mut out = out;
    write_versions(&mut out, rows, places)?;
    write_last(&mut out)?;
    write_done(&mut out)?;
    Ok(out)
}
