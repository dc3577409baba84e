//! Where a node stood in other revisions.

ghost use Rattle.std.specs.Prelude.{◌≡◌, ◌++◌, is_none, true, Some, IfOk, IfErr};
ghost use Rattle.node_base.specs.Limits.{fits};
ghost use Rattle.std.specs.FinMap as finite;
ghost use Rattle.repo_core.specs.Repository.{Repository};
ghost use Rattle.browse_wire.specs.Asks.{Locations};
ghost use Rattle.path_history.specs.Places.{place};
ghost use Rattle.ra_serve.specs.Tellings.{GivesMore};
ghost use Rattle.ra_denial.specs.Denials.{no_revision};
ghost use Rattle.ra_denial.specs.Places.{place_as};
ghost use Rattle.ra_denial.specs.Stops.{Denies, Finds, PortStays};
ghost use Rattle.ra_denial.specs.Writing.{TellsBytes};
ghost use Rattle.ra_browse.specs.Histories.{newer, newest, places_told};
ghost use Rattle.ra_browse.specs.Answers.{stood_denied};
ghost use Rattle.ra_browse.specs.Seeking.{FindsUpTo, StandsAt, SeeksPlaces, WithSets};
ghost use Rattle.ra_browse.specs.Tellings.{IsSought, TellsLocations};
ghost use Rattle.ra_browse.specs.Writing.{Replies, ended};
ghost use Rattle.ra_item.specs.Writing.{Writes};

use browse_wire::told::{write_last, write_location};
use browse_wire::url::SessionUrl;
use dump_load::ChangeSet;
use node_base::{NodePath, RevNo};
use path_history::{HistoryFault, Place, SetRow, joined};
use path_tree::Tree;
use ra_denial::{Denial, Stop, stopped, tell_behind_last};
use ra_history::{SetsStop, locations_of, sets_up_to};
use ra_serve::{RepoPort, ServeFault, revision, tree_asked};
use ra_wire::reply_writer::write_done;
use std::alloc::Global;
use std::io;
use std::io::Write;

/// A place, the revisions for which it is asked where what stands there stood, and the sets up to the newest of all.
#[derive(Drop)]
pub struct Sought {
    from: Place,
    numbers: Vec<RevNo>,
    sets: Vec<ChangeSet>,
}

/// Answers `get-locations`.
pub fn get_locations<P: RepoPort, W: Write + Drop>(
    alloc: Global,
    port: &mut P,
    place: &SessionUrl,
    path: &NodePath,
    peg: u64,
    numbers: &[u64],
    out: W,
) -> Result<W, ServeFault>
    ensures told { Replies P.RepoPort W.Write port.old port.new out (place_as place.now)
        (Locations path.now peg numbers.now) result }
    ensures adds { GivesMore W.contents out result }
    ensures stays { PortStays P.RepoPort port.old port.new }
{
    match seek(alloc, port, &place.path, path, peg, numbers) {
        Ok(sought) => tell_sought(alloc, &sought, out),
        Err(stop) => tell_behind_last(stop, out),
    }
}

// What is looked for.
fn seek<P: RepoPort>(
    alloc: Global,
    port: &mut P,
    base: &NodePath,
    path: &NodePath,
    peg: u64,
    numbers: &[u64],
) -> Result<Sought, Stop>
    ensures found { SeeksPlaces P.RepoPort port.old port.new (base.now ++ path.now) peg numbers.now result }
    ensures stays { PortStays P.RepoPort port.old port.new }
{
    match stood(alloc, port, base, path, peg) {
        Ok(from) => seek_from(alloc, port, from, numbers),
        Err(stop) => Err(stop),
    }
}

// The same of a place.
fn seek_from<P: RepoPort>(
    alloc: Global,
    port: &mut P,
    from: Place,
    numbers: &[u64],
) -> Result<Sought, Stop>
    ensures found { Finds P.RepoPort (λ x. no_revision x (newest from.revision numbers.now))
        (λ x s. IsSought x from numbers.now s) port.old port.new result }
    ensures stays { PortStays P.RepoPort port.old port.new }
{
    match reached(alloc, port, from.revision, numbers) {
        Ok((numbers, sets)) => Ok(Sought {
            from,
            numbers,
            sets,
        }),
        Err(stop) => Err(stop),
    }
}

// The place of a path behind another in a revision, where something stands there.
fn stood<P: RepoPort>(
    alloc: Global,
    port: &mut P,
    base: &NodePath,
    path: &NodePath,
    number: u64,
) -> Result<Place, Stop>
    ensures found { Finds P.RepoPort (λ x. stood_denied x (base.now ++ path.now) number)
        (λ x a. a ≡ place number (base.now ++ path.now)) port.old port.new result }
    ensures stays { PortStays P.RepoPort port.old port.new }
{
    match tree_asked(port, Some(number)) {
        Ok((revision, tree)) => place_in(alloc, &tree, revision, base, path),
        Err(fault) => Err(stopped(fault)),
    }
}

/// The place of a path behind another in a revision's tree, where something stands there.
pub fn place_in(
    alloc: Global,
    tree: &Tree,
    revision: RevNo,
    base: &NodePath,
    path: &NodePath,
) -> Result<Place, Stop>
    ensures { StandsAt tree.now (base.now ++ path.now) (place revision (base.now ++ path.now)) result }
{
    match path_in(alloc, tree, base, path) {
        Ok(path) => Ok(Place { path, revision }),
        Err(stop) => Err(stop),
    }
}

// A path behind another, where something stands there.
fn path_in(alloc: Global, tree: &Tree, base: &NodePath, path: &NodePath) -> Result<NodePath, Stop>
    ensures { StandsAt tree.now (base.now ++ path.now) (base.now ++ path.now) result }
{
    let whole = match joined(alloc, base, path.names()) {
        Ok(whole) => whole,
        Err(HistoryFault::TooLong) => return Err(Stop::Denied(Denial::NoPath)),
        Err(HistoryFault::OutOfMemory) => return Err(Stop::OutOfMemory),
    };
    if is_empty_at(tree, &whole) {
        return Err(Stop::Denied(Denial::NoPath));
    }
    Ok(whole)
}

// Whether nothing stands at a path.
fn is_empty_at(tree: &Tree, path: &NodePath) -> bool
    ensures empty { result ≡ is_none (finite.get tree.now path.now) }
    ensures small { fits path.now ≡ true }
{
    tree.get(path.names()).is_none()
}

// The revisions of these numbers, and the sets up to the newest of them and of another.
fn reached<P: RepoPort>(
    alloc: Global,
    port: &mut P,
    peg: RevNo,
    numbers: &[u64],
) -> Result<(Vec<RevNo>, Vec<ChangeSet>), Stop>
    ensures found { WithSets P.RepoPort port.old port.new (newest peg numbers.now) numbers.now result }
    ensures stays { PortStays P.RepoPort port.old port.new }
{
    match revisions(alloc, port, peg, numbers) {
        Ok((numbers, last)) => with_sets(alloc, port, last, numbers),
        Err(stop) => Err(stop),
    }
}

// Revisions, and the sets up to another.
fn with_sets<P: RepoPort>(
    alloc: Global,
    port: &mut P,
    last: RevNo,
    numbers: Vec<RevNo>,
) -> Result<(Vec<RevNo>, Vec<ChangeSet>), Stop>
    ensures found { WithSets P.RepoPort port.old port.new last numbers.items result }
    ensures stays { PortStays P.RepoPort port.old port.new }
{
    match shared(alloc, port, last) {
        Ok(sets) => Ok((numbers, sets)),
        Err(stop) => Err(stop),
    }
}

// The revisions of these numbers, and the newest of them and of another.
fn revisions<P: RepoPort>(
    alloc: Global,
    port: &P,
    peg: RevNo,
    numbers: &[u64],
) -> Result<(Vec<RevNo>, RevNo), Stop>
    ensures numbers { IfOk result (λ r. r.0.items ≡ numbers.now) }
    ensures newest { IfOk result (λ r. r.1 ≡ newest peg numbers.now) }
    ensures above { (x : Repository) → P.repository port.now ≡ Some x
        → IfErr result (Denies (no_revision x (newest peg numbers.now))) }
{
    let mut told = Vec::new(alloc);
    let mut last = peg;
    for number in numbers {
        let next = match revision(port, *number) {
            Ok(next) => next,
            Err(_) => return Err(Stop::Denied(Denial::NoRevision)),
        };
        if told.push(next).is_err() {
            return Err(Stop::OutOfMemory);
        }
        last = newer(last, next);
    }
    Ok((told, last))
}

/// The newer of two revisions.
pub fn newer(one: RevNo, other: RevNo) -> RevNo
    ensures { result ≡ newer one other }
{
    if one.get() < other.get() { other } else { one }
}

/// The sets of the revisions from 0 up to one.
pub fn shared<P: RepoPort>(alloc: Global, port: &mut P, last: RevNo) -> Result<Vec<ChangeSet>, Stop>
    ensures found { FindsUpTo P.RepoPort port.old port.new last (λ x. x.sets) result }
    ensures stays { PortStays P.RepoPort port.old port.new }
{
    match sets_up_to(alloc, port, last) {
        Ok(sets) => Ok(sets),
        Err(SetsStop::Port(fault)) => Err(stopped(fault)),
        Err(SetsStop::OutOfMemory) => Err(Stop::OutOfMemory),
    }
}

// Tells where what is looked for stood.
fn tell_sought<W: Write + Drop>(alloc: Global, sought: &Sought, out: W) -> Result<W, ServeFault>
    ensures { IfOk result (λ w. TellsLocations sought.now (W.contents out) (W.contents w)) }
{
    let sets = SetRow { row: &sought.sets };
    match locations_of(alloc, &sets, &sought.from, &sought.numbers) {
        Ok(places) => tell_places(&places, out),
        Err(HistoryFault::TooLong) => tell_behind_last(Stop::Denied(Denial::NoPath), out),
        Err(HistoryFault::OutOfMemory) => Err(ServeFault::OutOfMemory),
    }
}

// Tells places, and that they are all.
fn tell_places<W: Write + Drop>(places: &[Place], out: W) -> Result<W, ServeFault>
    ensures { TellsBytes W.Write out (ended (places_told places.now)) result }
{
    let mut out = out;
    write_places(&mut out, places)?;
    write_last(&mut out)?;
    write_done(&mut out)?;
    Ok(out)
}

fn write_places<W: Write>(out: &mut W, places: &[Place]) -> io::Result<()>
    ensures { Writes W.Write out.old out.new (places_told places.now) result }
{
    for place in places {
        write_location(out, u64::from(place.revision.get()), &place.path)?;
    }
    Ok(())
}
