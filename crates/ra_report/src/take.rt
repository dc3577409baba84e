//! One command of a report behind its first.

ghost use Rattle.std.specs.Prelude.{◌≡◌, ◌++◌, [], ◌∷◌, None};
ghost use Rattle.dump_load.specs.Faults.{fault_if};
ghost use Rattle.node_base.specs.Path.{same_path};
ghost use Rattle.tree_reports.specs.Reports.{Answers, content_at};
ghost use Rattle.tree_reports.specs.Trees.{Reports};
ghost use Rattle.browse_wire.specs.Reports.{report_as, reported_as, LinkPath, SetPath};
ghost use Rattle.ra_denial.specs.Places.{place_as};
ghost use Rattle.ra_denial.specs.Stops.{Decides, PortStays};
ghost use Rattle.ra_denial.specs.declared.denial.Denial.TheVariants.{BadReport};
ghost use Rattle.ra_report.specs.Given.{GivesPath, Places, PassesOver, PassesLink};
ghost use Rattle.ra_report.specs.Reports.{links_denied, placing_denied, shown_fault, error_stop, switched, is_beneath, is_void};
ghost use Rattle.ra_report.specs.Shown.{brought};
ghost use Rattle.ra_report.specs.Taking.{known_in, Heeds, Takes, TakesLink, Brings};

use crate::shown::{Shown, shown_of};
use crate::switched::{Switched, lying};
use browse_wire::report::{ReportCommand, Reported};
use browse_wire::url::SessionUrl;
use node_base::{NodeName, NodePath};
use path_history::{HistoryFault, joined};
use path_tree::Tree;
use ra_denial::{Denial, Stop, path_at, stopped};
use ra_serve::{RepoPort, tree_asked};
use std::alloc::Global;
use tree_reports::{Report, ReportError};

/// The most paths that a working copy may have switched.
const MOST_LINKS: usize = 1024;

/// Takes a command of the folder, or of a target in it. Below a target that isn't there nothing is, whatever is set or
/// linked: `svn diff -r N` of a path that was copied in the working copy alone links its own name there.
pub fn heed<P: RepoPort>(
    alloc: Global,
    port: &mut P,
    place: &SessionUrl,
    target: &NodePath,
    report: &mut Report,
    switches: &mut Vec<Switched>,
    command: &ReportCommand,
) -> Result<(), Stop>
    ensures found { Heeds P.RepoPort port.old port.new (known_in report.old switches.old.items)
        (known_in report.new switches.new.items) place.now target.now command.now result }
    ensures stays { PortStays P.RepoPort port.old port.new }
{
    if is_void(report, target, command) {
        return pass_over(alloc, place, switches, command);
    }
    take(alloc, port, place, report, switches, command)
}

// Takes of a command that sets or links a path there where a link leads.
fn pass_over(
    alloc: Global,
    place: &SessionUrl,
    switches: &mut Vec<Switched>,
    command: &ReportCommand,
) -> Result<(), Stop>
    ensures { PassesOver switches.old.items switches.new.items (place_as place.now) command.now result }
{
    match command {
        ReportCommand::LinkPath(path, url) => {
            pass_link(alloc, place, switches, &path.path, url.as_slice())
        }
        _ => Ok(()),
    }
}

// The same of a link.
fn pass_link(
    alloc: Global,
    place: &SessionUrl,
    switches: &mut Vec<Switched>,
    path: &NodePath,
    url: &[u8],
) -> Result<(), Stop>
    ensures { PassesLink switches.old.items switches.new.items (place_as place.now) path.now url.now result }
{
    if let Some(why) = links_denied(switches.as_slice()) {
        return Err(Stop::Denied(why));
    }
    match path_at(alloc, place, url) {
        Ok(source) => push_switched(alloc, switches, path, source),
        Err(stop) => Err(stop),
    }
}

// Whether a command sets or links a path below a target that isn't there.
fn is_void(report: &Report, target: &NodePath, command: &ReportCommand) -> bool
    ensures { result ≡ is_void target.now (content_at report.now) (report_as command.now) }
{
    match command {
        ReportCommand::SetPath(path) => is_beneath(report, target, &path.path),
        ReportCommand::LinkPath(path, _) => is_beneath(report, target, &path.path),
        ReportCommand::DeletePath(_) => false,
        ReportCommand::FinishReport => false,
        ReportCommand::AbortReport => false,
    }
}

// Whether a path is below a target that isn't there.
fn is_beneath(report: &Report, target: &NodePath, path: &NodePath) -> bool
    ensures { result ≡ is_beneath target.now (content_at report.now) path.now }
{
    report.tree().get(target.names()).is_none() && !path.compare(target).is_eq()
}

// The same of one that counts.
fn take<P: RepoPort>(
    alloc: Global,
    port: &mut P,
    place: &SessionUrl,
    report: &mut Report,
    switches: &mut Vec<Switched>,
    command: &ReportCommand,
) -> Result<(), Stop>
    ensures found { Takes P.RepoPort port.old port.new (known_in report.old switches.old.items)
        (known_in report.new switches.new.items) place.now (report_as command.now) result }
    ensures stays { PortStays P.RepoPort port.old port.new }
{
    match command {
        ReportCommand::SetPath(path) => {
            set_path(alloc, port, place, report, switches.as_slice(), path)
        }
        ReportCommand::DeletePath(path) => delete_path(alloc, report, path),
        ReportCommand::LinkPath(path, url) => {
            link_path(alloc, port, place, report, switches, path, url.as_slice())
        }
        ReportCommand::FinishReport => Err(Stop::Denied(Denial::BadReport)),
        ReportCommand::AbortReport => Err(Stop::Denied(Denial::BadReport)),
    }
}

// A path as it stands where it lies.
fn set_path<P: RepoPort>(
    alloc: Global,
    port: &mut P,
    place: &SessionUrl,
    report: &mut Report,
    switches: &[Switched],
    path: &Reported,
) -> Result<(), Stop>
    ensures found { Takes P.RepoPort port.old port.new (known_in report.old switches.now)
        (known_in report.new switches.now) place.now (SetPath (reported_as path.now)) result }
    ensures stays { PortStays P.RepoPort port.old port.new }
{
    match lying(alloc, &place.path, switches, &path.path) {
        Ok(source) => bring(alloc, port, report, path, &source),
        Err(stop) => Err(stop),
    }
}

// A path as it stands at another URL: it is switched.
fn link_path<P: RepoPort>(
    alloc: Global,
    port: &mut P,
    place: &SessionUrl,
    report: &mut Report,
    switches: &mut Vec<Switched>,
    path: &Reported,
    url: &[u8],
) -> Result<(), Stop>
    ensures found { Takes P.RepoPort port.old port.new (known_in report.old switches.old.items)
        (known_in report.new switches.new.items) place.now (LinkPath (reported_as path.now) url.now) result }
    ensures stays { PortStays P.RepoPort port.old port.new }
{
    if let Some(why) = links_denied(switches.as_slice()) {
        return Err(Stop::Denied(why));
    }
    match path_at(alloc, place, url) {
        Ok(source) => switch(alloc, port, report, switches, path, source),
        Err(stop) => Err(stop),
    }
}

// The same of the URL's path.
fn switch<P: RepoPort>(
    alloc: Global,
    port: &mut P,
    report: &mut Report,
    switches: &mut Vec<Switched>,
    path: &Reported,
    source: NodePath,
) -> Result<(), Stop>
    ensures found { TakesLink P.RepoPort port.old port.new (known_in report.old switches.old.items)
        (known_in report.new switches.new.items) path.now source result }
    ensures stays { PortStays P.RepoPort port.old port.new }
{
    match bring(alloc, port, report, path, &source) {
        Ok(()) => push_switched(alloc, switches, &path.path, source),
        Err(stop) => Err(stop),
    }
}

// Puts a switched path behind others.
fn push_switched(
    alloc: Global,
    switches: &mut Vec<Switched>,
    path: &NodePath,
    place: NodePath,
) -> Result<(), Stop>
    ensures { Decides None (λ _. switches.new.items ≡ switches.old.items ++ switched path.now place ∷ []) result }
{
    let path = match path.copy(alloc) {
        Ok(path) => path,
        Err(_) => return Err(Stop::OutOfMemory),
    };
    if switches.push(Switched { path, place }).is_err() {
        return Err(Stop::OutOfMemory);
    }
    Ok(())
}

// Nothing at a path.
fn delete_path(alloc: Global, report: &mut Report, path: &NodePath) -> Result<(), Stop>
    ensures { Places (fault_if (same_path path.now []) BadReport) report.old report.new path.now (λ _. None) result }
{
    match report.delete_path(alloc, path) {
        Ok(()) => Ok(()),
        Err(error) => Err(stop_of(error)),
    }
}

// What stands at a source of a reported revision.
fn bring<P: RepoPort>(
    alloc: Global,
    port: &mut P,
    report: &mut Report,
    path: &Reported,
    source: &NodePath,
) -> Result<(), Stop>
    ensures found { Brings P.RepoPort port.old port.new report.old report.new path.now source.now result }
    ensures stays { PortStays P.RepoPort port.old port.new }
{
    match tree_asked(port, Some(path.revision)) {
        Ok((_, tree)) => {
            let shown = shown_of(path);
            bring_from(alloc, report, &path.path, &tree, source, shown)
        }
        Err(fault) => Err(stopped(fault)),
    }
}

/// So much of what stands at a source of a tree.
pub fn bring_from(
    alloc: Global,
    report: &mut Report,
    path: &NodePath,
    tree: &Tree,
    source: &NodePath,
    shown: Shown,
) -> Result<(), Stop>
    ensures { Places (placing_denied (content_at report.old) path.now tree.now source.now shown) report.old report.new
        path.now (brought shown tree.now source.now) result }
{
    match put(alloc, report, path, tree, source, shown) {
        Ok(()) => Ok(()),
        Err(error) => Err(stop_of(error)),
    }
}

// The same as a report's call.
fn put(
    alloc: Global,
    report: &mut Report,
    path: &NodePath,
    tree: &Tree,
    source: &NodePath,
    shown: Shown,
) -> Result<(), ReportError>
    ensures answer { Answers (shown_fault shown report.old path.now tree.now source.now) result }
    ensures ok { Reports report.old report.new path.now (brought shown tree.now source.now) result }
{
    match shown {
        Shown::Emptied => report.set_path(alloc, path, tree, source, true),
        Shown::Within(depth) => report.set_path_within(alloc, path, tree, source, depth),
        Shown::LeftOut => report.leave_out(alloc, path),
    }
}

/// A path behind the folder's.
pub fn path_in(alloc: Global, folder: &NodePath, path: &NodePath) -> Result<NodePath, Stop>
    ensures { GivesPath (folder.now ++ path.now) result }
{
    path_below(alloc, folder, path.names())
}

/// Names behind a path.
pub fn path_below(alloc: Global, front: &NodePath, rest: &[NodeName]) -> Result<NodePath, Stop>
    ensures { GivesPath (front.now ++ rest.now) result }
{
    match joined(alloc, front, rest) {
        Ok(path) => {
            // For the proof: a path is within the limits.
            path.names();
            Ok(path)
        }
        Err(HistoryFault::TooLong) => Err(Stop::Denied(Denial::NoPath)),
        Err(HistoryFault::OutOfMemory) => Err(Stop::OutOfMemory),
    }
}

// Whether no more paths may be switched.
fn links_denied(switches: &[Switched]) -> Option<Denial>
    ensures { result ≡ links_denied switches.now }
{
    if switches.len() < MOST_LINKS {
        None
    } else {
        Some(Denial::Unsupported)
    }
}

// Why a path isn't taken.
fn stop_of(error: ReportError) -> Stop
    ensures { result ≡ error_stop error }
{
    match error {
        ReportError::Root => Stop::Denied(Denial::BadReport),
        ReportError::NoFolder => Stop::Denied(Denial::BadReport),
        ReportError::NotThere => Stop::Denied(Denial::NoPath),
        ReportError::TooLong => Stop::Denied(Denial::Unsupported),
        ReportError::OutOfMemory => Stop::OutOfMemory,
    }
}
