//! What a working copy reports.

ghost use Rattle.std.specs.Prelude.{◌++◌, [], None};
ghost use Rattle.tree_reports.specs.Reports.{brought_within, content_at, placed};
ghost use Rattle.browse_wire.specs.Reports.{report_as, reported_as, SetPath};
ghost use Rattle.ra_denial.specs.Denials.{dir_denied};
ghost use Rattle.ra_denial.specs.Stops.{PortStays};
ghost use Rattle.std.specs.FinMap as finite;
ghost use Rattle.ra_report.specs.Given.{GivesReport, BeginsCopy};
ghost use Rattle.ra_report.specs.Reports.{begun, begun_denied, folder_denied, placing_denied, target_begun, target_denied};
ghost use Rattle.ra_report.specs.Shown.{bare, brought};
ghost use Rattle.ra_report.specs.Taking.{known_in, FindsCopy, FindsWhole, Begins, BeginsAt, BeginsHere};
ghost use Rattle.ra_report.specs.Taking.{GoesOn, HeedsAll};

use crate::aim::aimed_all;
use crate::folder::tree_within;
use crate::plan::WorkingCopy;
use crate::shown::{Shown, shown_of};
use crate::switched::Switched;
use crate::take::{bring_from, heed, path_in};
use browse_wire::report::{ReportCommand, Reported};
use browse_wire::url::SessionUrl;
use node_base::{NodePath, RevNo};
use path_tree::Tree;
use ra_denial::{Denial, Stop, stopped};
use ra_serve::{RepoPort, tree_asked};
use std::alloc::Global;
use tree_reports::{Depth, Report};

/// What is reported, of the folder or of a target in it.
pub fn working_copy<P: RepoPort>(
    alloc: Global,
    port: &mut P,
    place: &SessionUrl,
    target: &NodePath,
    report: &[ReportCommand],
) -> Result<WorkingCopy, Stop>
    ensures found { FindsCopy P.RepoPort port.old port.new place.now target.now report.now result }
    ensures stays { PortStays P.RepoPort port.old port.new }
{
    match aimed_all(alloc, target, report) {
        Ok(all) => whole(alloc, port, place, target, all.as_slice()),
        Err(stop) => Err(stop),
    }
}

// The same of commands with their paths behind the target.
fn whole<P: RepoPort>(
    alloc: Global,
    port: &mut P,
    place: &SessionUrl,
    target: &NodePath,
    report: &[ReportCommand],
) -> Result<WorkingCopy, Stop>
    ensures found { FindsWhole P.RepoPort port.old port.new place.now target.now report.now result }
    ensures stays { PortStays P.RepoPort port.old port.new }
{
    let Some((first, rest)) = report.split_first() else {
        return Err(Stop::Denied(Denial::BadReport));
    };
    match begun(alloc, port, place, target, first) {
        Ok(copy) => go_on(alloc, port, place, target, copy, rest),
        Err(stop) => Err(stop),
    }
}

// The folder or the target, by the first command.
fn begun<P: RepoPort>(
    alloc: Global,
    port: &mut P,
    place: &SessionUrl,
    target: &NodePath,
    command: &ReportCommand,
) -> Result<WorkingCopy, Stop>
    ensures found { Begins P.RepoPort port.old port.new place.now target.now (report_as command.now) result }
    ensures stays { PortStays P.RepoPort port.old port.new }
{
    match command {
        ReportCommand::SetPath(path) => begun_by(alloc, port, place, target, path),
        _ => Err(Stop::Denied(Denial::BadReport)),
    }
}

// The same by a path that is set.
fn begun_by<P: RepoPort>(
    alloc: Global,
    port: &mut P,
    place: &SessionUrl,
    target: &NodePath,
    path: &Reported,
) -> Result<WorkingCopy, Stop>
    ensures found { Begins P.RepoPort port.old port.new place.now target.now (SetPath (reported_as path.now)) result }
    ensures stays { PortStays P.RepoPort port.old port.new }
{
    if !path.path.compare(target).is_eq() {
        return Err(Stop::Denied(Denial::BadReport));
    }
    let shown = shown_of(path);
    begun_here(alloc, port, &place.path, target, path.revision, shown)
}

// The same where the session stands.
fn begun_here<P: RepoPort>(
    alloc: Global,
    port: &mut P,
    here: &NodePath,
    target: &NodePath,
    revision: u64,
    shown: Shown,
) -> Result<WorkingCopy, Stop>
    ensures found { BeginsHere P.RepoPort port.old port.new (here.now ++ target.now) target.now revision shown result }
    ensures stays { PortStays P.RepoPort port.old port.new }
{
    match path_in(alloc, here, target) {
        Ok(source) => begun_at(alloc, port, &source, target, revision, shown),
        Err(stop) => Err(stop),
    }
}

// The same at a source.
fn begun_at<P: RepoPort>(
    alloc: Global,
    port: &mut P,
    source: &NodePath,
    target: &NodePath,
    revision: u64,
    shown: Shown,
) -> Result<WorkingCopy, Stop>
    ensures found { BeginsAt P.RepoPort port.old port.new source.now target.now revision shown result }
    ensures stays { PortStays P.RepoPort port.old port.new }
{
    match tree_asked(port, Some(revision)) {
        Ok((base, tree)) => begun_with(alloc, base, &tree, source, target, shown),
        Err(fault) => Err(stopped(fault)),
    }
}

// The same with the revision's tree.
fn begun_with(
    alloc: Global,
    base: RevNo,
    tree: &Tree,
    source: &NodePath,
    target: &NodePath,
    shown: Shown,
) -> Result<WorkingCopy, Stop>
    ensures { BeginsCopy tree.now source.now target.now shown base result }
{
    match begun_in(alloc, tree, source, target, shown) {
        Ok(report) => Ok(WorkingCopy {
            report,
            switches: Vec::new(alloc),
            base,
        }),
        Err(stop) => Err(stop),
    }
}

// What stands at a source of a tree, as the folder or as a target.
fn begun_in(
    alloc: Global,
    tree: &Tree,
    source: &NodePath,
    target: &NodePath,
    shown: Shown,
) -> Result<Report, Stop>
    ensures { GivesReport (begun_denied target.now shown tree.now source.now)
        (begun target.now shown tree.now source.now) result }
{
    if target.is_root() {
        return folder_begun(alloc, tree, source, shown);
    }
    target_begun(alloc, tree, source, target, shown)
}

// So much of a folder of a tree, or one without what is in it.
fn folder_begun(alloc: Global, tree: &Tree, folder: &NodePath, shown: Shown) -> Result<Report, Stop>
    ensures { GivesReport (folder_denied shown (finite.get tree.now folder.now))
        (begun [] shown tree.now folder.now) result }
{
    match shown {
        Shown::Within(depth) => folder_within(alloc, tree, folder, depth),
        Shown::Emptied => bare_folder(alloc),
        Shown::LeftOut => bare_folder(alloc),
    }
}

// A folder of a tree, looked at so deep.
fn folder_within(
    alloc: Global,
    tree: &Tree,
    folder: &NodePath,
    depth: Depth,
) -> Result<Report, Stop>
    ensures { GivesReport (dir_denied (finite.get tree.now folder.now))
        (brought_within depth tree.now folder.now) result }
{
    match tree_within(alloc, tree, folder, depth) {
        Ok(tree) => Ok(Report::begin(tree)),
        Err(stop) => Err(stop),
    }
}

// A folder without what is in it.
fn bare_folder(alloc: Global) -> Result<Report, Stop>
    ensures { GivesReport None bare result }
{
    match Report::begin_empty(alloc) {
        Ok(report) => Ok(report),
        Err(_) => Err(Stop::OutOfMemory),
    }
}

// What stands at a source, at a target's name in a folder that has nothing else.
fn target_begun(
    alloc: Global,
    tree: &Tree,
    source: &NodePath,
    target: &NodePath,
    shown: Shown,
) -> Result<Report, Stop>
    ensures { GivesReport (target_denied target.now shown tree.now source.now)
        (target_begun target.now shown tree.now source.now) result }
{
    let report = match Report::begin_empty(alloc) {
        Ok(report) => report,
        Err(_) => return Err(Stop::OutOfMemory),
    };
    if tree.get(source.names()).is_none() {
        return Ok(report);
    }
    with_target(alloc, report, tree, source, target, shown)
}

// The same in a folder.
fn with_target(
    alloc: Global,
    report: Report,
    tree: &Tree,
    source: &NodePath,
    target: &NodePath,
    shown: Shown,
) -> Result<Report, Stop>
    ensures { GivesReport (placing_denied (content_at report) target.now tree.now source.now shown)
        (placed (content_at report) target.now (brought shown tree.now source.now)) result }
{
    let mut report = report;
    match bring_from(alloc, &mut report, target, tree, source, shown) {
        Ok(()) => Ok(report),
        Err(stop) => Err(stop),
    }
}

/// What is reported behind other commands.
fn go_on<P: RepoPort>(
    alloc: Global,
    port: &mut P,
    place: &SessionUrl,
    target: &NodePath,
    copy: WorkingCopy,
    rest: &[ReportCommand],
) -> Result<WorkingCopy, Stop>
    ensures found { GoesOn P.RepoPort port.old port.new copy place.now target.now rest.now result }
    ensures stays { PortStays P.RepoPort port.old port.new }
{
    let WorkingCopy {
        report,
        switches,
        base,
    } = copy;
    let mut report = report;
    let mut switches = switches;
    match take_all(alloc, port, place, target, &mut report, &mut switches, rest) {
        Ok(()) => Ok(WorkingCopy {
            report,
            switches,
            base,
        }),
        Err(stop) => Err(stop),
    }
}

// Takes commands.
fn take_all<P: RepoPort>(
    alloc: Global,
    port: &mut P,
    place: &SessionUrl,
    target: &NodePath,
    report: &mut Report,
    switches: &mut Vec<Switched>,
    rest: &[ReportCommand],
) -> Result<(), Stop>
    ensures found { HeedsAll P.RepoPort port.old port.new (known_in report.old switches.old.items)
        (known_in report.new switches.new.items) place.now target.now rest.now result }
    ensures stays { PortStays P.RepoPort port.old port.new }
{
    for command in rest {
        match heed(alloc, port, place, target, report, switches, command) {
            Ok(()) => {}
            Err(stop) => return Err(stop),
        }
    }
    Ok(())
}
