//! Commands of a target as those of its folder.

ghost use Rattle.std.specs.Prelude.{◌≡◌, ◌++◌, map};
ghost use Rattle.browse_wire.specs.Reports.{report_as, reported_as, LinkPath};
ghost use Rattle.ra_denial.specs.Stops.{Decides};
ghost use Rattle.ra_report.specs.Given.{path_denied, AddsAimed};
ghost use Rattle.ra_report.specs.Reports.{aim_denied, aimed, aims_denied, behind};

use crate::take::path_in;
use browse_wire::report::{ReportCommand, Reported};
use node_base::NodePath;
use ra_denial::Stop;
use std::alloc::Global;

/// The commands with their paths behind a target.
pub fn aimed_all(
    alloc: Global,
    target: &NodePath,
    report: &[ReportCommand],
) -> Result<Vec<ReportCommand>, Stop>
    ensures { Decides (aims_denied target.now (map report_as report.now))
        (λ v. map report_as v.items ≡ map (aimed target.now) (map report_as report.now)) result }
{
    let mut all = Vec::new(alloc);
    for command in report {
        match push_aimed(alloc, target, command, &mut all) {
            Ok(()) => {}
            Err(stop) => return Err(stop),
        }
    }
    Ok(all)
}

// Puts a command behind others.
fn push_aimed(
    alloc: Global,
    target: &NodePath,
    command: &ReportCommand,
    all: &mut Vec<ReportCommand>,
) -> Result<(), Stop>
    ensures { AddsAimed all.old.items all.new.items target.now command.now result }
{
    let aimed = match aim(alloc, target, command) {
        Ok(aimed) => aimed,
        Err(stop) => return Err(stop),
    };
    if all.push(aimed).is_err() {
        return Err(Stop::OutOfMemory);
    }
    Ok(())
}

// A command with its path behind a target.
fn aim(alloc: Global, target: &NodePath, command: &ReportCommand) -> Result<ReportCommand, Stop>
    ensures { Decides (aim_denied target.now (report_as command.now))
        (λ c. report_as c ≡ aimed target.now (report_as command.now)) result }
{
    match command {
        ReportCommand::SetPath(path) => match behind(alloc, target, path) {
            Ok(path) => Ok(ReportCommand::SetPath(path)),
            Err(stop) => Err(stop),
        },
        ReportCommand::DeletePath(path) => match path_in(alloc, target, path) {
            Ok(path) => Ok(ReportCommand::DeletePath(path)),
            Err(stop) => Err(stop),
        },
        ReportCommand::LinkPath(path, url) => link(alloc, target, path, url.as_slice()),
        ReportCommand::FinishReport => Ok(ReportCommand::FinishReport),
        ReportCommand::AbortReport => Ok(ReportCommand::AbortReport),
    }
}

// A link with its path behind a target.
fn link(
    alloc: Global,
    target: &NodePath,
    path: &Reported,
    url: &[u8],
) -> Result<ReportCommand, Stop>
    ensures { Decides (path_denied (target.now ++ path.now.path))
        (λ c. report_as c ≡ LinkPath (behind target.now (reported_as path.now)) url.now) result }
{
    let path = match behind(alloc, target, path) {
        Ok(path) => path,
        Err(stop) => return Err(stop),
    };
    match Vec::from_slice(alloc, url) {
        Ok(url) => Ok(ReportCommand::LinkPath(path, url)),
        Err(_) => Err(Stop::OutOfMemory),
    }
}

// A path behind a target.
fn behind(alloc: Global, target: &NodePath, path: &Reported) -> Result<Reported, Stop>
    ensures { Decides (path_denied (target.now ++ path.now.path))
        (λ r. reported_as r ≡ behind target.now (reported_as path.now)) result }
{
    match path_in(alloc, target, &path.path) {
        Ok(place) => Ok(Reported {
            path: place,
            revision: path.revision,
            start_empty: path.start_empty,
            token: None,
            depth: path.depth,
        }),
        Err(stop) => Err(stop),
    }
}
