//! What is wanted by a working copy that doesn't have all, and where a command wants a depth.

ghost use Rattle.std.specs.Prelude.{◌≡◌, ◌++◌, map, None, IfOk, OnOk};
ghost use Rattle.std.specs.FinMap as finite;
ghost use Rattle.std.specs.List.{flat_map, list_any};
ghost use Rattle.browse_wire.specs.Reports.{report_as};
ghost use Rattle.ra_denial.specs.Stops.{Decides};
ghost use Rattle.ra_report.specs.Given.{TrimsWanted, TrimsCopy};
ghost use Rattle.ra_report.specs.Plans.{IsTrimmed, IsTrimmedBy};
ghost use Rattle.ra_report.specs.Reports.{aims_denied};
ghost use Rattle.ra_report.specs.Shown.{part_as};
ghost use Rattle.ra_report.specs.Trimmed.{counts, drop_at, drops, is_dropped, is_left_out, is_shallow, is_whole};
ghost use Rattle.ra_report.specs.Trimmed.{leaves_out, limit_at, limit_in, limits_in, opens_all, reports};
ghost use Rattle.ra_report.specs.Trimmed.{within_wanted, without};
ghost use Rattle.tree_reports.specs.Trees.{Makes};

use crate::aim::aimed_all;
use crate::plan::{Plan, Wanted, WorkingCopy};
use crate::shown::part_of;
use browse_wire::report::{ReportCommand, Reported};
use node_base::NodePath;
use path_tree::Tree;
use ra_denial::Stop;
use std::alloc::{AllocError, Global};
use tree_reports::{Depth, Limit, Part, Report, limit_all, limit_one};

/// The plan with so much of what is wanted as a working copy has, and both sides looked at as deep as a command wants.
pub fn trimmed(
    alloc: Global,
    plan: Plan,
    target: &NodePath,
    wanted: Option<Depth>,
    report: &[ReportCommand],
) -> Result<Plan, Stop>
    ensures { Decides (aims_denied target.now (map report_as report.now))
        (IsTrimmed wanted target.now (map report_as report.now) plan) result }
{
    match aimed_all(alloc, target, report) {
        Ok(all) => trimmed_by(alloc, plan, target, wanted, all.as_slice()),
        Err(stop) => Err(stop),
    }
}

// The same of commands with their paths behind the target.
fn trimmed_by(
    alloc: Global,
    plan: Plan,
    target: &NodePath,
    wanted: Option<Depth>,
    report: &[ReportCommand],
) -> Result<Plan, Stop>
    ensures { Decides None (IsTrimmedBy wanted target.now (map report_as report.now) plan) result }
{
    match trim(alloc, plan, target, wanted, report) {
        Ok(plan) => Ok(plan),
        Err(_) => Err(Stop::OutOfMemory),
    }
}

fn trim(
    alloc: Global,
    plan: Plan,
    target: &NodePath,
    wanted: Option<Depth>,
    report: &[ReportCommand],
) -> Result<Plan, AllocError>
    ensures { IfOk result (IsTrimmedBy wanted target.now (map report_as report.now) plan) }
{
    let limits = limits_in(alloc, wanted, report)?;
    let Plan {
        wanted: all,
        copy,
        identity,
        revisions,
        tells_root,
        opens: _,
    } = plan;
    let copy = trim_copy(alloc, copy, target, wanted, &all.tree, limits.as_slice())?;
    Ok(Plan {
        wanted: trim_wanted(alloc, all, target, wanted, limits.as_slice())?,
        copy,
        identity,
        revisions,
        tells_root,
        opens: opens_all(report),
    })
}

// What is wanted.
fn trim_wanted(
    alloc: Global,
    all: Wanted,
    target: &NodePath,
    wanted: Option<Depth>,
    limits: &[Limit],
) -> Result<Wanted, AllocError>
    ensures { TrimsWanted all wanted target.now limits.now result }
{
    let Wanted {
        number,
        tree: full,
        whole,
    } = all;
    let limited = limit_all(alloc, full.share()?, &full, limits)?;
    let seen = looked_at(alloc, limited, target, wanted)?;
    Ok(Wanted {
        number,
        tree: without(alloc, seen, &full, limits)?,
        whole,
    })
}

// What was reported, where all of a tree is wanted.
fn trim_copy(
    alloc: Global,
    copy: WorkingCopy,
    target: &NodePath,
    wanted: Option<Depth>,
    full: &Tree,
    limits: &[Limit],
) -> Result<WorkingCopy, AllocError>
    ensures { TrimsCopy copy wanted target.now limits.now full.now result }
{
    let WorkingCopy {
        report,
        switches,
        base,
    } = copy;
    let seen = looked_at(alloc, report.tree().share()?, target, wanted)?;
    let tree = without(alloc, seen, full, limits)?;
    Ok(WorkingCopy {
        report: Report::begin(tree),
        switches,
        base,
    })
}

// The tree with its target looked at as deep as is wanted.
fn looked_at(
    alloc: Global,
    tree: Tree,
    target: &NodePath,
    wanted: Option<Depth>,
) -> Result<Tree, AllocError>
    ensures { Makes (within_wanted wanted target.now (finite.get tree)) result }
{
    let Some(depth) = wanted else {
        return Ok(tree);
    };
    let path = target.copy(alloc)?;
    let part = Part::Within(depth);
    limit_one(alloc, tree.share()?, &tree, &Limit { path, part })
}

// ---- what stands in neither tree

// The tree without what limits leave out of all that is wanted.
fn without(alloc: Global, tree: Tree, full: &Tree, limits: &[Limit]) -> Result<Tree, AllocError>
    ensures { Makes (without (drops (finite.get full.now) limits.now) (finite.get tree)) result }
{
    let mut top = tree;
    for limit in limits {
        top = without_one(alloc, top, full, limit)?;
    }
    Ok(top)
}

// The same of one limit.
fn without_one(alloc: Global, tree: Tree, full: &Tree, limit: &Limit) -> Result<Tree, AllocError>
    ensures { Makes (without (drop_at (finite.get full.now) limit.now) (finite.get tree)) result }
{
    if is_dropped(full, limit) {
        // For the proof: below a path at which nothing stands, nothing does.
        tree.is_tree();
        let nothing = Tree::empty(alloc)?;
        return limit_one(alloc, tree, &nothing, limit);
    }
    Ok(tree)
}

// Whether a limit leaves out what is wanted at its path.
fn is_dropped(full: &Tree, limit: &Limit) -> bool
    ensures { result ≡ is_dropped (finite.get full.now) limit.now }
{
    is_left_out(limit.part) && !limit.path.is_root() && full.get(limit.path.names()).is_some()
}

fn is_left_out(part: Part) -> bool
    ensures { result ≡ is_left_out part }
{
    match part {
        Part::Within(_) => false,
        Part::LeftOut => true,
    }
}

// ---- what a report leaves out

// The limits of its paths that count.
fn limits_in(
    alloc: Global,
    wanted: Option<Depth>,
    report: &[ReportCommand],
) -> Result<Vec<Limit>, AllocError>
    ensures { IfOk result (λ v. v.items ≡ limits_in wanted (map report_as report.now)) }
{
    limits_by(alloc, wanted, is_sparse(report), report)
}

// The same where it is known whether the report leaves something out.
fn limits_by(
    alloc: Global,
    wanted: Option<Depth>,
    sparse: bool,
    report: &[ReportCommand],
) -> Result<Vec<Limit>, AllocError>
    ensures { IfOk result (λ v. v.items ≡ flat_map (limit_in wanted sparse) (map report_as report.now)) }
{
    let mut all = Vec::new(alloc);
    for command in report {
        push_limit(alloc, wanted, sparse, command, &mut all)?;
    }
    Ok(all)
}

// Whether one of them leaves something out.
fn is_sparse(report: &[ReportCommand]) -> bool
    ensures { result ≡ list_any leaves_out (map report_as report.now) }
{
    for command in report {
        if leaves_out(command) {
            return true;
        }
    }
    false
}

fn leaves_out(command: &ReportCommand) -> bool
    ensures { result ≡ leaves_out (report_as command.now) }
{
    match command {
        ReportCommand::SetPath(path) => !is_whole(part_of(path.depth)),
        ReportCommand::LinkPath(path, _) => !is_whole(part_of(path.depth)),
        ReportCommand::DeletePath(_) => false,
        ReportCommand::FinishReport => false,
        ReportCommand::AbortReport => false,
    }
}

// Whether all of a path is there.
fn is_whole(part: Part) -> bool
    ensures { result ≡ is_whole part }
{
    match part {
        Part::Within(Depth::Infinity) => true,
        Part::Within(Depth::Empty) => false,
        Part::Within(Depth::Files) => false,
        Part::Within(Depth::Immediates) => false,
        Part::LeftOut => false,
    }
}

// Puts the limit of a command behind others, where it counts.
fn push_limit(
    alloc: Global,
    wanted: Option<Depth>,
    sparse: bool,
    command: &ReportCommand,
    all: &mut Vec<Limit>,
) -> Result<(), AllocError>
    ensures { OnOk result (all.new.items ≡ all.old.items ++ limit_in wanted sparse (report_as command.now)) }
{
    match command {
        ReportCommand::SetPath(path) => push_of(alloc, wanted, sparse, path, all),
        ReportCommand::LinkPath(path, _) => push_of(alloc, wanted, sparse, path, all),
        ReportCommand::DeletePath(_) => Ok(()),
        ReportCommand::FinishReport => Ok(()),
        ReportCommand::AbortReport => Ok(()),
    }
}

// The same of a reported path.
fn push_of(
    alloc: Global,
    wanted: Option<Depth>,
    sparse: bool,
    path: &Reported,
    all: &mut Vec<Limit>,
) -> Result<(), AllocError>
    ensures { OnOk result (all.new.items ≡ all.old.items ++ limit_at wanted sparse path.now.path
        (part_as path.now.depth)) }
{
    let part = part_of(path.depth);
    if counts(wanted, sparse, part) {
        let path = path.path.copy(alloc)?;
        all.push(Limit { path, part })?;
    }
    Ok(())
}

// Whether so much of a path counts.
fn counts(wanted: Option<Depth>, sparse: bool, part: Part) -> bool
    ensures { result ≡ counts wanted sparse part }
{
    match wanted {
        None => sparse,
        Some(_) => match part {
            Part::Within(_) => false,
            Part::LeftOut => true,
        },
    }
}

// ---- which folders are opened

// Whether folders in which nothing differs are opened too.
fn opens_all(report: &[ReportCommand]) -> bool
    ensures { result ≡ opens_all (map report_as report.now) }
{
    for command in report {
        if reports_shallow(command) {
            return true;
        }
    }
    false
}

// Whether a command reports a path that is there in part.
fn reports_shallow(command: &ReportCommand) -> bool
    ensures { result ≡ reports is_shallow (report_as command.now) }
{
    match command {
        ReportCommand::SetPath(path) => is_shallow(part_of(path.depth)),
        ReportCommand::LinkPath(path, _) => is_shallow(part_of(path.depth)),
        ReportCommand::DeletePath(_) => false,
        ReportCommand::FinishReport => false,
        ReportCommand::AbortReport => false,
    }
}

// Whether a path is there, and not all below it.
fn is_shallow(part: Part) -> bool
    ensures { result ≡ is_shallow part }
{
    match part {
        Part::Within(Depth::Empty) => true,
        Part::Within(Depth::Files) => true,
        Part::Within(Depth::Immediates) => true,
        Part::Within(Depth::Infinity) => false,
        Part::LeftOut => false,
    }
}
