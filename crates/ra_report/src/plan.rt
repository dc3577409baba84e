//! What an edit is made of.

ghost use Rattle.std.specs.Prelude.{◌≡◌};
ghost use Rattle.browse_wire.specs.Asks.{ask_as};
ghost use Rattle.ra_denial.specs.Denials.{no_revision};
ghost use Rattle.ra_denial.specs.Stops.{Finds, PortStays};
ghost use Rattle.ra_report.specs.Planning.{Plans, PlansBy, PlansFully, PlansFrom, PlansWith};
ghost use Rattle.ra_report.specs.Plans.{IsPlanned};

use crate::folder::look_up;
use crate::follow::{follow, kept};
use crate::order::{Order, order_of};
use crate::report::working_copy;
use crate::revisions::props_up_to;
use crate::switched::Switched;
use crate::trim::trimmed;
use browse_wire::ask::BrowseCommand;
use browse_wire::report::ReportCommand;
use browse_wire::url::SessionUrl;
use node_base::{Props, RevNo};
use path_tree::Tree;
use ra_denial::Stop;
use ra_serve::RepoPort;
use std::alloc::Global;
use tree_reports::Report;
use uuid::Uuid;

/// What is wanted: a revision, and what stands at a place of it, as the folder or in one.
#[derive(Drop)]
pub struct Wanted {
    pub number: RevNo,
    pub tree: Tree,
    /// All of the revision.
    pub whole: Tree,
}

/// What a working copy has below its folder, what is switched there, and the revision that the folder is known at.
#[derive(Drop)]
pub struct WorkingCopy {
    pub report: Report,
    pub switches: Vec<Switched>,
    pub base: RevNo,
}

/// Both, with what is told beside them.
#[derive(Drop)]
pub struct Plan {
    pub wanted: Wanted,
    pub copy: WorkingCopy,
    pub identity: Uuid,
    /// The properties of the revisions up to the one that is wanted.
    pub revisions: Vec<Props>,
    /// Whether something is told of the folder itself.
    pub tells_root: bool,
    /// Whether folders in which nothing differs are opened too.
    pub opens: bool,
}

/// The plan of a command and its report.
pub fn plan_of<P: RepoPort>(
    alloc: Global,
    port: &mut P,
    place: &SessionUrl,
    command: &BrowseCommand,
    report: &[ReportCommand],
) -> Result<Plan, Stop>
    ensures found { Plans P.RepoPort port.old port.new place.now (ask_as command.now) report.now result }
    ensures stays { PortStays P.RepoPort port.old port.new }
{
    match order_of(alloc, place, command) {
        Ok(order) => plan_by(alloc, port, place, &order, report),
        Err(stop) => Err(stop),
    }
}

// The same of an order.
fn plan_by<P: RepoPort>(
    alloc: Global,
    port: &mut P,
    place: &SessionUrl,
    order: &Order,
    report: &[ReportCommand],
) -> Result<Plan, Stop>
    ensures found { PlansBy P.RepoPort port.old port.new place.now order.now report.now result }
    ensures stays { PortStays P.RepoPort port.old port.new }
{
    match plan_for(alloc, port, place, order, report) {
        Ok(plan) => trimmed(alloc, plan, &order.target, order.depth, report),
        Err(stop) => Err(stop),
    }
}

// The same where a working copy has all, and all is wanted.
fn plan_for<P: RepoPort>(
    alloc: Global,
    port: &mut P,
    place: &SessionUrl,
    order: &Order,
    report: &[ReportCommand],
) -> Result<Plan, Stop>
    ensures found { PlansFully P.RepoPort port.old port.new place.now order.now report.now result }
    ensures stays { PortStays P.RepoPort port.old port.new }
{
    match look_up(alloc, port, order.revision, &order.path, &order.target) {
        Ok(wanted) => plan_from(alloc, port, place, order, wanted, report),
        Err(stop) => Err(stop),
    }
}

// The same of what is wanted.
fn plan_from<P: RepoPort>(
    alloc: Global,
    port: &mut P,
    place: &SessionUrl,
    order: &Order,
    wanted: Wanted,
    report: &[ReportCommand],
) -> Result<Plan, Stop>
    ensures found { PlansFrom P.RepoPort port.old port.new place.now order.now wanted report.now result }
    ensures stays { PortStays P.RepoPort port.old port.new }
{
    match working_copy(alloc, port, place, &order.target, report) {
        Ok(copy) => plan_with(alloc, port, order, wanted, copy),
        Err(stop) => Err(stop),
    }
}

// The same of what is reported.
fn plan_with<P: RepoPort>(
    alloc: Global,
    port: &mut P,
    order: &Order,
    wanted: Wanted,
    copy: WorkingCopy,
) -> Result<Plan, Stop>
    ensures found { PlansWith P.RepoPort port.old port.new order.now wanted copy result }
    ensures stays { PortStays P.RepoPort port.old port.new }
{
    match follow(alloc, wanted, kept(order.keeps, copy.switches.as_slice())) {
        Ok(wanted) => planned(alloc, port, wanted, copy, order.target.is_root()),
        Err(stop) => Err(stop),
    }
}

// The same of both.
fn planned<P: RepoPort>(
    alloc: Global,
    port: &mut P,
    wanted: Wanted,
    copy: WorkingCopy,
    tells_root: bool,
) -> Result<Plan, Stop>
    ensures found { Finds P.RepoPort (λ x. no_revision x wanted.number)
        (λ x p. IsPlanned x wanted copy tells_root p) port.old port.new result }
    ensures stays { PortStays P.RepoPort port.old port.new }
{
    let identity = port.identity();
    match props_up_to(alloc, port, wanted.number) {
        Ok(revisions) => Ok(Plan {
            wanted,
            copy,
            identity,
            revisions,
            tells_root,
            opens: false,
        }),
        Err(stop) => Err(stop),
    }
}
