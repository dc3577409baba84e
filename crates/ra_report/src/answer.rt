//! A report's answer.

ghost use Rattle.std.specs.Prelude.{◌≡◌, true, false, IfOk};
ghost use Rattle.uuid.specs.Text.{hyphenated_text, lower};
ghost use Rattle.ra_serve.specs.Tellings.{Adds};
ghost use Rattle.ra_denial.specs.Stops.{PortStays};
ghost use Rattle.ra_denial.specs.Writing.{TellsStop};
ghost use Rattle.ra_report.specs.Edits.{edit_told};
ghost use Rattle.ra_report.specs.Planning.{EndsReport};
ghost use Rattle.ra_report.specs.Plans.{TellsPlan};

use crate::plan::{Plan, plan_of};
use crate::send::send;
use browse_wire::ask::BrowseCommand;
use browse_wire::report::ReportCommand;
use browse_wire::url::SessionUrl;
use ra_denial::{Stop, tell};
use ra_serve::{RepoPort, ServeFault};
use std::alloc::Global;
use std::io::Write;

/// Answers a report, whose commands are those before `finish-report`: it sends the edit that makes of what was reported
/// what the command wants, or tells what is denied, or how the port refused. Whether an edit was sent is told beside the
/// writer: the client's own reply is awaited then.
///
/// `OutOfMemory` where a growth of the call's own was refused, and `WriteFailed` where the writer failed. The writer is
/// let go of then.
pub fn finish<P: RepoPort, W: Write + Drop>(
    alloc: Global,
    port: &mut P,
    place: &SessionUrl,
    command: &BrowseCommand,
    report: &[ReportCommand],
    out: W,
) -> Result<(W, bool), ServeFault>
    ensures told { EndsReport P.RepoPort W.Write port.old port.new out place.now command.now report.now result }
    ensures adds { IfOk result (λ r. Adds W.contents out r.0) }
    ensures stays { PortStays P.RepoPort port.old port.new }
{
    match plan_of(alloc, port, place, command, report) {
        Ok(plan) => answer(alloc, &plan, out),
        Err(stop) => refuse(stop, out),
    }
}

// Sends an edit.
fn answer<W: Write + Drop>(alloc: Global, plan: &Plan, out: W) -> Result<(W, bool), ServeFault>
    ensures { IfOk result (λ r. (r.1 ≡ true) × TellsPlan plan.now (hyphenated_text lower plan.now.identity) edit_told
        (W.contents out) (W.contents r.0)) }
{
    match send(alloc, plan, out) {
        Ok(out) => Ok((out, true)),
        Err(fault) => Err(fault),
    }
}

// Tells why there is none.
fn refuse<W: Write + Drop>(stop: Stop, out: W) -> Result<(W, bool), ServeFault>
    ensures { IfOk result (λ r. (r.1 ≡ false) × TellsStop (W.contents out) (W.contents r.0) stop) }
{
    match tell(stop, out) {
        Ok(out) => Ok((out, false)),
        Err(fault) => Err(fault),
    }
}
