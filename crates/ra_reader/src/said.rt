//! What an item says in a report.

ghost use Rattle.std.specs.Prelude.{◌≡◌, IfOk, OnOk};
ghost use Rattle.browse_wire.specs.Reports.{report_in, reported_as};
ghost use Rattle.browse_wire.specs.declared.fault.BrowseFault.TheVariants as browse;
ghost use Rattle.ra_browse.specs.Answers.{no_ask};
ghost use Rattle.ra_reader.specs.Calls.{SparesReader};
ghost use Rattle.ra_reader.specs.Standings.{without_token, said_in, Spoils};
ghost use Rattle.ra_reader.specs.Takings.{said_as};

use browse_wire::fault::BrowseFault;
use browse_wire::report::{ReportCommand, Reported};
use ra_denial::Denial;
use ra_item::item::Item;
use ra_serve::ServeFault;
use std::alloc::Global;

/// What an item says in a report.
#[derive(Drop)]
pub enum Said {
    /// More of it.
    More(ReportCommand),
    /// That it is at its end.
    AtEnd,
    /// That it is given up.
    GivenUp,
    /// Nothing, which spoils it.
    Spoils(Denial),
}

/// What an item says in a report. `OutOfMemory` (70).
pub fn said_by(alloc: Global, item: Item) -> Result<Said, ServeFault>
    ensures told { IfOk result (λ s. said_as s ≡ said_in (report_in item)) }
    ensures writer { SparesReader result }
{
    match ReportCommand::parse(alloc, item) {
        Ok(ReportCommand::SetPath(state)) => {
            Ok(Said::More(ReportCommand::SetPath(without_token(state))))
        }
        Ok(ReportCommand::DeletePath(path)) => Ok(Said::More(ReportCommand::DeletePath(path))),
        Ok(ReportCommand::LinkPath(state, url)) => Ok(Said::More(ReportCommand::LinkPath(
            without_token(state),
            url,
        ))),
        Ok(ReportCommand::FinishReport) => Ok(Said::AtEnd),
        Ok(ReportCommand::AbortReport) => Ok(Said::GivenUp),
        Err(fault) => spoiling(fault),
    }
}

// How a path stands, without the token of a lock, which may be long.
fn without_token(state: Reported) -> Reported
    ensures { reported_as result ≡ without_token (reported_as state) }
{
    let Reported {
        path,
        revision,
        start_empty,
        token: _,
        depth,
    } = state;
    Reported {
        path,
        revision,
        start_empty,
        token: None,
        depth,
    }
}

// An item that reports nothing.
fn spoiling(fault: BrowseFault) -> Result<Said, ServeFault>
    ensures known { OnOk result (fault ≡ browse.OutOfMemory → ⊥) }
    ensures told { IfOk result (λ s. said_as s ≡ Spoils (no_ask fault)) }
    ensures writer { SparesReader result }
{
    match denial_of(fault) {
        Ok(why) => Ok(Said::Spoils(why)),
        Err(stop) => Err(stop),
    }
}

/// Why an item that is nothing of what was awaited is denied. `OutOfMemory` (70) where memory ran out before that was
/// known.
pub fn denial_of(fault: BrowseFault) -> Result<Denial, ServeFault>
    ensures known { OnOk result (fault ≡ browse.OutOfMemory → ⊥) }
    ensures denial { IfOk result (λ d. d ≡ no_ask fault) }
    ensures writer { SparesReader result }
{
    match fault {
        BrowseFault::UnknownCommand => Ok(Denial::Unknown),
        BrowseFault::BadShape => Ok(Denial::BadShape),
        BrowseFault::ReplayForm => Ok(Denial::Unsupported),
        BrowseFault::ExcludedDepth => Ok(Denial::Unsupported),
        BrowseFault::OutOfMemory => Err(ServeFault::OutOfMemory),
    }
}
