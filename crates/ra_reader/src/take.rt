//! An item, taken where the session stands.

ghost use Rattle.std.specs.Prelude.{◌≡◌, ◌++◌, Ok, Some, Option, is_some, map, true, IfOk, OnOk};
ghost use Rattle.std.specs.Io.KnownBytes.{Appends};
ghost use Rattle.ra_item.specs.Items.{Item, spell};
ghost use Rattle.ra_wire.specs.Answers.{Failure, reply_in, refused_as};
ghost use Rattle.ra_wire.specs.Replies.{done, failure};
ghost use Rattle.browse_wire.specs.Asks.{ask_as};
ghost use Rattle.browse_wire.specs.AskReading.{ask_in};
ghost use Rattle.browse_wire.specs.Reports.{report_as, report_in};
ghost use Rattle.ra_serve.specs.Tellings.{Adds};
ghost use Rattle.ra_denial.specs.Denials.{denied};
ghost use Rattle.ra_denial.specs.Places.{place_as};
ghost use Rattle.ra_denial.specs.Stops.{PortStays};
ghost use Rattle.ra_denial.specs.Writing.{TellsBytes, TellsItem};
ghost use Rattle.ra_denial.specs.declared.denial.Denial.TheVariants.{BadShape};
ghost use Rattle.ra_report.specs.Edits.{Edit};
ghost use Rattle.ra_report.specs.Orders.{awaits_report};
ghost use Rattle.ra_reader.specs.Calls.{TakesItem, PassesItem};
ghost use Rattle.ra_reader.specs.Standings.{Spoilt, Edited, AtEnd, standing_at, ready_at, said_in, more_said, behind_edit};
ghost use Rattle.ra_reader.specs.Standings.{abort_edit, edit_judged};
ghost use Rattle.ra_reader.specs.Takings.{reporting_as, phase_as, standing_as};

use crate::phase::{Order, Phase};
use crate::said::{Said, denial_of, said_by};
use browse_wire::ask::BrowseCommand;
use browse_wire::report::ReportCommand;
use browse_wire::url::SessionUrl;
use ra_browse::answer::{authorise, command_answer};
use ra_denial::{Denial, deny, tell, write_denied};
use ra_item::item::Item;
use ra_report::{awaits_report, finish, ordered};
use ra_serve::{RepoPort, ServeFault};
use ra_wire::fault::WireFault;
use ra_wire::pieces::{write_end, write_name};
use ra_wire::reply::{Refused, Reply};
use ra_wire::reply_writer::write_done;
use std::alloc::Global;
use std::io;
use std::io::Write;

/// How many commands a report may have.
const MOST_SAID: usize = 65_536;

/// Takes an item where the session stands, and goes where it leads.
pub fn take<P: RepoPort, W: Write + Drop>(
    alloc: Global,
    port: &mut P,
    place: &mut SessionUrl,
    phase: Phase,
    item: Item,
    out: W,
) -> Result<(Phase, W), ServeFault>
    ensures told { TakesItem P.RepoPort W.Write port.old port.new out (standing_as place.old phase) item
        place.new result }
    ensures adds { IfOk result (λ r. Adds W.contents out r.1) }
    ensures stays { PortStays P.RepoPort port.old port.new }
{
    match phase {
        Phase::Idle => take_command(alloc, port, place, item, out),
        Phase::Reporting(order) => take_report(alloc, port, place, order, item, out),
        Phase::Spoilt(why) => take_spoilt(alloc, place, why, item, out),
        Phase::Edited => take_reply(alloc, place, item, out),
    }
}

// A command, or an item that is none.
fn take_command<P: RepoPort, W: Write + Drop>(
    alloc: Global,
    port: &mut P,
    place: &mut SessionUrl,
    item: Item,
    out: W,
) -> Result<(Phase, W), ServeFault>
    ensures told { TakesItem P.RepoPort W.Write port.old port.new out (ready_at (place_as place.old)) item
        place.new result }
    ensures adds { IfOk result (λ r. Adds W.contents out r.1) }
    ensures stays { PortStays P.RepoPort port.old port.new }
{
    match BrowseCommand::parse(alloc, item) {
        Ok(command) => follow(alloc, port, place, command, out),
        Err(fault) => {
            let why = denial_of(fault)?;
            let out = deny(why, out)?;
            Ok((Phase::Idle, out))
        }
    }
}

// A command: a report follows it, or it is answered at once.
fn follow<P: RepoPort, W: Write + Drop>(
    alloc: Global,
    port: &mut P,
    place: &mut SessionUrl,
    command: BrowseCommand,
    out: W,
) -> Result<(Phase, W), ServeFault>
    ensures told { (item : Item) → ask_in item ≡ Ok (ask_as command) → TakesItem P.RepoPort W.Write port.old port.new
        out (ready_at (place_as place.old)) item place.new result }
    ensures adds { IfOk result (λ r. Adds W.contents out r.1) }
    ensures stays { PortStays P.RepoPort port.old port.new }
{
    if awaits_report(&command) {
        return take_order(alloc, place, command, out);
    }
    let out = command_answer(alloc, port, place, &command, out)?;
    Ok((Phase::Idle, out))
}

// A command that a report follows.
fn take_order<W: Write + Drop>(
    alloc: Global,
    place: &SessionUrl,
    command: BrowseCommand,
    out: W,
) -> Result<(Phase, W), ServeFault>
    requires awaited { awaits_report (ask_as command) ≡ true }
    ensures told { (item : Item) → ask_in item ≡ Ok (ask_as command) → PassesItem W.Write out
        (ready_at (place_as place.now)) item place.now result }
    ensures adds { IfOk result (λ r. Adds W.contents out r.1) }
{
    match ordered(alloc, place, &command) {
        Ok(()) => {
            let out = authorise(out)?;
            let said = Vec::new(alloc);
            Ok((Phase::Reporting(Order { command, said }), out))
        }
        Err(stop) => {
            let out = tell(stop, out)?;
            Ok((Phase::Idle, out))
        }
    }
}

// What a working copy reports.
fn take_report<P: RepoPort, W: Write + Drop>(
    alloc: Global,
    port: &mut P,
    place: &SessionUrl,
    order: Order,
    item: Item,
    out: W,
) -> Result<(Phase, W), ServeFault>
    ensures told { TakesItem P.RepoPort W.Write port.old port.new out (reporting_as place.now order) item
        place.now result }
    ensures adds { IfOk result (λ r. Adds W.contents out r.1) }
    ensures stays { PortStays P.RepoPort port.old port.new }
{
    match said_by(alloc, item) {
        Ok(Said::More(report)) => {
            let phase = more(order, report)?;
            Ok((phase, out))
        }
        Ok(Said::AtEnd) => take_end(alloc, port, place, order, out),
        Ok(Said::GivenUp) => {
            let out = done(out)?;
            Ok((Phase::Idle, out))
        }
        Ok(Said::Spoils(why)) => Ok((Phase::Spoilt(why), out)),
        Err(fault) => Err(fault),
    }
}

// A report that goes on.
fn more(order: Order, report: ReportCommand) -> Result<Phase, ServeFault>
    ensures { IfOk result (λ p. phase_as p ≡ more_said (ask_as order.command) (map report_as order.said.items)
        (report_as report)) }
{
    if order.said.len() >= MOST_SAID {
        return Ok(Phase::Spoilt(Denial::Unsupported));
    }
    let Order { command, said } = order;
    let mut said = said;
    if said.push(report).is_err() {
        return Err(ServeFault::OutOfMemory);
    }
    Ok(Phase::Reporting(Order { command, said }))
}

// The end of a report.
fn take_end<P: RepoPort, W: Write + Drop>(
    alloc: Global,
    port: &mut P,
    place: &SessionUrl,
    order: Order,
    out: W,
) -> Result<(Phase, W), ServeFault>
    ensures told { (item : Item) → said_in (report_in item) ≡ AtEnd → TakesItem P.RepoPort W.Write port.old port.new out
        (reporting_as place.now order) item place.now result }
    ensures adds { IfOk result (λ r. Adds W.contents out r.1) }
    ensures stays { PortStays P.RepoPort port.old port.new }
{
    match finish(
        alloc,
        port,
        place,
        &order.command,
        order.said.as_slice(),
        out,
    ) {
        Ok((out, sent)) => Ok((behind_edit(sent), out)),
        Err(fault) => Err(fault),
    }
}

// What is awaited behind the answer to a report, an edit or none.
fn behind_edit(sent: bool) -> Phase
    ensures { (edit : Option Edit) → sent ≡ is_some edit → phase_as result ≡ behind_edit edit }
{
    if sent { Phase::Edited } else { Phase::Idle }
}

// What a working copy reports where that is denied.
fn take_spoilt<W: Write + Drop>(
    alloc: Global,
    place: &SessionUrl,
    why: Denial,
    item: Item,
    out: W,
) -> Result<(Phase, W), ServeFault>
    ensures { PassesItem W.Write out (standing_at (place_as place.now) (Spoilt why)) item place.now result }
{
    match said_by(alloc, item) {
        Ok(Said::More(_report)) => Ok((Phase::Spoilt(why), out)),
        Ok(Said::AtEnd) => {
            let out = deny(why, out)?;
            Ok((Phase::Idle, out))
        }
        Ok(Said::GivenUp) => {
            let out = done(out)?;
            Ok((Phase::Idle, out))
        }
        Ok(Said::Spoils(_other)) => Ok((Phase::Spoilt(why), out)),
        Err(fault) => Err(fault),
    }
}

// What a client says of an edit.
fn take_reply<W: Write + Drop>(
    alloc: Global,
    place: &SessionUrl,
    item: Item,
    out: W,
) -> Result<(Phase, W), ServeFault>
    ensures { PassesItem W.Write out (standing_at (place_as place.now) Edited) item place.now result }
{
    let out = judge(alloc, item, out)?;
    Ok((Phase::Idle, out))
}

// The same, as it is told.
fn judge<W: Write + Drop>(alloc: Global, item: Item, out: W) -> Result<W, ServeFault>
    ensures { TellsBytes W.Write out (edit_judged (reply_in item)) result }
{
    match Reply::parse(alloc, item) {
        Ok(Reply::Success(_)) => done(out),
        Ok(Reply::Failure(refused)) => tell_back(refused.as_slice(), out),
        Err(WireFault::BadShape) => other_reply(out),
        Err(_) => Err(ServeFault::OutOfMemory),
    }
}

// Why a client didn't apply an edit, the outermost cause first.
fn tell_back<W: Write + Drop>(refused: &[Refused], out: W) -> Result<W, ServeFault>
    ensures { TellsBytes W.Write out (edit_judged (Some (Failure (map refused_as refused.now)))) result }
{
    match refused.first() {
        Some(first) => give_up(first.number, first.text.as_slice(), out),
        None => other_reply(out),
    }
}

// An edit of which the client says another thing.
fn other_reply<W: Write + Drop>(out: W) -> Result<W, ServeFault>
    ensures { TellsBytes W.Write out (spell abort_edit ++ denied BadShape) result }
{
    let mut out = out;
    write_abort(&mut out)?;
    deny(Denial::BadShape, out)
}

// An edit that wasn't applied.
fn give_up<W: Write + Drop>(number: u64, text: &[u8], out: W) -> Result<W, ServeFault>
    ensures { TellsBytes W.Write out (spell abort_edit ++ spell (failure number text.now)) result }
{
    let mut out = out;
    write_abort(&mut out)?;
    write_denied(&mut out, number, text)?;
    Ok(out)
}

fn write_abort<W: Write>(out: &mut W) -> io::Result<()>
    ensures { OnOk result (Appends (W.contents out.old) (W.contents out.new) (spell abort_edit)) }
{
    write_name(out, b"abort-edit")?;
    write_end(out)
}

// An answer without content.
fn done<W: Write + Drop>(out: W) -> Result<W, ServeFault>
    ensures { TellsItem W.Write out done result }
{
    let mut out = out;
    write_done(&mut out)?;
    Ok(out)
}
