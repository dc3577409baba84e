//! Reports and their answers.

use browse_wire::ask::BrowseCommand;
use browse_wire::report::ReportCommand;
use browse_wire::url::SessionUrl;
use ra_denial::Stop;
use ra_item::item::Item;
use ra_item::reader::ItemReader;
use ra_report::{awaits_report, finish, ordered};
use ra_serve::{RepoPort, ServeFault};
use std::alloc::Global;
use std::io::Write;

/// What stands before each edit.
pub(crate) const AUTHORISED: &[u8] = b"( success ( ( ) 0: ) ) ";

/// A session at a URL, a command, and the report behind it.
#[derive(Clone, Copy, Drop)]
pub(crate) struct Case<'a> {
    pub(crate) url: &'a [u8],
    pub(crate) asked: &'a [u8],
    pub(crate) reported: &'a [u8],
}

// The items of bytes. They are well formed, so that only want of memory refuses them.
fn items_of(alloc: Global, bytes: &[u8]) -> Result<Vec<Item>, ServeFault> {
    let mut reader = ItemReader::new(alloc);
    let mut items = Vec::new(alloc);
    let whole = reader.feed(bytes, &mut items).is_ok();
    // the last item ends by what stands behind it
    if whole && reader.feed(b" ", &mut items).is_ok() {
        return Ok(items);
    }
    Err(ServeFault::OutOfMemory)
}

// The command of an item.
fn asked(alloc: Global, bytes: &[u8]) -> Result<BrowseCommand, ServeFault> {
    let mut items = items_of(alloc, bytes)?;
    let Some(item) = items.pop() else {
        return Err(ServeFault::OutOfMemory);
    };
    match BrowseCommand::parse(alloc, item) {
        Ok(command) => Ok(command),
        Err(_) => Err(ServeFault::OutOfMemory),
    }
}

// The commands of a report.
fn reported(alloc: Global, bytes: &[u8]) -> Result<Vec<ReportCommand>, ServeFault> {
    let items = items_of(alloc, bytes)?;
    let mut commands = Vec::new(alloc);
    for item in items {
        match ReportCommand::parse(alloc, item) {
            Ok(command) => {
                if commands.push(command).is_err() {
                    return Err(ServeFault::OutOfMemory);
                }
            }
            Err(_) => return Err(ServeFault::OutOfMemory),
        }
    }
    Ok(commands)
}

/// What a report is answered, and whether an edit was sent.
pub(crate) fn answered<P: RepoPort, W: Write + Drop>(
    alloc: Global,
    port: &mut P,
    case: &Case<'_>,
    out: W,
) -> Result<(W, bool), ServeFault> {
    let Ok(place) = SessionUrl::parse(alloc, case.url) else {
        return Err(ServeFault::OutOfMemory);
    };
    let command = asked(alloc, case.asked)?;
    let report = reported(alloc, case.reported)?;
    finish(alloc, port, &place, &command, report.as_slice(), out)
}

/// Whether a report follows a command, and why none does.
pub(crate) fn order(alloc: Global, case: &Case<'_>) -> Option<(bool, Result<(), Stop>)> {
    let Ok(place) = SessionUrl::parse(alloc, case.url) else {
        return None;
    };
    let command = asked(alloc, case.asked).ok()?;
    Some((awaits_report(&command), ordered(alloc, &place, &command)))
}
