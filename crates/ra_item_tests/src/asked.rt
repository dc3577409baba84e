//! What items come to, in words. A growth that is refused counts as another answer, so that a test of it fails.

use crate::helpers_for_tests::item_of;
use browse_wire::ask::{BrowseCommand, LogOrder, RevpropsWanted};
use browse_wire::report::{ReportCommand, Reported};
use node_base::NodePath;
use ra_wire::command_writer::write_command;
use std::alloc::Global;
use std::io;
use std::io::Write;
use std::process::Abort;

/// Ends the test with the bytes that come to another thing, if some do.
pub(crate) fn none_is_wrong(rt: &impl Abort, wrong: Option<&[u8]>) {
    if let Some(bytes) = wrong {
        rt.panic(str::from_utf8(bytes).unwrap_or("bytes that are no text"));
    }
}

fn show_bytes(out: &mut Vec<u8>, bytes: &[u8]) -> io::Result<()> {
    out.write_all(b" ")?;
    out.write_all(bytes)
}

fn show_log(out: &mut Vec<u8>, log: &LogOrder) -> io::Result<()> {
    write!(out, "log")?;
    for path in &log.paths {
        write!(out, " /{path}")?;
    }
    let (start, end, limit) = (log.start, log.end, log.limit);
    let (changed, strict, merged) = (log.changed_paths, log.strict, log.merged);
    write!(
        out,
        " {start:?} {end:?} {changed} {strict} {limit} {merged}"
    )?;
    match &log.revprops {
        RevpropsWanted::Usual => write!(out, " usual"),
        RevpropsWanted::Every => write!(out, " every"),
        RevpropsWanted::These(names) => {
            for name in names {
                show_bytes(out, name.as_slice())?;
            }
            Ok(())
        }
    }
}

fn show_edit(out: &mut Vec<u8>, command: &BrowseCommand) -> io::Result<()> {
    match command {
        BrowseCommand::Update(it) => {
            let (n, path, depth) = (it.revision, &it.target, it.depth);
            let (copies, ignores) = (it.copies, it.ignores_ancestry);
            write!(out, "update {n:?} /{path} {depth:?} {copies} {ignores}")
        }
        BrowseCommand::Switch(it) => {
            let (n, path, depth) = (it.revision, &it.target, it.depth);
            let (copies, ignores) = (it.copies, it.ignores_ancestry);
            write!(out, "switch {n:?} /{path} {depth:?} {copies} {ignores}")?;
            show_bytes(out, it.url.as_slice())
        }
        BrowseCommand::Status(it) => {
            let (n, path, depth) = (it.revision, &it.target, it.depth);
            write!(out, "status {n:?} /{path} {depth:?}")
        }
        BrowseCommand::Diff(it) => {
            let (n, path, depth) = (it.revision, &it.target, it.depth);
            let (ignores, texts) = (it.ignores_ancestry, it.texts);
            write!(out, "diff {n:?} /{path} {depth:?} {ignores} {texts}")?;
            show_bytes(out, it.url.as_slice())
        }
        _ => write!(out, "no edit"),
    }
}

fn show_locations(out: &mut Vec<u8>, path: &NodePath, peg: u64, all: &[u64]) -> io::Result<()> {
    write!(out, "locations /{path} {peg}:")?;
    for n in all {
        write!(out, " {n}")?;
    }
    Ok(())
}

fn show(out: &mut Vec<u8>, command: &BrowseCommand) -> io::Result<()> {
    match command {
        BrowseCommand::Plain(plain) => {
            write_command(out, plain)?;
            write!(out, "plain")
        }
        BrowseCommand::Log(log) => show_log(out, log),
        BrowseCommand::GetLocations(path, peg, all) => {
            show_locations(out, path, *peg, all.as_slice())
        }
        BrowseCommand::Reparent(url) => {
            write!(out, "reparent")?;
            show_bytes(out, url.as_slice())
        }
        BrowseCommand::GetDatedRev(date) => {
            write!(out, "dated-rev")?;
            show_bytes(out, date.as_slice())
        }
        BrowseCommand::Stat(path, n) => write!(out, "stat /{path} {n:?}"),
        BrowseCommand::GetLocationSegments(path, peg, first, last) => {
            write!(out, "segments /{path} {peg:?} {first:?} {last:?}")
        }
        BrowseCommand::GetFileRevs(path, first, last, merged) => {
            write!(out, "file-revs /{path} {first:?} {last:?} {merged}")
        }
        BrowseCommand::GetLock(path) => write!(out, "lock /{path}"),
        BrowseCommand::GetLocks(path, depth) => write!(out, "locks /{path} {depth:?}"),
        _ => show_edit(out, command),
    }
}

fn show_reported(out: &mut Vec<u8>, it: &Reported) -> io::Result<()> {
    let (path, n, empty, depth) = (&it.path, it.revision, it.start_empty, it.depth);
    write!(out, " /{path} {n} {empty} {depth:?}")?;
    match &it.token {
        Some(token) => show_bytes(out, token.as_slice()),
        None => Ok(()),
    }
}

fn show_report(out: &mut Vec<u8>, command: &ReportCommand) -> io::Result<()> {
    match command {
        ReportCommand::SetPath(it) => {
            write!(out, "set")?;
            show_reported(out, it)
        }
        ReportCommand::DeletePath(path) => write!(out, "delete /{path}"),
        ReportCommand::LinkPath(it, url) => {
            write!(out, "link")?;
            show_reported(out, it)?;
            show_bytes(out, url.as_slice())
        }
        ReportCommand::FinishReport => write!(out, "finish"),
        ReportCommand::AbortReport => write!(out, "abort"),
    }
}

/// What bytes ask, in words, or why they ask nothing.
pub(crate) fn asked(alloc: Global, bytes: &[u8], out: &mut Vec<u8>) -> io::Result<()> {
    let Some(item) = item_of(alloc, bytes) else {
        return write!(out, "no item");
    };
    match BrowseCommand::parse(alloc, item) {
        Ok(command) => show(out, &command),
        Err(fault) => write!(out, "{fault}"),
    }
}

/// What bytes report, in words, or why they report nothing.
pub(crate) fn reported(alloc: Global, bytes: &[u8], out: &mut Vec<u8>) -> io::Result<()> {
    let Some(item) = item_of(alloc, bytes) else {
        return write!(out, "no item");
    };
    match ReportCommand::parse(alloc, item) {
        Ok(command) => show_report(out, &command),
        Err(fault) => write!(out, "{fault}"),
    }
}
