//! One command and its answer.

ghost use Rattle.std.specs.Prelude.{◌≡◌, ◌++◌, true, Ok, IfOk};
ghost use Rattle.std.specs.Option.{option_map};
ghost use Rattle.std.specs.FinMap as finite;
ghost use Rattle.node_base.specs.Path.{Path};
ghost use Rattle.node_base.specs.Tree.{kind_of};
ghost use Rattle.ra_wire.specs.Commands.{command_as, CheckPath, LatestRev, RevProp, RevProplist};
ghost use Rattle.ra_wire.specs.Replies.{authorised};
ghost use Rattle.browse_wire.specs.Asks.{Plain, ask_as};
ghost use Rattle.browse_wire.specs.AskReading.{ask_in};
ghost use Rattle.browse_wire.specs.Told.{no_locks};
ghost use Rattle.browse_wire.specs.Urls.{Url};
ghost use Rattle.ra_serve.specs.Tellings.{GivesMore};
ghost use Rattle.ra_denial.specs.Places.{place_as};
ghost use Rattle.ra_denial.specs.Stops.{PortStays};
ghost use Rattle.ra_denial.specs.Writing.{TellsItem};
ghost use Rattle.ra_browse.specs.Answers.{behind, is_answered, moved, unanswered};
ghost use Rattle.ra_browse.specs.Writing.{Replies, AnswersItem};

use crate::dated::get_dated_rev;
use crate::dir::get_dir;
use crate::file::{Wanted, get_file};
use crate::location::get_locations;
use crate::log::get_log;
use crate::look::joined;
use crate::place::reparent;
use crate::stat::stat;
use crate::versions::get_file_revs;
use browse_wire::ask::BrowseCommand;
use browse_wire::fault::BrowseFault;
use browse_wire::told::write_no_locks;
use browse_wire::url::SessionUrl;
use node_base::{NodeKind, NodeName, NodePath, PropName};
use path_tree::Tree;
use ra_denial::{Denial, Stop, deny, stopped, tell};
use ra_item::item::Item;
use ra_serve::{RepoPort, ServeFault, props_asked, tree_asked};
use ra_wire::command::Command;
use ra_wire::reply_writer::{
    write_authorised, write_kind, write_latest, write_proplist, write_value,
};
use std::alloc::Global;
use std::io::Write;

/// Answers an item, a command or none, and goes where it leads.
pub fn answer<P: RepoPort, W: Write + Drop>(
    alloc: Global,
    port: &mut P,
    place: &mut SessionUrl,
    item: Item,
    out: W,
) -> Result<W, ServeFault>
    ensures told { AnswersItem P.RepoPort W.Write port.old port.new out (place_as place.old) (ask_in item) result }
    ensures moved { IfOk result (λ _. place_as place.new ≡ behind (place_as place.old) (ask_in item)) }
    ensures adds { GivesMore W.contents out result }
    ensures stays { PortStays P.RepoPort port.old port.new }
{
    match BrowseCommand::parse(alloc, item) {
        Ok(command) => command_answer(alloc, port, place, &command, out),
        Err(BrowseFault::OutOfMemory) => Err(ServeFault::OutOfMemory),
        Err(BrowseFault::UnknownCommand) => deny(Denial::Unknown, out),
        Err(BrowseFault::BadShape) => deny(Denial::BadShape, out),
        Err(BrowseFault::ReplayForm) => deny(Denial::Unsupported, out),
        Err(BrowseFault::ExcludedDepth) => deny(Denial::Unsupported, out),
    }
}

/// Answers a command, and goes where it leads.
pub fn command_answer<P: RepoPort, W: Write + Drop>(
    alloc: Global,
    port: &mut P,
    place: &mut SessionUrl,
    command: &BrowseCommand,
    out: W,
) -> Result<W, ServeFault>
    ensures told { AnswersItem P.RepoPort W.Write port.old port.new out (place_as place.old)
        (Ok (ask_as command.now)) result }
    ensures moved { IfOk result (λ _. place_as place.new ≡ moved (place_as place.old) (ask_as command.now)) }
    ensures adds { GivesMore W.contents out result }
    ensures stays { PortStays P.RepoPort port.old port.new }
{
    if is_answered(command) {
        return answered(alloc, port, place, command, out);
    }
    deny(unanswered(command), out)
}

// Answers a command that is answered.
fn answered<P: RepoPort, W: Write + Drop>(
    alloc: Global,
    port: &mut P,
    place: &mut SessionUrl,
    command: &BrowseCommand,
    out: W,
) -> Result<W, ServeFault>
    requires taken { is_answered (ask_as command.now) ≡ true }
    ensures told { AnswersItem P.RepoPort W.Write port.old port.new out (place_as place.old)
        (Ok (ask_as command.now)) result }
    ensures moved { IfOk result (λ _. place_as place.new ≡ moved (place_as place.old) (ask_as command.now)) }
    ensures adds { GivesMore W.contents out result }
    ensures stays { PortStays P.RepoPort port.old port.new }
{
    match authorise(out) {
        Ok(out) => reply(alloc, port, place, command, out),
        Err(fault) => Err(fault),
    }
}

// Whether a command is one that is answered.
fn is_answered(command: &BrowseCommand) -> bool
    ensures { result ≡ is_answered (ask_as command.now) }
{
    match command {
        BrowseCommand::Plain(command) => is_plain(command),
        BrowseCommand::Stat(..) => true,
        BrowseCommand::Reparent(_) => true,
        BrowseCommand::GetLock(_) => true,
        BrowseCommand::GetLocks(..) => true,
        BrowseCommand::GetLocations(..) => true,
        BrowseCommand::Log(_) => true,
        BrowseCommand::GetFileRevs(..) => true,
        BrowseCommand::GetDatedRev(_) => true,
        _ => false,
    }
}

// What a command is told that isn't answered. A client does by logs what a server doesn't know.
fn unanswered(command: &BrowseCommand) -> Denial
    ensures { result ≡ unanswered (ask_as command.now) }
{
    match command {
        BrowseCommand::GetLocationSegments(..) => Denial::Unknown,
        _ => Denial::Unsupported,
    }
}

// The same of a command that changes nothing and is no replay.
fn is_plain(command: &Command) -> bool
    ensures { result ≡ is_answered (Plain (command_as command.now)) }
{
    match command {
        Command::ChangeProp(..) => false,
        Command::Replay(_) => false,
        Command::ReplayRange(..) => false,
        _ => true,
    }
}

/// What stands before the answer to a command.
pub fn authorise<W: Write + Drop>(out: W) -> Result<W, ServeFault>
    ensures { TellsItem W.Write out authorised result }
{
    let mut out = out;
    write_authorised(&mut out)?;
    Ok(out)
}

// Answers a command behind that.
fn reply<P: RepoPort, W: Write + Drop>(
    alloc: Global,
    port: &mut P,
    place: &mut SessionUrl,
    command: &BrowseCommand,
    out: W,
) -> Result<W, ServeFault>
    ensures told { Replies P.RepoPort W.Write port.old port.new out (place_as place.old) (ask_as command.now) result }
    ensures moved { IfOk result (λ _. place_as place.new ≡ moved (place_as place.old) (ask_as command.now)) }
    ensures adds { GivesMore W.contents out result }
    ensures stays { PortStays P.RepoPort port.old port.new }
{
    match command {
        BrowseCommand::Plain(command) => plain(alloc, port, place, command, out),
        BrowseCommand::Stat(path, number) => stat(alloc, port, place, path, *number, out),
        BrowseCommand::Reparent(url) => reparent(alloc, place, url.as_slice(), out),
        BrowseCommand::GetLock(_) => no_lock(out),
        BrowseCommand::GetLocks(..) => no_lock(out),
        BrowseCommand::Log(order) => get_log(alloc, port, place, order, out),
        BrowseCommand::GetLocations(path, peg, numbers) => {
            get_locations(alloc, port, place, path, *peg, numbers.as_slice(), out)
        }
        BrowseCommand::GetLocationSegments(..) => deny(Denial::Unknown, out),
        BrowseCommand::GetFileRevs(path, start, end, _) => {
            get_file_revs(alloc, port, place, path, *start, *end, out)
        }
        BrowseCommand::Update(_) => deny(Denial::Unsupported, out),
        BrowseCommand::Switch(_) => deny(Denial::Unsupported, out),
        BrowseCommand::Status(_) => deny(Denial::Unsupported, out),
        BrowseCommand::Diff(_) => deny(Denial::Unsupported, out),
        BrowseCommand::GetDatedRev(date) => get_dated_rev(port, date.as_slice(), out),
    }
}

// Tells that there are no locks.
fn no_lock<W: Write + Drop>(out: W) -> Result<W, ServeFault>
    ensures { TellsItem W.Write out no_locks result }
{
    let mut out = out;
    write_no_locks(&mut out)?;
    Ok(out)
}

// Answers a command that a server without browsing has too.
fn plain<P: RepoPort, W: Write + Drop>(
    alloc: Global,
    port: &mut P,
    place: &SessionUrl,
    command: &Command,
    out: W,
) -> Result<W, ServeFault>
    ensures told { Replies P.RepoPort W.Write port.old port.new out (place_as place.now)
        (Plain (command_as command.now)) result }
    ensures adds { GivesMore W.contents out result }
    ensures stays { PortStays P.RepoPort port.old port.new }
{
    match command {
        Command::LatestRev => latest(port, out),
        Command::CheckPath(path, number) => check_path(alloc, port, place, path, *number, out),
        Command::GetFile(path, number, props, contents) => {
            let wanted = Wanted {
                props: *props,
                contents: *contents,
            };
            get_file(alloc, port, place, path, *number, wanted, out)
        }
        Command::GetDir(path, number, props, contents) => {
            let wanted = Wanted {
                props: *props,
                contents: *contents,
            };
            get_dir(alloc, port, place, path, *number, wanted, out)
        }
        Command::RevProplist(number) => proplist(port, *number, out),
        Command::RevProp(number, name) => prop(port, *number, name, out),
        _ => deny(Denial::Unsupported, out),
    }
}

fn latest<P: RepoPort, W: Write + Drop>(port: &mut P, out: W) -> Result<W, ServeFault>
    ensures told { (at : Url) → Replies P.RepoPort W.Write port.old port.new out at (Plain LatestRev) result }
    ensures adds { GivesMore W.contents out result }
    ensures stays { PortStays P.RepoPort port.old port.new }
{
    match port.latest() {
        Ok(head) => {
            let mut out = out;
            write_latest(&mut out, head)?;
            Ok(out)
        }
        Err(fault) => tell(Stop::Port(fault), out),
    }
}

fn check_path<P: RepoPort, W: Write + Drop>(
    alloc: Global,
    port: &mut P,
    place: &SessionUrl,
    path: &NodePath,
    number: Option<u64>,
    out: W,
) -> Result<W, ServeFault>
    ensures told { Replies P.RepoPort W.Write port.old port.new out (place_as place.now)
        (Plain (CheckPath path.now number)) result }
    ensures adds { GivesMore W.contents out result }
    ensures stays { PortStays P.RepoPort port.old port.new }
{
    match joined(alloc, &place.path, path) {
        Ok(names) => tell_kind(port, names.as_slice(), number, out),
        Err(_) => Err(ServeFault::OutOfMemory),
    }
}

// Tells what stands at a path from the repository's root.
fn tell_kind<P: RepoPort, W: Write + Drop>(
    port: &mut P,
    names: &[NodeName],
    number: Option<u64>,
    out: W,
) -> Result<W, ServeFault>
    ensures told { (at : Url) (p : Path) → names.now ≡ at.1 ++ p → Replies P.RepoPort W.Write port.old port.new out at
        (Plain (CheckPath p number)) result }
    ensures adds { GivesMore W.contents out result }
    ensures stays { PortStays P.RepoPort port.old port.new }
{
    match tree_asked(port, number) {
        Ok((_, tree)) => {
            let mut out = out;
            write_kind(&mut out, kind_at(&tree, names))?;
            Ok(out)
        }
        Err(fault) => tell(stopped(fault), out),
    }
}

// What stands at a path.
fn kind_at(tree: &Tree, path: &[NodeName]) -> Option<NodeKind>
    ensures { result ≡ option_map kind_of (finite.get tree.now path.now) }
{
    match tree.get(path) {
        Some(node) => Some(node.kind()),
        None => None,
    }
}

fn proplist<P: RepoPort, W: Write + Drop>(
    port: &mut P,
    number: u64,
    out: W,
) -> Result<W, ServeFault>
    ensures told { (at : Url) → Replies P.RepoPort W.Write port.old port.new out at
        (Plain (RevProplist number)) result }
    ensures adds { GivesMore W.contents out result }
    ensures stays { PortStays P.RepoPort port.old port.new }
{
    match props_asked(port, number) {
        Ok(props) => {
            let mut out = out;
            write_proplist(&mut out, &props)?;
            Ok(out)
        }
        Err(fault) => tell(stopped(fault), out),
    }
}

fn prop<P: RepoPort, W: Write + Drop>(
    port: &mut P,
    number: u64,
    name: &PropName,
    out: W,
) -> Result<W, ServeFault>
    ensures told { (at : Url) → Replies P.RepoPort W.Write port.old port.new out at
        (Plain (RevProp number name.now)) result }
    ensures adds { GivesMore W.contents out result }
    ensures stays { PortStays P.RepoPort port.old port.new }
{
    match props_asked(port, number) {
        Ok(props) => {
            let mut out = out;
            write_value(&mut out, props.get(name.as_bytes()))?;
            Ok(out)
        }
        Err(fault) => tell(stopped(fault), out),
    }
}
