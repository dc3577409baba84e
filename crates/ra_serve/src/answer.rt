//! One command and its answer.

ghost use Rattle.std.specs.Prelude.{◌≡◌, Some};
ghost use Rattle.std.specs.Option.{option_copied, option_map};
ghost use Rattle.std.specs.FinMap as finite;
ghost use Rattle.node_base.specs.Tree.{kind_of};
ghost use Rattle.repo_core.specs.Refusals.{wanted};
ghost use Rattle.ra_item.specs.Items.{spell};
ghost use Rattle.ra_wire.specs.Commands.{command_as, previous_as, LatestRev, CheckPath, RevProplist, RevProp};
ghost use Rattle.ra_wire.specs.Commands.{ChangeProp};
ghost use Rattle.ra_wire.specs.Reading.{command_in};
ghost use Rattle.ra_wire.specs.Replies.{authorised};
ghost use Rattle.ra_serve.specs.Answers.{wanted_of};
ghost use Rattle.ra_serve.specs.Tellings.{GoesOn, Sends, TellsCommand, RepliesTo, GivesMore};

use crate::ask::{change_asked, props_asked, tree_asked};
use crate::browse::{get_dir, get_file};
use crate::fault::ServeFault;
use crate::port::RepoPort;
use crate::replay::{range, replay};
use crate::told::{bad_shape, read_only, refuse, replay_form, unknown_command};
use node_base::{NodeKind, NodePath, PropName};
use path_tree::Tree;
use ra_item::item::Item;
use ra_wire::command::{Command, Previous};
use ra_wire::fault::WireFault;
use ra_wire::reply_writer::{
    write_authorised, write_done, write_kind, write_latest, write_proplist, write_value,
};
use repo_core::Expected;
use std::alloc::Global;
use std::io::Write;

/// Answers an item: a command, or what is none.
pub fn answer<P: RepoPort, W: Write + Drop>(
    alloc: Global,
    port: &mut P,
    item: Item,
    out: W,
) -> Result<W, ServeFault>
    ensures told { RepliesTo P.RepoPort W.contents port.old port.new out (command_in item) result }
    ensures adds { GivesMore W.contents out result }
    ensures goes { GoesOn P.refusals P.is_mirror port.old port.new }
{
    match Command::parse(alloc, item) {
        Ok(command) => {
            let out = authorise(out)?;
            reply(alloc, port, command, out)
        }
        Err(WireFault::OutOfMemory) => Err(ServeFault::OutOfMemory),
        Err(WireFault::ReplayForm) => {
            let out = authorise(out)?;
            replay_form(out)
        }
        Err(WireFault::UnknownCommand) => unknown_command(out),
        Err(WireFault::BadShape) => bad_shape(out),
    }
}

// What stands before the answer to a command.
fn authorise<W: Write + Drop>(out: W) -> Result<W, ServeFault>
    ensures { Sends W.contents out (spell authorised) result }
{
    let mut out = out;
    write_authorised(&mut out)?;
    Ok(out)
}

// Answers a command behind that.
fn reply<P: RepoPort, W: Write + Drop>(
    alloc: Global,
    port: &mut P,
    command: Command,
    out: W,
) -> Result<W, ServeFault>
    ensures told { TellsCommand P.RepoPort W.contents port.old port.new out (command_as command) result }
    ensures adds { GivesMore W.contents out result }
    ensures goes { GoesOn P.refusals P.is_mirror port.old port.new }
{
    match command {
        Command::LatestRev => latest(port, out),
        Command::CheckPath(path, number) => check_path(port, &path, number, out),
        Command::GetFile(path, number, props, contents) => {
            get_file(port, &path, number, props, contents, out)
        }
        Command::GetDir(path, number, props, contents) => {
            get_dir(alloc, port, &path, number, props, contents, out)
        }
        Command::RevProplist(number) => proplist(port, number, out),
        Command::RevProp(number, name) => prop(port, number, &name, out),
        Command::ChangeProp(number, name, value, old) => {
            change(port, number, &name, &value, old, out)
        }
        Command::Replay(number) => replay(alloc, port, number, out),
        Command::ReplayRange(first, last) => range(alloc, port, first, last, out),
    }
}

fn latest<P: RepoPort, W: Write + Drop>(port: &mut P, out: W) -> Result<W, ServeFault>
    ensures told { TellsCommand P.RepoPort W.contents port.old port.new out LatestRev result }
    ensures adds { GivesMore W.contents out result }
    ensures goes { GoesOn P.refusals P.is_mirror port.old port.new }
{
    match port.latest() {
        Ok(head) => {
            let mut out = out;
            write_latest(&mut out, head)?;
            Ok(out)
        }
        Err(fault) => refuse(fault, out),
    }
}

fn check_path<P: RepoPort, W: Write + Drop>(
    port: &mut P,
    path: &NodePath,
    number: Option<u64>,
    out: W,
) -> Result<W, ServeFault>
    ensures told { TellsCommand P.RepoPort W.contents port.old port.new out (CheckPath path.now number) result }
    ensures adds { GivesMore W.contents out result }
    ensures goes { GoesOn P.refusals P.is_mirror port.old port.new }
{
    match tree_asked(port, number) {
        Ok((_, tree)) => {
            let mut out = out;
            write_kind(&mut out, kind_at(&tree, path))?;
            Ok(out)
        }
        Err(fault) => refuse(fault, out),
    }
}

// What stands at a path.
fn kind_at(tree: &Tree, path: &NodePath) -> Option<NodeKind>
    ensures { result ≡ option_map kind_of (finite.get tree.now path.now) }
{
    match tree.get(path.names()) {
        Some(node) => Some(node.kind()),
        None => None,
    }
}

fn proplist<P: RepoPort, W: Write + Drop>(
    port: &mut P,
    number: u64,
    out: W,
) -> Result<W, ServeFault>
    ensures told { TellsCommand P.RepoPort W.contents port.old port.new out (RevProplist number) result }
    ensures adds { GivesMore W.contents out result }
    ensures goes { GoesOn P.refusals P.is_mirror port.old port.new }
{
    match props_asked(port, number) {
        Ok(props) => {
            let mut out = out;
            write_proplist(&mut out, &props)?;
            Ok(out)
        }
        Err(fault) => refuse(fault, out),
    }
}

fn prop<P: RepoPort, W: Write + Drop>(
    port: &mut P,
    number: u64,
    name: &PropName,
    out: W,
) -> Result<W, ServeFault>
    ensures told { TellsCommand P.RepoPort W.contents port.old port.new out (RevProp number name.now) result }
    ensures adds { GivesMore W.contents out result }
    ensures goes { GoesOn P.refusals P.is_mirror port.old port.new }
{
    match props_asked(port, number) {
        Ok(props) => {
            let mut out = out;
            write_value(&mut out, props.get(name.as_bytes()))?;
            Ok(out)
        }
        Err(fault) => refuse(fault, out),
    }
}

// The value that a change wants to find.
fn expected(old: Previous) -> Expected
    ensures { wanted result ≡ wanted_of (previous_as old) }
{
    match old {
        Previous::Any => Expected::DontCare,
        Previous::Absent => Expected::Absent,
        Previous::Value(value) => Expected::Value(value),
    }
}

// A value that may be missing, lent.
fn lent(value: &Option<Vec<u8>>) -> Option<&[u8]>
    ensures { option_copied result ≡ option_map (λ v. v.items) value.now }
{
    match value {
        Some(value) => Some(value.as_slice()),
        None => None,
    }
}

fn change<P: RepoPort, W: Write + Drop>(
    port: &mut P,
    number: u64,
    name: &PropName,
    value: &Option<Vec<u8>>,
    old: Previous,
    out: W,
) -> Result<W, ServeFault>
    ensures told { TellsCommand P.RepoPort W.contents port.old port.new out
        (ChangeProp number name.now (option_map (λ v. v.items) value.now) (previous_as old)) result }
    ensures adds { GivesMore W.contents out result }
    ensures goes { GoesOn P.refusals P.is_mirror port.old port.new }
{
    if port.read_only() {
        return read_only(out);
    }
    let expected = expected(old);
    match change_asked(port, number, name, lent(value), &expected) {
        Ok(()) => {
            let mut out = out;
            write_done(&mut out)?;
            Ok(out)
        }
        Err(fault) => refuse(fault, out),
    }
}
