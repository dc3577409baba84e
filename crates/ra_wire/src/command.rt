//! What a client asks.

ghost use Rattle.std.specs.Prelude.{None};
ghost use Rattle.ra_item.specs.Items.{Nested};
ghost use Rattle.ra_wire.specs.Params.{left_of, Reads, Misses};
ghost use Rattle.ra_wire.specs.Commands.{previous_as, command_as, Judged};
ghost use Rattle.ra_wire.specs.Reading.{command_in, named, check_path_in, get_file_in, get_dir_in, rev_proplist_in};
ghost use Rattle.ra_wire.specs.Reading.{rev_prop_in, change_rev_prop_in, change_rev_prop2_in, replay_in};
ghost use Rattle.ra_wire.specs.Reading.{replay_range_in, previous_in, ReadIs, last_read, replayed};

use crate::fault::WireFault;
use crate::params::Params;
use node_base::{NodePath, PropName};
use ra_item::item::Item;
use std::alloc::Global;

/// The value that a change of a property replaces.
#[derive(Drop)]
pub enum Previous {
    /// Any value, or none.
    Any,
    /// No value.
    Absent,
    /// This value.
    Value(Vec<u8>),
}

/// What a client asks. A missing revision is the newest one.
#[derive(Drop)]
pub enum Command {
    /// `get-latest-rev`
    LatestRev,
    /// `check-path`: a path and a revision.
    CheckPath(NodePath, Option<u64>),
    /// `get-file`: a path, a revision, whether properties and whether the text is wanted.
    GetFile(NodePath, Option<u64>, bool, bool),
    /// `get-dir`: a path, a revision, whether properties and whether entries are wanted.
    GetDir(NodePath, Option<u64>, bool, bool),
    /// `rev-proplist`
    RevProplist(u64),
    /// `rev-prop`
    RevProp(u64, PropName),
    /// `change-rev-prop` and `change-rev-prop2`: a revision, a name, the new value or none, and what it replaces.
    ChangeProp(u64, PropName, Option<Vec<u8>>, Previous),
    /// `replay`
    Replay(u64),
    /// `replay-range`: the first and the last revision.
    ReplayRange(u64, u64),
}

impl Command {
    /// The command that an item is. `BadShape` (48) where it is no name with parameters in brackets, or its parameters
    /// aren't those of its name; `UnknownCommand` (47) for another name; `ReplayForm` (43); `OutOfMemory` (70).
    pub fn parse(alloc: Global, item: Item) -> Result<Command, WireFault>
        ensures read { ReadIs result (command_in item) }
        ensures judged { Judged item result }
    {
        read(alloc, item)
    }
}

// The command that an item is read as.
fn read(alloc: Global, item: Item) -> Result<Command, WireFault>
    ensures { ReadIs result (command_in item) }
{
    let mut parts = Params::of(item)?;
    let word = parts.word()?;
    let mut params = parts.list()?;
    named(alloc, word.as_slice(), &mut params)
}

// The command of a name with parameters.
fn named(alloc: Global, word: &[u8], params: &mut Params) -> Result<Command, WireFault>
    ensures { ReadIs result (named word.now (left_of params.old)) }
{
    if word == b"get-latest-rev".as_slice() {
        Ok(Command::LatestRev)
    } else if word == b"check-path".as_slice() {
        check_path(alloc, params)
    } else if word == b"get-file".as_slice() {
        get_file(alloc, params)
    } else if word == b"get-dir".as_slice() {
        get_dir(alloc, params)
    } else if word == b"rev-proplist".as_slice() {
        rev_proplist(params)
    } else if word == b"rev-prop".as_slice() {
        rev_prop(params)
    } else if word == b"change-rev-prop".as_slice() {
        change_rev_prop(params)
    } else if word == b"change-rev-prop2".as_slice() {
        change_rev_prop2(params)
    } else if word == b"replay".as_slice() {
        replay(params)
    } else if word == b"replay-range".as_slice() {
        replay_range(params)
    } else {
        Err(WireFault::UnknownCommand)
    }
}

fn check_path(alloc: Global, params: &mut Params) -> Result<Command, WireFault>
    ensures { ReadIs result (check_path_in (left_of params.old)) }
{
    let path = params.path(alloc)?;
    Ok(Command::CheckPath(path, params.maybe_number()?))
}

fn get_file(alloc: Global, params: &mut Params) -> Result<Command, WireFault>
    ensures { ReadIs result (get_file_in (left_of params.old)) }
{
    let path = params.path(alloc)?;
    let number = params.maybe_number()?;
    let props = params.boolean()?;
    Ok(Command::GetFile(path, number, props, params.boolean()?))
}

fn get_dir(alloc: Global, params: &mut Params) -> Result<Command, WireFault>
    ensures { ReadIs result (get_dir_in (left_of params.old)) }
{
    let path = params.path(alloc)?;
    let number = params.maybe_number()?;
    let props = params.boolean()?;
    let contents = params.boolean()?;
    let _fields = params.last_list()?;
    Ok(Command::GetDir(path, number, props, contents))
}

fn rev_proplist(params: &mut Params) -> Result<Command, WireFault>
    ensures { ReadIs result (rev_proplist_in (left_of params.old)) }
{
    Ok(Command::RevProplist(params.number()?))
}

fn rev_prop(params: &mut Params) -> Result<Command, WireFault>
    ensures { ReadIs result (rev_prop_in (left_of params.old)) }
{
    let number = params.number()?;
    Ok(Command::RevProp(number, params.prop_name()?))
}

fn change_rev_prop(params: &mut Params) -> Result<Command, WireFault>
    ensures { ReadIs result (change_rev_prop_in (left_of params.old)) }
{
    let number = params.number()?;
    let name = params.prop_name()?;
    let value = params.last_text()?;
    Ok(Command::ChangeProp(number, name, value, Previous::Any))
}

fn change_rev_prop2(params: &mut Params) -> Result<Command, WireFault>
    ensures { ReadIs result (change_rev_prop2_in (left_of params.old)) }
{
    let number = params.number()?;
    let name = params.prop_name()?;
    let value = params.maybe_text()?;
    let mut inner = params.list()?;
    Ok(Command::ChangeProp(number, name, value, replaced(&mut inner)?))
}

// What a change of a property replaces.
fn replaced(params: &mut Params) -> Result<Previous, WireFault>
    ensures read { Reads (previous_in (left_of params.old)) previous_as result }
    ensures none { Misses (previous_in (left_of params.old)) result }
{
    let any = params.boolean()?;
    match params.last_text()? {
        None if any => Ok(Previous::Any),
        None => Ok(Previous::Absent),
        Some(_) if any => Err(WireFault::BadShape),
        Some(value) => Ok(Previous::Value(value)),
    }
}

fn replay(params: &mut Params) -> Result<Command, WireFault>
    ensures { ReadIs result (replay_in (left_of params.old)) }
{
    let number = params.number()?;
    let low = params.number()?;
    whole(low, params.boolean()?, Command::Replay(number))
}

fn replay_range(params: &mut Params) -> Result<Command, WireFault>
    ensures { ReadIs result (replay_range_in (left_of params.old)) }
{
    let start = params.number()?;
    let end = params.number()?;
    let low = params.number()?;
    whole(low, params.boolean()?, Command::ReplayRange(start, end))
}

// A replay against revision 0 and with texts.
fn whole(low: u64, deltas: bool, command: Command) -> Result<Command, WireFault>
    ensures { ReadIs result (replayed low deltas (command_as command)) }
{
    if low == 0 && deltas {
        Ok(command)
    } else {
        Err(WireFault::ReplayForm)
    }
}
