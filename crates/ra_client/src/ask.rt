//! Commands and their answers.

ghost use Rattle.std.specs.Prelude.{◌≡◌, ◌≤◌, List, ℕ, length, IfErr, IfOk, OnOk, Ok};
ghost use Rattle.dump_load.specs.Trees.{Makes};
ghost use Rattle.std.specs.Io.KnownBytes.{Appends};
ghost use Rattle.node_base.specs.declared.limits.TheConstants.{REVISION};
ghost use Rattle.byte_streams.specs.Sinks.{inner_of};
ghost use Rattle.ra_wire.specs.Commands.{command_as};
ghost use Rattle.ra_client.specs.Exchanges.{SendsCommand, TakesAnswer, TakesRevision, TakesSet, AsksLatest, AsksProps};
ghost use Rattle.ra_client.specs.Exchanges.{AsksRevision, AsksDeltas, TakesDeltaRevision, TakesDeltaSet};
ghost use Rattle.ra_client.specs.Said.{number_said, proplist_said, proplist_past, done_said, same};
ghost use Rattle.ra_client.specs.Steps.{Sends, Gives, TakesItem, TakesWithin, IsHandedOn, IsFlushed};

use crate::fault::ClientFault;
use crate::take::{
    take_authorised, take_done, take_number, take_proplist, take_revprops, take_set,
    take_set_of_deltas,
};
use byte_streams::{Input, Output, Sink};
use dump_load::Applied;
use node_base::{Props, RevNo};
use path_tree::Tree;
use ra_item::stream::ItemStream;
use ra_wire::command::Command;
use ra_wire::command_writer::write_command;
use std::alloc::Global;
use std::io;

/// Sends a command.
pub fn send<O: Output + Drop>(out: &mut Sink<O>, command: &Command) -> Result<(), ClientFault>
    ensures sent { SendsCommand (command_as command.now) out.old out.new result }
{
    let count = out.begin();
    let answer = write_command(out, command);
    hand_on(out, count, answer)
}

/// Hands on what a run of writes wrote that was begun at this count.
pub fn hand_on<O: Output + Drop>(
    out: &mut Sink<O>,
    count: u64,
    answer: io::Result<()>,
) -> Result<(), ClientFault>
    ensures handed { IsHandedOn count answer out.old out.new result }
{
    match out.answered(count, answer) {
        Ok(()) => flush(out),
        Err(fault) => Err(ClientFault::from(fault)),
    }
}

// Hands on what is held back.
fn flush<O: Output + Drop>(out: &mut Sink<O>) -> Result<(), ClientFault>
    ensures handed { IsFlushed out.old out.new result }
{
    match out.hand_on() {
        Ok(()) => Ok(()),
        Err(fault) => Err(ClientFault::from(fault)),
    }
}

// A revision's number as it is written.
fn as_written(number: RevNo) -> u64
    ensures { result ≡ number }
{
    u64::from(number.get())
}

/// Asks for the newest revision.
pub fn ask_latest<I: Input + Drop, O: Output + Drop>(
    alloc: Global,
    items: &mut ItemStream<I>,
    out: &mut Sink<O>,
) -> Result<RevNo, ClientFault>
    ensures asked { AsksLatest (items.old, out.old) (items.new, out.new) result }
{
    match send(out, &Command::LatestRev) {
        Ok(()) => take_latest(alloc, items),
        Err(fault) => Err(fault),
    }
}

// Takes the answer to that.
fn take_latest<I: Input + Drop>(
    alloc: Global,
    items: &mut ItemStream<I>,
) -> Result<RevNo, ClientFault>
    ensures taken { TakesAnswer (TakesItem same number_said) items.old items.new result }
{
    match take_authorised(alloc, items) {
        Ok(()) => take_number(items),
        Err(fault) => Err(fault),
    }
}

/// Asks for the properties of a revision.
pub fn ask_props<I: Input + Drop, O: Output + Drop>(
    alloc: Global,
    items: &mut ItemStream<I>,
    out: &mut Sink<O>,
    number: RevNo,
) -> Result<Props, ClientFault>
    ensures asked { AsksProps number (items.old, out.old) (items.new, out.new) result }
{
    let n = as_written(number);
    match send(out, &Command::RevProplist(n)) {
        Ok(()) => take_props(alloc, items),
        Err(fault) => Err(fault),
    }
}

// Takes the answer to that.
fn take_props<I: Input + Drop>(
    alloc: Global,
    items: &mut ItemStream<I>,
) -> Result<Props, ClientFault>
    ensures taken { TakesAnswer (TakesWithin same proplist_said proplist_past) items.old items.new result }
{
    match take_authorised(alloc, items) {
        Ok(()) => take_proplist(alloc, items),
        Err(fault) => Err(fault),
    }
}

/// Asks for a revision: the set that makes it from the trees before it, with the tree that it makes, and its
/// properties.
pub fn ask_revision<I: Input + Drop, O: Output + Drop>(
    alloc: Global,
    items: &mut ItemStream<I>,
    out: &mut Sink<O>,
    number: RevNo,
    trees: &[Tree],
) -> Result<(Applied, Props), ClientFault>
    requires few { length trees.now ≤ REVISION }
    ensures asked { AsksRevision number trees.now (items.old, out.old) (items.new, out.new) result }
    ensures makes { IfOk result (λ r. Makes trees.now r.0.set r.0.tree) }
{
    let n = as_written(number);
    match send(out, &Command::ReplayRange(n, n)) {
        Ok(()) => take_replay(alloc, items, trees),
        Err(fault) => Err(fault),
    }
}

// Takes the answer to that.
fn take_replay<I: Input + Drop>(
    alloc: Global,
    items: &mut ItemStream<I>,
    trees: &[Tree],
) -> Result<(Applied, Props), ClientFault>
    requires few { length trees.now ≤ REVISION }
    ensures taken { TakesAnswer (TakesRevision trees.now) items.old items.new result }
    ensures makes { IfOk result (λ r. Makes trees.now r.0.set r.0.tree) }
{
    match take_authorised(alloc, items) {
        Ok(()) => take_revision(alloc, items, trees),
        Err(fault) => Err(fault),
    }
}

// Takes the properties, and what stands behind them.
fn take_revision<I: Input + Drop>(
    alloc: Global,
    items: &mut ItemStream<I>,
    trees: &[Tree],
) -> Result<(Applied, Props), ClientFault>
    requires few { length trees.now ≤ REVISION }
    ensures taken { TakesRevision trees.now items.old items.new result }
    ensures makes { IfOk result (λ r. Makes trees.now r.0.set r.0.tree) }
{
    match take_revprops(alloc, items) {
        Ok(props) => take_changes(alloc, items, trees, props),
        Err(fault) => Err(fault),
    }
}

// Takes the edit, and what stands behind it.
fn take_changes<I: Input + Drop>(
    alloc: Global,
    items: &mut ItemStream<I>,
    trees: &[Tree],
    props: Props,
) -> Result<(Applied, Props), ClientFault>
    requires few { length trees.now ≤ REVISION }
    ensures taken { TakesSet trees.now props items.old items.new result }
    ensures makes { IfOk result (λ r. Makes trees.now r.0.set r.0.tree) }
{
    match take_set(alloc, trees, items) {
        Ok(applied) => take_end(items, applied, props),
        Err(fault) => Err(fault),
    }
}

// Takes the end of the answer.
fn take_end<I: Input + Drop>(
    items: &mut ItemStream<I>,
    applied: Applied,
    props: Props,
) -> Result<(Applied, Props), ClientFault>
    ensures taken { Gives (TakesItem same done_said) (applied, props) items.old items.new result }
{
    match take_done(items) {
        Ok(()) => Ok((applied, props)),
        Err(fault) => Err(fault),
    }
}

/// Asks for a revision as [`ask_revision`] does, but that its texts come as differences.
pub fn ask_deltas<I: Input + Drop, O: Output + Drop>(
    alloc: Global,
    items: &mut ItemStream<I>,
    out: &mut Sink<O>,
    number: RevNo,
    trees: &[Tree],
) -> Result<(Applied, Props), ClientFault>
    requires few { length trees.now ≤ REVISION }
    ensures asked { AsksDeltas number trees.now (items.old, out.old) (items.new, out.new) result }
    ensures makes { IfOk result (λ r. Makes trees.now r.0.set r.0.tree) }
{
    let only = as_written(number);
    match send(out, &Command::ReplayRange(only, only)) {
        Ok(()) => take_deltas(alloc, items, trees),
        Err(fault) => Err(fault),
    }
}

// Takes the answer to that.
fn take_deltas<I: Input + Drop>(
    alloc: Global,
    items: &mut ItemStream<I>,
    trees: &[Tree],
) -> Result<(Applied, Props), ClientFault>
    requires few { length trees.now ≤ REVISION }
    ensures taken { TakesAnswer (TakesDeltaRevision trees.now) items.old items.new result }
    ensures makes { IfOk result (λ r. Makes trees.now r.0.set r.0.tree) }
{
    match take_authorised(alloc, items) {
        Ok(()) => take_delta_revision(alloc, items, trees),
        Err(fault) => Err(fault),
    }
}

// Takes the properties, and what stands behind them.
fn take_delta_revision<I: Input + Drop>(
    alloc: Global,
    items: &mut ItemStream<I>,
    trees: &[Tree],
) -> Result<(Applied, Props), ClientFault>
    requires few { length trees.now ≤ REVISION }
    ensures taken { TakesDeltaRevision trees.now items.old items.new result }
    ensures makes { IfOk result (λ r. Makes trees.now r.0.set r.0.tree) }
{
    match take_revprops(alloc, items) {
        Ok(props) => take_delta_changes(alloc, items, trees, props),
        Err(fault) => Err(fault),
    }
}

// Takes the edit, and what stands behind it.
fn take_delta_changes<I: Input + Drop>(
    alloc: Global,
    items: &mut ItemStream<I>,
    trees: &[Tree],
    props: Props,
) -> Result<(Applied, Props), ClientFault>
    requires few { length trees.now ≤ REVISION }
    ensures taken { TakesDeltaSet trees.now props items.old items.new result }
    ensures makes { IfOk result (λ r. Makes trees.now r.0.set r.0.tree) }
{
    match take_set_of_deltas(alloc, trees, items) {
        Ok(applied) => take_end(items, applied, props),
        Err(fault) => Err(fault),
    }
}
