//! Items of a stream, as what they say to a client.

ghost use Rattle.std.specs.Prelude.{◌≡◌, ◌≤◌, length, IfOk};
ghost use Rattle.node_base.specs.declared.limits.TheConstants.{REVISION};
ghost use Rattle.dump_load.specs.Trees.{Makes};
ghost use Rattle.ra_client.specs.Found.{repository_as};
ghost use Rattle.ra_client.specs.Said.{authorised_said, done_said, number_said, proplist_said, revprops_said, same};
ghost use Rattle.ra_client.specs.Said.{proplist_past, revprops_past, greeting_said, asks_said, welcome_said};
ghost use Rattle.ra_client.specs.Steps.{TakesDeltas, TakesItem, TakesWithin, TakesEdit, IsComing};

use crate::answer;
use crate::answer::Repository;
use crate::fault::ClientFault;
use byte_streams::Input;
use dump_load::Applied;
use edit_road::receive::receive_set;
use edit_road::receive_deltas::receive_set_of_deltas;
use node_base::{Props, RevNo};
use path_tree::Tree;
use ra_item::item::Item;
use ra_item::stream::ItemStream;
use std::alloc::Global;

// The next item, which has to come.
fn next_item<I: Input + Drop>(items: &mut ItemStream<I>) -> Result<Item, ClientFault>
    ensures { IsComing items.old items.new result }
{
    match items.next() {
        Ok(Some(item)) => Ok(item),
        Ok(None) => Err(ClientFault::BadAnswer),
        Err(fault) => Err(ClientFault::from(fault)),
    }
}

/// Takes what stands in front of the answer to a command.
pub fn take_authorised<I: Input + Drop>(
    alloc: Global,
    items: &mut ItemStream<I>,
) -> Result<(), ClientFault>
    ensures taken { TakesItem same authorised_said items.old items.new result }
{
    match next_item(items) {
        Ok(item) => answer::authorised_by(alloc, item),
        Err(fault) => Err(fault),
    }
}

/// Takes an answer that says that something was done.
pub fn take_done<I: Input + Drop>(items: &mut ItemStream<I>) -> Result<(), ClientFault>
    ensures taken { TakesItem same done_said items.old items.new result }
{
    match next_item(items) {
        Ok(item) => answer::done_by(item),
        Err(fault) => Err(fault),
    }
}

/// Takes the number of the newest revision.
pub fn take_number<I: Input + Drop>(items: &mut ItemStream<I>) -> Result<RevNo, ClientFault>
    ensures taken { TakesItem same number_said items.old items.new result }
{
    match next_item(items) {
        Ok(item) => answer::number_by(item),
        Err(fault) => Err(fault),
    }
}

/// Takes the properties of a revision.
pub fn take_proplist<I: Input + Drop>(
    alloc: Global,
    items: &mut ItemStream<I>,
) -> Result<Props, ClientFault>
    ensures taken { TakesWithin same proplist_said proplist_past items.old items.new result }
{
    match next_item(items) {
        Ok(item) => answer::proplist_by(alloc, item),
        Err(fault) => Err(fault),
    }
}

/// Takes the properties in front of a revision's edit.
pub fn take_revprops<I: Input + Drop>(
    alloc: Global,
    items: &mut ItemStream<I>,
) -> Result<Props, ClientFault>
    ensures taken { TakesWithin same revprops_said revprops_past items.old items.new result }
{
    match next_item(items) {
        Ok(item) => answer::revprops_by(alloc, item),
        Err(fault) => Err(fault),
    }
}

/// Takes a revision's edit, as the set that it makes over the trees before it, with the tree that the set makes.
pub fn take_set<I: Input + Drop>(
    alloc: Global,
    trees: &[Tree],
    items: &mut ItemStream<I>,
) -> Result<Applied, ClientFault>
    requires few { length trees.now ≤ REVISION }
    ensures taken { TakesEdit trees.now items.old items.new result }
    ensures makes { IfOk result (λ a. Makes trees.now a.set a.tree) }
{
    match receive_set(alloc, trees, items) {
        Ok(applied) => Ok(applied),
        Err(fault) => Err(ClientFault::from(fault)),
    }
}

/// Takes a revision's edit whose texts come as differences, as the set that it makes over the trees before it, with the
/// tree that the set makes.
pub fn take_set_of_deltas<I: Input + Drop>(
    alloc: Global,
    trees: &[Tree],
    items: &mut ItemStream<I>,
) -> Result<Applied, ClientFault>
    requires few { length trees.now ≤ REVISION }
    ensures taken { TakesDeltas trees.now items.old items.new result }
    ensures makes { IfOk result (λ a. Makes trees.now a.set a.tree) }
{
    match receive_set_of_deltas(alloc, trees, items) {
        Ok(applied) => Ok(applied),
        Err(fault) => Err(ClientFault::from(fault)),
    }
}

/// Takes a server's greeting.
pub fn take_greeting<I: Input + Drop>(
    alloc: Global,
    items: &mut ItemStream<I>,
) -> Result<(), ClientFault>
    ensures taken { TakesItem same greeting_said items.old items.new result }
{
    match next_item(items) {
        Ok(item) => answer::greeted_by(alloc, item),
        Err(fault) => Err(fault),
    }
}

/// Takes whether a server asks the client who it is.
pub fn take_asked<I: Input + Drop>(
    alloc: Global,
    items: &mut ItemStream<I>,
) -> Result<bool, ClientFault>
    ensures taken { TakesItem same asks_said items.old items.new result }
{
    match next_item(items) {
        Ok(item) => answer::asked_by(alloc, item),
        Err(fault) => Err(fault),
    }
}

/// Takes which repository a server has.
pub fn take_welcome<I: Input + Drop>(
    alloc: Global,
    items: &mut ItemStream<I>,
) -> Result<Repository, ClientFault>
    ensures taken { TakesItem repository_as welcome_said items.old items.new result }
{
    match next_item(items) {
        Ok(item) => answer::welcomed_by(alloc, item),
        Err(fault) => Err(fault),
    }
}
