//! A range of revisions as it comes from a server.
ghost use Rattle.std.specs.Prelude.{◌≡◌, ◌≤◌, ◌<◌, ◌-◌, ◌++◌, suc, Bool, None, [], ◌∷◌, length, OnOk, IfErr};
ghost use Rattle.node_base.specs.declared.limits.TheConstants.{REVISION};
ghost use Rattle.ra_client.specs.Steps.{IsLater};
ghost use Rattle.ra_item.specs.Items.{spell};
ghost use Rattle.ra_serve.specs.Answers.{answer, edits, revision_bytes};
ghost use Rattle.ra_wire.specs.Commands.{ReplayRange};
ghost use Rattle.ra_wire.specs.Reading.{command_in};
ghost use Rattle.ra_wire.specs.Replies.{done};
ghost use Rattle.ra_wire.specs.Requests.{command_item};
ghost use Rattle.session_road.specs.Ranges.{HearsFrom, HearsNext, HearsEdit, IsRevisionOf, IsRange, HasMore, is_no_memory};

use crate::law::each_revision_may_be_heard;
use byte_streams::Input;
use dump_load::{Applied, ChangeSet};
use node_base::{Props, RevNo};
use path_tree::Tree;
use ra_client::{ClientFault, take_authorised, take_done, take_revprops, take_set};
use ra_edit::edit_fault::EditFault;
use ra_edit::law::{written_comes, written_is_taken};
use ra_item::stream::ItemStream;
use repo_core::Repo;
use std::alloc::Global;

/// A revision as it is heard: the set that its edit makes over the trees before it, and its properties.
pub type Heard = (ChangeSet, Props);

/// Takes what a server answers `replay-range` for revisions of this repository, each edit over the trees before its
/// revision: a set whose effect is the revision's tree, and the revision's properties, for each from the first to the
/// last. In whatever pieces the answer comes, only want of memory (70) or an input that failed (49) refuses it.
///
/// Of another answer nothing is said here.
pub fn take_range<I: Input + Drop>(
    alloc: Global,
    repo: &Repo,
    first: RevNo,
    last: RevNo,
    items: &mut ItemStream<I>,
) -> Result<Vec<Heard>, ClientFault>
    requires begun { first < length repo.now.revisions }
    requires there { last < length repo.now.revisions }
    ensures heard { (mirror : Bool) → HearsFrom
        (answer mirror repo.now (command_in (command_item (ReplayRange first last))) None)
        (λ all. IsRange repo.now first last all.items) items.old items.new result }
{
    written_is_taken();
    written_comes();
    match take_authorised(alloc, items) {
        Ok(()) => take_told(alloc, repo, first, last, items),
        Err(fault) => Err(fault),
    }
}

// The revisions, and that this was all.
fn take_told<I: Input + Drop>(
    alloc: Global,
    repo: &Repo,
    first: RevNo,
    last: RevNo,
    items: &mut ItemStream<I>,
) -> Result<Vec<Heard>, ClientFault>
    requires there { last < length repo.now.revisions }
    ensures heard { HearsFrom (edits repo.now first (suc last - first) ++ spell done)
        (λ all. IsRange repo.now first last all.items) items.old items.new result }
{
    let mut found = Vec::new(alloc);
    match take_each(alloc, repo, first, last, items, &mut found) {
        Ok(()) => take_end(items, found),
        Err(fault) => Err(fault),
    }
}

// The end of the answer.
fn take_end<I: Input + Drop>(
    items: &mut ItemStream<I>,
    found: Vec<Heard>,
) -> Result<Vec<Heard>, ClientFault>
    ensures heard { HearsFrom (spell done) (λ all. all ≡ found) items.old items.new result }
{
    written_is_taken();
    written_comes();
    match take_done(items) {
        Ok(()) => Ok(found),
        Err(fault) => Err(fault),
    }
}

// Revision by revision.
fn take_each<I: Input + Drop>(
    alloc: Global,
    repo: &Repo,
    first: RevNo,
    last: RevNo,
    items: &mut ItemStream<I>,
    found: &mut Vec<Heard>,
) -> Result<(), ClientFault>
    requires there { last < length repo.now.revisions }
    requires empty { found.old.items ≡ [] }
    ensures heard { HearsFrom (edits repo.now first (suc last - first))
        (λ _. IsRange repo.now first last found.new.items) items.old items.new result }
    ensures later { OnOk result (IsLater items.old items.new) }
{
    for number in u32::from(first.get())..u32::from(last.get()) + 1 {
        match take_one(alloc, repo, RevNo::new(number as u16), items, found) {
            Ok(()) => {}
            Err(fault) => return Err(fault),
        }
    }
    Ok(())
}

// One revision, behind those that were taken.
fn take_one<I: Input + Drop>(
    alloc: Global,
    repo: &Repo,
    number: RevNo,
    items: &mut ItemStream<I>,
    found: &mut Vec<Heard>,
) -> Result<(), ClientFault>
    requires there { number < length repo.now.revisions }
    ensures heard { HearsFrom (revision_bytes repo.now number)
        (λ _. HasMore (IsRevisionOf repo.now number) found.old.items found.new.items) items.old items.new result }
    ensures later { OnOk result (IsLater items.old items.new) }
{
    match take_revision(alloc, repo, number, items) {
        Ok(revision) => keep(found, revision),
        Err(fault) => Err(fault),
    }
}

// Keeps a revision.
fn keep(found: &mut Vec<Heard>, revision: Heard) -> Result<(), ClientFault>
    ensures kept { OnOk result (found.new.items ≡ found.old.items ++ revision ∷ []) }
    ensures refused { IfErr result is_no_memory }
{
    match found.push(revision) {
        Ok(()) => Ok(()),
        Err(_) => Err(ClientFault::Edit(EditFault::OutOfMemory)),
    }
}

// A revision of a repository, over the trees before it.
fn take_revision<I: Input + Drop>(
    alloc: Global,
    repo: &Repo,
    number: RevNo,
    items: &mut ItemStream<I>,
) -> Result<Heard, ClientFault>
    requires there { number < length repo.now.revisions }
    ensures heard { HearsFrom (revision_bytes repo.now number) (IsRevisionOf repo.now number) items.old items.new result }
    ensures later { OnOk result (IsLater items.old items.new) }
{
    each_revision_may_be_heard(repo, number);
    let all = repo.trees();
    let count = number.index();
    let before = &all[..count];
    take_next(alloc, before, items)
}

// The next revision over the trees before it: the properties in front, and the set that its edit makes.
fn take_next<I: Input + Drop>(
    alloc: Global,
    trees: &[Tree],
    items: &mut ItemStream<I>,
) -> Result<Heard, ClientFault>
    requires few { length trees.now ≤ REVISION }
    ensures heard { HearsNext trees.now items.old items.new result }
    ensures later { OnOk result (IsLater items.old items.new) }
{
    written_is_taken();
    written_comes();
    match take_revprops(alloc, items) {
        Ok(props) => take_edit(alloc, trees, props, items),
        Err(fault) => Err(fault),
    }
}

// The edit behind these properties.
fn take_edit<I: Input + Drop>(
    alloc: Global,
    trees: &[Tree],
    props: Props,
    items: &mut ItemStream<I>,
) -> Result<Heard, ClientFault>
    requires few { length trees.now ≤ REVISION }
    ensures heard { HearsEdit trees.now props items.old items.new result }
    ensures later { OnOk result (IsLater items.old items.new) }
{
    match take_set(alloc, trees, items) {
        Ok(applied) => {
            let Applied { set, tree: _ } = applied;
            Ok((set, props))
        }
        Err(fault) => Err(fault),
    }
}
