//! From a revision's records to its set of changes.
ghost use Rattle.std.specs.Prelude.{◌≡◌, ◌≤◌, ◌++◌, ◌∷◌, ◌&&◌, ◌||◌, List, [], length};
ghost use Rattle.std.specs.Prelude.{map, None, true, false, IfOk, IfErr, OnOk};
ghost use Rattle.std.specs.FinMap as finite;
ghost use Rattle.dump_load.specs.declared.change.Change.{Change as ChangeOf};
ghost use Rattle.node_base.specs.Path.{Path, same_path, is_front};
ghost use Rattle.node_base.specs.declared.limits.TheConstants.{REVISION};
ghost use Rattle.dump_load.specs.Changes.{NoneFalls, is_delete, is_add};
ghost use Rattle.dump_load.specs.Faults.{IsRefusal, fault, fault_if};
ghost use Rattle.dump_load.specs.Effect.{effect};
ghost use Rattle.dump_load.specs.declared.fault.ChangeFault.TheVariants.{OutOfOrder};
ghost use Rattle.dump_load.specs.Records.{change_of, replacing, Combined, is_out_of_order, set_fault, IsNormalSetOf};
ghost use Rattle.dump_load.specs.Records.{IsSetRefusal};

use crate::change::{is_add, is_delete};
use crate::delta::deltas_in_order;
use crate::fill::{Filled, fill};
use crate::order::{count_paths, in_path_order, is_same_path};
use crate::{Change, ChangeFault, ChangeSet};
use dump_text::NodeRecord;
use node_base::limits::CHANGES;
use node_base::{Action, TreeFault, rest_after};
use path_tree::Tree;
use std::alloc::{AllocError, Global};

// The changes that records state, in their order.
fn changes_of(alloc: Global, records: Vec<NodeRecord>) -> Result<Vec<Change>, AllocError>
    ensures { IfOk result (λ v. v.items ≡ map change_of records.items) }
{
    records
        .into_iter()
        .map(|stated| Change::from_record(stated))
        .collect(alloc)
}

// An add as the replacement that it is after a deletion of its path.
fn replacing(add: Change) -> Change
    ensures { result ≡ replacing add }
{
    let Change {
        path,
        action: _,
        kind,
        source,
        props,
        text,
    } = add;
    Change {
        path,
        action: Action::Replace,
        kind,
        source,
        props,
        text,
    }
}

// Whether the path of d is that of c or below it.
fn is_front(c: &Change, d: &Change) -> bool
    ensures { result ≡ is_front c.now.path d.now.path }
{
    rest_after(c.path.names(), d.path.names()).is_some()
}

// Whether a change after another is its replacement: an add of the path that was deleted.
fn replaces(last: &Change, change: &Change) -> bool
    ensures { result ≡ (same_path last.now.path change.now.path
        && (is_delete last.now.action && is_add change.now.action)) }
{
    is_same_path(last, change) && (is_delete(last.action) && is_add(change.action))
}

// Whether a change can't stand after another: it is of the same path, or under a path that was deleted.
fn clashes(last: &Change, change: &Change) -> bool
    ensures { result ≡ (same_path last.now.path change.now.path
        || (is_delete last.now.action && is_front last.now.path change.now.path)) }
{
    is_same_path(last, change) || (is_delete(last.action) && is_front(last, change))
}

// One more of what is stated in path order.
fn take_in(combined: &mut Vec<Change>, change: Change) -> Result<(), ChangeFault>
    ensures taken { OnOk result ((ys rest : List ChangeOf) → Combined ys combined.old.items
        → NoneFalls (ys ++ change ∷ rest) → Combined (ys ++ change ∷ []) combined.new.items) }
    ensures refused { IfErr result (λ e. (ys rest : List ChangeOf) → Combined ys combined.old.items
        → NoneFalls (ys ++ change ∷ rest)
        → IsRefusal e (fault_if (is_out_of_order (ys ++ change ∷ rest)) OutOfOrder)) }
{
    let Some(last) = combined.pop() else {
        combined.push(change)?;
        return Ok(());
    };
    if replaces(&last, &change) {
        combined.push(replacing(change))?;
        return Ok(());
    }
    if clashes(&last, &change) {
        return Err(ChangeFault::OutOfOrder);
    }
    combined.push(last)?;
    combined.push(change)?;
    Ok(())
}

// Brings what is stated of one path together. What is stated comes in path order.
fn combine(alloc: Global, changes: Vec<Change>) -> Result<Vec<Change>, ChangeFault>
    requires { NoneFalls changes.items }
    ensures combined { IfOk result (λ v. Combined changes.items v.items) }
    ensures refused { IfErr result (λ e. IsRefusal e (fault_if (is_out_of_order changes.items) OutOfOrder)) }
{
    let mut combined: Vec<Change> = Vec::with_capacity(alloc, changes.len())?;
    for change in changes {
        take_in(&mut combined, change)?;
    }
    Ok(combined)
}

/// The set that records make, its first fault over the trees before it, and where it has none the tree that it makes.
#[derive(Drop)]
pub struct Gathered {
    pub set: ChangeSet,
    pub fault: Option<TreeFault>,
    pub tree: Tree,
}

/// The set of changes that a revision's records make, and what it comes to over the trees before it.
pub fn gather(
    alloc: Global,
    trees: &[Tree],
    records: Vec<NodeRecord>,
) -> Result<Gathered, ChangeFault>
    requires { length trees.now ≤ REVISION }
    ensures set { IfOk result (λ g. IsNormalSetOf trees.now records.items g.set) }
    ensures fault { IfOk result (λ g. g.fault ≡ fault trees.now g.set) }
    ensures tree { IfOk result (λ g. g.fault ≡ None → (q : Path)
        → finite.get g.tree q ≡ effect trees.now g.set q) }
    ensures fits { OnOk result (set_fault (map change_of records.items) ≡ None) }
    ensures refused { IfErr result (λ e. IsSetRefusal trees.now records.items e) }
{
    let deltas = deltas_in_order(alloc, records.as_slice())?;
    let stated = in_path_order(changes_of(alloc, records)?)?;
    if count_paths(&stated) > CHANGES {
        return Err(ChangeFault::TooLong);
    }
    let combined = combine(alloc, stated)?;
    let filled = fill(alloc, trees, deltas.as_slice(), combined)?;
    let Filled {
        changes,
        fault,
        tree,
    } = filled;
    Ok(Gathered {
        set: ChangeSet::new(changes),
        fault,
        tree,
    })
}

impl ChangeSet {
    /// The set of changes that a revision's records make, over the trees of the revisions before it. The records
    /// may come in any order; those of one path come together: there is one, or a deletion and then an add, which
    /// are one replace. A kind that is missing becomes the node's, as the changes before it in path order leave it,
    /// or the source's. An add without a source gets no properties, and for a file no text, where it has none. A delta
    /// becomes the list that it makes: of the node's properties, as the changes before it in path order leave them, of
    /// the source's at a copy, of none at another add or replace.
    ///
    /// Refused are more than 4,096 paths (8), then records of one path that don't combine, or one under a path that
    /// is deleted (15), then an add without a source and a kind, or a change that dump text can't say (2), then the
    /// first delta in path order that finds nothing, for the first fault of a change up to it, or that makes a list
    /// past the limits (8).
    pub fn from_records(
        alloc: Global,
        trees: &[Tree],
        records: Vec<NodeRecord>,
    ) -> Result<ChangeSet, ChangeFault>
        requires { length trees.now ≤ REVISION }
        ensures set { IfOk result (λ s. IsNormalSetOf trees.now records.items s) }
        ensures fits { OnOk result (set_fault (map change_of records.items) ≡ None) }
        ensures refused { IfErr result (λ e. IsSetRefusal trees.now records.items e) }
    {
        let gathered = gather(alloc, trees, records)?;
        Ok(gathered.set)
    }
}
