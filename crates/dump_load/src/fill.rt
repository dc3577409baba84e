//! What records leave out, filled in.
ghost use Rattle.std.specs.Prelude.{◌≡◌, ◌≤◌, ◌++◌, ◌∷◌, List, [], length, None, false, is_none};
ghost use Rattle.std.specs.Prelude.{if◌then◌else◌, IfOk, IfErr, OnOk};
ghost use Rattle.std.specs.List.{list_any};
ghost use Rattle.std.specs.FinMap as map;
ghost use Rattle.dump_load.specs.declared.change.Change.{Change as ChangeOf};
ghost use Rattle.dump_load.specs.declared.fault.ChangeFault.TheVariants.{BadHeader};
ghost use Rattle.dump_load.specs.Changes.{IsDescribed, IsInOrder};
ghost use Rattle.dump_load.specs.Effect.{effect, stepped};
ghost use Rattle.node_base.specs.Path.{Path};
ghost use Rattle.node_base.specs.declared.limits.TheConstants.{REVISION};
ghost use Rattle.dump_load.specs.Faults.{IsRefusal, fault, fault_if, fault_of, judged};
ghost use Rattle.dump_load.specs.Deltas.{delta_fault, AreSorted};
ghost use Rattle.dump_load.specs.Records.{is_unsaid, with_blanks, with_kind, filled_after, Filling};
ghost use Rattle.std.specs.Option.{option_or};

use crate::delta::{delta_at, with_delta};
use crate::judge::{fault_of, judged};
use crate::steps::{begin, step};
use crate::{Change, ChangeFault};
use node_base::{NodeKind, NodePath, PropDelta, Props, Text, TreeFault};
use path_tree::Tree;
use std::alloc::{AllocError, Global};

// Whether it copies nothing and doesn't say what it adds, or has a form that dump text can't say.
fn is_unsaid(change: &Change) -> bool
    ensures { result ≡ is_unsaid change.now }
{
    (change.is_plain() && change.kind.is_none()) || !change.has_form()
}

// Empty properties, and an empty text of a file, where an add or a replace that copies nothing has none.
fn with_blanks(alloc: Global, change: Change) -> Result<Change, AllocError>
    ensures { IfOk result (λ c. c ≡ with_blanks change) }
{
    if !change.is_plain() {
        return Ok(change);
    }
    let Change {
        path,
        action,
        kind,
        source,
        props,
        text,
    } = change;
    let props = match props {
        Some(props) => props,
        None => Props::empty(),
    };
    let text = match (kind, text) {
        (Some(NodeKind::File), None) => Some(Text::empty(alloc)?),
        (_, text) => text,
    };
    Ok(Change {
        path,
        action,
        kind,
        source,
        props: Some(props),
        text,
    })
}

// The kind that is given, and else the one that counts.
fn kind_or_judged(trees: &[Tree], tree: &Tree, change: &Change) -> Option<NodeKind>
    ensures { result ≡ option_or change.now.kind (judged trees.now (map.get tree.now) change.now) }
{
    match change.kind {
        Some(kind) => Some(kind),
        None => judged(trees, tree, change),
    }
}

// The kind that counts, where none is given.
fn with_kind(trees: &[Tree], tree: &Tree, change: Change) -> Change
    ensures { result ≡ with_kind trees.now (map.get tree.now) change }
{
    let counted = kind_or_judged(trees, tree, &change);
    let Change {
        path,
        action,
        kind: _,
        source,
        props,
        text,
    } = change;
    Change {
        path,
        action,
        kind: counted,
        source,
        props,
        text,
    }
}

// Makes a change of the tree, unless it has a fault there.
fn advance(
    alloc: Global,
    trees: &[Tree],
    tree: &mut Tree,
    change: &Change,
) -> Result<Option<TreeFault>, AllocError>
    requires few { length trees.now ≤ REVISION }
    requires whole { IsDescribed change.now }
    ensures fault { IfOk result (λ f. f ≡ fault_of trees.now (map.get tree.old) change.now) }
    ensures left { OnOk result ((q : Path)
        → map.get tree.new q ≡ (if is_none (fault_of trees.now (map.get tree.old) change.now)
        then stepped trees.now (map.get tree.old) change.now q else map.get tree.old q)) }
{
    match fault_of(trees, tree, change) {
        Some(fault) => Ok(Some(fault)),
        None => {
            step(alloc, trees, tree, change)?;
            Ok(None)
        }
    }
}

/// Changes that are filled in, the first fault of theirs, and the tree that those without a fault leave.
#[derive(Drop)]
pub struct Filled {
    pub changes: Vec<Change>,
    pub fault: Option<TreeFault>,
    pub tree: Tree,
}

// One more change filled in, and made of the tree where it has no fault there.
fn fill_one(
    alloc: Global,
    trees: &[Tree],
    deltas: &[(NodePath, PropDelta)],
    so_far: &mut Filled,
    change: Change,
) -> Result<(), ChangeFault>
    requires few { length trees.now ≤ REVISION }
    requires sorted { AreSorted deltas.now }
    requires said { is_unsaid change ≡ false }
    ensures filled { OnOk result ((ys rest : List ChangeOf)
        → Filling trees.now deltas.now ys so_far.old.changes.items so_far.old.tree so_far.old.fault
        → IsInOrder (ys ++ change ∷ rest)
        → Filling trees.now deltas.now (ys ++ change ∷ []) so_far.new.changes.items so_far.new.tree
        so_far.new.fault) }
    ensures refused { IfErr result (λ e. (ys rest : List ChangeOf)
        → Filling trees.now deltas.now ys so_far.old.changes.items so_far.old.tree so_far.old.fault
        → IsInOrder (ys ++ change ∷ rest)
        → IsRefusal e (delta_fault trees.now deltas.now
        (filled_after trees.now deltas.now [] (ys ++ change ∷ rest)))) }
{
    let delta = delta_at(deltas, &change.path);
    let blanked = with_blanks(alloc, change)?;
    let kinded = with_kind(trees, &so_far.tree, blanked);
    let whole = with_delta(alloc, trees, &so_far.tree, so_far.fault, delta, kinded)?;
    let fault = advance(alloc, trees, &mut so_far.tree, &whole)?;
    so_far.fault = so_far.fault.or(fault);
    so_far.changes.push(whole)?;
    Ok(())
}

// Whether one of the changes copies nothing and doesn't say what it adds, or has a form that dump text can't say.
fn leaves_unsaid(changes: &[Change]) -> bool
    ensures { result ≡ list_any is_unsaid changes.now }
{
    for change in changes {
        if is_unsaid(change) {
            return true;
        }
    }
    false
}

/// Changes in path order with what is missing filled in: the kind that counts, what an add or a replace that copies
/// nothing begins with, and the lists that the deltas make. Where one doesn't say what it adds, or has a form that
/// dump text can't say, they are refused (2); then for the first delta that can't be applied. Where they have no fault,
/// the tree is theirs.
pub fn fill(
    alloc: Global,
    trees: &[Tree],
    deltas: &[(NodePath, PropDelta)],
    changes: Vec<Change>,
) -> Result<Filled, ChangeFault>
    requires few { length trees.now ≤ REVISION }
    requires sorted { AreSorted deltas.now }
    requires order { IsInOrder changes.items }
    ensures filled { IfOk result (λ f. f.changes.items ≡ filled_after trees.now deltas.now [] changes.items) }
    ensures fault { IfOk result (λ f. f.fault ≡ fault trees.now f.changes.items) }
    ensures tree { IfOk result (λ f. f.fault ≡ None → (q : Path)
        → map.get f.tree q ≡ effect trees.now f.changes.items q) }
    ensures kinds { OnOk result (list_any is_unsaid changes.items ≡ false) }
    ensures deltas { IfOk result (λ f. delta_fault trees.now deltas.now f.changes.items ≡ None) }
    ensures refused { IfErr result (λ e. IsRefusal e (option_or (fault_if (list_any is_unsaid changes.items) BadHeader)
        (delta_fault trees.now deltas.now (filled_after trees.now deltas.now [] changes.items)))) }
{
    if leaves_unsaid(&changes) {
        return Err(ChangeFault::BadHeader);
    }
    let mut filled = Filled {
        changes: Vec::with_capacity(alloc, changes.len())?,
        fault: None,
        tree: begin(alloc, trees)?,
    };
    for change in changes {
        fill_one(alloc, trees, deltas, &mut filled, change)?;
    }
    Ok(filled)
}
