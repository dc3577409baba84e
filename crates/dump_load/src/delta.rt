//! Property lists that records give as changes of what is there.
ghost use Rattle.std.specs.Prelude.{◌≡◌, ◌≤◌, ◌++◌, ◌∷◌, [], length, true, false, Some, None, IfOk, IfErr, OnOk};
ghost use Rattle.std.specs.Option.{option_copied, option_map};
ghost use Rattle.std.specs.FinMap as map;
ghost use Rattle.std.specs.List.{AllWithin};
ghost use Rattle.node_base.specs.Path.{Path, same_path};
ghost use Rattle.dump_load.specs.Deltas.{part_delta, delta_in, deltas_of, delta_at, comes_before, AreSorted};
ghost use Rattle.dump_load.specs.Deltas.{found_props, with_delta, delta_fault_of, of_delta_fault};
ghost use Rattle.dump_load.specs.Faults.{IsRefusal};

use crate::change::is_delete;
use crate::judge::{fault_of, source_node};
use crate::{Change, ChangeFault};
use dump_text::{NodeRecord, PropPart};
use node_base::{Node, NodePath, PropDelta, PropFault, Props, TreeFault, compare_paths};
use path_tree::Tree;
use std::alloc::{AllocError, Global};
use std::cmp::Ordering;

// The delta in what a record gives of properties.
fn part_delta(part: &Option<PropPart>) -> Option<&PropDelta>
    ensures { option_copied result ≡ part_delta part.now }
{
    match part {
        Some(PropPart::Delta(delta)) => Some(delta),
        Some(PropPart::Whole(_)) => None,
        None => None,
    }
}

// The delta that a record gives, where it isn't a deletion.
fn delta_in(stated: &NodeRecord) -> Option<&PropDelta>
    ensures { option_copied result ≡ delta_in stated.now }
{
    if is_delete(stated.action) {
        None
    } else {
        part_delta(&stated.props)
    }
}

// The same delta once more. The lists are shared with it.
fn share_delta(delta: &PropDelta) -> Result<PropDelta, AllocError>
    ensures { IfOk result (λ d. d ≡ delta.now) }
{
    Ok(PropDelta {
        sets: delta.sets.share()?,
        removed: delta.removed.share()?,
    })
}

// Keeps the delta of a record, if it gives one.
fn keep_delta(
    alloc: Global,
    deltas: &mut Vec<(NodePath, PropDelta)>,
    stated: &NodeRecord,
) -> Result<(), AllocError>
    ensures { OnOk result (deltas.new.items ≡ deltas.old.items ++ deltas_of (stated.now ∷ [])) }
{
    let Some(delta) = delta_in(stated) else {
        return Ok(());
    };
    let path = stated.path.copy(alloc)?;
    deltas.push((path, share_delta(delta)?))?;
    Ok(())
}

// The deltas that records give, with their paths.
fn deltas_of(
    alloc: Global,
    records: &[NodeRecord],
) -> Result<Vec<(NodePath, PropDelta)>, AllocError>
    ensures { IfOk result (λ v. v.items ≡ deltas_of records.now) }
{
    let mut deltas = Vec::new(alloc);
    for stated in records {
        keep_delta(alloc, &mut deltas, stated)?;
    }
    Ok(deltas)
}

/// The deltas that records give, with their paths and in path order. Those of one path keep their order.
pub fn deltas_in_order(
    alloc: Global,
    records: &[NodeRecord],
) -> Result<Vec<(NodePath, PropDelta)>, AllocError>
    ensures sorted { IfOk result (λ v. AreSorted v.items) }
    ensures alike { IfOk result (λ v. (p : Path) → delta_at v.items p ≡ delta_at (deltas_of records.now) p) }
{
    let mut deltas = deltas_of(alloc, records)?;
    deltas.sort_by(|c, d| compare_paths(c.0.names(), d.0.names()))?;
    Ok(deltas)
}

// Whether a delta is that of a path.
fn is_of(entry: &(NodePath, PropDelta), path: &NodePath) -> bool
    ensures { result ≡ same_path entry.now.0 path.now }
{
    compare_paths(entry.0.names(), path.names()) == Ordering::Equal
}

// Whether a delta comes before a path.
fn comes_before(entry: &(NodePath, PropDelta), path: &NodePath) -> bool
    ensures { result ≡ comes_before entry.now.0 path.now }
{
    compare_paths(entry.0.names(), path.names()).is_lt()
}

// Where the first of deltas in path order stands that doesn't come before a path.
fn place_of(deltas: &[(NodePath, PropDelta)], path: &NodePath) -> usize
    requires { AreSorted deltas.now }
    ensures within { result ≤ length deltas.now }
    ensures before { AllWithin (λ d. comes_before d.0 path.now ≡ true) deltas.now 0 result }
    ensures behind { AllWithin (λ d. comes_before d.0 path.now ≡ false) deltas.now result (length deltas.now) }
{
    deltas.partition_point(|entry| comes_before(entry, path))
}

/// The delta of a path, of deltas in path order. The look-up goes by halves.
pub fn delta_at<'a>(deltas: &'a [(NodePath, PropDelta)], path: &NodePath) -> Option<&'a PropDelta>
    requires { AreSorted deltas.now }
    ensures { option_copied result ≡ delta_at deltas.now path.now }
{
    let place = place_of(deltas, path);
    if place >= deltas.len() {
        return None;
    }
    let entry = &deltas[place];
    if is_of(entry, path) {
        Some(&entry.1)
    } else {
        None
    }
}

// The properties of a node.
fn props_of(node: Option<&Node>) -> Result<Option<Props>, AllocError>
    ensures { IfOk result (λ p. p ≡ option_map (λ x. x.props) (option_copied node.entry)) }
{
    match node {
        None => Ok(None),
        Some(node) => Ok(Some(node.props.share()?)),
    }
}

// The properties that a change finds: the source's at a copy, none at another add or replace, and else those of the
// node that is there.
fn found_props(trees: &[Tree], tree: &Tree, change: &Change) -> Result<Option<Props>, AllocError>
    ensures { IfOk result (λ p. p ≡ found_props trees.now (map.get tree.now) change.now) }
{
    if change.brings() {
        return match &change.source {
            None => Ok(Some(Props::empty())),
            Some(source) => props_of(source_node(trees, source)),
        };
    }
    props_of(tree.get(change.path.names()))
}

// The refusal of a delta, as a set's.
fn delta_fault(fault: PropFault) -> ChangeFault
    ensures { result ≡ of_delta_fault fault }
{
    match fault {
        PropFault::TooLong => ChangeFault::TooLong,
        PropFault::OutOfMemory => ChangeFault::OutOfMemory,
        PropFault::BadProps => ChangeFault::BadHeader,
    }
}

// The change with another list of properties.
fn with_props(change: Change, list: Props) -> Change
    ensures { result ≡ record change { props = Some list } }
{
    let Change {
        path,
        action,
        kind,
        source,
        props: _,
        text,
    } = change;
    Change {
        path,
        action,
        kind,
        source,
        props: Some(list),
        text,
    }
}

/// The change with the list that its delta makes of what it finds in the tree that the changes before it left. Where
/// it finds nothing it is refused for the first fault so far, or else for its own; and TooLong where the list is past
/// the limits.
pub fn with_delta(
    alloc: Global,
    trees: &[Tree],
    tree: &Tree,
    first: Option<TreeFault>,
    delta: Option<&PropDelta>,
    change: Change,
) -> Result<Change, ChangeFault>
    ensures changed { IfOk result (λ c. c ≡ with_delta trees.now (map.get tree.now) (option_copied delta.entry) change) }
    ensures applied { OnOk result (delta_fault_of trees.now first (map.get tree.now) (option_copied delta.entry) change
        ≡ None) }
    ensures refused { IfErr result (λ e. IsRefusal e
        (delta_fault_of trees.now first (map.get tree.now) (option_copied delta.entry) change)) }
{
    let Some(delta) = delta else {
        return Ok(change);
    };
    if change.props.is_none() {
        return Ok(change);
    }
    let Some(list) = found_props(trees, tree, &change)? else {
        return match first.or(fault_of(trees, tree, &change)) {
            Some(fault) => Err(ChangeFault::from(fault)),
            None => Ok(change),
        };
    };
    match delta.applied(alloc, &list) {
        Ok(list) => Ok(with_props(change, list)),
        Err(fault) => Err(delta_fault(fault)),
    }
}
