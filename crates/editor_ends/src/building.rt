//! The changes that calls begin and give parts to, in path order beside the tree that they make.
ghost use Rattle.std.specs.Prelude.{◌≡◌, ◌≤◌, ◌<◌, ◌||◌, length, true, false, not, Some, None};
ghost use Rattle.std.specs.Prelude.{IsSome, IfOk, IfErr, IfSome, OnOk, [], ◌&&◌};
ghost use Rattle.std.specs.Option.{option_copied, option_map};
ghost use Rattle.std.specs.FinMap as map;
ghost use Rattle.std.specs.List.{slice_get};
ghost use Rattle.node_base.specs.Path.{same_path};
ghost use Rattle.node_base.specs.NodeEdits.{with_prop, with_piece};
ghost use Rattle.node_base.specs.Tree.{with_given};
ghost use Rattle.path_tree.specs.Calls.{text_fault};
ghost use Rattle.path_tree.specs.NodeCalls.{piece_fault};
ghost use Rattle.dump_load.specs.Changes.{settles, is_delete, is_add, IsWhole, IsNormal};
ghost use Rattle.dump_load.specs.Faults.{fault_of, fault_if};
ghost use Rattle.delta_editor.specs.declared.fault.EditorFault.TheVariants.{TooLong};
ghost use Rattle.node_base.specs.declared.node.Action.TheVariants.{Replace};
ghost use Rattle.delta_editor.specs.Faults.{refused};
ghost use Rattle.editor_ends.specs.BuildFaults.{begun, blank_text, is_long, put_fault};
ghost use Rattle.editor_ends.specs.Building.{BeginsChange, FindsOpen, GivesPart, IsStepped, RefusesChange};
ghost use Rattle.editor_ends.specs.Building.{RefusesPart, RefusesToMake};
ghost use Rattle.editor_ends.specs.Built.{IsFresh, IsFaultOr, Placed, is_taken};
ghost use Rattle.editor_ends.specs.Built.{giving_props, giving_text, told};
ghost use Rattle.editor_ends.specs.Shown.{is_under};

use delta_editor::EditorFault;
use dump_load::{Change, fault_of, is_add, is_delete, settles, step};
use node_base::limits::REVISION;
use node_base::{Action, NodeKind, NodePath, PropName, PropValue, Props, Source, Text, TreeFault};
use path_tree::{Tree, TreeError};
use std::alloc::{AllocError, Global};

/// A change as a call begins it. An add that copies nothing gives all that is there.
pub fn new_change(
    alloc: Global,
    action: Action,
    kind: Option<NodeKind>,
    path: &NodePath,
    from: Option<&Source>,
) -> Result<Change, AllocError>
    requires described { is_add action ≡ true → IsSome kind }
    requires known { (is_add action || not (settles action) || is_delete action) ≡ true }
    requires sourced { is_add action ≡ false → from ≡ None }
    ensures begun { IfOk result (λ c. c ≡ begun action kind path.now (option_copied from.entry)) }
    ensures whole { IfOk result IsWhole }
{
    let source = copied_source(alloc, from)?;
    let whole = is_add(action) && source.is_none();
    let props = if whole { Some(Props::empty()) } else { None };
    let text = if whole {
        blank_text(alloc, kind)?
    } else {
        None
    };
    Ok(Change {
        path: path.copy(alloc)?,
        action,
        kind,
        source,
        props,
        text,
    })
}

fn copied_source(alloc: Global, source: Option<&Source>) -> Result<Option<Source>, AllocError>
    ensures { IfOk result (λ s. s ≡ option_copied source.entry) }
{
    match source {
        None => Ok(None),
        Some(source) => Ok(Some(Source {
            path: source.path.copy(alloc)?,
            revision: source.revision,
        })),
    }
}

fn blank_text(alloc: Global, kind: Option<NodeKind>) -> Result<Option<Text>, AllocError>
    ensures { IfOk result (λ t. t ≡ blank_text kind) }
{
    match kind {
        Some(NodeKind::File) => Ok(Some(Text::empty(alloc)?)),
        Some(NodeKind::Dir) | None => Ok(None),
    }
}

// Where the change of a path stands, or where it would.
fn place_of(changes: &[Change], path: &NodePath) -> Result<usize, usize>
    ensures found { IfOk result (λ i. i < length changes.now) }
    ensures in_range { IfErr result (λ i. i ≤ length changes.now) }
    ensures placed { IsNormal changes.now → Placed changes.now path.now result }
{
    changes.binary_search_by(|change| change.path.compare(path))
}

// Makes a change of the tree where it has no fault there.
fn make(alloc: Global, trees: &[Tree], tree: &mut Tree, change: &Change) -> Result<(), EditorFault>
    requires whole { IsWhole change.now }
    ensures made { OnOk result (IsStepped trees.now tree.old tree.new change.now) }
    ensures faultless { OnOk result (fault_of trees.now (map.get tree.old) change.now ≡ None) }
    ensures refused { RefusesToMake trees.now tree.old change.now result }
{
    if trees.len() > REVISION as usize {
        return Err(EditorFault::WrongNumber);
    }
    if let Some(fault) = fault_of(trees, tree, change) {
        return Err(EditorFault::from(fault));
    }
    Ok(step(alloc, trees, tree, change)?)
}

// Whether the root is added or deleted.
fn is_root_settled(change: &Change) -> bool
    ensures { result ≡ (same_path change.now.path [] && settles change.now.action) }
{
    change.path.is_root() && settles(change.action)
}

/// Opens or adds something: a change begins, or a deletion and an add of one path become a replace.
pub fn open_or_add(
    alloc: Global,
    trees: &[Tree],
    tree: &mut Tree,
    changes: &mut Vec<Change>,
    change: Change,
) -> Result<(), EditorFault>
    requires whole { IsWhole change }
    requires fresh { IsFresh change }
    requires known { (is_add change.action || not (settles change.action)) ≡ true }
    ensures begins { BeginsChange trees.now tree.old tree.new changes.old.items changes.new.items change result }
    ensures refused { RefusesChange trees.now tree.old changes.old.items change result }
{
    if is_root_settled(&change) {
        return Err(EditorFault::BadPath);
    }
    match place_of(changes, &change.path) {
        Err(at) => {
            make(alloc, trees, tree, &change)?;
            changes.insert(at, change)?;
            Ok(())
        }
        Ok(at) => {
            if !is_delete(changes[at].action) {
                return Err(EditorFault::OutOfOrder);
            }
            make(alloc, trees, tree, &change)?;
            changes[at] = replacing(change);
            Ok(())
        }
    }
}

fn replacing(change: Change) -> Change
    ensures { result ≡ record change { action = Replace } }
{
    let mut change = change;
    change.action = Action::Replace;
    change
}

/// Deletes something.
pub fn delete(
    alloc: Global,
    trees: &[Tree],
    tree: &mut Tree,
    changes: &mut Vec<Change>,
    change: Change,
) -> Result<(), EditorFault>
    requires whole { IsWhole change }
    requires fresh { IsFresh change }
    requires deletes { is_delete change.action ≡ true }
    ensures begins { BeginsChange trees.now tree.old tree.new changes.old.items changes.new.items change result }
    ensures refused { RefusesChange trees.now tree.old changes.old.items change result }
{
    if is_root_settled(&change) {
        return Err(EditorFault::BadPath);
    }
    match place_of(changes, &change.path) {
        Err(at) => {
            if is_next_below(changes, at, &change.path) {
                return Err(EditorFault::OutOfOrder);
            }
            make(alloc, trees, tree, &change)?;
            changes.insert(at, change)?;
            Ok(())
        }
        Ok(at) => {
            if !is_delete(changes[at].action) {
                return Err(EditorFault::OutOfOrder);
            }
            match fault_of(trees, tree, &change) {
                Some(fault) => Err(EditorFault::from(fault)),
                None => Err(EditorFault::NoSuchPath),
            }
        }
    }
}

// Whether the change at a place is below a path.
fn is_next_below(changes: &[Change], at: usize, path: &NodePath) -> bool
    ensures { result ≡ is_under changes.now at path.now }
{
    if at >= changes.len() {
        return false;
    }
    node_base::rest_after(path.names(), changes[at].path.names()).is_some()
}

// Where the change of what is open stands.
fn place_open(changes: &[Change], path: &NodePath) -> Option<usize>
    ensures found { IfSome result (λ i. i < length changes.now) }
    ensures placed { FindsOpen changes.now path.now result }
    ensures stands { IfSome result (λ i. IfSome (slice_get changes.now i) (λ c. is_delete c.action ≡ false)) }
    ensures none { result ≡ None → IsNormal changes.now → is_taken changes.now path.now ≡ false }
{
    match place_of(changes, path) {
        Ok(at) => {
            if is_delete(changes[at].action) {
                None
            } else {
                Some(at)
            }
        }
        Err(_) => None,
    }
}

// Why a tree refused, as an editor says it.
fn told(error: TreeError) -> EditorFault
    ensures { result ≡ told error }
{
    match error {
        TreeError::Fault(fault) => EditorFault::from(fault),
        TreeError::OutOfMemory => EditorFault::OutOfMemory,
    }
}

// A value as it is put. More than 65,536 bytes are refused.
fn copied_value(alloc: Global, value: Option<&[u8]>) -> Result<Option<PropValue>, EditorFault>
    ensures value { IfOk result (λ v. v ≡ option_map (λ b. b.now) value.entry) }
    ensures small { OnOk result (is_long (option_map (λ b. b.now) value.entry) ≡ false) }
    ensures refused { IfErr result (IsFaultOr (fault_if (is_long (option_map (λ b. b.now) value.entry)) TooLong)) }
{
    let Some(value) = value else {
        return Ok(None);
    };
    match PropValue::new(Vec::from_slice(alloc, value)?) {
        Ok(value) => Ok(Some(value)),
        Err(_) => Err(EditorFault::TooLong),
    }
}

/// Gives a property of what is open a value, or removes it.
pub fn put_prop(
    alloc: Global,
    tree: &mut Tree,
    changes: &mut Vec<Change>,
    path: &NodePath,
    name: &PropName,
    value: Option<&[u8]>,
) -> Result<(), EditorFault>
    ensures gives { GivesPart tree.old tree.new changes.old.items changes.new.items path.now
        (with_prop name.now (option_map (λ b. b.now) value.entry)) giving_props result }
    ensures faultless { OnOk result
        (put_fault (map.get tree.old) path.now name.now (option_map (λ b. b.now) value.entry) ≡ None) }
    ensures refused { RefusesPart changes.old.items path.now (put_fault (map.get tree.old) path.now name.now
        (option_map (λ b. b.now) value.entry)) result }
{
    let Some(at) = place_open(changes, path) else {
        return Err(EditorFault::NoSuchPath);
    };
    let name = name.copy(alloc)?;
    let value = copied_value(alloc, value)?;
    match tree.put_prop(alloc, path, name, value) {
        Ok(()) => {}
        Err(error) => return Err(told(error)),
    }
    give_props(&mut changes[at]);
    Ok(())
}

// A change gives properties from now on.
fn give_props(change: &mut Change)
    ensures { change.new ≡ giving_props change.old }
{
    if change.props.is_none() {
        change.props = Some(Props::empty());
    }
}

// A change gives a text from now on.
fn give_text(alloc: Global, change: &mut Change) -> Result<(), AllocError>
    ensures { OnOk result (change.new ≡ giving_text change.old) }
{
    if change.text.is_none() {
        change.text = Some(Text::empty(alloc)?);
    }
    Ok(())
}

/// Begins the text of what is open.
pub fn start_text(
    alloc: Global,
    tree: &mut Tree,
    changes: &mut Vec<Change>,
    path: &NodePath,
) -> Result<(), EditorFault>
    ensures gives { GivesPart tree.old tree.new changes.old.items changes.new.items path.now
        (with_given (Some []) None) giving_text result }
    ensures faultless { OnOk result (text_fault (map.get tree.old) path.now ≡ None) }
    ensures refused { RefusesPart changes.old.items path.now (option_map refused
        (text_fault (map.get tree.old) path.now)) result }
{
    let Some(at) = place_open(changes, path) else {
        return Err(EditorFault::NoSuchPath);
    };
    match tree.start_text(alloc, path) {
        Ok(()) => {}
        Err(error) => return Err(told(error)),
    }
    give_text(alloc, &mut changes[at])?;
    Ok(())
}

/// Puts a piece behind the text of what is open.
pub fn append_text(
    alloc: Global,
    tree: &mut Tree,
    changes: &mut Vec<Change>,
    path: &NodePath,
    piece: &[u8],
) -> Result<(), EditorFault>
    ensures gives { GivesPart tree.old tree.new changes.old.items changes.new.items path.now
        (with_piece piece.now) giving_text result }
    ensures faultless { OnOk result (piece_fault (map.get tree.old) path.now piece.now ≡ None) }
    ensures refused { RefusesPart changes.old.items path.now (option_map refused
        (piece_fault (map.get tree.old) path.now piece.now)) result }
{
    let Some(at) = place_open(changes, path) else {
        return Err(EditorFault::NoSuchPath);
    };
    match tree.append_text(alloc, path, piece) {
        Ok(()) => {}
        Err(error) => return Err(told(error)),
    }
    give_text(alloc, &mut changes[at])?;
    Ok(())
}
