//! Where what stands at a place came from.
ghost use Rattle.std.specs.Prelude.{◌≡◌, ◌++◌, ◌∷◌, [], false, IfOk, IfErr};
ghost use Rattle.node_base.specs.Limits.{fits};
ghost use Rattle.path_history.specs.Places.{origin, copied, stayed, IsPastLimits};
ghost use Rattle.path_history.specs.declared.fault.HistoryFault.TheVariants.{TooLong};

use crate::lookup::governing;
use crate::{HistoryFault, Place};
use dump_load::{Change, ChangeSet};
use node_base::{NodeName, NodePath, PathFault, RevNo, rest_after};
use std::alloc::Global;

// The path of a name right below a path.
#[tactic(auto, unfolding(node_base::specs::PathText::child_of))]
fn child(alloc: Global, path: &NodePath, name: &NodeName) -> Result<NodePath, HistoryFault>
    ensures child { IfOk result (λ p. p ≡ path.now ++ name.now ∷ []) }
    ensures refused { IfErr result (λ e. e ≡ TooLong → fits (path.now ++ name.now ∷ []) ≡ false) }
{
    match path.child(alloc, name) {
        Ok(path) => Ok(path),
        Err(PathFault::TooLong | PathFault::BadPath) => Err(HistoryFault::TooLong),
        Err(PathFault::OutOfMemory) => Err(HistoryFault::OutOfMemory),
    }
}

/// A path with these names behind it. `TooLong` past the limits of paths.
pub fn joined(alloc: Global, front: &NodePath, rest: &[NodeName]) -> Result<NodePath, HistoryFault>
    ensures joined { IfOk result (λ p. p ≡ front.now ++ rest.now) }
    ensures refused { IfErr result (λ e. e ≡ TooLong → fits (front.now ++ rest.now) ≡ false) }
{
    let mut path = front.copy(alloc)?;
    for name in rest {
        match child(alloc, &path, name) {
            Ok(longer) => path = longer,
            Err(fault) => return Err(fault),
        }
    }
    Ok(path)
}

// The same path in the revision before.
fn stayed(place: Place) -> Option<Place>
    ensures { result ≡ stayed place }
{
    let Place { path, revision } = place;
    let number = revision.get();
    if number == 0 {
        return None;
    }
    Some(Place {
        path,
        revision: RevNo::new(number - 1),
    })
}

// Where a change that governs a place copies what stands there from.
fn copied(alloc: Global, change: &Change, place: &Place) -> Result<Option<Place>, HistoryFault>
    ensures place { IfOk result (λ o. o ≡ copied change.now place.now) }
    ensures refused { IfErr result (λ e. e ≡ TooLong → IsPastLimits (copied change.now place.now)) }
{
    let Some(source) = &change.source else {
        return Ok(None);
    };
    if source.revision.get() >= place.revision.get() {
        return Ok(None);
    }
    let Some(rest) = rest_after(change.path.names(), place.path.names()) else {
        return Ok(None);
    };
    Ok(Some(Place {
        path: joined(alloc, &source.path, rest)?,
        revision: source.revision,
    }))
}

/// Where what stands at a place came from, by the set of its revision. Where a change at a front of its path adds or
/// replaces, or deletes, that is the source of the copy, with the rest of the path behind it; and nothing where it
/// copies nothing, or where copies aren't crossed. Else it is the same path in the revision before, and nothing for
/// revision 0. `TooLong` where the path would be past the limits.
pub fn origin(
    alloc: Global,
    set: &ChangeSet,
    place: Place,
    crosses_copies: bool,
) -> Result<Option<Place>, HistoryFault>
    ensures origin { IfOk result (λ o. o ≡ origin crosses_copies set.now place) }
    ensures refused { IfErr result (λ e. e ≡ TooLong → IsPastLimits (origin crosses_copies set.now place)) }
{
    match governing(set, &place.path) {
        None => Ok(stayed(place)),
        Some(change) => {
            if crosses_copies {
                copied(alloc, change, &place)
            } else {
                Ok(None)
            }
        }
    }
}
