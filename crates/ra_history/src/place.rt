//! Where a node stood.

ghost use Rattle.std.specs.Prelude.{◌≡◌, IfOk, IfErr, OnOk, true};
ghost use Rattle.node_base.specs.Path.{same_path};
ghost use Rattle.path_history.specs.Histories.{IsTooLong};
ghost use Rattle.path_history.specs.declared.fault.HistoryFault.TheVariants.{TooLong};
ghost use Rattle.ra_history.specs.Locations.{IsLocation, IsLater, later, seen_from, IsPushed, AreLocations, IsOneTooLong};

use node_base::{NodePath, RevNo, compare_paths};
use path_history::{HistoryFault, Place, Sets, place_at};
use std::alloc::Global;
use std::cmp::Ordering;

// Whether two paths are one.
fn is_same(one: &NodePath, other: &NodePath) -> bool
    ensures { result ≡ same_path one.now other.now }
{
    compare_paths(one.names(), other.names()) == Ordering::Equal
}

// Where it stands in a later revision: at its path, where that leads back to it.
fn later<S: Sets>(
    alloc: Global,
    sets: &S,
    from: &Place,
    revision: RevNo,
) -> Result<Option<Place>, HistoryFault>
    ensures place { IfOk result (λ o. IsLater (S.sets sets.now) from.now revision o) }
    ensures refused { IfErr result (λ e. e ≡ TooLong
        → IsTooLong true (S.sets sets.now) (later from.now revision)) }
{
    let path = from.path.copy(alloc)?;
    let there = Place { path, revision };
    match place_at(alloc, sets, there.copy(alloc)?, from.revision) {
        Ok(Some(back)) => {
            if is_same(&back.path, &from.path) {
                Ok(Some(there))
            } else {
                Ok(None)
            }
        }
        Ok(None) => Ok(None),
        Err(fault) => Err(fault),
    }
}

/// Where what stands at a place stood in another revision, across copies: in an earlier one where it came from, in a later
/// one at the same path, if what stands there then came from it. None where it is nowhere then. `TooLong` where a path of
/// a line is past the limits.
pub fn location_of<S: Sets>(
    alloc: Global,
    sets: &S,
    from: &Place,
    revision: RevNo,
) -> Result<Option<Place>, HistoryFault>
    ensures place { IfOk result (λ o. IsLocation (S.sets sets.now) from.now revision o) }
    ensures refused { IfErr result (λ e. e ≡ TooLong
        → IsTooLong true (S.sets sets.now) (seen_from from.now revision)) }
{
    if revision.get() > from.revision.get() {
        return later(alloc, sets, from, revision);
    }
    match place_at(alloc, sets, from.copy(alloc)?, revision) {
        Ok(place) => Ok(place),
        Err(fault) => Err(fault),
    }
}

// Puts where it stood in a revision behind others.
fn push_location<S: Sets>(
    alloc: Global,
    sets: &S,
    from: &Place,
    revision: RevNo,
    told: &mut Vec<Place>,
) -> Result<(), HistoryFault>
    ensures told { OnOk result (IsPushed (S.sets sets.now) from.now revision told.old.items told.new.items) }
    ensures refused { IfErr result (λ e. e ≡ TooLong
        → IsTooLong true (S.sets sets.now) (seen_from from.now revision)) }
{
    match location_of(alloc, sets, from, revision) {
        Ok(Some(place)) => {
            told.push(place)?;
            Ok(())
        }
        Ok(None) => Ok(()),
        Err(fault) => Err(fault),
    }
}

/// Where what stands at a place stood in each of these revisions, in their order; nothing for one in which it is nowhere.
/// `TooLong` where a path of a line is past the limits.
pub fn locations_of<S: Sets>(
    alloc: Global,
    sets: &S,
    from: &Place,
    numbers: &[RevNo],
) -> Result<Vec<Place>, HistoryFault>
    ensures places { IfOk result (λ v. AreLocations (S.sets sets.now) from.now numbers.now v.items) }
    ensures refused { IfErr result (λ e. e ≡ TooLong → IsOneTooLong (S.sets sets.now) from.now numbers.now) }
{
    let mut told = Vec::new(alloc);
    for number in numbers {
        match push_location(alloc, sets, from, *number, &mut told) {
            Ok(()) => {}
            Err(fault) => return Err(fault),
        }
    }
    Ok(told)
}
