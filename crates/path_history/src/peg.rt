//! Where what stands at a place was in an earlier revision.
ghost use Rattle.std.specs.Prelude.{◌≡◌, IfOk, IfErr, true};
ghost use Rattle.path_history.specs.Histories.{IsTooLong, IsPlaceAt};
ghost use Rattle.path_history.specs.declared.fault.HistoryFault.TheVariants.{TooLong};

use crate::back::origin;
use crate::{HistoryFault, Place, Sets};
use node_base::RevNo;
use std::alloc::Global;

/// The place that what stands at a place had in a revision, across copies; None where it was nowhere then, or where
/// the revision is a later one. `TooLong` where a path of the line is past the limits.
pub fn place_at<S: Sets>(
    alloc: Global,
    sets: &S,
    from: Place,
    revision: RevNo,
) -> Result<Option<Place>, HistoryFault>
    ensures place { IfOk result (λ o. IsPlaceAt (S.sets sets.now) from revision o) }
    ensures refused { IfErr result (λ e. e ≡ TooLong → IsTooLong true (S.sets sets.now) from) }
{
    let mut next = Some(from);
    while let Some(place) = next {
        if place.revision.get() < revision.get() {
            return Ok(None);
        }
        if place.revision.get() == revision.get() {
            return Ok(Some(place));
        }
        let Some(set) = sets.set(place.revision) else {
            return Ok(None);
        };
        match origin(alloc, set, place, true) {
            Ok(before) => next = before,
            Err(fault) => return Err(fault),
        }
    }
    Ok(None)
}
