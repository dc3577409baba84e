//! The history of a place.
ghost use Rattle.std.specs.Prelude.{◌≡◌, ◌++◌, ◌∷◌, ◌&&◌, [], OnOk, IfOk, IfErr, nat_le, if◌then◌else◌};
ghost use Rattle.path_history.specs.Histories.{IsHistory, IsTooLong};
ghost use Rattle.path_history.specs.Places.{touches};
ghost use Rattle.path_history.specs.declared.fault.HistoryFault.TheVariants.{TooLong};

use crate::back::origin;
use crate::{Asked, HistoryFault, Place, Sets};
use dump_load::ChangeSet;
use std::alloc::{AllocError, Global};

// Tells a place that isn't below the range, where it is asked for.
fn tell(
    alloc: Global,
    asked: &Asked,
    set: &ChangeSet,
    place: &Place,
    told: &mut Vec<Place>,
) -> Result<(), AllocError>
    ensures { OnOk result (told.new.items
        ≡ (if nat_le place.now.revision asked.now.highest && touches set.now place.now.path
        then told.old.items ++ place.now ∷ [] else told.old.items)) }
{
    if asked.tells(set, place) {
        told.push(place.copy(alloc)?)?;
    }
    Ok(())
}

/// The history of what stands at a place, newest first: the places of its line whose revisions touch them, of the
/// range that is asked for. `TooLong` where a path of the line is past the limits. It takes a look into one set for
/// each revision down to the lowest, and stops at the limit.
pub fn history_of<S: Sets>(
    alloc: Global,
    sets: &S,
    from: Place,
    asked: &Asked,
) -> Result<Vec<Place>, HistoryFault>
    ensures told { IfOk result (λ v. IsHistory (S.sets sets.now) asked.now from v.items) }
    ensures refused { IfErr result (λ e. e ≡ TooLong → IsTooLong asked.now.crosses_copies (S.sets sets.now) from) }
{
    let mut told = Vec::new(alloc);
    let mut next = Some(from);
    while let Some(place) = next {
        if place.revision.get() < asked.lowest.get() {
            return Ok(told);
        }
        if asked.is_full(told.len()) {
            return Ok(told);
        }
        let Some(set) = sets.set(place.revision) else {
            return Ok(told);
        };
        tell(alloc, asked, set, &place, &mut told)?;
        match origin(alloc, set, place, asked.crosses_copies) {
            Ok(before) => next = before,
            Err(fault) => return Err(fault),
        }
    }
    Ok(told)
}
