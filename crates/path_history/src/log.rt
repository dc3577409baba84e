//! The log of several places.
ghost use Rattle.std.specs.Prelude.{◌≡◌, ◌++◌, map, IfOk, IfErr, OnOk, ℕ};
ghost use Rattle.std.specs.List.{Contains};
ghost use Rattle.std.specs.List.Sorted.{IsStrictlyIncreasing};
ghost use Rattle.path_history.specs.Logs.{HasLogged, IsLog, IsOneTooLong};
ghost use Rattle.path_history.specs.declared.fault.HistoryFault.TheVariants.{TooLong};

use crate::history::history_of;
use crate::{Asked, HistoryFault, Place, Sets};
use std::alloc::{AllocError, Global};

// Puts the revisions of these places behind the numbers.
fn push_numbers(told: &[Place], numbers: &mut Vec<u16>) -> Result<(), AllocError>
    ensures { OnOk result (numbers.new.items ≡ numbers.old.items ++ map (λ a. a.revision) told.now) }
{
    for place in told {
        numbers.push(place.revision.get())?;
    }
    Ok(())
}

// The revisions that the histories of the places have, whatever the limit.
fn gather<S: Sets>(
    alloc: Global,
    sets: &S,
    places: &[Place],
    asked: &Asked,
) -> Result<Vec<u16>, HistoryFault>
    ensures told { IfOk result (λ v. HasLogged (S.sets sets.now) asked.now places.now v.items) }
    ensures refused { IfErr result (λ e. e ≡ TooLong
        → IsOneTooLong asked.now.crosses_copies (S.sets sets.now) places.now) }
{
    let whole = Asked {
        lowest: asked.lowest,
        highest: asked.highest,
        limit: 0,
        crosses_copies: asked.crosses_copies,
    };
    let mut numbers = Vec::new(alloc);
    for place in places {
        match history_of(alloc, sets, place.copy(alloc)?, &whole) {
            Ok(told) => push_numbers(&told, &mut numbers)?,
            Err(fault) => return Err(fault),
        }
    }
    Ok(numbers)
}

// The same numbers, each once, in their order.
fn in_order(numbers: Vec<u16>) -> Result<Vec<u16>, AllocError>
    ensures kept { IfOk result (λ v. (n : ℕ) → Contains numbers.items n → Contains v.items n) }
    ensures known { IfOk result (λ v. (n : ℕ) → Contains v.items n → Contains numbers.items n) }
    ensures rises { IfOk result (λ v. IsStrictlyIncreasing v.items) }
{
    let mut numbers = numbers;
    numbers.sort()?;
    numbers.dedup();
    Ok(numbers)
}

/// The numbers of the revisions that the histories of some places have, each once, oldest first, of the range that is
/// asked for. The limit isn't looked at. `TooLong` where a path of a line is past the limits.
pub fn log_of<S: Sets>(
    alloc: Global,
    sets: &S,
    places: &[Place],
    asked: &Asked,
) -> Result<Vec<u16>, HistoryFault>
    ensures told { IfOk result (λ v. IsLog (S.sets sets.now) asked.now places.now v.items) }
    ensures refused { IfErr result (λ e. e ≡ TooLong
        → IsOneTooLong asked.now.crosses_copies (S.sets sets.now) places.now) }
{
    match gather(alloc, sets, places, asked) {
        Ok(numbers) => match in_order(numbers) {
            Ok(told) => Ok(told),
            Err(AllocError) => Err(HistoryFault::OutOfMemory),
        },
        Err(fault) => Err(fault),
    }
}
