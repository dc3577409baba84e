//! Stretches of a line: the revisions in which it has one path, with no copy between.
ghost use Rattle.std.specs.Prelude.{◌≡◌, IfOk, IfErr, is_some, true};
ghost use Rattle.dump_load.specs.Changes.{governing};
ghost use Rattle.path_history.specs.Histories.{IsTooLong};
ghost use Rattle.path_history.specs.Places.{place, origin, IsPastLimits};
ghost use Rattle.path_history.specs.Stretches.{IsStretch};
ghost use Rattle.path_history.specs.declared.fault.HistoryFault.TheVariants.{TooLong};

use crate::back::origin;
use crate::lookup::governing;
use crate::{HistoryFault, Place, Sets};
use dump_load::ChangeSet;
use node_base::{NodePath, RevNo};
use std::alloc::Global;

/// How far back what stands at a place has been at its path, and where it came from there.
#[derive(Drop)]
pub struct Stretch {
    /// The first revision in which it was at the path.
    pub first: RevNo,
    /// The place that it was copied from there; None where it came from nowhere.
    pub before: Option<Place>,
}

// Whether a change of the set governs a path.
fn is_governed(set: &ChangeSet, path: &NodePath) -> bool
    ensures { result ≡ is_some (governing set.now path.now) }
{
    governing(set, path).is_some()
}

// The stretch that begins in a revision whose set governs the path.
fn begun(
    alloc: Global,
    set: &ChangeSet,
    path: NodePath,
    first: RevNo,
) -> Result<Stretch, HistoryFault>
    ensures first { IfOk result (λ s. s.first ≡ first) }
    ensures before { IfOk result (λ s. s.before ≡ origin true set.now (place first path)) }
    ensures refused { IfErr result (λ e. e ≡ TooLong → IsPastLimits (origin true set.now (place first path))) }
{
    let revision = first;
    match origin(alloc, set, Place { path, revision }, true) {
        Ok(before) => Ok(Stretch { first, before }),
        Err(fault) => Err(fault),
    }
}

/// The stretch of a line that ends at a place. `TooLong` where a path of the line is past the limits.
pub fn stretch_of<S: Sets>(alloc: Global, sets: &S, from: Place) -> Result<Stretch, HistoryFault>
    ensures stretch { IfOk result (λ s. IsStretch (S.sets sets.now) from s.first s.before) }
    ensures refused { IfErr result (λ e. e ≡ TooLong → IsTooLong true (S.sets sets.now) from) }
{
    let Place { path, revision } = from;
    let mut number = revision.get();
    while number > 0 {
        let Some(set) = sets.set(RevNo::new(number)) else {
            return Ok(Stretch {
                first: RevNo::new(number),
                before: None,
            });
        };
        if is_governed(set, &path) {
            return match begun(alloc, set, path, RevNo::new(number)) {
                Ok(stretch) => Ok(stretch),
                Err(fault) => Err(fault),
            };
        }
        number -= 1;
    }
    Ok(Stretch {
        first: RevNo::ZERO,
        before: None,
    })
}
