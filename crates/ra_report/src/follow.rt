//! What is wanted where something stays switched.

ghost use Rattle.std.specs.Prelude.{◌≡◌};
ghost use Rattle.std.specs.FinMap as finite;
ghost use Rattle.ra_denial.specs.Stops.{Decides};
ghost use Rattle.ra_report.specs.Given.{Follows, FollowsOne};
ghost use Rattle.ra_report.specs.Plans.{AreKept};
ghost use Rattle.ra_report.specs.Switches.{kept, switches_denied};

use crate::plan::Wanted;
use crate::switched::Switched;
use path_tree::Tree;
use ra_denial::{Denial, Stop};
use std::alloc::Global;
use tree_reports::put_copy;

/// What is wanted with what stands at the places of switched paths.
pub fn follow(alloc: Global, wanted: Wanted, switches: &[Switched]) -> Result<Wanted, Stop>
    ensures { Decides (switches_denied (finite.get wanted.tree) wanted.whole switches.now)
        (AreKept switches.now wanted) result }
{
    let Wanted {
        number,
        tree,
        whole,
    } = wanted;
    let mut tree = tree;
    match put_all(alloc, &mut tree, &whole, switches) {
        Ok(()) => Ok(Wanted {
            number,
            tree,
            whole,
        }),
        Err(stop) => Err(stop),
    }
}

/// Those that are followed.
pub fn kept<'a>(keeps: bool, switches: &'a [Switched]) -> &'a [Switched]
    ensures { result.now ≡ kept keeps switches.now }
{
    if keeps {
        return switches;
    }
    &[]
}

// Puts what stands at the places.
fn put_all(alloc: Global, tree: &mut Tree, whole: &Tree, switches: &[Switched]) -> Result<(), Stop>
    ensures { Follows tree.old tree.new whole.now switches.now result }
{
    for switched in switches {
        match put(alloc, tree, whole, switched) {
            Ok(()) => {}
            Err(stop) => return Err(stop),
        }
    }
    Ok(())
}

// Puts what stands at the place of one.
fn put(alloc: Global, tree: &mut Tree, whole: &Tree, switched: &Switched) -> Result<(), Stop>
    ensures { FollowsOne tree.old tree.new whole.now switched.now result }
{
    if switched.path.is_root() {
        return Ok(());
    }
    if tree.blocked(switched.path.names()).is_some() {
        return Ok(());
    }
    if whole.copy_is_too_long(switched.place.names(), switched.path.names()) {
        return Err(Stop::Denied(Denial::Unsupported));
    }
    match put_copy(alloc, tree, &switched.path, whole, &switched.place) {
        Ok(()) => Ok(()),
        Err(_) => Err(Stop::OutOfMemory),
    }
}
