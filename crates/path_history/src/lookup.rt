//! Look-ups in the set of a revision. They go by halves, since a set is in path order.
ghost use Rattle.std.specs.Prelude.{◌≡◌, ◌≤◌, ◌∷◌, [], true, false, length, None};
ghost use Rattle.std.specs.Option.{option_copied, option_map_or, option_and_then};
ghost use Rattle.std.specs.List.{AllWithin, list_any};
ghost use Rattle.node_base.specs.Path.{is_front, same_path};
ghost use Rattle.dump_load.specs.Changes.{IsNormal, brings, change_at, settling, governing};
ghost use Rattle.dump_load.specs.Deltas.{comes_before};
ghost use Rattle.path_history.specs.Places.{touches};

use dump_load::{Change, ChangeSet, settles};
use node_base::{NodeName, NodePath, compare_paths, rest_after};
use std::cmp::Ordering;

// Whether a change comes before a path.
fn comes_before(change: &Change, path: &[NodeName]) -> bool
    ensures { result ≡ comes_before change.now.path path.now }
{
    compare_paths(change.path.names(), path).is_lt()
}

// Whether a change is of a path.
fn is_of(change: &Change, path: &[NodeName]) -> bool
    ensures { result ≡ same_path change.now.path path.now }
{
    compare_paths(change.path.names(), path) == Ordering::Equal
}

// Whether a change is of a path or below it.
fn is_below(change: &Change, path: &[NodeName]) -> bool
    ensures { result ≡ is_front path.now change.now.path }
{
    rest_after(path, change.path.names()).is_some()
}

// Where the first change stands that doesn't come before a path.
fn place_of(set: &[Change], path: &[NodeName]) -> usize
    requires { IsNormal set.now }
    ensures within { result ≤ length set.now }
    ensures before { AllWithin (λ c. comes_before c.path path.now ≡ true) set.now 0 result }
    ensures behind { AllWithin (λ c. comes_before c.path path.now ≡ false) set.now result (length set.now) }
{
    set.partition_point(|change| comes_before(change, path))
}

// The change of a path.
fn change_at<'a>(set: &'a [Change], path: &[NodeName]) -> Option<&'a Change>
    requires { IsNormal set.now }
    ensures { option_copied result ≡ change_at set.now path.now }
{
    let place = place_of(set, path);
    if place >= set.len() {
        return None;
    }
    let change = &set[place];
    if is_of(change, path) {
        Some(change)
    } else {
        None
    }
}

// The add, delete or replace of a path.
fn settling_at<'a>(set: &'a [Change], path: &[NodeName]) -> Option<&'a Change>
    requires { IsNormal set.now }
    ensures { option_copied result ≡ change_at (settling set.now) path.now }
{
    match change_at(set, path) {
        None => None,
        Some(change) => {
            if settles(change.action) {
                Some(change)
            } else {
                None
            }
        }
    }
}

// Whether some change is of a path or below it.
fn has_below(set: &[Change], path: &[NodeName]) -> bool
    requires { IsNormal set.now }
    ensures { result ≡ list_any (λ c. is_front path.now c.path) set.now }
{
    let place = place_of(set, path);
    if place >= set.len() {
        return false;
    }
    is_below(&set[place], path)
}

// The change that governs a path: of those that add, delete or replace, the one at the longest front.
fn governing_of<'a>(set: &'a [Change], path: &[NodeName]) -> Option<&'a Change>
    requires { IsNormal set.now }
    ensures { option_copied result ≡ governing set.now path.now }
{
    match settling_at(set, path) {
        Some(change) => Some(change),
        None => match path.split_last() {
            Some((_, above)) => governing_of(set, above),
            None => None,
        },
    }
}

/// The change that governs a path: of those that add, delete or replace the path or a folder above it, the one at the
/// longest path.
pub fn governing<'a>(set: &'a ChangeSet, path: &NodePath) -> Option<&'a Change>
    ensures { option_copied result ≡ governing set.now path.now }
{
    governing_of(set.changes(), path.names())
}

// Whether a path, or a folder above it, is added or replaced.
fn is_brought(set: &ChangeSet, path: &NodePath) -> bool
    ensures { result ≡ option_map_or brings (governing set.now path.now) false }
{
    match governing(set, path) {
        Some(change) => change.brings(),
        None => false,
    }
}

/// Whether the revision of a set touches a path: the path is the root; or the set has a change at the path or below
/// it; or it adds or replaces the path or a folder above it, as a copy of the folder does.
pub fn touches(set: &ChangeSet, path: &NodePath) -> bool
    ensures { result ≡ touches set.now path.now }
{
    path.is_root() || has_below(set.changes(), path.names()) || is_brought(set, path)
}
