//! Whether changes are a normal set.
ghost use Rattle.std.specs.Prelude.{◌≡◌, ◌<◌, ◌+◌, length, take, true, false};
ghost use Rattle.dump_load.specs.Changes.{IsInOrder, IsNormal, Precedes};

use crate::Change;
use crate::change::is_delete;
use node_base::{compare_paths, rest_after};
use std::cmp::Ordering;

// Whether a change stands before another: its path comes before, and isn't a deleted front.
fn precedes(c: &Change, d: &Change) -> bool
    ensures holds { result ≡ true → Precedes c.now d.now }
    ensures fails { result ≡ false → ¬ Precedes c.now d.now }
{
    if compare_paths(c.path.names(), d.path.names()) != Ordering::Less {
        return false;
    }
    !is_delete(c.action) || rest_after(c.path.names(), d.path.names()).is_none()
}

// Whether the change at that place is whole and stands after the one before it.
fn goes_on(changes: &[Change], place: usize) -> bool
    requires within { place < length changes.now }
    ensures holds { result ≡ true → IsNormal (take place changes.now) → IsNormal (take (place + 1) changes.now) }
    ensures fails { result ≡ false → ¬ IsNormal changes.now }
{
    let change = &changes[place];
    if !change.is_whole() {
        return false;
    }
    if place == 0 {
        return true;
    }
    precedes(&changes[place - 1], change)
}

// Whether the change at that place stands after the one before it.
fn rises(changes: &[Change], place: usize) -> bool
    requires within { place < length changes.now }
    ensures holds { result ≡ true → IsInOrder (take place changes.now)
        → IsInOrder (take (place + 1) changes.now) }
    ensures fails { result ≡ false → ¬ IsInOrder changes.now }
{
    let change = &changes[place];
    if place == 0 {
        return true;
    }
    precedes(&changes[place - 1], change)
}

/// Whether changes are in path order, each path once, with nothing under a path that is deleted.
pub fn is_in_order(changes: &[Change]) -> bool
    ensures holds { result ≡ true → IsInOrder changes.now }
    ensures fails { result ≡ false → ¬ IsInOrder changes.now }
{
    for place in 0..changes.len() {
        if !rises(changes, place) {
            return false;
        }
    }
    true
}

/// Whether changes are in path order, each path once, with nothing under a path that is deleted, and each whole.
pub fn is_normal(changes: &[Change]) -> bool
    ensures holds { result ≡ true → IsNormal changes.now }
    ensures fails { result ≡ false → ¬ IsNormal changes.now }
{
    for place in 0..changes.len() {
        if !goes_on(changes, place) {
            return false;
        }
    }
    true
}
