//! Changes in path order.
ghost use Rattle.std.specs.Prelude.{◌≡◌, ◌+◌, ◌<◌, length, take, IfOk, if◌then◌else◌};
ghost use Rattle.std.specs.List.Sorted.{IsPermutation};
ghost use Rattle.node_base.specs.Path.{Path, same_path};
ghost use Rattle.dump_load.specs.Changes.{NoneFalls};
ghost use Rattle.dump_load.specs.Records.{stated_at, paths_named};

use crate::Change;
use node_base::compare_paths;
use std::alloc::AllocError;
use std::cmp::Ordering;

/// Changes in path order. Those of one path keep their order.
pub fn in_path_order(changes: Vec<Change>) -> Result<Vec<Change>, AllocError>
    ensures rises { IfOk result (λ v. NoneFalls v.items) }
    ensures stated { IfOk result (λ v. (p : Path) → stated_at v.items p ≡ stated_at changes.items p) }
    ensures moved { IfOk result (λ v. IsPermutation changes.items v.items) }
{
    let mut changes = changes;
    changes.sort_by(|c, d| compare_paths(c.path.names(), d.path.names()))?;
    Ok(changes)
}

// Whether the change at that place names a path that those before it don't.
fn is_new(changes: &[Change], place: usize) -> bool
    requires rises { NoneFalls changes.now }
    requires within { place < length changes.now }
    ensures { paths_named (take (place + 1) changes.now)
        ≡ (if result then paths_named (take place changes.now) + 1 else paths_named (take place changes.now)) }
{
    if place == 0 {
        return true;
    }
    if is_same_path(&changes[place - 1], &changes[place]) {
        return false;
    }
    true
}

/// How many paths are named by changes in path order.
pub fn count_paths(changes: &[Change]) -> usize
    requires { NoneFalls changes.now }
    ensures { result ≡ paths_named changes.now }
{
    let mut count = 0;
    for place in 0..changes.len() {
        if is_new(changes, place) {
            count += 1;
        }
    }
    count
}

/// Whether two changes are of one path.
pub fn is_same_path(c: &Change, d: &Change) -> bool
    ensures { result ≡ same_path c.now.path d.now.path }
{
    compare_paths(c.path.names(), d.path.names()) == Ordering::Equal
}
