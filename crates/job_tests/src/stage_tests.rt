//! What is staged: it changes nothing until it is installed.

use crate::repo_tests::{empty_repo, first_repo, has_head, let_go, there};
use crate::shares::some_added;
use crate::values::{name, path};
use dump_load::ChangeSet;
use node_base::{Props, RevNo};
use repo_core::{Entry, Expected, Repo, Staged};
use std::alloc::Global;
use std::process::Abort;

// The set that adds a directory b.
fn added(rt: &impl Abort, alloc: Global) -> ChangeSet {
    some_added(alloc, b"b").expect(rt, "a set")
}

// It is staged behind revision 1.
fn staged(rt: &impl Abort, alloc: Global, repo: &Repo) -> Staged {
    let added = added(rt, alloc);
    let staged = repo.stage_commit(alloc, RevNo::new(1), added, Props::empty(), None);
    staged.expect(rt, "a staged revision")
}

// Drops what is staged.
fn drop_staged(_staged: Staged) {}

// Whether the tree that is staged has something at a path.
fn has(rt: &impl Abort, alloc: Global, staged: &Staged, text: &str) -> bool {
    match staged.tree() {
        None => false,
        Some(tree) => tree.get(path(rt, alloc, text).names()).is_some(),
    }
}

#[test]
fn what_was_staged_and_dropped_changes_nothing(rt: HostRuntime) {
    let alloc = rt.alloc();
    let repo = first_repo(&rt, alloc);
    let staged = staged(&rt, alloc, &repo);
    assert!(rt; has(&rt, alloc, &staged, "b"));
    drop_staged(staged);
    assert!(rt; has_head(&repo, 1) && !there(&rt, alloc, &repo, 1, "b"));
    let_go(repo);
}

// Whether an entry is the revision of that number with so many changes.
fn is_revision(entry: &Entry, at: u16, changes: usize) -> bool {
    match entry {
        Entry::Revised {
            number,
            set,
            props: _,
        } => number.get() == at && set.changes().len() == changes,
        Entry::Mapped {
            number: _,
            props: _,
        } => false,
    }
}

// Whether an entry is the map of that revision.
fn is_map(entry: &Entry, at: u16) -> bool {
    match entry {
        Entry::Revised {
            number: _,
            set: _,
            props: _,
        } => false,
        Entry::Mapped { number, props: _ } => number.get() == at,
    }
}

#[test]
fn what_is_staged_is_an_entry(rt: HostRuntime) {
    let alloc = rt.alloc();
    let repo = first_repo(&rt, alloc);
    let staged = staged(&rt, alloc, &repo);
    assert!(rt; is_revision(staged.entry(), 2, 1));
    drop_staged(staged);
    let_go(repo);
}

// The log of revision 1 is to go.
fn unlogged(rt: &impl Abort, alloc: Global, repo: &Repo) -> Staged {
    let log = name(rt, alloc, b"svn:log");
    let staged = repo.stage_change_prop(alloc, RevNo::new(1), &log, None, &Expected::DontCare);
    staged.expect(rt, "a staged change")
}

// Revision 0 is to have no properties.
fn emptied(rt: &impl Abort, repo: &Repo) -> Staged {
    let staged = repo.stage_put_props(RevNo::ZERO, Props::empty());
    staged.expect(rt, "staged properties")
}

#[test]
fn what_is_staged_of_properties_is_an_entry(rt: HostRuntime) {
    let alloc = rt.alloc();
    let repo = first_repo(&rt, alloc);
    let unlogged = unlogged(&rt, alloc, &repo);
    assert!(rt; is_map(unlogged.entry(), 1));
    drop_staged(unlogged);
    let put = emptied(&rt, &repo);
    assert!(rt; is_map(put.entry(), 0) && put.tree().is_none());
    drop_staged(put);
    let_go(repo);
}

// Whether a directory b is staged behind revision 1, and installed.
fn is_installed(rt: &impl Abort, alloc: Global, repo: &mut Repo) -> bool {
    let added = added(rt, alloc);
    match repo.stage_commit(alloc, RevNo::new(1), added, Props::empty(), None) {
        Ok(staged) => {
            repo.install(staged);
            true
        }
        Err(_) => false,
    }
}

#[test]
fn what_was_staged_is_installed(rt: HostRuntime) {
    let alloc = rt.alloc();
    let mut repo = first_repo(&rt, alloc);
    assert!(rt; is_installed(&rt, alloc, &mut repo));
    repo.is_repository();
    assert!(rt; there(&rt, alloc, &repo, 2, "b"));
    let empty = empty_repo(&rt, alloc);
    assert!(rt; repo.identity() == empty.identity());
    let_go(empty);
    let_go(repo);
}
