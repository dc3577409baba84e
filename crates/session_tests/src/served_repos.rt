//! The repositories that the tests serve.

use crate::sets::{add, dir, file, second, set_of};
use crate::stores::log;
use dump_load::ChangeSet;
use node_base::Props;
use ra_serve::HeldRepo;
use repo_core::Repo;
use std::alloc::Global;
use std::process::Abort;
use uuid::Uuid;

// A repository with revision 0 alone.
fn empty_repo(rt: &impl Abort, alloc: Global) -> Repo {
    let identity = Uuid::parse_str("6a1f0c3e-0000-4000-8000-000000000001").expect(
        rt,
        "an identity",
    );
    Repo::new(alloc, identity).expect(rt, "memory")
}

// Commits a set with these properties.
fn commit(rt: &impl Abort, alloc: Global, repo: &mut Repo, set: ChangeSet, props: Props) {
    let head = repo.head();
    let _number = repo
        .commit(alloc, head, set, props, None)
        .expect(rt, "a revision");
}

// A set that adds one file.
fn one_file(rt: &impl Abort, alloc: Global) -> ChangeSet {
    let mut changes = Vec::new(alloc);
    add(rt, &mut changes, file(rt, alloc, "a", b"hello\n"));
    set_of(rt, changes)
}

/// The port over a repository whose revision 1 adds the file `a`, which has the text `hello` and a line feed, with the log
/// `hi`.
pub(crate) fn file_port(rt: &impl Abort, alloc: Global) -> HeldRepo {
    let mut repo = empty_repo(rt, alloc);
    let set = one_file(rt, alloc);
    commit(rt, alloc, &mut repo, set, log(rt, alloc, b"hi"));
    HeldRepo::new(alloc, repo, false)
}

// A directory with two files.
fn two_files(rt: &impl Abort, alloc: Global) -> ChangeSet {
    let mut changes = Vec::new(alloc);
    add(rt, &mut changes, dir(rt, alloc, "t"));
    add(rt, &mut changes, file(rt, alloc, "t/x", b"x"));
    add(rt, &mut changes, file(rt, alloc, "t/y", b"y"));
    set_of(rt, changes)
}

/// Revision 1 adds a directory with two files, and revision 2 copies it and deletes one of them there. Neither has
/// properties.
pub(crate) fn copy_port(rt: &impl Abort, alloc: Global) -> HeldRepo {
    let mut repo = empty_repo(rt, alloc);
    commit(rt, alloc, &mut repo, two_files(rt, alloc), Props::empty());
    commit(rt, alloc, &mut repo, second(rt, alloc), Props::empty());
    HeldRepo::new(alloc, repo, false)
}
