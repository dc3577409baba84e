//! A repository's calls, where no command shows them.

use crate::jobs::some_file;
use crate::values::{log, name, path, value};
use dump_load::ChangeSet;
use node_base::{Props, RevNo};
use repo_core::{Expected, Moment, Repo, RepoFault};
use std::alloc::Global;
use std::process::Abort;
use uuid::Uuid;

const LOG: &[u8] = b"svn:log";

/// Lets go of a repository, here alone: what a function drops is proved with it each time.
pub(crate) fn let_go(_repo: Repo) {}

pub(crate) fn empty_repo(rt: &impl Abort, alloc: Global) -> Repo {
    let identity = Uuid::parse_str("6a1f0c3e-0000-4000-8000-000000000001");
    Repo::new(alloc, identity.expect(rt, "an identity")).expect(rt, "memory")
}

// The number of a refusal, and 0 where the call was taken.
fn number<T: Drop>(answer: Result<T, RepoFault>) -> u8 {
    match answer {
        Ok(_) => 0,
        Err(fault) => fault.number(),
    }
}

// The set that adds the file a.
fn file(rt: &impl Abort, alloc: Global) -> ChangeSet {
    some_file(alloc, "a").expect(rt, "a set")
}

/// Revision 1 adds the file a, and its log is hi.
pub(crate) fn first_repo(rt: &impl Abort, alloc: Global) -> Repo {
    let mut repo = empty_repo(rt, alloc);
    let answer = repo.commit(
        alloc,
        RevNo::ZERO,
        file(rt, alloc),
        log(rt, alloc, b"hi"),
        None,
    );
    assert!(rt; number(answer) == 0);
    repo
}

/// Whether this is the head.
pub(crate) fn has_head(repo: &Repo, revision: u16) -> bool {
    repo.head().get() == revision
}

/// Whether the tree of a revision has something at a path.
pub(crate) fn there(
    rt: &impl Abort,
    alloc: Global,
    repo: &Repo,
    revision: u16,
    text: &str,
) -> bool {
    match repo.tree(RevNo::new(revision)) {
        None => false,
        Some(tree) => tree.get(path(rt, alloc, text).names()).is_some(),
    }
}

// Whether a revision has this log.
fn has_log(repo: &Repo, revision: u16, value: Option<&[u8]>) -> bool {
    match repo.props(RevNo::new(revision)) {
        None => false,
        Some(props) => props.get(LOG) == value,
    }
}

// Commits nothing, without properties: the refusal, if it is one.
fn refusal(alloc: Global, repo: &mut Repo, base: u16) -> Option<RepoFault> {
    let none = ChangeSet::empty(alloc);
    repo.commit(alloc, RevNo::new(base), none, Props::empty(), None)
        .err()
}

// Whether it has this number and this text.
fn is_told(alloc: Global, refusal: Option<RepoFault>, number: u8, text: &str) -> bool {
    match refusal {
        None => false,
        Some(fault) => match format!(in alloc; "{fault}") {
            Ok(told) => fault.number() == number && told.as_str() == text,
            Err(_) => false,
        },
    }
}

#[test]
fn a_commit_is_made_against_the_head(rt: HostRuntime) {
    let alloc = rt.alloc();
    let mut repo = first_repo(&rt, alloc);
    assert!(rt; is_told(alloc, refusal(alloc, &mut repo, 2), 21, "no such revision"));
    assert!(rt;
        is_told(
            alloc,
            refusal(alloc, &mut repo, 0),
            25,
            "the base is not the head 1"
        )
    );
    assert!(rt; has_head(&repo, 1));
    let_go(repo);
}

// A change of the log of revision 1, with a value that is expected or that is to be absent.
fn relog(
    rt: &impl Abort,
    alloc: Global,
    repo: &mut Repo,
    log: &[u8],
    expected: Option<&[u8]>,
) -> Result<(), RepoFault> {
    let expected = match expected {
        None => Expected::Absent,
        Some(bytes) => Expected::Value(Vec::from_slice(alloc, bytes).expect(rt, "memory")),
    };
    let name = name(rt, alloc, LOG);
    repo.change_prop(alloc, RevNo::new(1), &name, Some(log), &expected)
}

// Whether such a change of the log to ho is refused with the value that was found.
fn finds(
    rt: &impl Abort,
    alloc: Global,
    repo: &mut Repo,
    expected: Option<&[u8]>,
    value: &[u8],
) -> bool {
    match relog(rt, alloc, repo, b"ho", expected) {
        Err(RepoFault::BaseMismatch(Some(there))) => there.as_slice() == value,
        _ => false,
    }
}

#[test]
fn a_change_finds_what_it_expects(rt: HostRuntime) {
    let alloc = rt.alloc();
    let mut repo = first_repo(&rt, alloc);
    assert!(rt; finds(&rt, alloc, &mut repo, None, b"hi") && has_log(&repo, 1, Some(b"hi")));
    assert!(rt; relog(&rt, alloc, &mut repo, b"ho", Some(b"hi")).is_ok());
    assert!(rt; finds(&rt, alloc, &mut repo, Some(b"hi"), b"ho"));
    let_go(repo);
}

// As many properties as there may be, and none of them the date.
fn full_props(rt: &impl Abort, alloc: Global) -> Props {
    let mut props = Props::empty();
    for i in 0..256u16 {
        let text = format!(in alloc; "p{i}").expect(rt, "memory");
        props
            .set(
                alloc,
                name(rt, alloc, text.as_bytes()),
                value(rt, alloc, b""),
            )
            .expect(rt, "a property");
    }
    props
}

// The refusal of a commit of this set with a full map and a date.
fn overfull(rt: &impl Abort, alloc: Global, repo: &mut Repo, set: ChangeSet) -> u8 {
    let props = full_props(rt, alloc);
    number(repo.commit(alloc, RevNo::new(1), set, props, Moment::from_micros(0)))
}

#[test]
fn a_date_too_many_comes_last(rt: HostRuntime) {
    let alloc = rt.alloc();
    let mut repo = first_repo(&rt, alloc);
    assert!(rt; overfull(&rt, alloc, &mut repo, ChangeSet::empty(alloc)) == 8);
    assert!(rt; overfull(&rt, alloc, &mut repo, file(&rt, alloc)) == 12);
    assert!(rt; has_head(&repo, 1));
    let_go(repo);
}

// Puts a whole map: the number of the refusal, or 0.
fn put(repo: &mut Repo, at: u16, props: Props) -> u8 {
    number(repo.put_props(RevNo::new(at), props))
}

#[test]
fn a_whole_map_takes_the_place_of_another(rt: HostRuntime) {
    let alloc = rt.alloc();
    let mut repo = first_repo(&rt, alloc);
    assert!(rt; put(&mut repo, 2, Props::empty()) == 21);
    assert!(rt; put(&mut repo, 1, Props::empty()) == 0 && has_log(&repo, 1, None));
    let begun = log(&rt, alloc, b"begun");
    assert!(rt; put(&mut repo, 0, begun) == 0 && has_log(&repo, 0, Some(b"begun")));
    let_go(repo);
}

// Commits nothing, against each head up to the last. Whether all of them are taken.
fn fill(alloc: Global, repo: &mut Repo) -> bool {
    for head in 0..65_535u16 {
        if refusal(alloc, repo, head).is_some() {
            return false;
        }
    }
    true
}

#[test]
fn a_repository_that_is_full(rt: HostRuntime) {
    let alloc = rt.alloc();
    let mut repo = empty_repo(&rt, alloc);
    assert!(rt; fill(alloc, &mut repo) && has_head(&repo, 65_535));
    assert!(rt;
        is_told(
            alloc,
            refusal(alloc, &mut repo, 65_535),
            23,
            "no more revisions"
        )
    );
    assert!(rt; has_head(&repo, 65_535));
    let_go(repo);
}
