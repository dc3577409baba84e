//! The repository that the tests serve. A growth that is refused leaves none.

use dump_load::{Change, ChangeSet};
use node_base::{Action, NodeKind, NodePath, PropName, PropValue, Props, Text};
use ra_serve::HeldRepo;
use repo_core::Repo;
use std::alloc::Global;
use uuid::Uuid;

// What revisions did, path by path: the revision, a letter for what it did, the path, a text, and a property's name and
// value. A directory comes by `d`, a file by `f`, in place of a directory by `F`, properties by `p`, a text by `t`; what
// `r` names goes.
const DONE: [(u16, u8, &[u8], &[u8], &[u8], &[u8]); 12] = [
    (1, b'd', b"tags", b"", b"", b""),
    (1, b'd', b"trunk", b"", b"", b""),
    (1, b'f', b"trunk/README", b"hello\n", b"", b""),
    (1, b'd', b"trunk/lib", b"", b"", b""),
    (
        1,
        b'f',
        b"trunk/lib/a.c",
        b"int a;\n",
        b"svn:eol-style",
        b"native",
    ),
    (2, b'p', b"trunk", b"", b"custom:dir", b"deep"),
    (2, b't', b"trunk/README", b"hello again\n", b"", b""),
    (2, b'r', b"trunk/lib/a.c", b"", b"", b""),
    (3, b'p', b"trunk", b"", b"", b""),
    (3, b'F', b"trunk/lib", b"now a file\n", b"", b""),
    (3, b'd', b"trunk/new", b"", b"custom:new", b"yes"),
    (3, b'f', b"trunk/new/f", b"", b"", b""),
];

// Who made the revisions from 1 on, and when.
const MADE: [(u16, &[u8], &[u8]); 3] = [
    (1, b"alice", b"2020-01-01T00:16:40.007919Z"),
    (2, b"bob", b"2020-01-01T00:33:20.015838Z"),
    (3, b"carol", b"2020-01-01T00:50:00.023757Z"),
];

// Gives a property, where it has a name.
fn set_prop(alloc: Global, props: &mut Props, name: &[u8], value: &[u8]) -> Option<()> {
    if name.is_empty() {
        return Some(());
    }
    let name = PropName::parse(alloc, name).ok()?;
    let value = Vec::from_slice(alloc, value).ok()?;
    let value = PropValue::new(value).ok()?;
    props.set(alloc, name, value).ok()
}

fn text_of(alloc: Global, bytes: &[u8]) -> Option<Text> {
    let bytes = Vec::from_slice(alloc, bytes).ok()?;
    Text::new(alloc, bytes).ok()
}

fn action_of(letter: u8) -> Action {
    match letter {
        b'd' => Action::Add,
        b'f' => Action::Add,
        b'F' => Action::Replace,
        b'r' => Action::Delete,
        _ => Action::Modify,
    }
}

fn kind_of(letter: u8) -> Option<NodeKind> {
    match letter {
        b'd' => Some(NodeKind::Dir),
        b'f' => Some(NodeKind::File),
        b'F' => Some(NodeKind::File),
        _ => None,
    }
}

// The change of a row.
fn change(alloc: Global, row: &(u16, u8, &[u8], &[u8], &[u8], &[u8])) -> Option<Change> {
    let mut change = Change {
        path: NodePath::parse(alloc, row.2).ok()?,
        action: action_of(row.1),
        kind: kind_of(row.1),
        source: None,
        props: None,
        text: None,
    };
    if row.1 != b'r' && row.1 != b't' {
        let mut props = Props::empty();
        set_prop(alloc, &mut props, row.4, row.5)?;
        change.props = Some(props);
    }
    if row.1 == b'f' || row.1 == b'F' || row.1 == b't' {
        change.text = Some(text_of(alloc, row.3)?);
    }
    Some(change)
}

// The changes of a revision.
fn set_of(alloc: Global, number: u16) -> Option<ChangeSet> {
    let mut changes = Vec::new(alloc);
    for row in &DONE {
        if row.0 == number {
            changes.push(change(alloc, row)?).ok()?;
        }
    }
    ChangeSet::from_changes(changes).ok()
}

// Makes a revision.
fn commit(alloc: Global, repo: &mut Repo, made: &(u16, &[u8], &[u8])) -> Option<()> {
    let mut props = Props::empty();
    set_prop(alloc, &mut props, b"svn:author", made.1)?;
    set_prop(alloc, &mut props, b"svn:date", made.2)?;
    let set = set_of(alloc, made.0)?;
    let head = repo.head();
    match repo.commit(alloc, head, set, props, None) {
        Ok(_number) => Some(()),
        Err(_) => None,
    }
}

/// A port over three revisions.
pub(crate) fn site(alloc: Global) -> Option<HeldRepo> {
    let identity = Uuid::parse_str("6a1f0c3e-0000-4000-8000-0000000000a1").ok()?;
    let mut repo = Repo::new(alloc, identity).ok()?;
    for made in &MADE {
        commit(alloc, &mut repo, made)?;
    }
    Some(HeldRepo::new(alloc, repo, true))
}
