//! The repository that the tests serve.

use dump_load::{Change, ChangeSet};
use node_base::{Action, NodeKind, NodePath, PropName, PropValue, Props, RevNo, Source, Text};
use ra_serve::HeldRepo;
use repo_core::Repo;
use std::alloc::Global;
use std::process::Abort;
use uuid::Uuid;

fn path(rt: &impl Abort, alloc: Global, text: &[u8]) -> NodePath {
    NodePath::parse(alloc, text).expect(rt, "a path")
}

// Properties with these names and values.
fn props(rt: &impl Abort, alloc: Global, pairs: &[(&[u8], &[u8])]) -> Props {
    let mut props = Props::empty();
    for pair in pairs {
        let name = PropName::parse(alloc, pair.0).expect(rt, "a name");
        let value = Vec::from_slice(alloc, pair.1).expect(rt, "memory");
        let value = PropValue::new(value).expect(rt, "a value");
        props.set(alloc, name, value).expect(rt, "a property");
    }
    props
}

fn bare(rt: &impl Abort, alloc: Global, at: &[u8], action: Action) -> Change {
    Change {
        path: path(rt, alloc, at),
        action,
        kind: None,
        source: None,
        props: None,
        text: None,
    }
}

// A directory that is added.
fn dir(rt: &impl Abort, alloc: Global, at: &[u8]) -> Change {
    let mut change = bare(rt, alloc, at, Action::Add);
    change.kind = Some(NodeKind::Dir);
    change.props = Some(Props::empty());
    change
}

fn text(rt: &impl Abort, alloc: Global, bytes: &[u8]) -> Option<Text> {
    let bytes = Vec::from_slice(alloc, bytes).expect(rt, "memory");
    Some(Text::new(alloc, bytes).expect(rt, "a text"))
}

// A file that is added.
fn file(rt: &impl Abort, alloc: Global, at: &[u8], bytes: &[u8]) -> Change {
    let mut change = bare(rt, alloc, at, Action::Add);
    change.kind = Some(NodeKind::File);
    change.props = Some(Props::empty());
    change.text = text(rt, alloc, bytes);
    change
}

fn add(rt: &impl Abort, changes: &mut Vec<Change>, change: Change) {
    changes.push(change).expect(rt, "memory");
}

fn set_of(rt: &impl Abort, changes: Vec<Change>) -> ChangeSet {
    ChangeSet::from_changes(changes).expect(rt, "a normal set")
}

// Adds two directories, and in one of them a file and a directory with a file.
fn first(rt: &impl Abort, alloc: Global) -> ChangeSet {
    let mut changes = Vec::new(alloc);
    add(rt, &mut changes, dir(rt, alloc, b"tags"));
    add(rt, &mut changes, dir(rt, alloc, b"trunk"));
    add(
        rt,
        &mut changes,
        file(rt, alloc, b"trunk/README", b"hello\n"),
    );
    add(rt, &mut changes, dir(rt, alloc, b"trunk/lib"));
    let mut source = file(rt, alloc, b"trunk/lib/a.c", b"int a;\n");
    source.props = Some(props(rt, alloc, &[(b"svn:eol-style", b"native")]));
    add(rt, &mut changes, source);
    set_of(rt, changes)
}

// Changes a directory's properties and a file's text.
fn second(rt: &impl Abort, alloc: Global) -> ChangeSet {
    let mut changes = Vec::new(alloc);
    let mut trunk = bare(rt, alloc, b"trunk", Action::Modify);
    trunk.props = Some(props(rt, alloc, &[(b"custom:dir", b"deep")]));
    add(rt, &mut changes, trunk);
    let mut readme = bare(rt, alloc, b"trunk/README", Action::Modify);
    readme.text = text(rt, alloc, b"hello again\n");
    add(rt, &mut changes, readme);
    set_of(rt, changes)
}

// Copies the directory as revision 2 has it, and adds an empty file there.
fn third(rt: &impl Abort, alloc: Global) -> ChangeSet {
    let mut changes = Vec::new(alloc);
    let mut copy = bare(rt, alloc, b"tags/1.0", Action::Add);
    copy.source = Some(Source {
        path: path(rt, alloc, b"trunk"),
        revision: RevNo::new(2),
    });
    add(rt, &mut changes, copy);
    add(rt, &mut changes, file(rt, alloc, b"tags/1.0/notes", b""));
    set_of(rt, changes)
}

fn commit(rt: &impl Abort, alloc: Global, repo: &mut Repo, set: ChangeSet, props: Props) {
    let head = repo.head();
    let _number = repo
        .commit(alloc, head, set, props, None)
        .expect(rt, "a revision");
}

fn first_props(rt: &impl Abort, alloc: Global) -> Props {
    let pairs: [(&[u8], &[u8]); 3] = [
        (b"svn:author", b"alice"),
        (b"svn:date", b"2020-01-01T00:16:40.007919Z"),
        (b"svn:log", b"first"),
    ];
    props(rt, alloc, &pairs)
}

fn second_props(rt: &impl Abort, alloc: Global) -> Props {
    let pairs: [(&[u8], &[u8]); 2] = [
        (b"svn:date", b"2020-01-01T00:33:20.015838Z"),
        (b"svn:log", b"again"),
    ];
    props(rt, alloc, &pairs)
}

/// A port over three revisions, of which the second has no author and the third no date.
pub(crate) fn site(rt: &impl Abort, alloc: Global) -> HeldRepo {
    let identity = Uuid::parse_str("6a1f0c3e-0000-4000-8000-0000000000b7").expect(
        rt,
        "an identity",
    );
    let mut repo = Repo::new(alloc, identity).expect(rt, "memory");
    commit(
        rt,
        alloc,
        &mut repo,
        first(rt, alloc),
        first_props(rt, alloc),
    );
    commit(
        rt,
        alloc,
        &mut repo,
        second(rt, alloc),
        second_props(rt, alloc),
    );
    let by_bob = props(rt, alloc, &[(b"svn:author", b"bob")]);
    commit(rt, alloc, &mut repo, third(rt, alloc), by_bob);
    HeldRepo::new(alloc, repo, true)
}
