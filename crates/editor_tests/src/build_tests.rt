//! Sets driven to an editor that builds them again, and calls that it refuses.
use crate::sets::{
    COPY_LESS_ONE, TWO, changes, cut, none_is_wrong, over, path, set, set_of, source, tree_of,
};
use delta_editor::{Editor, EditorFault};
use dump_load::{Change, ChangeSet, in_path_order};
use editor_ends::{BuildEditor, BuiltDir, drive};
use node_base::{Action, Node, NodeKind, NodePath, PropName, RevNo, Source};
use path_tree::{Entry, Tree};
use std::alloc::Global;
use std::cmp::Ordering;
use std::process::Abort;

/// The set of changes that is built of the calls which show a set.
pub(crate) fn built(
    alloc: Global,
    trees: &[Tree],
    set: &ChangeSet,
) -> Result<ChangeSet, EditorFault> {
    if trees.len() > 65_535 {
        return Err(EditorFault::TooLong);
    }
    let editor = BuildEditor::new(alloc, trees)?;
    match drive(alloc, trees, set, editor) {
        Ok(built) => Ok(built.into_set()),
        Err(fault) => Err(fault),
    }
}

fn text_of(node: &Node) -> Option<&[u8]> {
    match &node.text {
        Some(text) => Some(text.as_slice()),
        None => None,
    }
}

fn same_entry(one: &Entry<'_>, other: &Entry<'_>) -> bool {
    if one.path.len() != other.path.len() {
        return false;
    }
    for (name, found) in one.path.iter().zip(other.path.iter()) {
        if name.compare(found) != Ordering::Equal {
            return false;
        }
    }
    one.node.changed == other.node.changed
        && text_of(one.node) == text_of(other.node)
        && one.node.props.equals(&other.node.props)
}

fn same_entries(these: &[Entry<'_>], those: &[Entry<'_>]) -> bool {
    if these.len() != those.len() {
        return false;
    }
    for (entry, found) in these.iter().zip(those.iter()) {
        if !same_entry(entry, found) {
            return false;
        }
    }
    true
}

/// Whether two trees have the same paths with the same nodes.
pub(crate) fn same_tree(rt: &impl Abort, alloc: Global, one: &Tree, other: &Tree) -> bool {
    let these = one.list(alloc).expect(rt, "memory");
    let those = other.list(alloc).expect(rt, "memory");
    same_entries(these.as_slice(), those.as_slice())
}

/// Whether a set and what is built of the calls that show it make the same tree.
pub(crate) fn comes_back(rt: &impl Abort, alloc: Global, trees: &[Tree], set: &ChangeSet) -> bool {
    match built(alloc, trees, set) {
        Ok(again) => same_tree(
            rt,
            alloc,
            &tree_of(rt, alloc, trees, set),
            &tree_of(rt, alloc, trees, &again),
        ),
        Err(_) => false,
    }
}

// What is built again of a set over these trees.
fn again(rt: &impl Abort, alloc: Global, trees: &[Tree], set: &ChangeSet) -> ChangeSet {
    built(alloc, trees, set).expect(rt, "a set")
}

fn action_of(change: &Change) -> &'static str {
    match change.action {
        Action::Modify => "change",
        Action::Add => "add",
        Action::Delete => "delete",
        Action::Replace => "replace",
    }
}

// A change's action, its path and which parts it gives.
fn line(rt: &impl Abort, alloc: Global, change: &Change) -> String {
    let line = format!(in alloc;
        "{} /{} {} {}\n",
        action_of(change),
        change.path,
        change.props.is_some(),
        change.text.is_some()
    );
    line.expect(rt, "memory")
}

// Whether a set has these changes, a line each.
fn are(rt: &impl Abort, alloc: Global, set: &ChangeSet, lines: &str) -> bool {
    let mut all = String::new(alloc);
    for change in set.changes() {
        all.push_str(line(rt, alloc, change).as_str())
            .expect(rt, "memory");
    }
    all.as_str() == lines
}

// Whether the set that lines spell, over the revision that others spell, comes back.
fn comes_back_over(rt: &impl Abort, alloc: Global, first: &str, lines: &str) -> bool {
    let trees = over(rt, alloc, first);
    comes_back(rt, alloc, trees.as_slice(), &set(rt, alloc, lines))
}

// Whether it is built again as these changes, whose tree lists these paths.
fn is_built_again(rt: &impl Abort, alloc: Global, lines: &str, built: &str, listed: &str) -> bool {
    let trees = over(rt, alloc, TWO);
    let again = again(rt, alloc, trees.as_slice(), &set(rt, alloc, lines));
    are(rt, alloc, &again, built) && makes(rt, alloc, trees.as_slice(), &again, listed)
}

// Whether a set makes a tree of these paths.
fn makes(rt: &impl Abort, alloc: Global, trees: &[Tree], set: &ChangeSet, listed: &str) -> bool {
    is_listed(rt, alloc, &tree_of(rt, alloc, trees, set), listed)
}

const BUILT: &str = "add /b false false\ndelete /b/x false false\n";

const LISTED: &str = "2 /\n2 /b\n1 /b/y\n1 /t\n1 /t/x\n1 /t/y\n";

#[test]
fn a_deletion_under_a_copy_is_built_again(rt: HostRuntime) {
    assert!(rt; comes_back_over(&rt, rt.alloc(), "", TWO));
    assert!(rt; is_built_again(&rt, rt.alloc(), COPY_LESS_ONE, BUILT, LISTED));
}

// Whether a set is one change, a copy of a path at a revision.
fn is_copy_of(set: &ChangeSet, path: &NodePath, revision: u16) -> bool {
    match set.changes() {
        [change] => match &change.source {
            Some(source) => {
                source.path.compare(path) == Ordering::Equal && source.revision.get() == revision
            }
            None => false,
        },
        _ => false,
    }
}

// Whether a copy of t/x is built again as a copy.
fn is_built_as_a_copy(rt: &impl Abort, alloc: Global) -> bool {
    let trees = over(rt, alloc, TWO);
    let again = again(
        rt,
        alloc,
        trees.as_slice(),
        &set(rt, alloc, "add c - t/x 1"),
    );
    are(rt, alloc, &again, "add /c false false\n") && is_copy_of(&again, &path(rt, alloc, "t/x"), 1)
}

// An add of the same bytes would have the same effect.
#[test]
fn a_copied_file_is_built_as_a_copy(rt: HostRuntime) {
    assert!(rt; is_built_as_a_copy(&rt, rt.alloc()));
}

// Adds the path of an entry with the number of the revision that last changed it.
fn add_entry(rt: &impl Abort, alloc: Global, entry: &Entry<'_>, all: &mut String) {
    let number = format!(in alloc; "{} ", entry.node.changed.get()).expect(rt, "memory");
    all.push_str(number.as_str()).expect(rt, "memory");
    for name in &entry.path {
        all.push_str("/").expect(rt, "memory");
        all.push_str(name.as_str()).expect(rt, "memory");
    }
    if entry.path.is_empty() {
        all.push_str("/").expect(rt, "memory");
    }
    all.push_str("\n").expect(rt, "memory");
}

// Whether these are the paths of a tree, each with the number of the revision that last changed it.
fn is_listed(rt: &impl Abort, alloc: Global, tree: &Tree, lines: &str) -> bool {
    let entries = tree.list(alloc).expect(rt, "memory");
    let mut all = String::new(alloc);
    for entry in &entries {
        add_entry(rt, alloc, entry, &mut all);
    }
    all.as_str() == lines
}

// A file a with two properties is added, and then its properties are others.
const WITH_PROPS: &str = "add a file\tp=1,q=2\thello";

const OTHER_PROPS: &str = "change a\tq=2,r=3";

// Whether a set is one change that gives two properties, r among them.
fn gives_two(set: &ChangeSet) -> bool {
    match set.changes() {
        [change] => match &change.props {
            Some(props) => props.len() == 2 && props.get(b"r") == Some(b"3".as_slice()),
            None => false,
        },
        _ => false,
    }
}

// Whether what is built again of the other properties gives them.
fn gives_them_again(rt: &impl Abort, alloc: Global) -> bool {
    let trees = over(rt, alloc, WITH_PROPS);
    let again = again(rt, alloc, trees.as_slice(), &set(rt, alloc, OTHER_PROPS));
    are(rt, alloc, &again, "change /a true false\n") && gives_two(&again)
}

#[test]
fn properties_are_built_again(rt: HostRuntime) {
    assert!(rt; comes_back_over(&rt, rt.alloc(), WITH_PROPS, OTHER_PROPS));
    assert!(rt; gives_them_again(&rt, rt.alloc()));
}

// Adds a directory, which is a copy where there is a source.
fn add_dir(
    editor: &mut BuildEditor<'_>,
    root: &mut BuiltDir,
    at: &NodePath,
    from: Option<&Source>,
) -> Result<(), EditorFault> {
    let dir = editor.add_dir(root, at, from)?;
    editor.close_dir(dir)
}

fn add_file(
    editor: &mut BuildEditor<'_>,
    root: &mut BuiltDir,
    at: &NodePath,
) -> Result<(), EditorFault> {
    let file = editor.add_file(root, at, None)?;
    editor.close_file(file, None)
}

fn open_dir(
    editor: &mut BuildEditor<'_>,
    root: &mut BuiltDir,
    at: &NodePath,
) -> Result<(), EditorFault> {
    let dir = editor.open_dir(root, at, None)?;
    editor.close_dir(dir)
}

fn open_file(
    editor: &mut BuildEditor<'_>,
    root: &mut BuiltDir,
    at: &NodePath,
) -> Result<(), EditorFault> {
    let file = editor.open_file(root, at, None)?;
    editor.close_file(file, None)
}

// Does in the root what a line says: a word, a path, and for a directory that is added maybe a source.
fn do_one(
    rt: &impl Abort,
    alloc: Global,
    editor: &mut BuildEditor<'_>,
    root: &mut BuiltDir,
    line: &str,
) -> Result<(), EditorFault> {
    let (word, rest) = cut(line);
    let (at, from) = cut(rest);
    let at = path(rt, alloc, at);
    match word {
        "dir" => add_dir(editor, root, &at, source(rt, alloc, from).as_ref()),
        "file" => add_file(editor, root, &at),
        "open" => open_dir(editor, root, &at),
        "read" => open_file(editor, root, &at),
        _ => editor.delete_entry(root, &at, None),
    }
}

// Whether all of these are done in the root, in order: the first refusal.
fn do_all(
    rt: &impl Abort,
    alloc: Global,
    editor: &mut BuildEditor<'_>,
    root: &mut BuiltDir,
    lines: &str,
) -> Result<(), EditorFault> {
    for line in lines.lines() {
        do_one(rt, alloc, editor, root, line)?;
    }
    Ok(())
}

// The set that an edit makes whose root is closed.
fn closed(editor: BuildEditor<'_>, root: BuiltDir) -> Result<ChangeSet, EditorFault> {
    let mut editor = editor;
    editor.close_dir(root)?;
    match editor.close_edit() {
        Ok(built) => Ok(built.into_set()),
        Err(fault) => Err(fault),
    }
}

// The set that is built of what is done in the root, in order.
fn done(
    rt: &impl Abort,
    alloc: Global,
    trees: &[Tree],
    lines: &str,
) -> Result<ChangeSet, EditorFault> {
    assert!(rt; trees.len() <= 65_535);
    let mut editor = BuildEditor::new(alloc, trees).expect(rt, "memory");
    let mut root = editor.open_root(None).expect(rt, "a root");
    match do_all(rt, alloc, &mut editor, &mut root, lines) {
        Ok(()) => closed(editor, root),
        Err(fault) => {
            editor.discard_dir(root);
            editor.abort_edit();
            Err(fault)
        }
    }
}

// The number of the refusal that these meet, and 0 where there is none.
fn refusal(rt: &impl Abort, alloc: Global, trees: &[Tree], lines: &str) -> u8 {
    match done(rt, alloc, trees, lines) {
        Ok(_) => 0,
        Err(fault) => fault.number(),
    }
}

// The first of these, over two revisions, the second with t, t/x and t/y, that meet another number.
fn first_other<'a>(rt: &impl Abort, alloc: Global, cases: &'a [(&'a str, u8)]) -> Option<&'a str> {
    let trees = over(rt, alloc, TWO);
    for (lines, number) in cases {
        if refusal(rt, alloc, trees.as_slice(), *lines) != *number {
            return Some(*lines);
        }
    }
    None
}

const ALONE: [(&str, u8); 12] = [
    ("delete /", 10),
    ("open u", 11),
    ("dir t", 12),
    ("file t/x/z", 13),
    ("dir c t 2", 14),
    ("dir c t/x 1", 17),
    ("read t", 17),
    ("open t/x", 17),
    ("delete u", 11),
    ("open /", 15),
    ("dir /", 10),
    ("dir u", 0),
];

#[test]
fn a_faulty_call_is_refused_with_its_number(rt: HostRuntime) {
    none_is_wrong(&rt, first_other(&rt, rt.alloc(), &ALONE));
}

const TWICE: [(&str, u8); 9] = [
    ("read t/x\nread t/x", 15),
    ("dir u\ndir u", 15),
    ("open t\ndelete t", 15),
    ("read t/x\ndelete t", 15),
    ("delete t/x\ndelete t", 15),
    ("delete t/x\ndelete t/x", 11),
    ("delete t\nfile t\ndelete t", 15),
    ("delete t\nopen t", 11),
    ("delete t/x\ndir t/x", 0),
];

#[test]
fn what_is_touched_twice_is_out_of_order(rt: HostRuntime) {
    none_is_wrong(&rt, first_other(&rt, rt.alloc(), &TWICE));
}

// Whether these are done over these trees, and make this set.
fn builds(rt: &impl Abort, alloc: Global, lines: &str, set: &str) -> bool {
    let trees = over(rt, alloc, TWO);
    match done(rt, alloc, trees.as_slice(), lines) {
        Ok(built) => are(rt, alloc, &built, set),
        Err(_) => false,
    }
}

const OPENED_AGAIN: [(&str, u8); 1] = [("dir u\ndelete t\nopen /", 15)];

const REPLACED: &str = "replace /t true true\nadd /u true false\nadd /u/v true false\n";

#[test]
fn a_deletion_and_an_add_are_a_replace(rt: HostRuntime) {
    none_is_wrong(&rt, first_other(&rt, rt.alloc(), &OPENED_AGAIN));
    let replacing = "dir u\ndelete t\nfile t\ndir u/v";
    assert!(rt; builds(&rt, rt.alloc(), replacing, REPLACED));
    assert!(rt;
        builds(
            &rt,
            rt.alloc(),
            "open t\nread t/x",
            "change /t/x false false\n"
        )
    );
}

// Whether an editor refuses another target than the next revision, and then takes that.
fn aims(editor: &mut BuildEditor<'_>) -> bool {
    editor.target(RevNo::new(3)) == Err(EditorFault::WrongNumber)
        && editor.target(RevNo::new(2)).is_ok()
}

// Whether one over these trees does.
fn aims_at_the_next(rt: &impl Abort, alloc: Global, trees: &[Tree]) -> bool {
    assert!(rt; trees.len() <= 65_535);
    let mut editor = BuildEditor::new(alloc, trees).expect(rt, "memory");
    let aims = aims(&mut editor);
    editor.abort_edit();
    aims
}

// Whether an edit without calls makes this set, and that a tree of these paths.
fn is_empty(rt: &impl Abort, alloc: Global, trees: &[Tree], lines: &str, listed: &str) -> bool {
    let set = done(rt, alloc, trees, "").expect(rt, "a set");
    are(rt, alloc, &set, lines) && makes(rt, alloc, trees, &set, listed)
}

// Calls without a target and without a change: the root alone.
#[test]
fn an_empty_edit_changes_the_root(rt: HostRuntime) {
    let trees = over(&rt, rt.alloc(), TWO);
    let over = trees.as_slice();
    let listed = "2 /\n1 /t\n1 /t/x\n1 /t/y\n";
    assert!(rt; is_empty(&rt, rt.alloc(), over, "change / false false\n", listed));
    assert!(rt; aims_at_the_next(&rt, rt.alloc(), over));
}

// Gives the root a property of these bytes.
fn give(
    rt: &impl Abort,
    alloc: Global,
    editor: &mut BuildEditor<'_>,
    root: &mut BuiltDir,
    bytes: &[u8],
) -> Result<(), EditorFault> {
    let name = PropName::parse(alloc, b"p").expect(rt, "a property's name");
    editor.dir_prop(root, &name, Some(bytes))
}

// Whether a property of the root takes 65,536 bytes, and no more.
fn takes_no_more(
    rt: &impl Abort,
    alloc: Global,
    editor: &mut BuildEditor<'_>,
    root: &mut BuiltDir,
) -> bool {
    let bytes = Vec::from_elem(alloc, b'x', 65_537).expect(rt, "memory");
    match bytes.as_slice().split_first() {
        Some((_, fewer)) => {
            give(rt, alloc, editor, root, fewer).is_ok()
                && give(rt, alloc, editor, root, bytes.as_slice()) == Err(EditorFault::TooLong)
        }
        None => false,
    }
}

// Whether that is so of an editor over these trees.
fn is_limited(rt: &impl Abort, alloc: Global, trees: &[Tree]) -> bool {
    assert!(rt; trees.len() <= 65_535);
    let mut editor = BuildEditor::new(alloc, trees).expect(rt, "memory");
    let mut root = editor.open_root(None).expect(rt, "a root");
    let limited = takes_no_more(rt, alloc, &mut editor, &mut root);
    editor.discard_dir(root);
    editor.abort_edit();
    limited
}

#[test]
fn what_is_past_a_limit(rt: HostRuntime) {
    let trees = over(&rt, rt.alloc(), TWO);
    assert!(rt; is_limited(&rt, rt.alloc(), trees.as_slice()));
}

// A line for each of so many numbers, between a front and a back.
fn numbered(rt: &impl Abort, alloc: Global, front: &str, count: u16, back: &str) -> String {
    let mut lines = String::new(alloc);
    for i in 0..count {
        let line = format!(in alloc; "{front}{i}{back}").expect(rt, "memory");
        lines.push_str(line.as_str()).expect(rt, "memory");
    }
    lines
}

// How many changes so many added directories make, or why they make none.
fn add_many(rt: &impl Abort, alloc: Global, count: u16) -> Result<usize, EditorFault> {
    let trees = over(rt, alloc, TWO);
    let lines = numbered(rt, alloc, "dir ", count, "\n");
    match done(rt, alloc, trees.as_slice(), lines.as_str()) {
        Ok(set) => Ok(set.changes().len()),
        Err(fault) => Err(fault),
    }
}

#[test]
fn a_set_of_too_many_changes(rt: HostRuntime) {
    assert!(rt; add_many(&rt, rt.alloc(), 4_096) == Ok(4_096));
    assert!(rt; add_many(&rt, rt.alloc(), 4_097) == Err(EditorFault::TooLong));
}

// So many empty files in t, whose names are numbers.
fn files_in_t(rt: &impl Abort, alloc: Global, count: u16) -> ChangeSet {
    let lines = numbered(rt, alloc, "add t/", count, " file\t\t;");
    let ordered = in_path_order(changes(rt, alloc, lines.as_str())).expect(rt, "memory");
    set_of(rt, ordered)
}

fn adds_a_file(change: &Change) -> bool {
    change.action == Action::Add && change.kind == Some(NodeKind::File)
}

// Whether a set adds so many files and changes nothing else.
fn adds_files_alone(set: &ChangeSet, count: usize) -> bool {
    for change in set.changes() {
        if !adds_a_file(change) {
            return false;
        }
    }
    set.changes().len() == count
}

// Whether what is built of so many added files adds them alone.
fn is_built_of_files(rt: &impl Abort, alloc: Global, count: u16) -> bool {
    let trees = over(rt, alloc, TWO);
    let most = files_in_t(rt, alloc, count);
    let again = again(rt, alloc, trees.as_slice(), &most);
    adds_files_alone(&again, usize::from(count))
}

// Of the root, t and 4,096 files, which are all opened or added, the files alone are changes of the set.
#[test]
fn the_way_to_many_files_is_no_change(rt: HostRuntime) {
    assert!(rt; is_built_of_files(&rt, rt.alloc(), 4_096));
}
