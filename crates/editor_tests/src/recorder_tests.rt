//! Revisions shown to a recorder by hand.
use crate::call_lines::are;
use crate::sets::{none_is_wrong, path};
use delta_editor::{Call, Editor, EditorFault, OpenDir, Recorder, Source, law};
use node_base::{NodePath, PropName, RevNo, TreeFault};
use std::alloc::Global;
use std::process::Abort;

fn prop(rt: &impl Abort, alloc: Global, text: &str) -> PropName {
    PropName::parse(alloc, text.as_bytes()).expect(rt, "a property's name")
}

fn base(number: u16) -> Option<RevNo> {
    Some(RevNo::new(number))
}

// Revision 2 copies the directory `t` of revision 1, with its files `x` and `y`, to `b`, and deletes `x` there.
fn show_copy<E: Editor>(rt: &impl Abort, alloc: Global, editor: E) -> E::Done {
    let mut editor = editor;
    let b = path(rt, alloc, "b");
    let from = Source {
        path: path(rt, alloc, "t"),
        revision: RevNo::new(1),
    };
    editor.target(RevNo::new(2)).expect(rt, "target");
    let mut root = editor.open_root(base(1)).expect(rt, "open_root");
    let mut copy = editor
        .add_dir(&mut root, &b, Some(&from))
        .expect(rt, "add_dir");
    editor
        .delete_entry(&mut copy, &path(rt, alloc, "b/x"), base(1))
        .expect(rt, "delete_entry");
    editor.close_dir(copy).expect(rt, "close_dir");
    editor.close_dir(root).expect(rt, "close_dir");
    editor.close_edit().expect(rt, "close_edit")
}

#[test]
fn records_a_copy_less_one_file(rt: HostRuntime) {
    let alloc = rt.alloc();
    let calls = show_copy(&rt, alloc, Recorder::new(alloc));
    let wanted =
        "target 2\nopen_root 1\nadd_dir / /b from /t 1\ndelete_entry /b /b/x 1\nclose_dir /b\nclose_dir /\nclose_edit\n";
    assert!(rt; are(&rt, alloc, calls.as_slice(), wanted));
}

// A file's properties `p` = `1`, `q` = `2` become `q` = `2`, `r` = `3`.
fn property_changes(rt: &impl Abort, alloc: Global) -> Vec<Call> {
    let mut editor = Recorder::new(alloc);
    editor.target(RevNo::new(2)).expect(rt, "target");
    let mut root = editor.open_root(base(1)).expect(rt, "open_root");
    let mut file = editor
        .open_file(&mut root, &path(rt, alloc, "a"), base(1))
        .expect(rt, "open_file");
    editor
        .file_prop(&mut file, &prop(rt, alloc, "p"), None)
        .expect(rt, "file_prop");
    editor
        .file_prop(&mut file, &prop(rt, alloc, "q"), Some(b"2"))
        .expect(rt, "file_prop");
    editor
        .file_prop(&mut file, &prop(rt, alloc, "r"), Some(b"3"))
        .expect(rt, "file_prop");
    editor.close_file(file, None).expect(rt, "close_file");
    editor.close_dir(root).expect(rt, "close_dir");
    editor.close_edit().expect(rt, "close_edit")
}

#[test]
fn records_property_changes(rt: HostRuntime) {
    let alloc = rt.alloc();
    let calls = property_changes(&rt, alloc);
    let wanted =
        "target 2\nopen_root 1\nopen_file / /a 1\nfile_prop /a p none\nfile_prop /a q 2\nfile_prop /a r 3\nclose_file /a none\nclose_dir /\nclose_edit\n";
    assert!(rt; are(&rt, alloc, calls.as_slice(), wanted));
}

// A file with a text in two pieces, and with a sum. The sum's bytes are the caller's word.
fn show_text(rt: &impl Abort, alloc: Global, editor: &mut Recorder, dir: &mut OpenDir) {
    let mut file = editor
        .add_file(dir, &path(rt, alloc, "d/f"), None)
        .expect(rt, "add_file");
    editor.text_start(&mut file).expect(rt, "text_start");
    editor.text_piece(&mut file, b"ab").expect(rt, "text_piece");
    editor.text_piece(&mut file, b"c").expect(rt, "text_piece");
    editor.text_end(&mut file).expect(rt, "text_end");
    editor
        .close_file(file, Some([7; 16]))
        .expect(rt, "close_file");
}

// Such a file in a directory, and a property of the root: the calls, and how many there were before the end.
fn texts_and_directories(rt: &impl Abort, alloc: Global) -> (Vec<Call>, usize) {
    let mut editor = Recorder::new(alloc);
    let mut root = editor.open_root(None).expect(rt, "open_root");
    let mut dir = editor
        .open_dir(&mut root, &path(rt, alloc, "d"), None)
        .expect(rt, "open_dir");
    editor
        .dir_prop(&mut root, &prop(rt, alloc, "n"), Some(b"v"))
        .expect(rt, "dir_prop");
    show_text(rt, alloc, &mut editor, &mut dir);
    editor.close_dir(dir).expect(rt, "close_dir");
    editor.close_dir(root).expect(rt, "close_dir");
    let count = editor.calls().len();
    (editor.close_edit().expect(rt, "close_edit"), count)
}

#[test]
fn records_texts_and_directories(rt: HostRuntime) {
    let alloc = rt.alloc();
    let (calls, count) = texts_and_directories(&rt, alloc);
    let wanted =
        "open_root none\nopen_dir / /d none\ndir_prop / n v\nadd_file /d /d/f\ntext_start /d/f\ntext_piece /d/f ab\ntext_piece /d/f c\ntext_end /d/f\nclose_file /d/f [7, 7, 7, 7, 7, 7, 7, 7, 7, 7, 7, 7, 7, 7, 7, 7]\nclose_dir /d\nclose_dir /\nclose_edit\n";
    assert!(rt; count == 11 && are(&rt, alloc, calls.as_slice(), wanted));
}

#[test]
fn is_given_up(rt: HostRuntime) {
    let alloc = rt.alloc();
    let mut editor = Recorder::new(alloc);
    let mut root = editor.open_root(None).expect(&rt, "open_root");
    let file = editor
        .open_file(&mut root, &path(&rt, alloc, "a"), None)
        .expect(&rt, "open_file");
    editor.discard_file(file);
    editor.discard_dir(root);
    let count = editor.calls().len();
    editor.abort_edit();
    assert!(rt; count == 2);
}

// Whether a refusal has this number and this text.
fn is_told(alloc: Global, fault: EditorFault, number: u8, text: &str) -> bool {
    match format!(in alloc; "{fault}") {
        Ok(told) => fault.number() == number && told.as_str() == text,
        Err(_) => false,
    }
}

const OF_PLACES: [(TreeFault, u8, &str); 7] = [
    (TreeFault::TooLong, 8, "limit exceeded"),
    (TreeFault::BadPath, 10, "bad path"),
    (TreeFault::NoSuchPath, 11, "no such path"),
    (TreeFault::PathThere, 12, "path already exists"),
    (TreeFault::NotDir, 13, "not a directory"),
    (TreeFault::NoSource, 14, "no such copy source"),
    (TreeFault::KindMismatch, 17, "node kind mismatch"),
];

const OTHERS: [(EditorFault, u8, &str); 4] = [
    (
        EditorFault::OutOfOrder,
        15,
        "changes of one path do not combine",
    ),
    (EditorFault::WrongNumber, 16, "revision out of sequence"),
    (EditorFault::PeerFailed, 49, "stream failed"),
    (EditorFault::OutOfMemory, 70, "out of memory"),
];

// The text of the first of these that is another refusal.
fn other_refusal(alloc: Global) -> Option<&'static str> {
    for (fault, number, text) in &OF_PLACES {
        if !is_told(alloc, EditorFault::from(*fault), *number, *text) {
            return Some(*text);
        }
    }
    for (fault, number, text) in &OTHERS {
        if !is_told(alloc, *fault, *number, *text) {
            return Some(*text);
        }
    }
    None
}

#[test]
fn refusals_have_their_numbers(rt: HostRuntime) {
    none_is_wrong(&rt, other_refusal(rt.alloc()));
}

#[test]
fn laws_are_called() {
    law::calls_join();
    law::closes_change_nothing();
    law::pieces_make_the_text();
    law::one_name_changes();
    law::touched_are_numbered();
    law::deleted_is_gone();
    law::copied_is_the_source();
    law::elsewhere_stays();
    law::nested_is_edit();
}
