//! Sets of small revisions, driven to a recorder.
use crate::call_lines::are;
use crate::sets::{COPY_LESS_ONE, TWO, long_line, over, set};
use delta_editor::{Call, EditorFault, Recorder};
use dump_load::ChangeSet;
use editor_ends::{drive, law};
use path_tree::Tree;
use std::alloc::Global;
use std::process::Abort;

fn recorded(alloc: Global, trees: &[Tree], set: &ChangeSet) -> Result<Vec<Call>, EditorFault> {
    if trees.len() > 65_535 {
        return Err(EditorFault::TooLong);
    }
    drive(alloc, trees, set, Recorder::new(alloc))
}

// Whether a set over these trees is driven as these calls.
fn drives(rt: &impl Abort, alloc: Global, trees: &[Tree], set: &ChangeSet, wanted: &str) -> bool {
    match recorded(alloc, trees, set) {
        Ok(calls) => are(rt, alloc, calls.as_slice(), wanted),
        Err(_) => false,
    }
}

// Whether the set that lines spell, over the revision that others spell, is driven as these calls.
fn is_driven(rt: &impl Abort, alloc: Global, first: &str, lines: &str, wanted: &str) -> bool {
    let trees = over(rt, alloc, first);
    drives(rt, alloc, trees.as_slice(), &set(rt, alloc, lines), wanted)
}

// The sums are the MD5 of no bytes, as RFC 1321 has it.
const FILES: &str =
    "target 1\nopen_root 0\nadd_dir / /t\nadd_file /t /t/x\ntext_start /t/x\ntext_end /t/x\nclose_file /t/x [212, 29, 140, 217, 143, 0, 178, 4, 233, 128, 9, 152, 236, 248, 66, 126]\nadd_file /t /t/y\ntext_start /t/y\ntext_end /t/y\nclose_file /t/y [212, 29, 140, 217, 143, 0, 178, 4, 233, 128, 9, 152, 236, 248, 66, 126]\nclose_dir /t\nclose_dir /\nclose_edit\n";

const NOTHING: &str = "target 0\nopen_root none\nclose_dir /\nclose_edit\n";

#[test]
fn files_are_added_in_their_directory(rt: HostRuntime) {
    assert!(rt; is_driven(&rt, rt.alloc(), "", TWO, FILES));
    assert!(rt; drives(&rt, rt.alloc(), &[], &ChangeSet::empty(rt.alloc()), NOTHING));
}

const COPY: &str =
    "target 2\nopen_root 1\nadd_dir / /b from /t 1\ndelete_entry /b /b/x 1\nclose_dir /b\nclose_dir /\nclose_edit\n";

#[test]
fn a_deletion_under_a_copy(rt: HostRuntime) {
    assert!(rt; is_driven(&rt, rt.alloc(), TWO, COPY_LESS_ONE, COPY));
}

// A file a with two properties is added; then one of them is removed, one stays, and one is new.
const WITH_PROPS: &str = "add a file\tp=1,q=2\t";

const OTHER_PROPS: &str = "change a\tq=2,r=3";

const PROPERTIES: &str =
    "target 2\nopen_root 1\nopen_file / /a 1\nfile_prop /a p none\nfile_prop /a q 2\nfile_prop /a r 3\nclose_file /a none\nclose_dir /\nclose_edit\n";

#[test]
fn properties_are_removed_and_set(rt: HostRuntime) {
    assert!(rt; is_driven(&rt, rt.alloc(), WITH_PROPS, OTHER_PROPS, PROPERTIES));
}

// Files in directories, and then changes at several depths.
const DEEP_FILES: &str =
    "add a dir\t;add a/b dir\t;add a/b/c file\t\t;add a/x file\t\t;add d file\t\t";

const DEEP_CHANGES: &str = "change a/b/c\t-\thello;add a/e dir\t;delete a/x;change d";

const DEEP: &str =
    "target 2\nopen_root 1\nopen_dir / /a 1\nopen_dir /a /a/b 1\nopen_file /a/b /a/b/c 1\ntext_start /a/b/c\ntext_piece /a/b/c hello\ntext_end /a/b/c\nclose_file /a/b/c [93, 65, 64, 42, 188, 75, 42, 118, 185, 113, 157, 145, 16, 23, 197, 146]\nclose_dir /a/b\nadd_dir /a /a/e\nclose_dir /a/e\ndelete_entry /a /a/x 1\nclose_dir /a\nopen_file / /d 1\nclose_file /d none\nclose_dir /\nclose_edit\n";

#[test]
fn directories_open_just_above_what_changes(rt: HostRuntime) {
    assert!(rt; is_driven(&rt, rt.alloc(), DEEP_FILES, DEEP_CHANGES, DEEP));
}

// The root gets a property, and t becomes a file.
const REPLACING: &str = "change /\tk=v;replace t file\t\t";

const REPLACED: &str =
    "target 2\nopen_root 1\ndir_prop / k v\ndelete_entry / /t 1\nadd_file / /t\ntext_start /t\ntext_end /t\nclose_file /t [212, 29, 140, 217, 143, 0, 178, 4, 233, 128, 9, 152, 236, 248, 66, 126]\nclose_dir /\nclose_edit\n";

#[test]
fn a_directory_becomes_a_file(rt: HostRuntime) {
    assert!(rt; is_driven(&rt, rt.alloc(), TWO, REPLACING, REPLACED));
}

// How many pieces of a text are recorded, and how many bytes the longest and the last have.
fn pieces(calls: &[Call]) -> (usize, usize, usize) {
    let mut longest = 0;
    let mut last = 0;
    let mut count = 0usize;
    for call in calls {
        if let Call::TextPiece(_, piece) = call {
            last = piece.as_slice().len();
            longest = last.max(longest);
            count = count.saturating_add(1);
        }
    }
    (count, longest, last)
}

// The pieces of a file's text of so many bytes.
fn pieces_of(rt: &impl Abort, alloc: Global, count: usize) -> (usize, usize, usize) {
    let trees = over(rt, alloc, "");
    let line = long_line(rt, alloc, "add long file\t\t", count);
    let set = set(rt, alloc, line.as_str());
    let calls = recorded(alloc, trees.as_slice(), &set).expect(rt, "calls");
    pieces(calls.as_slice())
}

#[test]
fn a_long_text_goes_in_pieces(rt: HostRuntime) {
    assert!(rt; pieces_of(&rt, rt.alloc(), 131_073) == (3, 65_536, 1));
}

// What a set is refused with, which was taken already.
fn refused_again(rt: &impl Abort, alloc: Global) -> Option<EditorFault> {
    let trees = over(rt, alloc, TWO);
    recorded(alloc, trees.as_slice(), &set(rt, alloc, TWO)).err()
}

#[test]
fn a_set_with_a_fault(rt: HostRuntime) {
    assert!(rt; refused_again(&rt, rt.alloc()) == Some(EditorFault::PathThere));
    law::drive_has_the_effect();
    law::drive_is_nested();
    law::drive_is_taken();
    law::drive_is_refused_for_memory_alone();
    law::drive_goes_down();
    law::one_built_set();
    law::pieces_of_a_text();
}
