//! Revisions written as commands.

use crate::streams_for_tests::Failing;
use delta_editor::{Editor, EditorFault, Source};
use md5::{Digest, Md5};
use node_base::{NodePath, PathFault, RevNo};
use ra_edit::wire::WireEditor;
use std::alloc::Global;
use std::process::Abort;
use std::rt::HostRuntime;

fn path(rt: &impl Abort, alloc: Global, text: &str) -> NodePath {
    NodePath::parse(alloc, text.as_bytes()).expect(rt, "a path")
}

fn base(number: u16) -> Option<RevNo> {
    Some(RevNo::new(number))
}

fn sum_of(text: &[u8]) -> [u8; 16] {
    let mut hasher = Md5::new();
    hasher.update(text);
    hasher.finalize()
}

// A file `a` is added with this text.
fn show_text<E: Editor>(rt: &impl Abort, alloc: Global, editor: E, text: &[u8]) -> E::Done {
    let mut editor = editor;
    editor.target(RevNo::new(1)).expect(rt, "target");
    let mut root = editor.open_root(base(0)).expect(rt, "open_root");
    let mut file = editor
        .add_file(&mut root, &path(rt, alloc, "a"), None)
        .expect(rt, "add_file");
    editor.text_start(&mut file).expect(rt, "text_start");
    for piece in text.chunks(65_536) {
        editor.text_piece(&mut file, piece).expect(rt, "text_piece");
    }
    editor.text_end(&mut file).expect(rt, "text_end");
    editor
        .close_file(file, Some(sum_of(text)))
        .expect(rt, "close_file");
    editor.close_dir(root).expect(rt, "close_dir");
    editor.close_edit().expect(rt, "close_edit")
}

/// What stands in front of the chunks of such a file.
pub(crate) const FRONT: &[u8] =
    b"( target-rev ( 1 ) ) ( open-root ( ( 0 ) 2:t0 ) ) ( add-file ( 1:a 2:t0 2:t1 ( ) ) ) ( apply-textdelta ( 2:t1 ( ) ) ) ( textdelta-chunk ( 2:t1 4:SVN\x00 ) ) ";

// What stands behind that.
const HELLO: &[u8] =
    b"( textdelta-chunk ( 2:t1 12:\x00\x00\x06\x01\x06\x86hello\n ) ) ( textdelta-end ( 2:t1 ) ) ( close-file ( 2:t1 ( 32:b1946ac92492d2347c6235b4d2611184 ) ) ) ( close-dir ( 2:t0 ) ) ( finish-replay ( ) ) ";

const EMPTY: &[u8] =
    b"( textdelta-end ( 2:t1 ) ) ( close-file ( 2:t1 ( 32:d41d8cd98f00b204e9800998ecf8427e ) ) ) ( close-dir ( 2:t0 ) ) ( finish-replay ( ) ) ";

// The bytes of a file's text, behind bytes that were there before.
fn written(rt: &impl Abort, alloc: Global, text: &[u8]) -> Vec<u8> {
    let before = Vec::from_slice(alloc, b"x ").expect(rt, "memory");
    let editor = WireEditor::new(alloc, before).expect(rt, "room");
    show_text(rt, alloc, editor, text).into_inner()
}

fn is_written(rt: &impl Abort, alloc: Global, text: &[u8], behind: &[u8]) -> bool {
    let mut wanted = Vec::from_slice(alloc, b"x ").expect(rt, "memory");
    wanted.extend_from_slice(FRONT).expect(rt, "memory");
    wanted.extend_from_slice(behind).expect(rt, "memory");
    let found = written(rt, alloc, text);
    found == wanted
}

#[test]
fn a_file_is_added(rt: HostRuntime) {
    assert!(rt; is_written(&rt, rt.alloc(), b"hello\n", HELLO));
    assert!(rt; is_written(&rt, rt.alloc(), b"", EMPTY));
}

// What stands in front of a window's new data in its chunk.
const CHUNK: &[u8] =
    b"( textdelta-chunk ( 2:t1 65549:\x00\x00\x84\x80\x00\x04\x84\x80\x00\x80\x84\x80\x00";

// What stands behind the chunks of a file of 1,048,576 bytes `x`.
const CLOSED: &[u8] =
    b"( textdelta-end ( 2:t1 ) ) ( close-file ( 2:t1 ( 32:b561f87202d04959e37588ee05cf5b10 ) ) ) ( close-dir ( 2:t0 ) ) ( finish-replay ( ) ) ";

/// A text of 1,048,576 bytes `x`.
pub(crate) fn mebibyte(rt: &impl Abort, alloc: Global) -> Vec<u8> {
    Vec::from_elem(alloc, b'x', 1_048_576).expect(rt, "memory")
}

/// Such a text as the chunks of its windows behind a front, and what stands behind them.
pub(crate) fn in_chunks(rt: &impl Abort, alloc: Global, front: &[u8], text: &[u8]) -> Vec<u8> {
    let mut behind = Vec::from_slice(alloc, front).expect(rt, "memory");
    for piece in text.chunks(65_536) {
        behind.extend_from_slice(CHUNK).expect(rt, "memory");
        behind.extend_from_slice(piece).expect(rt, "memory");
        behind.extend_from_slice(b" ) ) ").expect(rt, "memory");
    }
    behind.extend_from_slice(CLOSED).expect(rt, "memory");
    behind
}

#[test]
fn a_mebibyte_is_seventeen_chunks(rt: HostRuntime) {
    let alloc = rt.alloc();
    let text = mebibyte(&rt, alloc);
    let behind = in_chunks(&rt, alloc, b"", &text);
    assert!(rt; is_written(&rt, alloc, text.as_slice(), behind.as_slice()));
}

/// Where a directory is copied from and to, and the file that is deleted in the copy.
#[derive(Drop)]
pub(crate) struct CopyPaths {
    from: Source,
    copy: NodePath,
    file: NodePath,
}

impl CopyPaths {
    /// From `t` of revision 1 to `b`, less the file `x`.
    pub(crate) fn new(alloc: Global) -> Result<CopyPaths, PathFault> {
        let from = Source {
            path: NodePath::parse(alloc, b"t")?,
            revision: RevNo::new(1),
        };
        let copy = NodePath::parse(alloc, b"b")?;
        let file = NodePath::parse(alloc, b"b/x")?;
        Ok(CopyPaths { from, copy, file })
    }
}

/// A directory is copied less one file.
pub(crate) fn show_copy<E: Editor>(editor: E, paths: &CopyPaths) -> Result<E::Done, EditorFault> {
    let mut editor = editor;
    match copy_root(&mut editor, paths) {
        Ok(()) => editor.close_edit(),
        Err(fault) => {
            editor.abort_edit();
            Err(fault)
        }
    }
}

fn copy_root<E: Editor>(editor: &mut E, paths: &CopyPaths) -> Result<(), EditorFault> {
    editor.target(RevNo::new(2))?;
    let mut root = editor.open_root(base(1))?;
    match copy_below(editor, &mut root, paths) {
        Ok(()) => editor.close_dir(root),
        Err(fault) => {
            editor.discard_dir(root);
            Err(fault)
        }
    }
}

fn copy_below<E: Editor>(
    editor: &mut E,
    root: &mut E::Dir,
    paths: &CopyPaths,
) -> Result<(), EditorFault> {
    let mut copy = editor.add_dir(root, &paths.copy, Some(&paths.from))?;
    match editor.delete_entry(&mut copy, &paths.file, base(1)) {
        Ok(()) => editor.close_dir(copy),
        Err(fault) => {
            editor.discard_dir(copy);
            Err(fault)
        }
    }
}

/// The bytes of that edit.
pub(crate) const COPY: &[u8] =
    b"( target-rev ( 2 ) ) ( open-root ( ( 1 ) 2:t0 ) ) ( add-dir ( 1:b 2:t0 2:t1 ( 2:/t 1 ) ) ) ( delete-entry ( 3:b/x ( 1 ) 2:t1 ) ) ( close-dir ( 2:t1 ) ) ( close-dir ( 2:t0 ) ) ( finish-replay ( ) ) ";

// The bytes that it is written as.
fn copy_written(rt: &impl Abort, alloc: Global) -> Vec<u8> {
    let editor = WireEditor::new(alloc, Vec::new(alloc)).expect(rt, "room");
    let paths = CopyPaths::new(alloc).expect(rt, "paths");
    show_copy(editor, &paths).expect(rt, "written").into_inner()
}

#[test]
fn a_copy_less_one_file(rt: HostRuntime) {
    assert!(rt; copy_written(&rt, rt.alloc()).as_slice() == COPY);
}

// Whether a writer that fails behind so many writes of such a size leaves a beginning of the bytes, and 49 is answered.
fn leaves_a_beginning(rt: &impl Abort, alloc: Global, left: usize, size: usize) -> bool {
    let paths = CopyPaths::new(alloc).expect(rt, "paths");
    let mut bytes = Vec::new(alloc);
    let out = Failing {
        bytes: &mut bytes,
        left,
        size,
    };
    let editor = WireEditor::new(alloc, out).expect(rt, "room");
    let fault = show_copy(editor, &paths).err();
    COPY.starts_with(bytes.as_slice())
        && bytes.len() < COPY.len()
        && fault == Some(EditorFault::PeerFailed)
}

#[test]
fn a_failing_writer_has_a_beginning(rt: HostRuntime) {
    let alloc = rt.alloc();
    let mut fine = true;
    for left in 0..7 {
        fine = fine && leaves_a_beginning(&rt, alloc, left, 1_000);
    }
    for left in 0..COPY.len() {
        fine = fine && leaves_a_beginning(&rt, alloc, left, 1);
    }
    assert!(rt; fine);
}

#[test]
fn a_writer_comes_back(rt: HostRuntime) {
    let alloc = rt.alloc();
    let mut bytes = Vec::new(alloc);
    let out = Failing {
        bytes: &mut bytes,
        left: 1,
        size: 1_000,
    };
    let mut editor = WireEditor::new(alloc, out).expect(&rt, "room");
    let first = editor.target(RevNo::new(2));
    let second = editor.target(RevNo::new(3));
    let left = editor.into_writer().left;
    assert!(rt; first == Ok(()) && second == Err(EditorFault::PeerFailed) && left == 0);
    assert!(rt; bytes.as_slice() == b"( target-rev ( 2 ) ) ".as_slice());
}
