//! The calls that an editor was shown, in lines.
use delta_editor::{Bytes, Call, Source};
use node_base::{NodePath, PropName, RevNo};
use std::alloc::{AllocError, Global};
use std::process::Abort;

// An entry that is added, with what it is copied from.
fn added(
    alloc: Global,
    word: &str,
    up: &NodePath,
    path: &NodePath,
    source: &Option<Source>,
) -> Result<String, AllocError> {
    match source {
        Some(from) => format!(in alloc;
            "{word} /{up} /{path} from /{} {}",
            from.path,
            from.revision.get()
        ),
        None => format!(in alloc; "{word} /{up} /{path}"),
    }
}

// An entry that is known at a revision.
fn known(
    alloc: Global,
    word: &str,
    up: &NodePath,
    path: &NodePath,
    base: &Option<RevNo>,
) -> Result<String, AllocError> {
    match base {
        Some(base) => format!(in alloc; "{word} /{up} /{path} {}", base.get()),
        None => format!(in alloc; "{word} /{up} /{path} none"),
    }
}

fn open_root(alloc: Global, base: &Option<RevNo>) -> Result<String, AllocError> {
    match base {
        Some(base) => format!(in alloc; "open_root {}", base.get()),
        None => format!(in alloc; "open_root none"),
    }
}

fn text_of(bytes: &[u8]) -> &str {
    str::from_utf8(bytes).unwrap_or("not a text")
}

fn value_of(value: &Option<Bytes>) -> &str {
    match value {
        Some(value) => text_of(value.as_slice()),
        None => "none",
    }
}

fn prop(
    alloc: Global,
    word: &str,
    path: &NodePath,
    name: &PropName,
    value: &Option<Bytes>,
) -> Result<String, AllocError> {
    let value = value_of(value);
    format!(in alloc; "{word} /{path} {} {value}", name.as_str())
}

fn close_file(
    alloc: Global,
    path: &NodePath,
    sum: &Option<[u8; 16]>,
) -> Result<String, AllocError> {
    match sum {
        Some(sum) => format!(in alloc; "close_file /{path} {sum:?}"),
        None => format!(in alloc; "close_file /{path} none"),
    }
}

// What is said of one path alone.
fn at(alloc: Global, word: &str, path: &NodePath) -> Result<String, AllocError> {
    format!(in alloc; "{word} /{path}")
}

// A call in one line: parent, path and what else it says.
fn line(alloc: Global, call: &Call) -> Result<String, AllocError> {
    match call {
        Call::Target(revision) => format!(in alloc; "target {}", revision.get()),
        Call::OpenRoot(base) => open_root(alloc, base),
        Call::AddDir(up, path, source) => added(alloc, "add_dir", up, path, source),
        Call::OpenDir(up, path, base) => known(alloc, "open_dir", up, path, base),
        Call::DeleteEntry(up, path, base) => known(alloc, "delete_entry", up, path, base),
        Call::AddFile(up, path, source) => added(alloc, "add_file", up, path, source),
        Call::OpenFile(up, path, base) => known(alloc, "open_file", up, path, base),
        Call::DirProp(path, name, value) => prop(alloc, "dir_prop", path, name, value),
        Call::FileProp(path, name, value) => prop(alloc, "file_prop", path, name, value),
        Call::TextStart(path) => at(alloc, "text_start", path),
        Call::TextPiece(path, piece) => {
            format!(in alloc; "text_piece /{path} {}", text_of(piece.as_slice()))
        }
        Call::TextEnd(path) => at(alloc, "text_end", path),
        Call::CloseFile(path, sum) => close_file(alloc, path, sum),
        Call::CloseDir(path) => at(alloc, "close_dir", path),
        Call::CloseEdit => String::from_str(alloc, "close_edit"),
    }
}

/// Whether the calls are these, line by line.
pub(crate) fn are(rt: &impl Abort, alloc: Global, calls: &[Call], wanted: &str) -> bool {
    let mut all = String::new(alloc);
    for call in calls {
        let line = line(alloc, call).expect(rt, "memory");
        all.push_str(line.as_str()).expect(rt, "memory");
        all.push_str("\n").expect(rt, "memory");
    }
    all.as_str() == wanted
}
