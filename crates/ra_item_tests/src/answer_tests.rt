//! What stands in answers.

use crate::helpers_for_tests::{content_of, item_of};
use crate::sessions::{AUTHORISED, DONE, NO_FILE, PROPLIST, REVPROPS, SVNSERVE_DIR, SVNSERVE_FILE};
use node_base::{NodeKind, Props, RevNo};
use ra_wire::answer::{kind, latest, value};
use ra_wire::browse::{DirFound, FileFound};
use ra_wire::dirent::Dirent;
use ra_wire::law;
use ra_wire::opening::Mechanisms;
use ra_wire::props::{proplist, props_within, revprops};
use ra_wire::props_fault::PropsFault;
use ra_wire::reply::{Refused, Reply};
use ra_wire::reply_writer::{
    write_dir, write_failure, write_file, write_kind, write_latest, write_proplist, write_revprops,
    write_value,
};
use std::alloc::{AllocError, Global};
use std::process::Abort;

// Whether the first of some refusals is this.
fn begins_with(all: &[Refused], number: u64, text: &[u8], file: &[u8], line: u64) -> bool {
    match all.first() {
        Some(first) => {
            first.number == number
                && first.text.as_slice() == text
                && first.file.as_slice() == file
                && first.line == line
        }
        None => false,
    }
}

fn refuses(alloc: Global, bytes: &[u8], number: u64, text: &[u8], file: &[u8], line: u64) -> bool {
    let Some(item) = item_of(alloc, bytes) else {
        return false;
    };
    match Reply::parse(alloc, item) {
        Ok(Reply::Failure(all)) => begins_with(all.as_slice(), number, text, file, line),
        Ok(Reply::Success(_)) | Err(_) => false,
    }
}

#[test]
fn failures(rt: HostRuntime) {
    let alloc = rt.alloc();
    let unexpected: &[u8] = b"( failure ( ( 22 31:the property is not as expected 0: 0 ) ) ) ";
    let two: &[u8] = b"( failure ( ( 210005 2:no 8:replay.c 12 x ) ( 1 0: 0: 0 ) ) ) ";
    let none: &[u8] = b"File not found: revision 2, path '/nofile'";
    assert!(rt;
        refuses(
            alloc,
            unexpected,
            22,
            b"the property is not as expected",
            b"",
            0
        )
    );
    assert!(rt; refuses(alloc, two, 210005, b"no", b"replay.c", 12));
    assert!(rt; refuses(alloc, NO_FILE, 160013, none, b"", 0));
}

// An answer without content, with more behind its elements, and two that are none: a failure, and another word.
#[test]
fn contents(rt: HostRuntime) {
    let alloc = rt.alloc();
    assert!(rt; content_of(alloc, DONE).is_some());
    assert!(rt; content_of(alloc, b"( success ( 1 ) 2 ) ").is_some());
    assert!(rt; content_of(alloc, b"( failure ( ) ) ").is_none());
    assert!(rt; content_of(alloc, b"( step ( ) ) ").is_none());
}

// A number, or none where there isn't one.
fn number(alloc: Global, bytes: &[u8]) -> Option<u64> {
    latest(content_of(alloc, bytes)?).ok()
}

// What stands at a path, where the answer says it.
fn kind_of(alloc: Global, bytes: &[u8]) -> Option<Option<NodeKind>> {
    kind(content_of(alloc, bytes)?).ok()
}

#[test]
fn numbers_and_kinds(rt: HostRuntime) {
    let alloc = rt.alloc();
    assert!(rt; number(alloc, b"( success ( 10 ) ) ") == Some(10));
    assert!(rt; number(alloc, b"( success ( x ) ) ").is_none());
    assert!(rt; kind_of(alloc, b"( success ( file ) ) ") == Some(Some(NodeKind::File)));
    assert!(rt; kind_of(alloc, b"( success ( none ) ) ") == Some(None));
    assert!(rt; kind_of(alloc, b"( success ( unknown ) ) ").is_none());
}

// Whether an answer holds this value, or none.
fn holds(alloc: Global, bytes: &[u8], want: Option<&[u8]>) -> bool {
    let Some(content) = content_of(alloc, bytes) else {
        return false;
    };
    match value(content) {
        Ok(found) => found.as_deref() == want,
        Err(_) => false,
    }
}

// Whether a command is answered without a question.
fn asks_nothing(alloc: Global, bytes: &[u8]) -> bool {
    let Some(content) = content_of(alloc, bytes) else {
        return false;
    };
    match Mechanisms::parse(alloc, content) {
        Ok(ways) => ways.names.is_empty() && ways.realm.is_empty(),
        Err(_) => false,
    }
}

#[test]
fn values_and_nothing(rt: HostRuntime) {
    let alloc = rt.alloc();
    assert!(rt; holds(alloc, b"( success ( ( 2:hi ) ) ) ", Some(b"hi")));
    assert!(rt; holds(alloc, b"( success ( ( ) ) ) ", None));
    assert!(rt; asks_nothing(alloc, AUTHORISED));
}

// The properties of an answer, or none.
fn props_of(alloc: Global, bytes: &[u8]) -> Props {
    let Some(content) = content_of(alloc, bytes) else {
        return Props::empty();
    };
    proplist(alloc, content).ok().unwrap_or(Props::empty())
}

// Those in front of an edit.
fn front_props(alloc: Global, bytes: &[u8]) -> Props {
    let Some(item) = item_of(alloc, bytes) else {
        return Props::empty();
    };
    revprops(alloc, item).ok().unwrap_or(Props::empty())
}

fn has(props: &Props, name: &[u8], value: &[u8]) -> bool {
    props.get(name) == Some(value)
}

fn are_zero(props: &Props) -> bool {
    props.len() == 2
        && has(props, b"custom:zero", b"on revision 0")
        && has(props, b"svn:date", b"2020-01-01T00:00:00.000000Z")
}

fn are_second(props: &Props) -> bool {
    props.len() == 4
        && has(props, b"svn:author", b"b\xc3\xb6b")
        && has(props, b"svn:log", b"edits and properties")
}

#[test]
fn properties_of_a_server(rt: HostRuntime) {
    let alloc = rt.alloc();
    assert!(rt; are_zero(&props_of(alloc, PROPLIST)));
    assert!(rt; are_second(&front_props(alloc, REVPROPS)));
    assert!(rt;
        has(
            &props_of(alloc, b"( success ( ( ( 7:svn:log 2:hi ) ) ) ) "),
            b"svn:log",
            b"hi"
        )
    );
}

// Whether the properties that are read are written as they came, in an answer and in front of an edit.
fn are_written(alloc: Global) -> bool {
    let mut out = Vec::new(alloc);
    let mut front = Vec::new(alloc);
    write_proplist(&mut out, &props_of(alloc, PROPLIST)).is_ok()
        && write_revprops(&mut front, &front_props(alloc, REVPROPS)).is_ok()
        && out.as_slice() == PROPLIST
        && front.as_slice() == REVPROPS
}

#[test]
fn properties_are_written(rt: HostRuntime) {
    assert!(rt; are_written(rt.alloc()));
}

fn are_last(props: &Props) -> bool {
    props.len() == 2 && has(props, b"b", b"y") && has(props, b"a", b"")
}

// In any order, the later of two with one name, and none of another form.
#[test]
fn properties_in_any_order(rt: HostRuntime) {
    let alloc = rt.alloc();
    let twice: &[u8] = b"( success ( ( ( 1:b 1:x ) ( 1:a 0: ) ( 1:b 1:y ) ) ) ) ";
    assert!(rt; are_last(&props_of(alloc, twice)));
    assert!(rt; props_of(alloc, b"( success ( ( ( 1:a 0: ) ( 1:b x ) ) ) ) ").is_empty());
    assert!(rt; front_props(alloc, b"( revprop ( ( 1:a 0: ) ) ) ").is_empty());
}

// An answer with properties: these, one whose value has so many bytes, and these behind it.
fn with_value(
    alloc: Global,
    front: &[u8],
    size: usize,
    rest: &[u8],
) -> Result<Vec<u8>, AllocError> {
    let mut bytes = Vec::from_slice(alloc, b"( success ( ( ")?;
    bytes.extend_from_slice(front)?;
    bytes.extend_from_slice(format!(in alloc; "( 1:v {size}:")?.as_bytes())?;
    for _ in 0..size {
        bytes.push(b'x')?;
    }
    bytes.extend_from_slice(b" ) ")?;
    bytes.extend_from_slice(rest)?;
    bytes.extend_from_slice(b") ) ) ")?;
    Ok(bytes)
}

// Why the properties of an answer aren't read, where they aren't.
fn unread(alloc: Global, bytes: &[u8]) -> Option<PropsFault> {
    let mut content = content_of(alloc, bytes)?;
    props_within(alloc, &mut content).err()
}

// The same with such a value among them.
fn unread_with(
    rt: &impl Abort,
    alloc: Global,
    front: &[u8],
    size: usize,
    rest: &[u8],
) -> Option<PropsFault> {
    let bytes = with_value(alloc, front, size, rest).expect(rt, "memory");
    unread(alloc, bytes.as_slice())
}

// A value at its limit and past it, and that the first property that can't be put decides.
#[test]
fn properties_past_a_limit(rt: HostRuntime) {
    let alloc = rt.alloc();
    let good: &[u8] = b"( 1:a 0: ) ";
    let bad: &[u8] = b"( 1:b ) ";
    assert!(rt; unread_with(&rt, alloc, good, 65_536, good).is_none());
    assert!(rt; unread_with(&rt, alloc, good, 65_537, bad) == Some(PropsFault::TooLong));
    assert!(rt; unread_with(&rt, alloc, bad, 65_537, good) == Some(PropsFault::BadShape));
    assert!(rt; unread(alloc, b"( success ( 1 ) ) ") == Some(PropsFault::BadShape));
}

// Writes an answer of each kind, and the failures that the rows have.
fn write_answers(out: &mut Vec<u8>) -> bool {
    write_latest(out, RevNo::new(3)).is_ok()
        && write_kind(out, Some(NodeKind::File)).is_ok()
        && write_kind(out, None).is_ok()
        && write_value(out, Some(b"hi")).is_ok()
        && write_value(out, None).is_ok()
        && write_failure(out, 21, b"no such revision").is_ok()
}

#[test]
fn answers_are_written(rt: HostRuntime) {
    let mut out = Vec::new(rt.alloc());
    assert!(rt; write_answers(&mut out));
    assert_eq!(rt;
        out.as_slice(),
        b"( success ( 3 ) ) ( success ( file ) ) ( success ( none ) ) ( success ( ( 2:hi ) ) ) ( success ( ( ) ) ) ( failure ( ( 21 16:no such revision 0: 0 ) ) ) ".as_slice()
    );
}

// What an answer says of a directory.
fn dir_of(alloc: Global, bytes: &[u8]) -> Option<DirFound> {
    DirFound::parse(alloc, content_of(alloc, bytes)?).ok()
}

// Whether there is one entry, a file of this size and revision, and its author.
fn is_one(entries: &[Dirent], size: u64, created: u64, author: Option<&[u8]>) -> bool {
    match entries.first() {
        Some(entry) => {
            entries.len() == 1
                && entry.size == size
                && entry.created == created
                && entry.kind == NodeKind::File
                && !entry.has_props
                && entry.author.as_deref() == author
        }
        None => false,
    }
}

fn lists(alloc: Global, bytes: &[u8], size: u64, created: u64, author: Option<&[u8]>) -> bool {
    match dir_of(alloc, bytes) {
        Some(dir) => is_one(dir.entries.as_slice(), size, created, author),
        None => false,
    }
}

// An answer to `get-dir`.
const DIR: &[u8] = b"( success ( 1 ( ) ( ( 1:a file 6 false 1 ( ) ( ) ) ) ) ) ";

#[test]
fn directories(rt: HostRuntime) {
    let alloc = rt.alloc();
    let alice: &[u8] =
        b"( success ( 9 ( ) ( ( 1:a file 6 false 70000 ( 1:d ) ( 5:alice ) 1 ) ) ) ) ";
    let kindless: &[u8] = b"( success ( 1 ( ) ( ( 1:a none 6 false 1 ( ) ( ) ) ) ) ) ";
    let nameless: &[u8] = b"( success ( 1 ( ) ( ( 2:.. dir 0 false 1 ( ) ( ) ) ) ) ) ";
    assert!(rt; lists(alloc, DIR, 6, 1, None));
    assert!(rt; lists(alloc, alice, 6, 70000, Some(b"alice")));
    assert!(rt; dir_of(alloc, kindless).is_none());
    assert!(rt; dir_of(alloc, nameless).is_none());
}

// Whether a directory is written as it came, its properties wanted. The law of its reading takes it.
fn is_dir_again(alloc: Global, bytes: &[u8]) -> bool {
    let mut out = Vec::new(alloc);
    let Some(dir) = dir_of(alloc, bytes) else {
        return false;
    };
    law::dir_is_read_again(&dir.props, dir.entries.as_slice());
    write_dir(
        &mut out,
        RevNo::new(1),
        &dir.props,
        true,
        dir.entries.as_slice(),
    )
    .is_ok()
        && out.as_slice() == bytes
}

// What an answer says of a file.
fn file_of(alloc: Global, bytes: &[u8]) -> Option<FileFound> {
    FileFound::parse(alloc, content_of(alloc, bytes)?).ok()
}

// The same of a file.
fn is_file_again(alloc: Global, bytes: &[u8]) -> bool {
    let mut out = Vec::new(alloc);
    let Some(file) = file_of(alloc, bytes) else {
        return false;
    };
    law::props_are_read_again(&file.props);
    let sum = file.sum.as_deref().unwrap_or(b"");
    write_file(&mut out, sum, RevNo::new(1), &file.props, true).is_ok() && out.as_slice() == bytes
}

// An answer to `get-file`.
const FILE: &[u8] = b"( success ( ( 32:b1946ac92492d2347c6235b4d2611184 ) 1 ( ) ) ) ";

#[test]
fn browsing_is_written(rt: HostRuntime) {
    let alloc = rt.alloc();
    let dir: &[u8] =
        b"( success ( 1 ( ( 1:p 1:v ) ) ( ( 1:a file 6 false 1 ( ) ( ) ) ( 1:d dir 0 true 65535 ( 1:t ) ( 1:u ) ) ) ) ) ";
    assert!(rt; is_dir_again(alloc, DIR));
    assert!(rt; is_dir_again(alloc, dir));
    assert!(rt; is_file_again(alloc, FILE));
}

// Whether `svnserve` tells of a directory or a file with its three properties of an entry.
fn tells_three(props: &Props, revision: &[u8]) -> bool {
    props.len() == 3 && has(props, b"svn:entry:committed-rev", revision)
}

fn is_of_svnserve(alloc: Global) -> bool {
    let (Some(dir), Some(file)) = (dir_of(alloc, SVNSERVE_DIR), file_of(alloc, SVNSERVE_FILE))
    else {
        return false;
    };
    dir.entries.is_empty()
        && dir.revision == 1
        && file.revision == 2
        && tells_three(&dir.props, b"1")
        && tells_three(&file.props, b"2")
}

#[test]
fn browsing_of_svnserve(rt: HostRuntime) {
    assert!(rt; is_of_svnserve(rt.alloc()));
}
