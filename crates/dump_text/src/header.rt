//! Names and values of header lines.

ghost use Rattle.std.specs.Prelude.{◌≡◌, ◌≤◌, ◌<◌, ◌^◌, Option, Some, None, IfOk, MatchOption, codes, nat_lt, ◌&&◌};
ghost use Rattle.dump_text.specs.Headers.{known_name, split_line, kind_of, action_of, identity_of, dump_path, pair_now};
ghost use Rattle.dump_text.specs.Headers.{without_slash, version_in, sum_of, PathIs};

use crate::fault::DumpFault;
use hex::FromHex;
use node_base::{Action, NodeKind, NodePath, PathFault};
use std::alloc::Global;
use uuid::Uuid;

/// The headers that are read; all others are passed over.
#[derive(Clone, Copy)]
pub enum HeaderName {
    Identity,
    RevisionNumber,
    NodePath,
    NodeKind,
    NodeAction,
    SourceRevision,
    SourcePath,
    PropLength,
    TextLength,
    ContentLength,
    TextSum,
    TextDelta,
    BaseSum,
    PropDelta,
}

/// The number of the format that a first line names, where it is one that is read.
pub fn version_in(line: &[u8]) -> Option<u8>
    ensures { result ≡ version_in line.now }
{
    if line == b"SVN-fs-dump-format-version: 2".as_slice() {
        Some(2)
    } else if line == b"SVN-fs-dump-format-version: 3".as_slice() {
        Some(3)
    } else {
        None
    }
}

/// Which header it is.
pub fn header_named(name: &[u8]) -> Option<HeaderName>
    ensures { result ≡ known_name name.now }
{
    if name == b"Node-path".as_slice() {
        Some(HeaderName::NodePath)
    } else if name == b"Node-kind".as_slice() {
        Some(HeaderName::NodeKind)
    } else if name == b"Node-action".as_slice() {
        Some(HeaderName::NodeAction)
    } else if name == b"Node-copyfrom-rev".as_slice() {
        Some(HeaderName::SourceRevision)
    } else if name == b"Node-copyfrom-path".as_slice() {
        Some(HeaderName::SourcePath)
    } else if name == b"Prop-content-length".as_slice() {
        Some(HeaderName::PropLength)
    } else if name == b"Text-content-length".as_slice() {
        Some(HeaderName::TextLength)
    } else if name == b"Text-content-md5".as_slice() {
        Some(HeaderName::TextSum)
    } else if name == b"Content-length".as_slice() {
        Some(HeaderName::ContentLength)
    } else if name == b"Revision-number".as_slice() {
        Some(HeaderName::RevisionNumber)
    } else if name == b"Text-delta".as_slice() {
        Some(HeaderName::TextDelta)
    } else if name == b"Text-delta-base-md5".as_slice() {
        Some(HeaderName::BaseSum)
    } else if name == b"Prop-delta".as_slice() {
        Some(HeaderName::PropDelta)
    } else if name == b"UUID".as_slice() {
        Some(HeaderName::Identity)
    } else {
        None
    }
}

/// The name and the value of a line: what stands before and behind its first colon and blank.
pub fn split_line(line: &[u8]) -> Option<(&[u8], &[u8])>
    ensures { pair_now result ≡ split_line line.now }
{
    for i in 1..line.len() {
        if line[i - 1] == 58 && line[i] == 32 {
            return Some((&line[..i - 1], &line[i + 1..]));
        }
    }
    None
}

/// The path that a value spells, past one leading slash.
pub fn path_from(alloc: Global, value: &[u8]) -> Result<NodePath, DumpFault>
    ensures { PathIs result (dump_path value.now) }
{
    match NodePath::parse(alloc, path_text(value)) {
        Ok(path) => Ok(path),
        Err(PathFault::TooLong) => Err(DumpFault::TooLong),
        Err(PathFault::BadPath) => Err(DumpFault::BadPath),
        Err(PathFault::OutOfMemory) => Err(DumpFault::OutOfMemory),
    }
}

/// What follows one leading slash, or everything.
fn path_text(value: &[u8]) -> &[u8]
    ensures { result.now ≡ without_slash value.now }
{
    match value.split_first() {
        Some((47, rest)) => rest,
        _ => value,
    }
}

/// The kind that a value spells.
pub fn kind_from(value: &[u8]) -> Option<NodeKind>
    ensures { result ≡ kind_of value.now }
{
    if value == b"file".as_slice() {
        Some(NodeKind::File)
    } else if value == b"dir".as_slice() {
        Some(NodeKind::Dir)
    } else {
        None
    }
}

/// The action that a value spells.
pub fn action_from(value: &[u8]) -> Option<Action>
    ensures { result ≡ action_of value.now }
{
    if value == b"change".as_slice() {
        Some(Action::Modify)
    } else if value == b"add".as_slice() {
        Some(Action::Add)
    } else if value == b"delete".as_slice() {
        Some(Action::Delete)
    } else if value == b"replace".as_slice() {
        Some(Action::Replace)
    } else {
        None
    }
}

/// The identity that a value spells: 32 hexadecimal digits of either case in groups of 8, 4, 4, 4 and 12, with hyphens.
pub fn identity_from(value: &[u8]) -> Option<Uuid>
    ensures { result ≡ identity_of value.now }
{
    if value.len() != 36 {
        return None;
    }
    match Uuid::try_parse_ascii(value) {
        Ok(identity) => Some(identity),
        Err(_) => None,
    }
}

/// The MD5 that a value spells: 32 hexadecimal digits of either case.
pub fn sum_from(value: &[u8]) -> Option<[u8; 16]>
    ensures { result ≡ sum_of value.now }
{
    match <[u8; 16] as FromHex>::from_hex(value) {
        Ok(sum) => Some(sum),
        Err(_) => None,
    }
}
