//! The URL that a session stands at.

ghost use Rattle.std.specs.Prelude.{◌≡◌, ◌≤◌, ◌<◌, ◌==◌, length, take, drop, position, MatchOption, IfSome, Some, None};
ghost use Rattle.node_base.specs.PathText.{Answers};
ghost use Rattle.browse_wire.specs.Urls.{after, before_slash, from_slash, untrailed, path_behind, url_read, UrlIs, IsJudged, MovedIs};
ghost use Rattle.browse_wire.specs.declared.url.UrlFault.TheVariants.{OutOfMemory};

use node_base::{NodePath, PathFault, texts};
use percent_encoding::percent_decode;
use std::alloc::{AllocError, AllocFailed, Global};
use thiserror::Error;

/// Why a URL is none that a session can stand at.
#[derive(Clone, Copy, Debug, PartialEq, Eq, Drop, Error)]
pub enum UrlFault {
    /// It doesn't begin with `svn://`.
    #[error("URL of another scheme")]
    OtherScheme,
    /// It names no host.
    #[error("URL without a host")]
    NoHost,
    /// Its path is past a limit.
    #[error("path past a limit")]
    TooLong,
    /// What stands behind the host is no path.
    #[error("{}", texts::BAD_PATH)]
    BadPath,
    /// Its root isn't the session's.
    #[error("URL of another root")]
    OtherRoot,
    /// A growth was refused.
    #[error("{}", texts::OUT_OF_MEMORY)]
    OutOfMemory,
}

impl From<AllocError> for UrlFault {
    ghost from_gives = { λ _ e. e ≡ OutOfMemory };

    fn from(_: AllocError) -> UrlFault {
        UrlFault::OutOfMemory
    }
}

impl<T: Drop> From<AllocFailed<T>> for UrlFault {
    ghost from_gives = { λ _ e. e ≡ OutOfMemory };

    fn from(_: AllocFailed<T>) -> UrlFault {
        UrlFault::OutOfMemory
    }
}

/// The URL that a session stands at: its root, and a path below it.
#[derive(Drop)]
pub struct SessionUrl {
    /// `svn://`, the host, and the port where the client wrote one.
    pub root: Vec<u8>,
    /// What stands behind, percent-decoded.
    pub path: NodePath,
}

impl SessionUrl {
    /// The URL that bytes are: `svn://HOST[:PORT][/PATH]`, with one slash between names, and one at the end or none.
    /// `OtherScheme`, `NoHost`, `TooLong` and `BadPath`, the first that holds; `OutOfMemory`.
    pub fn parse(alloc: Global, url: &[u8]) -> Result<SessionUrl, UrlFault>
        ensures read { UrlIs result (url_read url.now) }
        ensures judged { IsJudged url.now result }
    {
        read(alloc, url)
    }

    /// The path of another URL below the same root. As `parse`, and `OtherRoot` where its root is another one.
    pub fn path_of(&self, alloc: Global, url: &[u8]) -> Result<NodePath, UrlFault>
        ensures { MovedIs self.now.root.items result (url_read url.now) }
    {
        let other = SessionUrl::parse(alloc, url)?;
        if other.root.as_slice() == self.root.as_slice() {
            Ok(other.path)
        } else {
            Err(UrlFault::OtherRoot)
        }
    }
}

// The URL that bytes are read as.
fn read(alloc: Global, url: &[u8]) -> Result<SessionUrl, UrlFault>
    ensures { UrlIs result (url_read url.now) }
{
    let Some(text) = rest_after(b"svn://", url) else {
        return Err(UrlFault::OtherScheme);
    };
    let len = host_len(text);
    if len == 0 {
        return Err(UrlFault::NoHost);
    }
    let path = match path_at(alloc, without_end(&text[len..])) {
        Ok(path) => path,
        Err(PathFault::TooLong) => return Err(UrlFault::TooLong),
        Err(PathFault::BadPath) => return Err(UrlFault::BadPath),
        Err(PathFault::OutOfMemory) => return Err(UrlFault::OutOfMemory),
    };
    let mut root = Vec::from_slice(alloc, b"svn://")?;
    root.extend_from_slice(&text[..len])?;
    Ok(SessionUrl { root, path })
}

// The path that stands behind a host.
fn path_at(alloc: Global, behind: &[u8]) -> Result<NodePath, PathFault>
    ensures { Answers (path_behind behind.now) result }
{
    let Some((_, text)) = behind.split_first() else {
        return Ok(NodePath::root(alloc));
    };
    if text.is_empty() {
        return Err(PathFault::BadPath);
    }
    let mut decoded = Vec::new(alloc);
    percent_decode(text).append_to(&mut decoded)?;
    NodePath::parse(alloc, decoded.as_slice())
}

// How long a host is, with its port.
#[tactic(auto, using(crate::proofs::UrlParts::host_some, crate::proofs::UrlParts::host_none))]
fn host_len(text: &[u8]) -> usize
    ensures host { take result text.now ≡ before_slash text.now }
    ensures behind { drop result text.now ≡ from_slash text.now }
    ensures inside { result ≤ length text.now }
{
    match first_slash(text) {
        Some(at) => at,
        None => text.len(),
    }
}

// Where the first slash stands.
fn first_slash(text: &[u8]) -> Option<usize>
    ensures place { result ≡ position (λ b. b == 47) text.now }
    ensures inside { IfSome result (λ i. i < length text.now) }
{
    text.iter().position(|byte| *byte == b'/')
}

// Bytes without a slash at their end.
fn without_end(text: &[u8]) -> &[u8]
    ensures { result.now ≡ untrailed text.now }
{
    match text.split_last() {
        Some((b'/', front)) => front,
        _ => text,
    }
}

// What follows a front in bytes.
fn rest_after<'a>(front: &[u8], text: &'a [u8]) -> Option<&'a [u8]>
    ensures { MatchOption result (after front.now text.now ≡ None) (λ r. after front.now text.now ≡ Some r.now) }
{
    let Some((first, front)) = front.split_first() else {
        return Some(text);
    };
    let Some((next, text)) = text.split_first() else {
        return None;
    };
    if *first == *next {
        return rest_after(front, text);
    }
    None
}
