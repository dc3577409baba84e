//! URLs of sessions.

use crate::asked::none_is_wrong;
use browse_wire::url::SessionUrl;
use std::alloc::Global;
use std::io;
use std::io::Write;

// A URL, its root and its path, or why it is none.
const URLS: &str = "svn://127.0.0.1:54443 = svn://127.0.0.1:54443 /
svn://127.0.0.1:54443/ = svn://127.0.0.1:54443 /
svn://127.0.0.1:54443/trunk/README = svn://127.0.0.1:54443 /trunk/README
svn://host/a/b/ = svn://host /a/b
svn://host/name%20with%20spaces = svn://host /name with spaces
svn://host/percent%2520and = svn://host /percent%20and
http://host/a = URL of another scheme
svn:///a = URL without a host
svn:// = URL without a host
svn://host// = bad path
svn://host/a//b = bad path
svn://host/a/../b = bad path";

fn show(alloc: Global, bytes: &[u8], out: &mut Vec<u8>) -> io::Result<()> {
    match SessionUrl::parse(alloc, bytes) {
        Ok(url) => {
            out.write_all(url.root.as_slice())?;
            let path = &url.path;
            write!(out, " /{path}")
        }
        Err(fault) => write!(out, "{fault}"),
    }
}

fn first_other(alloc: Global, table: &str) -> Option<&[u8]> {
    for line in table.lines() {
        let mut out = Vec::new(alloc);
        let Some((url, want)) = line.split_once(" = ") else {
            return Some(line.as_bytes());
        };
        if show(alloc, url.as_bytes(), &mut out).is_err() || out.as_slice() != want.as_bytes() {
            return Some(line.as_bytes());
        }
    }
    None
}

#[test]
fn roots_and_paths(rt: HostRuntime) {
    none_is_wrong(&rt, first_other(rt.alloc(), URLS));
}

// Whether a second URL is taken in a session at the first, or refused.
fn moves(alloc: Global, first: &[u8], second: &[u8]) -> Option<bool> {
    let url = SessionUrl::parse(alloc, first).ok()?;
    Some(url.path_of(alloc, second).is_ok())
}

#[test]
fn other_urls_of_a_session(rt: HostRuntime) {
    assert!(rt; moves(rt.alloc(), b"svn://h:1/a", b"svn://h:1/b/c") == Some(true));
    assert!(rt; moves(rt.alloc(), b"svn://h:1/a", b"svn://h:2/a") == Some(false));
}
