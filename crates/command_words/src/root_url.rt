//! The URL of `serve --root-url`, which clients are told as the repository's root.
ghost use Rattle.std.specs.Prelude.{◌≡◌, IfErr, IfOk, codes, string_bytes};
ghost use Rattle.std.specs.List.{list_all};
ghost use Rattle.std.specs.Option.{option_map};
ghost use Rattle.clap.specs.Words.{first_of, found_of, rows_of};
ghost use Rattle.command_words.specs.Roots.{behind_scheme, behind_ssh, is_graphic, is_root_url, names_host};
ghost use Rattle.command_words.specs.Usages.{IsRefusedAt};
ghost use Rattle.command_words.specs.Values.{IsRootOf};

use crate::command_line::{Usage, value, wrong};
use clap::ArgMatches;
use std::alloc::Global;

// The most bytes that it has.
const MOST_BYTES: usize = 1024;

/// The URL that is given, where one is. Usage where it is none that Subversion's clients take as a root.
pub(crate) fn root_url_named(alloc: Global, given: &ArgMatches<'_>) -> Result<Option<String>, Usage>
    ensures root { IfOk result (λ root. IsRootOf (first_of (codes "root-url") (rows_of (found_of given.now)))
        (option_map string_bytes root)) }
    ensures usage { IfErr result (IsRefusedAt (Some (codes "serve", rows_of (found_of given.now)))) }
{
    let Some(value) = value(given, "root-url") else {
        return Ok(None);
    };
    if !is_root_url(value) {
        return Err(wrong(
            alloc,
            "svnfleet serve",
            value,
            "a root URL like svn://HOST:PORT/ or svn+ssh://HOST/PATH, of at most 1024 printable ASCII characters without blanks",
        ));
    }
    Ok(Some(String::from_str(alloc, value)?))
}

// Whether it names a host behind a scheme of Subversion's, in few printable characters without blanks.
fn is_root_url(url: &str) -> bool
    ensures { result ≡ is_root_url url.now }
{
    if url.len() > MOST_BYTES || !are_graphic(url.as_bytes()) {
        return false;
    }
    names_host(behind_scheme(url).as_bytes())
}

// Whether each byte is a printable ASCII character that is no blank.
fn are_graphic(bytes: &[u8]) -> bool
    ensures { result ≡ list_all is_graphic bytes.now }
{
    bytes.iter().all(|b| is_graphic(*b))
}

fn is_graphic(byte: u8) -> bool
    ensures { result ≡ is_graphic byte }
{
    b'!' <= byte && byte <= b'~'
}

// What stands behind the scheme; nothing where that isn't one of Subversion's.
fn behind_scheme(url: &str) -> &str
    ensures { result.now ≡ behind_scheme url.now }
{
    match url.strip_prefix("svn://") {
        Some(rest) => rest,
        None => behind_ssh(url),
    }
}

// The same of the scheme by ssh.
fn behind_ssh(url: &str) -> &str
    ensures { result.now ≡ behind_ssh url.now }
{
    match url.strip_prefix("svn+ssh://") {
        Some(rest) => rest,
        None => "",
    }
}

// Whether a host stands at the beginning: what has none begins with its port or its path.
fn names_host(rest: &[u8]) -> bool
    ensures { result ≡ names_host rest.now }
{
    match rest.split_first() {
        Some((byte, _)) => *byte != b':' && *byte != b'/',
        None => false,
    }
}
