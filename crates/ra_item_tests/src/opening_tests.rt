//! What client and server say at the beginning of a session.

use crate::helpers_for_tests::{content_of, item_of, none_is_told};
use crate::sessions::{
    AUTHORISED, DONE, GREETING, HELLO, LOGIN, MECHANISMS, SVNSERVE, SVNSERVE_WELCOME, WELCOME,
};
use ra_wire::command_writer::{write_anonymous, write_hello};
use ra_wire::opening::{Greeting, Hello, Login, Mechanisms, Welcome};
use ra_wire::reply_writer::{
    write_authorised, write_done, write_greeting, write_mechanisms, write_only_anonymous,
    write_welcome,
};
use std::alloc::Global;

// Whether words are these, with blanks between them.
fn are(words: &[Vec<u8>], wanted: &str) -> bool {
    if wanted.is_empty() {
        return words.is_empty();
    }
    for (word, want) in words.iter().zip(wanted.split(' ')) {
        if word.as_slice() != want.as_bytes() {
            return false;
        }
    }
    words.len() == wanted.split(' ').count()
}

fn is_hello(hello: &Hello, capabilities: &str, url: &[u8]) -> bool {
    are(hello.capabilities.as_slice(), capabilities) && hello.url.as_slice() == url
}

// Whether a client says hello with these capabilities and this URL.
fn says_hello(alloc: Global, bytes: &[u8], capabilities: &str, url: &[u8]) -> bool {
    let Some(item) = item_of(alloc, bytes) else {
        return false;
    };
    match Hello::parse(alloc, item) {
        Ok(hello) => is_hello(&hello, capabilities, url),
        Err(_) => false,
    }
}

// Whether a client's greeting is refused with 48.
fn no_hello(alloc: Global, bytes: &[u8]) -> bool {
    let Some(item) = item_of(alloc, bytes) else {
        return false;
    };
    match Hello::parse(alloc, item) {
        Ok(_) => false,
        Err(fault) => fault.number() == 48,
    }
}

// The first of some bytes that is greeted.
fn first_greeted<'a>(alloc: Global, table: &'a [&'a [u8]]) -> Option<&'a [u8]> {
    for bytes in table {
        if !no_hello(alloc, bytes) {
            return Some(*bytes);
        }
    }
    None
}

const CAPABILITIES: &str =
    "edit-pipeline svndiff1 accepts-svndiff2 absent-entries depth mergeinfo log-revprops";

// No greetings: another version, words that are strings, no URL or a word in its place, no list.
const NO_HELLO: [&[u8]; 5] = [
    b"( 1 ( ) 1:u ) ",
    b"( 2 ( 1:x ) 1:u ) ",
    b"( 2 ( ) ) ",
    b"( 2 ( ) u ) ",
    b"2 ",
];

#[test]
fn greetings_of_clients(rt: HostRuntime) {
    let alloc = rt.alloc();
    assert!(rt; says_hello(alloc, HELLO, CAPABILITIES, b"svn://127.0.0.1:59875"));
    assert!(rt;
        says_hello(
            alloc,
            b"( 2 ( edit-pipeline ) 21:svn://127.0.0.1:3690/ ) ",
            "edit-pipeline",
            b"svn://127.0.0.1:3690/"
        )
    );
    none_is_told(&rt, first_greeted(alloc, NO_HELLO.as_slice()));
}

// Whether a client says that it is this; a mechanism `no` for a refusal.
fn logs_in(alloc: Global, bytes: &[u8], mechanism: &[u8], token: Option<&[u8]>) -> bool {
    let Some(item) = item_of(alloc, bytes) else {
        return false;
    };
    match Login::parse(item) {
        Ok(login) => login.mechanism.as_slice() == mechanism && login.token.as_deref() == token,
        Err(_) => mechanism == b"no".as_slice(),
    }
}

// What a client says, its mechanism, its token, and what it shows.
type Who<'a> = (&'a [u8], &'a [u8], Option<&'a [u8]>, &'a [u8]);

const WHO: [Who<'static>; 4] = [
    (
        LOGIN,
        b"ANONYMOUS",
        Some(b"YW5vbnltb3VzQHZt\n"),
        b"one of Subversion's",
    ),
    (
        b"( CRAM-MD5 ( ) 1 ) ",
        b"CRAM-MD5",
        None,
        b"without a token",
    ),
    (b"( CRAM-MD5 ) ", b"no", None, b"another form"),
    (b"( ANONYMOUS ( x ) ) ", b"no", None, b"a word for a token"),
];

// The first of these that is another.
fn first_other(alloc: Global) -> Option<&'static [u8]> {
    for (bytes, mechanism, token, shows) in &WHO {
        if !logs_in(alloc, *bytes, *mechanism, *token) {
            return Some(*shows);
        }
    }
    None
}

#[test]
fn who_a_client_is(rt: HostRuntime) {
    none_is_told(&rt, first_other(rt.alloc()));
}

// Whether a server greets with version 2 alone, no mechanisms and these words.
fn greets(alloc: Global, bytes: &[u8], words: &str) -> bool {
    let Some(content) = content_of(alloc, bytes) else {
        return false;
    };
    match Greeting::parse(alloc, content) {
        Ok(greeting) => {
            greeting.low == 2
                && greeting.high == 2
                && greeting.mechanisms.is_empty()
                && are(greeting.capabilities.as_slice(), words)
        }
        Err(_) => false,
    }
}

// Whether a server asks who the client is, by ANONYMOUS alone.
fn asks(alloc: Global, bytes: &[u8], realm: &[u8]) -> bool {
    let Some(content) = content_of(alloc, bytes) else {
        return false;
    };
    match Mechanisms::parse(alloc, content) {
        Ok(ways) => are(ways.names.as_slice(), "ANONYMOUS") && ways.realm.as_slice() == realm,
        Err(_) => false,
    }
}

fn is_welcome(welcome: &Welcome, identity: &[u8], url: &[u8], words: &str) -> bool {
    welcome.identity.as_slice() == identity
        && welcome.url.as_slice() == url
        && are(welcome.capabilities.as_slice(), words)
}

// Whether a server welcomes to this repository, with these words.
fn welcomes(alloc: Global, bytes: &[u8], identity: &[u8], url: &[u8], words: &str) -> bool {
    let Some(content) = content_of(alloc, bytes) else {
        return false;
    };
    match Welcome::parse(alloc, content) {
        Ok(welcome) => is_welcome(&welcome, identity, url, words),
        Err(_) => false,
    }
}

const IDENTITY: &[u8] = b"6a1f0c3e-0000-4000-8000-0000000000a1";

const URL: &[u8] = b"svn://127.0.0.1:59875/";

#[test]
fn opening_of_a_server(rt: HostRuntime) {
    let alloc = rt.alloc();
    assert!(rt; greets(alloc, GREETING, "edit-pipeline atomic-revprops"));
    assert!(rt; asks(alloc, MECHANISMS, IDENTITY));
    assert!(rt; welcomes(alloc, WELCOME, IDENTITY, URL, ""));
}

const SVNSERVE_WORDS: &str =
    "edit-pipeline svndiff1 accepts-svndiff2 absent-entries commit-revprops depth log-revprops atomic-revprops partial-replay inherited-props ephemeral-txnprops file-revs-reverse list";

#[test]
fn opening_of_svnserve(rt: HostRuntime) {
    let alloc = rt.alloc();
    assert!(rt; greets(alloc, SVNSERVE, SVNSERVE_WORDS));
    assert!(rt;
        welcomes(
            alloc,
            SVNSERVE_WELCOME,
            b"709bc996-b9ae-4bf5-b01b-066d8cc89755",
            b"svn://127.0.0.1:46902/src",
            "mergeinfo"
        )
    );
}

// Whether these bytes were written, which are let go of then.
fn took(out: &mut Vec<u8>, want: &[u8]) -> bool {
    let same = out.as_slice() == want;
    out.clear();
    same
}

// Whether a server's opening up to its welcome is written so.
fn writes_opening(out: &mut Vec<u8>) -> bool {
    write_greeting(out).is_ok()
        && took(out, GREETING)
        && write_mechanisms(out, IDENTITY).is_ok()
        && took(out, MECHANISMS)
        && write_done(out).is_ok()
        && took(out, DONE)
        && write_welcome(out, IDENTITY, URL).is_ok()
        && took(out, WELCOME)
}

#[test]
fn opening_is_written(rt: HostRuntime) {
    let mut out = Vec::new(rt.alloc());
    assert!(rt; writes_opening(&mut out));
}

// Whether what stands before an answer, and what answers another way, are written so.
fn writes_others(out: &mut Vec<u8>) -> bool {
    write_authorised(out).is_ok()
        && took(out, AUTHORISED)
        && write_only_anonymous(out).is_ok()
        && took(out, b"( failure ( 14:only ANONYMOUS ) ) ")
}

// Whether what a client says in an opening is written so.
fn writes_client(out: &mut Vec<u8>) -> bool {
    write_hello(out, b"svn://127.0.0.1:3690/").is_ok()
        && took(out, b"( 2 ( edit-pipeline ) 21:svn://127.0.0.1:3690/ ) ")
        && write_anonymous(out).is_ok()
        && took(out, b"( ANONYMOUS ( 0: ) ) ")
}

#[test]
fn other_words_of_an_opening(rt: HostRuntime) {
    let mut out = Vec::new(rt.alloc());
    assert!(rt; writes_others(&mut out));
    assert!(rt; writes_client(&mut out));
}
