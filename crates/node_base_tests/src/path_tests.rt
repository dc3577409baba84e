//! Which bytes are names, paths and numbers, and the order of paths: vectors from outside.

use crate::checked::{all_hold, is_text, none_is_wrong};
use node_base::{NodeName, NodePath, PathFault, RevNo, read_decimal, rest_after};
use std::alloc::Global;
use std::cmp::Ordering;
use std::process::Abort;

// What became of bytes that were read as a path: `taken`, or the fault.
fn fate(alloc: Global, bytes: &[u8]) -> &'static str {
    match NodePath::parse(alloc, bytes) {
        Ok(_) => "taken",
        Err(PathFault::TooLong) => "too long",
        Err(PathFault::BadPath) => "bad",
        Err(PathFault::OutOfMemory) => "no memory",
    }
}

// Adds this to a text.
fn add(rt: &impl Abort, text: &mut String, more: &str) {
    text.push_str(more).expect(rt, "memory");
}

// A text so many times, with that between each two.
fn row_of(rt: &impl Abort, alloc: Global, one: &str, count: usize, between: &str) -> String {
    let mut text = String::new(alloc);
    for i in 0..count {
        if i > 0 {
            add(rt, &mut text, between);
        }
        add(rt, &mut text, one);
    }
    text
}

// Bytes, what becomes of them, and what they show.
type Case<'a> = (&'a [u8], &'a str, &'a str);

// The first of these that has another fate.
fn other_fate<'a>(alloc: Global, cases: &'a [Case<'a>]) -> Option<&'a str> {
    for (bytes, wanted, shows) in cases {
        if fate(alloc, *bytes) != *wanted {
            return Some(*shows);
        }
    }
    None
}

const BY_BYTES: [Case<'static>; 19] = [
    (b"", "taken", "the root"),
    (b"a", "taken", "a letter"),
    (b" ", "taken", "a blank"),
    (b"~", "taken", "the last character of ASCII"),
    (b"a\\b", "taken", "a backslash"),
    (b"\0", "bad", "zero"),
    (b"\x1F", "bad", "the last control byte"),
    (b"a\n", "bad", "a line's end"),
    (b"\x7F", "bad", "the byte of DEL"),
    (b"...", "taken", "three dots"),
    (b".a/..b", "taken", "names that begin with dots"),
    (b".", "bad", "one dot"),
    (b"..", "bad", "two dots"),
    (b"a/.", "bad", "one dot behind a name"),
    (b"../a", "bad", "two dots before a name"),
    (b"/", "bad", "a slash"),
    (b"/a", "bad", "a slash before a name"),
    (b"a/", "bad", "a slash behind a name"),
    (b"a//b", "bad", "two slashes"),
];

#[test]
fn names_by_their_bytes(rt: HostRuntime) {
    none_is_wrong(&rt, other_fate(rt.alloc(), &BY_BYTES));
}

const IN_UTF8: [Case<'static>; 12] = [
    (b"\xC2\x80", "taken", "the last character of two bytes"),
    (
        b"\xEF\xBF\xBF",
        "taken",
        "the last character of three bytes",
    ),
    (b"\xF4\x8F\xBF\xBF", "taken", "the last of four bytes"),
    (b"\x80", "bad", "a second byte alone"),
    (b"\xFF", "bad", "a byte of no character"),
    (b"\xE2\x82", "bad", "a character that is cut"),
    (b"\xC0\xAF", "bad", "overlong in two bytes"),
    (b"\xC1\xBF", "bad", "overlong in two bytes, the last"),
    (b"\xE0\x80\xAF", "bad", "overlong in three bytes"),
    (b"\xED\xA0\x80", "bad", "the first surrogate"),
    (b"\xED\xBF\xBF", "bad", "the last surrogate"),
    (b"\xF4\x90\x80\x80", "bad", "past the last character"),
];

#[test]
fn names_are_utf8(rt: HostRuntime) {
    none_is_wrong(&rt, other_fate(rt.alloc(), &IN_UTF8));
}

// A text, how often it comes, what stands between each two, what becomes of them, and what they show.
type Row<'a> = (&'a str, usize, &'a str, &'a str, &'a str);

// The first of these rows that has another fate.
fn other_row<'a>(rt: &impl Abort, alloc: Global, rows: &'a [Row<'a>]) -> Option<&'a str> {
    for (one, count, between, wanted, shows) in rows {
        let row = row_of(rt, alloc, *one, *count, *between);
        if fate(alloc, row.as_bytes()) != *wanted {
            return Some(*shows);
        }
    }
    None
}

const AT_THE_LIMITS: [Row<'static>; 4] = [
    ("a", 255, "", "taken", "a name of 255 bytes"),
    ("a", 256, "", "too long", "a name of 256 bytes"),
    ("a", 64, "/", "taken", "64 names"),
    ("a", 65, "/", "too long", "65 names"),
];

#[test]
fn names_at_the_limits(rt: HostRuntime) {
    none_is_wrong(&rt, other_row(&rt, rt.alloc(), &AT_THE_LIMITS));
}

// What becomes of five names of 204 bytes, which are a path of 1,024 bytes, and of more behind them.
fn fate_with(rt: &impl Abort, alloc: Global, more: &str) -> (usize, &'static str) {
    let name = row_of(rt, alloc, "a", 204, "");
    let mut path = row_of(rt, alloc, name.as_str(), 5, "/");
    add(rt, &mut path, more);
    (path.len(), fate(alloc, path.as_bytes()))
}

#[test]
fn paths_at_the_limits(rt: HostRuntime) {
    assert!(rt; fate_with(&rt, rt.alloc(), "") == (1_024, "taken"));
    assert!(rt; fate_with(&rt, rt.alloc(), "a") == (1_025, "too long"));
}

const BEFORE_THE_RULE: [Row<'static>; 2] = [
    ("/", 64, "", "too long", "65 names that are none"),
    ("\x01", 256, "", "too long", "256 bytes that are no name"),
];

#[test]
fn a_limit_comes_before_the_rule(rt: HostRuntime) {
    none_is_wrong(&rt, other_row(&rt, rt.alloc(), &BEFORE_THE_RULE));
}

// Whether a path is written so.
fn is_path(alloc: Global, path: &NodePath, text: &str) -> bool {
    is_text(format!(in alloc; "{path}"), text)
}

// The path that bytes spell.
fn parsed(rt: &impl Abort, alloc: Global, bytes: &[u8]) -> NodePath {
    NodePath::parse(alloc, bytes).expect(rt, "a path")
}

// The name that bytes spell.
fn named(rt: &impl Abort, alloc: Global, bytes: &[u8]) -> NodeName {
    NodeName::parse(alloc, bytes).expect(rt, "a name")
}

// The path below another, by one name.
fn below(rt: &impl Abort, alloc: Global, path: &NodePath, name: &[u8]) -> NodePath {
    path.child(alloc, &named(rt, alloc, name))
        .expect(rt, "a path")
}

#[test]
fn the_root_is_written(rt: HostRuntime) {
    let root = NodePath::root(rt.alloc());
    assert!(rt; root.is_root() && is_path(rt.alloc(), &root, ""));
}

// Whether a path of two names has so many bytes, and is written so.
fn is_of_two(alloc: Global, path: &NodePath, len: usize, text: &str) -> bool {
    path.text_len() == len && path.names().len() == 2 && is_path(alloc, path, text)
}

#[test]
fn paths_are_made_of_names(rt: HostRuntime) {
    let trunk = below(&rt, rt.alloc(), &NodePath::root(rt.alloc()), b"trunk");
    let path = below(&rt, rt.alloc(), &trunk, b"x y");
    assert!(rt; is_of_two(rt.alloc(), &path, 9, "trunk/x y"));
}

// Whether a name is written so.
fn is_name(alloc: Global, found: &NodeName, name: &str) -> bool {
    found.len() == name.len() && is_text(format!(in alloc; "{found}"), name)
}

// Whether a path's last name is this, and so many names are above it.
fn ends(alloc: Global, path: &NodePath, name: &str, above: usize) -> bool {
    match path.split_last() {
        Some((front, last)) => front.len() == above && is_name(alloc, last, name),
        None => false,
    }
}

#[test]
fn paths_end_with_a_name(rt: HostRuntime) {
    let path = parsed(&rt, rt.alloc(), b"trunk/x y");
    assert!(rt; ends(rt.alloc(), &path, "x y", 1));
}

// Whether the order of two paths is this, by `compare` and by `cmp`.
fn is_order(rt: &impl Abort, alloc: Global, first: &[u8], second: &[u8], order: Ordering) -> bool {
    let left = parsed(rt, alloc, first);
    let right = parsed(rt, alloc, second);
    left.compare(&right) == order && left.cmp(&right) == order
}

#[test]
fn paths_are_ordered_by_names(rt: HostRuntime) {
    let alloc = rt.alloc();
    all_hold(
        &rt,
        &[
            (
                is_order(&rt, alloc, b"a", b"a/x", Ordering::Less),
                "a before a/x",
            ),
            (
                is_order(&rt, alloc, b"a/x", b"a-b", Ordering::Less),
                "a/x before a-b",
            ),
            (
                is_order(&rt, alloc, b"a-b", b"a", Ordering::Greater),
                "a-b behind a",
            ),
        ],
    );
}

// The copy of a path.
fn copied(rt: &impl Abort, alloc: Global, path: &NodePath) -> NodePath {
    path.copy(alloc).expect(rt, "memory")
}

// Whether a path has so many names behind those of another.
fn is_behind(path: &NodePath, above: &NodePath, count: usize) -> bool {
    match rest_after(above.names(), path.names()) {
        Some(names) => names.len() == count,
        None => false,
    }
}

#[test]
fn copied_paths_are_equal(rt: HostRuntime) {
    let above = parsed(&rt, rt.alloc(), b"a");
    let path = parsed(&rt, rt.alloc(), b"a/x");
    let again = copied(&rt, rt.alloc(), &path);
    assert!(rt; again.compare(&path) == Ordering::Equal && is_behind(&path, &above, 1));
}

// Each path behind a blank.
fn row_of_paths(rt: &impl Abort, alloc: Global, paths: &[NodePath]) -> String {
    let mut row = String::new(alloc);
    for path in paths {
        let text = format!(in alloc; " {path}").expect(rt, "memory");
        add(rt, &mut row, text.as_str());
    }
    row
}

// Adds a path to others.
fn push(rt: &impl Abort, alloc: Global, paths: &mut Vec<NodePath>, bytes: &[u8]) {
    paths.push(parsed(rt, alloc, bytes)).expect(rt, "memory");
}

// Three paths out of order, once they are sorted.
fn sorted(rt: &impl Abort, alloc: Global) -> String {
    let mut paths = Vec::new(alloc);
    push(rt, alloc, &mut paths, b"a-b");
    push(rt, alloc, &mut paths, b"a/x");
    push(rt, alloc, &mut paths, b"a");
    paths.as_mut_slice().sort_unstable();
    row_of_paths(rt, alloc, paths.as_slice())
}

#[test]
fn paths_are_sorted(rt: HostRuntime) {
    assert!(rt; sorted(&rt, rt.alloc()).as_str() == " a a/x a-b");
}

// Whether one path is above another, and no other than a copy of itself.
fn is_above(above: &NodePath, below: &NodePath, again: &NodePath) -> bool {
    above < below && above != below && above == again && below.cmp(above) == Ordering::Greater
}

#[test]
fn paths_are_compared(rt: HostRuntime) {
    let above = parsed(&rt, rt.alloc(), b"a");
    let below = parsed(&rt, rt.alloc(), b"a/x");
    let again = copied(&rt, rt.alloc(), &above);
    assert!(rt; is_above(&above, &below, &again));
}

// Whether one name comes before another, in each way to compare them.
fn is_before(small: &NodeName, large: &NodeName) -> bool {
    small < large
        && large > small
        && small != large
        && small.cmp(large) == Ordering::Less
        && large.partial_cmp(large) == Some(Ordering::Equal)
}

#[test]
fn names_are_compared(rt: HostRuntime) {
    let small = named(&rt, rt.alloc(), b"a");
    let large = named(&rt, rt.alloc(), b"a-b");
    assert!(rt; is_before(&small, &large));
}

// Whether a name is written so, and its copy too.
fn is_kept(rt: &impl Abort, alloc: Global, text: &str) -> bool {
    let found = named(rt, alloc, text.as_bytes());
    let again = found.copy(alloc).expect(rt, "memory");
    is_name(alloc, &found, text) && is_name(alloc, &again, text) && found == again
}

// (names of up to 24 bytes stand in themselves, and longer ones apart)
#[test]
fn names_of_any_length_are_kept(rt: HostRuntime) {
    for text in [
        "x",
        "a-name-of-24-bytes-at-al",
        "a-name-of-25-bytes-at-all",
        "a-name-of-some-more-bytes-than-those-of-the-others",
    ] {
        assert!(rt; is_kept(&rt, rt.alloc(), text), "{text}");
    }
    let shorter = named(&rt, rt.alloc(), b"a-name-of-24-bytes-at-al");
    let longer = named(&rt, rt.alloc(), b"a-name-of-25-bytes-at-all");
    assert!(rt; is_before(&shorter, &longer));
}

// Bytes, the number that they spell, and what they show.
type Number<'a> = (&'a [u8], Option<u64>, &'a str);

const DECIMALS: [Number<'static>; 13] = [
    (b"0", Some(0), "zero"),
    (b"0042", Some(42), "zeros before it"),
    (
        b"18446744073709551615",
        Some(18_446_744_073_709_551_615),
        "the last",
    ),
    (b"18446744073709551616", None, "2^64"),
    (b"99999999999999999999", None, "past 2^64"),
    (b"", None, "nothing"),
    (b"-1", None, "a minus"),
    (b"+1", None, "a plus"),
    (b" 1", None, "a blank before it"),
    (b"1 ", None, "a blank behind it"),
    (b"1a", None, "a letter"),
    (b"/", None, "the byte before the digits"),
    (b":", None, "the byte behind the digits"),
];

// The first of these that is read as another number.
fn other_number() -> Option<&'static str> {
    for (bytes, number, shows) in &DECIMALS {
        if read_decimal(*bytes) != *number {
            return Some(*shows);
        }
    }
    None
}

#[test]
fn numbers(rt: HostRuntime) {
    none_is_wrong(&rt, other_number());
}

// Whether a revision is written so.
fn is_written(alloc: Global, revision: RevNo, text: &str) -> bool {
    is_text(format!(in alloc; "r{revision}"), text)
}

// Whether bytes spell a revision of that number.
fn is_revision(bytes: &[u8], number: u16) -> bool {
    match RevNo::parse(bytes) {
        Some(revision) => revision.get() == number,
        None => false,
    }
}

#[test]
fn revisions(rt: HostRuntime) {
    all_hold(
        &rt,
        &[
            (is_revision(b"65535", 65_535), "the last"),
            (RevNo::parse(b"65536").is_none(), "past the last"),
            (RevNo::ZERO.index() == 0, "the first"),
            (is_written(rt.alloc(), RevNo::new(407), "r407"), "written"),
        ],
    );
}
