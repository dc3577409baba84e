//! Maps of properties, their names and values, and the texts and nodes that have them.

use crate::checked::{all_hold, none_is_wrong, put};
use node_base::{Node, PropFault, PropName, PropValue, Props, Text, TextFault};
use std::alloc::Global;
use std::process::Abort;

// Whether a map has so many entries.
fn has(props: &Props, count: usize) -> bool {
    props.len() == count && props.iter().count() == count
}

// `b` and `svn:sync-a`.
fn two(rt: &impl Abort, alloc: Global) -> Props {
    let mut props = Props::empty();
    put(rt, alloc, &mut props, b"b", b"1");
    put(rt, alloc, &mut props, b"svn:sync-a", b"2");
    props
}

// A share of a map.
fn shared(rt: &impl Abort, props: &Props) -> Props {
    props.share().expect(rt, "memory")
}

// Whether a map of three entries is another than its share of two.
fn has_parted(props: &Props, shared: &Props) -> bool {
    !shared.equals(props) && has(props, 3) && has(shared, 2)
}

#[test]
fn owners_keep_their_own_maps(rt: HostRuntime) {
    let mut props = two(&rt, rt.alloc());
    let shared = shared(&rt, &props);
    assert!(rt; shared.equals(&props));
    put(&rt, rt.alloc(), &mut props, b"a", b"3");
    assert!(rt; has_parted(&props, &shared));
}

// Whether a map has that value at a name.
fn gives(props: &Props, name: &[u8], value: &[u8]) -> bool {
    props.get(name) == Some(value)
}

// Whether a map of two entries has neither `c` nor `a`.
fn lacks_two(props: &Props) -> bool {
    props.get(b"c").is_none() && !props.contains(b"a") && has(props, 2)
}

#[test]
fn names_are_looked_up(rt: HostRuntime) {
    let props = two(&rt, rt.alloc());
    all_hold(
        &rt,
        &[
            (gives(&props, b"b", b"1"), "a name that is there"),
            (lacks_two(&props), "names that are absent"),
        ],
    );
}

// Whether a name is taken out of a map, and taken out again.
fn removes(alloc: Global, props: &mut Props, name: &[u8]) -> bool {
    props.remove(alloc, name).is_ok() && props.remove(alloc, name).is_ok()
}

#[test]
fn names_are_removed(rt: HostRuntime) {
    let mut props = two(&rt, rt.alloc());
    let shared = shared(&rt, &props);
    all_hold(
        &rt,
        &[
            (removes(rt.alloc(), &mut props, b"b"), "memory"),
            (has(&props, 1) && has(&shared, 2), "one entry, and two"),
            (
                Props::empty().is_empty() && !props.is_empty(),
                "which is empty",
            ),
        ],
    );
}

// Whether a map beside which this one is copied is left as that one.
fn is_copied(alloc: Global, props: &Props, beside: &Props, left: &Props) -> bool {
    match props.copied_beside(alloc, beside) {
        Ok(copied) => copied.equals(left),
        Err(_) => false,
    }
}

// A map without the names of its mirror.
fn without_sync(rt: &impl Abort, alloc: Global, props: &Props) -> Props {
    props.without_sync(alloc).expect(rt, "memory")
}

#[test]
fn sync_names_stay_with_their_mirror(rt: HostRuntime) {
    let own = two(&rt, rt.alloc());
    let plain = without_sync(&rt, rt.alloc(), &own);
    all_hold(
        &rt,
        &[
            (plain.len() == 1 && plain.contains(b"b"), "the others"),
            (is_copied(rt.alloc(), &own, &plain, &own), "a mirror's own"),
            (is_copied(rt.alloc(), &plain, &own, &plain), "the plain"),
        ],
    );
}

// The fault that bytes are refused as a name with.
fn name_fault(alloc: Global, bytes: &[u8]) -> Option<PropFault> {
    PropName::parse(alloc, bytes).err()
}

// Whether a name and its copy are so long.
fn is_as_long(alloc: Global, name: &PropName, count: usize) -> bool {
    match name.copy(alloc) {
        Ok(copy) => name.len() == count && copy.len() == count,
        Err(_) => false,
    }
}

// So many letters.
fn letters(rt: &impl Abort, alloc: Global, count: usize) -> Vec<u8> {
    Vec::from_elem(alloc, b'n', count).expect(rt, "memory")
}

// Whether bytes are a name, and so many.
fn is_name(alloc: Global, bytes: &[u8], count: usize) -> bool {
    match PropName::parse(alloc, bytes) {
        Ok(name) => is_as_long(alloc, &name, count) && name.as_bytes() == bytes,
        Err(_) => false,
    }
}

#[test]
fn names_have_limits(rt: HostRuntime) {
    let most = letters(&rt, rt.alloc(), 255);
    let long = letters(&rt, rt.alloc(), 256);
    let fault = name_fault(rt.alloc(), long.as_slice());
    assert!(rt; is_name(rt.alloc(), most.as_slice(), 255));
    assert!(rt; fault == Some(PropFault::TooLong));
}

const NAMES: [(&[u8], &str); 5] = [
    (b".", "one dot"),
    (b"..", "two dots"),
    (b"a/b", "a slash"),
    (b" ", "a blank"),
    (b"\xf0\x9f\x98\x80", "a character of four bytes"),
];

const OTHERS: [(&[u8], &str); 4] = [
    (b"", "nothing"),
    (b"\n", "a line's end"),
    (b"a\x7f", "the byte of DEL"),
    (b"\xff", "no UTF-8"),
];

// The first of these bytes that are no name, and of those that are one.
fn other_name(alloc: Global) -> Option<&'static str> {
    for (bytes, shows) in &NAMES {
        if !is_name(alloc, *bytes, bytes.len()) {
            return Some(*shows);
        }
    }
    for (bytes, shows) in &OTHERS {
        if name_fault(alloc, *bytes) != Some(PropFault::BadProps) {
            return Some(*shows);
        }
    }
    None
}

#[test]
fn names_follow_the_rule(rt: HostRuntime) {
    none_is_wrong(&rt, other_name(rt.alloc()));
}

// How long the copy of a value is.
fn copied(alloc: Global, value: &PropValue) -> Option<usize> {
    match value.copy(alloc) {
        Ok(copy) => Some(copy.len()),
        Err(_) => None,
    }
}

// How long the copy of a value of so many bytes is, or why there is no value.
fn valued(rt: &impl Abort, alloc: Global, count: usize) -> Result<Option<usize>, PropFault> {
    match PropValue::new(letters(rt, alloc, count)) {
        Ok(value) => Ok(copied(alloc, &value)),
        Err(fault) => Err(fault),
    }
}

#[test]
fn values_have_limits(rt: HostRuntime) {
    assert!(rt; valued(&rt, rt.alloc(), 65_536) == Ok(Some(65_536)));
    assert!(rt; valued(&rt, rt.alloc(), 65_537) == Err(PropFault::TooLong));
}

// A text of these bytes.
fn text(rt: &impl Abort, alloc: Global, bytes: &[u8]) -> Text {
    let bytes = Vec::from_slice(alloc, bytes).expect(rt, "memory");
    Text::new(alloc, bytes).expect(rt, "a text")
}

// Whether a text has these bytes, and the sum of a text of them.
fn is_text(rt: &impl Abort, alloc: Global, found: &Text, bytes: &[u8]) -> bool {
    let fresh = text(rt, alloc, bytes);
    found.as_slice() == bytes && found.sum() == fresh.sum()
}

// A share of a text.
fn share_of(rt: &impl Abort, text: &Text) -> Text {
    text.share().expect(rt, "memory")
}

// Whether ` two` and then nothing are added to a text.
fn grows(alloc: Global, text: &mut Text) -> bool {
    text.append(alloc, b" two").is_ok() && text.append(alloc, b"").is_ok()
}

#[test]
fn texts_grow_apart(rt: HostRuntime) {
    let mut grown = text(&rt, rt.alloc(), b"one");
    let shared = share_of(&rt, &grown);
    all_hold(
        &rt,
        &[
            (grows(rt.alloc(), &mut grown), "memory"),
            (
                is_text(&rt, rt.alloc(), &grown, b"one two"),
                "the text that grew",
            ),
            (shared.len() == 3, "its share"),
        ],
    );
}

// How long a text of so many bytes is, or why it isn't made.
fn made(rt: &impl Abort, alloc: Global, count: usize) -> Result<usize, TextFault> {
    match Text::new(alloc, letters(rt, alloc, count)) {
        Ok(text) => Ok(text.len()),
        Err(fault) => Err(fault),
    }
}

// How long a text is with another byte behind it.
fn appended(alloc: Global, text: &mut Text) -> Result<usize, TextFault> {
    match text.append(alloc, b"y") {
        Ok(()) => Ok(text.len()),
        Err(fault) => Err(fault),
    }
}

// The same of a text of so many bytes.
fn grown(rt: &impl Abort, alloc: Global, count: usize) -> Result<usize, TextFault> {
    match Text::new(alloc, letters(rt, alloc, count)) {
        Ok(mut text) => appended(alloc, &mut text),
        Err(fault) => Err(fault),
    }
}

#[test]
fn texts_have_a_limit(rt: HostRuntime) {
    let alloc = rt.alloc();
    all_hold(
        &rt,
        &[
            (made(&rt, alloc, 1_048_576) == Ok(1_048_576), "the longest"),
            (
                made(&rt, alloc, 1_048_577) == Err(TextFault::TooLong),
                "a longer one",
            ),
            (
                grown(&rt, alloc, 1_048_575) == Ok(1_048_576),
                "grown to the longest",
            ),
            (
                grown(&rt, alloc, 1_048_576) == Err(TextFault::TooLong),
                "grown past it",
            ),
        ],
    );
}

// A node with an empty text.
fn empty_file(rt: &impl Abort, alloc: Global) -> Node {
    let mut node = Node::new_dir();
    node.text = Some(Text::empty(alloc).expect(rt, "memory"));
    node
}

// How long the text of a node is, once it has grown by `a`.
fn len_with_a(alloc: Global, node: &mut Node) -> Result<Option<usize>, TextFault> {
    match node.append_text(alloc, b"a") {
        Ok(()) => match &node.text {
            Some(text) => Ok(Some(text.len())),
            None => Ok(None),
        },
        Err(fault) => Err(fault),
    }
}

#[test]
fn texts_of_nodes_grow(rt: HostRuntime) {
    let mut dir = Node::new_dir();
    let mut file = empty_file(&rt, rt.alloc());
    all_hold(
        &rt,
        &[
            (len_with_a(rt.alloc(), &mut dir) == Ok(None), "a directory"),
            (len_with_a(rt.alloc(), &mut file) == Ok(Some(1)), "a file"),
        ],
    );
}

// The value `v`.
fn v(rt: &impl Abort, alloc: Global) -> PropValue {
    let bytes = Vec::from_slice(alloc, b"v").expect(rt, "memory");
    PropValue::new(bytes).expect(rt, "a value")
}

// Puts a value at the name `n` of a node, or takes it away.
fn put_n(rt: &impl Abort, alloc: Global, node: &mut Node, value: Option<PropValue>) {
    let name = PropName::parse(alloc, b"n").expect(rt, "a name");
    node.put_prop(alloc, name, value).expect(rt, "memory");
}

#[test]
fn properties_of_nodes_are_put(rt: HostRuntime) {
    let mut node = Node::new_dir();
    put_n(&rt, rt.alloc(), &mut node, Some(v(&rt, rt.alloc())));
    let is_put = gives(&node.props, b"n", b"v");
    put_n(&rt, rt.alloc(), &mut node, None);
    all_hold(
        &rt,
        &[(is_put, "put"), (node.props.is_empty(), "taken away")],
    );
}
