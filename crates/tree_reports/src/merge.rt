//! Two listings gone through at once, in path order.
ghost use Rattle.std.specs.Prelude.{◌≡◌, [], MatchOption};
ghost use Rattle.node_base.specs.Path.{path_cmp};
ghost use Rattle.path_tree.specs.Listed.{shown_names};
ghost use Rattle.tree_reports.specs.Merged.{IsNext, only_old, only_new, in_both, to_come, pair_of, entry_of};

use node_base::{Node, NodeName};
use path_tree::Entry;
use std::cmp::Ordering;

// A path, with what stands there in the old tree and in the new one.
#[derive(Drop)]
pub(crate) struct Pair<'l, 'a> {
    pub(crate) path: &'l [&'a NodeName],
    pub(crate) old: Option<&'a Node>,
    pub(crate) new: Option<&'a Node>,
}

// What is still to come of two listings.
#[derive(Clone, Copy)]
pub(crate) struct Merge<'l, 'a> {
    pub(crate) before: &'l [Entry<'a>],
    pub(crate) after: &'l [Entry<'a>],
}

// The order of paths: name by name.
fn compare(left: &[&NodeName], right: &[&NodeName]) -> Ordering
    ensures { result ≡ path_cmp (shown_names left.now) (shown_names right.now) }
{
    let Some((first, left)) = left.split_first() else {
        return if right.is_empty() {
            Ordering::Equal
        } else {
            Ordering::Less
        };
    };
    let Some((second, right)) = right.split_first() else {
        return Ordering::Greater;
    };
    match first.compare(*second) {
        Ordering::Equal => compare(left, right),
        order => order,
    }
}

// An entry of the old tree alone.
fn only_old<'l, 'a>(entry: &'l Entry<'a>) -> Pair<'l, 'a>
    ensures { pair_of result ≡ only_old (entry_of entry.now) }
{
    Pair {
        path: entry.path.as_slice(),
        old: Some(entry.node),
        new: None,
    }
}

// An entry of the new tree alone.
fn only_new<'l, 'a>(entry: &'l Entry<'a>) -> Pair<'l, 'a>
    ensures { pair_of result ≡ only_new (entry_of entry.now) }
{
    Pair {
        path: entry.path.as_slice(),
        old: None,
        new: Some(entry.node),
    }
}

// An entry of each tree, of one path.
fn in_both<'l, 'a>(old: &'l Entry<'a>, new: &Entry<'a>) -> Pair<'l, 'a>
    ensures { pair_of result ≡ in_both (entry_of old.now) (entry_of new.now) }
{
    Pair {
        path: old.path.as_slice(),
        old: Some(old.node),
        new: Some(new.node),
    }
}

impl<'l, 'a> Merge<'l, 'a> {
    // The first of what is to come, and what is to come behind it.
    pub(crate) fn next(self) -> Option<(Pair<'l, 'a>, Merge<'l, 'a>)>
        ensures { MatchOption result (to_come self.entry ≡ []) (λ p. IsNext self.entry p.1 p.0) }
    {
        let Merge { before, after } = self;
        let Some((old, others)) = before.split_first() else {
            let (new, after) = after.split_first()?;
            return Some((only_new(new), Merge { before, after }));
        };
        let Some((new, rest)) = after.split_first() else {
            let before = others;
            return Some((only_old(old), Merge { before, after }));
        };
        match compare(old.path.as_slice(), new.path.as_slice()) {
            Ordering::Less => {
                let before = others;
                Some((only_old(old), Merge { before, after }))
            }
            Ordering::Equal => {
                let before = others;
                let after = rest;
                Some((in_both(old, new), Merge { before, after }))
            }
            Ordering::Greater => {
                let after = rest;
                Some((only_new(new), Merge { before, after }))
            }
        }
    }
}
