//! The differences of two trees.
ghost use Rattle.std.specs.Prelude.{◌≡◌, IfOk};
ghost use Rattle.std.specs.Option.{option_map};
ghost use Rattle.std.specs.FinMap as map;
ghost use Rattle.path_tree.specs.Listed.{shown_names};
ghost use Rattle.tree_reports.specs.Applied.{Make};
ghost use Rattle.tree_reports.specs.Depths.{within, listed};
ghost use Rattle.tree_reports.specs.Differences.{AreDifferences, is_same_text, parts_of, told_both, told_gone, told_of, shown};
ghost use Rattle.tree_reports.specs.Merged.{if_told, merged, telling, shown_option, both_of};
ghost use Rattle.tree_reports.specs.Merged.{path_of, is_below_gone, pair_told};

use crate::depth::{Depth, list_within};
use crate::difference::{Change, Difference, Parts};
use crate::merge::{Merge, Pair};
use node_base::{Node, NodeName, Text};
use path_tree::Tree;
use std::alloc::{AllocError, Global};

/// What makes the new tree of the old one, both looked at so deep: the paths at which they differ, in path order, each
/// once. The nodes' numbers don't count. Below a path that goes, or whose node is of the other kind now, nothing is
/// told to go, and all that is new is told to come. Where it `opens` folders, one that is in both trees is told though
/// nothing differs in it: what a client does to it then, as setting its depth, is its own. Both listings are gone
/// through once, and of each path that is there no more the new tree is asked what is above it.
pub fn differences<'a>(
    alloc: Global,
    old: &'a Tree,
    new: &'a Tree,
    depth: Depth,
    opens: bool,
) -> Result<Vec<Difference<'a>>, AllocError>
    ensures told { IfOk result (λ ds. AreDifferences opens (within depth (map.get old.now))
        (within depth (map.get new.now)) (shown ds.items)) }
    // after them the old tree has at each path what the new one has
    ensures make { IfOk result (λ ds. Make (shown ds.items) (within depth (map.get old.now))
        (within depth (map.get new.now))) }
{
    old.is_tree();
    new.is_tree();
    list_differences(alloc, old, new, depth, opens)
}

// The same list, by the two listings.
fn list_differences<'a>(
    alloc: Global,
    old: &'a Tree,
    new: &'a Tree,
    depth: Depth,
    opens: bool,
) -> Result<Vec<Difference<'a>>, AllocError>
    ensures { IfOk result (λ ds. shown ds.items ≡ telling opens (is_below_gone new.now)
        (merged (listed depth old.now) (listed depth new.now))) }
{
    let before = list_within(alloc, old, depth)?;
    let after = list_within(alloc, new, depth)?;
    let mut merge = Merge {
        before: before.as_slice(),
        after: after.as_slice(),
    };
    let mut found = Vec::new(alloc);
    while let Some((pair, rest)) = merge.next() {
        merge = rest;
        if let Some(difference) = difference_at(alloc, new, &pair, opens)? {
            found.push(difference)?;
        }
    }
    Ok(found)
}

// What is told of a path, where something is.
fn difference_at<'a>(
    alloc: Global,
    new: &Tree,
    pair: &Pair<'_, 'a>,
    opens: bool,
) -> Result<Option<Difference<'a>>, AllocError>
    ensures { IfOk result (λ d. shown_option d ≡ if_told (path_of pair.now) (pair_told opens new.now pair.now)) }
{
    let Some(change) = change_at(alloc, new, pair, opens)? else {
        return Ok(None);
    };
    let path = pair.path.to_vec(alloc)?;
    Ok(Some(Difference { path, change }))
}

fn change_at<'a>(
    alloc: Global,
    new: &Tree,
    pair: &Pair<'_, 'a>,
    opens: bool,
) -> Result<Option<Change<'a>>, AllocError>
    ensures { IfOk result (λ c. option_map told_of c ≡ pair_told opens new.now pair.now) }
{
    let Some(node) = pair.new else {
        return gone(alloc, new, pair);
    };
    match pair.old {
        Some(old) => Ok(change_of(old, node, opens)),
        None => Ok(Some(Change::Added(node))),
    }
}

// What is told of a path at which nothing is any more.
fn gone<'a>(
    alloc: Global,
    new: &Tree,
    pair: &Pair<'_, 'a>,
) -> Result<Option<Change<'a>>, AllocError>
    ensures { IfOk result (λ c. option_map told_of c ≡ told_gone (both_of pair.now).old
        (is_below_gone new.now (path_of pair.now))) }
{
    if pair.old.is_none() || is_below_gone(alloc, new, pair.path)? {
        return Ok(None);
    }
    Ok(Some(Change::Removed))
}

// Whether what is above a path is no directory in a tree.
fn is_below_gone(alloc: Global, tree: &Tree, path: &[&NodeName]) -> Result<bool, AllocError>
    ensures { IfOk result (λ b. b ≡ is_below_gone tree.now (shown_names path.now)) }
{
    let mut names = Vec::with_capacity(alloc, path.len())?;
    for name in path {
        names.push(name.copy(alloc)?)?;
    }
    Ok(tree.blocked(names.as_slice()).is_some())
}

// What is told of a node in the place of another.
fn change_of<'a>(old: &Node, new: &'a Node, opens: bool) -> Option<Change<'a>>
    ensures { option_map told_of result ≡ told_both opens old.now new.now }
{
    if old.text.is_some() != new.text.is_some() {
        return Some(Change::Replaced(new));
    }
    let parts = parts_of(old, new);
    if parts.props || parts.text || (opens && new.text.is_none()) {
        return Some(Change::Changed(new, parts));
    }
    None
}

// Which parts of two nodes differ.
fn parts_of(old: &Node, new: &Node) -> Parts
    ensures { result ≡ parts_of old.now new.now }
{
    Parts {
        props: !old.props.equals(&new.props),
        text: !is_same_text(&old.text, &new.text),
    }
}

fn is_same_text(old: &Option<Text>, new: &Option<Text>) -> bool
    ensures { result ≡ is_same_text old.now new.now }
{
    let Some(old) = old else {
        return new.is_none();
    };
    match new {
        Some(new) => old.as_slice() == new.as_slice(),
        None => false,
    }
}
