//! The paths that a revision's records settle.
ghost use Rattle.std.specs.Prelude.{◌≡◌, ◌≤◌, ◌++◌, length, true, false, IfOk, OnOk, MatchOption, None, Some};
ghost use Rattle.std.specs.Option.{option_copied, option_map};
ghost use Rattle.std.specs.List.{AllWithin};
ghost use Rattle.node_base.specs.Path.{same_path};
ghost use Rattle.whole_texts.specs.Bases.{copied, nearest};
ghost use Rattle.whole_texts.specs.Settled.{settled_by, settled_in, copied_at, comes_before, AreSorted, Knows};
ghost use Rattle.whole_texts.specs.Whole.{records_of};

use crate::ReadNode;
use dump_load::{is_delete, settles};
use dump_text::NodeRecord;
use node_base::{NodeName, NodePath, Source, compare_paths};
use std::alloc::{AllocError, Global};
use std::cmp::Ordering;

/// A path that a record settles.
#[derive(Drop)]
pub struct Settled {
    /// The path.
    pub path: NodePath,
    /// What the record copies there: nothing where it deletes, or makes a node of its own.
    pub copied: Option<Source>,
}

// What a record copies to its path, where it isn't a deletion.
fn copied(alloc: Global, stated: &NodeRecord) -> Result<Option<Source>, AllocError>
    ensures { IfOk result (λ s. s ≡ copied stated.now) }
{
    if is_delete(stated.action) {
        return Ok(None);
    }
    match &stated.source {
        None => Ok(None),
        Some(source) => Ok(Some(Source {
            path: source.path.copy(alloc)?,
            revision: source.revision,
        })),
    }
}

// Keeps the path of a record, if it settles it.
fn keep_settled(
    alloc: Global,
    settled: &mut Vec<Settled>,
    stated: &NodeRecord,
) -> Result<(), AllocError>
    ensures { OnOk result (settled.new.items ≡ settled.old.items ++ settled_by stated.now) }
{
    if !settles(stated.action) {
        return Ok(());
    }
    let path = stated.path.copy(alloc)?;
    let copied = copied(alloc, stated)?;
    settled.push(Settled { path, copied })?;
    Ok(())
}

// The paths that records settle, in their order.
fn settled_of(alloc: Global, nodes: &[ReadNode]) -> Result<Vec<Settled>, AllocError>
    ensures { IfOk result (λ v. v.items ≡ settled_in nodes.now) }
{
    let mut settled = Vec::new(alloc);
    for read in nodes {
        keep_settled(alloc, &mut settled, &read.node)?;
    }
    Ok(settled)
}

/// The paths that records settle, in path order. Of those of one path the last comes first.
pub fn settled_in_order(alloc: Global, nodes: &[ReadNode]) -> Result<Vec<Settled>, AllocError>
    ensures sorted { IfOk result (λ v. AreSorted v.items) }
    ensures known { IfOk result (λ v. Knows v.items (records_of nodes.now)) }
{
    let mut settled = settled_of(alloc, nodes)?;
    settled.reverse();
    settled.sort_by(|s, t| compare_paths(s.path.names(), t.path.names()))?;
    Ok(settled)
}

// Whether it is that of a path.
fn is_of(entry: &Settled, path: &[NodeName]) -> bool
    ensures { result ≡ same_path entry.now.path path.now }
{
    compare_paths(entry.path.names(), path) == Ordering::Equal
}

// Whether it comes before a path.
fn comes_before(entry: &Settled, path: &[NodeName]) -> bool
    ensures { result ≡ comes_before entry.now.path path.now }
{
    compare_paths(entry.path.names(), path).is_lt()
}

// Where the first of some in path order stands that doesn't come before a path.
fn place_of(settled: &[Settled], path: &[NodeName]) -> usize
    requires { AreSorted settled.now }
    ensures within { result ≤ length settled.now }
    ensures before { AllWithin (λ s. comes_before s.path path.now ≡ true) settled.now 0 result }
    ensures behind { AllWithin (λ s. comes_before s.path path.now ≡ false) settled.now result (length settled.now) }
{
    settled.partition_point(|entry| comes_before(entry, path))
}

// What is copied to a path, where it is settled. The look-up goes by halves.
fn copied_at<'a>(settled: &'a [Settled], path: &[NodeName]) -> Option<&'a Option<Source>>
    requires { AreSorted settled.now }
    ensures { option_copied result ≡ copied_at settled.now path.now }
{
    let place = place_of(settled, path);
    if place >= settled.len() {
        return None;
    }
    let entry = &settled[place];
    if is_of(entry, path) {
        Some(&entry.copied)
    } else {
        None
    }
}

/// Of the paths strictly above a path, the longest that is settled: what is copied there, and what of the path lies
/// below it.
pub fn nearest<'a>(
    settled: &'a [Settled],
    path: &'a [NodeName],
) -> Option<(&'a Option<Source>, &'a [NodeName])>
    requires { AreSorted settled.now }
    ensures { MatchOption result (nearest (copied_at settled.now) path.now ≡ None) (λ x.
        nearest (copied_at settled.now) path.now ≡ Some (x.0.now, x.1.now)) }
{
    let mut above = path.len();
    while above > 0 {
        above -= 1;
        if let Some(copied) = copied_at(settled, &path[..above]) {
            return Some((copied, &path[above..]));
        }
    }
    None
}
