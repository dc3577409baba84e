//! The whole records of a revision.
ghost use Rattle.std.specs.Prelude.{◌≡◌, ◌++◌, ◌∷◌, [], List, Some, IfOk, OnOk, IfErr};
ghost use Rattle.std.specs.List.{list_any};
ghost use Rattle.dump_text.specs.declared.record.NodeRecord.{NodeRecord as Stated};
ghost use Rattle.whole_texts.specs.Making.{MakesText};
ghost use Rattle.whole_texts.specs.Refusals.{UnlessMemory};
ghost use Rattle.whole_texts.specs.Settled.{AreSorted, Knows};
ghost use Rattle.whole_texts.specs.Whole.{node_in, is_given, records_of, Gives, IsUnmade, IsWhole, CantBeWhole};
ghost use Rattle.whole_texts.specs.Whole.{AreWhole, IsFirstUnmade, IsRefused};
ghost use Rattle.whole_texts.specs.declared.read_node.ReadNode.{ReadNode as Read};

use crate::base::base_of;
use crate::made::text_over;
use crate::settled::{Settled, settled_in_order};
use crate::{ReadNode, TextRefusal};
use dump_text::{DeltaText, NodeRecord};
use node_base::Text;
use path_tree::Tree;
use std::alloc::{AllocError, Global};

// The text that a record's delta makes.
fn text_made(
    alloc: Global,
    trees: &[Tree],
    settled: &[Settled],
    stated: &NodeRecord,
    delta: &DeltaText,
) -> Result<Text, TextRefusal>
    requires { AreSorted settled.now }
    ensures made { IfOk result (λ t. (rs : List Stated) → Knows settled.now rs
        → Gives trees.now rs stated.now delta.now t) }
    ensures refused { IfErr result (λ e. (rs : List Stated) → Knows settled.now rs
        → UnlessMemory (IsUnmade trees.now rs stated.now delta.now) e) }
{
    match base_of(alloc, trees, settled, stated) {
        Ok(base) => text_over(alloc, &base, delta),
        Err(fault) => Err(fault),
    }
}

// A record with another text.
fn with_text(stated: NodeRecord, text: Text) -> NodeRecord
    ensures { result ≡ record stated { text = Some text } }
{
    let NodeRecord {
        path,
        kind,
        action,
        source,
        props,
        text: _,
    } = stated;
    NodeRecord {
        path,
        kind,
        action,
        source,
        props,
        text: Some(text),
    }
}

// The whole record of a node.
fn whole(
    alloc: Global,
    trees: &[Tree],
    settled: &[Settled],
    read: ReadNode,
) -> Result<NodeRecord, TextRefusal>
    requires { AreSorted settled.now }
    ensures whole { IfOk result (λ w. (rs : List Stated) → Knows settled.now rs → IsWhole trees.now rs read w) }
    ensures refused { IfErr result (λ e. (rs : List Stated) → Knows settled.now rs
        → UnlessMemory (CantBeWhole trees.now rs read) e) }
{
    let ReadNode { node, delta } = read;
    let Some(delta) = delta else {
        return Ok(node);
    };
    match text_made(alloc, trees, settled, &node, &delta) {
        Ok(text) => Ok(with_text(node, text)),
        Err(fault) => Err(fault),
    }
}

// One record more.
fn take_in(
    alloc: Global,
    trees: &[Tree],
    settled: &[Settled],
    made: &mut Vec<NodeRecord>,
    read: ReadNode,
) -> Result<(), TextRefusal>
    requires { AreSorted settled.now }
    ensures taken { OnOk result ((rs : List Stated) (front : List Read) → Knows settled.now rs
        → AreWhole trees.now rs front made.old.items → AreWhole trees.now rs (front ++ read ∷ []) made.new.items) }
    ensures refused { IfErr result (λ e. (rs : List Stated) (front rest : List Read) → Knows settled.now rs
        → AreWhole trees.now rs front made.old.items
        → UnlessMemory (IsFirstUnmade trees.now rs (front ++ read ∷ rest)) e) }
{
    match whole(alloc, trees, settled, read) {
        Ok(stated) => {
            made.push(stated)?;
            Ok(())
        }
        Err(fault) => Err(fault),
    }
}

// The whole records of nodes, one after another.
fn all_whole(
    alloc: Global,
    trees: &[Tree],
    settled: &[Settled],
    nodes: Vec<ReadNode>,
) -> Result<Vec<NodeRecord>, TextRefusal>
    requires sorted { AreSorted settled.now }
    requires known { Knows settled.now (records_of nodes.items) }
    ensures whole { IfOk result (λ v. AreWhole trees.now (records_of nodes.items) nodes.items v.items) }
    ensures refused { IfErr result (IsRefused trees.now nodes.items) }
{
    let mut made: Vec<NodeRecord> = Vec::with_capacity(alloc, nodes.len())?;
    for read in nodes {
        match take_in(alloc, trees, settled, &mut made, read) {
            Ok(()) => {}
            Err(fault) => return Err(fault),
        }
    }
    Ok(made)
}

// Whether some text is given as a delta.
fn has_delta(nodes: &[ReadNode]) -> bool
    ensures { result ≡ list_any is_given nodes.now }
{
    for read in nodes {
        if read.delta.is_some() {
            return true;
        }
    }
    false
}

// A node's own record.
fn own_record(read: ReadNode) -> NodeRecord
    ensures { result ≡ node_in read }
{
    let ReadNode { node, delta: _ } = read;
    node
}

// The nodes' own records.
fn own_records(alloc: Global, nodes: Vec<ReadNode>) -> Result<Vec<NodeRecord>, AllocError>
    ensures { IfOk result (λ v. v.items ≡ records_of nodes.items) }
{
    nodes
        .into_iter()
        .map(|read| own_record(read))
        .collect(alloc)
}

/// The whole records of a revision's nodes, over the trees of the revisions before it: each text that is given as a
/// delta is made of the text that the file has before. That is no byte for an add or a replace without a source, and
/// the source's text for one with a source. For a change it is what the newest tree has; or, below a path that the
/// revision adds, replaces or deletes, what is copied there, if something is. A record without a delta stays as it is,
/// and where none has one nothing is looked up.
///
/// The first delta that makes no text is refused: it finds nothing (11, or 14 where it has a source) or a directory
/// (17); what it finds, or what it makes, doesn't have its MD5 (6); the bytes are no delta of what it finds (44), or go
/// past a limit (8). 70 where a growth was refused.
pub fn make_whole(
    alloc: Global,
    trees: &[Tree],
    nodes: Vec<ReadNode>,
) -> Result<Vec<NodeRecord>, TextRefusal>
    ensures whole { IfOk result (λ v. AreWhole trees.now (records_of nodes.items) nodes.items v.items) }
    ensures refused { IfErr result (IsRefused trees.now nodes.items) }
{
    if !has_delta(nodes.as_slice()) {
        return Ok(own_records(alloc, nodes)?);
    }
    let settled = settled_in_order(alloc, nodes.as_slice())?;
    all_whole(alloc, trees, settled.as_slice(), nodes)
}
