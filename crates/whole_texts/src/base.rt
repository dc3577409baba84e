//! The text that a delta is over.
ghost use Rattle.std.specs.Prelude.{◌≡◌, ◌++◌, List, OnOk};
ghost use Rattle.std.specs.Option.{option_copied};
ghost use Rattle.dump_load.specs.Changes.{brings};
ghost use Rattle.dump_load.specs.Records.{change_of};
ghost use Rattle.dump_text.specs.declared.record.NodeRecord.{NodeRecord as Stated};
ghost use Rattle.node_base.specs.Tree.{base, source_at};
ghost use Rattle.whole_texts.specs.Bases.{text_found, base_of, TextIs};
ghost use Rattle.whole_texts.specs.Settled.{left_at, copied_node, AreSorted, Knows};
ghost use Rattle.whole_texts.specs.declared.refusal.TextRefusal.TheVariants.{NoSuchPath};

use crate::TextRefusal;
use crate::settled::{Settled, nearest};
use dump_load::{is_delete, settles, source_node};
use dump_text::NodeRecord;
use node_base::{Node, NodeName, NodePath, Source, Text};
use path_tree::Tree;
use std::alloc::{AllocError, Global};

// Whether a record adds or replaces.
fn brings(stated: &NodeRecord) -> bool
    ensures { result ≡ brings (change_of stated.now) }
{
    settles(stated.action) && !is_delete(stated.action)
}

// The text of a node that is found: refused for what is absent where none is, and where it is a directory.
fn text_of(node: Option<&Node>, absent: TextRefusal) -> Result<Text, TextRefusal>
    ensures { TextIs result (text_found absent (option_copied node.entry)) }
{
    let Some(node) = node else {
        return Err(absent);
    };
    let Some(text) = &node.text else {
        return Err(TextRefusal::KindMismatch);
    };
    Ok(text.share()?)
}

// Puts names behind others.
fn add_names(alloc: Global, names: &mut Vec<NodeName>, more: &[NodeName]) -> Result<(), AllocError>
    ensures { OnOk result (names.new.items ≡ names.old.items ++ more.now) }
{
    for name in more {
        names.push(name.copy(alloc)?)?;
    }
    Ok(())
}

// The text that a source has at a path below it.
fn text_below(
    alloc: Global,
    trees: &[Tree],
    source: &Source,
    rest: &[NodeName],
) -> Result<Text, TextRefusal>
    ensures { TextIs result (text_found NoSuchPath (source_at trees.now source.now rest.now)) }
{
    let revision = source.revision.index();
    if revision >= trees.len() {
        return Err(TextRefusal::NoSuchPath);
    }
    let mut path = Vec::new(alloc);
    add_names(alloc, &mut path, source.path.names())?;
    add_names(alloc, &mut path, rest)?;
    text_of(
        trees[revision].get(path.as_slice()),
        TextRefusal::NoSuchPath,
    )
}

// The text that a copy has at a path below it, where there is a copy.
fn text_copied(
    alloc: Global,
    trees: &[Tree],
    copied: &Option<Source>,
    rest: &[NodeName],
) -> Result<Text, TextRefusal>
    ensures { TextIs result (text_found NoSuchPath (copied_node trees.now copied.now rest.now)) }
{
    match copied {
        Some(source) => text_below(alloc, trees, source, rest),
        None => Err(TextRefusal::NoSuchPath),
    }
}

// The text that the newest tree has at a path.
fn text_before(trees: &[Tree], path: &NodePath) -> Result<Text, TextRefusal>
    ensures { TextIs result (text_found NoSuchPath (base trees.now path.now)) }
{
    match trees.last() {
        Some(tree) => text_of(tree.get(path.names()), TextRefusal::NoSuchPath),
        None => {
            if path.is_root() {
                return Err(TextRefusal::KindMismatch);
            }
            Err(TextRefusal::NoSuchPath)
        }
    }
}

// The text that a change finds at a path.
fn text_left(
    alloc: Global,
    trees: &[Tree],
    settled: &[Settled],
    path: &NodePath,
) -> Result<Text, TextRefusal>
    requires { AreSorted settled.now }
    ensures { TextIs result (text_found NoSuchPath (left_at trees.now settled.now path.now)) }
{
    match nearest(settled, path.names()) {
        Some((copied, rest)) => text_copied(alloc, trees, copied, rest),
        None => text_before(trees, path),
    }
}

/// The text that a record's delta is over: nothing for an add or a replace without a source, and of another that of
/// the source's file. Of a change it is the text of what it finds: below the nearest path that a record settles what
/// that record copies there, and else what the newest tree has. Refused where nothing is found: `NoSource` (14) for
/// an add or a replace, else `NoSuchPath` (11). `KindMismatch` (17) where a directory is.
pub fn base_of(
    alloc: Global,
    trees: &[Tree],
    settled: &[Settled],
    stated: &NodeRecord,
) -> Result<Text, TextRefusal>
    requires { AreSorted settled.now }
    ensures { (rs : List Stated) → Knows settled.now rs → TextIs result (base_of trees.now rs stated.now) }
{
    if !brings(stated) {
        return text_left(alloc, trees, settled, &stated.path);
    }
    match &stated.source {
        None => Ok(Text::empty(alloc)?),
        Some(source) => text_of(source_node(trees, source), TextRefusal::NoSource),
    }
}
