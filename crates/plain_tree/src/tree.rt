//! Whole trees.
ghost use Rattle.std.specs.Prelude.{◌≡◌, ◌++◌, [], true, false, IfOk, OnOk, OnErr, IsSome, None};
ghost use Rattle.std.specs.Option.{option_copied};
ghost use Rattle.std.specs.FinMap as map;
ghost use Rattle.node_base.specs.Path.{Path, same_path};
ghost use Rattle.node_base.specs.Limits.{fits};
ghost use Rattle.node_base.specs.Tree.{grafted, marked, changed_at, with_given, HasFronts, IsDirAt, IsTree, blocked};
ghost use Rattle.node_base.specs.Tree.{alone, new_dir};
ghost use Rattle.path_tree.specs.Children.{children_of, name_in, shown_children};
ghost use Rattle.path_tree.specs.Copies.{copy_too_long};
ghost use Rattle.path_tree.specs.Listed.{shown, shown_names};

use crate::branch::Branch;
use node_base::{Node, NodeName, NodePath, Props, RevNo, Text, TreeFault};
use path_tree::{ChildNode, Entry};
use std::alloc::{AllocError, Global};
use std::marker::Model;

/// The nodes of a revision, seen by contracts as a finite map from paths to nodes: the root is a directory, and so
/// is each proper front of a path that is there.
#[derive(Drop)]
pub struct Tree {
    root: Branch,
}

impl Model for Tree {
    ghost use Rattle.node_base.specs.Tree.{PathMap, coded_tree, IsTree};

    ghost Value = { PathMap };

    ghost coded = { coded_tree };

    ghost view = { λ a. a.root };

    ghost invariant = { λ a. IsTree a.root };
}

// The name of a path that is a folder's path and one name more.
fn name_in<'a>(folder: &[NodeName], path: &[&'a NodeName]) -> Option<&'a NodeName>
    ensures { option_copied result ≡ name_in folder.now (shown_names path.now) }
{
    let Some((name, names)) = path.split_first() else {
        return None;
    };
    let Some((first, others)) = folder.split_first() else {
        if names.is_empty() {
            return Some(*name);
        }
        return None;
    };
    if first == *name {
        name_in(others, names)
    } else {
        None
    }
}

impl Tree {
    /// The root alone, which nothing has changed.
    pub fn empty(alloc: Global) -> Result<Tree, AllocError>
        ensures { IfOk result (λ t. (q : Path) → map.get t q ≡ alone new_dir q) }
    {
        Ok(Tree {
            root: Branch::leaf(alloc, Node::new_dir()),
        })
    }

    /// The same tree for another owner.
    pub fn share(&self) -> Result<Tree, AllocError>
        ensures { IfOk result (λ t. t ≡ self.now) }
    {
        Ok(Tree {
            root: self.root.share()?,
        })
    }

    /// Does nothing: its contract says what each tree is.
    pub fn is_tree(&self)
        ensures { IsTree self.now }
    {
        let _ = &self.root;
    }

    /// The node at a path.
    pub fn get(&self, path: &[NodeName]) -> Option<&Node>
        ensures { option_copied result ≡ map.get self.now path.now }
    {
        match self.root.find(path) {
            Some(branch) => Some(branch.node()),
            None => None,
        }
    }

    /// Every path with its node, in path order. No text or property is copied.
    pub fn list(&self, alloc: Global) -> Result<Vec<Entry<'_>>, AllocError>
        ensures { IfOk result (λ es. shown es.items ≡ map.entries self.now) }
    {
        let mut above = Vec::new(alloc);
        let mut out = Vec::new(alloc);
        self.root.list_into(alloc, &mut above, &mut out)?;
        Ok(out)
    }

    /// What stands right below a path: each child's name with its node, in the order of the names. There are none where
    /// nothing stands at the path, or a file.
    pub fn children(
        &self,
        alloc: Global,
        path: &[NodeName],
    ) -> Result<Vec<ChildNode<'_>>, AllocError>
        ensures { IfOk result (λ cs. shown_children cs.items ≡ children_of path.now self.now) }
    {
        let all = self.list(alloc)?;
        let mut found = Vec::new(alloc);
        for entry in &all {
            if let Some(name) = name_in(path, entry.path.as_slice()) {
                found.push(ChildNode {
                    name,
                    node: entry.node,
                })?;
            }
        }
        Ok(found)
    }

    /// The fault of the first proper front of a path, from the root down, that is no directory.
    pub fn blocked(&self, path: &[NodeName]) -> Option<TreeFault>
        ensures { result ≡ blocked (map.get self.now) path.now }
    {
        self.root.blocked(path)
    }

    /// Whether a copy of what stands at `source` and below it would have a path past the limits at `to`.
    pub fn copy_is_too_long(&self, source: &[NodeName], to: &[NodeName]) -> bool
        ensures { result ≡ copy_too_long self.now source.now to.now }
    {
        match self.root.find(source) {
            Some(branch) => branch.exceeds_behind(to, 0, 0),
            None => false,
        }
    }

    /// Gives the number to each front of a path that is there, the path itself too.
    pub fn mark(
        &mut self,
        _alloc: Global,
        path: &[NodeName],
        number: RevNo,
    ) -> Result<(), AllocError>
        ensures ok { OnOk result ((q : Path) → map.get self.new q ≡ marked (map.get self.old) path.now number q) }
        ensures err { OnErr result (self.new ≡ self.old) }
    {
        self.root.mark(path, number);
        Ok(())
    }

    /// Puts one node in the place of what stands at a path and below it.
    pub fn put_node(&mut self, alloc: Global, path: &NodePath, node: Node) -> Result<(), AllocError>
        requires below_root { same_path path.now [] ≡ false }
        requires not_blocked { blocked (map.get self.old) path.now ≡ None }
        ensures ok { OnOk result ((q : Path)
            → map.get self.new q ≡ grafted (map.get self.old) path.now (alone node) q) }
        ensures err { OnErr result (self.new ≡ self.old) }
    {
        let _ = path.names();
        self.graft(alloc, path, Branch::leaf(alloc, node))
    }

    /// Puts a copy of what stands at `source` of a tree, and below it, in the place of what stands at a path and
    /// below it.
    pub fn graft_copy(
        &mut self,
        alloc: Global,
        path: &NodePath,
        from: &Tree,
        source: &[NodeName],
    ) -> Result<(), AllocError>
        requires below_root { same_path path.now [] ≡ false }
        requires not_blocked { blocked (map.get self.old) path.now ≡ None }
        requires there { IsSome (map.get from.now source.now) }
        requires small { copy_too_long from.now source.now path.now ≡ false }
        ensures ok { OnOk result ((q : Path)
            → map.get self.new q ≡ grafted (map.get self.old) path.now
            (λ r. map.get from.now (source.now ++ r)) q) }
        ensures err { OnErr result (self.new ≡ self.old) }
    {
        let Some(branch) = from.root.find(source) else {
            unreachable!()
        };
        self.graft(alloc, path, branch.share()?)
    }

    /// Removes what stands at a path and below it.
    pub fn prune(&mut self, _alloc: Global, path: &[NodeName]) -> Result<(), AllocError>
        requires { same_path path.now [] ≡ false }
        ensures ok { OnOk result ((q : Path)
            → map.get self.new q ≡ grafted (map.get self.old) path.now (λ _. None) q) }
        ensures err { OnErr result (self.new ≡ self.old) }
    {
        let Some((name, above)) = path.split_last() else {
            unreachable!()
        };
        self.root.prune(above, name);
        Ok(())
    }

    /// Gives the node at a path a text and properties, where they are given.
    pub fn put_parts(
        &mut self,
        _alloc: Global,
        path: &[NodeName],
        text: Option<Text>,
        props: Option<Props>,
    ) -> Result<(), AllocError>
        requires { IsSome text → ¬ IsDirAt (map.get self.old) path.now }
        ensures ok { OnOk result ((q : Path)
            → map.get self.new q ≡ changed_at (map.get self.old) path.now (with_given text props) q) }
        ensures err { OnErr result (self.new ≡ self.old) }
    {
        self.root.put_parts(path, text, props);
        Ok(())
    }

    // Puts a branch in the place of what stands at a path and below it.
    fn graft(&mut self, alloc: Global, path: &NodePath, branch: Branch) -> Result<(), AllocError>
        requires below_root { same_path path.now [] ≡ false }
        requires not_blocked { blocked (map.get self.old) path.now ≡ None }
        requires fronts { HasFronts (map.get branch) }
        requires small { (r : Path) → IsSome (map.get branch r) → fits (path.now ++ r) ≡ true }
        ensures ok { OnOk result ((q : Path)
            → map.get self.new q ≡ grafted (map.get self.old) path.now (map.get branch) q) }
        ensures err { OnErr result (self.new ≡ self.old) }
    {
        let Some((name, above)) = path.names().split_last() else {
            unreachable!()
        };
        let name = name.copy(alloc)?;
        self.root.graft(above, name, branch)
    }
}
