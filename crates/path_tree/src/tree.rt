//! Whole trees, whose owners share what they have in common.
ghost use Rattle.std.specs.Prelude.{◌≡◌, ◌++◌, [], true, false, IfOk, OnOk, OnErr, IsSome, IfSome, None};
ghost use Rattle.std.specs.Option.{option_copied};
ghost use Rattle.std.specs.List.{flat_map};
ghost use Rattle.std.specs.FinMap as map;
ghost use Rattle.node_base.specs.Path.{Path, same_path};
ghost use Rattle.node_base.specs.Limits.{fits};
ghost use Rattle.node_base.specs.PathText.{is_path};
ghost use Rattle.node_base.specs.Tree.{grafted, marked, HasFronts, IsDirAt, IsTree, blocked};
ghost use Rattle.node_base.specs.Tree.{alone, new_dir};
ghost use Rattle.path_tree.specs.Calls.{added, changed, copied, removed};
ghost use Rattle.path_tree.specs.Children.{children_of};
ghost use Rattle.path_tree.specs.Copies.{copy_too_long};
ghost use Rattle.path_tree.specs.Edits.{edit_at, marked_by};
ghost use Rattle.path_tree.specs.Listed.{shown};
ghost use Rattle.path_tree.specs.Nodes.{IsNode, HasNodes, IsSmallTree};
ghost use Rattle.path_tree.specs.Shape.{IsShape};
ghost use Rattle.path_tree.specs.Visited.{texts};

use crate::Entry;
use crate::branch::Branch;
use crate::child::Child;
use crate::children::Children;
use crate::edit::Edit;
use crate::limits::{node_limits, path_limits, props_limits, text_limits};
use crate::visit::Visitor;
use node_base::{Node, NodeName, NodePath, Props, RevNo, Text, TreeFault};
use std::alloc::{AllocError, Global};
use std::marker::Model;
use std::sync::Arc;

/// The nodes of a revision, seen by contracts as a finite map from paths to nodes: the root is a directory, and so
/// is each proper front of a path that is there. Paths, properties and texts are within their limits.
#[derive(Drop)]
pub struct Tree {
    root: Arc<Branch>,
}

impl Model for Tree {
    ghost use Rattle.node_base.specs.Tree.{PathMap, coded_tree};
    ghost use Rattle.std.specs.Arc.{arc_value};
    ghost use Rattle.path_tree.specs.Nodes.{IsSmallTree};

    ghost Value = { PathMap };

    ghost coded = { coded_tree };

    ghost view = { λ a. arc_value a.root };

    ghost invariant = { λ a. IsSmallTree (arc_value a.root) };
}

impl Tree {
    /// The root alone, which nothing has changed.
    pub fn empty(alloc: Global) -> Result<Tree, AllocError>
        ensures { IfOk result (λ t. (q : Path) → map.get t q ≡ alone new_dir q) }
    {
        Ok(Tree {
            root: Arc::new(alloc, Branch::leaf(Node::new_dir()))?,
        })
    }

    /// The same tree for another owner, with no copy of a node.
    pub fn share(&self) -> Result<Tree, AllocError>
        ensures { IfOk result (λ t. t ≡ self.now) }
    {
        Ok(Tree {
            root: Arc::try_clone(&self.root)?,
        })
    }

    /// Does nothing: its contract says what each tree is.
    pub fn is_tree(&self)
        ensures { IsTree self.now }
    {
        let _ = &self.root;
    }

    /// Does nothing: its contract says that each path and each node is within the limits.
    pub fn limits(&self)
        ensures { IsSmallTree self.now }
    {
        let _ = &self.root;
    }

    /// The node at a path.
    pub fn get(&self, path: &[NodeName]) -> Option<&Node>
        ensures { option_copied result ≡ map.get self.now path.now }
    {
        match self.root.find(path) {
            Some(branch) => Some(branch.node()),
            None => None,
        }
    }

    /// What stands right below a path: each child's name with its node, in the order of the names. Only these
    /// children are gone through. There are none where nothing stands at the path, or a file.
    pub fn children(&self, alloc: Global, path: &[NodeName]) -> Result<Children<'_>, AllocError>
        ensures { IfOk result (λ c. c ≡ children_of path.now self.now) }
    {
        match self.root.children_at(path) {
            Some(row) => Children::of(alloc, row),
            None => Ok(Children::none(alloc)),
        }
    }

    /// Every path with its node, in path order. No text or property is copied.
    pub fn list(&self, alloc: Global) -> Result<Vec<Entry<'_>>, AllocError>
        ensures { IfOk result (λ es. shown es.items ≡ map.entries self.now) }
    {
        let mut above = Vec::new(alloc);
        let mut out = Vec::new(alloc);
        self.root.list_into(alloc, &mut above, &mut out)?;
        Ok(out)
    }

    /// Shows every path's text with its node, in path order. It wants memory for the text of one path alone.
    pub fn visit_nodes<V: Visitor>(&self, alloc: Global, visitor: &mut V) -> Result<(), AllocError>
        ensures { OnOk result (V.said visitor.new ≡ V.said visitor.old ++ flat_map V.line (texts [] (map.entries self.now))) }
    {
        let mut above = Vec::new(alloc);
        self.root.visit_into(&mut above, visitor)
    }

    /// The fault of the first proper front of a path, from the root down, that is no directory.
    pub fn blocked(&self, path: &[NodeName]) -> Option<TreeFault>
        ensures { result ≡ blocked (map.get self.now) path.now }
    {
        self.root.blocked(path)
    }

    /// Whether a copy of what stands at `source` and below it would have a path past the limits at `to`.
    pub fn copy_is_too_long(&self, source: &[NodeName], to: &[NodeName]) -> bool
        ensures { result ≡ copy_too_long self.now source.now to.now }
    {
        match self.root.find(source) {
            Some(branch) => branch.exceeds_behind(to, 0, 0),
            None => false,
        }
    }

    /// Gives the number to each front of a path that is there, the path itself too.
    pub fn mark(
        &mut self,
        alloc: Global,
        path: &[NodeName],
        number: RevNo,
    ) -> Result<(), AllocError>
        ensures ok { OnOk result ((q : Path) → map.get self.new q ≡ marked (map.get self.old) path.now number q) }
        ensures err { OnErr result (self.new ≡ self.old) }
    {
        if let Some(root) = Arc::get_mut(&mut self.root) {
            return root.mark(alloc, path, number);
        }
        let mut root = self.root.again()?;
        root.mark(alloc, path, number)?;
        self.root = Arc::new(alloc, root)?;
        Ok(())
    }

    /// Puts one node in the place of what stands at a path and below it. Its number goes to the fronts of the path.
    pub fn put_node(&mut self, alloc: Global, path: &NodePath, node: Node) -> Result<(), AllocError>
        requires below_root { same_path path.now [] ≡ false }
        requires not_blocked { blocked (map.get self.old) path.now ≡ None }
        ensures ok { OnOk result ((q : Path) → map.get self.new q ≡ added (map.get self.old) path.now node q) }
        ensures err { OnErr result (self.new ≡ self.old) }
    {
        let _ = path.names();
        path_limits(path);
        node_limits(&node);
        let number = node.changed;
        self.graft(alloc, path, Branch::leaf(node), number)
    }

    /// Puts what stands at `source` of a tree, and below it, in the place of what stands at a path and below it. All
    /// but the top of it is shared. The number goes to the fronts of the path, and to the path.
    pub fn graft_copy(
        &mut self,
        alloc: Global,
        path: &NodePath,
        from: &Tree,
        source: &[NodeName],
        number: RevNo,
    ) -> Result<(), AllocError>
        requires below_root { same_path path.now [] ≡ false }
        requires not_blocked { blocked (map.get self.old) path.now ≡ None }
        requires there { IsSome (map.get from.now source.now) }
        requires small { copy_too_long from.now source.now path.now ≡ false }
        ensures ok { OnOk result ((q : Path)
            → map.get self.new q ≡ copied (map.get self.old) path.now
            (λ r. map.get from.now (source.now ++ r)) number q) }
        ensures err { OnErr result (self.new ≡ self.old) }
    {
        let Some(branch) = from.root.find(source) else {
            unreachable!()
        };
        from.limits();
        path_limits(path);
        let mut branch = branch.again()?;
        branch.number(Some(number));
        self.graft(alloc, path, branch, number)
    }

    /// Removes what stands at a path and below it. The number goes to the proper fronts of the path that are there.
    pub fn prune(
        &mut self,
        alloc: Global,
        path: &[NodeName],
        number: RevNo,
    ) -> Result<(), AllocError>
        requires { same_path path.now [] ≡ false }
        ensures ok { OnOk result ((q : Path)
            → map.get self.new q ≡ removed (map.get self.old) path.now number q) }
        ensures err { OnErr result (self.new ≡ self.old) }
    {
        let _ = &self.root;
        let Some((name, above)) = path.split_last() else {
            unreachable!()
        };
        let Some(_) = self.get(above) else {
            return self.mark(alloc, path, number);
        };
        let name = name.copy(alloc)?;
        self.alter(alloc, above, &Edit::Prune(name), Some(number))
    }

    /// Gives the node at a path a text and properties, where they are given. The number goes to the path and to its
    /// fronts, where they are there.
    pub fn put_parts(
        &mut self,
        alloc: Global,
        path: &[NodeName],
        text: Option<Text>,
        props: Option<Props>,
        number: RevNo,
    ) -> Result<(), AllocError>
        requires { IsSome text → ¬ IsDirAt (map.get self.old) path.now }
        ensures ok { OnOk result ((q : Path)
            → map.get self.new q ≡ changed (map.get self.old) path.now text props number q) }
        ensures err { OnErr result (self.new ≡ self.old) }
    {
        let Some(_) = self.get(path) else {
            return self.mark(alloc, path, number);
        };
        self.put_parts_there(alloc, path, text, props, number)
    }

    /// The same of a node that is known to be there, which isn't sought once more.
    pub fn put_parts_there(
        &mut self,
        alloc: Global,
        path: &[NodeName],
        text: Option<Text>,
        props: Option<Props>,
        number: RevNo,
    ) -> Result<(), AllocError>
        requires text { IsSome text → ¬ IsDirAt (map.get self.old) path.now }
        requires there { IsSome (map.get self.old path.now) }
        ensures ok { OnOk result ((q : Path)
            → map.get self.new q ≡ changed (map.get self.old) path.now text props number q) }
        ensures err { OnErr result (self.new ≡ self.old) }
    {
        let _ = &self.root;
        text_limits(&text);
        props_limits(&props);
        self.alter(alloc, path, &Edit::Parts(text, props), Some(number))
    }

    // Puts a branch in the place of what stands at a path and below it, and a number on the fronts of the path.
    fn graft(
        &mut self,
        alloc: Global,
        path: &NodePath,
        branch: Branch,
        number: RevNo,
    ) -> Result<(), AllocError>
        requires below_root { same_path path.now [] ≡ false }
        requires not_blocked { blocked (map.get self.old) path.now ≡ None }
        requires fronts { HasFronts (map.get branch) }
        requires small { (r : Path) → IsSome (map.get branch r) → fits (path.now ++ r) ≡ true }
        requires paths { (r : Path) → IsSome (map.get branch r) → is_path (path.now ++ r) ≡ true }
        requires nodes { (r : Path) → IfSome (map.get branch r) IsNode }
        ensures ok { OnOk result ((q : Path)
            → map.get self.new q ≡ grafted (marked (map.get self.old) path.now number) path.now (map.get branch) q) }
        ensures err { OnErr result (self.new ≡ self.old) }
    {
        let _ = &self.root;
        let Some((name, above)) = path.names().split_last() else {
            unreachable!()
        };
        let child = Child::new(alloc, name.copy(alloc)?, branch)?;
        self.alter(alloc, above, &Edit::Graft(child), Some(number))
    }

    // Edits the node at a path, and gives no number.
    pub(crate) fn edit(
        &mut self,
        alloc: Global,
        path: &[NodeName],
        edit: &Edit,
    ) -> Result<(), AllocError>
        requires there { IsSome (map.get self.old path.now) }
        requires shape { IsShape (edit_at edit.now (map.get self.old) path.now) }
        requires nodes { HasNodes (edit_at edit.now (map.get self.old) path.now) }
        ensures ok { OnOk result ((q : Path) → map.get self.new q ≡ edit_at edit.now (map.get self.old) path.now q) }
        ensures err { OnErr result (self.new ≡ self.old) }
    {
        self.alter(alloc, path, edit, None)
    }

    // Gives the number, where there is one, to each front of a path, and edits the node at the path. The nodes on the
    // path that have other owners are copied.
    pub(crate) fn alter(
        &mut self,
        alloc: Global,
        path: &[NodeName],
        edit: &Edit,
        number: Option<RevNo>,
    ) -> Result<(), AllocError>
        requires there { IsSome (map.get self.old path.now) }
        requires shape { IsShape (edit_at edit.now (marked_by number (map.get self.old) path.now) path.now) }
        requires nodes { HasNodes (edit_at edit.now (marked_by number (map.get self.old) path.now) path.now) }
        ensures ok { OnOk result ((q : Path)
            → map.get self.new q ≡ edit_at edit.now (marked_by number (map.get self.old) path.now) path.now q) }
        ensures err { OnErr result (self.new ≡ self.old) }
    {
        if let Some(root) = Arc::get_mut(&mut self.root) {
            return root.alter(alloc, path, edit, number);
        }
        let mut root = self.root.again()?;
        root.alter(alloc, path, edit, number)?;
        self.root = Arc::new(alloc, root)?;
        Ok(())
    }
}
