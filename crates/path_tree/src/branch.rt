//! A node with what is below it, each child shared by its owners.
ghost use Rattle.std.specs.Prelude.{◌≡◌, ◌++◌, ◌≤◌, [], not, IfOk, OnOk, OnErr};
ghost use Rattle.std.specs.Prelude.{IsSome, None, Some, MatchOption};
ghost use Rattle.std.specs.FinMap as map;
ghost use Rattle.std.specs.List.{list_any, flat_map};
ghost use Rattle.node_base.specs.Path.{Path};
ghost use Rattle.node_base.specs.Limits.{fits_after};
ghost use Rattle.node_base.specs.Tree.{marked, blocked, changed_at, with_given};
ghost use Rattle.node_base.specs.NodeEdits.{with_prop, with_piece};
ghost use Rattle.path_tree.specs.Children.{children_of};
ghost use Rattle.path_tree.specs.InOrder.{tops};
ghost use Rattle.path_tree.specs.Joined.{under};
ghost use Rattle.path_tree.specs.Listed.{shown, shown_names};
ghost use Rattle.path_tree.specs.Edits.{edit_here, edit_at, marked_by, renumbered};
ghost use Rattle.path_tree.specs.Reach.{reach_to};
ghost use Rattle.path_tree.specs.Rows.{in_row};
ghost use Rattle.path_tree.specs.Visited.{texts};

use crate::Entry;
use crate::edit::{Edit, copy_value, share_props, share_text};
use crate::reach::{Reach, WEIGHT};
use crate::row::{
    Row, Twig, alter_in, child_of, list_row, put_in, reach_in, shared, visit_row, with_branch,
    without,
};
use crate::visit::Visitor;
use node_base::limits::PATH_NAMES;
use node_base::{Node, NodeName, PropName, PropValue, Props, RevNo, Text, TreeFault};
use std::alloc::{AllocError, Global};
use std::marker::Model;
use std::sync::Arc;

#[cycle(tree)]
#[derive(Drop)]
pub struct Branch {
    node: Node,
    children: Option<Arc<Twig>>,
}

impl Model for Branch {
    ghost use Rattle.node_base.specs.Tree.{PathMap, coded_tree};

    ghost Value = { PathMap };

    ghost coded = { coded_tree };

    ghost use Rattle.path_tree.specs.Joined.{AreChildren, joined};
    ghost use Rattle.path_tree.specs.Rows.{in_row, branch_size};

    ghost view = { λ a. joined a.node (in_row a.children) };

    ghost invariant = { λ a. AreChildren (in_row a.children) };

    ghost size = { branch_size };

    ghost use Rattle.path_tree.specs.RowLemmas.{branch_falls};

    ghost size_decreases = { λ a h. branch_falls a h };
}

// Gives a node the number, where there is one.
fn renumber(node: &mut Node, number: &Option<RevNo>)
    ensures { node.new ≡ renumbered number.now node.old }
{
    if let Some(number) = number {
        node.changed = *number;
    }
}

impl Branch {
    /// One node with nothing below it.
    pub fn leaf(node: Node) -> Branch
        ensures { result ≡ map.insert map.empty [] node }
    {
        Branch {
            node,
            children: None,
        }
    }

    /// The same branch once more: its top is copied, and what is below it is shared.
    pub fn again(&self) -> Result<Branch, AllocError>
        ensures { IfOk result (λ b. b ≡ self.now) }
    {
        Ok(Branch {
            node: self.node.share()?,
            children: shared(&self.children)?,
        })
    }

    /// The node at its top.
    pub fn node(&self) -> &Node
        ensures { map.get self.now [] ≡ Some result.now }
    {
        &self.node
    }

    /// What stands at a path and below it.
    pub fn find(&self, path: &[NodeName]) -> Option<&Branch>
        ensures { MatchOption result ((q : Path) → map.get self.now (path.now ++ q) ≡ None) (λ b. (q : Path)
            → map.get b.now q ≡ map.get self.now (path.now ++ q)) }
    {
        match path {
            [] => Some(self),
            [first, rest @ ..] => match child_of(&self.children, first) {
                Some(child) => child.find(rest),
                None => None,
            },
        }
    }

    /// The children of what stands at a path, if something does.
    pub fn children_at(&self, path: &[NodeName]) -> Option<&Row>
        ensures { MatchOption result (children_of path.now self.now ≡ [])
            (λ r. tops (in_row r.now) ≡ children_of path.now self.now) }
    {
        match path {
            [] => Some(&self.children),
            [first, rest @ ..] => match child_of(&self.children, first) {
                Some(child) => child.children_at(rest),
                None => None,
            },
        }
    }

    /// The fault of the first proper front of a path, from the root down, that is no directory.
    pub fn blocked(&self, path: &[NodeName]) -> Option<TreeFault>
        ensures { result ≡ blocked (map.get self.now) path.now }
    {
        match path {
            [] => None,
            [first, rest @ ..] => {
                if self.node.text.is_some() {
                    return Some(TreeFault::NotDir);
                }
                // (what stands at the path itself is no matter)
                if rest.is_empty() {
                    return None;
                }
                match child_of(&self.children, first) {
                    Some(child) => child.blocked(rest),
                    None => Some(TreeFault::NoSuchPath),
                }
            }
        }
    }

    /// How far its paths reach behind a name. Its root is there at least.
    pub fn reach_behind(&self, name: &NodeName) -> Reach
        ensures reach { result ≡ reach_to (name.now, self.now) }
        ensures rooted { 1 ≤ map.len self.now }
    {
        reach_in(&self.children).behind(name)
    }

    /// Whether some path here is too long behind so many names of such a weight.
    pub fn exceeds(&self, names: usize, bytes: usize) -> bool
        ensures { result ≡ list_any (λ k. not (fits_after names bytes k)) (map.keys self.now) }
    {
        reach_in(&self.children).exceeds(names, bytes)
    }

    /// Whether some path here is too long behind a path that follows so many names of such a weight.
    pub fn exceeds_behind(&self, path: &[NodeName], names: usize, bytes: usize) -> bool
        ensures { result ≡ list_any (λ k. not (fits_after names bytes (path.now ++ k))) (map.keys self.now) }
    {
        let _ = &self.node;
        match path {
            [] => self.exceeds(names, bytes),
            [first, rest @ ..] => {
                if names > PATH_NAMES || bytes > WEIGHT {
                    return true;
                }
                self.exceeds_behind(rest, names + 1, bytes + first.len() + 1)
            }
        }
    }

    /// Gives the number to each front of a path that is there. What has other owners is copied first.
    pub fn mark(
        &mut self,
        alloc: Global,
        path: &[NodeName],
        number: RevNo,
    ) -> Result<(), AllocError>
        ensures ok { OnOk result ((q : Path) → map.get self.new q ≡ marked (map.get self.old) path.now number q) }
        ensures err { OnErr result (self.new ≡ self.old) }
    {
        match path {
            [] => {}
            [first, rest @ ..] => match child_of(&self.children, first) {
                Some(child) => {
                    let mut child = child.again()?;
                    child.mark(alloc, rest, number)?;
                    self.children = with_branch(alloc, &self.children, first, child)?;
                }
                None => {}
            },
        }
        self.node.changed = number;
        Ok(())
    }

    /// Gives the number, where there is one, to each front of a path, and edits the node at the path. What has other
    /// owners is copied first.
    #[cycle(alters)]
    pub fn alter(
        &mut self,
        alloc: Global,
        path: &[NodeName],
        edit: &Edit,
        number: Option<RevNo>,
    ) -> Result<(), AllocError>
        requires { IsSome (map.get self.old path.now) }
        ensures ok { OnOk result ((q : Path)
            → map.get self.new q ≡ edit_at edit.now (marked_by number (map.get self.old) path.now) path.now q) }
        ensures err { OnErr result (self.new ≡ self.old) }
    {
        match path {
            [] => self.alter_top(alloc, edit, number),
            [first, rest @ ..] => {
                alter_in(alloc, &mut self.children, first, rest, edit, number)?;
                renumber(&mut self.node, &number);
                Ok(())
            }
        }
    }

    // Edits the node at the top, and gives it the number, where there is one.
    fn alter_top(
        &mut self,
        alloc: Global,
        edit: &Edit,
        number: Option<RevNo>,
    ) -> Result<(), AllocError>
        ensures ok { OnOk result ((q : Path)
            → map.get self.new q ≡ edit_here edit.now (marked_by number (map.get self.old) []) q) }
        ensures err { OnErr result (self.new ≡ self.old) }
    {
        self.alter_here(alloc, edit)?;
        self.number(number);
        Ok(())
    }

    /// Gives its top the number, where there is one.
    pub fn number(&mut self, number: Option<RevNo>)
        ensures { (q : Path) → map.get self.new q ≡ marked_by number (map.get self.old) [] q }
    {
        renumber(&mut self.node, &number);
    }

    // Gives the node at the top a text and properties, where they are given. They are shared with those given.
    fn put_parts(&mut self, text: &Option<Text>, props: &Option<Props>) -> Result<(), AllocError>
        ensures ok { OnOk result ((q : Path)
            → map.get self.new q ≡ changed_at (map.get self.old) [] (with_given text.now props.now) q) }
        ensures err { OnErr result (self.new ≡ self.old) }
    {
        let text = share_text(text)?;
        let props = share_props(props)?;
        self.node.put_parts(text, props);
        Ok(())
    }

    // Puts a value at a property's name of the node at the top, or takes the one there away. A value that would
    // take the properties past their limits is no want of memory, and callers refuse it before.
    fn put_prop(
        &mut self,
        alloc: Global,
        name: &PropName,
        value: &Option<PropValue>,
    ) -> Result<(), AllocError>
        ensures ok { OnOk result ((q : Path)
            → map.get self.new q ≡ changed_at (map.get self.old) [] (with_prop name.now value.now) q) }
        ensures err { OnErr result (self.new ≡ self.old) }
    {
        let name = name.copy(alloc)?;
        let value = copy_value(alloc, value)?;
        let Ok(()) = self.node.put_prop(alloc, name, value) else {
            return Err(AllocError);
        };
        Ok(())
    }

    // Puts bytes behind the text of the node at the top. Bytes that would take the text past its limit are no want
    // of memory, and callers refuse them before.
    fn append_text(&mut self, alloc: Global, piece: &[u8]) -> Result<(), AllocError>
        ensures ok { OnOk result ((q : Path)
            → map.get self.new q ≡ changed_at (map.get self.old) [] (with_piece piece.now) q) }
        ensures err { OnErr result (self.new ≡ self.old) }
    {
        let Ok(()) = self.node.append_text(alloc, piece) else {
            return Err(AllocError);
        };
        Ok(())
    }

    // Edits the node at the top.
    fn alter_here(&mut self, alloc: Global, edit: &Edit) -> Result<(), AllocError>
        ensures ok { OnOk result ((q : Path) → map.get self.new q ≡ edit_here edit.now (map.get self.old) q) }
        ensures err { OnErr result (self.new ≡ self.old) }
    {
        match edit {
            Edit::Parts(text, props) => self.put_parts(text, props),
            Edit::Prop(name, value) => self.put_prop(alloc, name, value),
            Edit::Piece(piece) => self.append_text(alloc, piece.as_slice()),
            Edit::Graft(child) => put_in(alloc, &mut self.children, child),
            Edit::Prune(name) => {
                self.children = without(alloc, &self.children, name)?;
                Ok(())
            }
        }
    }

    /// Adds each node with its path, in path order. The path's names stand behind those above it, which come back
    /// as they were.
    #[cycle(lists)]
    pub fn list_into<'a>(
        &'a self,
        alloc: Global,
        above: &mut Vec<&'a NodeName>,
        out: &mut Vec<Entry<'a>>,
    ) -> Result<(), AllocError>
        ensures listed { OnOk result (shown out.new.items
            ≡ shown out.old.items ++ under (shown_names above.old.items) (map.entries self.now)) }
        ensures above { OnOk result (shown_names above.new.items ≡ shown_names above.old.items) }
    {
        let mut path = Vec::with_capacity(alloc, above.len())?;
        for name in above.iter() {
            path.push(*name)?;
        }
        out.push(Entry {
            path,
            node: &self.node,
        })?;
        list_row(&self.children, alloc, above, out)
    }

    /// Shows each node with its path's text, in path order. It stands behind the text above it, which comes back as
    /// it was.
    #[cycle(visits)]
    pub fn visit_into<V: Visitor>(
        &self,
        above: &mut Vec<u8>,
        visitor: &mut V,
    ) -> Result<(), AllocError>
        ensures said { OnOk result (V.said visitor.new ≡ V.said visitor.old
            ++ flat_map V.line (texts above.old.items (map.entries self.now))) }
        ensures above { OnOk result (above.new.items ≡ above.old.items) }
    {
        visitor.visit(above.as_slice(), &self.node)?;
        visit_row(&self.children, above, visitor)
    }
}
