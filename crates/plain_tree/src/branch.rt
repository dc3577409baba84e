//! A node with what is below it, each child owned by its parent.
ghost use Rattle.std.specs.Prelude.{◌≡◌, ℕ, ◌+◌, ◌<◌, ◌≤◌, ◌++◌, ◌∷◌, List, [], length};
ghost use Rattle.std.specs.Prelude.{IfOk, IfErr, OnOk, OnErr, Some, None, IsSome, MatchOption, slice_index_or, not};
ghost use Rattle.std.specs.Option.{option_copied};
ghost use Rattle.std.specs.FinMap as map;
ghost use Rattle.node_base.specs.Path.{Path};
ghost use Rattle.node_base.specs.Limits.{fits_after};
ghost use Rattle.std.specs.List.{list_any};
ghost use Rattle.path_tree.specs.Joined.{under};
ghost use Rattle.path_tree.specs.Listed.{shown, shown_names};
ghost use Rattle.node_base.specs.Tree.{grafted, marked, changed_at, with_given, blocked};

use crate::places::place_of;
use node_base::{Node, NodeName, Props, RevNo, Text, TreeFault};
use path_tree::Entry;
use std::alloc::{AllocError, Global};
use std::marker::Model;

#[derive(Drop)]
pub struct Branch {
    node: Node,
    children: Vec<(NodeName, Branch)>,
}

impl Model for Branch {
    ghost use Rattle.node_base.specs.Tree.{PathMap, coded_tree};

    ghost Value = { PathMap };

    ghost coded = { coded_tree };

    ghost use Rattle.std.specs.FinMap as map;
    ghost use Rattle.path_tree.specs.Joined.{joined, AreChildren};

    ghost view = { λ a. joined a.node a.children.items };

    ghost invariant = { λ a. AreChildren a.children.items };

    ghost size = { map.len };

    ghost use Rattle.path_tree.specs.JoinedLemmas.{most_lt-joined};

    ghost size_decreases = { λ a h. most_lt-joined a.node a.children.items h };
}

impl Branch {
    pub fn leaf(alloc: Global, node: Node) -> Branch
        ensures { result ≡ map.insert map.empty [] node }
    {
        Branch {
            node,
            children: Vec::new(alloc),
        }
    }

    pub fn node(&self) -> &Node
        ensures { map.get self.now [] ≡ Some result.now }
    {
        &self.node
    }

    /// What stands at a path and below it.
    pub fn find(&self, path: &[NodeName]) -> Option<&Branch>
        ensures { MatchOption result ((q : Path) → map.get self.now (path.now ++ q) ≡ None) (λ b. (q : Path)
            → map.get b.now q ≡ map.get self.now (path.now ++ q)) }
    {
        match path {
            [] => Some(self),
            [first, rest @ ..] => match place_of(&self.children, first) {
                Ok(i) => {
                    let child = &self.children[i];
                    child.1.find(rest)
                }
                Err(_) => None,
            },
        }
    }

    /// Puts a branch in the place of what stands at a path and below it.
    pub fn graft(
        &mut self,
        above: &[NodeName],
        name: NodeName,
        branch: Branch,
    ) -> Result<(), AllocError>
        requires { IsSome (map.get self.old above.now) }
        ensures ok { OnOk result ((q : Path)
            → map.get self.new q ≡ grafted (map.get self.old) (above.now ++ name ∷ []) (map.get branch) q) }
        ensures err { OnErr result (self.new ≡ self.old) }
    {
        match above {
            [] => match place_of(&self.children, &name) {
                Ok(i) => {
                    drop(name);
                    let child = &mut self.children[i];
                    child.1 = branch;
                    Ok(())
                }
                Err(i) => Ok(self.children.insert(i, (name, branch))?),
            },
            [first, rest @ ..] => match place_of(&self.children, first) {
                Ok(i) => {
                    let child = &mut self.children[i];
                    child.1.graft(rest, name, branch)
                }
                Err(_) => unreachable!(),
            },
        }
    }

    /// Removes what stands at a path and below it.
    pub fn prune(&mut self, above: &[NodeName], name: &NodeName)
        ensures { (q : Path) → map.get self.new q
            ≡ grafted (map.get self.old) (above.now ++ name.now ∷ []) (λ _. None) q }
    {
        match above {
            [] => {
                if let Ok(i) = place_of(&self.children, name) {
                    let _ = self.children.remove(i);
                }
            }
            [first, rest @ ..] => {
                if let Ok(i) = place_of(&self.children, first) {
                    let child = &mut self.children[i];
                    child.1.prune(rest, name);
                }
            }
        }
    }

    /// Gives the number to each front of a path that is there.
    pub fn mark(&mut self, path: &[NodeName], number: RevNo)
        ensures { (q : Path) → map.get self.new q ≡ marked (map.get self.old) path.now number q }
    {
        self.node.changed = number;
        match path {
            [] => {}
            [first, rest @ ..] => match place_of(&self.children, first) {
                Ok(i) => {
                    let child = &mut self.children[i];
                    child.1.mark(rest, number);
                }
                Err(_) => {}
            },
        }
    }

    /// Gives the node at a path a text and properties, where they are given.
    pub fn put_parts(&mut self, path: &[NodeName], text: Option<Text>, props: Option<Props>)
        ensures { (q : Path) → map.get self.new q
            ≡ changed_at (map.get self.old) path.now (with_given text props) q }
    {
        match path {
            [] => self.node.put_parts(text, props),
            [first, rest @ ..] => match place_of(&self.children, first) {
                Ok(i) => {
                    let child = &mut self.children[i];
                    child.1.put_parts(rest, text, props);
                }
                Err(_) => {}
            },
        }
    }

    /// The same branch for another owner. Texts and properties are shared.
    pub fn share(&self) -> Result<Branch, AllocError>
        ensures { IfOk result (λ b. b ≡ self.now) }
    {
        let alloc = *self.children.allocator();
        let node = self.node.share()?;
        let mut children = Vec::with_capacity(alloc, self.children.len())?;
        for (name, child) in &self.children {
            children.push((name.copy(alloc)?, child.share()?))?;
        }
        Ok(Branch { node, children })
    }

    /// The fault of the first proper front of a path, from the root down, that is no directory.
    pub fn blocked(&self, path: &[NodeName]) -> Option<TreeFault>
        ensures { result ≡ blocked (map.get self.now) path.now }
    {
        match path {
            [] => None,
            [first, rest @ ..] => {
                if self.node.text.is_some() {
                    return Some(TreeFault::NotDir);
                }
                match place_of(&self.children, first) {
                    Ok(i) => {
                        let child = &self.children[i];
                        child.1.blocked(rest)
                    }
                    Err(_) => {
                        if rest.is_empty() {
                            None
                        } else {
                            Some(TreeFault::NoSuchPath)
                        }
                    }
                }
            }
        }
    }

    /// Whether some path here is too long behind so many names of such a weight.
    pub fn exceeds(&self, names: usize, bytes: usize) -> bool
        ensures { result ≡ list_any (λ k. not (fits_after names bytes k)) (map.keys self.now) }
    {
        let _ = &self.node;
        if names > 64 || bytes > 1025 {
            return true;
        }
        for (name, child) in &self.children {
            if child.exceeds(names + 1, bytes + name.len() + 1) {
                return true;
            }
        }
        false
    }

    /// Whether some path here is too long behind a path that follows so many names of such a weight.
    pub fn exceeds_behind(&self, path: &[NodeName], names: usize, bytes: usize) -> bool
        ensures { result ≡ list_any (λ k. not (fits_after names bytes (path.now ++ k))) (map.keys self.now) }
    {
        let _ = &self.node;
        match path {
            [] => self.exceeds(names, bytes),
            [first, rest @ ..] => {
                if names > 64 || bytes > 1025 {
                    return true;
                }
                self.exceeds_behind(rest, names + 1, bytes + first.len() + 1)
            }
        }
    }

    /// Adds each node with its path, in path order. The path's names stand behind those above it, which come back
    /// as they were.
    pub fn list_into<'a>(
        &'a self,
        alloc: Global,
        above: &mut Vec<&'a NodeName>,
        out: &mut Vec<Entry<'a>>,
    ) -> Result<(), AllocError>
        ensures listed { OnOk result (shown out.new.items
            ≡ shown out.old.items ++ under (shown_names above.old.items) (map.entries self.now)) }
        ensures above { OnOk result (shown_names above.new.items ≡ shown_names above.old.items) }
    {
        let mut path = Vec::with_capacity(alloc, above.len())?;
        for name in above.iter() {
            path.push(*name)?;
        }
        out.push(Entry {
            path,
            node: &self.node,
        })?;
        for child in &self.children {
            above.push(&child.0)?;
            child.1.list_into(alloc, above, out)?;
            let _ = above.pop();
        }
        Ok(())
    }
}
