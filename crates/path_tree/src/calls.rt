//! The calls that change a tree and refuse what cannot be.
ghost use Rattle.std.specs.Prelude.{◌≡◌, ◌++◌, Some, None, OnOk, OnErr};
ghost use Rattle.std.specs.FinMap as map;
ghost use Rattle.node_base.specs.Path.{Path};
ghost use Rattle.path_tree.specs.Calls.{Answers, add_fault, change_fault, remove_fault, text_fault, copy_fault, added};
ghost use Rattle.path_tree.specs.Calls.{changed, removed, copied};

use crate::{Tree, TreeError};
use node_base::{Node, NodePath, Props, RevNo, Text, TreeFault};
use std::alloc::Global;

impl Tree {
    /// Adds a file. Refused: the root (10), a front of the path that is absent (11) or a file (13), the first from
    /// the root down, and a path that is there (12).
    pub fn put_file(
        &mut self,
        alloc: Global,
        path: &NodePath,
        text: Text,
        props: Props,
        number: RevNo,
    ) -> Result<(), TreeError>
        ensures answer { Answers (add_fault (map.get self.old) path.now) result }
        ensures ok { OnOk result ((q : Path)
            → map.get self.new q ≡ added (map.get self.old) path.now
            (record { text = Some text; props = props; changed = number }) q) }
        ensures err { OnErr result (self.new ≡ self.old) }
    {
        self.add(
            alloc,
            path,
            Node {
                text: Some(text),
                props,
                changed: number,
            },
        )
    }

    /// Adds a directory. Refused as a file is.
    pub fn put_dir(
        &mut self,
        alloc: Global,
        path: &NodePath,
        props: Props,
        number: RevNo,
    ) -> Result<(), TreeError>
        ensures answer { Answers (add_fault (map.get self.old) path.now) result }
        ensures ok { OnOk result ((q : Path)
            → map.get self.new q ≡ added (map.get self.old) path.now
            (record { text = None; props = props; changed = number }) q) }
        ensures err { OnErr result (self.new ≡ self.old) }
    {
        self.add(
            alloc,
            path,
            Node {
                text: None,
                props,
                changed: number,
            },
        )
    }

    /// Puts properties in the place of a node's. Refused: a front of the path that is absent (11) or a file (13),
    /// and a path that is absent (11).
    pub fn set_props(
        &mut self,
        alloc: Global,
        path: &NodePath,
        props: Props,
        number: RevNo,
    ) -> Result<(), TreeError>
        ensures answer { Answers (change_fault (map.get self.old) path.now) result }
        ensures ok { OnOk result ((q : Path)
            → map.get self.new q ≡ changed (map.get self.old) path.now None (Some props) number q) }
        ensures err { OnErr result (self.new ≡ self.old) }
    {
        if let Some(fault) = self.change_fault(path) {
            return Err(TreeError::Fault(fault));
        }
        Ok(self.put_parts(alloc, path.names(), None, Some(props), number)?)
    }

    /// Puts a text in the place of a file's. Refused as properties are, and then a directory (17).
    pub fn set_text(
        &mut self,
        alloc: Global,
        path: &NodePath,
        text: Text,
        number: RevNo,
    ) -> Result<(), TreeError>
        ensures answer { Answers (text_fault (map.get self.old) path.now) result }
        ensures ok { OnOk result ((q : Path)
            → map.get self.new q ≡ changed (map.get self.old) path.now (Some text) None number q) }
        ensures err { OnErr result (self.new ≡ self.old) }
    {
        if let Some(fault) = self.text_fault(path) {
            return Err(TreeError::Fault(fault));
        }
        Ok(self.put_parts(alloc, path.names(), Some(text), None, number)?)
    }

    /// Removes a node and what is below it. Refused: the root (10), and else as properties are.
    pub fn remove(&mut self, alloc: Global, path: &NodePath, number: RevNo) -> Result<(), TreeError>
        ensures answer { Answers (remove_fault (map.get self.old) path.now) result }
        ensures ok { OnOk result ((q : Path) → map.get self.new q ≡ removed (map.get self.old) path.now number q) }
        ensures err { OnErr result (self.new ≡ self.old) }
    {
        if let Some(fault) = self.remove_fault(path) {
            return Err(TreeError::Fault(fault));
        }
        Ok(self.prune(alloc, path.names(), number)?)
    }

    /// Copies what stands at `source` of a tree, and below it, to a new path. Refused: as a new file is, then a
    /// source that is absent (14), then a path past the limits (8).
    pub fn copy_in(
        &mut self,
        alloc: Global,
        path: &NodePath,
        from: &Tree,
        source: &NodePath,
        number: RevNo,
    ) -> Result<(), TreeError>
        ensures answer { Answers (copy_fault (map.get self.old) path.now from.now source.now) result }
        ensures ok { OnOk result ((q : Path)
            → map.get self.new q ≡ copied (map.get self.old) path.now
            (λ r. map.get from.now (source.now ++ r)) number q) }
        ensures err { OnErr result (self.new ≡ self.old) }
    {
        if let Some(fault) = self.copy_fault(path, from, source) {
            return Err(TreeError::Fault(fault));
        }
        Ok(self.graft_copy(alloc, path, from, source.names(), number)?)
    }

    // Adds one node.
    fn add(&mut self, alloc: Global, path: &NodePath, node: Node) -> Result<(), TreeError>
        ensures answer { Answers (add_fault (map.get self.old) path.now) result }
        ensures ok { OnOk result ((q : Path) → map.get self.new q ≡ added (map.get self.old) path.now node q) }
        ensures err { OnErr result (self.new ≡ self.old) }
    {
        if let Some(fault) = self.add_fault(path) {
            return Err(TreeError::Fault(fault));
        }
        Ok(self.put_node(alloc, path, node)?)
    }

    fn add_fault(&self, path: &NodePath) -> Option<TreeFault>
        ensures { result ≡ add_fault (map.get self.now) path.now }
    {
        if path.is_root() {
            return Some(TreeFault::BadPath);
        }
        if let Some(fault) = self.blocked(path.names()) {
            return Some(fault);
        }
        match self.get(path.names()) {
            Some(_) => Some(TreeFault::PathThere),
            None => None,
        }
    }

    pub(crate) fn change_fault(&self, path: &NodePath) -> Option<TreeFault>
        ensures { result ≡ change_fault (map.get self.now) path.now }
    {
        if let Some(fault) = self.blocked(path.names()) {
            return Some(fault);
        }
        match self.get(path.names()) {
            Some(_) => None,
            None => Some(TreeFault::NoSuchPath),
        }
    }

    fn remove_fault(&self, path: &NodePath) -> Option<TreeFault>
        ensures { result ≡ remove_fault (map.get self.now) path.now }
    {
        if path.is_root() {
            return Some(TreeFault::BadPath);
        }
        self.change_fault(path)
    }

    pub(crate) fn text_fault(&self, path: &NodePath) -> Option<TreeFault>
        ensures { result ≡ text_fault (map.get self.now) path.now }
    {
        if let Some(fault) = self.change_fault(path) {
            return Some(fault);
        }
        match self.get(path.names()) {
            Some(Node { text: None, .. }) => Some(TreeFault::KindMismatch),
            _ => None,
        }
    }

    fn copy_fault(&self, path: &NodePath, from: &Tree, source: &NodePath) -> Option<TreeFault>
        ensures { result ≡ copy_fault (map.get self.now) path.now from.now source.now }
    {
        if let Some(fault) = self.add_fault(path) {
            return Some(fault);
        }
        if from.get(source.names()).is_none() {
            return Some(TreeFault::NoSource);
        }
        if from.copy_is_too_long(source.names(), path.names()) {
            return Some(TreeFault::TooLong);
        }
        None
    }
}
