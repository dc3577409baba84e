//! The tree that a working copy has, report by report.
ghost use Rattle.std.specs.Prelude.{◌≡◌, [], true, false, None, IfOk, OnErr, IsSome};
ghost use Rattle.std.specs.FinMap as map;
ghost use Rattle.node_base.specs.Path.{same_path};
ghost use Rattle.node_base.specs.Tree.{alone, blocked, new_dir};
ghost use Rattle.path_tree.specs.Copies.{copy_too_long};
ghost use Rattle.tree_reports.specs.declared.error.ReportError.TheVariants.{Root};
ghost use Rattle.tree_reports.specs.Applied.{content};
ghost use Rattle.tree_reports.specs.Reports.{Answers, brought, brought_within, due, emptied, leave_fault, report_fault};
ghost use Rattle.tree_reports.specs.Reports.{bare};
ghost use Rattle.tree_reports.specs.Trees.{Makes, Reports};

use crate::depth::Depth;
use crate::error::ReportError;
use crate::limit::limited;
use node_base::{Node, NodePath, RevNo};
use path_tree::Tree;
use std::alloc::{AllocError, Global};
use std::marker::Model;

/// What a working copy has below its folder, seen by contracts as the map of its nodes. It begins as a tree that the
/// folder was reported to be; a later report says what is at a path and below it, whatever was reported there before.
/// Nothing is copied: the trees share their nodes. The nodes' numbers mean nothing here.
#[derive(Drop)]
pub struct Report {
    tree: Tree,
}

impl Model for Report {
    ghost use Rattle.node_base.specs.Tree.{PathMap, coded_tree};

    ghost Value = { PathMap };

    ghost coded = { coded_tree };

    ghost view = { λ a. a.tree };
}

impl Report {
    /// The folder as it is in a tree.
    pub fn begin(tree: Tree) -> Report
        ensures { result ≡ tree }
    {
        Report { tree }
    }

    /// A folder without what is in it and without properties, as it is where the working copy begins empty.
    pub fn begin_empty(alloc: Global) -> Result<Report, AllocError>
        ensures { Makes (alone new_dir) result }
    {
        Ok(Report {
            tree: Tree::empty(alloc)?,
        })
    }

    /// The tree that was reported so far.
    pub fn tree(&self) -> &Tree
        ensures { result.now ≡ self.now }
    {
        &self.tree
    }

    /// Reports that the working copy has at a path what stands at `source` of a revision's tree and below it, whatever
    /// was reported there before. Where it begins `empty`, a folder there has no entries and no properties. The source
    /// is where the path lies in the repository, and at a switched path another. Paths come in any order: Subversion's
    /// client reports the entries of a folder by the order of a hash table. Refused: the root, then a path above which
    /// no folder was reported, then a source that isn't there, then paths past the limits.
    pub fn set_path(
        &mut self,
        alloc: Global,
        path: &NodePath,
        from: &Tree,
        source: &NodePath,
        empty: bool,
    ) -> Result<(), ReportError>
        ensures answer { Answers (report_fault self.old path.now from.now source.now empty) result }
        ensures ok { Reports self.old self.new path.now (brought empty from.now source.now) result }
        ensures err { OnErr result (self.new ≡ self.old) }
    {
        if let Some(fault) = self.fault(path, from, source, empty) {
            return Err(fault);
        }
        if empty {
            return Ok(self.put_emptied(alloc, path, from, source)?);
        }
        Ok(self.graft(alloc, path, from, source)?)
    }

    /// The same of a path that is looked at so deep.
    pub fn set_path_within(
        &mut self,
        alloc: Global,
        path: &NodePath,
        from: &Tree,
        source: &NodePath,
        depth: Depth,
    ) -> Result<(), ReportError>
        ensures answer { Answers (report_fault self.old path.now from.now source.now false) result }
        ensures ok { Reports self.old self.new path.now (brought_within depth from.now source.now) result }
        ensures err { OnErr result (self.new ≡ self.old) }
    {
        if let Some(fault) = self.fault(path, from, source, false) {
            return Err(fault);
        }
        Ok(self.graft_within(alloc, path, from, source, depth)?)
    }

    /// Reports that the working copy leaves a path out: a bare folder stands there. Refused: the root, then a path
    /// above which no folder was reported.
    pub fn leave_out(&mut self, alloc: Global, path: &NodePath) -> Result<(), ReportError>
        ensures answer { Answers (leave_fault self.old path.now) result }
        ensures ok { Reports self.old self.new path.now bare result }
        ensures err { OnErr result (self.new ≡ self.old) }
    {
        if let Some(fault) = self.place_fault(path) {
            return Err(fault);
        }
        Ok(self.put_bare(alloc, path)?)
    }

    /// Reports that the working copy has nothing at a path. Refused: the root.
    pub fn delete_path(&mut self, alloc: Global, path: &NodePath) -> Result<(), ReportError>
        ensures answer { Answers (due (same_path path.now []) Root) result }
        ensures ok { Reports self.old self.new path.now (λ _. None) result }
        ensures err { OnErr result (self.new ≡ self.old) }
    {
        if path.is_root() {
            return Err(ReportError::Root);
        }
        Ok(self.prune(alloc, path)?)
    }

    fn fault(
        &self,
        path: &NodePath,
        from: &Tree,
        source: &NodePath,
        empty: bool,
    ) -> Option<ReportError>
        ensures { result ≡ report_fault self.now path.now from.now source.now empty }
    {
        if let Some(fault) = self.place_fault(path) {
            return Some(fault);
        }
        if from.get(source.names()).is_none() {
            return Some(ReportError::NotThere);
        }
        if !empty && from.copy_is_too_long(source.names(), path.names()) {
            return Some(ReportError::TooLong);
        }
        None
    }

    // Why nothing is put at a path.
    fn place_fault(&self, path: &NodePath) -> Option<ReportError>
        ensures { result ≡ leave_fault self.now path.now }
    {
        if path.is_root() {
            return Some(ReportError::Root);
        }
        if self.tree.blocked(path.names()).is_some() {
            return Some(ReportError::NoFolder);
        }
        None
    }

    // Puts what stands at the source and below it.
    fn graft(
        &mut self,
        alloc: Global,
        path: &NodePath,
        from: &Tree,
        source: &NodePath,
    ) -> Result<(), AllocError>
        requires below_root { same_path path.now [] ≡ false }
        requires not_blocked { blocked (map.get self.old) path.now ≡ None }
        requires there { IsSome (map.get from.now source.now) }
        requires small { copy_too_long from.now source.now path.now ≡ false }
        ensures ok { Reports self.old self.new path.now (brought false from.now source.now) result }
        ensures err { OnErr result (self.new ≡ self.old) }
    {
        let Some(node) = from.get(source.names()) else {
            unreachable!()
        };
        self.tree
            .graft_copy(alloc, path, from, source.names(), node.changed)
    }

    // Puts what is looked at of the source and of what is below it.
    fn graft_within(
        &mut self,
        alloc: Global,
        path: &NodePath,
        from: &Tree,
        source: &NodePath,
        depth: Depth,
    ) -> Result<(), AllocError>
        requires below_root { same_path path.now [] ≡ false }
        requires not_blocked { blocked (map.get self.old) path.now ≡ None }
        requires there { IsSome (map.get from.now source.now) }
        requires small { copy_too_long from.now source.now path.now ≡ false }
        ensures ok { Reports self.old self.new path.now (brought_within depth from.now source.now) result }
        ensures err { OnErr result (self.new ≡ self.old) }
    {
        if depth == Depth::Infinity {
            return self.graft(alloc, path, from, source);
        }
        let Some(node) = from.get(source.names()) else {
            unreachable!()
        };
        if node.text.is_some() {
            from.is_tree();
            return self.graft(alloc, path, from, source);
        }
        let taken = limited(alloc, from, source, depth)?;
        self.graft(alloc, path, &taken, &NodePath::root(alloc))
    }

    // Puts the source's node, emptied.
    fn put_emptied(
        &mut self,
        alloc: Global,
        path: &NodePath,
        from: &Tree,
        source: &NodePath,
    ) -> Result<(), AllocError>
        requires below_root { same_path path.now [] ≡ false }
        requires not_blocked { blocked (map.get self.old) path.now ≡ None }
        requires there { IsSome (map.get from.now source.now) }
        ensures ok { Reports self.old self.new path.now (brought true from.now source.now) result }
        ensures err { OnErr result (self.new ≡ self.old) }
    {
        let Some(node) = from.get(source.names()) else {
            unreachable!()
        };
        let node = emptied(node)?;
        self.tree.put_node(alloc, path, node)
    }

    // Puts a bare folder.
    fn put_bare(&mut self, alloc: Global, path: &NodePath) -> Result<(), AllocError>
        requires below_root { same_path path.now [] ≡ false }
        requires not_blocked { blocked (map.get self.old) path.now ≡ None }
        ensures ok { Reports self.old self.new path.now bare result }
        ensures err { OnErr result (self.new ≡ self.old) }
    {
        self.tree.put_node(alloc, path, Node::new_dir())
    }

    fn prune(&mut self, alloc: Global, path: &NodePath) -> Result<(), AllocError>
        requires { same_path path.now [] ≡ false }
        ensures ok { Reports self.old self.new path.now (λ _. None) result }
        ensures err { OnErr result (self.new ≡ self.old) }
    {
        self.tree.prune(alloc, path.names(), RevNo::ZERO)
    }
}

// A file as it is, and a folder without properties.
fn emptied(node: &Node) -> Result<Node, AllocError>
    ensures { IfOk result (λ n. content n ≡ emptied node.now) }
{
    if node.text.is_some() {
        return node.share();
    }
    Ok(Node::new_dir())
}
