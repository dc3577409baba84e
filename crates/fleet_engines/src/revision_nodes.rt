//! The nodes of a revision that is read. Once there are more than a set is made of, their paths alone are kept.
ghost use Rattle.std.specs.Prelude.{◌≡◌, ◌≤◌, ◌<◌, [], List, Some, length, map, IfOk, IfErr, OnOk, OnErr};
ghost use Rattle.dump_load.specs.declared.change.Change.{Change};
ghost use Rattle.dump_load.specs.Records.{set_fault};
ghost use Rattle.fleet_engines.specs.FirstPaths.{AddsPath, AreFirstPaths};
ghost use Rattle.fleet_engines.specs.Revisions.{changes_of, MakesNone, MakesSet};
ghost use Rattle.fleet_engines.specs.Streams.{NoPeerFails};
ghost use Rattle.whole_texts.specs.Whole.{node_in};

use dump_load::{Applied, ChangeFault, change_refusal, load_revision};
use node_base::limits::CHANGES;
use node_base::{NodePath, Refusal, RevNo};
use path_tree::Tree;
use std::alloc::{AllocError, Global};
use std::collections::BTreeSet;
use std::snapshot::Snapshot;
use whole_texts::{ReadNode, make_whole, text_refusal};

/// How many nodes of one revision are kept, two for each path that a set may have. More make no set, since two
/// at most come together at one path: so they name more paths than a set may have (8), or some of them don't combine
/// (15).
pub const NODES: usize = 8_192;

/// The nodes of one revision, as they came. Up to 8,192 they are kept. From the next one on the paths are kept in their
/// place, 4,097 at most, which say which of the two faults it is.
#[derive(Drop)]
pub struct RevisionNodes {
    alloc: Global,
    kept: Vec<ReadNode>,
    paths: BTreeSet<NodePath>,
    // (snapshots, which take no memory)
    pub(crate) came: Vec<Snapshot<ReadNode>>,
    ghost few: { length kept.items ≤ 8192 },
    ghost all: { length came.items ≤ 8192 → kept.items ≡ map (λ s. s.value) came.items },
    ghost few_paths: { length paths.keys ≤ 4097 },
    ghost named: { 8192 < length came.items
        → AreFirstPaths paths.keys (changes_of (map (λ s. s.value) came.items)) },
}

// A path more, unless there are too many already.
fn add_path(paths: &mut BTreeSet<NodePath>, path: NodePath) -> Result<(), AllocError>
    ensures named { OnOk result (AddsPath path paths.old.keys paths.new.keys) }
    ensures few { length paths.old.keys ≤ 4097 → length paths.new.keys ≤ 4097 }
    ensures same { OnErr result (paths.new.keys ≡ paths.old.keys) }
{
    if paths.len() > CHANGES {
        return Ok(());
    }
    paths.insert(path)?;
    Ok(())
}

// The paths of nodes.
fn paths_of(alloc: Global, nodes: &[ReadNode]) -> Result<BTreeSet<NodePath>, AllocError>
    ensures named { IfOk result (λ paths. AreFirstPaths paths.keys (changes_of nodes.now)) }
    ensures few { IfOk result (λ paths. length paths.keys ≤ 4097) }
{
    let mut paths = BTreeSet::new(alloc);
    for read in nodes {
        add_path(&mut paths, read.node.path.copy(alloc)?)?;
    }
    Ok(paths)
}

// Why more changes than are kept make no set.
fn fault_of(paths: &BTreeSet<NodePath>) -> ChangeFault
    ensures { (cs : List Change) → 8192 < length cs → AreFirstPaths paths.now.keys cs → set_fault cs ≡ Some result }
{
    if paths.len() > CHANGES {
        return ChangeFault::TooLong;
    }
    ChangeFault::OutOfOrder
}

// A node's path.
fn path_in(read: ReadNode) -> NodePath
    ensures { result ≡ (node_in read).path }
{
    let node = read.node;
    node.path
}

// The set that nodes make with the tree that it makes, over the trees before the revision: their texts are made whole
// first.
fn load_kept(
    alloc: Global,
    trees: &[Tree],
    number: RevNo,
    nodes: Vec<ReadNode>,
) -> Result<Applied, Refusal>
    requires next { number ≡ length trees.now }
    requires few { length nodes.items ≤ 8192 }
    ensures made { IfOk result (MakesSet trees.now number nodes.items) }
    ensures refused { IfErr result (MakesNone trees.now number nodes.items) }
    ensures no_peer { NoPeerFails result }
{
    let records = match make_whole(alloc, trees, nodes) {
        Ok(records) => records,
        Err(fault) => return Err(text_refusal(fault)),
    };
    match load_revision(alloc, trees, number, records) {
        Ok(applied) => Ok(applied),
        Err(fault) => Err(change_refusal(fault)),
    }
}

impl RevisionNodes {
    ghost use Rattle.fleet_engines.specs.Nodes.{nodes_of, HaveOneMore};

    /// None came yet.
    pub fn new(alloc: Global) -> RevisionNodes
        ensures { nodes_of result ≡ [] }
    {
        RevisionNodes {
            alloc,
            kept: Vec::new(alloc),
            paths: BTreeSet::new(alloc),
            came: Vec::new(alloc),
        }
    }

    /// One more came.
    pub fn push(&mut self, node: ReadNode) -> Result<(), AllocError>
        ensures { OnOk result (HaveOneMore self.old node self.new) }
    {
        let came = self.came.len();
        if came < NODES {
            return self.keep(node);
        }
        if came == NODES {
            return self.pass(node);
        }
        self.note(node)
    }

    // It is kept.
    fn keep(&mut self, node: ReadNode) -> Result<(), AllocError>
        requires { length self.old.came.items < 8192 }
        ensures { OnOk result (HaveOneMore self.old node self.new) }
    {
        self.came.reserve(1)?;
        let came = Snapshot::of(&node);
        self.kept.push(node)?;
        self.came.push_reserved(came);
        Ok(())
    }

    // It is one too many: the paths of all are kept from now on.
    fn pass(&mut self, node: ReadNode) -> Result<(), AllocError>
        requires { length self.old.came.items ≡ 8192 }
        ensures { OnOk result (HaveOneMore self.old node self.new) }
    {
        self.came.reserve(1)?;
        let came = Snapshot::of(&node);
        let mut paths = paths_of(self.alloc, &self.kept)?;
        add_path(&mut paths, path_in(node))?;
        self.paths = paths;
        self.kept.clear();
        self.came.push_reserved(came);
        Ok(())
    }

    // Its path is kept, where it is a new one.
    fn note(&mut self, node: ReadNode) -> Result<(), AllocError>
        requires { 8192 < length self.old.came.items }
        ensures { OnOk result (HaveOneMore self.old node self.new) }
    {
        self.came.reserve(1)?;
        let came = Snapshot::of(&node);
        add_path(&mut self.paths, path_in(node))?;
        self.came.push_reserved(came);
        Ok(())
    }

    /// The set that all make with the tree that it makes, over the trees before the revision. Refused are a number
    /// that isn't the next one (16), then more nodes than are kept, then a text that can't be made whole (6, 8, 11, 14,
    /// 17, 44), then what makes no set, then the set's first fault.
    pub fn load(self, trees: &[Tree], number: RevNo) -> Result<Applied, Refusal>
        ensures made { IfOk result (MakesSet trees.now number (nodes_of self)) }
        ensures refused { IfErr result (MakesNone trees.now number (nodes_of self)) }
        ensures no_peer { NoPeerFails result }
    {
        if number.index() != trees.len() {
            return Err(Refusal::WrongNumber);
        }
        if self.came.len() > NODES {
            return Err(change_refusal(fault_of(&self.paths)));
        }
        load_kept(self.alloc, trees, number, self.kept)
    }
}
