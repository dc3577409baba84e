//! The revisions of a dump, judged one after the other.
ghost use Rattle.std.specs.Prelude.{◌≡◌, ◌∷◌, [], length, Some, false, true, IfOk, IfErr};
ghost use Rattle.std.specs.Option.{option_copied, option_map};
ghost use Rattle.std.specs.List.{slice_get};
ghost use Rattle.dump_text.specs.Canon.{now_of};
ghost use Rattle.fleet_engines.specs.Histories.{rev_read, revs_of, told_of, AddsRevision};
ghost use Rattle.fleet_engines.specs.Revisions.{is_zero, root_alone, untold, CantClose, CantTake, CantTakeNode};
ghost use Rattle.fleet_engines.specs.Revisions.{Closes, IsUnfit, MemoryOr, Takes, TakesNode};
ghost use Rattle.fleet_engines.specs.Runs.{has_begun};
ghost use Rattle.fleet_engines.specs.Streams.{NoPeerFails};

use crate::open_revision::{OpenRevision, ReadRevision};
use dump_load::Applied;
use dump_text::{DumpRecord, RevRecord};
use node_base::{Props, Refusal, RevNo};
use path_tree::Tree;
use std::alloc::{AllocError, Global};
use uuid::Uuid;
use whole_texts::ReadNode;

/// What a dump's records have made so far: the identity, revision 0's properties, the trees from revision 0 on, and the
/// revision that is still read.
#[derive(Drop)]
pub struct History {
    alloc: Global,
    uuid: Option<Uuid>,
    zero: Props,
    trees: Vec<Tree>,
    last: OpenRevision,
}

// Whether it is revision 0, before any other.
fn is_zero(trees: &[Tree], revision: &ReadRevision) -> bool
    ensures { result ≡ is_zero trees.now (rev_read revision.now) }
{
    trees.len() == 1 && revision.number == RevNo::ZERO
}

// The trees before revision 1.
fn first_trees(alloc: Global) -> Result<Vec<Tree>, AllocError>
    ensures { IfOk result (λ trees. trees.items ≡ root_alone ∷ []) }
{
    let mut trees = Vec::new(alloc);
    trees.push(Tree::empty(alloc)?)?;
    Ok(trees)
}

impl History {
    /// Before the first record: revision 0 is the root alone.
    pub fn new(alloc: Global) -> Result<History, Refusal>
        ensures new { IfOk result (λ h. told_of h ≡ untold) }
        ensures memory { IfErr result (λ e. e ≡ Refusal.OutOfMemory) }
    {
        let trees = match first_trees(alloc) {
            Ok(trees) => trees,
            Err(_) => return Err(Refusal::OutOfMemory),
        };
        Ok(History {
            alloc,
            uuid: None,
            zero: Props::empty(),
            trees,
            last: OpenRevision::none(alloc),
        })
    }

    /// Takes a record. Where it begins a revision, the one before it is judged and, unless it is revision 0, given back
    /// as it is written.
    pub fn take(&mut self, next: DumpRecord) -> Result<Option<RevRecord>, Refusal>
        ensures taken { IfOk result (λ out. Takes (told_of self.old) next (told_of self.new) (revs_of out)) }
        ensures refused { IfErr result (MemoryOr (CantTake (told_of self.old) next)) }
        ensures no_peer { NoPeerFails result }
    {
        match next {
            DumpRecord::Identity(uuid) => {
                if self.trees.len() == 1 && self.last.is_none() {
                    self.uuid = Some(uuid);
                }
                Ok(None)
            }
            DumpRecord::Revision(number, props) => {
                let closed = self.close()?;
                self.last.begin(number, props);
                Ok(closed)
            }
            DumpRecord::Node(node) => self.add_node(ReadNode { node, delta: None }),
            DumpRecord::DeltaNode(node, delta) => self.add_node(ReadNode {
                node,
                delta: Some(delta),
            }),
        }
    }

    // A node more of the revision that is read. No revision is whole by it.
    fn add_node(&mut self, node: ReadNode) -> Result<Option<RevRecord>, Refusal>
        ensures taken { IfOk result (λ out. TakesNode (told_of self.old) node (told_of self.new) (revs_of out)) }
        ensures refused { IfErr result (MemoryOr (CantTakeNode (told_of self.old))) }
        ensures no_peer { NoPeerFails result }
    {
        match self.last.add_node(node) {
            Ok(()) => Ok(None),
            Err(fault) => Err(fault),
        }
    }

    /// Judges the revision that is read, if there is one: its number, then its texts, then its changes. Revision 0,
    /// before any other, gives its properties.
    pub fn close(&mut self) -> Result<Option<RevRecord>, Refusal>
        ensures closed { IfOk result (λ out. Closes (told_of self.old) (told_of self.new) (revs_of out)) }
        ensures refused { IfErr result (MemoryOr (CantClose (told_of self.old))) }
        ensures no_peer { NoPeerFails result }
    {
        let Some(revision) = self.last.take() else {
            return Ok(None);
        };
        if is_zero(&self.trees, &revision) {
            self.zero = revision.props;
            return Ok(None);
        }
        let judged = self.add_revision(revision)?;
        Ok(Some(judged))
    }

    // One tree more. The records come back in their canonical order.
    fn add_revision(&mut self, revision: ReadRevision) -> Result<RevRecord, Refusal>
        ensures made { IfOk result (λ out. AddsRevision self.old revision out self.new) }
        ensures refused { IfErr result (MemoryOr (IsUnfit self.old.trees.items (rev_read revision))) }
        ensures no_peer { NoPeerFails result }
    {
        let ReadRevision {
            number,
            props,
            nodes,
        } = revision;
        let Applied { set, tree } = nodes.load(&self.trees, number)?;
        let Ok(nodes) = set.into_records(self.alloc) else {
            return Err(Refusal::OutOfMemory);
        };
        match self.trees.push(tree) {
            Ok(()) => Ok(RevRecord {
                number,
                props,
                nodes,
            }),
            Err(_) => Err(Refusal::OutOfMemory),
        }
    }

    /// Whether a revision other than 0 has begun.
    pub fn has_begun(&self) -> bool
        ensures { result ≡ has_begun (told_of self.now) }
    {
        self.trees.len() != 1 || self.last.is_past_zero()
    }

    /// The identity, where the dump told one.
    pub fn uuid(&self) -> Option<&Uuid>
        ensures { now_of result ≡ (told_of self.now).identity }
    {
        self.uuid.as_ref()
    }

    /// Revision 0's properties.
    pub fn zero(&self) -> &Props
        ensures { result.now ≡ (told_of self.now).zero }
    {
        &self.zero
    }

    /// The trees of the revisions so far, revision 0's first.
    pub fn trees(&self) -> &[Tree]
        ensures { result.now ≡ (told_of self.now).trees }
    {
        self.trees.as_slice()
    }
}
