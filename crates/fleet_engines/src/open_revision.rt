//! The revision of a dump that is read.
ghost use Rattle.std.specs.Prelude.{◌≡◌, [], Some, None, is_none, false, IfErr, OnOk};
ghost use Rattle.std.specs.Option.{option_map};
ghost use Rattle.fleet_engines.specs.Histories.{open_in, rev_read};
ghost use Rattle.fleet_engines.specs.Revisions.{is_past_zero, AddsNode, RefusesNode};
ghost use Rattle.fleet_engines.specs.Streams.{NoPeerFails};

use crate::revision_nodes::RevisionNodes;
use node_base::{Props, Refusal, RevNo};
use std::alloc::Global;
use whole_texts::ReadNode;

/// A revision that is read: its number, its properties, and its nodes so far.
#[derive(Drop)]
pub struct ReadRevision {
    pub number: RevNo,
    pub props: Props,
    pub nodes: RevisionNodes,
}

/// The revision whose records are read, where one has begun.
#[derive(Drop)]
pub struct OpenRevision {
    alloc: Global,
    revision: Option<ReadRevision>,
}

impl OpenRevision {
    /// None has begun.
    pub fn none(alloc: Global) -> OpenRevision
        ensures { open_in result ≡ None }
    {
        OpenRevision {
            alloc,
            revision: None,
        }
    }

    /// One begins, in the place of the one before it.
    pub fn begin(&mut self, number: RevNo, props: Props)
        ensures { open_in self.new ≡ Some (record { number = number; props = props; nodes = [] }) }
    {
        let nodes = RevisionNodes::new(self.alloc);
        self.revision = Some(ReadRevision {
            number,
            props,
            nodes,
        });
    }

    /// A node of it. One of no revision, or of revision 0, is WrongNumber (16); OutOfMemory (70).
    pub fn add_node(&mut self, node: ReadNode) -> Result<(), Refusal>
        ensures ok { OnOk result (AddsNode (open_in self.old) node (open_in self.new)) }
        ensures refused { IfErr result (RefusesNode (open_in self.old)) }
        ensures no_peer { NoPeerFails result }
    {
        if !self.is_past_zero() {
            return Err(Refusal::WrongNumber);
        }
        let Some(mut revision) = self.revision.take() else {
            return Err(Refusal::WrongNumber);
        };
        match revision.nodes.push(node) {
            Ok(()) => {
                self.revision = Some(revision);
                Ok(())
            }
            Err(_) => Err(Refusal::OutOfMemory),
        }
    }

    /// It, which is whole now, where one has begun; none is read any more.
    pub fn take(&mut self) -> Option<ReadRevision>
        ensures taken { option_map rev_read result ≡ open_in self.old }
        ensures none { open_in self.new ≡ None }
    {
        self.revision.take()
    }

    /// Whether none is read.
    pub fn is_none(&self) -> bool
        ensures { result ≡ is_none (open_in self.now) }
    {
        self.revision.is_none()
    }

    /// Whether one other than revision 0 is read.
    pub fn is_past_zero(&self) -> bool
        ensures { result ≡ is_past_zero (open_in self.now) }
    {
        match &self.revision {
            Some(revision) => revision.number != RevNo::ZERO,
            None => false,
        }
    }
}
