//! What was said through the ports of a job, as clauses see it.
ghost use Rattle.std.specs.Prelude.{◌≡◌, ◌≤◌, ◌+◌, ◌++◌, ◌∷◌, [], length, OnOk};
ghost use Rattle.sync_job.specs.SaidLists.{said_in, room_in};

use crate::port_call::PortCall;
use std::alloc::{AllocError, Global};
use std::snapshot::Snapshot;

/// The calls that were made, in order. Of each a snapshot is kept, which has no bytes: what was said is there for
/// clauses, and takes no memory.
#[derive(Drop)]
pub(crate) struct SaidList {
    pub(crate) calls: Vec<Snapshot<PortCall>>,
}

impl SaidList {
    /// Nothing was said yet.
    pub(crate) fn new(alloc: Global) -> SaidList
        ensures { said_in result ≡ [] }
    {
        SaidList {
            calls: Vec::new(alloc),
        }
    }

    /// How many calls were made.
    pub(crate) fn len(&self) -> usize
        ensures { result ≡ length (said_in self.now) }
    {
        self.calls.len()
    }

    /// Room for so many calls more.
    pub(crate) fn reserve(&mut self, more: usize) -> Result<(), AllocError>
        ensures items { said_in self.new ≡ said_in self.old }
        ensures room { OnOk result (length (said_in self.old) + more ≤ room_in self.new) }
        ensures keeps { room_in self.old ≤ room_in self.new }
    {
        self.calls.reserve(more)
    }

    /// A call was made, for which there is room.
    pub(crate) fn push_reserved(&mut self, call: PortCall)
        requires { length (said_in self.old) + 1 ≤ room_in self.old }
        ensures items { said_in self.new ≡ said_in self.old ++ call ∷ [] }
        ensures room { room_in self.new ≡ room_in self.old }
    {
        self.calls.push_reserved(Snapshot::of(&call));
    }
}
