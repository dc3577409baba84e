//! A repository on a disk as a port.

ghost use Rattle.std.specs.Prelude.{◌≡◌, ◌≤◌};
ghost use Rattle.fleet_disk.specs.Rules.{Rose};
ghost use Rattle.ra_serve.specs.Held.{port_fault};
ghost use Rattle.ra_serve.specs.Ports.{IsOwn};

use crate::fault::PortFault;
use crate::held_repo::replay_from;
use crate::port::{Replay, RepoPort};
use fleet_disk::Disk;
use gate_log::LogFault;
use node_base::{PropName, Props, RevNo};
use path_tree::Tree;
use repo_core::{Expected, RepoFault};
use repo_store::{RepoStore, StoreFault};
use std::alloc::Global;
use uuid::Uuid;

/// A repository on a disk, which takes changes of properties or, as a mirror, none.
#[derive(Drop)]
pub struct HeldStore<D: Disk + Drop> {
    store: RepoStore<D>,
    mirror: bool,
    refusals: u64,
    alloc: Global,
}

/// The refusal of a port that a store's is.
pub fn port_fault(fault: StoreFault) -> PortFault
    ensures { result ≡ port_fault fault }
{
    match fault {
        StoreFault::Repo(fault) => match fault {
            RepoFault::NoSuchRevision => PortFault::NoSuchRevision,
            RepoFault::BaseMismatch(_) => PortFault::BaseMismatch,
            RepoFault::TooLong => PortFault::TooLong,
            _ => PortFault::OutOfMemory,
        },
        StoreFault::Log(fault) => match fault {
            LogFault::DeviceFailed => PortFault::DeviceFailed,
            LogFault::Failed => PortFault::Failed,
            LogFault::LogFull => PortFault::LogFull,
            _ => PortFault::OutOfMemory,
        },
    }
}

impl<D: Disk + Drop> HeldStore<D> {
    ghost use Rattle.ra_serve.specs.Held.{store_of, store_takes_none};

    /// A port over a store.
    pub fn new(alloc: Global, store: RepoStore<D>, mirror: bool) -> HeldStore<D>
        ensures store { store_of result ≡ store }
        ensures mirror { store_takes_none result ≡ mirror }
    {
        HeldStore {
            store,
            mirror,
            refusals: 0,
            alloc,
        }
    }

    /// The store.
    pub fn into_store(self) -> RepoStore<D>
        ensures { result ≡ store_of self }
    {
        let HeldStore {
            store,
            mirror: _,
            refusals: _,
            alloc: _,
        } = self;
        store
    }

    // A refusal, which is counted where it is the port's own.
    fn refuse(&mut self, fault: PortFault) -> PortFault
        ensures fault { result ≡ fault }
        ensures count { IsOwn fault → Rose self.old.refusals self.new.refusals }
        ensures later { self.old.refusals ≤ self.new.refusals }
        ensures store { self.new.store ≡ self.old.store }
        ensures mirror { self.new.mirror ≡ self.old.mirror }
    {
        match fault {
            PortFault::TooLong | PortFault::NoSuchRevision | PortFault::BaseMismatch => fault,
            _ => {
                self.refusals = self.refusals.saturating_add(1);
                fault
            }
        }
    }
}

impl<D: Disk + Drop> RepoPort for HeldStore<D> {
    ghost use Rattle.std.specs.Prelude.{Some};
    ghost use Rattle.repo_core.specs.Repository.{trees_of};
    ghost use Rattle.repo_store.specs.Words.{repository_of};

    ghost repository = { λ p. Some (repository_of p.store) };

    ghost refusals = { λ p. p.refusals };

    ghost is_mirror = { λ p. p.mirror };

    ghost lent = { λ p. trees_of (repository_of p.store).revisions };

    fn is_repository(&self) {
        self.store.repo().is_repository()
    }

    fn identity(&self) -> Uuid {
        self.store.repo().identity()
    }

    fn read_only(&self) -> bool {
        self.mirror
    }

    fn latest(&mut self) -> Result<RevNo, PortFault> {
        Ok(self.store.repo().head())
    }

    fn tree(&mut self, number: RevNo) -> Result<Tree, PortFault> {
        let shared = match self.store.repo().tree(number) {
            None => return Err(PortFault::NoSuchRevision),
            Some(tree) => tree.share(),
        };
        match shared {
            Ok(tree) => Ok(tree),
            Err(_) => Err(self.refuse(PortFault::OutOfMemory)),
        }
    }

    fn props(&mut self, number: RevNo) -> Result<Props, PortFault> {
        let shared = match self.store.repo().props(number) {
            None => return Err(PortFault::NoSuchRevision),
            Some(props) => props.share(),
        };
        match shared {
            Ok(props) => Ok(props),
            Err(_) => Err(self.refuse(PortFault::OutOfMemory)),
        }
    }

    fn change_prop(
        &mut self,
        number: RevNo,
        name: &PropName,
        value: Option<&[u8]>,
        expected: &Expected,
    ) -> Result<(), PortFault> {
        match self
            .store
            .change_prop(self.alloc, number, name, value, expected)
        {
            Ok(_) => Ok(()),
            Err(fault) => Err(self.refuse(port_fault(fault))),
        }
    }

    fn replay_of(&mut self, number: RevNo) -> Result<Replay, PortFault> {
        if number > self.store.repo().head() {
            return Err(PortFault::NoSuchRevision);
        }
        match replay_from(self.alloc, self.store.repo(), number) {
            Ok(replay) => Ok(replay),
            Err(_) => Err(self.refuse(PortFault::OutOfMemory)),
        }
    }

    fn trees(&self) -> &[Tree] {
        self.store.repo().trees()
    }
}
