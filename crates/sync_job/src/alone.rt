//! A mirror held alone.
ghost use Rattle.std.specs.Prelude.{◌≡◌, ◌↔◌, ◌∷◌, [], None, Err, IfOk};
ghost use Rattle.node_base.specs.declared.refusal.Refusal.TheVariants as refusal;
ghost use Rattle.sync_core.specs.declared.fault.SyncFault.TheVariants as fault;
ghost use Rattle.repo_core.specs.Refusals.{by_repository};
ghost use Rattle.repo_core.specs.Repository.{trees_of};
ghost use Rattle.repo_store.specs.Changes.{IsNumbered, Stages};
ghost use Rattle.repo_store.specs.Words.{disk_of, revisions_of};
ghost use Rattle.sync_core.specs.Calls.{call_of};
ghost use Rattle.sync_core.specs.Mirror.{mirror_with};
ghost use Rattle.sync_core.specs.Plans.{IsToWrite};
ghost use Rattle.sync_job.specs.Alone.{StandsAt, IsFull, holder_of, store_of, BeginsWith, MovesAlone, StandsAsOpened};
ghost use Rattle.sync_job.specs.Asked.{asked_as};
ghost use Rattle.sync_job.specs.Devices.{WasAsked};
ghost use Rattle.sync_job.specs.Made.{ComesWith, IsTreeOf, StillBegins};
ghost use Rattle.sync_job.specs.Mirrors.{IsFit};
ghost use Rattle.sync_job.specs.Worlds.{AreFirst};

use crate::faults::fault_of;
use crate::mirror::MirrorPort;
use dump_load::Applied;
use fleet_disk::Disk;
use node_base::{Refusal, RevNo};
use path_tree::Tree;
use repo_core::Entry;
use repo_store::{RepoStore, Staged, StoreFault};
use std::alloc::Global;
use sync_core::{MirrorCall, Planned, Reply, Seat, SyncFault, holder_after, plan};

/// A mirror in a store that nobody else has: no seat runs there but its job's own.
#[derive(Drop)]
pub struct AloneMirror<D: Disk + Drop> {
    store: RepoStore<D>,
    holder: Option<Seat>,
}

impl<D: Disk + Drop> AloneMirror<D> {
    /// The mirror in a store, with no holder of its lock, whatever token that has. In a store that works, and of which
    /// a stop leaves what keeps its repository, the mirror stands so: an opened one is such a store.
    pub fn new(store: RepoStore<D>) -> AloneMirror<D>
        ensures store { (store_of result ≡ store) × (holder_of result ≡ None) }
        ensures stands { StandsAsOpened D.Disk store }
    {
        AloneMirror {
            store,
            holder: None,
        }
    }

    /// The store, as the calls have left it.
    pub fn store(&self) -> &RepoStore<D>
        ensures { result.now ≡ store_of self.now }
    {
        &self.store
    }

    /// The store, as the calls have left it.
    pub fn into_store(self) -> RepoStore<D>
        ensures { result ≡ store_of self }
    {
        self.store
    }

    /// The disk, with what the calls have left there.
    pub fn into_disk(self) -> D
        ensures { result ≡ disk_of (store_of self) }
    {
        let AloneMirror { store, holder: _ } = self;
        store.into_disk()
    }

    // The entry of a call is written: each growth first, and then the device's calls.
    fn write(
        &mut self,
        alloc: Global,
        call: &MirrorCall<'_>,
        entry: Entry,
        tree: Option<Tree>,
    ) -> Result<Reply, SyncFault>
        requires planned { IsToWrite (mirror_with (revisions_of self.old.store) self.old.holder) 0
            (call_of call.now) entry }
        requires made { ComesWith (BeginsWith self.old) (call_of call.now) tree }
        ensures fits { IfOk result (IsFit (call_of call.now)) }
        ensures honest { D.honest (disk_of self.old.store) ↔ D.honest (disk_of self.new.store) }
        ensures moved { MovesAlone self.old self.new (call_of call.now) result }
        ensures asked { WasAsked self.new.store self.old.store (asked_as (call_of call.now) result ∷ []) }
        ensures full { result ≡ Err (fault.Other refusal.LogFull) → IsFull self.old.store (call_of call.now) }
        ensures first { StillBegins BeginsWith self.old self.new }
    {
        let staged = match stage(alloc, &mut self.store, entry, tree) {
            Ok(staged) => staged,
            Err(fault) => return Err(fault_of(fault)),
        };
        match self.store.install(staged) {
            Ok(_receipt) => {
                self.holder = holder_after(self.holder, Seat::new(0), call);
                Ok(Reply::Done)
            }
            Err(fault) => Err(fault_of(fault)),
        }
    }
}

impl<D: Disk + Drop> MirrorPort for AloneMirror<D> {
    ghost use Rattle.std.proofs.Common.{refl};
    ghost use Rattle.repo_core.specs.Repository.{trees_of};
    ghost use Rattle.repo_store.specs.Words.{disk_of, revisions_of};
    ghost use Rattle.sync_job.specs.Alone.{IsStep, StandsAt};
    ghost use Rattle.sync_job.specs.Questions.{LeadsBy};
    ghost use Rattle.sync_job.specs.Worlds.{AreFirst};

    ghost stands = { λ a m. StandsAt a.store a.holder m };

    ghost seat = { λ _. 0 };

    ghost honest = { λ a. D.honest (disk_of a.store) };

    ghost clock = { λ a. D.clock (disk_of a.store) };

    ghost left_since = { λ a t image. D.left_since (disk_of a.store) t image };

    ghost begins_with = { λ a trees. AreFirst trees (trees_of (revisions_of a.store)) };

    ghost asked = { λ now first calls. LeadsBy IsStep first calls now };

    ghost kept_now = { λ a m image honest stands left. stands.images honest image
        (D.only_now (disk_of a.store) image honest left) };

    ghost begins = { λ a. (trees_of (revisions_of a.store), refl) };

    fn step(
        &mut self,
        alloc: Global,
        call: &MirrorCall<'_>,
        tree: Option<Tree>,
    ) -> Result<Reply, SyncFault> {
        match plan(alloc, self.store.repo(), self.holder, Seat::new(0), call) {
            Ok(Planned::Tell(standing)) => Ok(Reply::Seen(standing)),
            Ok(Planned::Write(entry)) => self.write(alloc, call, entry, tree),
            Err(fault) => Err(fault),
        }
    }

    fn tree(&mut self, number: RevNo) -> Result<Tree, SyncFault> {
        match self.store.repo().tree(number) {
            Some(tree) => Ok(tree.share()?),
            None => Err(SyncFault::Other(Refusal::NoSuchRevision)),
        }
    }
}

// An entry is made ready, a revision with the tree that comes with it: its set is applied only where none does.
fn stage<D: Disk>(
    alloc: Global,
    store: &mut RepoStore<D>,
    entry: Entry,
    tree: Option<Tree>,
) -> Result<Staged, StoreFault>
    requires numbered { IsNumbered (revisions_of store.old) entry }
    requires made { IsTreeOf (trees_of (revisions_of store.old)) entry tree }
    ensures stages { Stages entry (by_repository (revisions_of store.old) entry) store.old store.new result }
{
    let Some(tree) = tree else {
        return store.stage(alloc, entry);
    };
    match entry {
        Entry::Revised {
            number: _,
            set,
            props,
        } => store.stage_applied(alloc, Applied { set, tree }, props),
        Entry::Mapped { number, props } => store.stage(alloc, Entry::Mapped { number, props }),
    }
}
