//! A share as its sessions have it.
ghost use Rattle.std.specs.Prelude.{◌≡◌, ◌≤◌, ◌⊎◌, ℕ, IfOk, IfErr, IfNone};
ghost use Rattle.std.specs.Option.{option_copied};
ghost use Rattle.gate_log.specs.declared.fault.LogFault.TheVariants as log;
ghost use Rattle.repo_core.specs.declared.fault.RepoFault.TheVariants as core;
ghost use Rattle.repo_store.specs.declared.fault.StoreFault.TheVariants as fault;
ghost use Rattle.store_share.specs.Seats.{known_by, seen_by, KeepsSeen, KeepsFound, ReadsAs};

use fleet_disk::Disk;
use gate_log::LogFault;
use mirror_share::{MirrorName, MirrorShare};
use node_base::{PropName, Props, RevNo};
use repo_core::Expected;
use repo_store::StoreFault;
use std::alloc::{AllocError, Global};
use std::sync::Wait;
use store_share::{MasterShare, ReaderSeat, Rev, RowName};
use uuid::Uuid;

/// A share that is served: a repository's, or a mirror's. Of what others change in it meanwhile each call's own clauses
/// speak.
pub trait ServedShare<L: RowName> {
    ghost use Rattle.std.specs.Prelude.{ℕ, List, Option, Result};
    ghost use Rattle.node_base.specs.Path.{Name};
    ghost use Rattle.node_base.specs.Props.{PropMap};
    ghost use Rattle.repo_core.specs.declared.expected.Expected.{Expected as ExpectedOf};
    ghost use Rattle.repo_store.specs.declared.fault.StoreFault.{StoreFault as FaultOf};
    ghost use Rattle.store_share.specs.declared.rev.Rev.{Rev as RevOf};

    /// A book of the share is of the repository with that identity.
    ghost has_identity: { Self → List ℕ → Type 0 };

    /// A book of the share has these properties of the revision with that number.
    ghost has_props: { Self → ℕ → PropMap → Type 0 };

    /// A book of the share shows nothing of that number.
    ghost is_above: { Self → ℕ → Type 0 };

    /// This is known of what a book of the share shows, up to its head.
    ghost shows: { Self → (ℕ → Option RevOf) → ℕ → Type 0 };

    /// The newest of what was seen and of what a book of the share shows, of which this is known.
    ghost is_newest: { Self → ℕ → (ℕ → Option RevOf) → ℕ → Type 0 };

    /// What a book of the share answers to a change of that property.
    ghost changes_prop: { Self → ℕ → Name → Option (List ℕ) → ExpectedOf → Result (Unit {0}) FaultOf → Type 0 };

    /// The repository's identity.
    fn identity<R: Wait>(&self, rt: &R) -> Uuid
        ensures { has_identity self.now result };

    /// The seat of a reader, who has seen what is shown now. Only want of memory (70) refuses it.
    fn enter_reader<R: Wait>(&self, rt: &R, alloc: Global) -> Result<ReaderSeat<L>, AllocError>
        ensures { IfOk result (λ s. shows self.now (known_by s) (seen_by s)) };

    /// The newest revision, which the reader has seen then. It never falls for a reader.
    fn latest<R: Wait>(&self, rt: &R, reader: &mut ReaderSeat<L>) -> RevNo
        ensures most { seen_by reader.old ≤ result }
        ensures seen { seen_by reader.new ≡ result }
        ensures kept { KeepsSeen reader.old reader.new }
        ensures newest { is_newest self.now (seen_by reader.old) (known_by reader.new) result };

    /// The revision of that number, where the reader has seen it or its cell shows it. It waits for nobody, and takes
    /// no memory. What the reader has seen it reads for good.
    fn read_at<'a>(&'a self, reader: &mut ReaderSeat<L>, number: RevNo) -> Option<&'a Rev>
        ensures there { number ≤ seen_by reader.old → IfNone result ⊥ }
        ensures number { ReadsAs reader.new number result }
        ensures seen { seen_by reader.new ≡ seen_by reader.old }
        ensures kept { KeepsFound reader.old reader.new };

    /// The properties that a revision has now. NoSuchRevision (21) above the head, OutOfMemory (70).
    fn fetch_props<R: Wait>(&self, rt: &R, number: RevNo) -> Result<Props, StoreFault>
        ensures props { IfOk result (has_props self.now number) }
        ensures refused { IfErr result (λ e. (e ≡ fault.Repo core.NoSuchRevision) ⊎ (e ≡ fault.Log log.OutOfMemory)) }
        ensures above { IfErr result (λ e. e ≡ fault.Repo core.NoSuchRevision → is_above self.now number) };

    /// Puts a value at the name of a property of a revision, or takes it away, where the present value is as expected.
    /// A mirror's share refuses each (32), since its jobs alone change it.
    fn change_prop<R: Wait>(
        &self,
        rt: &R,
        alloc: Global,
        number: RevNo,
        name: &PropName,
        value: Option<&[u8]>,
        expected: &Expected,
    ) -> Result<(), StoreFault>
        ensures { changes_prop self.now number name.now (option_copied value.entry) expected.now result };
}

impl<L: RowName, D: Disk> ServedShare<L> for MasterShare<L, D> {
    ghost use Rattle.store_share.specs.Locked.{HasIdentity, HasProps, IsAbove, IsPropOf};
    ghost use Rattle.svn_ends.specs.Shown.{MasterShows, MasterNewest};

    ghost has_identity = { λ share identity. HasIdentity share identity };

    ghost has_props = { λ share number props. HasProps share number props };

    ghost is_above = { λ share number. IsAbove share number };

    ghost shows = { λ share known last. MasterShows share known last };

    ghost is_newest = { λ share seen known newest. MasterNewest share seen known newest };

    ghost changes_prop = { λ share number name value expected result. IsPropOf share number name value expected result };

    fn identity<R: Wait>(&self, rt: &R) -> Uuid {
        MasterShare::identity(self, rt)
    }

    fn enter_reader<R: Wait>(&self, rt: &R, alloc: Global) -> Result<ReaderSeat<L>, AllocError> {
        MasterShare::enter_reader(self, rt, alloc)
    }

    fn latest<R: Wait>(&self, rt: &R, reader: &mut ReaderSeat<L>) -> RevNo {
        MasterShare::latest(self, rt, reader)
    }

    fn read_at<'a>(&'a self, reader: &mut ReaderSeat<L>, number: RevNo) -> Option<&'a Rev> {
        MasterShare::read_at(self, reader, number)
    }

    fn fetch_props<R: Wait>(&self, rt: &R, number: RevNo) -> Result<Props, StoreFault> {
        MasterShare::fetch_props(self, rt, number)
    }

    fn change_prop<R: Wait>(
        &self,
        rt: &R,
        alloc: Global,
        number: RevNo,
        name: &PropName,
        value: Option<&[u8]>,
        expected: &Expected,
    ) -> Result<(), StoreFault> {
        MasterShare::change_prop(self, rt, alloc, number, name, value, expected)
    }
}

impl<L: MirrorName, D: Disk> ServedShare<L> for MirrorShare<L, D> {
    ghost use Rattle.std.specs.Prelude.{◌≡◌, Err};
    ghost use Rattle.gate_log.specs.declared.fault.LogFault.TheVariants.{Failed};
    ghost use Rattle.mirror_share.specs.Locked.{HasIdentity, HasProps, IsAbove};
    ghost use Rattle.repo_store.specs.declared.fault.StoreFault.TheVariants.{Log};
    ghost use Rattle.svn_ends.specs.Shown.{MirrorShows, MirrorNewest};

    ghost has_identity = { λ share identity. HasIdentity share identity };

    ghost has_props = { λ share number props. HasProps share number props };

    ghost is_above = { λ share number. IsAbove share number };

    ghost shows = { λ share known last. MirrorShows share known last };

    ghost is_newest = { λ share seen known newest. MirrorNewest share seen known newest };

    ghost changes_prop = { λ share number name value expected result. result ≡ Err (Log Failed) };

    fn identity<R: Wait>(&self, rt: &R) -> Uuid {
        MirrorShare::identity(self, rt)
    }

    fn enter_reader<R: Wait>(&self, rt: &R, alloc: Global) -> Result<ReaderSeat<L>, AllocError> {
        MirrorShare::enter_reader(self, rt, alloc)
    }

    fn latest<R: Wait>(&self, rt: &R, reader: &mut ReaderSeat<L>) -> RevNo {
        MirrorShare::latest(self, rt, reader)
    }

    fn read_at<'a>(&'a self, reader: &mut ReaderSeat<L>, number: RevNo) -> Option<&'a Rev> {
        MirrorShare::read_at(self, reader, number)
    }

    fn fetch_props<R: Wait>(&self, rt: &R, number: RevNo) -> Result<Props, StoreFault> {
        self.rev_props(rt, number)
    }

    /// Its jobs alone change a mirror: each change is refused (32).
    fn change_prop<R: Wait>(
        &self,
        rt: &R,
        alloc: Global,
        number: RevNo,
        name: &PropName,
        value: Option<&[u8]>,
        expected: &Expected,
    ) -> Result<(), StoreFault> {
        let _ = rt;
        let _ = name;
        let _ = value;
        let _ = expected;
        let _ = (alloc, number);
        Err(StoreFault::Log(LogFault::Failed))
    }
}
