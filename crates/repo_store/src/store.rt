//! The store.
ghost use Rattle.std.specs.Prelude.{◌≡◌, ◌<◌, ◌≤◌, ◌^◌, ◌↔◌};
ghost use Rattle.std.specs.Prelude.{length, IsTrue, Some, None, is_some, IfOk, IfErr};
ghost use Rattle.std.specs.Option.{option_copied};
ghost use Rattle.std.specs.FinMap as finite;
ghost use Rattle.fleet_disk.specs.Image.{Image};
ghost use Rattle.gate_log.specs.Log.{entries_of, disk_of as log_disk, HasFailed as LogFailed};
ghost use Rattle.repo_core.specs.Repository.{fresh};
ghost use Rattle.repo_store.specs.Journal.{doubt_in, Tell, KeepsOr, IsExport, IsBeginning};
ghost use Rattle.repo_store.specs.Refusals.{IsExportFault};

use crate::StoreFault;
use crate::replay::replay;
use crate::spell::{beginning, revision_bytes};
use crate::verdicts::one_verdict;
use fleet_disk::Disk;
use gate_log::{GateLog, LogFault};
use node_base::{Props, RevNo};
use repo_core::{Entry, Repo, RepoFault};
use std::alloc::{AllocError, Global};
use std::mem::forget;
use uuid::Uuid;

/// A repository on a disk, and in memory. Its calls that change it are `stage`, which makes an entry ready, and
/// `install`, which writes it and takes it in; `commit`, `put_props` and `change_prop` are these two in one.
#[derive(Drop)]
pub struct RepoStore<D: Disk> {
    pub(crate) log: GateLog<D>,
    pub(crate) repo: Repo,
    // What was being written when the device failed: it may stand on the disk.
    pub(crate) doubt: Option<repo_core::Staged>,
    ghost told: { ∥ (D.honest (log_disk log) → ¬ LogFailed log → Tell (entries_of log) repo) ∥₁ },
    ghost kept: { ∥ (D.honest (log_disk log) → (image : Image) → D.may_leave (log_disk log) image
        → KeepsOr repo (doubt_in doubt) image) ∥₁ },
    ghost doubted: { LogFailed log ↔ IsTrue (is_some (doubt_in doubt)) },
}

impl<D: Disk> RepoStore<D> {
    ghost use Rattle.repo_store.specs.Words.{disk_of, doubt_of, repository_of, revisions_of};
    ghost use Rattle.repo_store.specs.Words.{HasFailed, IfSound, IsKept, ReopensAs, StopKeeps, StopLeaves};
    ghost use Rattle.repo_store.specs.Openings.{IsCreated, IsOpened, NotCreated, NotOpened};

    /// Begins a repository of revision 0 alone, without properties, on a disk of empty files, its log of the second
    /// version; from Ok on a stop leaves its first entry and no other. Until then a stop leaves no entry, with one gate
    /// at most where nothing was synced yet, or that one.
    ///
    /// ThereAlready (35) where a file isn't empty, DeviceFailed (31), OutOfMemory (70). A refusal hands the disk back;
    /// one with something on it then is as it was: a read gives what it gave, and a stop leaves what it could leave, at
    /// each moment too. After 70 it is the disk that was given.
    pub fn create(alloc: Global, disk: D, identity: Uuid) -> Result<RepoStore<D>, (StoreFault, D)>
        ensures begun { IfOk result (IsCreated D.Disk identity disk) }
        ensures refused { IfErr result (NotCreated D.Disk identity disk) }
    {
        let (repo, bytes) = match prepare(alloc, identity) {
            Ok(prepared) => prepared,
            Err(_) => return Err((StoreFault::Log(LogFault::OutOfMemory), disk)),
        };
        let mut log = match GateLog::create(alloc, disk) {
            Ok(log) => log,
            Err((fault, disk)) => return Err((StoreFault::Log(fault), disk)),
        };
        let doubt = None;
        match log.append(&bytes) {
            Ok(_receipt) => Ok(RepoStore { log, repo, doubt }),
            Err(fault) => Err((StoreFault::Log(fault), log.into_disk())),
        }
    }

    /// Opens the repository that a disk holds, the one to which what a read gives reopens, with the sets of changes
    /// that its entries tell: what is exported is what was exported before (`one_verdict`). NoRepository (34), Damaged
    /// (33) with the first entry that breaks the journal's format or isn't an entry that the repository before it
    /// takes, and only there, DeviceFailed (31), OutOfMemory (70).
    ///
    /// A refusal hands the disk back: at each moment a stop leaves what it could leave before, or an image of the
    /// entries that a read gave; after it, but for 31, what a read gave, or an image of its entries. The version of the
    /// log stays: at no moment of an opening does a stop leave another than that of what a read gave, but for what it
    /// could leave before.
    pub fn open(alloc: Global, disk: D) -> Result<RepoStore<D>, (StoreFault, D)>
        ensures opened { IfOk result (IsOpened D.Disk disk) }
        ensures refused { IfErr result (NotOpened D.Disk disk) }
    {
        one_verdict();
        let mut log = match GateLog::open(alloc, disk) {
            Ok(log) => log,
            Err((fault, disk)) => return Err((StoreFault::Log(fault), disk)),
        };
        // What it has by its type.
        let _version = log.version();
        let doubt = None;
        match replay(alloc, &mut log) {
            Ok(repo) => Ok(RepoStore { log, repo, doubt }),
            Err(fault) => Err((StoreFault::Log(fault), log.into_disk())),
        }
    }

    /// The repository, as its calls so far have left it.
    pub fn repo(&self) -> &Repo
        ensures value { result.now ≡ repository_of self.now }
        ensures stands { IfSound self.now (StopLeaves self.now (ReopensAs self.now)) }
        ensures keeps { IfSound self.now (StopKeeps self.now) }
        ensures kept { IsKept self.now }
        ensures doubted { HasFailed self.now ↔ IsTrue (is_some (doubt_of self.now)) }
    {
        let _count = self.log.len();
        &self.repo
    }

    /// The device failed in a call of this store: each changing call answers Failed (32) until the disk is opened
    /// again.
    pub fn has_failed(&self) -> bool
        ensures { IsTrue result ↔ HasFailed self.now }
    {
        self.log.has_failed()
    }

    /// The entry of the call in which the device failed: it may stand on the disk, or not. None while none has failed.
    pub fn in_doubt(&self) -> Option<&Entry>
        ensures { option_copied result ≡ doubt_of self.now }
    {
        match &self.doubt {
            Some(change) => Some(change.entry()),
            None => None,
        }
    }

    /// The disk, with what the calls have left there.
    pub fn into_disk(self) -> D
        ensures { result ≡ disk_of self }
    {
        let RepoStore {
            log,
            repo: _,
            doubt: _,
        } = self;
        log.into_disk()
    }

    /// The disk, with what the calls have left there. The memory of the repository isn't given back: it is for a process
    /// that ends behind it.
    pub fn leave(self) -> D
        ensures { result ≡ disk_of self }
    {
        let RepoStore {
            log,
            repo,
            doubt: _,
        } = self;
        // (to take the trees apart costs a tenth of an opening)
        forget(repo);
        log.into_disk()
    }

    /// The canonical dump text of a revision, with the properties that it has now: its record, and the nodes of its
    /// set. NoSuchRevision (21) above the head, OutOfMemory (70).
    pub fn export(&self, alloc: Global, number: RevNo) -> Result<Vec<u8>, StoreFault>
        ensures canonical { IfOk result (λ bytes. IsExport (repository_of self.now) number bytes.items) }
        ensures refused { IfErr result (IsExportFault (revisions_of self.now) number) }
    {
        self.repo.is_repository();
        let Some(props) = self.repo.props(number) else {
            return Err(StoreFault::Repo(RepoFault::NoSuchRevision));
        };
        let Some(set) = self.repo.set(number) else {
            return Err(StoreFault::Repo(RepoFault::NoSuchRevision));
        };
        let bytes = revision_bytes(alloc, number, set, props)?;
        Ok(bytes)
    }
}

// A repository as it begins, and its first entry.
fn prepare(alloc: Global, identity: Uuid) -> Result<(Repo, Vec<u8>), AllocError>
    ensures repository { IfOk result (λ p. p.0 ≡ fresh identity) }
    ensures bytes { IfOk result (λ p. IsBeginning p.1.items identity finite.empty) }
    ensures size { IfOk result (λ p. (0 < length p.1.items) × (length p.1.items ≤ 2 ^ 56)) }
{
    let repo = Repo::new(alloc, identity)?;
    let bytes = beginning(alloc, &identity, &Props::empty())?;
    Ok((repo, bytes))
}
