//! Folders, each the place of a repository.
ghost use Rattle.std.specs.Prelude.{◌≡◌, IfOk, IfErr};
ghost use Rattle.fleet_disk.specs.Lending.{MakesIn};
ghost use Rattle.repo_store.specs.Words.{disk_of, IsKept, IfSound, StopKeeps};
ghost use Rattle.fleet_main.specs.Doing.{FilesLast, IsBegunIn, IsOpenedIn};
ghost use Rattle.fleet_main.specs.Host.{calls_of};
ghost use Rattle.fleet_main.specs.Loans.{TakesBack};
ghost use Rattle.fleet_main.specs.Making.{PathsStay};
ghost use Rattle.fleet_main.specs.Opening.{NotBegunIn, NotOpenedIn, folder_refusal};

use crate::lending::Folders;
use fleet_disk::{FolderCalls, FolderFault, complete_folder, create_folder, open_folder};
use node_base::Refusal;
use repo_store::{RepoStore, store_refusal};
use std::alloc::Global;
use uuid::Uuid;

/// The folders of a host, by its single calls.
///
/// They are honest where the host is.
#[derive(Drop)]
pub struct HostFolders<C> {
    calls: C,
}

impl<C: FolderCalls + Drop> HostFolders<C> {
    /// The folders that these calls are of.
    pub fn new(calls: C) -> HostFolders<C>
        ensures { calls_of result ≡ calls }
    {
        HostFolders { calls }
    }
}

impl<C: FolderCalls + Drop> Folders for HostFolders<C> {
    type Place = C::Place;

    ghost honest = { λ folders. C.honest folders.calls };

    ghost disk = { λ folders folder. C.disk folders.calls folder };

    ghost lacks = { λ folders path. C.lacks folders.calls path };

    ghost lasts = { λ folders path. C.lasts folders.calls path };

    ghost failures = { λ folders. C.failures folders.calls };

    fn open(&mut self, alloc: Global, folder: &str) -> Result<C::Place, FolderFault> {
        open_folder(&mut self.calls, alloc, folder)
    }

    fn complete(&mut self, alloc: Global, folder: &str) -> Result<C::Place, FolderFault> {
        complete_folder(&mut self.calls, alloc, folder)
    }

    fn create(&mut self, alloc: Global, folder: &str) -> Result<C::Place, FolderFault> {
        create_folder(&mut self.calls, alloc, folder)
    }

    fn close(&mut self, folder: &str, place: C::Place) {
        self.calls.close(folder, place);
    }

    ghost keeps_rules = { λ folders folder place honest there. C.keeps_rules folders.calls folder place honest there };
}

// The refusal that a folder's fault is.
fn folder_refusal(fault: FolderFault) -> Refusal
    ensures value { result ≡ folder_refusal fault }
    ensures no_peer { result ≡ Refusal.PeerFailed → ⊥ }
{
    match fault {
        FolderFault::DeviceFailed => Refusal::DeviceFailed,
        FolderFault::OutOfMemory => Refusal::OutOfMemory,
    }
}

/// Gives a folder the disk of its store back, and no memory of what the store has: it is for a process that ends behind
/// it. What a stop leaves of a store that works keeps its repository; of one whose device failed, that or the one after
/// the entry in doubt.
pub fn closed<F: Folders>(folders: &mut F, folder: &str, store: RepoStore<F::Place>)
    ensures back { TakesBack F.Place.Disk F.Folders folders.old folders.new folder.now (disk_of store) }
    ensures kept { IfSound store (StopKeeps store) }
    ensures either { IsKept store }
    ensures paths { PathsStay F.lacks F.lasts folders.old folders.new }
{
    let _repo = store.repo();
    folders.close(folder, store.leave());
}

/// Begins a repository in a folder, which is made where it is missing; the folder's disk is lent then. ThereAlready (35)
/// where the folder has one, DeviceFailed (31) where the host or the folder's disk fails, OutOfMemory (70). After a
/// refusal the folder has its disk. Once a repository is begun a stop leaves the folder's files, and the folder where it
/// was made.
pub fn created<F: Folders>(
    alloc: Global,
    folders: &mut F,
    folder: &str,
    identity: Uuid,
) -> Result<RepoStore<F::Place>, Refusal>
    ensures begun { IfOk result (IsBegunIn F.Place.Disk F.Folders folders.old folders.new folder.now identity) }
    ensures refused { IfErr result (NotBegunIn F.Place.Disk F.Folders folders.old folders.new folder.now identity) }
    ensures no_peer { IfErr result (λ e. e ≡ Refusal.PeerFailed → ⊥) }
    ensures nothing_else { MakesIn F.lacks folder.now folders.old folders.new }
{
    match folders.create(alloc, folder) {
        Ok(disk) => match RepoStore::create(alloc, disk, identity) {
            Ok(store) => Ok(store),
            Err((fault, disk)) => {
                folders.close(folder, disk);
                Err(store_refusal(fault))
            }
        },
        Err(fault) => Err(folder_refusal(fault)),
    }
}

/// Opens the repository of a folder, with the sets of changes that its entries tell; the folder's disk is lent then.
/// NoRepository (34) where the folder has no name or no entry is in its files, Damaged (33) with the first entry that
/// is, DeviceFailed (31) where the host or the folder's disk fails, OutOfMemory (70). After a refusal the folder has its
/// disk.
pub fn opened<F: Folders>(
    alloc: Global,
    folders: &mut F,
    folder: &str,
) -> Result<RepoStore<F::Place>, Refusal>
    ensures opened { IfOk result (IsOpenedIn F.Place.Disk F.Folders folders.old folders.new folder.now) }
    ensures refused { IfErr result (NotOpenedIn F.Place.Disk F.Folders folders.old folders.new folder.now) }
    ensures no_peer { IfErr result (λ e. e ≡ Refusal.PeerFailed → ⊥) }
    ensures paths { PathsStay F.lacks F.lasts folders.old folders.new }
{
    if folder.is_empty() {
        return Err(Refusal::NoRepository);
    }
    match folders.open(alloc, folder) {
        Ok(disk) => match RepoStore::open(alloc, disk) {
            Ok(store) => Ok(store),
            Err((fault, left)) => {
                folders.close(folder, left);
                Err(store_refusal(fault))
            }
        },
        Err(fault) => Err(folder_refusal(fault)),
    }
}

/// The same of a folder whose entries are to be given their sums. Where they have none yet, a stop leaves the folder's
/// files.
pub fn opened_to_upgrade<F: Folders>(
    alloc: Global,
    folders: &mut F,
    folder: &str,
) -> Result<RepoStore<F::Place>, Refusal>
    ensures opened { IfOk result (IsOpenedIn F.Place.Disk F.Folders folders.old folders.new folder.now) }
    ensures refused { IfErr result (NotOpenedIn F.Place.Disk F.Folders folders.old folders.new folder.now) }
    ensures no_peer { IfErr result (λ e. e ≡ Refusal.PeerFailed → ⊥) }
    ensures lasting { IfOk result (FilesLast F.Place.Disk F.Folders folders.old folders.new folder.now) }
    ensures nothing_else { MakesIn F.lacks folder.now folders.old folders.new }
{
    if folder.is_empty() {
        return Err(Refusal::NoRepository);
    }
    match folders.complete(alloc, folder) {
        Ok(lent) => match RepoStore::open(alloc, lent) {
            Ok(store) => Ok(store),
            Err((fault, back)) => {
                folders.close(folder, back);
                Err(store_refusal(fault))
            }
        },
        Err(fault) => Err(folder_refusal(fault)),
    }
}
