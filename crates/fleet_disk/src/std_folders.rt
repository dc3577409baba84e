//! The host's own folders.
ghost use Rattle.std.specs.Prelude.{◌≡◌, ◌≤◌, ⊤, Ok, IfErr, IfOk, IsErrAnd, OnErr, OnOk};
ghost use Rattle.fleet_disk.specs.Lending.{IsCounted, Missing};
ghost use Rattle.fleet_disk.specs.Host.{files_of, IsFaultOf};

use crate::files::{HeldFiles, StdFiles};
use crate::folder_calls::FolderCalls;
use crate::folder_fault::FolderFault;
use crate::folder_files::FolderFiles;
use crate::host::HostDisk;
use std::alloc::Global;
use std::fs::{OpenFile, OpenOptions};
use std::io::ErrorKind;
use std::{fs, io};

/// The host's own folders.
///
/// That a host keeps the rules is a premise that no contract shows: here each call is the host's, and nothing else is
/// done, but that a folder is lent only where it wasn't moved since it was opened. A call that fails is counted.
#[derive(Drop)]
pub struct StdFolders<'a, R> {
    rt: &'a R,
    failures: u64,
}

impl<'a, R: HeldFiles> StdFolders<'a, R> {
    /// The host's folders, of which no call has failed yet.
    pub fn new(rt: &'a R) -> StdFolders<'a, R>
        ensures { result.failures ≡ 0 }
    {
        StdFolders { rt, failures: 0 }
    }

    // What an error of the host is: want of memory, or a failure, which is counted.
    fn failed(&mut self, error: io::Error) -> FolderFault
        ensures fault { IsFaultOf result error }
        ensures cause { IsCounted self.old.failures self.new.failures result }
        ensures uncounted { result ≡ FolderFault.OutOfMemory → self.new.failures ≡ self.old.failures }
        ensures later { self.old.failures ≤ self.new.failures }
    {
        if error.kind() == ErrorKind::OutOfMemory {
            return FolderFault::OutOfMemory;
        }
        self.failures = self.failures.saturating_add(1);
        FolderFault::DeviceFailed
    }

    // What an answer of the host is.
    fn answered<T: Drop>(&mut self, answer: io::Result<T>) -> Result<T, FolderFault>
        ensures ok { IfOk result (λ value. answer ≡ Ok value) }
        ensures err { IfErr result (λ e. IsErrAnd answer (IsFaultOf e)) }
        ensures unfailed { OnOk result (self.new.failures ≡ self.old.failures) }
        ensures uncounted { IfErr result (λ e. e ≡ FolderFault.OutOfMemory → self.new.failures ≡ self.old.failures) }
        ensures cause { IfErr result (IsCounted self.old.failures self.new.failures) }
        ensures later { self.old.failures ≤ self.new.failures }
    {
        match answer {
            Ok(value) => Ok(value),
            Err(error) => Err(self.failed(error)),
        }
    }

    // Refuses a folder whose journal isn't the one that is held (31): it was moved while its files were opened, so they
    // may be those of two folders. Another opening of a held file can't be held.
    fn see_unmoved(&mut self, alloc: Global, folder: &str) -> Result<(), FolderFault>
        ensures cause { IfErr result (IsCounted self.old.failures self.new.failures) }
        ensures later { self.old.failures ≤ self.new.failures }
    {
        let path = format!(in alloc; "{folder}/journal")?;
        let found = self.rt.open_at(path.as_str(), false);
        let journal = self.answered(found)?;
        match self.rt.hold(&journal) {
            Ok(()) => Err(self.failed(io::Error::from(ErrorKind::Other))),
            Err(error) => {
                if error.kind() == ErrorKind::WouldBlock {
                    return Ok(());
                }
                Err(self.failed(error))
            }
        }
    }
}

impl<'a, R: HeldFiles> FolderCalls for StdFolders<'a, R> {
    type File = R::File;

    type Place = HostDisk<StdFiles<R::File>>;

    // Nothing shows it of a real host.
    ghost honest = { λ calls. ⊥ };

    ghost disk = { λ calls folder. Missing };

    // The library says nothing of where a file is, what a host holds, what its files have, nor of what a stop leaves.
    ghost lacks = { λ calls path. ⊤ };

    ghost is_at = { λ file path. ⊤ };

    ghost is_held = { λ file. ⊤ };

    ghost has_bytes = { λ file. ⊤ };

    ghost is_new = { λ file. ⊤ };

    ghost lasts = { λ calls path. ⊤ };

    ghost files = { λ place. files_of place };

    ghost failures = { λ calls. calls.failures };

    fn open(&mut self, path: &str) -> Result<Option<R::File>, FolderFault> {
        match self.rt.open_at(path, false) {
            Ok(file) => Ok(Some(file)),
            Err(error) => {
                if error.kind() == ErrorKind::NotFound {
                    return Ok(None);
                }
                Err(self.failed(error))
            }
        }
    }

    fn make(&mut self, path: &str) -> Result<R::File, FolderFault> {
        let made = self.rt.open_at(path, true);
        self.answered(made)
    }

    fn hold(&mut self, file: &R::File) -> Result<(), FolderFault> {
        let held = self.rt.hold(file);
        self.answered(held)
    }

    fn is_empty(&mut self, file: &R::File) -> Result<bool, FolderFault> {
        let is_empty = self.rt.is_empty(file);
        self.answered(is_empty)
    }

    fn make_folder(&mut self, folder: &str) -> Result<bool, FolderFault> {
        match fs::create_dir(self.rt, folder) {
            Ok(()) => Ok(true),
            Err(error) => {
                if error.kind() == ErrorKind::AlreadyExists {
                    return Ok(false);
                }
                Err(self.failed(error))
            }
        }
    }

    fn sync_folder(&mut self, folder: &str) -> Result<(), FolderFault> {
        let synced = sync_names(self.rt, folder);
        self.answered(synced)
    }

    fn lend(
        &mut self,
        alloc: Global,
        folder: &str,
        opened: &mut FolderFiles<R::File>,
    ) -> Result<HostDisk<StdFiles<R::File>>, FolderFault> {
        if opened.journal.is_some() {
            self.see_unmoved(alloc, folder)?;
        }
        let files = FolderFiles {
            journal: opened.journal.take(),
            gate: opened.gate.take(),
            slots: opened.slots.take(),
        };
        Ok(HostDisk::new(alloc, StdFiles::new(files)))
    }

    fn close(&mut self, _folder: &str, place: HostDisk<StdFiles<R::File>>) {
        drop(place);
    }

    ghost keeps_rules = { λ calls folder place honest there. absurd honest };
}

// The names of a folder last once it is synced.
fn sync_names<R: HeldFiles>(rt: &R, folder: &str) -> io::Result<()> {
    OpenOptions::new().read(true).open(rt, folder)?.sync_all()
}
