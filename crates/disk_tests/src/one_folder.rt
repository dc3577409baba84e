//! A host that keeps the rules: it has one folder, called `folder`, whose three files are there.
ghost use Rattle.std.specs.Prelude.{◌≡◌, ◌≤◌, ⊤, IfSome, bytes_eq, codes};
ghost use Rattle.fleet_disk.specs.Rules.{HasCause, Rose};
ghost use Rattle.disk_tests.specs.OneFolder.{disk_in, kept_there};

use fleet_disk::{Disk, DiskFault, DiskFile, FolderCalls, FolderFault, FolderFiles};
use std::alloc::Global;

/// A file of the folder.
#[derive(Drop)]
pub(crate) struct OneFile;

/// The folder's disk, with the files that it is lent over, and how often it has failed since.
#[derive(Drop)]
pub(crate) struct OnePlace<D: Disk + Drop> {
    disk: D,
    files: FolderFiles<OneFile>,
    failures: u64,
}

// What a call of the disk inside answers: a failure is counted.
fn counted<T: Drop>(failures: &mut u64, answer: Result<T, DiskFault>) -> Result<T, DiskFault>
    ensures same { result ≡ answer }
    ensures cause { HasCause failures.old failures.new result }
{
    if answer.is_err() {
        *failures = failures.saturating_add(1);
    }
    answer
}

impl<D: Disk + Drop> Disk for OnePlace<D> {
    ghost honest = { λ place. D.honest place.disk };

    ghost reads = { λ place. D.reads place.disk };

    ghost may_leave = { λ place. D.may_leave place.disk };

    ghost clock = { λ place. D.clock place.disk };

    ghost left_since = { λ place. D.left_since place.disk };

    ghost failures = { λ place. place.failures };

    ghost counts_now = { λ place t c. D.counts_now place.disk t c };

    ghost only_now = { λ place c. D.only_now place.disk c };

    ghost reads_left = { λ place. D.reads_left place.disk };

    fn read(&mut self, file: DiskFile, at: u64, buf: &mut [u8]) -> Result<usize, DiskFault> {
        let read = self.disk.read(file, at, buf);
        counted(&mut self.failures, read)
    }

    fn len(&mut self, file: DiskFile) -> Result<u64, DiskFault> {
        let len = self.disk.len(file);
        counted(&mut self.failures, len)
    }

    fn write_at(&mut self, file: DiskFile, at: u64, bytes: &[u8]) -> Result<(), DiskFault> {
        let written = self.disk.write_at(file, at, bytes);
        counted(&mut self.failures, written)
    }

    fn cut(&mut self, file: DiskFile, len: u64) -> Result<(), DiskFault> {
        let cut = self.disk.cut(file, len);
        counted(&mut self.failures, cut)
    }

    fn sync(&mut self) -> Result<(), DiskFault> {
        let synced = self.disk.sync();
        counted(&mut self.failures, synced)
    }
}

/// The host, with the folder's disk until that is lent.
#[derive(Drop)]
pub(crate) struct OneFolder<D: Disk + Drop> {
    kept: Option<OnePlace<D>>,
    failures: u64,
}

impl<D: Disk + Drop> OneFolder<D> {
    /// A host whose folder has this disk.
    pub(crate) fn new(disk: D) -> OneFolder<D> {
        let files = FolderFiles {
            journal: None,
            gate: None,
            slots: None,
        };
        OneFolder {
            kept: Some(OnePlace {
                disk,
                files,
                failures: 0,
            }),
            failures: 0,
        }
    }

    // A call is refused, which is counted.
    fn refused(&mut self) -> FolderFault
        ensures cause { Rose self.old.failures self.new.failures }
        ensures later { self.old.failures ≤ self.new.failures }
        ensures kept { self.new.kept ≡ self.old.kept }
    {
        self.failures = self.failures.saturating_add(1);
        FolderFault::DeviceFailed
    }
}

impl<D: Disk + Drop> FolderCalls for OneFolder<D> {
    type File = OneFile;

    type Place = OnePlace<D>;

    ghost honest = { λ calls. IfSome calls.kept (λ place. D.honest place.disk) };

    ghost disk = { λ calls folder. disk_in folder calls.kept };

    // Whatever is asked for is there.
    ghost lacks = { λ calls path. ⊥ };

    ghost is_at = { λ file path. ⊤ };

    ghost is_held = { λ file. ⊤ };

    // It says of no file that it has bytes.
    ghost has_bytes = { λ file. ⊥ };

    ghost is_new = { λ file. ⊤ };

    ghost lasts = { λ calls path. ⊤ };

    ghost files = { λ place. place.files };

    ghost failures = { λ calls. calls.failures };

    fn open(&mut self, _path: &str) -> Result<Option<OneFile>, FolderFault> {
        Ok(Some(OneFile))
    }

    fn make(&mut self, _path: &str) -> Result<OneFile, FolderFault> {
        Ok(OneFile)
    }

    fn hold(&mut self, _file: &OneFile) -> Result<(), FolderFault> {
        Ok(())
    }

    fn is_empty(&mut self, _file: &OneFile) -> Result<bool, FolderFault> {
        Ok(true)
    }

    fn make_folder(&mut self, _folder: &str) -> Result<bool, FolderFault> {
        Ok(false)
    }

    fn sync_folder(&mut self, _folder: &str) -> Result<(), FolderFault> {
        Ok(())
    }

    fn lend(
        &mut self,
        _alloc: Global,
        folder: &str,
        opened: &mut FolderFiles<OneFile>,
    ) -> Result<OnePlace<D>, FolderFault> {
        if folder != "folder" {
            return Err(self.refused());
        }
        let Some(kept) = self.kept.take() else {
            return Err(self.refused());
        };
        let OnePlace { disk, .. } = kept;
        let files = FolderFiles {
            journal: opened.journal.take(),
            gate: opened.gate.take(),
            slots: opened.slots.take(),
        };
        Ok(OnePlace {
            disk,
            files,
            failures: 0,
        })
    }

    fn close(&mut self, folder: &str, place: OnePlace<D>) {
        if folder == "folder" {
            self.kept = Some(place);
        }
    }

    ghost keeps_rules = { λ calls folder place honest there. kept_there (λ place. D.honest place.disk) (bytes_eq folder (codes "folder")) calls.kept place honest there };
}
