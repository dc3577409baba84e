//! A host over a disk, for tests.
ghost use Rattle.std.specs.Prelude.{◌≡◌};

use crate::calls::HostCalls;
use crate::disk::{Disk, DiskFault, DiskFile};

/// The files of another disk, such as one in memory. A sync of one file syncs all.
#[derive(Drop)]
pub struct OverDisk<D: Disk> {
    disk: D,
}

impl<D: Disk> OverDisk<D> {
    /// The files of that disk.
    pub fn new(disk: D) -> OverDisk<D>
        ensures { result.disk ≡ disk }
    {
        OverDisk { disk }
    }
}

impl<D: Disk> HostCalls for OverDisk<D> {
    ghost honest = { λ host. D.honest host.disk };

    ghost reads = { λ host. D.reads host.disk };

    ghost may_leave = { λ host. D.may_leave host.disk };

    ghost clock = { λ host. D.clock host.disk };

    ghost left_since = { λ host. D.left_since host.disk };

    ghost failures = { λ host. D.failures host.disk };

    ghost counts_now = { λ host t c. D.counts_now host.disk t c };

    ghost only_now = { λ host c. D.only_now host.disk c };

    ghost reads_left = { λ host. D.reads_left host.disk };

    fn read_at(&mut self, file: DiskFile, at: u64, buf: &mut [u8]) -> Result<usize, DiskFault> {
        self.disk.read(file, at, buf)
    }

    fn length(&mut self, file: DiskFile) -> Result<u64, DiskFault> {
        self.disk.len(file)
    }

    fn write_all_at(&mut self, file: DiskFile, at: u64, bytes: &[u8]) -> Result<(), DiskFault> {
        self.disk.write_at(file, at, bytes)
    }

    fn truncate(&mut self, file: DiskFile, len: u64) -> Result<(), DiskFault> {
        self.disk.cut(file, len)
    }

    fn sync_file(&mut self, _file: DiskFile) -> Result<(), DiskFault> {
        self.disk.sync()
    }
}
