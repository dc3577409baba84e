//! A store that is made one of the second version.
ghost use Rattle.std.specs.Prelude.{◌≡◌, IfOk, IfErr};
ghost use Rattle.gate_log.specs.Version.{IsOf};

use crate::StoreFault;
use crate::store::RepoStore;
use fleet_disk::Disk;
use gate_log::LogVersion;
use std::alloc::Global;

impl<D: Disk> RepoStore<D> {
    ghost use Rattle.repo_store.specs.Words.{version_in, IfSound, StopLeaves};
    ghost use Rattle.repo_store.specs.Openings.{IsUpgraded, NotUpgraded};

    /// Which version its log has. While no call has failed each image that a stop may leave has that.
    pub fn version(&self) -> LogVersion
        ensures version { result ≡ version_in self.now }
        ensures stand { IfSound self.now (StopLeaves self.now (IsOf result)) }
    {
        self.log.version()
    }

    /// Makes a store whose log is of the first version one of the second, and answers how many entries that were; one
    /// of the second is left alone, with 0. The repository stays, and at each moment of the call a stop leaves what
    /// keeps it, so it may be stopped and made again; from Ok on it leaves the same entries in the second version.
    ///
    /// Failed (32) after a failure of the device, DeviceFailed (31), OutOfMemory (70), and of a disk that isn't honest
    /// Damaged (33). A refusal hands the disk back, which keeps the repository too: at 32 it is the one that was there,
    /// and at 70 it was looked at alone.
    pub fn upgrade(self, alloc: Global) -> Result<(RepoStore<D>, u64), (StoreFault, D)>
        ensures upgraded { IfOk result (IsUpgraded self) }
        ensures refused { IfErr result (NotUpgraded self) }
    {
        let RepoStore {
            mut log,
            repo,
            doubt,
        } = self;
        match log.upgrade(alloc) {
            Ok(count) => {
                let store = RepoStore { log, repo, doubt };
                // What it has by its type.
                let _version = store.version();
                let _repo = store.repo();
                Ok((store, count))
            }
            Err(fault) => Err((StoreFault::Log(fault), log.into_disk())),
        }
    }
}
