//! Why a folder has no disk to lend.
ghost use Rattle.std.specs.Prelude.{◌≡◌};

use std::alloc::AllocError;

/// Why a call of a host for a folder was refused.
#[derive(Clone, Copy, PartialEq, Eq)]
pub enum FolderFault {
    /// The host failed (31).
    DeviceFailed,
    /// Memory ran out (70).
    OutOfMemory,
}

impl From<AllocError> for FolderFault {
    ghost use Rattle.fleet_disk.specs.declared.folder_fault.FolderFault.TheVariants.{OutOfMemory};

    ghost from_gives = { λ _ e. e ≡ OutOfMemory };

    fn from(_: AllocError) -> FolderFault {
        FolderFault::OutOfMemory
    }
}
