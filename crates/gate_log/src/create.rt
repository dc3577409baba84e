//! The device calls that begin a log.
ghost use Rattle.std.specs.Prelude.{◌≡◌, ◌≢◌, ◌⊎◌, ◌<◌, [], IfErr, OnOk, OnErr};
ghost use Rattle.std.specs.Prelude.{IsErrOf};
ghost use Rattle.fleet_disk.specs.Image.{no_bytes};
ghost use Rattle.fleet_disk.specs.Rules.{Only};
ghost use Rattle.gate_log.specs.Device.{ActsFor, EndsSafe, Leaves, Turns};
ghost use Rattle.gate_log.specs.Looks.{Looks};
ghost use Rattle.gate_log.specs.Standing.{IsAtRest, IsBlank, IsJustBegun};
ghost use Rattle.gate_log.specs.declared.fault.LogFault.TheVariants.{DeviceFailed, ThereAlready};
ghost use Rattle.gate_log.specs.declared.version.LogVersion.TheVariants.{Second};

use crate::fault::LogFault;
use crate::reads::length_of;
use crate::slots::CLOSED;
use fleet_disk::{Disk, DiskFile};

// Writes the first gate of `slots`, closed, on a disk of empty files, and syncs. A disk with something on it stays as
// it is.
pub fn begin<D: Disk>(disk: &mut D) -> Result<(), LogFault>
    ensures empty { D.honest disk.old → OnOk result (D.reads disk.old ≡ no_bytes) }
    ensures at_rest { Turns D.Disk disk.old disk.new result (λ old. IsAtRest Second []) }
    ensures durable { EndsSafe D.Disk disk.old disk.new result }
    ensures files { Turns D.Disk disk.old disk.new result (λ old. IsJustBegun) }
    ensures any_moment { D.honest disk.old → Only no_bytes (D.may_leave disk.old)
        → Leaves D.Disk disk.old disk.new IsBlank }
    ensures there { D.honest disk.old → IsErrOf result ThereAlready → D.reads disk.old ≢ no_bytes }
    ensures looks { D.honest disk.old → D.reads disk.old ≢ no_bytes
        → OnErr result (Looks D.Disk disk.old disk.new) }
    ensures acts { ActsFor D.Disk disk.old disk.new result }
    ensures no_other { IfErr result (λ e. (e ≡ DeviceFailed) ⊎ (e ≡ ThereAlready)) }
{
    let journal = length_of(disk, DiskFile::Journal)?;
    let gate = length_of(disk, DiskFile::Gate)?;
    let slots = length_of(disk, DiskFile::Slots)?;
    if journal > 0 || gate > 0 || slots > 0 {
        return Err(LogFault::ThereAlready);
    }
    disk.write_at(DiskFile::Slots, 0, &[CLOSED])?;
    disk.sync()?;
    Ok(())
}
