//! The device calls of an append.
ghost use Rattle.std.specs.Prelude.{◌≡◌, ◌≤◌, ◌<◌, ◌+◌, ◌^◌, ◌++◌, ◌∷◌, [], length, OnOk};
ghost use Rattle.fleet_disk.specs.Rules.{overwritten, Torn, OnFile, Follows};
ghost use Rattle.gate_log.specs.Device.{Acts, ActsSafely, AtEachMoment, IsSound, Passes, Turns};
ghost use Rattle.gate_log.specs.Slots.{mark};
ghost use Rattle.gate_log.specs.Standing.{ends_with, last_end, IsAdded, IsAtRest, IsEither, IsRising, parts};
ghost use Rattle.gate_log.specs.Version.{file_of, gates_of};

use crate::ends::end_of;
use crate::slots::{GATE_BYTES, OPEN, closed_slot, closed_slot_with_sum};
use crate::sums::sum_of_entry;
use crate::version::{LogVersion, gate_at, gates_file};
use fleet_disk::{Disk, DiskFault, DiskFile};

// Writes an entry behind the last, with its slot and a closed gate behind it; opens its gate once that is synced;
// and syncs again.
pub fn put_entry<D: Disk>(
    disk: &mut D,
    version: LogVersion,
    ends: &[u64],
    entry: &[u8],
) -> Result<(), DiskFault>
    requires some { 0 < length entry.now }
    requires rising { IsRising 0 ends.now }
    requires fits { last_end 0 ends.now + length entry.now ≤ 2 ^ 56 }
    requires at_rest { D.honest disk.old → IsAtRest version ends.now (D.reads disk.old) }
    requires durable { IsSound D.Disk disk.old }

    ensures at_rest { D.honest disk.old → OnOk result (IsAtRest version (ends_with ends.now entry.now) (D.reads
        disk.new)) }
    ensures files { Turns D.Disk disk.old disk.new result (IsAdded version (ends_with ends.now entry.now) entry.now) }
    ensures added { Turns D.Disk disk.old disk.new result (λ old new. parts 0 (ends_with ends.now entry.now)
        new.journal ≡ parts 0 ends.now old.journal ++ entry.now ∷ []) }
    ensures any_moment { AtEachMoment D.Disk disk.old disk.new (IsEither (parts 0 ends.now (D.reads disk.old).journal)
        entry.now) }
    ensures acts { ActsSafely D.Disk disk.old disk.new result }
{
    let start = end_of(ends);
    let end = start + entry.len() as u64;
    let gate = gate_at(version, ends.len() as u64);
    disk.write_at(DiskFile::Journal, start, entry)?;
    write_slot(disk, version, gate + GATE_BYTES, end, entry)?;
    disk.sync()?;
    disk.write_at(gates_file(version), gate, &[OPEN])?;
    disk.sync()?;
    Ok(())
}

// Writes what stands behind the gate of an entry, and a closed gate behind it.
fn write_slot<D: Disk>(
    disk: &mut D,
    version: LogVersion,
    at: u64,
    end: u64,
    entry: &[u8],
) -> Result<(), DiskFault>
    requires { D.honest disk.old → at ≤ length (gates_of version (D.reads disk.old)) }
    ensures written { Turns D.Disk disk.old disk.new result (OnFile (file_of version) (λ old new. new ≡ overwritten at
        (mark version end entry.now ++ 0 ∷ []) old)) }
    ensures left { D.honest disk.old → Follows (OnFile (file_of version)
        (Torn at (length (mark version end entry.now ++ 0 ∷ [])))) (D.may_leave disk.old) (D.may_leave disk.new) }
    ensures time { D.honest disk.old → Passes D.Disk disk.old disk.new }
    ensures acts { Acts D.Disk disk.old disk.new result }
{
    match version {
        LogVersion::First => disk.write_at(DiskFile::Gate, at, &closed_slot(end)),
        LogVersion::Second => {
            let slot = closed_slot_with_sum(end, sum_of_entry(entry));
            disk.write_at(DiskFile::Slots, at, &slot)
        }
    }
}
