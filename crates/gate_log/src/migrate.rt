//! The device calls of an upgrade.
ghost use Rattle.std.specs.Prelude.{◌≡◌, ◌⊎◌, ◌<◌, ◌≤◌, ◌+◌, ◌++◌, ◌∷◌, [], length, take, IfOk, IfErr, OnOk};
ghost use Rattle.std.specs.Prelude.{OnErr};
ghost use Rattle.fleet_disk.specs.Image.{bytes_of};
ghost use Rattle.fleet_disk.specs.Rules.{overwritten, Torn, CutBack, OnFile};
ghost use Rattle.gate_log.specs.Device.{ActsFor, ActsSafely, AtEachMoment, EndsSafe, IsSound, Turns};
ghost use Rattle.gate_log.specs.Faults.{IsReadFault};
ghost use Rattle.gate_log.specs.Lengths.{HavingBytes};
ghost use Rattle.gate_log.specs.Looks.{Looks, LooksFor};
ghost use Rattle.gate_log.specs.Slots.{eight_bytes, slots};
ghost use Rattle.gate_log.specs.Standing.{last_end, IsRising, parts, IsAtRest, Stands};
ghost use Rattle.gate_log.specs.Upgrade.{IsUnbegun, IsStaged, IsSwitching, IsSwitched, IsMigrated, IsMigrationFault};
ghost use Rattle.gate_log.specs.Version.{IsBegun};
ghost use Rattle.gate_log.specs.declared.fault.LogFault.TheVariants.{DeviceFailed};
ghost use Rattle.gate_log.specs.declared.version.LogVersion.TheVariants.{First, Second};

use crate::fault::LogFault;
use crate::slots::{CLOSED, OPEN, SUM_BYTES};
use crate::sums::sum_of_part;
use fleet_disk::{Disk, DiskFault, DiskFile};
use std::alloc::{AllocError, Global};

// Makes the second version of a log of the first: the growths, and the reads for the sums, and then ten device calls.
pub fn migrate<D: Disk>(alloc: Global, disk: &mut D, ends: &[u64]) -> Result<(), LogFault>
    requires some { 0 < length ends.now }
    requires rising { IsRising 0 ends.now }
    requires at_rest { D.honest disk.old → IsAtRest First ends.now (D.reads disk.old) }
    requires durable { IsSound D.Disk disk.old }

    ensures done { Turns D.Disk disk.old disk.new result (IsMigrated ends.now) }
    ensures durable { EndsSafe D.Disk disk.old disk.new result }
    ensures any_moment { AtEachMoment D.Disk disk.old disk.new (λ c. Stands c (parts 0 ends.now (D.reads
        disk.old).journal)) }
    ensures same { D.honest disk.old → OnErr result ((D.reads disk.new).journal ≡ (D.reads disk.old).journal) }
    ensures looks { IfErr result (λ e. (e ≡ DeviceFailed)
        ⊎ Looks D.Disk disk.old disk.new) }
    ensures due { D.honest disk.old
        → IfErr result IsReadFault }
    ensures acts { ActsFor D.Disk disk.old disk.new result }
    ensures no_other { IfErr result (IsMigrationFault (length ends.now)) }
{
    let slots = slots_of(alloc, disk, ends)?;
    stage(disk, &slots[1..])?;
    switch(disk)?;
    Ok(())
}

// The bytes of `slots` for these entries, with a closed gate behind them.
fn slots_of<D: Disk>(alloc: Global, disk: &mut D, ends: &[u64]) -> Result<Vec<u8>, LogFault>
    requires rising { IsRising 0 ends.now }
    ensures bytes { HavingBytes D.Disk disk.old (last_end 0 ends.now) (IfOk result (λ bytes. bytes.items ≡ slots
        Second 0 ends.now (D.reads disk.old).journal ++ 0 ∷ [])) }
    ensures some { IfOk result (λ bytes. 0 < length bytes.items) }
    ensures due { HavingBytes D.Disk disk.old (last_end 0 ends.now) (IfErr result IsReadFault) }
    ensures no_other { IfErr result (IsMigrationFault (length ends.now)) }
    ensures looks { LooksFor D.Disk disk.old disk.new result }
{
    let mut bytes = Vec::new(alloc);
    let mut start = 0;
    for entry in 0..ends.len() {
        let end = ends[entry];
        let sum = match sum_of_part(alloc, disk, entry as u64, start, end) {
            Ok(sum) => sum,
            Err(fault) => return Err(fault),
        };
        push_slot(&mut bytes, end, &sum)?;
        start = end;
    }
    bytes.push(CLOSED)?;
    Ok(bytes)
}

// Adds an open gate, a length and a sum.
fn push_slot(bytes: &mut Vec<u8>, end: u64, sum: &[u8; SUM_BYTES]) -> Result<(), AllocError>
    ensures { OnOk result (bytes.new.items ≡ bytes.old.items ++ (1 ∷ eight_bytes end ++ sum.now)) }
{
    bytes.push(OPEN)?;
    bytes.extend_from_slice(&end.to_be_bytes())?;
    bytes.extend_from_slice(sum)?;
    Ok(())
}

// Cuts a file and syncs.
fn cut_synced<D: Disk>(disk: &mut D, file: DiskFile, len: u64) -> Result<(), DiskFault>
    requires inside { D.honest disk.old → len ≤ length (bytes_of file (D.reads disk.old)) }
    requires durable { IsSound D.Disk disk.old }
    ensures cut { Turns D.Disk disk.old disk.new result (OnFile file (λ old new. new ≡ take len old)) }
    ensures any_moment { AtEachMoment D.Disk disk.old disk.new (OnFile file (CutBack len) (D.reads disk.old)) }
    ensures acts { ActsSafely D.Disk disk.old disk.new result }
{
    disk.cut(file, len)?;
    disk.sync()?;
    Ok(())
}

// Writes bytes and syncs.
fn write_synced<D: Disk>(
    disk: &mut D,
    file: DiskFile,
    at: u64,
    bytes: &[u8],
) -> Result<(), DiskFault>
    requires inside { D.honest disk.old → at ≤ length (bytes_of file (D.reads disk.old)) }
    requires durable { IsSound D.Disk disk.old }
    ensures written { Turns D.Disk disk.old disk.new result (OnFile file (λ old new. new ≡ overwritten at bytes.now
        old)) }
    ensures any_moment { AtEachMoment D.Disk disk.old disk.new (OnFile file (Torn at (length bytes.now)) (D.reads
        disk.old)) }
    ensures acts { ActsSafely D.Disk disk.old disk.new result }
{
    disk.write_at(file, at, bytes)?;
    disk.sync()?;
    Ok(())
}

// Makes `slots` these bytes behind a closed gate.
fn stage<D: Disk>(disk: &mut D, bytes: &[u8]) -> Result<(), DiskFault>
    requires durable { IsSound D.Disk disk.old }
    requires idle { D.honest disk.old → ¬ IsBegun (D.reads disk.old).slots }
    ensures staged { Turns D.Disk disk.old disk.new result (IsStaged bytes.now) }
    ensures any_moment { AtEachMoment D.Disk disk.old disk.new (IsUnbegun (D.reads disk.old)) }
    ensures acts { ActsSafely D.Disk disk.old disk.new result }
{
    cut_synced(disk, DiskFile::Slots, 0)?;
    write_synced(disk, DiskFile::Slots, 0, &[CLOSED])?;
    write_synced(disk, DiskFile::Slots, 1, bytes)?;
    Ok(())
}

// Opens the first gate of `slots`, and empties `gate`.
fn switch<D: Disk>(disk: &mut D) -> Result<(), DiskFault>
    requires durable { IsSound D.Disk disk.old }
    requires some { D.honest disk.old → 0 < length (D.reads disk.old).slots }
    ensures switched { Turns D.Disk disk.old disk.new result IsSwitched }
    ensures any_moment { AtEachMoment D.Disk disk.old disk.new (IsSwitching (D.reads disk.old)) }
    ensures acts { ActsSafely D.Disk disk.old disk.new result }
{
    write_synced(disk, DiskFile::Slots, 0, &[OPEN])?;
    cut_synced(disk, DiskFile::Gate, 0)?;
    Ok(())
}
