//! The sums of entries.
ghost use Rattle.std.specs.Prelude.{◌≡◌, ◌<◌, ◌≤◌, ◌+◌, ◌-◌, ◌^◌, ◌↔◌, length, take, drop, IsTrue, IfOk, IfErr};
ghost use Rattle.md5.specs.Md5.{md5};
ghost use Rattle.gate_log.specs.Faults.{IsEntryFault, IsReadFault};
ghost use Rattle.gate_log.specs.Lengths.{HavingBytes, HavingSum, IsSumAt};
ghost use Rattle.gate_log.specs.Looks.{LooksFor, LooksOn};
ghost use Rattle.gate_log.specs.Slots.{part};
ghost use Rattle.gate_log.specs.Version.{sum_size};
ghost use Rattle.gate_log.specs.declared.version.LogVersion.TheVariants.{Second};

use crate::fault::LogFault;
use crate::reads::{read_full, read_part};
use crate::slots::SUM_BYTES;
use crate::version::LogVersion;
use fleet_disk::{Disk, DiskFault, DiskFile};
use md5::{Digest, Md5};
use std::alloc::Global;

// The MD5 of an entry (RFC 1321).
pub fn sum_of_entry(entry: &[u8]) -> [u8; SUM_BYTES]
    ensures { result ≡ md5 entry.now }
{
    Md5::digest(entry)
}

// The sum of an entry that has these bounds in the journal.
pub fn sum_of_part<D: Disk>(
    alloc: Global,
    disk: &mut D,
    entry: u64,
    start: u64,
    end: u64,
) -> Result<[u8; SUM_BYTES], LogFault>
    requires { start < end }
    ensures sum { HavingBytes D.Disk disk.old end (IfOk result (λ sum. sum ≡ md5 (part start end (D.reads
        disk.old).journal))) }
    ensures due { HavingBytes D.Disk disk.old end (IfErr result IsReadFault) }
    ensures no_other { IfErr result (IsEntryFault entry) }
    ensures looks { LooksFor D.Disk disk.old disk.new result }
{
    let bytes = read_part(alloc, disk, entry, start, end)?;
    Ok(sum_of_entry(&bytes))
}

// Whether the sum at this place is that of an entry with these bounds; in the first version there is none.
pub fn has_sum<D: Disk>(
    alloc: Global,
    disk: &mut D,
    version: LogVersion,
    at: u64,
    entry: u64,
    start: u64,
    end: u64,
) -> Result<bool, LogFault>
    requires order { start < end }
    requires place { at + sum_size version < 2 ^ 64 }
    ensures sum { HavingSum D.Disk disk.old version at end (λ image. IfOk result (λ has. IsTrue has ↔ IsSumAt version
        at start end image)) }
    ensures due { HavingBytes D.Disk disk.old end (IfErr result IsReadFault) }
    ensures no_other { IfErr result (IsEntryFault entry) }
    ensures looks { LooksFor D.Disk disk.old disk.new result }
{
    match version {
        LogVersion::First => Ok(true),
        LogVersion::Second => is_sum_at(alloc, disk, at, entry, start, end),
    }
}

// Whether the sum at this place of `slots` is that of an entry with these bounds.
fn is_sum_at<D: Disk>(
    alloc: Global,
    disk: &mut D,
    at: u64,
    entry: u64,
    start: u64,
    end: u64,
) -> Result<bool, LogFault>
    requires order { start < end }
    requires place { at + 16 < 2 ^ 64 }
    ensures sum { HavingSum D.Disk disk.old Second at end (λ image. IfOk result (λ has. IsTrue has ↔ IsSumAt Second at
        start end image)) }
    ensures due { HavingBytes D.Disk disk.old end (IfErr result IsReadFault) }
    ensures no_other { IfErr result (IsEntryFault entry) }
    ensures looks { LooksFor D.Disk disk.old disk.new result }
{
    let there = read_sum(disk, at)?;
    let wanted = sum_of_part(alloc, disk, entry, start, end)?;
    Ok(there == wanted)
}

// The sum at this place of `slots`.
fn read_sum<D: Disk>(disk: &mut D, at: u64) -> Result<[u8; SUM_BYTES], DiskFault>
    requires { at + 16 < 2 ^ 64 }
    ensures sum { D.honest disk.old → at + 16 ≤ length (D.reads disk.old).slots
        → IfOk result (λ sum. take 16 (drop at (D.reads disk.old).slots) ≡ sum) }
    ensures looks { LooksOn D.Disk disk.old disk.new result }
{
    let mut sum = [0; SUM_BYTES];
    read_full(disk, DiskFile::Slots, at, &mut sum)?;
    Ok(sum)
}
