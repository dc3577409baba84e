//! Which entries stand on a disk.
ghost use Rattle.std.specs.Prelude.{◌≡◌, ◌<◌, ◌≤◌, ◌+◌, ◌^◌, ◌↔◌, IsTrue, length, take, drop, get_or};
ghost use Rattle.std.specs.Prelude.{IfOk, IfErr, IfSome, IsErrOf};
ghost use Rattle.fleet_disk.specs.Image.{bytes_of};
ghost use Rattle.gate_log.specs.Device.{Tells};
ghost use Rattle.gate_log.specs.Faults.{IsFindFault, IsEntryFault};
ghost use Rattle.gate_log.specs.Lengths.{AreLengths, EndsWithin, IsNext, OfLengths};
ghost use Rattle.gate_log.specs.Looks.{LooksFor, LooksOn};
ghost use Rattle.gate_log.specs.Slots.{eight_bytes};
ghost use Rattle.gate_log.specs.Standing.{AreEnds, FindsDamage, FindsNone, IsOpenAt, IsSlotAt, NoSlotAt, StandsAt};
ghost use Rattle.gate_log.specs.Version.{IsOf};
ghost use Rattle.gate_log.specs.declared.fault.LogFault.TheVariants.{Damaged};

use crate::fault::LogFault;
use crate::reads::{length_of, read_full};
use crate::slots::{CLOSED, GATE_BYTES, LENGTH_BYTES, OPEN};
use crate::sums::has_sum;
use crate::version::{LogVersion, begun, empty, gates_file, slot_bytes};
use fleet_disk::{Disk, DiskFault, DiskFile};
use std::alloc::Global;

/// How long the journal and the file of the gates are, and which that is.
#[derive(Drop)]
pub struct Lengths {
    pub version: LogVersion,
    pub journal: u64,
    pub gates: u64,
}

// A gate is open.
fn gate_is_open<D: Disk>(disk: &mut D, file: DiskFile, at: u64) -> Result<bool, DiskFault>
    requires { at + 1 < 2 ^ 64 }
    ensures open { D.honest disk.old → at < length (bytes_of file (D.reads disk.old))
        → IfOk result (λ is_open. IsTrue is_open ↔ (get_or (bytes_of file (D.reads disk.old)) at 0 ≡ 1)) }
    ensures looks { LooksOn D.Disk disk.old disk.new result }
{
    let mut gate = [CLOSED; 1];
    read_full(disk, file, at, &mut gate)?;
    let [gate] = gate;
    Ok(gate == OPEN)
}

// The length behind a gate.
fn read_length<D: Disk>(disk: &mut D, file: DiskFile, at: u64) -> Result<u64, DiskFault>
    requires { at + 8 < 2 ^ 64 }
    ensures length { D.honest disk.old → at + 8 ≤ length (bytes_of file (D.reads disk.old))
        → IfOk result (λ end. take 8 (drop at (bytes_of file (D.reads disk.old))) ≡ eight_bytes end) }
    ensures looks { LooksOn D.Disk disk.old disk.new result }
{
    let mut length = [CLOSED; LENGTH_BYTES];
    read_full(disk, file, at, &mut length)?;
    Ok(u64::from_be_bytes(length))
}

// Which version a disk has. It reads and changes nothing.
pub fn find_version<D: Disk>(disk: &mut D) -> Result<LogVersion, DiskFault>
    ensures is { Tells D.Disk disk.old result IsOf }
    ensures looks { LooksOn D.Disk disk.old disk.new result }
{
    let slots = length_of(disk, DiskFile::Slots)?;
    if slots == 0 {
        return Ok(LogVersion::First);
    }
    let is_open = gate_is_open(disk, DiskFile::Slots, 0)?;
    if is_open {
        return Ok(begun(slots));
    }
    let gate = length_of(disk, DiskFile::Gate)?;
    Ok(empty(gate))
}

// The end of the entry that begins at `start` in the journal, and whose gate, at this place, is open.
fn slot_end<D: Disk>(
    alloc: Global,
    disk: &mut D,
    lengths: &Lengths,
    entry: u64,
    at: u64,
    start: u64,
) -> Result<u64, LogFault>
    requires { at < lengths.now.gates }
    ensures slot { OfLengths D.Disk disk.old lengths.now (λ image. IfOk result (λ end. IsSlotAt lengths.now.version at
        start end image)) }
    ensures bounds { IfOk result (EndsWithin lengths.now at start) }
    ensures damaged { OfLengths D.Disk disk.old lengths.now (λ image. IsErrOf result (Damaged entry) → NoSlotAt
        lengths.now.version at start image) }
    ensures no_other { IfErr result (IsEntryFault entry) }
    ensures looks { LooksFor D.Disk disk.old disk.new result }
{
    let version = lengths.version;
    if lengths.gates - at < slot_bytes(version) + GATE_BYTES {
        return Err(LogFault::Damaged(entry));
    }
    let end = read_length(disk, gates_file(version), at + GATE_BYTES)?;
    if end <= start || end > lengths.journal {
        return Err(LogFault::Damaged(entry));
    }
    let sum = at + GATE_BYTES + LENGTH_BYTES as u64;
    let is_whole = has_sum(alloc, disk, version, sum, entry, start, end)?;
    if !is_whole {
        return Err(LogFault::Damaged(entry));
    }
    Ok(end)
}

// The end of the entry that begins at `start` in the journal, where its gate, at this place, is open.
fn next_end<D: Disk>(
    alloc: Global,
    disk: &mut D,
    lengths: &Lengths,
    entry: u64,
    at: u64,
    start: u64,
) -> Result<Option<u64>, LogFault>
    requires inside { at < lengths.now.gates }
    requires room { at + 1 < 2 ^ 64 }
    ensures found { OfLengths D.Disk disk.old lengths.now (λ image. IfOk result (IsNext lengths.now.version at start image)) }
    ensures bounds { IfOk result (λ found. IfSome found (EndsWithin lengths.now at start)) }
    ensures damaged { OfLengths D.Disk disk.old lengths.now (λ image. IsErrOf result (Damaged entry) → IsOpenAt
        lengths.now.version at image × NoSlotAt lengths.now.version at start image) }
    ensures no_other { IfErr result (IsEntryFault entry) }
    ensures looks { LooksFor D.Disk disk.old disk.new result }
{
    let is_open = gate_is_open(disk, gates_file(lengths.version), at)?;
    if !is_open {
        return Ok(None);
    }
    match slot_end(alloc, disk, lengths, entry, at, start) {
        Ok(end) => Ok(Some(end)),
        Err(fault) => Err(fault),
    }
}

// Where the entries that stand end; their number's worth of slots is in the file of the gates. It reads and changes
// nothing.
pub fn find_ends<D: Disk>(
    alloc: Global,
    disk: &mut D,
    lengths: &Lengths,
) -> Result<Vec<u64>, LogFault>
    requires lengths { D.honest disk.old → AreLengths lengths.now (D.reads disk.old) }
    requires is { D.honest disk.old → IsOf lengths.now.version (D.reads disk.old) }
    ensures stands { Tells D.Disk disk.old result (λ ends. StandsAt lengths.now.version ends.items) }
    ensures ends { IfOk result (λ ends. AreEnds lengths.now.version ends.items) }
    ensures damaged { FindsDamage D.Disk disk.old result }
    ensures missing { FindsNone D.Disk disk.old result }
    ensures no_other { IfErr result IsFindFault }
    ensures looks { LooksFor D.Disk disk.old disk.new result }
{
    let Lengths { gates, .. } = *lengths;
    let mut ends = Vec::new(alloc);
    let mut last = 0;
    let mut at = 0;
    while at < gates {
        let entry = ends.len() as u64;
        let found = match next_end(alloc, disk, lengths, entry, at, last) {
            Ok(found) => found,
            Err(fault) => return Err(fault),
        };
        let Some(end) = found else {
            break;
        };
        ends.push(end)?;
        last = end;
        at += slot_bytes(lengths.version);
    }
    if ends.is_empty() {
        return Err(LogFault::NoRepository);
    }
    Ok(ends)
}

// How long the journal and the file of the gates are.
pub fn lengths_of<D: Disk>(disk: &mut D, version: LogVersion) -> Result<Lengths, DiskFault>
    ensures version { IfOk result (λ lengths. lengths.version ≡ version) }
    ensures lengths { Tells D.Disk disk.old result AreLengths }
    ensures looks { LooksOn D.Disk disk.old disk.new result }
{
    let journal = length_of(disk, DiskFile::Journal)?;
    let gates = length_of(disk, gates_file(version))?;
    Ok(Lengths {
        version,
        journal,
        gates,
    })
}
