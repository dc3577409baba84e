//! Reads of a disk that go on until they have all that there is.
ghost use Rattle.std.specs.Prelude.{◌≡◌, ◌<◌, ◌≤◌, ◌+◌, ◌^◌, ℕ, length, slice_index_or, IfOk, IfErr};
ghost use Rattle.fleet_disk.specs.Image.{bytes_of};
ghost use Rattle.fleet_disk.specs.Rules.{IsRead};
ghost use Rattle.gate_log.specs.Device.{Tells};
ghost use Rattle.gate_log.specs.Faults.{IsEntryFault, IsReadFault};
ghost use Rattle.gate_log.specs.Lengths.{HavingBytes};
ghost use Rattle.gate_log.specs.Looks.{IsFilled, LooksFor, LooksOn};
ghost use Rattle.gate_log.specs.Slots.{part};

use crate::fault::LogFault;
use fleet_disk::{Disk, DiskFault, DiskFile};
use std::alloc::Global;

// One read.
fn read_some<D: Disk>(
    disk: &mut D,
    file: DiskFile,
    at: u64,
    buf: &mut [u8],
) -> Result<usize, DiskFault>
    ensures within { IfOk result (λ n. n ≤ length buf.old) }
    ensures bytes { Tells D.Disk disk.old result (λ n image. IsRead (bytes_of file image) at n buf.old buf.new) }
    ensures looks { LooksOn D.Disk disk.old disk.new result }
{
    disk.read(file, at, buf)
}

// How many bytes a file has.
pub fn length_of<D: Disk>(disk: &mut D, file: DiskFile) -> Result<u64, DiskFault>
    ensures bytes { Tells D.Disk disk.old result (λ n image. n ≡ length (bytes_of file image)) }
    ensures looks { LooksOn D.Disk disk.old disk.new result }
{
    disk.len(file)
}

// Reads until the buffer is full or the file ends, and says how many bytes that were.
fn fill<D: Disk>(disk: &mut D, file: DiskFile, at: u64, buf: &mut [u8]) -> Result<usize, DiskFault>
    requires { at + length buf.old < 2 ^ 64 }
    ensures within { IfOk result (λ n. n ≤ length buf.old) }
    ensures bytes { Tells D.Disk disk.old result (λ n image. IsFilled (bytes_of file image) at n buf.old buf.new) }
    ensures looks { LooksOn D.Disk disk.old disk.new result }
{
    let mut done = 0;
    while done < buf.len() {
        let count = read_some(disk, file, at + done as u64, &mut buf[done..])?;
        if count == 0 {
            break;
        }
        done += count;
    }
    Ok(done)
}

// Reads until the buffer is full or the file ends, and says how many bytes that were; they are bytes.
pub fn read_full<D: Disk>(
    disk: &mut D,
    file: DiskFile,
    at: u64,
    buf: &mut [u8],
) -> Result<usize, DiskFault>
    requires { at + length buf.old < 2 ^ 64 }
    ensures within { IfOk result (λ n. n ≤ length buf.old) }
    ensures octets { (i : ℕ) → slice_index_or buf.new i 0 < 256 }
    ensures bytes { Tells D.Disk disk.old result (λ n image. IsFilled (bytes_of file image) at n buf.old buf.new) }
    ensures looks { LooksOn D.Disk disk.old disk.new result }
{
    fill(disk, file, at, buf)
}

// The bytes of an entry that has these bounds in the journal. Where the journal ends before, which that of an honest
// disk doesn't, the entry is damaged.
pub fn read_part<D: Disk>(
    alloc: Global,
    disk: &mut D,
    entry: u64,
    start: u64,
    end: u64,
) -> Result<Vec<u8>, LogFault>
    requires { start < end }
    ensures bytes { HavingBytes D.Disk disk.old end (IfOk result (λ bytes. bytes.items ≡ part start end (D.reads
        disk.old).journal)) }
    ensures due { HavingBytes D.Disk disk.old end (IfErr result IsReadFault) }
    ensures no_other { IfErr result (IsEntryFault entry) }
    ensures looks { LooksFor D.Disk disk.old disk.new result }
{
    let size = (end - start) as usize;
    let mut bytes = vec![in alloc; 0u8; size]?;
    let count = read_full(disk, DiskFile::Journal, start, &mut bytes)?;
    if count < size {
        return Err(LogFault::Damaged(entry));
    }
    Ok(bytes)
}
