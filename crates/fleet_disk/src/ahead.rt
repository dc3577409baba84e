//! What was read of a file ahead of what was asked for.
ghost use Rattle.std.specs.Prelude.{◌≡◌, ◌≤◌, ◌<◌, ◌+◌, ◌-◌, ℕ, List, length, take, IsTrue, IfOk, OnOk};
ghost use Rattle.fleet_disk.specs.Ahead.{IsAhead};
ghost use Rattle.fleet_disk.specs.Image.{bytes_of};
ghost use Rattle.fleet_disk.specs.Passing.{HostStays};
ghost use Rattle.fleet_disk.specs.Rules.{IsRead};

use crate::calls::HostCalls;
use crate::copy::copy_from;
use crate::disk::{DiskFault, DiskFile};
use std::alloc::Global;

/// How many bytes are read at once where fewer are asked for.
const AHEAD_BYTES: usize = 65_536;

/// A stretch of a file, as a read gave it: the first `len` of these bytes, which stand from `at` on.
#[derive(Drop)]
pub struct Ahead {
    pub at: u64,
    pub len: usize,
    pub bytes: Vec<u8>,
    ghost within: { len ≤ length bytes.items },
}

impl Ahead {
    // Nothing of a file, and no memory yet.
    pub fn nothing(alloc: Global) -> Ahead
        ensures { result.len ≡ 0 }
    {
        Ahead {
            at: 0,
            len: 0,
            bytes: Vec::new(alloc),
        }
    }

    // Forgets what was read.
    pub fn forget(&mut self)
        ensures { self.new.len ≡ 0 }
    {
        self.len = 0;
    }

    // It has the byte at this place of its file.
    fn has(&self, at: u64) -> bool
        ensures { IsTrue result → (self.now.at ≤ at) × (at < self.now.at + self.now.len) }
    {
        at >= self.at && at - self.at < self.len as u64
    }

    // It has memory to read to, or gets it.
    fn has_room(&mut self) -> bool
        ensures room { IsTrue result → 0 < length self.new.bytes.items }
        ensures ahead { (file : List ℕ) → IsAhead file self.old.at self.old.len self.old.bytes.items
            → IsAhead file self.new.at self.new.len self.new.bytes.items }
    {
        if self.bytes.len() == AHEAD_BYTES {
            return true;
        }
        self.len = 0;
        self.bytes.resize(AHEAD_BYTES, 0).is_ok()
    }

    // Copies what it has from this place of its file on into the front of a buffer, and says how many bytes.
    fn copy(&self, at: u64, buf: &mut [u8]) -> usize
        requires { self.now.at ≤ at }
        ensures { IsRead (take self.now.len self.now.bytes.items) (at - self.now.at) result buf.old buf.new }
    {
        copy_from(&self.bytes[..self.len], (at - self.at) as usize, buf)
    }
}

// Has the byte at this place of the file read ahead, where there is one.
fn look_ahead<H: HostCalls>(
    host: &mut H,
    ahead: &mut Ahead,
    file: DiskFile,
    at: u64,
) -> Result<(), DiskFault>
    requires room { 0 < length ahead.old.bytes.items }
    requires ahead { H.honest host.old → IsAhead (bytes_of file (H.reads host.old)) ahead.old.at ahead.old.len
        ahead.old.bytes.items }
    ensures ahead { H.honest host.old → IsAhead (bytes_of file (H.reads host.old)) ahead.new.at ahead.new.len
        ahead.new.bytes.items }
    ensures from { OnOk result (ahead.new.at ≤ at) }
    ensures to { OnOk result (at ≤ ahead.new.at + ahead.new.len) }
    ensures there { H.honest host.old → OnOk result (at < length (bytes_of file (H.reads host.old))
        → at < ahead.new.at + ahead.new.len) }
    ensures stays { HostStays H.HostCalls host.old host.new result }
{
    if ahead.has(at) {
        return Ok(());
    }
    ahead.len = 0;
    let len = host.read_at(file, at, &mut ahead.bytes)?;
    ahead.at = at;
    ahead.len = len;
    Ok(())
}

// A read of a file by way of what was read of it ahead. A long one goes to the host itself, and each where there is no
// memory to read to.
pub fn read_through<H: HostCalls>(
    host: &mut H,
    ahead: &mut Ahead,
    file: DiskFile,
    at: u64,
    buf: &mut [u8],
) -> Result<usize, DiskFault>
    requires ahead { H.honest host.old → IsAhead (bytes_of file (H.reads host.old)) ahead.old.at ahead.old.len
        ahead.old.bytes.items }
    ensures ahead { H.honest host.old → IsAhead (bytes_of file (H.reads host.old)) ahead.new.at ahead.new.len
        ahead.new.bytes.items }
    ensures within { IfOk result (λ n. n ≤ length buf.old) }
    ensures bytes { H.honest host.old → IfOk result (λ n. IsRead
        (bytes_of file (H.reads host.old)) at n buf.old buf.new) }
    ensures stays { HostStays H.HostCalls host.old host.new result }
{
    if buf.len() >= AHEAD_BYTES {
        return host.read_at(file, at, buf);
    }
    if !ahead.has_room() {
        return host.read_at(file, at, buf);
    }
    look_ahead(host, ahead, file, at)?;
    Ok(ahead.copy(at, buf))
}
