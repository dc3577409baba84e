//! A disk in memory, which remembers its calls and can be stopped.
ghost use Rattle.std.specs.Prelude.{◌≡◌, ◌≤◌, ℕ, [], length, take, IfOk, OnOk, ⊤};
ghost use Rattle.fleet_disk.specs.Contents.{image_of};
ghost use Rattle.fleet_disk.specs.Image.{Image, bytes_of};
ghost use Rattle.fleet_disk.specs.Memory.{read_after};
ghost use Rattle.fleet_disk.specs.Rules.{overwritten, IsRead, Only, Torn, CutBack, OnFile, Follows};

use crate::call::{DiskCall, Pick};
use crate::contents::Contents;
use crate::copy::copy_from;
use crate::disk::{Disk, DiskFault, DiskFile};
use std::alloc::{AllocError, Global};

/// A disk in memory. It keeps what it had at first and each call since that was answered Ok, so that a stop can leave
/// any of the images that the rules allow. A growth that is refused in it is a failure of the device.
#[derive(Drop)]
pub struct MemDisk {
    alloc: Global,
    first: Contents,
    files: Contents,
    calls: Vec<DiskCall>,
    failures: u64,
    ghost kept: { read_after (image_of first) calls.items ≡ image_of files },
}

impl MemDisk {
    ghost use Rattle.fleet_disk.specs.Stopped.{calls_of, now_of, picked_of, Fails, IsNew, MayLeave, Writes};

    /// A disk of three empty files.
    pub fn new(alloc: Global) -> MemDisk
        ensures { IsNew [] [] [] result }
    {
        MemDisk {
            alloc,
            first: Contents::new(alloc),
            files: Contents::new(alloc),
            calls: Vec::new(alloc),
            failures: 0,
        }
    }

    /// A disk of three files with these bytes, all of them synced. Memory may be refused.
    pub fn with_bytes(
        alloc: Global,
        journal: &[u8],
        gate: &[u8],
        slots: &[u8],
    ) -> Result<MemDisk, AllocError>
        ensures { IfOk result (IsNew journal.now gate.now slots.now) }
    {
        let first = Contents {
            journal: journal.to_vec(alloc)?,
            gate: gate.to_vec(alloc)?,
            slots: slots.to_vec(alloc)?,
        };
        MemDisk::holding(alloc, first)
    }

    fn holding(alloc: Global, first: Contents) -> Result<MemDisk, AllocError>
        ensures now { IfOk result (λ disk. now_of disk ≡ image_of first) }
        ensures calls { IfOk result (λ disk. calls_of disk ≡ []) }
    {
        let files = first.copy(alloc)?;
        Ok(MemDisk {
            alloc,
            first,
            files,
            calls: Vec::new(alloc),
            failures: 0,
        })
    }

    /// The bytes that a read gives of a file.
    pub fn bytes(&self, file: DiskFile) -> &[u8]
        ensures { result.now ≡ bytes_of file (now_of self.now) }
    {
        self.files.bytes(file)
    }

    /// The calls that were answered Ok, the first of them first.
    pub fn calls(&self) -> &[DiskCall]
        ensures { result.now ≡ calls_of self.now }
    {
        self.calls.as_slice()
    }

    /// The disk as a stop leaves it now: one of the images that it may leave, as the pick says. `New` leaves what
    /// was written. Memory may be refused.
    pub fn crash(&self, pick: Pick) -> Result<MemDisk, AllocError>
        ensures picked { IfOk result (λ disk. now_of disk ≡ picked_of pick self.now) }
        ensures left { IfOk result (λ disk. MayLeave self.now (now_of disk)) }
        ensures durable { IfOk result (λ disk. Only (now_of disk) (MayLeave disk)) }
        ensures calls { IfOk result (λ disk. calls_of disk ≡ []) }
    {
        let mut left = self.first.copy(self.alloc)?;
        let mut read = self.first.copy(self.alloc)?;
        for call in &self.calls {
            left.stop(self.alloc, pick, call, &read)?;
            read.run(self.alloc, call)?;
        }
        let disk = MemDisk::holding(self.alloc, left)?;
        Ok(disk)
    }

    // Counts a failure of the device.
    fn fail(&mut self) -> DiskFault
        ensures { Fails self.old self.new }
    {
        self.failures = self.failures.saturating_add(1);
        DiskFault::DeviceFailed
    }

    // Writes and remembers it, or changes nothing.
    fn write(&mut self, file: DiskFile, at: u64, bytes: &[u8]) -> Result<(), AllocError>
        ensures { Writes file at bytes.now self.old self.new result }
    {
        self.calls.reserve(1)?;
        let kept = bytes.to_vec(self.alloc)?;
        self.files.overwrite(self.alloc, file, at, bytes)?;
        self.calls.push_reserved(DiskCall::Write {
            file,
            at,
            bytes: kept,
        });
        Ok(())
    }
}

impl Disk for MemDisk {
    ghost use Rattle.fleet_disk.specs.MemoryLaws.{counted_now, only_left, read_is_left};
    ghost use Rattle.fleet_disk.specs.Stopped.{calls_of, now_of, GoesIn, MayLeave, Remembers, RemembersWrite, StaysIn, WasLeft};
    ghost use Rattle.std.proofs.Common.{subst};

    ghost honest = { λ disk. ⊤ };

    ghost reads = { now_of };

    ghost may_leave = { MayLeave };

    ghost clock = { λ disk. length (calls_of disk) };

    ghost left_since = { WasLeft };

    ghost failures = { λ disk. disk.failures };

    ghost counts_now = { λ disk t c honest le now. counted_now (image_of disk.first) disk.calls.items t c le now };

    ghost only_now = { λ disk c honest left. only_left (image_of disk.first) disk.calls.items c left };

    ghost reads_left = { λ disk honest. subst (λ (c : Image).
        MayLeave disk c) disk.kept (read_is_left (image_of disk.first) disk.calls.items) };

    fn read(&mut self, file: DiskFile, at: u64, buf: &mut [u8]) -> Result<usize, DiskFault>
        ensures within { IfOk result (λ n. n ≤ length buf.old) }
        ensures bytes { ⊤ → IfOk result (λ n. IsRead
            (bytes_of file (now_of self.old)) at n buf.old buf.new) }
        ensures stays { StaysIn self.old self.new result }
        ensures remembers { Remembers (DiskCall.Read file at (length buf.old)) self.old self.new result }
    {
        let len = buf.len();
        if self.calls.reserve(1).is_err() {
            return Err(self.fail());
        }
        self.calls.push_reserved(DiskCall::Read { file, at, len });
        Ok(copy_from(self.files.bytes(file), at as usize, buf))
    }

    fn len(&mut self, file: DiskFile) -> Result<u64, DiskFault>
        ensures bytes { ⊤ → IfOk result (λ n. n ≡ length (bytes_of file (now_of self.old))) }
        ensures stays { StaysIn self.old self.new result }
        ensures remembers { Remembers (DiskCall.Len file) self.old self.new result }
    {
        if self.calls.reserve(1).is_err() {
            return Err(self.fail());
        }
        self.calls.push_reserved(DiskCall::Len { file });
        Ok(self.files.bytes(file).len() as u64)
    }

    fn write_at(&mut self, file: DiskFile, at: u64, bytes: &[u8]) -> Result<(), DiskFault>
        requires { ⊤ → at ≤ length (bytes_of file (now_of self.old)) }
        ensures written { ⊤ → OnOk result (OnFile file (λ old new.
            new ≡ overwritten at bytes.now old) (now_of self.old) (now_of self.new)) }
        ensures left { ⊤ → Follows (OnFile file (Torn at (length bytes.now))) (MayLeave self.old)
            (MayLeave self.new) }
        ensures goes { GoesIn self.old self.new result }
        ensures remembers { RemembersWrite file at bytes.now self.old self.new result }
    {
        match self.write(file, at, bytes) {
            Ok(()) => Ok(()),
            Err(_) => Err(self.fail()),
        }
    }

    fn cut(&mut self, file: DiskFile, len: u64) -> Result<(), DiskFault>
        requires { ⊤ → len ≤ length (bytes_of file (now_of self.old)) }
        ensures cut { ⊤ → OnOk result (OnFile file (λ old new.
            new ≡ take len old) (now_of self.old) (now_of self.new)) }
        ensures left { ⊤ → Follows (OnFile file (CutBack len)) (MayLeave self.old) (MayLeave self.new) }
        ensures goes { GoesIn self.old self.new result }
        ensures remembers { Remembers (DiskCall.Cut file len) self.old self.new result }
    {
        if self.calls.reserve(1).is_err() {
            return Err(self.fail());
        }
        self.files.cut(file, len);
        self.calls.push_reserved(DiskCall::Cut { file, len });
        Ok(())
    }

    fn sync(&mut self) -> Result<(), DiskFault>
        ensures durable { ⊤ → OnOk result (Only (now_of self.old) (MayLeave self.new)) }
        ensures stays { StaysIn self.old self.new result }
        ensures remembers { Remembers DiskCall.Sync self.old self.new result }
    {
        if self.calls.reserve(1).is_err() {
            return Err(self.fail());
        }
        self.calls.push_reserved(DiskCall::Sync);
        Ok(())
    }
}
