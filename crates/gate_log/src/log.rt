//! The log.
ghost use Rattle.std.specs.Prelude.{◌≡◌, ◌<◌, ◌≤◌, ◌+◌, ◌^◌, ◌↔◌, false};
ghost use Rattle.std.specs.Prelude.{length, slice_get, Some, IsTrue, IfOk, IfErr, OnOk, IsErrOf};
ghost use Rattle.std.proofs.Props.{props};
ghost use Rattle.fleet_disk.specs.Image.{no_bytes};
ghost use Rattle.fleet_disk.specs.Rules.{Only};
ghost use Rattle.gate_log.specs.Device.{IsFailure, IsSafe, Leaves};
ghost use Rattle.gate_log.specs.Faults.{IsLogFault, IsReadingFault, IsReserveFault};
ghost use Rattle.gate_log.specs.Standing.{IsAtRest, IsBlank, IsEither, IsRising};
ghost use Rattle.gate_log.specs.StandingLaws.{rising_prop, rest_prop};
ghost use Rattle.gate_log.specs.Version.{IsOf};
ghost use Rattle.gate_log.specs.declared.fault.LogFault.TheVariants.{DeviceFailed, Failed, LogFull, OutOfMemory};
ghost use Rattle.gate_log.specs.declared.version.LogVersion.TheVariants.{First};

use crate::create::begin;
use crate::ends::{bounds, end_of};
use crate::fault::LogFault;
use crate::migrate::migrate;
use crate::put::put_entry;
use crate::reads::read_part;
use crate::recover::recover;
use crate::version::LogVersion;
use fleet_disk::Disk;
use std::alloc::Global;

/// The most bytes that a journal has.
pub const MOST_BYTES: u64 = 1 << 56;

/// A log of entries on a disk, each of them whole or not there.
///
/// The entries stand one behind another in the file `journal`; the file `slots` says which of them count, with the MD5
/// of each, or in the first version the file `gate`, without. After a failure of the device every call answers Failed
/// (32), and the disk has to be opened again.
#[derive(Drop)]
pub struct GateLog<D: Disk> {
    disk: D,
    version: LogVersion,
    ends: Vec<u64>,
    failed: bool,
    ghost rising: { IsRising 0 ends.items } by { rising_prop 0 ends.items },
    ghost begun: { version ≡ First → 0 < length ends.items } by { Prim.hlevel props },
    ghost at_rest: { D.honest disk → failed ≡ false → IsAtRest version ends.items (D.reads disk) } by { rest_prop (D.honest disk) (failed ≡ false) version ends.items (D.reads disk) },
    ghost durable: { D.honest disk → failed ≡ false → IsSafe D.Disk disk } by { Prim.hlevel props },
}

/// A sign that an entry is on the disk: only an append that answered Ok makes one.
#[derive(Drop)]
pub struct Receipt {
    entry: u64,
}

impl Receipt {
    ghost use Rattle.gate_log.specs.Log.{entry_of};

    /// The number of the entry, from 0 on.
    pub fn entry(&self) -> u64
        ensures { result ≡ entry_of self.now }
    {
        self.entry
    }
}

impl<D: Disk> GateLog<D> {
    ghost use Rattle.gate_log.specs.Calls.{ActsIn, AppendsThrough, HandsOn, IsAppended, IsCreated, IsMadeSecond, IsOpened};
    ghost use Rattle.gate_log.specs.Calls.{KeepsEntries, NotAppended, NotCreated, NotOpened, StaysFirst};
    ghost use Rattle.gate_log.specs.Log.{disk_left, disk_of, version_of, ends_of, size_of, entries_of};
    ghost use Rattle.gate_log.specs.Log.{FailsBy, HasFailed, HasRoom, IsFull, IsHonest, Lasts, LeavesAfter, LooksIn};
    ghost use Rattle.gate_log.specs.Log.{WhileWorking};
    ghost use Rattle.gate_log.specs.Recovered.{OpensThrough};

    /// Begins a log without entries, of the second version, on a disk of empty files. Until it has answered Ok a stop
    /// leaves no entry and one gate at most, of any value, so that an opening answers NoRepository (34). The first append
    /// takes no memory. It answers OutOfMemory (70) before it asks the disk for anything, ThereAlready (35) where a
    /// file isn't empty, and DeviceFailed (31). A refusal hands the disk back; one with something on it then is as it
    /// was: a read gives what it gave, and a stop leaves what it could leave, at each moment too.
    pub fn create(alloc: Global, disk: D) -> Result<GateLog<D>, (LogFault, D)>
        ensures begun { IfOk result (IsCreated D.Disk disk) }
        ensures refused { IfErr result (NotCreated D.Disk disk) }
        ensures any_moment { D.honest disk → Only no_bytes (D.may_leave disk) → Leaves D.Disk disk (disk_left result)
            IsBlank }
        ensures acts { HandsOn D.Disk disk result }
    {
        let Ok(ends) = Vec::with_capacity(alloc, 1) else {
            return Err((LogFault::OutOfMemory, disk));
        };
        let mut disk = disk;
        match begin(&mut disk) {
            Ok(()) => Ok(GateLog {
                disk,
                version: LogVersion::Second,
                ends,
                failed: false,
            }),
            Err(fault) => Err((fault, disk)),
        }
    }

    /// Opens the log that a disk holds: syncs, finds the entries that stand, and cuts what is behind them. Until the
    /// first sync has succeeded a stop leaves what it could leave before, and from then on an image that stands for
    /// the entries that a read gave. It answers NoRepository (34) where the first gate is missing or closed, Damaged
    /// (33) with the first entry whose length, sum or next gate breaks the format, DeviceFailed (31) and OutOfMemory (70);
    /// a refusal hands the disk back. But for 31 a read of it then gives what it gave, a stop leaves that, and at each
    /// moment left what it could leave before. At no moment of an opening does a stop leave another version than that of
    /// what a read gave, but for what it could leave before.
    pub fn open(alloc: Global, disk: D) -> Result<GateLog<D>, (LogFault, D)>
        ensures opened { IfOk result (IsOpened D.Disk disk) }
        ensures refused { IfErr result (NotOpened D.Disk disk) }
        ensures any_moment { OpensThrough D.Disk disk (disk_left result) }
        ensures acts { HandsOn D.Disk disk result }
    {
        let mut disk = disk;
        match recover(alloc, &mut disk) {
            Ok(found) => Ok(GateLog {
                disk,
                version: found.version,
                ends: found.ends,
                failed: false,
            }),
            Err(fault) => Err((fault, disk)),
        }
    }

    /// How many entries there are. While no call has failed, they stand in each image that a stop may leave.
    #[tactic(auto, using(crate::proofs::EndLemmas::length_parts))]
    pub fn len(&self) -> u64
        ensures count { result ≡ length (ends_of self.now) }
        ensures entries { result ≡ length (entries_of self.now) }
        ensures stand { WhileWorking self.now (Lasts self.now) }
    {
        self.ends.len() as u64
    }

    /// Its layout. While no call has failed, each image that a stop may leave has that.
    pub fn version(&self) -> LogVersion
        ensures version { result ≡ version_of self.now }
        ensures stand { WhileWorking self.now (LeavesAfter self.now (IsOf result)) }
    {
        self.version
    }

    /// There is no entry.
    #[tactic(auto, using(crate::proofs::EndLemmas::length_parts))]
    pub fn is_empty(&self) -> bool
        ensures { IsTrue result ↔ (length (entries_of self.now) ≡ 0) }
    {
        self.ends.is_empty()
    }

    /// The device failed in a call of this log.
    pub fn has_failed(&self) -> bool
        ensures { IsTrue result ↔ HasFailed self.now }
    {
        self.failed
    }

    /// The disk, with what the calls have left there.
    pub fn into_disk(self) -> D
        ensures { result ≡ disk_of self }
    {
        let GateLog {
            disk,
            version: _,
            ends: _,
            failed: _,
        } = self;
        disk
    }

    /// Makes the growths of an append of so many bytes: that append, made next, takes no memory. It answers
    /// Failed (32) after a failure of the device, LogFull (36) where the journal would pass 2^56 bytes, and
    /// OutOfMemory (70); the entries stay as they are.
    pub fn reserve(&mut self, count: usize) -> Result<(), LogFault>
        ensures room { OnOk result (HasRoom self.new) }
        ensures fits { OnOk result (size_of self.old + count ≤ 2 ^ 56) }
        ensures disk { disk_of self.new ≡ disk_of self.old }
        ensures entries { ends_of self.new ≡ ends_of self.old }
        ensures version { version_of self.new ≡ version_of self.old }
        ensures working { HasFailed self.new ↔ HasFailed self.old }
        ensures failed { IsErrOf result Failed ↔ HasFailed self.old }
        ensures full { IsErrOf result LogFull ↔ IsFull self.old count }
        ensures memory { IsErrOf result OutOfMemory → ¬ HasRoom self.old }
        ensures no_other { IfErr result IsReserveFault }
    {
        if self.failed {
            return Err(LogFault::Failed);
        }
        let more = count as u64;
        if more > MOST_BYTES || end_of(&self.ends) > MOST_BYTES - more {
            return Err(LogFault::LogFull);
        }
        self.ends.reserve(1)?;
        Ok(())
    }

    /// Adds an entry, which may not be empty. At each moment of the call a stop leaves the old entries, or these and
    /// the new one; once it has answered Ok, always the new one too. It answers Failed (32) after a failure of the
    /// device, LogFull (36) where the journal would pass 2^56 bytes, OutOfMemory (70) only without `reserve`, and
    /// DeviceFailed (31), after which either may stand; the other refusals leave the disk alone.
    pub fn append(&mut self, bytes: &[u8]) -> Result<Receipt, LogFault>
        requires { 0 < length bytes.now }
        ensures added { IfOk result (IsAppended bytes.now self.old self.new) }
        ensures refused { IfErr result (NotAppended self.old self.new) }
        ensures full { IsErrOf result LogFull ↔ IsFull self.old (length bytes.now) }
        ensures any_moment { AppendsThrough bytes.now self.old self.new }
        ensures either { IsHonest self.old → IsErrOf result DeviceFailed → LeavesAfter self.new (IsEither (entries_of
            self.old) bytes.now) }
        ensures version { version_of self.new ≡ version_of self.old }
        ensures acts { ActsIn self.old self.new result }
    {
        self.reserve(bytes.len())?;
        let entry = self.ends.len() as u64;
        let end = end_of(&self.ends) + bytes.len() as u64;
        self.failed = true;
        put_entry(&mut self.disk, self.version, &self.ends, bytes)?;
        self.ends.push_reserved(end);
        self.failed = false;
        Ok(Receipt { entry })
    }

    /// The bytes of an entry, of which there is one of this number. It answers Failed (32) after a failure of the
    /// device, DeviceFailed (31) and OutOfMemory (70), and Damaged (33) only where the disk has fewer bytes than an
    /// honest one; the entries stay as they are.
    pub fn read_entry(&mut self, alloc: Global, entry: u64) -> Result<Vec<u8>, LogFault>
        requires { entry < length (ends_of self.old) }
        ensures bytes { IsHonest self.old → IfOk result (λ bytes. slice_get (entries_of self.old) entry ≡ Some
            bytes.items) }
        ensures looks { LooksIn self.old self.new }
        ensures device { IsFailure D.Disk (disk_of self.old) (disk_of self.new) result }
        ensures failed { IsErrOf result Failed ↔ HasFailed self.old }
        ensures working { FailsBy self.old self.new result }
        ensures no_other { IsHonest self.old → IfErr result IsLogFault }
        ensures faults { IfErr result (IsReadingFault entry) }
    {
        if self.failed {
            return Err(LogFault::Failed);
        }
        let (start, end) = bounds(&self.ends, entry as usize);
        match read_part(alloc, &mut self.disk, entry, start, end) {
            Ok(bytes) => Ok(bytes),
            Err(LogFault::DeviceFailed) => {
                self.failed = true;
                Err(LogFault::DeviceFailed)
            }
            Err(fault) => Err(fault),
        }
    }

    /// Makes the second version of a log of the first, and answers how many entries that are; a log of the second is
    /// left alone, with 0. First come the growths and the reads for the sums; then `slots` is emptied, begun with a
    /// closed gate, and filled, its first gate is opened, and `gate` is emptied, with a sync behind each. At each moment
    /// of the call a stop leaves what stands for the same entries, so it may be stopped and made again. It answers
    /// Failed (32) after a failure of the device, DeviceFailed (31) and OutOfMemory (70), which leaves the disk alone,
    /// and Damaged (33) only where the disk has fewer bytes than an honest one; the entries stay as they are.
    pub fn upgrade(&mut self, alloc: Global) -> Result<u64, LogFault>
        ensures made { IfOk result (IsMadeSecond self.old self.new) }
        ensures refused { IfErr result (StaysFirst self.old self.new) }
        ensures keeps { KeepsEntries self.old self.new }
        ensures acts { ActsIn self.old self.new result }
    {
        if self.failed {
            return Err(LogFault::Failed);
        }
        match self.version {
            LogVersion::Second => Ok(0),
            LogVersion::First => match migrate(alloc, &mut self.disk, &self.ends) {
                Ok(()) => {
                    self.version = LogVersion::Second;
                    Ok(self.ends.len() as u64)
                }
                Err(LogFault::DeviceFailed) => {
                    self.failed = true;
                    Err(LogFault::DeviceFailed)
                }
                Err(fault) => Err(fault),
            },
        }
    }
}
