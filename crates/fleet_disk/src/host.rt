//! A disk over the calls of a host.
ghost use Rattle.std.specs.Prelude.{◌≡◌, true, false, OnOk};
ghost use Rattle.std.proofs.Props.{props};
ghost use Rattle.fleet_disk.specs.Ahead.{IsAhead};
ghost use Rattle.fleet_disk.specs.Passing.{HostStays};
ghost use Rattle.fleet_disk.specs.Rests.{Rests};
ghost use Rattle.fleet_disk.specs.declared.disk.DiskFile.TheVariants.{Journal, Gate, Slots};

use crate::ahead::{Ahead, read_through};
use crate::calls::HostCalls;
use crate::disk::{Disk, DiskFault, DiskFile};
use std::alloc::Global;

/// The files `journal`, `gate` and `slots` of a folder, by the calls of a host.
///
/// It keeps the rules of a disk where the host keeps its own. A sync syncs the files that were written or cut since the
/// last one, and at first all, for what an earlier process left. A file is read by 64 KiB at once, as long as there is
/// memory for that, and what was read ahead is forgotten when a file is written or cut. A file that has the length that it
/// is to be cut to stays as it is, and so do its times. A call is refused only where one of the host failed.
#[derive(Drop)]
pub struct HostDisk<H: HostCalls> {
    host: H,
    journal_ahead: Ahead,
    gate_ahead: Ahead,
    slots_ahead: Ahead,
    journal_rests: bool,
    gate_rests: bool,
    slots_rests: bool,
    ghost ahead_in_journal: { H.honest host → IsAhead (H.reads host).journal journal_ahead.at journal_ahead.len
        journal_ahead.bytes.items } by { Prim.hlevel props },
    ghost ahead_in_gate: { H.honest host → IsAhead (H.reads host).gate gate_ahead.at gate_ahead.len
        gate_ahead.bytes.items } by { Prim.hlevel props },
    ghost ahead_in_slots: { H.honest host → IsAhead (H.reads host).slots slots_ahead.at slots_ahead.len
        slots_ahead.bytes.items } by { Prim.hlevel props },
    ghost journal: { H.honest host → journal_rests ≡ true
        → Rests Journal (H.reads host) (H.may_leave host) } by { Prim.hlevel props },
    ghost gate: { H.honest host → gate_rests ≡ true
        → Rests Gate (H.reads host) (H.may_leave host) } by { Prim.hlevel props },
    ghost slots: { H.honest host → slots_rests ≡ true
        → Rests Slots (H.reads host) (H.may_leave host) } by { Prim.hlevel props },
}

impl<H: HostCalls> HostDisk<H> {
    /// A disk of these files.
    pub fn new(alloc: Global, host: H) -> HostDisk<H>
        ensures { result.host ≡ host }
    {
        HostDisk {
            host,
            journal_ahead: Ahead::nothing(alloc),
            gate_ahead: Ahead::nothing(alloc),
            slots_ahead: Ahead::nothing(alloc),
            journal_rests: false,
            gate_rests: false,
            slots_rests: false,
        }
    }

    // The file may be changed from here on.
    fn stir(&mut self, file: DiskFile)
        ensures host { self.new.host ≡ self.old.host }
        ensures nothing { (self.new.journal_ahead.len ≡ 0) × (self.new.gate_ahead.len ≡ 0)
            × (self.new.slots_ahead.len ≡ 0) }
        ensures journal { file ≡ Journal → self.new.journal_rests ≡ false }
        ensures gate { file ≡ Gate → self.new.gate_rests ≡ false }
        ensures slots { file ≡ Slots → self.new.slots_rests ≡ false }
    {
        self.journal_ahead.forget();
        self.gate_ahead.forget();
        self.slots_ahead.forget();
        match file {
            DiskFile::Journal => self.journal_rests = false,
            DiskFile::Gate => self.gate_rests = false,
            DiskFile::Slots => self.slots_rests = false,
        }
    }
}

impl<H: HostCalls> Disk for HostDisk<H> {
    ghost honest = { λ disk. H.honest disk.host };

    ghost reads = { λ disk. H.reads disk.host };

    ghost may_leave = { λ disk. H.may_leave disk.host };

    ghost clock = { λ disk. H.clock disk.host };

    ghost left_since = { λ disk. H.left_since disk.host };

    ghost failures = { λ disk. H.failures disk.host };

    ghost counts_now = { λ disk t c. H.counts_now disk.host t c };

    ghost only_now = { λ disk c. H.only_now disk.host c };

    ghost reads_left = { λ disk. H.reads_left disk.host };

    fn read(&mut self, file: DiskFile, at: u64, buf: &mut [u8]) -> Result<usize, DiskFault> {
        match file {
            DiskFile::Journal => {
                read_through(&mut self.host, &mut self.journal_ahead, file, at, buf)
            }
            DiskFile::Gate => read_through(&mut self.host, &mut self.gate_ahead, file, at, buf),
            DiskFile::Slots => read_through(&mut self.host, &mut self.slots_ahead, file, at, buf),
        }
    }

    fn len(&mut self, file: DiskFile) -> Result<u64, DiskFault> {
        self.host.length(file)
    }

    fn write_at(&mut self, file: DiskFile, at: u64, bytes: &[u8]) -> Result<(), DiskFault> {
        self.stir(file);
        self.host.write_all_at(file, at, bytes)
    }

    fn cut(&mut self, file: DiskFile, len: u64) -> Result<(), DiskFault> {
        let length = self.host.length(file)?;
        if length == len {
            return Ok(());
        }
        self.stir(file);
        self.host.truncate(file, len)
    }

    fn sync(&mut self) -> Result<(), DiskFault> {
        sync_stirred(&mut self.host, DiskFile::Journal, &mut self.journal_rests)?;
        sync_stirred(&mut self.host, DiskFile::Gate, &mut self.gate_rests)?;
        sync_stirred(&mut self.host, DiskFile::Slots, &mut self.slots_rests)?;
        Ok(())
    }
}

// Syncs a file that doesn't rest; from then on it does.
fn sync_stirred<H: HostCalls>(
    host: &mut H,
    file: DiskFile,
    rests: &mut bool,
) -> Result<(), DiskFault>
    requires rests { H.honest host.old → rests.old ≡ true → Rests file (H.reads host.old) (H.may_leave host.old) }
    ensures synced { OnOk result (rests.new ≡ true) }
    ensures rests { H.honest host.old → rests.new ≡ true → Rests file (H.reads host.old) (H.may_leave host.new) }
    ensures stays { HostStays H.HostCalls host.old host.new result }
{
    if *rests {
        return Ok(());
    }
    host.sync_file(file)?;
    *rests = true;
    Ok(())
}
