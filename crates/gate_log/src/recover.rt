//! The device calls of an opening.
ghost use Rattle.std.specs.Prelude.{◌≡◌, ◌<◌, IfOk, IfErr, OnOk, OnErr};
ghost use Rattle.fleet_disk.specs.Rules.{Follows};
ghost use Rattle.gate_log.specs.Device.{Acts, ActsFor, ActsSafely, AtEachMoment, EndsSafe, IsSound, MaySettleAs, Passes};
ghost use Rattle.gate_log.specs.Device.{SettlesAs, Tells, Turns};
ghost use Rattle.gate_log.specs.Faults.{IsFindFault};
ghost use Rattle.gate_log.specs.Looks.{LooksFor};
ghost use Rattle.gate_log.specs.Recovered.{Finds, HandsBack, IsRecovered, OpensThrough};
ghost use Rattle.gate_log.specs.Standing.{AreEnds, FindsDamage, FindsNone, IsAtRest, IsCutBack, parts};
ghost use Rattle.gate_log.specs.Standing.{Stands, StandsAs, StandsAt};
ghost use Rattle.gate_log.specs.Version.{IsOf, IsBeside, IsCleared};

use crate::ends::end_of;
use crate::fault::LogFault;
use crate::find::{find_ends, find_version, lengths_of};
use crate::slots::GATE_BYTES;
use crate::version::{LogVersion, gate_at, gates_file};
use fleet_disk::{Disk, DiskFault, DiskFile};
use std::alloc::Global;

/// What an opening finds: the version, and where the entries end.
#[derive(Drop)]
pub struct Found {
    pub version: LogVersion,
    pub ends: Vec<u64>,
}

// Cuts what an upgrade has left of `gate` beside `slots`.
fn clear_gate<D: Disk>(disk: &mut D, version: LogVersion) -> Result<(), DiskFault>
    ensures beside { Turns D.Disk disk.old disk.new result (IsBeside version) }
    ensures cleared { Turns D.Disk disk.old disk.new result (IsCleared version) }
    ensures left { D.honest disk.old → Follows (IsBeside version) (D.may_leave disk.old) (D.may_leave disk.new) }
    ensures time { D.honest disk.old → Passes D.Disk disk.old disk.new }
    ensures acts { Acts D.Disk disk.old disk.new result }
{
    match version {
        LogVersion::First => Ok(()),
        LogVersion::Second => disk.cut(DiskFile::Gate, 0),
    }
}

// Cuts what is behind the entries that stand, and syncs.
fn cut_back<D: Disk>(disk: &mut D, version: LogVersion, ends: &[u64]) -> Result<(), DiskFault>
    requires ends { AreEnds version ends.now }
    requires stands { D.honest disk.old → StandsAt version ends.now (D.reads disk.old) }
    requires durable { IsSound D.Disk disk.old }

    ensures at_rest { Turns D.Disk disk.old disk.new result (λ old. IsAtRest version ends.now) }
    ensures cut { Turns D.Disk disk.old disk.new result (IsCutBack version ends.now) }
    ensures same { Turns D.Disk disk.old disk.new result (λ old new. parts 0 ends.now new.journal ≡ parts 0 ends.now
        old.journal) }
    ensures any_moment { AtEachMoment D.Disk disk.old disk.new (λ c. Stands c (parts 0 ends.now (D.reads
        disk.old).journal) × IsOf version c) }
    ensures acts { ActsSafely D.Disk disk.old disk.new result }
{
    let end = end_of(ends);
    let gate = gate_at(version, ends.len() as u64);
    disk.cut(DiskFile::Journal, end)?;
    disk.cut(gates_file(version), gate + GATE_BYTES)?;
    clear_gate(disk, version)?;
    disk.sync()?;
    Ok(())
}

// The version, and where the entries that stand end.
fn look<D: Disk>(alloc: Global, disk: &mut D) -> Result<Found, LogFault>
    ensures is { Tells D.Disk disk.old result (λ found. IsOf found.version) }
    ensures stands { Tells D.Disk disk.old result (λ found. StandsAt found.version found.ends.items) }
    ensures ends { IfOk result (λ found. AreEnds found.version found.ends.items) }
    ensures damaged { FindsDamage D.Disk disk.old result }
    ensures missing { FindsNone D.Disk disk.old result }
    ensures no_other { IfErr result IsFindFault }
    ensures looks { LooksFor D.Disk disk.old disk.new result }
{
    let version = find_version(disk)?;
    let lengths = lengths_of(disk, version)?;
    let ends = find_ends(alloc, disk, &lengths)?;
    Ok(Found { version, ends })
}

// Syncs, finds the entries that stand, and cuts what is behind them.
pub fn recover<D: Disk>(alloc: Global, disk: &mut D) -> Result<Found, LogFault>
    ensures done { D.honest disk.old → IfOk result (λ found. IsRecovered found (D.reads disk.old) (D.reads disk.new)) }
    ensures durable { EndsSafe D.Disk disk.old disk.new result }
    ensures ends { IfOk result (λ found. AreEnds found.version found.ends.items) }
    ensures finds { Finds D.Disk disk.old result }
    ensures acts { ActsFor D.Disk disk.old disk.new result }
    ensures any_moment { OpensThrough D.Disk disk.old disk.new }
    ensures settles { D.honest disk.old
        → OnOk result (SettlesAs D.Disk disk.old disk.new (StandsAs (D.reads disk.old))) }
    ensures settles_err { D.honest disk.old → OnErr result (MaySettleAs D.Disk disk.old disk.new (StandsAs (D.reads
        disk.old))) }
    ensures kept { IfErr result (HandsBack D.Disk disk.old disk.new) }
{
    disk.sync()?; // From here on a stop leaves what a read gives.
    let found = look(alloc, disk)?;
    cut_back(disk, found.version, &found.ends)?;
    Ok(found)
}
