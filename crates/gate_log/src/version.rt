//! The two layouts of a log, and what each decides.
ghost use Rattle.std.specs.Prelude.{◌≡◌, ◌<◌, ◌≤◌, ◌+◌, ◌^◌};
ghost use Rattle.gate_log.specs.Slots.{gates_size};
ghost use Rattle.gate_log.specs.Version.{file_of, gate_place, slot_size, sum_size};

use fleet_disk::DiskFile;

/// How many bytes `slots` has at least, where it has an entry: a slot, and a gate behind it.
const LEAST_SLOTS: u64 = 26;

/// Which layout a log has.
#[derive(Clone, Copy, PartialEq, Eq)]
pub enum LogVersion {
    /// The file `gate` has a gate and a length for each entry.
    First,
    /// The file `slots` has a gate, a length and the MD5 of the entry for each.
    Second,
}

// The file that has the gates.
pub fn gates_file(version: LogVersion) -> DiskFile
    ensures { result ≡ file_of version }
{
    match version {
        LogVersion::First => DiskFile::Gate,
        LogVersion::Second => DiskFile::Slots,
    }
}

// How many bytes a slot has: a gate, a length and in the second version a sum; or a length, a sum and the next gate.
pub fn slot_bytes(version: LogVersion) -> u64
    ensures size { result ≡ slot_size version }
    ensures sum { result ≡ 9 + sum_size version }
    ensures most { result ≤ 25 }
{
    match version {
        LogVersion::First => 9,
        LogVersion::Second => 25,
    }
}

// Where the gate of an entry stands.
pub fn gate_at(version: LogVersion, entry: u64) -> u64
    requires { gates_size version entry < 2 ^ 64 }
    ensures place { result ≡ gate_place version entry }
    ensures room { result + 1 < 2 ^ 64 }
{
    match version {
        LogVersion::First => 9 * entry,
        LogVersion::Second => 25 * entry,
    }
}

// The version where `slots` has so many bytes and begins with an open gate.
pub fn begun(slots: u64) -> LogVersion
    ensures second { 26 ≤ slots → result ≡ LogVersion.Second }
    ensures first { slots < 26 → result ≡ LogVersion.First }
{
    if slots < LEAST_SLOTS {
        return LogVersion::First;
    }
    LogVersion::Second
}

// The version where `gate` has so many bytes and `slots` begins with a closed gate.
pub fn empty(gate: u64) -> LogVersion
    ensures second { gate ≡ 0 → result ≡ LogVersion.Second }
    ensures first { 0 < gate → result ≡ LogVersion.First }
{
    if gate > 0 {
        return LogVersion::First;
    }
    LogVersion::Second
}
