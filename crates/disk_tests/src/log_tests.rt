//! Logs over disks in memory and a folder: what an opening finds after each stop and each failure.

use crate::folders::{Deed, first_undone, made_disk, opened_disk};
use crate::steps::{GATE, SLOTS, none_wrong};
use fleet_disk::{Disk, DiskFile, Fuse, FuseDisk, MemDisk, Pick};
use gate_log::{GateLog, LogFault, LogVersion, one_verdict};
use std::alloc::Global;
use std::process::Abort;

pub(crate) const PICKS: [Pick; 4] = [Pick::Old, Pick::New, Pick::Fill(1), Pick::Fill(0x37)];

// What stands after so many calls of an append, for each pick: the gate's write decides.
const STANDING: [[u64; 4]; 6] = [
    [1, 1, 1, 1],
    [1, 1, 1, 1],
    [1, 1, 1, 1],
    [1, 1, 1, 1],
    [1, 2, 2, 1],
    [2, 2, 2, 2],
];

pub(crate) fn created<D: Disk + Drop>(alloc: Global, disk: D) -> Result<GateLog<D>, LogFault> {
    match GateLog::create(alloc, disk) {
        Ok(log) => Ok(log),
        Err((fault, _disk)) => Err(fault),
    }
}

pub(crate) fn opened<D: Disk + Drop>(alloc: Global, disk: D) -> Result<GateLog<D>, LogFault> {
    match GateLog::open(alloc, disk) {
        Ok(log) => Ok(log),
        Err((fault, _disk)) => Err(fault),
    }
}

// The number of the entry that is added; None where it is refused.
fn added<D: Disk>(log: &mut GateLog<D>, text: &[u8]) -> Option<u64> {
    if text.is_empty() {
        return None;
    }
    log.append(text).ok().map(|receipt| receipt.entry())
}

// Why an entry isn't added; None where it is.
fn not_added<D: Disk>(log: &mut GateLog<D>) -> Option<LogFault> {
    log.append(b"second").err()
}

// Why the first entry isn't read; None where it is, or isn't there.
fn not_read<D: Disk>(alloc: Global, log: &mut GateLog<D>) -> Option<LogFault> {
    if log.is_empty() {
        return None;
    }
    log.read_entry(alloc, 0).err()
}

// Whether the entry of this number is this text, or isn't there.
fn is_entry<D: Disk>(alloc: Global, log: &mut GateLog<D>, number: u64, text: &[u8]) -> bool {
    if number >= log.len() {
        return true;
    }
    match log.read_entry(alloc, number) {
        Ok(entry) => entry.as_slice() == text,
        Err(_) => false,
    }
}

// Whether there are so many entries, the first of the four texts.
pub(crate) fn has_entries<D: Disk>(alloc: Global, log: &mut GateLog<D>, count: u64) -> bool {
    log.len() == count
        && is_entry(alloc, log, 0, b"first")
        && is_entry(alloc, log, 1, b"second")
        && is_entry(alloc, log, 2, b"third")
        && is_entry(alloc, log, 3, b"fourth")
}

// Whether a disk opens with so many entries.
fn opens_with<D: Disk + Drop>(alloc: Global, disk: D, count: u64) -> bool {
    match opened(alloc, disk) {
        Ok(mut log) => has_entries(alloc, &mut log, count),
        Err(_) => false,
    }
}

// Why no log is begun on a disk, or None where one is; and the disk.
fn tried_to_begin<D: Disk + Drop>(alloc: Global, disk: D) -> (Option<LogFault>, D) {
    match GateLog::create(alloc, disk) {
        Ok(log) => (None, log.into_disk()),
        Err((fault, disk)) => (Some(fault), disk),
    }
}

// Why a disk isn't opened, or None where it is; and the disk.
fn tried_to_open<D: Disk + Drop>(alloc: Global, disk: D) -> (Option<LogFault>, D) {
    match GateLog::open(alloc, disk) {
        Ok(log) => (None, log.into_disk()),
        Err((fault, disk)) => (Some(fault), disk),
    }
}

// Why a disk isn't opened; None where it is.
fn not_opened<D: Disk + Drop>(alloc: Global, disk: D) -> Option<LogFault> {
    let (fault, _disk) = tried_to_open(alloc, disk);
    fault
}

// A log on a disk with nothing on it.
fn begun<D: Disk + Drop>(rt: &impl Abort, alloc: Global, disk: D) -> GateLog<D> {
    created(alloc, disk).expect(rt, "a log")
}

// The log of a disk.
pub(crate) fn found<D: Disk + Drop>(rt: &impl Abort, alloc: Global, disk: D) -> GateLog<D> {
    opened(alloc, disk).expect(rt, "a log")
}

// The disk as a stop leaves it.
pub(crate) fn crashed(rt: &impl Abort, disk: &MemDisk, pick: Pick) -> MemDisk {
    disk.crash(pick).expect(rt, "memory")
}

// A disk with one entry, all of it synced.
fn one_entry(rt: &impl Abort, alloc: Global, version: LogVersion) -> MemDisk {
    match version {
        LogVersion::First => with_files(rt, alloc, ONE_GATE, b""),
        LogVersion::Second => with_files(rt, alloc, b"", ONE_SLOT),
    }
}

// How many calls the opening of such a disk makes.
pub(crate) fn opening_calls(rt: &impl Abort, alloc: Global, disk: &MemDisk) -> u64 {
    let log = found(rt, alloc, crashed(rt, disk, Pick::New));
    log.into_disk().calls().len() as u64
}

// A log over a disk with one entry, of which so many calls pass behind its opening.
fn fused(
    rt: &impl Abort,
    alloc: Global,
    version: LogVersion,
    calls: u64,
    fuse: Fuse,
) -> GateLog<FuseDisk<MemDisk>> {
    let disk = one_entry(rt, alloc, version);
    let before = opening_calls(rt, alloc, &disk);
    let fused = FuseDisk::new(disk, before.saturating_add(calls), fuse);
    found(rt, alloc, fused)
}

// The disk after this many calls of appends of `second`, `third` and `fourth`, stopped.
fn stopped(rt: &impl Abort, alloc: Global, version: LogVersion, calls: u64, pick: Pick) -> MemDisk {
    let mut log = fused(rt, alloc, version, calls, Fuse::ForGood);
    let _all = added(&mut log, b"second").is_some()
        && added(&mut log, b"third").is_some()
        && added(&mut log, b"fourth").is_some();
    crashed(rt, &log.into_disk().into_inner(), pick)
}

// Whether a disk that was stopped after so many calls opens with so many entries, in either version.
fn stands(rt: &impl Abort, alloc: Global, calls: u64, pick: Pick, count: u64) -> bool {
    let first = stopped(rt, alloc, LogVersion::First, calls, pick);
    let second = stopped(rt, alloc, LogVersion::Second, calls, pick);
    opens_with(alloc, first, count) && opens_with(alloc, second, count)
}

// How many entries stand after so many calls, for each pick, and how many more: each append makes five calls.
fn standing(calls: u64) -> ([u64; 4], u64) {
    if calls < 6 {
        (STANDING[calls as usize], 0)
    } else {
        (STANDING[(calls % 5) as usize], calls / 5)
    }
}

// The first number of calls below this one after which something else stands.
fn first_fallen(rt: &impl Abort, alloc: Global, most: u64) -> Option<u64> {
    for calls in 0..most {
        let (row, more) = standing(calls);
        for (pick, wanted) in PICKS.iter().zip(row.iter()) {
            if !stands(rt, alloc, calls, *pick, wanted.saturating_add(more)) {
                return Some(calls);
            }
        }
    }
    None
}

#[test]
fn an_append_stopped_after_each_call(rt: HostRuntime) {
    none_wrong(&rt, "calls", first_fallen(&rt, rt.alloc(), 6));
}

#[test]
fn three_appends_stopped_after_each_call(rt: HostRuntime) {
    none_wrong(&rt, "calls", first_fallen(&rt, rt.alloc(), 16));
}

// Whether each call of a log with one entry answers that it failed before.
fn has_failed_for_good<D: Disk>(alloc: Global, log: &mut GateLog<D>) -> bool {
    log.has_failed()
        && log.len() == 1
        && not_added(log) == Some(LogFault::Failed)
        && log.reserve(6).err() == Some(LogFault::Failed)
        && not_read(alloc, log) == Some(LogFault::Failed)
}

// Whether a disk opens with one entry and takes a second.
fn takes_a_second<D: Disk + Drop>(alloc: Global, disk: D) -> bool {
    match opened(alloc, disk) {
        Ok(mut log) => log.len() == 1 && added(&mut log, b"second") == Some(1),
        Err(_) => false,
    }
}

#[test]
fn the_third_call_fails(rt: HostRuntime) {
    let alloc = rt.alloc();
    let mut log = fused(&rt, alloc, LogVersion::Second, 2, Fuse::Once);
    assert!(rt; not_added(&mut log) == Some(LogFault::DeviceFailed));
    assert!(rt; has_failed_for_good(alloc, &mut log));
    assert!(rt; takes_a_second(alloc, log.into_disk()));
}

// Whether a read of a log with one entry fails, and then an append for that.
fn fails_to_read<D: Disk>(alloc: Global, log: &mut GateLog<D>) -> bool {
    log.len() == 1
        && not_read(alloc, log) == Some(LogFault::DeviceFailed)
        && not_added(log) == Some(LogFault::Failed)
}

#[test]
fn a_read_fails(rt: HostRuntime) {
    let alloc = rt.alloc();
    let mut log = fused(&rt, alloc, LogVersion::Second, 0, Fuse::Once);
    assert!(rt; fails_to_read(alloc, &mut log));
    assert!(rt; opens_with(alloc, log.into_disk(), 1));
}

// Whether a creation ends where this call of it fails, and another on the disk that it hands back ends so.
fn is_created_again(alloc: Global, calls: u64, wanted: Option<LogFault>) -> bool {
    let fused = FuseDisk::new(MemDisk::new(alloc), calls, Fuse::Once);
    let (fault, disk) = tried_to_begin(alloc, fused);
    let (again, _disk) = tried_to_begin(alloc, disk);
    fault == Some(LogFault::DeviceFailed) && again == wanted
}

// The first call for which that isn't so.
fn first_not_created(alloc: Global, again: &[Option<LogFault>]) -> Option<u64> {
    for (calls, wanted) in again.iter().enumerate() {
        if !is_created_again(alloc, calls as u64, *wanted) {
            return Some(calls as u64);
        }
    }
    None
}

#[test]
fn a_create_whose_call_fails_hands_the_disk_back(rt: HostRuntime) {
    // The gate is written by the fourth call, and synced by the fifth.
    let again = [None, None, None, None, Some(LogFault::ThereAlready)];
    none_wrong(&rt, "call", first_not_created(rt.alloc(), &again));
}

// A disk whose second entry and its slot lie behind a closed gate.
fn torn(rt: &impl Abort, alloc: Global, version: LogVersion) -> MemDisk {
    stopped(rt, alloc, version, 3, Pick::New)
}

// Whether an opening ends where this call of it fails, and the disk that it hands back opens then.
fn is_opened_again(alloc: Global, disk: MemDisk, calls: u64) -> bool {
    let (fault, disk) = tried_to_open(alloc, FuseDisk::new(disk, calls, Fuse::Once));
    fault == Some(LogFault::DeviceFailed) && opens_with(alloc, disk, 1)
}

// The first call of an opening for which that isn't so.
fn first_not_opened(rt: &impl Abort, alloc: Global) -> Option<u64> {
    let torn = torn(rt, alloc, LogVersion::Second);
    for calls in 0..opening_calls(rt, alloc, &torn) {
        if !is_opened_again(alloc, crashed(rt, &torn, Pick::New), calls) {
            return Some(calls);
        }
    }
    None
}

#[test]
fn an_opening_whose_call_fails_hands_the_disk_back(rt: HostRuntime) {
    none_wrong(&rt, "call", first_not_opened(&rt, rt.alloc()));
}

// Whether a creation that was stopped after so many calls leaves a disk without a repository.
fn is_none_left(rt: &impl Abort, alloc: Global, calls: u64, pick: Pick) -> bool {
    let fused = FuseDisk::new(MemDisk::new(alloc), calls, Fuse::ForGood);
    let (fault, disk) = tried_to_begin(alloc, fused);
    let left = crashed(rt, &disk.into_inner(), pick);
    fault == Some(LogFault::DeviceFailed) && not_opened(alloc, left) == Some(LogFault::NoRepository)
}

// The first of its five calls for which that isn't so.
fn first_left(rt: &impl Abort, alloc: Global) -> Option<u64> {
    for calls in 0u64..5 {
        for pick in &PICKS {
            if !is_none_left(rt, alloc, calls, *pick) {
                return Some(calls);
            }
        }
    }
    None
}

#[test]
fn a_create_stopped_after_each_call(rt: HostRuntime) {
    none_wrong(&rt, "calls", first_left(&rt, rt.alloc()));
}

// Whether an opening that was stopped after so many calls leaves a disk that opens with its one entry.
fn is_left_open(rt: &impl Abort, alloc: Global, torn: &MemDisk, calls: u64, pick: Pick) -> bool {
    let fused = FuseDisk::new(crashed(rt, torn, Pick::New), calls, Fuse::ForGood);
    let (fault, disk) = tried_to_open(alloc, fused);
    let left = crashed(rt, &disk.into_inner(), pick);
    fault == Some(LogFault::DeviceFailed) && opens_with(alloc, left, 1)
}

// The first call of an opening for which that isn't so.
fn first_shut(rt: &impl Abort, alloc: Global, version: LogVersion) -> Option<u64> {
    let torn = torn(rt, alloc, version);
    for calls in 0..opening_calls(rt, alloc, &torn) {
        for pick in &PICKS {
            if !is_left_open(rt, alloc, &torn, calls, *pick) {
                return Some(calls);
            }
        }
    }
    None
}

#[test]
fn an_opening_stopped_after_each_call(rt: HostRuntime) {
    let alloc = rt.alloc();
    none_wrong(
        &rt,
        "calls in the first version",
        first_shut(&rt, alloc, LogVersion::First),
    );
    none_wrong(
        &rt,
        "calls in the second version",
        first_shut(&rt, alloc, LogVersion::Second),
    );
}

// Whether the opening of a disk with one entry leaves this gate and these slots.
fn opens_to(rt: &impl Abort, alloc: Global, disk: MemDisk, gate: &[u8], slots: &[u8]) -> bool {
    has_files(&found(rt, alloc, disk).into_disk(), b"first", gate, slots)
}

// Whether that of one that was torn in this version does.
fn cuts_to(rt: &impl Abort, alloc: Global, version: LogVersion, gate: &[u8], slots: &[u8]) -> bool {
    opens_to(rt, alloc, torn(rt, alloc, version), gate, slots)
}

#[test]
fn an_opening_cuts_what_is_behind(rt: HostRuntime) {
    let alloc = rt.alloc();
    assert!(rt; cuts_to(&rt, alloc, LogVersion::First, ONE_GATE, b""));
    assert!(rt; cuts_to(&rt, alloc, LogVersion::Second, b"", ONE_SLOT));
}

// A disk with one entry, and this gate and these slots.
fn with_files(rt: &impl Abort, alloc: Global, gate: &[u8], slots: &[u8]) -> MemDisk {
    MemDisk::with_bytes(alloc, b"first", gate, slots).expect(rt, "memory")
}

// A gate that an upgrade has left is cut, and what it has left of `slots` stays.
#[test]
fn an_opening_and_the_other_file(rt: HostRuntime) {
    let alloc = rt.alloc();
    let cut = with_files(&rt, alloc, b"left", ONE_SLOT);
    assert!(rt; opens_to(&rt, alloc, cut, b"", ONE_SLOT));
    let kept = with_files(&rt, alloc, ONE_GATE, b"\0left");
    assert!(rt; opens_to(&rt, alloc, kept, ONE_GATE, b"\0left"));
}

// The gate of an entry of five bytes.
const ONE_GATE: &[u8] = b"\x01\0\0\0\0\0\0\0\x05\0";

// Its slot, with the sum that `md5sum` tells of it, and a closed gate.
const ONE_SLOT: &[u8] = b"\x01\0\0\0\0\0\0\0\x05\x8B\x04\xD5\xE3w])\x8ExE^\xFC\x5C\xA4\x04\xD5\0";

// Whether a disk has these files.
pub(crate) fn has_files(disk: &MemDisk, journal: &[u8], gate: &[u8], slots: &[u8]) -> bool {
    disk.bytes(DiskFile::Journal) == journal
        && disk.bytes(DiskFile::Gate) == gate
        && disk.bytes(DiskFile::Slots) == slots
}

// The slots of entries of 149 and 275 bytes.
const LONG_SLOTS: &[u8] =
    b"\x01\0\0\0\0\0\0\0\x95R_\xDB#Q%\xF6\x9A\xFB\x02\x06\x5C?\x8E\x93\x0E\x01\0\0\0\0\0\0\x01\xA8\xC7k\xB6\xE2\xF7;h\xE5\x92\x22\xEE\xC1\xE9iH\x85\0";

// Whether an empty log takes an entry of 149 bytes and one of 275.
fn takes_two(log: &mut GateLog<MemDisk>) -> bool {
    log.is_empty()
        && added(log, &[b'x'; 149]) == Some(0)
        && log.reserve(275).is_ok()
        && added(log, &[b'y'; 275]) == Some(1)
}

#[test]
fn the_bytes_and_the_calls(rt: HostRuntime) {
    let alloc = rt.alloc();
    let mut log = begun(&rt, alloc, MemDisk::new(alloc));
    assert!(rt; takes_two(&mut log));
    let disk = log.into_disk();
    assert!(rt;
        disk.bytes(DiskFile::Journal).len() == 424
            && disk.bytes(DiskFile::Gate).is_empty()
            && disk.bytes(DiskFile::Slots) == LONG_SLOTS
    );
    // Three questions, a write and a sync begin the log; each append makes five calls.
    assert!(rt; disk.calls().len() == 15);
}

// An append in the first version, whose gates have no sums.
#[test]
fn the_bytes_of_the_first_version(rt: HostRuntime) {
    let alloc = rt.alloc();
    let mut log = found(&rt, alloc, one_entry(&rt, alloc, LogVersion::First));
    assert!(rt; log.version() == LogVersion::First && added(&mut log, b"second") == Some(1));
    assert!(rt; has_files(&log.into_disk(), b"firstsecond", WHOLE, b""));
}

// Whether a log has room for so many bytes and no more.
fn has_room_for(log: &mut GateLog<MemDisk>, count: usize) -> bool {
    log.reserve(count).is_ok()
        && log.reserve(count.saturating_add(1)).err() == Some(LogFault::LogFull)
}

#[test]
fn the_limit(rt: HostRuntime) {
    let alloc = rt.alloc();
    let mut log = begun(&rt, alloc, MemDisk::new(alloc));
    assert!(rt; has_room_for(&mut log, 1 << 56));
    assert!(rt; added(&mut log, b"first") == Some(0) && has_room_for(&mut log, (1 << 56) - 5));
}

const NUMBERS: [(LogFault, u8); 7] = [
    (LogFault::DeviceFailed, 31),
    (LogFault::Failed, 32),
    (LogFault::Damaged(7), 33),
    (LogFault::NoRepository, 34),
    (LogFault::ThereAlready, 35),
    (LogFault::LogFull, 36),
    (LogFault::OutOfMemory, 70),
];

// The first fault that has another number.
fn first_misnumbered(table: &[(LogFault, u8)]) -> Option<u64> {
    for (place, numbered) in table.iter().enumerate() {
        let (fault, number) = *numbered;
        if fault.number() != number {
            return Some(place as u64);
        }
    }
    None
}

#[test]
fn the_numbers(rt: HostRuntime) {
    none_wrong(&rt, "faults", first_misnumbered(&NUMBERS));
}

// Whether a fault is told so.
fn is_told_as(alloc: Global, fault: LogFault, text: &str) -> bool {
    match format!(in alloc; "{fault}") {
        Ok(told) => told.as_str() == text,
        Err(_) => false,
    }
}

#[test]
fn a_damaged_entry_is_told(rt: HostRuntime) {
    assert!(rt; is_told_as(rt.alloc(), LogFault::Damaged(7), "entry 7 is damaged"));
}

#[test]
fn the_law_is_called() {
    one_verdict();
}

// Why these files aren't opened; None where they are.
fn refusal(alloc: Global, journal: &[u8], gate: &[u8], slots: &[u8]) -> Option<LogFault> {
    match MemDisk::with_bytes(alloc, journal, gate, slots) {
        Ok(disk) => not_opened(alloc, disk),
        Err(_) => Some(LogFault::OutOfMemory),
    }
}

// How many bytes the journal has of the two entries, its gate or its slots, with how many of their bytes are there, and how
// they are refused.
type Refused<'a> = (usize, DiskFile, &'a [u8], usize, LogFault);

// So many of the first bytes, or all.
fn front(bytes: &[u8], count: usize) -> &[u8] {
    match bytes.get(..count) {
        Some(front) => front,
        None => bytes,
    }
}

// The first of these that isn't refused so.
fn first_taken(alloc: Global, table: &[Refused<'_>]) -> Option<u64> {
    for (place, files) in table.iter().enumerate() {
        let (length, file, bytes, count, wanted) = *files;
        let journal = front(BOTH, length);
        let fault = match file {
            DiskFile::Slots => refusal(alloc, journal, b"", front(bytes, count)),
            _ => refusal(alloc, journal, front(bytes, count), b""),
        };
        if fault != Some(wanted) {
            return Some(place as u64);
        }
    }
    None
}

// The gate of two entries of five and six bytes.
pub(crate) const WHOLE: &[u8] = b"\x01\0\0\0\0\0\0\0\x05\x01\0\0\0\0\0\0\0\x0B\0";

// Their slots, with the sums that `md5sum` tells of them.
pub(crate) const WHOLE_SLOTS: &[u8] =
    b"\x01\0\0\0\0\0\0\0\x05\x8B\x04\xD5\xE3w])\x8ExE^\xFC\x5C\xA4\x04\xD5\x01\0\0\0\0\0\0\0\x0B\xA9\xF0\xE6\x1A\x13}\x86\xAA\x9D\xB54e\xE0\x80\x16\x12\0";

// Whether these files open with two entries, in this version.
fn are_whole(alloc: Global, gate: &[u8], slots: &[u8], version: LogVersion) -> bool {
    let Ok(disk) = MemDisk::with_bytes(alloc, b"firstsecond", gate, slots) else {
        return false;
    };
    match opened(alloc, disk) {
        Ok(mut log) => log.version() == version && has_entries(alloc, &mut log, 2),
        Err(_) => false,
    }
}

// What an upgrade leaves, too: slots behind a closed gate, and a gate beside open ones.
const WHOLES: [(&[u8], &[u8], LogVersion); 4] = [
    (WHOLE, b"", LogVersion::First),
    (b"", WHOLE_SLOTS, LogVersion::Second),
    (WHOLE, b"\0behind", LogVersion::First),
    (b"\x37", WHOLE_SLOTS, LogVersion::Second),
];

// The first of these gates and slots that aren't whole.
fn first_broken<'a>(alloc: Global, table: &'a [(&'a [u8], &'a [u8], LogVersion)]) -> Option<u64> {
    for (place, files) in table.iter().enumerate() {
        let (gate, slots, version) = *files;
        if !are_whole(alloc, gate, slots, version) {
            return Some(place as u64);
        }
    }
    None
}

#[test]
fn whole_entries(rt: HostRuntime) {
    none_wrong(&rt, "files", first_broken(rt.alloc(), &WHOLES));
}

// Whether a log with one byte of an entry changed opens in the first version, and is refused in the second.
fn is_told(alloc: Global, journal: &[u8], entry: u64) -> bool {
    refusal(alloc, journal, WHOLE, b"").is_none()
        && refusal(alloc, journal, b"", WHOLE_SLOTS) == Some(LogFault::Damaged(entry))
}

// A changed byte in either entry, also with more behind it.
#[test]
fn a_changed_byte(rt: HostRuntime) {
    let alloc = rt.alloc();
    assert!(rt; is_told(alloc, b"Firstsecond", 0));
    assert!(rt; is_told(alloc, b"firstsEcond", 1));
    assert!(rt; is_told(alloc, b"FirstsEcondmore", 0));
}

// Two entries in the journal.
const BOTH: &[u8] = b"firstsecond";

// As many bytes as there are.
const ALL: usize = 1_000;

// Slots: a length that doesn't rise, one past the journal's end, a cut sum, no next gate, a closed first gate, and less
// than an entry and a gate.
const DAMAGED_SLOTS: [Refused<'static>; 6] = [
    (ALL, SLOTS, FALLING, ALL, LogFault::Damaged(1)),
    (10, SLOTS, WHOLE_SLOTS, ALL, LogFault::Damaged(1)),
    (ALL, SLOTS, WHOLE_SLOTS, 49, LogFault::Damaged(1)),
    (ALL, SLOTS, WHOLE_SLOTS, 50, LogFault::Damaged(1)),
    (ALL, SLOTS, b"\0", ALL, LogFault::NoRepository),
    (ALL, SLOTS, WHOLE_SLOTS, 25, LogFault::NoRepository),
];

#[test]
fn damaged_slots(rt: HostRuntime) {
    none_wrong(&rt, "files", first_taken(rt.alloc(), &DAMAGED_SLOTS));
}

// The slots of `first` and of a second entry that ends with it.
const FALLING: &[u8] =
    b"\x01\0\0\0\0\0\0\0\x05\x8B\x04\xD5\xE3w])\x8ExE^\xFC\x5C\xA4\x04\xD5\x01\0\0\0\0\0\0\0\x05\xA9\xF0\xE6\x1A\x13}\x86\xAA\x9D\xB54e\xE0\x80\x16\x12\0";

// A length that doesn't rise, one past the journal's end, a cut length, no next gate, a closed first gate.
const DAMAGE: [Refused<'static>; 5] = [
    (ALL, GATE, FALLING_GATE, ALL, LogFault::Damaged(1)),
    (
        ALL,
        GATE,
        b"\x01\0\0\0\0\0\0\0\x0C\0",
        ALL,
        LogFault::Damaged(0),
    ),
    (ALL, GATE, WHOLE, 12, LogFault::Damaged(1)),
    (ALL, GATE, WHOLE, 18, LogFault::Damaged(1)),
    (ALL, GATE, b"\0", ALL, LogFault::NoRepository),
];

// The gate of two entries, the second of which ends with the first.
const FALLING_GATE: &[u8] = b"\x01\0\0\0\0\0\0\0\x05\x01\0\0\0\0\0\0\0\x05\0";

#[test]
fn damage(rt: HostRuntime) {
    none_wrong(&rt, "files", first_taken(rt.alloc(), &DAMAGE));
}

// Whether a log is begun on a disk and takes two entries.
fn takes_both<D: Disk + Drop>(alloc: Global, disk: D) -> bool {
    match created(alloc, disk) {
        Ok(mut log) => {
            added(&mut log, b"first") == Some(0) && added(&mut log, b"second") == Some(1)
        }
        Err(_) => false,
    }
}

// Whether that is so in a folder.
fn is_begun(rt: &HostRuntime, folder: &str) -> bool {
    match made_disk(rt, rt.alloc(), folder) {
        Ok(disk) => takes_both(rt.alloc(), disk),
        Err(_) => false,
    }
}

// Whether the log of a folder is refused so.
fn is_refused(rt: &HostRuntime, folder: &str, wanted: LogFault) -> bool {
    match opened_disk(rt, rt.alloc(), folder) {
        Ok(disk) => not_opened(rt.alloc(), disk) == Some(wanted),
        Err(_) => false,
    }
}

// Whether the log of a folder has the two entries.
fn is_kept(rt: &HostRuntime, folder: &str) -> bool {
    match opened_disk(rt, rt.alloc(), folder) {
        Ok(disk) => opens_with(rt.alloc(), disk, 2),
        Err(_) => false,
    }
}

// Whether no log is begun where there is one.
fn is_there(rt: &HostRuntime, folder: &str) -> bool {
    match made_disk(rt, rt.alloc(), folder) {
        Ok(disk) => {
            let (fault, _disk) = tried_to_begin(rt.alloc(), disk);
            fault == Some(LogFault::ThereAlready)
        }
        Err(_) => false,
    }
}

// Makes the second entry's length, 11, 3.
fn damages(rt: &HostRuntime, folder: &str) -> bool {
    match opened_disk(rt, rt.alloc(), folder) {
        Ok(mut disk) => disk.write_at(DiskFile::Slots, 33, &[3]).is_ok(),
        Err(_) => false,
    }
}

#[test]
fn a_folder_of_the_host(rt: HostRuntime) {
    let folder = "gate_log_folder";
    none_wrong(&rt, "before", first_undone(&rt, folder, &[Deed::Empty]));
    assert!(rt; is_refused(&rt, folder, LogFault::NoRepository));
    assert!(rt; is_begun(&rt, folder));
    assert!(rt; is_kept(&rt, folder));
    assert!(rt; is_there(&rt, folder));
    assert!(rt; damages(&rt, folder) && is_refused(&rt, folder, LogFault::Damaged(1)));
    none_wrong(&rt, "behind", first_undone(&rt, folder, &[Deed::Gone]));
}
