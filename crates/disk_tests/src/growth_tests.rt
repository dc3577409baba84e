//! Growths that are refused. `rt try --test --fail-alloc N` refuses the growth of number N and no other: an assertion
//! that fails then is a wrong answer, and an error that ends a test is that refusal.

use crate::folders::{empty_folder, made_disk};
use crate::log_tests::{created, opened};
use crate::steps::none_wrong;
use fleet_disk::{Disk, MemDisk};
use gate_log::{GateLog, LogFault};
use std::alloc::Global;
use std::fs;
use std::test::Fail;

const TEXTS: [&[u8]; 3] = [b"first", b"second", b"third"];

// The entry is read, where a first refusal for memory leaves the log as it is.
fn is_read<D: Disk>(alloc: Global, log: &mut GateLog<D>, number: u64, text: &[u8]) -> bool {
    if number >= log.len() {
        return false;
    }
    match log.read_entry(alloc, number) {
        Ok(bytes) => bytes.as_slice() == text,
        Err(fault) => {
            fault == LogFault::OutOfMemory
                && number < log.len()
                && log.read_entry(alloc, number).is_ok()
        }
    }
}

// Makes room for a text, at the second try where memory is refused at the first, and adds it.
fn is_added<D: Disk>(log: &mut GateLog<D>, text: &[u8]) -> bool {
    if text.is_empty() {
        return false;
    }
    match log.reserve(text.len()) {
        Ok(()) => log.append(text).is_ok(),
        Err(fault) => {
            fault == LogFault::OutOfMemory
                && log.reserve(text.len()).is_ok()
                && log.append(text).is_ok()
        }
    }
}

// Whether an opening finds the three texts, at the second try where memory is refused at the first.
fn is_found<D: Disk + Drop>(alloc: Global, disk: D) -> bool {
    match GateLog::open(alloc, disk) {
        Ok(mut log) => are_read(alloc, &mut log),
        Err((fault, disk)) => match opened(alloc, disk) {
            Ok(mut log) => fault == LogFault::OutOfMemory && are_read(alloc, &mut log),
            Err(_) => false,
        },
    }
}

fn are_read<D: Disk>(alloc: Global, log: &mut GateLog<D>) -> bool {
    is_read(alloc, log, 0, b"first")
        && is_read(alloc, log, 1, b"second")
        && is_read(alloc, log, 2, b"third")
}

// Whether each of the three texts is added.
fn are_added<D: Disk>(log: &mut GateLog<D>) -> bool {
    is_added(log, b"first") && is_added(log, b"second") && is_added(log, b"third")
}

// Whether a log is begun in a folder and takes the three.
fn begins_and_adds(rt: &HostRuntime, folder: &str) -> Result<bool, LogFault> {
    match made_disk(rt, rt.alloc(), folder) {
        Ok(disk) => match created(rt.alloc(), disk) {
            Ok(mut log) => Ok(are_added(&mut log)),
            Err(fault) => Err(fault),
        },
        Err(_) => Err(LogFault::DeviceFailed),
    }
}

// A folder's disk takes no memory, so each growth is the log's, and the append behind `reserve` has none.
#[test]
fn an_append_behind_reserve_takes_no_memory(rt: HostRuntime) -> Result<(), Fail> {
    let folder = "gate_log_growths";
    empty_folder(&rt, folder)?;
    assert!(rt; begins_and_adds(&rt, folder)?);
    fs::remove_dir_all(&rt, folder)?;
    Ok(())
}

// Adds the three texts, up to one that is refused.
fn add_three<D: Disk>(log: &mut GateLog<D>) -> Result<(), LogFault> {
    let _first = log.append(b"first")?;
    let _second = log.append(b"second")?;
    let _third = log.append(b"third")?;
    Ok(())
}

// A disk with the three texts.
fn three_texts<D: Disk + Drop>(alloc: Global, disk: D) -> Result<D, LogFault> {
    match created(alloc, disk) {
        Ok(mut log) => {
            let added = add_three(&mut log);
            let disk = log.into_disk();
            match added {
                Ok(()) => Ok(disk),
                Err(fault) => Err(fault),
            }
        }
        Err(fault) => Err(fault),
    }
}

// Whether an opening finds the three texts in a folder.
fn is_found_in(rt: &HostRuntime, folder: &str) -> Result<bool, LogFault> {
    match made_disk(rt, rt.alloc(), folder) {
        Ok(disk) => match three_texts(rt.alloc(), disk) {
            Ok(disk) => Ok(is_found(rt.alloc(), disk)),
            Err(fault) => Err(fault),
        },
        Err(_) => Err(LogFault::DeviceFailed),
    }
}

#[test]
fn an_opening_and_a_read_with_a_growth_refused(rt: HostRuntime) -> Result<(), Fail> {
    let folder = "gate_log_refused";
    empty_folder(&rt, folder)?;
    assert!(rt; is_found_in(&rt, folder)?);
    fs::remove_dir_all(&rt, folder)?;
    Ok(())
}

// What the log answers where each growth of a disk in memory counts as one of the device.
fn is_due(fault: LogFault, log: &mut GateLog<MemDisk>) -> bool {
    match fault {
        LogFault::OutOfMemory => !log.has_failed(),
        LogFault::DeviceFailed => log.reserve(1) == Err(LogFault::Failed),
        _ => false,
    }
}

// Adds a text, or answers what is due.
fn adds_or_tells(log: &mut GateLog<MemDisk>, text: &[u8]) -> bool {
    if text.is_empty() {
        return false;
    }
    match log.append(text) {
        Ok(_) => true,
        Err(fault) => is_due(fault, log),
    }
}

// Whether an opening finds so many entries, or one more, or answers a refusal of a growth.
fn finds_or_tells(alloc: Global, disk: MemDisk, whole: u64) -> bool {
    match opened(alloc, disk) {
        Ok(log) => log.len() == whole || log.len() == whole.saturating_add(1),
        Err(LogFault::OutOfMemory | LogFault::DeviceFailed) => true,
        Err(fault) => fault == LogFault::NoRepository && whole == 0,
    }
}

// The first of the texts for which an addition answers otherwise, up to one that is refused.
fn first_untold(log: &mut GateLog<MemDisk>) -> Option<u64> {
    for (place, text) in TEXTS.iter().enumerate() {
        let whole = log.len();
        if !adds_or_tells(log, *text) {
            return Some(place as u64);
        }
        if log.len() == whole {
            return None;
        }
    }
    None
}

#[test]
fn a_growth_refused_in_the_disk_is_a_failure_of_it(rt: HostRuntime) -> Result<(), Fail> {
    let alloc = rt.alloc();
    let mut log = created(alloc, MemDisk::new(alloc))?;
    none_wrong(&rt, "text", first_untold(&mut log));
    let whole = log.len();
    assert!(rt; finds_or_tells(alloc, log.into_disk(), whole));
    Ok(())
}
