//! A disk over a host that remembers what was asked of it, and that may fail.
ghost use Rattle.std.specs.Prelude.{◌≡◌, IfOk};

use crate::folders::{completed_disk, made_disk, opened_disk};
use crate::steps::{GATE, Step, first_wrong, none_wrong};
use fleet_disk::{Disk, DiskFile, FolderFault, HeldFiles, HostDisk, StdFiles};
use std::alloc::{Allocator, Global};
use std::cell::Cell;
use std::fs::{Metadata, OpenFile, OpenOptions};
use std::io;
use std::io::{ErrorKind, Read, Seek, SeekFrom, Write};
use std::os::unix::fs::FileExt;
use std::process::Abort;
use std::rt::Files;

// What was asked of the files of a host.
#[derive(Drop)]
struct Asked {
    fails: Cell<bool>,
    holds: Cell<u32>,
    moved: Cell<bool>,
    syncs: Cell<u32>,
    gate_syncs: Cell<u32>,
    folder_syncs: Cell<u32>,
    cut_to: Cell<u64>,
    interrupted: Cell<bool>,
    written_at: Cell<u64>,
}

impl Asked {
    fn answer<T>(&self, value: T) -> io::Result<T>
    where
        T: Drop,
        ensures { IfOk result (λ given. given ≡ value) }
    {
        if self.fails.get() {
            return Err(unsupported());
        }
        Ok(value)
    }
}

fn unsupported() -> io::Error {
    io::Error::from(ErrorKind::Unsupported)
}

// A file that takes and gives one byte a call, at an offset alone.
#[derive(Drop)]
struct FakeFile<'a> {
    asked: &'a Asked,
    is_gate: bool,
}

impl<'a> Read for FakeFile<'a> {
    fn read(&mut self, _buf: &mut [u8]) -> io::Result<usize> {
        Err(unsupported())
    }
}

impl<'a> Write for FakeFile<'a> {
    fn write(&mut self, _buf: &[u8]) -> io::Result<usize> {
        Err(unsupported())
    }

    fn flush(&mut self) -> io::Result<()> {
        Err(unsupported())
    }
}

impl<'a> FileExt for FakeFile<'a> {
    fn read_at(&self, buf: &mut [u8], _offset: u64) -> io::Result<usize> {
        self.asked.answer(buf.len().min(1))
    }

    // The first is interrupted.
    fn write_at(&self, buf: &[u8], offset: u64) -> io::Result<usize> {
        if !self.asked.interrupted.replace(true) {
            return Err(io::Error::from(ErrorKind::Interrupted));
        }
        self.asked.written_at.set(offset);
        self.asked.answer(buf.len().min(1))
    }
}

impl<'a> Seek for FakeFile<'a> {
    fn seek(&mut self, to: SeekFrom) -> io::Result<u64> {
        match to {
            SeekFrom::End(_) => self.asked.answer(7),
            _ => Err(unsupported()),
        }
    }
}

impl<'a> OpenFile for FakeFile<'a> {
    fn metadata(&self) -> io::Result<Metadata> {
        Err(unsupported())
    }

    fn set_len(&self, size: u64) -> io::Result<()> {
        self.asked.cut_to.set(size);
        self.asked.answer(())
    }

    fn sync_all(&self) -> io::Result<()> {
        self.asked
            .folder_syncs
            .set(self.asked.folder_syncs.get().saturating_add(1));
        self.asked.answer(())
    }

    fn sync_data(&self) -> io::Result<()> {
        if self.is_gate {
            self.asked
                .gate_syncs
                .set(self.asked.gate_syncs.get().saturating_add(1));
        }
        self.asked
            .syncs
            .set(self.asked.syncs.get().saturating_add(1));
        self.asked.answer(())
    }
}

#[derive(Drop)]
struct FakeHost<'a> {
    asked: &'a Asked,
}

impl<'a> Files for FakeHost<'a> {
    type File = FakeFile<'a>;

    type Dir = FakeFile<'a>;

    fn open_file(&self, _how: &OpenOptions, _path: &str) -> io::Result<FakeFile<'a>> {
        Ok(FakeFile {
            asked: self.asked,
            is_gate: false,
        })
    }

    fn open_dir(&self, _path: &str) -> io::Result<FakeFile<'a>> {
        Err(unsupported())
    }

    fn metadata(&self, _path: &str) -> io::Result<Metadata> {
        Err(unsupported())
    }

    fn symlink_metadata(&self, _path: &str) -> io::Result<Metadata> {
        Err(unsupported())
    }

    fn copy(&self, _from: &str, _to: &str) -> io::Result<u64> {
        Err(unsupported())
    }

    fn rename(&self, _from: &str, _to: &str) -> io::Result<()> {
        Err(unsupported())
    }

    fn remove_file(&self, _path: &str) -> io::Result<()> {
        Err(unsupported())
    }

    fn create_dir(&self, _path: &str) -> io::Result<()> {
        Err(io::Error::from(ErrorKind::AlreadyExists))
    }

    fn remove_dir(&self, _path: &str) -> io::Result<()> {
        Err(unsupported())
    }

    fn remove_dir_all<B: Allocator>(&self, _alloc: B, _path: &str) -> io::Result<()> {
        Err(unsupported())
    }
}

impl<'a> HeldFiles for FakeHost<'a> {
    fn open_at(&self, path: &str, _make: bool) -> io::Result<FakeFile<'a>> {
        Ok(FakeFile {
            asked: self.asked,
            is_gate: path.ends_with("gate"),
        })
    }

    fn is_empty(&self, file: &FakeFile<'a>) -> io::Result<bool> {
        file.asked.answer(true)
    }

    // A file that is held isn't held again, unless it is another one: the folder was moved.
    fn hold(&self, file: &FakeFile<'a>) -> io::Result<()> {
        let holds = file.asked.holds.get();
        file.asked.holds.set(holds.saturating_add(1));
        file.asked.answer(())?;
        if holds > 0 && !file.asked.moved.get() {
            return Err(io::Error::from(ErrorKind::WouldBlock));
        }
        Ok(())
    }
}

fn nothing_asked() -> Asked {
    Asked {
        fails: Cell::new(false),
        holds: Cell::new(0),
        moved: Cell::new(false),
        syncs: Cell::new(0),
        gate_syncs: Cell::new(0),
        folder_syncs: Cell::new(0),
        cut_to: Cell::new(0),
        interrupted: Cell::new(false),
        written_at: Cell::new(0),
    }
}

// The disk of a folder whose host is asked so.
fn made<'a>(rt: &impl Abort, alloc: Global, asked: &'a Asked) -> HostDisk<StdFiles<FakeFile<'a>>> {
    let host = FakeHost { asked };
    made_disk(&host, alloc, "folder").ok().expect(rt, "a disk")
}

// Whether so many files were held, and so many syncs made of a file and of the folder.
fn was_asked(asked: &Asked, holds: u32, syncs: u32, folder_syncs: u32) -> bool {
    asked.holds.get() == holds
        && asked.syncs.get() == syncs
        && asked.folder_syncs.get() == folder_syncs
}

// Whether a first sync reaches the three files, and a second none.
fn syncs_all<'a>(disk: &mut HostDisk<StdFiles<FakeFile<'a>>>, asked: &Asked) -> bool {
    was_asked(asked, 2, 0, 1)
        && disk.sync().is_ok()
        && was_asked(asked, 2, 3, 1)
        && disk.sync().is_ok()
        && was_asked(asked, 2, 3, 1)
}

// A first sync reaches all files, a later one those that were changed since, and making them the folder. One file is
// held, and asked for once more when all are open.
#[test]
fn what_a_folder_is_asked(rt: HostRuntime) {
    let asked = nothing_asked();
    let mut disk = made(&rt, rt.alloc(), &asked);
    assert!(rt; syncs_all(&mut disk, &asked));
}

// Whether a cut of the gate and the sync behind it ask for that of one file.
fn cuts_one<'a>(disk: &mut HostDisk<StdFiles<FakeFile<'a>>>, asked: &Asked) -> bool {
    disk.sync().is_ok()
        && disk.cut(DiskFile::Gate, 5).is_ok()
        && disk.sync().is_ok()
        && asked.cut_to.get() == 5
        && asked.gate_syncs.get() == 2
        && was_asked(asked, 2, 4, 1)
}

// Whether writes of the three files and the sync behind them ask for that, each byte at its place. The first write is
// interrupted, and each takes one byte.
fn writes_all<'a>(disk: &mut HostDisk<StdFiles<FakeFile<'a>>>, asked: &Asked) -> bool {
    disk.write_at(DiskFile::Journal, 9, b"abc").is_ok()
        && asked.interrupted.get()
        && asked.written_at.get() == 11
        && disk.write_at(DiskFile::Gate, 9, b"abc").is_ok()
        && disk.write_at(DiskFile::Slots, 9, b"abc").is_ok()
        && disk.sync().is_ok()
        && was_asked(asked, 2, 7, 1)
        && disk.len(DiskFile::Journal) == Ok(7)
}

// A sync reaches the file that was changed since the last, and a write goes on at the place behind what was written.
#[test]
fn what_a_change_is_asked(rt: HostRuntime) {
    let asked = nothing_asked();
    let mut disk = made(&rt, rt.alloc(), &asked);
    assert!(rt; cuts_one(&mut disk, &asked));
    assert!(rt; writes_all(&mut disk, &asked));
}

// Whether there is no disk.
fn is_refused(made: Result<HostDisk<StdFiles<FakeFile<'_>>>, FolderFault>) -> bool {
    made.is_err()
}

// A folder that is completed is held, and its names are synced.
#[test]
fn what_a_completion_is_asked(rt: HostRuntime) {
    let asked = nothing_asked();
    let host = FakeHost { asked: &asked };
    assert!(rt; !is_refused(completed_disk(&host, rt.alloc(), "folder")));
    assert!(rt; was_asked(&asked, 2, 0, 1));
}

// A folder whose journal is held by another is neither made, nor opened, nor completed.
#[test]
fn a_folder_that_is_held(rt: HostRuntime) {
    let alloc = rt.alloc();
    let asked = nothing_asked();
    asked.fails.set(true);
    let host = FakeHost { asked: &asked };
    assert!(rt; is_refused(made_disk(&host, alloc, "folder")));
    assert!(rt; is_refused(opened_disk(&host, alloc, "folder")));
    assert!(rt; is_refused(completed_disk(&host, alloc, "folder")));
    assert!(rt; was_asked(&asked, 3, 0, 0));
}

// A folder that was moved while its files were opened isn't lent: what has its name now isn't held.
#[test]
fn a_folder_that_was_moved(rt: HostRuntime) {
    let alloc = rt.alloc();
    let asked = nothing_asked();
    asked.moved.set(true);
    let host = FakeHost { asked: &asked };
    assert!(rt; is_refused(made_disk(&host, alloc, "folder")));
    assert!(rt; is_refused(opened_disk(&host, alloc, "folder")));
    assert!(rt; is_refused(completed_disk(&host, alloc, "folder")));
    assert!(rt; was_asked(&asked, 6, 0, 2));
}

// Each call of a disk is refused.
const ALL_REFUSED: [Step<'static>; 5] = [
    Step::Unsynced,
    Step::Untold(GATE),
    Step::Uncut(GATE),
    Step::Unwritten(GATE),
    Step::Unread(GATE),
];

// A host that fails is a device that does.
#[test]
fn a_folder_that_fails(rt: HostRuntime) {
    let asked = nothing_asked();
    let mut disk = made(&rt, rt.alloc(), &asked);
    asked.fails.set(true);
    none_wrong(&rt, "all refused", first_wrong(&mut disk, &ALL_REFUSED));
}
