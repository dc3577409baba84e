//! The host's own files: three of a folder, each of which one opening at a time may hold.
ghost use Rattle.std.specs.Prelude.{◌≡◌, ◌≤◌, length, Ok, IfOk, OnErr};
ghost use Rattle.fleet_disk.specs.Image.{no_bytes};
ghost use Rattle.fleet_disk.specs.Rules.{Rose};

use crate::calls::HostCalls;
use crate::disk::{DiskFault, DiskFile};
use crate::folder_files::FolderFiles;
use std::fs::{File, OpenFile, OpenOptions};
use std::io;
use std::io::{ErrorKind, Seek, SeekFrom};
use std::os::unix::fs::FileExt;
use std::rt::Files;

/// A host's files, each of which one opening at a time may hold.
///
/// Each call is one of the host's, and nothing is claimed of it.
pub trait HeldFiles: Files<File: FileExt> {
    /// Opens the file at a path to read and write it, or, where `make` says so, makes it where nothing is.
    fn open_at(&self, path: &str, make: bool) -> io::Result<Self::File>;

    /// Holds a file. The host refuses where another opening holds it.
    fn hold(&self, file: &Self::File) -> io::Result<()>;

    /// Whether a file has no byte.
    fn is_empty(&self, file: &Self::File) -> io::Result<bool>;
}

/// As `flock` does it: an opening that is closed, its process killed or not, holds nothing.
impl HeldFiles for HostRuntime {
    fn open_at(&self, path: &str, make: bool) -> io::Result<File> {
        OpenOptions::new()
            .read(true)
            .write(true)
            .create_new(make)
            .open(self, path)
    }

    fn hold(&self, file: &File) -> io::Result<()> {
        Ok(file.try_lock()?)
    }

    fn is_empty(&self, file: &File) -> io::Result<bool> {
        Ok(file.metadata()?.len() == 0)
    }
}

/// The open files of a folder. One that isn't there reads as empty, and isn't written.
///
/// That a host keeps the rules is a premise that no contract shows: here each call is the host's, and nothing else is
/// done. A call of it that fails is counted.
#[derive(Drop)]
pub struct StdFiles<F: FileExt + Seek + OpenFile> {
    files: FolderFiles<F>,
    failures: u64,
}

impl<F: FileExt + Seek + OpenFile + Drop> StdFiles<F> {
    /// These files, of which no call has failed yet.
    pub fn new(files: FolderFiles<F>) -> StdFiles<F>
        ensures files { result.files ≡ files }
        ensures failures { result.failures ≡ 0 }
    {
        StdFiles { files, failures: 0 }
    }

    // What an answer of the host is: a failure is counted.
    fn counted<T: Drop>(&mut self, answer: io::Result<T>) -> Result<T, DiskFault>
        ensures ok { IfOk result (λ value. answer ≡ Ok value) }
        ensures later { self.old.failures ≤ self.new.failures }
        ensures failed { OnErr result (Rose self.old.failures self.new.failures) }
    {
        match answer {
            Ok(value) => Ok(value),
            Err(_) => {
                self.failures = self.failures.saturating_add(1);
                Err(DiskFault::DeviceFailed)
            }
        }
    }
}

impl<F: FileExt + Seek + OpenFile + Drop> HostCalls for StdFiles<F> {
    // Nothing shows it of a real host.
    ghost honest = { λ host. ⊥ };

    ghost reads = { λ host. no_bytes };

    ghost may_leave = { λ host image. ⊥ };

    ghost clock = { λ host. 0 };

    ghost left_since = { λ host t image. ⊥ };

    ghost failures = { λ host. host.failures };

    ghost counts_now = { λ host t c honest. absurd honest };

    ghost only_now = { λ host c honest. absurd honest };

    ghost reads_left = { λ host honest. absurd honest };

    fn read_at(&mut self, file: DiskFile, at: u64, buf: &mut [u8]) -> Result<usize, DiskFault> {
        let read = read_from(one_of(file, &mut self.files), at, buf);
        self.counted(read)
    }

    fn length(&mut self, file: DiskFile) -> Result<u64, DiskFault> {
        let length = length_of(one_of(file, &mut self.files));
        self.counted(length)
    }

    fn write_all_at(&mut self, file: DiskFile, at: u64, bytes: &[u8]) -> Result<(), DiskFault> {
        let written = write_to(one_of(file, &mut self.files), at, bytes);
        self.counted(written)
    }

    fn truncate(&mut self, file: DiskFile, len: u64) -> Result<(), DiskFault> {
        let cut = cut_to(one_of(file, &mut self.files), len);
        self.counted(cut)
    }

    fn sync_file(&mut self, file: DiskFile) -> Result<(), DiskFault> {
        let synced = sync(one_of(file, &mut self.files));
        self.counted(synced)
    }
}

// One of the three.
fn one_of<F>(file: DiskFile, files: &mut FolderFiles<F>) -> Option<&mut F> {
    match file {
        DiskFile::Journal => files.journal.as_mut(),
        DiskFile::Gate => files.gate.as_mut(),
        DiskFile::Slots => files.slots.as_mut(),
    }
}

// Some bytes from an offset on; of a file that isn't there none.
fn read_from<F: FileExt>(file: Option<&mut F>, at: u64, buf: &mut [u8]) -> io::Result<usize>
    ensures { IfOk result (λ n. n ≤ length buf.old) }
{
    match file {
        Some(file) => file.read_at(buf, at),
        None => Ok(0),
    }
}

fn length_of<F: Seek>(file: Option<&mut F>) -> io::Result<u64> {
    match file {
        Some(file) => file.seek(SeekFrom::End(0)),
        None => Ok(0),
    }
}

fn write_to<F: FileExt>(file: Option<&mut F>, at: u64, bytes: &[u8]) -> io::Result<()> {
    match file {
        Some(file) => file.write_all_at(bytes, at),
        None => Err(io::Error::from(ErrorKind::NotFound)),
    }
}

// A file that isn't there has nothing to cut, nor to sync.
fn cut_to<F: OpenFile>(file: Option<&mut F>, len: u64) -> io::Result<()> {
    match file {
        Some(file) => file.set_len(len),
        None => Ok(()),
    }
}

fn sync<F: OpenFile>(file: Option<&mut F>) -> io::Result<()> {
    match file {
        Some(file) => file.sync_data(),
        None => Ok(()),
    }
}
