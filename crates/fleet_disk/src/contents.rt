//! The bytes of the files of a disk in memory.
ghost use Rattle.std.specs.Prelude.{◌≡◌, ◌≤◌, ℕ, List, [], take, IfOk, OnOk, OnErr};
ghost use Rattle.fleet_disk.specs.Contents.{image_of};
ghost use Rattle.fleet_disk.specs.Image.{Image, bytes_of};
ghost use Rattle.fleet_disk.specs.Memory.{written, on_file, does, pick_step};

use crate::call::{DiskCall, Pick};
use crate::disk::DiskFile;
use std::alloc::{AllocError, Global};

/// The bytes of the three files.
#[derive(Drop)]
pub struct Contents {
    pub journal: Vec<u8>,
    pub gate: Vec<u8>,
    pub slots: Vec<u8>,
}

impl Contents {
    // Three empty files.
    pub fn new(alloc: Global) -> Contents
        ensures journal { result.journal.items ≡ [] }
        ensures gate { result.gate.items ≡ [] }
        ensures slots { result.slots.items ≡ [] }
    {
        Contents {
            journal: Vec::new(alloc),
            gate: Vec::new(alloc),
            slots: Vec::new(alloc),
        }
    }

    // The bytes of one file.
    pub fn bytes(&self, file: DiskFile) -> &[u8]
        ensures { result.now ≡ bytes_of file (image_of self.now) }
    {
        match file {
            DiskFile::Journal => self.journal.as_slice(),
            DiskFile::Gate => self.gate.as_slice(),
            DiskFile::Slots => self.slots.as_slice(),
        }
    }

    // The same bytes again.
    pub fn copy(&self, alloc: Global) -> Result<Contents, AllocError>
        ensures { IfOk result (λ c. image_of c ≡ image_of self.now) }
    {
        Ok(Contents {
            journal: self.journal.to_vec(alloc)?,
            gate: self.gate.to_vec(alloc)?,
            slots: self.slots.to_vec(alloc)?,
        })
    }

    // Writes over what is there, and past the end.
    pub fn overwrite(
        &mut self,
        alloc: Global,
        file: DiskFile,
        at: u64,
        bytes: &[u8],
    ) -> Result<(), AllocError>
        ensures ok { OnOk result (image_of self.new ≡ on_file file (written at bytes.now) (image_of self.old)) }
        ensures err { OnErr result (image_of self.new ≡ image_of self.old) }
    {
        match file {
            DiskFile::Journal => overwrite_bytes(alloc, &mut self.journal, at as usize, bytes),
            DiskFile::Gate => overwrite_bytes(alloc, &mut self.gate, at as usize, bytes),
            DiskFile::Slots => overwrite_bytes(alloc, &mut self.slots, at as usize, bytes),
        }
    }

    // Cuts one file.
    pub fn cut(&mut self, file: DiskFile, len: u64)
        ensures { image_of self.new ≡ on_file file (take len) (image_of self.old) }
    {
        match file {
            DiskFile::Journal => self.journal.truncate(len as usize),
            DiskFile::Gate => self.gate.truncate(len as usize),
            DiskFile::Slots => self.slots.truncate(len as usize),
        }
    }

    // What a read gives after a call.
    pub fn run(&mut self, alloc: Global, call: &DiskCall) -> Result<(), AllocError>
        ensures { OnOk result (image_of self.new ≡ does call.now (image_of self.old)) }
    {
        match call {
            DiskCall::Write { file, at, bytes } => self.overwrite(alloc, *file, *at, bytes),
            DiskCall::Cut { file, len } => {
                self.cut(*file, *len);
                Ok(())
            }
            DiskCall::Read { .. } => Ok(()),
            DiskCall::Len { .. } => Ok(()),
            DiskCall::Sync => Ok(()),
        }
    }

    // What a pick leaves after a call, before which a read gave `read`.
    pub fn stop(
        &mut self,
        alloc: Global,
        pick: Pick,
        call: &DiskCall,
        read: &Contents,
    ) -> Result<(), AllocError>
        ensures { OnOk result (image_of self.new ≡ pick_step pick call.now (image_of read.now) (image_of self.old)) }
    {
        match call {
            DiskCall::Write { file, at, bytes } => self.tear(alloc, pick, *file, *at, bytes),
            DiskCall::Cut { file, len } => {
                if let Pick::New = pick {
                    self.cut(*file, *len);
                }
                Ok(())
            }
            DiskCall::Read { .. } => Ok(()),
            DiskCall::Len { .. } => Ok(()),
            DiskCall::Sync => {
                *self = read.copy(alloc)?;
                Ok(())
            }
        }
    }

    // What a pick leaves of a write.
    fn tear(
        &mut self,
        alloc: Global,
        pick: Pick,
        file: DiskFile,
        at: u64,
        bytes: &Vec<u8>,
    ) -> Result<(), AllocError>
        ensures { (read : Image) → OnOk result (image_of self.new
            ≡ pick_step pick (DiskCall.Write file at bytes.now) read (image_of self.old)) }
    {
        match pick {
            Pick::Old => Ok(()),
            Pick::New => self.overwrite(alloc, file, at, bytes),
            Pick::Fill(byte) => {
                let filling = vec![in alloc; byte; bytes.len()]?;
                self.overwrite(alloc, file, at, &filling)
            }
        }
    }
}

// Writes bytes from an offset on, where that isn't past the end.
fn overwrite_bytes(
    alloc: Global,
    file: &mut Vec<u8>,
    at: usize,
    bytes: &[u8],
) -> Result<(), AllocError>
    ensures ok { OnOk result (file.new.items ≡ written at bytes.now file.old.items) }
    ensures err { OnErr result (file.new.items ≡ file.old.items) }
{
    if at > file.len() {
        return Ok(());
    }
    let mut next = file[..at].to_vec(alloc)?;
    next.extend_from_slice(bytes)?;
    if bytes.len() < file.len() - at {
        next.extend_from_slice(&file[at + bytes.len()..])?;
    }
    *file = next;
    Ok(())
}
