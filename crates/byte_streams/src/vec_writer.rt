//! A writer to memory.
ghost use Rattle.std.specs.Prelude.{◌≡◌, [], IfOk, OnErr};

use std::alloc::{AllocError, Global};

/// Bytes in memory, which are written one after another.
///
/// A write answers nothing. Where memory is refused in one, that is kept, and nothing more is written. Whoever takes the
/// bytes is told: they are all that was written, or none are given.
#[derive(Drop)]
pub struct VecWriter {
    bytes: Vec<u8>,
    is_whole: bool,
}

impl VecWriter {
    ghost use Rattle.byte_streams.specs.Memory.{written_in, Adds, HasAll, IsWhole};

    /// Nothing was written, and nothing was asked of memory.
    pub fn new(alloc: Global) -> VecWriter
        ensures { written_in result ≡ [] }
    {
        VecWriter {
            bytes: Vec::new(alloc),
            is_whole: true,
        }
    }

    /// Nothing was written, and there is room for so many bytes, if memory isn't refused.
    pub fn with_room(alloc: Global, room: usize) -> VecWriter
        ensures { written_in result ≡ [] }
    {
        let mut writer = VecWriter::new(alloc);
        writer.restart(room);
        writer
    }

    /// Forgets what was written and whether memory was refused, and makes room for so many bytes.
    pub fn restart(&mut self, room: usize)
        ensures { written_in self.new ≡ [] }
    {
        self.bytes.clear();
        self.is_whole = self.bytes.reserve(room).is_ok();
    }

    /// Writes these bytes behind the others.
    #[inline(always)]
    pub fn write(&mut self, bytes: &[u8])
        ensures { Adds self.old self.new bytes.now }
    {
        if self.is_whole {
            self.is_whole = self.bytes.extend_from_slice(bytes).is_ok();
        }
    }

    /// What was written. It is refused only where memory was.
    pub fn as_slice(&self) -> Result<&[u8], AllocError>
        ensures all { IfOk result (λ bytes. HasAll self.now bytes.now) }
        ensures cause { OnErr result (¬ IsWhole self.now) }
    {
        if !self.is_whole {
            return Err(AllocError);
        }
        Ok(self.bytes.as_slice())
    }

    /// What was written. It is refused only where memory was.
    pub fn into_bytes(self) -> Result<Vec<u8>, AllocError>
        ensures all { IfOk result (λ bytes. HasAll self bytes.items) }
        ensures cause { OnErr result (¬ IsWhole self) }
    {
        if !self.is_whole {
            return Err(AllocError);
        }
        Ok(self.bytes)
    }
}
