//! Bytes that are read piece by piece.
ghost use Rattle.std.specs.Prelude.{◌≡◌, [], ◌∷◌, ◌++◌, length, IfOk, OnOk};

use std::alloc::{AllocError, Global};
use std::marker::Model;
use std::mem;

// Room for so many bytes comes with the first.
const ROOM: usize = 64;

// So many bytes are copied when they leave, at most.
const FEW: usize = 256;

// Bytes so far, seen by contracts as their list. They keep their allocator.
#[derive(Drop)]
pub struct Bytes {
    bytes: Vec<u8>,
}

impl Model for Bytes {
    ghost use Rattle.std.specs.Prelude.{List, ℕ};
    ghost use Rattle.std.specs.Coded.{coded_list, coded_ℕ};

    ghost Value = { List ℕ };

    ghost coded = { coded_list coded_ℕ };

    ghost view = { λ a. a.bytes.items };
}

impl Bytes {
    pub fn new(alloc: Global) -> Bytes
        ensures { result ≡ [] }
    {
        Bytes {
            bytes: Vec::new(alloc),
        }
    }

    pub(crate) fn alloc(&self) -> Global {
        *self.bytes.allocator()
    }

    pub fn as_slice(&self) -> &[u8]
        ensures { result.now ≡ self.now }
    {
        self.bytes.as_slice()
    }

    pub fn len(&self) -> usize
        ensures { result ≡ length self.now }
    {
        self.bytes.len()
    }

    // Adds a byte. The first makes room for most names and values.
    pub fn push(&mut self, b: u8) -> Result<(), AllocError>
        ensures { IfOk result (λ _. self.new ≡ self.old ++ b ∷ []) }
    {
        if self.bytes.is_empty() {
            self.bytes.reserve(ROOM)?;
        }
        self.bytes.push(b)?;
        Ok(())
    }

    // Adds bytes. There is room for one more behind them, which most often comes.
    pub fn extend(&mut self, piece: &[u8]) -> Result<(), AllocError>
        ensures { IfOk result (λ _. self.new ≡ self.old ++ piece.now) }
    {
        self.bytes.reserve(piece.len().saturating_add(1))?;
        self.bytes.extend_from_slice(piece)?;
        Ok(())
    }

    // Nothing is kept, but for the room.
    pub fn clear(&mut self)
        ensures { self.new ≡ [] }
    {
        self.bytes.clear();
    }

    // The bytes leave. Of few a copy does, so that the room stays; more leave without one.
    pub fn take(&mut self) -> Result<Vec<u8>, AllocError>
        ensures taken { IfOk result (λ bytes. bytes.items ≡ self.old) }
        ensures left { OnOk result (self.new ≡ []) }
    {
        let alloc = self.alloc();
        if self.bytes.len() > FEW {
            return Ok(mem::replace(&mut self.bytes, Vec::new(alloc)));
        }
        let mut bytes = Vec::with_capacity(alloc, self.bytes.len())?;
        bytes.extend_from_slice(self.bytes.as_slice())?;
        self.bytes.clear();
        Ok(bytes)
    }
}
