//! A window that may copy, with its instructions and its new data.

ghost use Rattle.std.specs.Prelude.{◌≡◌, ◌<◌, [], List, ℕ, length, IfOk, IfErr};
ghost use Rattle.svndiff.specs.DeltaStreams.{begun, spent_delta, TookIs, taken, held, made_of, ended};
ghost use Rattle.svndiff.specs.DeltaStreams.{reading, settled, Reads, Now, Tells, texts_in, and_texts};

use crate::delta_fault::DeltaFault;
use crate::instructions::{Bytes, Instructions, behind, front};
use crate::window::{Awaited, Window};
use std::alloc::{AllocError, Global};

/// What has come of the window that isn't whole.
#[derive(Drop)]
pub struct Delta {
    /// Its numbers.
    pub window: Window,
    /// Its instructions so far.
    pub instructions: Instructions,
    /// Its new data so far.
    pub fresh: Bytes,
}

impl Delta {
    /// Before the first byte.
    pub fn new(alloc: Global) -> Delta
        ensures { result ≡ begun }
    {
        Delta {
            window: Window::new(),
            instructions: Instructions::new(alloc),
            fresh: Bytes::new(alloc),
        }
    }

    /// Bytes were refused: nothing is kept.
    pub fn spend(&mut self)
        ensures { self.new ≡ spent_delta }
    {
        self.window = Window::spent();
        self.instructions.clear();
        self.fresh.clear();
    }

    /// Takes a byte that is no new data, over a base of a length.
    pub fn take(&mut self, size: u64, b: u8) -> Result<(), DeltaFault>
        ensures { TookIs result self.new (taken size self.old b) }
    {
        match self.window.take_byte(size, b) {
            Ok(None) => Ok(()),
            Ok(Some(instruction)) => {
                self.instructions.push(instruction)?;
                Ok(())
            }
            Err(fault) => Err(fault),
        }
    }

    /// Takes new data.
    pub fn keep(&mut self, bytes: &[u8]) -> Result<(), AllocError>
        ensures { IfOk result (λ _. self.new ≡ held bytes.now self.old) }
    {
        self.fresh.extend(bytes)?;
        self.window.keep(bytes.len() as u64);
        Ok(())
    }

    /// Takes the beginning of a piece that has a byte: the new data in it, or one byte.
    pub fn step<'a>(&mut self, base: &[u8], piece: &'a [u8]) -> Result<&'a [u8], DeltaFault>
        requires { 0 < length piece.now }
        ensures reads { IfOk result (λ rest. (text : List ℕ)
            → reading base.now (Reads text self.old) piece.now
            ≡ reading base.now (settled base.now text (Now self.new)) rest.now) }
        ensures pieces { IfOk result (λ rest. texts_in base.now self.old piece.now
            ≡ and_texts base.now (Now self.new) (λ d. texts_in base.now d rest.now)) }
        ensures on { IfOk result (λ rest. length rest.now < length piece.now) }
        ensures refuses { IfErr result (λ f. Tells f base.now self.old piece.now) }
    {
        if let Awaited::NewData = self.window.place {
            let left = self.window.fresh.max(1);
            let bytes = front(piece, left);
            self.keep(bytes)?;
            return Ok(behind(piece, left));
        }
        let Some((first, rest)) = piece.split_first() else {
            return Ok(&[]);
        };
        match self.take(base.len() as u64, *first) {
            Ok(()) => Ok(rest),
            Err(fault) => Err(fault),
        }
    }

    /// Makes the window's text of a base, behind what is in `made`.
    pub fn make(&mut self, base: &[u8], made: &mut Bytes) -> Result<(), AllocError>
        requires { made.old ≡ [] }
        ensures { IfOk result (λ _. (made.new ≡ made_of base.now self.old) × (self.new ≡ ended self.old)) }
    {
        let view = front(behind(base, self.window.offset), self.window.source);
        self.instructions.run(view, self.fresh.as_slice(), made)?;
        self.window.end();
        self.instructions.clear();
        self.fresh.clear();
        Ok(())
    }
}
