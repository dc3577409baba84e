//! Texts that come in windows, in any pieces.

ghost use Rattle.std.specs.Prelude.{◌≡◌, ◌≤◌, ◌<◌, ◌++◌, ℕ, List, length, Ok, Err, IfOk, IfErr};
ghost use Rattle.std.specs.Prelude.{OnErr, true, false, if◌then◌else◌};
ghost use Rattle.svndiff.specs.Reading.{begin, spent, is_between, is_failed};
ghost use Rattle.svndiff.specs.Streams.{reading, pieces_in, with_piece, Reads, Refuses};
ghost use Rattle.svndiff.specs.declared.reading.Place.TheVariants as at;
ghost use Rattle.svndiff.specs.declared.fault.WindowFault.TheVariants.{BadWindow, Failed};

use crate::fault::WindowFault;
use crate::reading::{Place, Reading};
use std::marker::Model;

/// Takes a text from its windows, which come in any pieces. It keeps the numbers of one window and never a byte of
/// the text, and takes no memory. Contracts see it as what has come of the window that isn't whole.
#[derive(Drop)]
pub struct WindowReader {
    reading: Reading,
}

impl Model for WindowReader {
    ghost use Rattle.svndiff.specs.declared.reading.Reading.{Reading};
    ghost use Rattle.std.specs.Coded.{codes};

    ghost Value = { Reading };

    ghost coded = { Prim.hlevel codes };

    ghost view = { λ a. a.reading };
}

/// What the beginning of a piece gave.
#[derive(Drop)]
pub struct Stretch<'a> {
    /// The next bytes of the text, perhaps none.
    pub bytes: &'a [u8],
    /// The rest of the piece, which isn't taken yet.
    pub rest: &'a [u8],
}

impl WindowReader {
    /// Before the first byte.
    pub fn new() -> WindowReader
        ensures begins { result ≡ begin }
    {
        WindowReader {
            reading: Reading::new(),
        }
    }

    /// Takes the beginning of a piece, up to the end of the first stretch of the text in it, and lends that
    /// stretch. The rest is to be taken next: it is shorter than the piece, and empty where the piece is used up.
    ///
    /// `BadWindow` (44), `CopyWindow` (45) and `TooLong` (8) come at the byte that shows them: the numbers in front
    /// of a window are judged at the last of them, first the limits and then the source; then each instruction;
    /// then their sum. After an `Err` each later call answers `Failed` (32).
    pub fn next<'a>(&mut self, piece: &'a [u8]) -> Result<Stretch<'a>, WindowFault>
        ensures reads { is_failed self.old ≡ false
            → IfOk result (λ s. (text : List ℕ)
            → reading (Reads text self.old) piece.now ≡ reading (Reads (text ++ s.bytes.now) self.new) s.rest.now) }
        ensures pieces { is_failed self.old ≡ false
            → IfOk result (λ s. pieces_in self.old piece.now
            ≡ with_piece s.bytes.now (pieces_in self.new s.rest.now)) }
        ensures on { IfOk result (λ s. (length s.rest.now ≤ length piece.now)
            × (0 < length piece.now → length s.rest.now < length piece.now)) }
        ensures refuses { is_failed self.old ≡ false
            → IfErr result (λ f. (text : List ℕ) → reading (Reads text self.old) piece.now ≡ Refuses text f) }
        ensures failed { is_failed self.old ≡ true → result ≡ Err Failed }
        ensures later { OnErr result (self.new ≡ spent) }
    {
        if self.reading.is_failed() {
            self.reading = Reading::spent();
            return Err(WindowFault::Failed);
        }
        let mut at = 0;
        while at < piece.len() {
            if let Place::NewData = self.reading.place {
                let (bytes, rest) = self.stretch(&piece[at..]);
                return Ok(Stretch { bytes, rest });
            }
            if let Err(fault) = self.reading.take_byte(piece[at]) {
                self.reading = Reading::spent();
                return Err(fault);
            }
            at += 1;
        }
        Ok(Stretch {
            bytes: &[],
            rest: &[],
        })
    }

    /// The end of the bytes: `BadWindow` (44) before the whole version and inside a window, and `Failed` (32) after
    /// a refusal.
    pub fn finish(self) -> Result<(), WindowFault>
        ensures failed { is_failed self ≡ true → result ≡ Err Failed }
        ensures ended { is_failed self ≡ false → result ≡ (if is_between self then Ok tt else Err BadWindow) }
    {
        if self.reading.is_failed() {
            return Err(WindowFault::Failed);
        }
        if self.reading.is_between() {
            Ok(())
        } else {
            Err(WindowFault::BadWindow)
        }
    }

    // The new data at the beginning of a piece, and what is behind it.
    fn stretch<'a>(&mut self, piece: &'a [u8]) -> (&'a [u8], &'a [u8])
        requires place { self.old.place ≡ at.NewData }
        requires some { 0 < length piece.now }
        ensures reads { (text : List ℕ)
            → reading (Reads text self.old) piece.now
            ≡ reading (Reads (text ++ result.0.now) self.new) result.1.now }
        ensures pieces { pieces_in self.old piece.now ≡ with_piece result.0.now (pieces_in self.new result.1.now) }
        ensures on { length result.1.now < length piece.now }
    {
        let left = self.reading.fresh.max(1);
        let k = if left < piece.len() as u64 {
            left as usize
        } else {
            piece.len()
        };
        self.reading.give(k as u64);
        piece.split_at(k)
    }
}
