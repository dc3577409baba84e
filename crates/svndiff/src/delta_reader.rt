//! Deltas of a base, in any pieces.

ghost use Rattle.std.specs.Prelude.{◌≡◌, ◌≤◌, ◌<◌, ◌++◌, [], ℕ, List, length, Ok, Err, IfOk, IfErr};
ghost use Rattle.std.specs.Prelude.{OnErr, true, false, if◌then◌else◌};
ghost use Rattle.svndiff.specs.DeltaReading.{is_between, is_failed};
ghost use Rattle.svndiff.specs.DeltaStreams.{begun, spent_delta, reading, Reads, Tells, texts_in};
ghost use Rattle.svndiff.specs.Streams.{with_piece};
ghost use Rattle.svndiff.specs.declared.delta_fault.DeltaFault.TheVariants.{BadWindow, Failed};

use crate::delta::Delta;
use crate::delta_fault::DeltaFault;
use crate::instructions::Bytes;
use std::alloc::Global;
use std::marker::Model;

/// What has come of the window that isn't whole, and what the last call made.
#[derive(Drop)]
pub struct Kept {
    delta: Delta,
    made: Bytes,
}

/// Takes a delta of a base, which comes in any pieces: version 0 of svndiff in full. It keeps one window: its numbers,
/// the instructions and the new data that have come, and the text that it makes.
///
/// The base is lent at each call, and is to be the same at all of them.
#[derive(Drop)]
pub struct DeltaReader {
    kept: Kept,
}

impl Model for DeltaReader {
    ghost use Rattle.svndiff.specs.declared.delta_reader.Kept.{Kept};
    ghost use Rattle.svndiff.specs.contracts.delta_reader.Kept as stored;

    ghost Value = { Kept };

    ghost coded = { stored.the_row.coded };

    ghost view = { λ a. a.kept };
}

impl DeltaReader {
    /// Before the first byte.
    pub fn new(alloc: Global) -> DeltaReader
        ensures begins { result.delta ≡ begun }
        ensures nothing { result.made ≡ [] }
    {
        DeltaReader {
            kept: Kept {
                delta: Delta::new(alloc),
                made: Bytes::new(alloc),
            },
        }
    }

    /// Takes the beginning of a piece, up to the end of the first window in it, and gives the rest, which is to be
    /// taken next: it is shorter than the piece, and empty where the piece is used up. The text that the window makes
    /// of the base is in [`DeltaReader::made`] up to the next call, and nothing is there where no window is whole.
    ///
    /// `BadWindow` (44) and `TooLong` (8) come at the byte that shows them: the numbers in front of a window are
    /// judged at the last of them, first the limits and then the view; then each instruction at its last byte; then
    /// their sums. `OutOfMemory` (70) where a growth is refused. After an `Err` the reader keeps nothing, and each
    /// later call answers `Failed` (32).
    pub fn next<'a>(&mut self, base: &[u8], piece: &'a [u8]) -> Result<&'a [u8], DeltaFault>
        ensures reads { is_failed self.old.delta.window ≡ false
            → IfOk result (λ rest. (text : List ℕ)
            → reading base.now (Reads text self.old.delta) piece.now
            ≡ reading base.now (Reads (text ++ self.new.made) self.new.delta) rest.now) }
        ensures pieces { is_failed self.old.delta.window ≡ false
            → IfOk result (λ rest. texts_in base.now self.old.delta piece.now
            ≡ with_piece self.new.made (texts_in base.now self.new.delta rest.now)) }
        ensures on { IfOk result (λ rest. (length rest.now ≤ length piece.now)
            × (0 < length piece.now → length rest.now < length piece.now)) }
        ensures refuses { is_failed self.old.delta.window ≡ false
            → IfErr result (λ f. Tells f base.now self.old.delta piece.now) }
        ensures failed { is_failed self.old.delta.window ≡ true → result ≡ Err Failed }
        ensures later { OnErr result (self.new.delta ≡ spent_delta) }
        ensures nothing { OnErr result (self.new.made ≡ []) }
    {
        self.kept.made.clear();
        if self.kept.delta.window.is_failed() {
            self.kept.delta.spend();
            return Err(DeltaFault::Failed);
        }
        match self.kept.take(base, piece) {
            Ok(rest) => Ok(rest),
            Err(fault) => {
                self.kept.made.clear();
                self.kept.delta.spend();
                Err(fault)
            }
        }
    }

    /// The text of the window that the last call made whole; empty where it made none.
    pub fn made(&self) -> &[u8]
        ensures made { result.now ≡ self.now.made }
    {
        self.kept.made.as_slice()
    }

    /// The end of the bytes: `BadWindow` (44) before the whole version and inside a window, and `Failed` (32) after
    /// a refusal.
    pub fn finish(self) -> Result<(), DeltaFault>
        ensures failed { is_failed self.delta.window ≡ true → result ≡ Err Failed }
        ensures ended { is_failed self.delta.window ≡ false
            → result ≡ (if is_between self.delta.window then Ok tt else Err BadWindow) }
    {
        if self.kept.delta.window.is_failed() {
            return Err(DeltaFault::Failed);
        }
        if self.kept.delta.window.is_between() {
            Ok(())
        } else {
            Err(DeltaFault::BadWindow)
        }
    }
}

impl Kept {
    // Takes the beginning of a piece, up to the end of the first window in it.
    fn take<'a>(&mut self, base: &[u8], piece: &'a [u8]) -> Result<&'a [u8], DeltaFault>
        requires { self.old.made ≡ [] }
        ensures reads { IfOk result (λ rest. (text : List ℕ)
            → reading base.now (Reads text self.old.delta) piece.now
            ≡ reading base.now (Reads (text ++ self.new.made) self.new.delta) rest.now) }
        ensures pieces { IfOk result (λ rest. texts_in base.now self.old.delta piece.now
            ≡ with_piece self.new.made (texts_in base.now self.new.delta rest.now)) }
        ensures on { IfOk result (λ rest. (length rest.now ≤ length piece.now)
            × (0 < length piece.now → length rest.now < length piece.now)) }
        ensures refuses { IfErr result (λ f. Tells f base.now self.old.delta piece.now) }
    {
        let mut rest = piece;
        while rest.len() > 0 {
            match self.delta.step(base, rest) {
                Ok(behind) => rest = behind,
                Err(fault) => return Err(fault),
            }
            if self.delta.window.is_whole() {
                self.delta.make(base, &mut self.made)?;
                return Ok(rest);
            }
        }
        Ok(&[])
    }
}
