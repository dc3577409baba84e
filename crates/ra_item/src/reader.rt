//! Items that come in pieces.

ghost use Rattle.std.specs.Prelude.{◌≡◌, ◌≤◌, OnOk, OnErr, Ok, Err, if◌then◌else◌, true, false};
ghost use Rattle.ra_item.specs.Reading.{begin, failed, is_between};
ghost use Rattle.ra_item.specs.Places.{kept};
ghost use Rattle.ra_item.specs.Streams.{StreamIs, reading, Reads, WholeInFront, is_failed, item_bytes};
ghost use Rattle.ra_item.specs.declared.fault.ItemFault.TheVariants.{Failed, Truncated};

use crate::fault::ItemFault;
use crate::item::Item;
use crate::reading::Reading;
use std::alloc::Global;
use std::marker::Model;

/// Reads items from bytes that come in any pieces.
///
/// White space is one or more of space and LF. It stands behind each item and behind the bracket that opens
/// a list; more of it, also before the first item, is skipped. A top-level item is whole when the white
/// space behind it begins. Contracts see a reader as what has come of the item that isn't whole.
#[derive(Drop)]
pub struct ItemReader {
    reading: Reading,
    alloc: Global,
}

impl Model for ItemReader {
    ghost use Rattle.ra_item.specs.declared.reading.Reading.{Reading};
    ghost use Rattle.ra_item.specs.contracts.reading.Reading as stored;

    ghost Value = { Reading };

    ghost coded = { stored.the_row.coded };

    ghost view = { λ a. a.reading };

    ghost use Rattle.ra_item.specs.Places.{IsStanding};

    ghost invariant = { λ a. IsStanding a.reading };
}

impl ItemReader {
    /// Before the first byte.
    pub fn new(alloc: Global) -> ItemReader
        ensures { result ≡ begin }
    {
        ItemReader {
            reading: Reading::new(alloc),
            alloc,
        }
    }

    /// Takes the next piece of the bytes, and adds to `out` each top-level item that is whole now.
    ///
    /// `BadItem` (41) at a byte that no item has in its place, the digit among them at which a number passes
    /// 18,446,744,073,709,551,615; `TooDeep` (42) at the bracket of a seventeenth list; `TooLong` (8) at the
    /// 65th byte of a word, at the colon behind a length above 1,048,576, and at the 33,554,433rd byte of a
    /// top-level item. The items before that byte are in `out`. `OutOfMemory` (70) where a growth is refused;
    /// then the items that are whole in a front of the piece are in `out`, behind those that were there. After an
    /// `Err` the reader keeps nothing, and each later call answers `Failed` (32) and leaves `out` as it is.
    pub fn feed(&mut self, piece: &[u8], out: &mut Vec<Item>) -> Result<(), ItemFault>
        ensures reads { is_failed self.old ≡ false
            → StreamIs result self.new out.new.items (reading (Reads out.old.items self.old) piece.now) }
        ensures failed { is_failed self.old ≡ true → (result ≡ Err Failed) × (out.new.items ≡ out.old.items) }
        ensures goes_on { OnOk result (is_failed self.new ≡ false) }
        ensures later { OnErr result (self.new ≡ failed) }
        ensures front { is_failed self.old ≡ false
            → OnErr result (WholeInFront out.new.items (Reads out.old.items self.old) piece.now) }
    {
        if self.reading.is_failed() {
            self.reading = Reading::failed(self.alloc);
            return Err(ItemFault::Failed);
        }
        match self.reading.take_piece(self.alloc, piece, out) {
            Ok(()) => Ok(()),
            Err(fault) => {
                self.reading = Reading::failed(self.alloc);
                Err(fault)
            }
        }
    }

    /// How many bytes are kept: those of a word or a string that isn't whole, and those that the items of
    /// open lists are written with. They are never more than the bytes of the item that have come.
    pub fn held(&self) -> usize
        ensures kept { result ≡ kept self.now }
        ensures fed { result ≤ item_bytes self.now }
    {
        self.reading.kept()
    }

    /// The end of the bytes: `Truncated` (7) where they end inside an item, and `Failed` (32) after a refusal.
    pub fn finish(self) -> Result<(), ItemFault>
        ensures failed { is_failed self ≡ true → result ≡ Err Failed }
        ensures ended { is_failed self ≡ false → result ≡ (if is_between self then Ok tt else Err Truncated) }
    {
        if self.reading.is_failed() {
            return Err(ItemFault::Failed);
        }
        if self.reading.is_between() {
            Ok(())
        } else {
            Err(ItemFault::Truncated)
        }
    }
}
