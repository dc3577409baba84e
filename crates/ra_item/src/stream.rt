//! The items of a stream, one at a time.

ghost use Rattle.std.specs.Prelude.{◌≡◌, ◌≢◌, reverse, ◌≤◌, ◌<◌, ◌+◌, ℕ, List, []};
ghost use Rattle.std.specs.Prelude.{◌++◌, length, take};
ghost use Rattle.std.specs.Prelude.{OnOk, OnErr, IfOk, IfErr, Err, None, true, false};
ghost use Rattle.std.specs.Io.KnownBytes.{Consumes, IsAtEnd};
ghost use Rattle.std.proofs.Props.{props};
ghost use Rattle.ra_item.specs.Streams.{is_failed, Refuses};
ghost use Rattle.ra_item.specs.declared.fault.ItemFault.TheVariants as item;
ghost use Rattle.ra_item.specs.Reading.{is_between};
ghost use Rattle.ra_item.specs.Rests.{is_open, is_sound, is_of_byte};

use crate::fault::{ItemFault, NextFault};
use crate::item::Item;
use crate::reader::ItemReader;
use byte_streams::{Input, MOST_READS};
use std::alloc::Global;
use std::mem;

// How many bytes are read at a time: 16 KiB.
const PIECE: usize = 16_384;

// An input, and how often it was read for a stream.
#[derive(Drop)]
pub struct Source<I: Input + Drop> {
    inner: I,
    reads: u64,
    ghost counted: { reads ≤ I.reads inner } by { Prim.hlevel props },
}

impl<I: Input + Drop> Source<I> {
    ghost use Rattle.byte_streams.specs.Causes.{Fails, counts};
    ghost use Rattle.ra_item.specs.declared.fault.NextFault.TheVariants.{PeerFailed};

    // Reads some bytes, none only at the end. PeerFailed (49) where the input failed, or has had all its reads.
    fn read(&mut self, piece: &mut [u8]) -> Result<usize, NextFault>
        ensures bound { IfOk result (λ n. n ≤ length piece.new) }
        ensures bytes { IfOk result
            (λ n. Consumes (I.remaining self.old.inner) (I.remaining self.new.inner) (take n piece.new)) }
        ensures end { IfOk result (λ n. n ≡ 0 → 0 < length piece.new → IsAtEnd (I.remaining self.new.inner)) }
        ensures count { OnOk result ((self.new.reads ≡ self.old.reads + 1) × (self.old.reads < 1099511627775)) }
        ensures peer { IfErr result (λ e. e ≡ PeerFailed) }
        ensures cause { OnErr result (Fails (counts I.failures I.reads self.old.inner self.new.inner)) }
        ensures later { I.failures self.old.inner ≤ I.failures self.new.inner }
    {
        if self.reads >= MOST_READS {
            return Err(NextFault::PeerFailed);
        }
        match self.inner.read(piece) {
            Ok(n) => {
                self.reads += 1;
                Ok(n)
            }
            Err(_) => Err(NextFault::PeerFailed),
        }
    }
}

// What stands behind the items that are ready.
#[derive(Clone, Copy, PartialEq, Eq)]
pub enum Rest {
    // More may be read.
    Open,
    // A byte that no item has, with its refusal.
    Refused(ItemFault),
    // The stream was refused.
    Spent,
}

/// Items from an input, one at a time. What was read of the items behind the next is kept.
#[derive(Drop)]
pub struct ItemStream<I: Input + Drop> {
    source: Source<I>,
    items: ItemReader,
    // The items that are whole, the next one last.
    ready: Vec<Item>,
    rest: Rest,
    alloc: Global,
    ghost standing: { is_open rest ≡ true → is_failed items ≡ false },
    ghost sound: { is_sound rest ≡ true },
}

impl<I: Input + Drop> ItemStream<I> {
    ghost use Rattle.ra_item.specs.ItemStreams.{reader_of, is_spent, ahead, left, Answers, Fresh, Fills};
    ghost use Rattle.ra_item.specs.declared.fault.NextFault.TheVariants.{Items};

    /// Before the input's next byte.
    pub fn new(alloc: Global, input: I) -> ItemStream<I>
        ensures reader { reader_of result ≡ input }
        ensures begins { Fresh result }
    {
        ItemStream {
            source: Source {
                inner: input,
                reads: 0,
            },
            items: ItemReader::new(alloc),
            ready: Vec::new(alloc),
            rest: Rest::Open,
            alloc,
        }
    }

    /// The next whole top-level item, or none where the input ends between items; then the stream stands as before
    /// its first item.
    ///
    /// `Truncated` (7) where it ends inside one; `BadItem` (41), `TooDeep` (42) and `TooLong` (8) at a byte that no
    /// item has, behind the items before it; `PeerFailed` (49) only where the input failed or was read 2^40 - 1
    /// times; `OutOfMemory` (70) where a growth was refused. After a refusal each later call answers `Failed` (32).
    pub fn next(&mut self) -> Result<Option<Item>, NextFault>
        ensures answer { Answers I.remaining I.failures I.reads self.old self.new result }
        ensures spent { is_spent self.old ≡ true → result ≡ Err (Items item.Failed) }
        ensures later { OnErr result (is_spent self.new ≡ true) }
        ensures goes_on { OnOk result (is_spent self.new ≡ false) }
        ensures ended { IfOk result (λ x. x ≡ None → Fresh self.new) }
        ensures fewer { IfOk result (λ x. x ≢ None → left self.new < left self.old) }
        ensures failures { I.failures (reader_of self.old) ≤ I.failures (reader_of self.new) }
    {
        match self.fill() {
            Ok(true) => Ok(Some(self.ready.pop().unwrap())),
            Ok(false) => Ok(None),
            Err(fault) => {
                self.spend();
                Err(fault)
            }
        }
    }

    /// Gives the stream up: each later call answers `Failed` (32).
    pub fn spend(&mut self)
        ensures spent { is_spent self.new ≡ true }
        ensures reader { reader_of self.new ≡ reader_of self.old }
    {
        self.items = ItemReader::new(self.alloc);
        self.ready.clear();
        self.rest = Rest::Spent;
    }

    // Reads until an item is ready, or to the end between items, which answers false.
    fn fill(&mut self) -> Result<bool, NextFault>
        ensures fills { Fills I.remaining I.failures I.reads self.old self.new result }
        ensures ready { IfOk result (λ b. b ≡ true → 0 < length self.new.ready.items) }
        ensures spent { is_spent self.old ≡ true → result ≡ Err (Items item.Failed) }
        ensures goes_on { OnOk result (is_spent self.new ≡ false) }
        ensures ended { IfOk result (λ b. b ≡ false → Fresh self.new) }
        ensures fewer { IfOk result (λ b. b ≡ true → left self.new ≤ left self.old) }
        ensures failures { I.failures (reader_of self.old) ≤ I.failures (reader_of self.new) }
    {
        if let Rest::Spent = self.rest {
            return Err(NextFault::Items(ItemFault::Failed));
        }
        while self.ready.is_empty() {
            if let Rest::Refused(fault) = self.rest {
                return Err(NextFault::Items(fault));
            }
            if !self.pull()? {
                return Ok(false);
            }
        }
        Ok(true)
    }

    // Reads a piece and takes its items; at the end between items it answers false.
    fn pull(&mut self) -> Result<bool, NextFault>
        requires open { is_open self.old.rest ≡ true }
        requires none { self.old.ready.items ≡ [] }
        ensures fills { Fills I.remaining I.failures I.reads self.old self.new result }
        ensures count { OnOk result ((self.new.source.reads ≡ self.old.source.reads + 1)
            × (self.old.source.reads < 1099511627775)) }
        ensures goes_on { OnOk result (is_spent self.new ≡ false) }
        ensures ended { IfOk result (λ b. b ≡ false → Fresh self.new) }
        ensures fewer { IfOk result (λ b. b ≡ true → left self.new ≤ left self.old) }
        ensures failures { I.failures (reader_of self.old) ≤ I.failures (reader_of self.new) }
    {
        let mut piece = [0u8; PIECE];
        let n = self.source.read(&mut piece)?;
        if n == 0 {
            self.end()?;
            return Ok(false);
        }
        self.take(&piece[..n])?;
        Ok(true)
    }

    // The end of the input.
    fn end(&mut self) -> Result<(), NextFault>
        requires open { is_open self.old.rest ≡ true }
        requires none { self.old.ready.items ≡ [] }
        ensures whole { OnOk result (is_between self.old.items ≡ true) }
        ensures cut { IfErr result (λ e. (e ≡ Items item.Truncated) × (is_between self.old.items ≡ false)) }
        ensures source { self.new.source ≡ self.old.source }
        ensures goes_on { is_spent self.new ≡ false }
        ensures fresh { Fresh self.new }
    {
        let ended = mem::replace(&mut self.items, ItemReader::new(self.alloc));
        match ended.finish() {
            Ok(()) => Ok(()),
            Err(_) => Err(NextFault::Items(ItemFault::Truncated)),
        }
    }

    // The items that are ready stand in front of a refusal.
    fn refuse(&mut self, fault: ItemFault) -> Result<(), NextFault>
        requires of_byte { fault ≢ item.OutOfMemory → is_of_byte fault ≡ true }
        ensures memory { IfErr result (λ e. e ≡ Items item.OutOfMemory) }
        ensures refused { OnOk result ((fault ≢ item.OutOfMemory)
            × ((bytes : List ℕ) → ahead self.new bytes ≡ Refuses self.old.ready.items fault)) }
        ensures turned { OnOk result (self.new.ready.items ≡ reverse self.old.ready.items) }
        ensures source { self.new.source ≡ self.old.source }
        ensures goes_on { OnOk result (is_spent self.new ≡ false) }
    {
        match fault {
            ItemFault::OutOfMemory => {
                self.rest = Rest::Spent;
                Err(NextFault::Items(fault))
            }
            _ => {
                turn(&mut self.ready);
                self.rest = Rest::Refused(fault);
                Ok(())
            }
        }
    }

    // Takes a piece when no item is ready.
    fn take(&mut self, piece: &[u8]) -> Result<(), NextFault>
        requires open { is_open self.old.rest ≡ true }
        requires none { self.old.ready.items ≡ [] }
        ensures ahead { OnOk result ((more : List ℕ) → ahead self.old (piece.now ++ more) ≡ ahead self.new more) }
        ensures memory { IfErr result (λ e. e ≡ Items item.OutOfMemory) }
        ensures few { OnOk result (length self.new.ready.items ≤ length piece.now) }
        ensures source { self.new.source ≡ self.old.source }
        ensures goes_on { OnOk result (is_spent self.new ≡ false) }
    {
        match self.items.feed(piece, &mut self.ready) {
            Ok(()) => {
                turn(&mut self.ready);
                Ok(())
            }
            Err(fault) => {
                self.rest = Rest::Spent;
                self.refuse(fault)
            }
        }
    }
}

// The last item first.
fn turn(items: &mut Vec<Item>)
    ensures { items.new.items ≡ reverse items.old.items }
{
    items.as_mut_slice().reverse();
}
