//! An item that isn't whole yet, byte by byte.

ghost use Rattle.std.specs.Prelude.{◌≡◌, ◌+◌, ◌<◌, ◌≤◌, ◌^◌, [], ◌∷◌, ◌++◌, length};
ghost use Rattle.std.specs.Prelude.{IfOk, OnErr, Ok, Err, if◌then◌else◌, true, false};
ghost use Rattle.ra_item.specs.Bytes.{is_white, is_digit};
ghost use Rattle.ra_item.specs.Makers.{word_of, text_of};
ghost use Rattle.ra_item.specs.Reading.{StepIs, begin, failed, give, made, close, open_list, start, in_word, in_number};
ghost use Rattle.ra_item.specs.Reading.{byte_step, one_step, counted, Next, is_between, held_more};
ghost use Rattle.ra_item.specs.Streams.{MayKeep, StreamIs, reading, one_byte, Reads, WholeInFront, is_failed};
ghost use Rattle.ra_item.specs.Places.{kept};
ghost use Rattle.ra_item.specs.declared.reading.Place.TheVariants as at;

use crate::fault::ItemFault;
use crate::item::{Item, is_inner_byte, is_letter_byte};
use crate::limits::{ITEM_BYTES, NESTING, STRING_BYTES, WORD_BYTES};
use crate::parts::{Bytes, Row, Stack};
use std::alloc::{AllocError, Global};
use std::mem;

/// Where a reader stands.
#[derive(Clone, Copy)]
pub enum Place {
    /// An item may begin, white space may come, or the innermost list may end.
    Between,
    /// Behind the bracket that opens a list.
    Opened,
    /// In a word.
    Word,
    /// Behind digits of a number, or of a string's length.
    Number(u64),
    /// In a string of so many bytes.
    Text(u32),
    /// Behind the last byte of a string.
    Ended,
    /// Behind the bracket that closes a list.
    Closed,
    /// Bytes were refused.
    Failed,
}

/// What has come of a top-level item.
#[derive(Drop)]
pub struct Reading {
    /// What is awaited.
    pub place: Place,
    /// How many bytes of the item have come.
    pub count: u32,
    /// The bytes of the word or the string.
    pub held: Bytes,
    /// The items of the innermost open list.
    pub row: Row,
    /// The items of the lists round it, and what stands outside.
    pub outer: Stack,
}

/// Whether it is a space or an LF.
fn is_white_byte(b: u8) -> bool
    ensures { result ≡ is_white b }
{
    b == b' ' || b == b'\n'
}

/// Whether it is a digit.
fn is_digit_byte(b: u8) -> bool
    ensures { result ≡ is_digit b }
{
    b.is_ascii_digit()
}

impl Reading {
    /// Between top-level items.
    pub fn new(alloc: Global) -> Reading
        ensures { result ≡ begin }
    {
        Reading {
            place: Place::Between,
            count: 0,
            held: Bytes::new(alloc),
            row: Row::new(alloc),
            outer: Stack::new(alloc),
        }
    }

    /// Behind refused bytes.
    pub fn failed(alloc: Global) -> Reading
        ensures { result ≡ failed }
    {
        Reading {
            place: Place::Failed,
            ..Reading::new(alloc)
        }
    }

    /// How many bytes are kept.
    pub fn kept(&self) -> usize
        requires { kept self.now ≤ ITEM_BYTES }
        ensures { result ≡ kept self.now }
    {
        self.held.len() + (self.row.written_size() + self.outer.written_size())
    }

    /// Whether bytes were refused.
    pub fn is_failed(&self) -> bool
        ensures { result ≡ is_failed self.now }
    {
        match self.place {
            Place::Failed => true,
            _ => false,
        }
    }

    /// Whether no item has begun.
    pub fn is_between(&self) -> bool
        ensures { result ≡ is_between self.now }
    {
        match self.place {
            Place::Between => self.outer.len() == 0,
            _ => false,
        }
    }

    /// An item is whole.
    fn give(&mut self, alloc: Global, item: Item) -> Result<Option<Item>, ItemFault>
        ensures { StepIs result self.new (give self.old item) }
    {
        self.place = Place::Between;
        self.held = Bytes::new(alloc);
        if self.outer.len() == 0 {
            self.count = 0;
            return Ok(Some(item));
        }
        self.row.push(item)?;
        Ok(None)
    }

    /// The held bytes are a word.
    fn end_word(&mut self, alloc: Global) -> Result<Option<Item>, ItemFault>
        ensures { StepIs result self.new (made self.old (word_of self.old.held)) }
    {
        let held = mem::replace(&mut self.held, Bytes::new(alloc));
        let item = Item::word_from_vec(held.into_vec())?;
        self.give(alloc, item)
    }

    /// The held bytes are a string.
    fn end_text(&mut self, alloc: Global) -> Result<Option<Item>, ItemFault>
        ensures { StepIs result self.new (made self.old (text_of self.old.held)) }
    {
        let held = mem::replace(&mut self.held, Bytes::new(alloc));
        let item = Item::text_from_vec(held.into_vec())?;
        self.give(alloc, item)
    }

    /// The innermost list is whole.
    fn close(&mut self, alloc: Global) -> Result<Option<Item>, ItemFault>
        ensures { StepIs result self.new (close self.old) }
    {
        let Some(around) = self.outer.pop() else {
            return Err(ItemFault::BadItem);
        };
        let row = mem::replace(&mut self.row, around);
        let item = Item::list(row.into_vec())?;
        self.give(alloc, item)
    }

    /// A list opens.
    fn open_list(&mut self, alloc: Global) -> Result<Option<Item>, ItemFault>
        ensures { StepIs result self.new (open_list self.old) }
    {
        if self.outer.len() >= NESTING as usize {
            return Err(ItemFault::TooDeep);
        }
        self.place = Place::Opened;
        let row = mem::replace(&mut self.row, Row::new(alloc));
        self.outer.push(row)?;
        Ok(None)
    }

    /// Where an item may begin.
    fn start(&mut self, alloc: Global, b: u8) -> Result<Option<Item>, ItemFault>
        ensures { StepIs result self.new (start self.old b) }
    {
        if is_white_byte(b) {
            return Ok(None);
        }
        if is_letter_byte(b) {
            self.place = Place::Word;
            self.held = Bytes::new(alloc);
            self.held.push(b)?;
            return Ok(None);
        }
        if is_digit_byte(b) {
            self.place = Place::Number(u64::from(b - b'0'));
            return Ok(None);
        }
        match b {
            b'(' => self.open_list(alloc),
            b')' if self.outer.len() > 0 => {
                self.place = Place::Closed;
                Ok(None)
            }
            _ => Err(ItemFault::BadItem),
        }
    }

    /// In a word.
    fn in_word(&mut self, alloc: Global, b: u8) -> Result<Option<Item>, ItemFault>
        ensures { StepIs result self.new (in_word self.old b) }
    {
        if is_inner_byte(b) {
            if self.held.len() >= WORD_BYTES {
                return Err(ItemFault::TooLong);
            }
            self.held.push(b)?;
            return Ok(None);
        }
        if is_white_byte(b) {
            self.end_word(alloc)
        } else {
            Err(ItemFault::BadItem)
        }
    }

    /// Behind digits of a number.
    fn in_number(&mut self, alloc: Global, n: u64, b: u8) -> Result<Option<Item>, ItemFault>
        ensures { StepIs result self.new (in_number n self.old b) }
    {
        if is_digit_byte(b) {
            let digit = u64::from(b - b'0');
            if n > (u64::MAX - digit) / 10 {
                return Err(ItemFault::BadItem);
            }
            self.place = Place::Number(n * 10 + digit);
            return Ok(None);
        }
        if b == b':' {
            if n > STRING_BYTES as u64 {
                return Err(ItemFault::TooLong);
            }
            self.place = if n == 0 {
                Place::Ended
            } else {
                Place::Text(n as u32)
            };
            self.held = Bytes::new(alloc);
            return Ok(None);
        }
        if is_white_byte(b) {
            self.give(alloc, Item::number(n))
        } else {
            Err(ItemFault::BadItem)
        }
    }

    /// One byte, apart from the count.
    fn place_byte(&mut self, alloc: Global, b: u8) -> Result<Option<Item>, ItemFault>
        ensures { StepIs result self.new (byte_step self.old.place self.old b) }
    {
        match self.place {
            Place::Between => self.start(alloc, b),
            Place::Word => self.in_word(alloc, b),
            Place::Number(n) => self.in_number(alloc, n, b),
            Place::Text(n) => {
                self.held.push(b)?;
                if self.held.len() >= n as usize {
                    self.place = Place::Ended;
                }
                Ok(None)
            }
            Place::Failed => Err(ItemFault::Failed),
            Place::Opened | Place::Ended | Place::Closed => {
                if is_white_byte(b) {
                    self.end_part(alloc)
                } else {
                    Err(ItemFault::BadItem)
                }
            }
        }
    }

    /// White space behind a bracket or a string.
    fn end_part(&mut self, alloc: Global) -> Result<Option<Item>, ItemFault>
        ensures opened { self.old.place ≡ at.Opened
            → StepIs result self.new (Next (record self.old { place = at.Between })) }
        ensures ended { self.old.place ≡ at.Ended → StepIs result self.new (made self.old (text_of self.old.held)) }
        ensures closed { self.old.place ≡ at.Closed → StepIs result self.new (close self.old) }
    {
        match self.place {
            Place::Ended => self.end_text(alloc),
            Place::Closed => self.close(alloc),
            _ => {
                self.place = Place::Between;
                Ok(None)
            }
        }
    }

    /// The top-level item has one byte more.
    fn count_byte(&mut self) -> Result<Option<Item>, ItemFault>
        ensures { StepIs result self.new (counted (Next self.old)) }
    {
        if self.is_between() {
            return Ok(None);
        }
        if self.count >= ITEM_BYTES {
            return Err(ItemFault::TooLong);
        }
        self.count += 1;
        Ok(None)
    }

    /// Takes one byte. The answer is the top-level item that is whole at it.
    pub fn take_byte(&mut self, alloc: Global, b: u8) -> Result<Option<Item>, ItemFault>
        ensures { StepIs result self.new (one_step self.old b) }
    {
        match self.place_byte(alloc, b) {
            Ok(None) => self.count_byte(),
            given => given,
        }
    }

    /// How many bytes of a string may be kept at once: not its last, and none past the limit.
    fn room(&self) -> usize
        ensures keep { MayKeep self.now result }
        ensures left { 0 < result → self.now.count + result ≤ ITEM_BYTES }
    {
        match self.place {
            Place::Text(n) => {
                let due = (n as usize)
                    .saturating_sub(self.held.len())
                    .saturating_sub(1);
                due.min(ITEM_BYTES.saturating_sub(self.count) as usize)
            }
            _ => 0,
        }
    }

    /// Keeps bytes of a string.
    fn keep(&mut self, bytes: &[u8]) -> Result<(), AllocError>
        requires { self.old.count + length bytes.now ≤ ITEM_BYTES }
        ensures { IfOk result (λ _. self.new ≡ held_more self.old bytes.now) }
    {
        self.held.extend(bytes)?;
        self.count += bytes.len() as u32;
        Ok(())
    }

    /// Takes one byte, and adds the top-level item that is whole at it.
    fn take_one(&mut self, alloc: Global, b: u8, out: &mut Vec<Item>) -> Result<(), ItemFault>
        ensures on { StreamIs result self.new out.new.items (one_byte (Reads out.old.items self.old) b) }
        ensures out { OnErr result (out.new.items ≡ out.old.items) }
    {
        match self.take_byte(alloc, b) {
            Ok(None) => Ok(()),
            Ok(Some(item)) => {
                out.push(item)?;
                Ok(())
            }
            Err(fault) => Err(fault),
        }
    }

    /// Takes the bytes of a piece, and adds each top-level item that is whole now.
    pub fn take_piece(
        &mut self,
        alloc: Global,
        piece: &[u8],
        out: &mut Vec<Item>,
    ) -> Result<(), ItemFault>
        ensures on { StreamIs result self.new out.new.items (reading (Reads out.old.items self.old) piece.now) }
        ensures front { OnErr result (WholeInFront out.new.items (Reads out.old.items self.old) piece.now) }
    {
        let mut at = 0;
        while at < piece.len() {
            let stretch = self.room().min(piece.len() - at);
            if stretch > 0 {
                self.keep(&piece[at..at + stretch])?;
                at += stretch;
            } else {
                match self.take_one(alloc, piece[at], out) {
                    Ok(()) => at += 1,
                    Err(fault) => return Err(fault),
                }
            }
        }
        Ok(())
    }
}
