//! Items: words, numbers, strings and lists of items.

ghost use Rattle.std.specs.Prelude.{◌≡◌, ◌+◌, ◌<◌, ◌≤◌, length, MatchOption, IfSome};
ghost use Rattle.std.specs.Fmt.{decimal};
ghost use Rattle.ra_item.specs.Bytes.{is_letter, is_digit, is_word_byte, is_white, is_word};
ghost use Rattle.ra_item.specs.Items.{Number, Within, row, deepest, spell_all, AllFit};
ghost use Rattle.ra_item.specs.Makers.{word_of, text_of, list_of, MadeIs};
ghost use Rattle.ra_item.specs.Weights.{weigh};
ghost use Rattle.ra_item.specs.Shapes.{item_of};

use crate::fault::ItemFault;
use crate::limits::{ITEM_BYTES, NESTING, STRING_BYTES, WORD_BYTES};
use std::alloc::Global;
use std::marker::Model;

/// An item within the limits: its words are words of at most 64 bytes, its strings have at most 1,048,576
/// bytes, it is at most 16 lists deep, and its written spelling has at most 33,554,432 bytes before the
/// space behind it. Contracts see it as the item of `specs/Items.antt`.
#[cycle(item)]
#[derive(Drop)]
pub struct Item {
    content: Content,
    depth: u32,
    size: u32,
}

/// What an item is, to be matched on. A list's items are items within the limits themselves.
#[cycle(item)]
#[derive(Drop)]
pub enum Content {
    /// A letter, and then letters, digits and hyphens.
    Word(Vec<u8>),
    /// A number below 2 to the 64th power.
    Number(u64),
    /// A string of any bytes.
    Text(Vec<u8>),
    /// Items in brackets.
    List(Vec<Item>),
}

impl Model for Item {
    ghost use Rattle.ra_item.specs.Items.{Item, nesting};
    ghost use Rattle.ra_item.specs.ItemCode.{coded_item};

    ghost Value = { Item };

    ghost coded = { coded_item };

    ghost use Rattle.ra_item.specs.Shapes.{item_of, IsShape};

    ghost view = { λ a. item_of a.content };

    ghost invariant = { IsShape };

    ghost size = { nesting };

    ghost use Rattle.ra_item.specs.ItemFalls.{shallow};

    ghost size_decreases = { λ a h. shallow a.content };
}

/// Whether it is a letter, A to Z or a to z.
pub fn is_letter_byte(b: u8) -> bool
    ensures { result ≡ is_letter b }
{
    b.is_ascii_alphabetic()
}

/// Whether a word may go on with it: a letter, a digit or a hyphen.
pub fn is_inner_byte(b: u8) -> bool
    ensures { result ≡ is_word_byte b }
{
    b.is_ascii_alphanumeric() || b == b'-'
}

/// Whether the bytes are a letter, and then letters, digits and hyphens.
fn is_word_text(bytes: &[u8]) -> bool
    ensures { result ≡ is_word bytes.now }
{
    let [first, rest @ ..] = bytes else {
        return false;
    };
    if !is_letter_byte(*first) {
        return false;
    }
    for b in rest {
        if !is_inner_byte(*b) {
            return false;
        }
    }
    true
}

/// How many digits a number is written with.
fn digit_count(n: u64) -> u32
    ensures digits { result ≡ length (decimal n) }
    ensures small { result ≤ 20 }
{
    if n < 10 { 1 } else { digit_count(n / 10) + 1 }
}

/// How deep the deepest of the items is.
fn depth_of(items: &[Item]) -> u32
    ensures depth { result ≡ deepest (row items.now) }
    ensures fit { AllFit (row items.now) }
{
    let mut depth = 0;
    for item in items {
        depth = depth.max(item.depth);
    }
    depth
}

/// How many bytes the items are written with, where these are few enough for a list.
fn size_of_all(items: &[Item]) -> Option<u32>
    ensures small { IfSome result (λ n. n ≤ 33554429) }
    ensures size { MatchOption result (33554429 < length (spell_all (row items.now))) (λ n. n
        ≡ length (spell_all (row items.now))) }
{
    let mut size = 0u32;
    for item in items {
        size += item.size;
        if size > ITEM_BYTES - 3 {
            return None;
        }
    }
    Some(size)
}

/// How many bytes the items are written with.
pub fn written_size(items: &[Item]) -> usize
    requires { weigh items.now ≤ ITEM_BYTES }
    ensures { result ≡ weigh items.now }
{
    let mut size = 0;
    for item in items {
        size += item.size as usize;
    }
    size
}

impl Item {
    /// A word with these bytes. `BadItem` where they are no word, else `TooLong` where they are more than 64.
    pub fn word_from_vec(bytes: Vec<u8>) -> Result<Item, ItemFault>
        ensures { result ≡ word_of bytes.items }
    {
        if !is_word_text(&bytes) {
            return Err(ItemFault::BadItem);
        }
        if bytes.len() > WORD_BYTES {
            return Err(ItemFault::TooLong);
        }
        let size = bytes.len() as u32 + 1;
        Ok(Item {
            content: Content::Word(bytes),
            depth: 0,
            size,
        })
    }

    /// A string with these bytes. `TooLong` where they are more than 1,048,576.
    pub fn text_from_vec(bytes: Vec<u8>) -> Result<Item, ItemFault>
        ensures { result ≡ text_of bytes.items }
    {
        if bytes.len() > STRING_BYTES {
            return Err(ItemFault::TooLong);
        }
        let size = digit_count(bytes.len() as u64) + bytes.len() as u32 + 2;
        Ok(Item {
            content: Content::Text(bytes),
            depth: 0,
            size,
        })
    }

    /// A number. It is never refused.
    pub fn number(n: u64) -> Item
        ensures { result ≡ Number n }
    {
        Item {
            content: Content::Number(n),
            depth: 0,
            size: digit_count(n) + 1,
        }
    }

    /// The list of these items. `TooDeep` where it would be more than 16 lists deep, else `TooLong` where its
    /// spelling would have more than 33,554,432 bytes before the space behind it.
    pub fn list(items: Vec<Item>) -> Result<Item, ItemFault>
        ensures { result ≡ list_of (row items.items) }
    {
        let inner = depth_of(&items);
        if inner >= NESTING {
            return Err(ItemFault::TooDeep);
        }
        let Some(size) = size_of_all(&items) else {
            return Err(ItemFault::TooLong);
        };
        Ok(Item {
            content: Content::List(items),
            depth: inner + 1,
            size: size + 4,
        })
    }

    /// A word with a copy of these bytes: as `word_from_vec`, or `OutOfMemory`.
    pub fn word(alloc: Global, bytes: &[u8]) -> Result<Item, ItemFault>
        ensures { MadeIs result (word_of bytes.now) }
    {
        Item::word_from_vec(Vec::from_slice(alloc, bytes)?)
    }

    /// A string with a copy of these bytes: as `text_from_vec`, or `OutOfMemory`.
    pub fn text(alloc: Global, bytes: &[u8]) -> Result<Item, ItemFault>
        ensures { MadeIs result (text_of bytes.now) }
    {
        Item::text_from_vec(Vec::from_slice(alloc, bytes)?)
    }

    /// What the item is, to be matched on.
    pub fn content(&self) -> &Content
        ensures item { item_of result.now ≡ self.now }
        ensures within { Within self.now }
    {
        &self.content
    }

    /// What the item is, with its parts, to be taken apart.
    pub fn into_content(self) -> Content
        ensures { item_of result ≡ self }
    {
        self.content
    }
}
