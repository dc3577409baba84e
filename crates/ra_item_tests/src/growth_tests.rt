// Every growth of these tests may be refused: each then answers for what is left, and stays green. `rt try --test
// --fail-alloc N` refuses the growth number N.

use ra_item::fault::ItemFault;
use ra_item::item::Item;
use ra_item::reader::ItemReader;
use ra_item::writer::write_item;
use std::alloc::Global;
use std::slice;

// Items of each kind, in lists and outside, as many as make `out` grow again.
const ITEMS: &[u8] = b"0 ( a 2:hi ( 1 ( ) ) ) 2 4:text word 5 6 7 8 9 ";

// Whether the items are written as a front of the bytes, all of them where all are asked.
fn are_front(items: &[Item], bytes: &[u8], all: bool) -> bool {
    let mut room = [0u8; 64];
    let mut free = room.as_mut_slice();
    for item in items {
        if write_item(&mut free, item).is_err() {
            return false;
        }
    }
    let count = 64usize.saturating_sub(free.len());
    bytes.starts_with(room.get(..count).unwrap_or(b"")) && (!all || count == bytes.len())
}

// Whether a reader that has refused keeps nothing, and takes nothing more.
fn is_over(reader: ItemReader, items: &mut Vec<Item>) -> bool {
    let mut reader = reader;
    let count = items.len();
    let held = reader.held();
    let later = reader.feed(b"1 ", items).err();
    held == 0
        && later == Some(ItemFault::Failed)
        && items.len() == count
        && reader.finish().err() == Some(ItemFault::Failed)
}

// Whether bytes in pieces of a size are read to their end, or up to a growth that is refused: then the items that are
// there are the first, and the reader is over.
fn is_read(alloc: Global, bytes: &[u8], size: usize) -> bool {
    let mut reader = ItemReader::new(alloc);
    let mut items = Vec::new(alloc);
    for piece in bytes.chunks(size.max(1)) {
        if let Err(fault) = reader.feed(piece, &mut items) {
            return fault == ItemFault::OutOfMemory
                && are_front(&items, bytes, false)
                && is_over(reader, &mut items);
        }
    }
    are_front(&items, bytes, true) && reader.finish().is_ok()
}

#[test]
fn reading(rt: HostRuntime) {
    assert!(rt; is_read(rt.alloc(), ITEMS, ITEMS.len()));
    assert!(rt; is_read(rt.alloc(), ITEMS, 7));
    assert!(rt; is_read(rt.alloc(), ITEMS, 1));
}

// Whether an item is made and spelled so, or memory is wanting.
fn is_made(made: Result<Item, ItemFault>, bytes: &[u8]) -> bool {
    match made {
        Ok(item) => are_front(slice::from_ref(&item), bytes, true),
        Err(fault) => fault == ItemFault::OutOfMemory,
    }
}

// How the list below is written.
const LIST: &[u8] = b"( w 2:xy 3 ) ";

// A list of a word, a string and a number.
fn list(alloc: Global) -> Result<Item, ItemFault> {
    let word = Item::word(alloc, b"w")?;
    let text = Item::text(alloc, b"xy")?;
    let mut items = Vec::new(alloc);
    items.push(word)?;
    items.push(text)?;
    items.push(Item::number(3))?;
    Item::list(items)
}

#[test]
fn making(rt: HostRuntime) {
    assert!(rt; is_made(Item::word(rt.alloc(), b"w-1"), b"w-1 "));
    assert!(rt; is_made(Item::text(rt.alloc(), b"( )"), b"3:( ) "));
    assert!(rt; is_made(list(rt.alloc()), LIST));
}

// Whether an item is written whole, or up to a growth that is refused.
fn is_written(alloc: Global) -> bool {
    let Ok(item) = list(alloc) else {
        return true;
    };
    let mut written = Vec::new(alloc);
    match write_item(&mut written, &item) {
        Ok(()) => written.as_slice() == LIST,
        Err(_) => LIST.starts_with(&written),
    }
}

// Whether an item fills a place of a size, and is refused where the place is too short.
fn fills(alloc: Global, size: usize) -> bool {
    let Ok(item) = list(alloc) else {
        return true;
    };
    let mut room = [0u8; 16];
    let mut free = room.get_mut(..size).unwrap_or_default();
    let done = write_item(&mut free, &item).is_ok();
    let count = size.saturating_sub(free.len());
    done == (size >= LIST.len())
        && count == size.min(LIST.len())
        && LIST.starts_with(room.get(..count).unwrap_or(b"x"))
}

#[test]
fn writing(rt: HostRuntime) {
    assert!(rt; is_written(rt.alloc()));
    for size in [0, 1, 6, 12, 13, 16] {
        assert!(rt; fills(rt.alloc(), size));
    }
}
