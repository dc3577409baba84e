//! What bytes come to. A growth that is refused counts as another answer, so that a test of it fails.

use ra_item::item::Item;
use ra_item::reader::ItemReader;
use ra_item::writer::write_number;
use ra_wire::command::Command;
use ra_wire::command_writer::write_command;
use ra_wire::params::Params;
use ra_wire::reply::Reply;
use std::alloc::Global;
use std::process::Abort;

// The items of bytes, or none where these aren't whole.
fn items_of(alloc: Global, bytes: &[u8]) -> Vec<Item> {
    let mut reader = ItemReader::new(alloc);
    let mut items = Vec::new(alloc);
    let whole = reader.feed(bytes, &mut items).is_ok() && reader.finish().is_ok();
    if !whole {
        items.clear();
    }
    items
}

// The first item of bytes.
pub(crate) fn item_of(alloc: Global, bytes: &[u8]) -> Option<Item> {
    let mut items = items_of(alloc, bytes);
    items.as_mut_slice().reverse();
    items.pop()
}

// What an answer holds that is no failure.
pub(crate) fn content_of(alloc: Global, bytes: &[u8]) -> Option<Params> {
    Reply::content(alloc, item_of(alloc, bytes)?).ok()
}

// Writes a command again, or the number of its refusal.
fn tell(alloc: Global, item: Item, out: &mut Vec<u8>) -> bool {
    match Command::parse(alloc, item) {
        Ok(command) => write_command(out, &command).is_ok(),
        Err(fault) => write_number(out, u64::from(fault.number())).is_ok(),
    }
}

// Whether the commands in bytes, written again or told by a refusal's number, are these bytes.
pub(crate) fn tells(alloc: Global, bytes: &[u8], want: &[u8]) -> bool {
    let mut out = Vec::new(alloc);
    for item in items_of(alloc, bytes) {
        if !tell(alloc, item, &mut out) {
            return false;
        }
    }
    out.as_slice() == want
}

// The first bytes of a table that don't come to those beside them.
pub(crate) fn first_wrong<'a>(
    alloc: Global,
    table: &'a [(&'a [u8], &'a [u8])],
) -> Option<&'a [u8]> {
    for (bytes, want) in table {
        if !tells(alloc, bytes, want) {
            return Some(*bytes);
        }
    }
    None
}

// The first of several that isn't written as it came.
pub(crate) fn first_changed<'a>(alloc: Global, table: &'a [&'a [u8]]) -> Option<&'a [u8]> {
    for bytes in table {
        if !tells(alloc, bytes, bytes) {
            return Some(*bytes);
        }
    }
    None
}

/// Ends the test with the bytes that come to another thing, if some do.
pub(crate) fn none_is_told(rt: &impl Abort, wrong: Option<&[u8]>) {
    if let Some(bytes) = wrong {
        rt.panic(str::from_utf8(bytes).unwrap_or("bytes that are no text"));
    }
}
