//! Items of the ra_svn protocol, in any pieces.
//!
//! A Subversion client and a server send each other items: words, numbers, strings with their length in
//! front, and lists of items, as the document `protocol` of Subversion's library `libsvn_ra_svn` has them.
//! [`reader::ItemReader`] reads them from bytes that come in any pieces, [`stream::ItemStream`] gives those of an
//! input one at a time, [`writer::write_item`] writes them in one spelling, and an [`item::Item`] is within the
//! limits of [`limits`] by its type.
//!
//! ```text
//! let mut reader = ItemReader::new(alloc);
//! let mut items = Vec::new(alloc);
//! reader.feed(b"( get-file ( 7:tru", &mut items)?;     // nothing is whole yet
//! reader.feed(b"nk/a ( 12 ) true false ) ) ", &mut items)?; // one list
//! reader.finish()?;
//! ```
//!
//! After any pieces the items in `out` are exactly those that are whole in the joined bytes, and a byte that
//! no item has in its place is refused with its number in the `feed` that brings it. What the grammar calls
//! a stream of items is read as these items and no others, what is read is in the grammar, what is refused
//! begins no stream and what isn't refused begins one, and what `write_item` writes is read again, whatever
//! follows.
#![tactic(auto)]

pub mod fault;
pub mod item;
pub mod law;
pub mod limits;
mod parts;
pub mod reader;
mod reading;
pub mod stream;
pub mod writer;
