//! An answer of a server.

ghost use Rattle.std.specs.Prelude.{map, None};
ghost use Rattle.std.specs.Option.{option_map};
ghost use Rattle.ra_item.specs.Items.{row};
ghost use Rattle.ra_wire.specs.Params.{left_of, each, Reads, Misses};
ghost use Rattle.ra_wire.specs.Prototypes.{IsRefused, IsReply, HasContent, Judges};
ghost use Rattle.ra_wire.specs.Answers.{reply_in, reply_as, reply_of, refused_in, refused_as, content_in};

use crate::fault::WireFault;
use crate::params::Params;
use ra_item::item::Item;
use std::alloc::Global;

/// Why a server refuses: `( number text file line )`.
#[derive(Drop)]
pub struct Refused {
    /// The refusal's number.
    pub number: u64,
    /// What it says.
    pub text: Vec<u8>,
    /// Where in the server's source it was found, if it says so.
    pub file: Vec<u8>,
    pub line: u64,
}

/// An answer of a server: `( success ( .. ) )` or `( failure ( refused .. ) )`.
#[derive(Drop)]
pub enum Reply {
    /// What the answer holds.
    Success(Params),
    /// Why there is none, the outermost first.
    Failure(Vec<Refused>),
}

impl Refused {
    /// The refusal that an item is. `BadShape` (48) for another form.
    pub fn parse(item: Item) -> Result<Refused, WireFault>
        ensures read { Reads (refused_in item) refused_as result }
        ensures none { Misses (refused_in item) result }
        ensures judged { Judges IsRefused refused_as item result }
    {
        Refused::read(item)
    }

    // The same, by what is read alone.
    fn read(item: Item) -> Result<Refused, WireFault>
        ensures read { Reads (refused_in item) refused_as result }
        ensures none { Misses (refused_in item) result }
    {
        let mut parts = Params::of(item)?;
        let number = parts.number()?;
        let text = parts.text()?;
        let file = parts.text()?;
        let line = parts.number()?;
        Ok(Refused {
            number,
            text,
            file,
            line,
        })
    }
}

// Items that are all refusals.
fn all_refused(alloc: Global, items: Vec<Item>) -> Result<Vec<Refused>, WireFault>
    ensures read { Reads (each refused_in (row items.items)) (λ fs. map refused_as fs.items) result }
    ensures none { Misses (each refused_in (row items.items)) result }
{
    let mut all = Vec::new(alloc);
    for item in items {
        all.push(Refused::read(item)?)?;
    }
    Ok(all)
}

// The answer of a word with items in brackets behind it.
fn reply_of(alloc: Global, word: &[u8], items: Vec<Item>) -> Result<Reply, WireFault>
    ensures read { Reads (reply_of word.now (row items.items)) reply_as result }
    ensures none { Misses (reply_of word.now (row items.items)) result }
{
    if word == b"success".as_slice() {
        Ok(Reply::Success(Params::all(items)))
    } else if word == b"failure".as_slice() {
        Ok(Reply::Failure(all_refused(alloc, items)?))
    } else {
        Err(WireFault::BadShape)
    }
}

impl Reply {
    /// The answer that an item is. `BadShape` (48) for another form, `OutOfMemory` (70).
    pub fn parse(alloc: Global, item: Item) -> Result<Reply, WireFault>
        ensures read { Reads (reply_in item) reply_as result }
        ensures none { Misses (reply_in item) result }
        ensures judged { Judges IsReply reply_as item result }
    {
        Reply::read(alloc, item)
    }

    // The same, by what is read alone.
    fn read(alloc: Global, item: Item) -> Result<Reply, WireFault>
        ensures read { Reads (reply_in item) reply_as result }
        ensures none { Misses (reply_in item) result }
    {
        let mut parts = Params::of(item)?;
        let word = parts.word()?;
        let items = parts.items()?;
        reply_of(alloc, word.as_slice(), items)
    }

    /// What an answer holds that is no failure. `BadShape` (48) for a failure and for another form, `OutOfMemory` (70).
    pub fn content(alloc: Global, item: Item) -> Result<Params, WireFault>
        ensures read { Reads (content_in item) left_of result }
        ensures none { Misses (content_in item) result }
        ensures judged { Judges HasContent left_of item result }
    {
        Reply::held(alloc, item)
    }

    // The same, by what is read alone.
    fn held(alloc: Global, item: Item) -> Result<Params, WireFault>
        ensures read { Reads (content_in item) left_of result }
        ensures none { Misses (content_in item) result }
    {
        match Reply::read(alloc, item)? {
            Reply::Success(content) => Ok(content),
            Reply::Failure(_) => Err(WireFault::BadShape),
        }
    }
}
