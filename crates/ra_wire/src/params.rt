//! The items of a list, one after another.

ghost use Rattle.std.specs.Prelude.{◌≡◌, [], ◌∷◌, reverse, map, IfOk, IfErr, true, false, Some, None};
ghost use Rattle.std.specs.Option.{option_map};
ghost use Rattle.ra_item.specs.Items.{Then, End, Nested, row};
ghost use Rattle.ra_wire.specs.Params.{left_of, parts_in, word_in, text_in, number_in, list_in, bool_in, path_in};
ghost use Rattle.ra_wire.specs.Params.{prop_name_in, bracketed, perhaps, right, unslashed, each, word_of, words_in};
ghost use Rattle.node_base.specs.PathText.{path_read};
ghost use Rattle.ra_wire.specs.Params.{Reads, ReadsNext, Misses};

use crate::fault::WireFault;
use node_base::{NodePath, PathFault, PropFault, PropName};
use ra_item::item::{Content, Item};
use std::alloc::Global;

/// The items of a list that weren't taken yet.
#[derive(Drop)]
pub struct Params {
    // The next one last.
    items: Vec<Item>,
}

impl Params {
    /// All the items of a list.
    pub fn all(items: Vec<Item>) -> Params
        ensures { left_of result ≡ row items.items }
    {
        let mut items = items;
        items.as_mut_slice().reverse();
        Params { items }
    }

    /// The items of an item that is a list.
    pub fn of(item: Item) -> Result<Params, WireFault>
        ensures read { Reads (parts_in item) left_of result }
        ensures none { Misses (parts_in item) result }
    {
        match item.into_content() {
            Content::List(items) => Ok(Params::all(items)),
            Content::Number(_) | Content::Text(_) | Content::Word(_) => Err(WireFault::BadShape),
        }
    }

    /// The next item. `BadShape` where nothing is left.
    #[tactic(auto, using(crate::proofs::Turned::turned))]
    pub fn next(&mut self) -> Result<Item, WireFault>
        ensures read { IfOk result (λ x. left_of self.old ≡ Then x (left_of self.new)) }
        ensures none { IfErr result (λ f. (left_of self.old ≡ End) × (f ≡ WireFault.BadShape)) }
    {
        match self.items.pop() {
            Some(item) => Ok(item),
            None => Err(WireFault::BadShape),
        }
    }

    /// Whether nothing is left.
    #[tactic(auto, using(crate::proofs::Turned::none_left))]
    pub fn is_empty(&self) -> bool
        ensures empty { result ≡ true → left_of self.now ≡ End }
        ensures more { result ≡ false → left_of self.now ≡ End → ⊥ }
    {
        self.items.is_empty()
    }

    /// The next item, which is a word.
    pub fn word(&mut self) -> Result<Vec<u8>, WireFault>
        ensures read { ReadsNext word_in (λ w. w.items) self.old self.new result }
        ensures none { Misses (word_in (left_of self.old)) result }
    {
        match self.next()?.into_content() {
            Content::Word(word) => Ok(word),
            Content::List(_) | Content::Number(_) | Content::Text(_) => Err(WireFault::BadShape),
        }
    }

    /// The next item, which is a string.
    pub fn text(&mut self) -> Result<Vec<u8>, WireFault>
        ensures read { ReadsNext text_in (λ t. t.items) self.old self.new result }
        ensures none { Misses (text_in (left_of self.old)) result }
    {
        match self.next()?.into_content() {
            Content::Text(text) => Ok(text),
            Content::List(_) | Content::Number(_) | Content::Word(_) => Err(WireFault::BadShape),
        }
    }

    /// The next item, which is a number.
    pub fn number(&mut self) -> Result<u64, WireFault>
        ensures read { ReadsNext number_in (λ n. n) self.old self.new result }
        ensures none { Misses (number_in (left_of self.old)) result }
    {
        match self.next()?.into_content() {
            Content::Number(n) => Ok(n),
            Content::List(_) | Content::Text(_) | Content::Word(_) => Err(WireFault::BadShape),
        }
    }

    /// The next item, which is a list, as its items.
    pub fn items(&mut self) -> Result<Vec<Item>, WireFault>
        ensures read { ReadsNext list_in (λ l. row l.items) self.old self.new result }
        ensures none { Misses (list_in (left_of self.old)) result }
    {
        match self.next()?.into_content() {
            Content::List(items) => Ok(items),
            Content::Number(_) | Content::Text(_) | Content::Word(_) => Err(WireFault::BadShape),
        }
    }

    /// The next item, which is a list.
    pub fn list(&mut self) -> Result<Params, WireFault>
        ensures read { ReadsNext list_in left_of self.old self.new result }
        ensures none { Misses (list_in (left_of self.old)) result }
    {
        Ok(Params::all(self.items()?))
    }

    /// The next item, which is a list of words.
    pub fn words(&mut self, alloc: Global) -> Result<Vec<Vec<u8>>, WireFault>
        ensures read { ReadsNext words_in (λ ws. map (λ w. w.items) ws.items) self.old self.new result }
        ensures none { Misses (words_in (left_of self.old)) result }
    {
        all_words(alloc, self.items()?)
    }

    /// The next item, which is one of the words true and false.
    pub fn boolean(&mut self) -> Result<bool, WireFault>
        ensures read { ReadsNext bool_in (λ b. b) self.old self.new result }
        ensures none { Misses (bool_in (left_of self.old)) result }
    {
        let word = self.word()?;
        if word.as_slice() == b"true".as_slice() {
            Ok(true)
        } else if word.as_slice() == b"false".as_slice() {
            Ok(false)
        } else {
            Err(WireFault::BadShape)
        }
    }

    /// The next item, which is a path, behind one slash or none.
    pub fn path(&mut self, alloc: Global) -> Result<NodePath, WireFault>
        ensures read { ReadsNext path_in (λ p. p) self.old self.new result }
        ensures none { Misses (path_in (left_of self.old)) result }
    {
        let text = self.text()?;
        match NodePath::parse(alloc, without_slash(text.as_slice())) {
            Ok(path) => Ok(path),
            Err(PathFault::OutOfMemory) => Err(WireFault::OutOfMemory),
            Err(PathFault::TooLong | PathFault::BadPath) => Err(WireFault::BadShape),
        }
    }

    /// The next item, which is a property's name.
    pub fn prop_name(&mut self) -> Result<PropName, WireFault>
        ensures read { ReadsNext prop_name_in (λ n. n) self.old self.new result }
        ensures none { Misses (prop_name_in (left_of self.old)) result }
    {
        match PropName::from_bytes(self.text()?) {
            Ok(name) => Ok(name),
            Err(PropFault::OutOfMemory) => Err(WireFault::OutOfMemory),
            Err(_) => Err(WireFault::BadShape),
        }
    }

    /// A string at the end, or nothing.
    pub fn last_text(&mut self) -> Result<Option<Vec<u8>>, WireFault>
        ensures read { Reads (perhaps text_in (left_of self.old)) (option_map (λ s. s.items)) result }
        ensures none { Misses (perhaps text_in (left_of self.old)) result }
    {
        if self.is_empty() {
            return Ok(None);
        }
        Ok(Some(self.text()?))
    }

    /// A number at the end, or nothing.
    pub fn last_number(&mut self) -> Result<Option<u64>, WireFault>
        ensures read { IfOk result (λ n. perhaps number_in (left_of self.old) ≡ Some n) }
        ensures none { Misses (perhaps number_in (left_of self.old)) result }
    {
        if self.is_empty() {
            return Ok(None);
        }
        Ok(Some(self.number()?))
    }

    /// Brackets with a number or nothing.
    pub fn maybe_number(&mut self) -> Result<Option<u64>, WireFault>
        ensures read { ReadsNext (bracketed number_in) (λ n. n) self.old self.new result }
        ensures none { Misses (bracketed number_in (left_of self.old)) result }
    {
        self.list()?.last_number()
    }

    /// Brackets with a string or nothing.
    pub fn maybe_text(&mut self) -> Result<Option<Vec<u8>>, WireFault>
        ensures read { ReadsNext (bracketed text_in) (option_map (λ s. s.items)) self.old self.new result }
        ensures none { Misses (bracketed text_in (left_of self.old)) result }
    {
        self.list()?.last_text()
    }

    /// A list at the end, or nothing.
    pub fn last_list(&mut self) -> Result<Option<Params>, WireFault>
        ensures read { Reads (perhaps list_in (left_of self.old)) (option_map left_of) result }
        ensures none { Misses (perhaps list_in (left_of self.old)) result }
    {
        if self.is_empty() {
            return Ok(None);
        }
        Ok(Some(self.list()?))
    }
}

// An item that is a word.
fn word_of(item: Item) -> Result<Vec<u8>, WireFault>
    ensures read { IfOk result (λ w. word_of item ≡ Some w.items) }
    ensures none { Misses (word_of item) result }
{
    match item.into_content() {
        Content::Word(word) => Ok(word),
        Content::List(_) | Content::Number(_) | Content::Text(_) => Err(WireFault::BadShape),
    }
}

// Items that are all words.
fn all_words(alloc: Global, items: Vec<Item>) -> Result<Vec<Vec<u8>>, WireFault>
    ensures read { Reads (each word_of (row items.items)) (λ ws. map (λ w. w.items) ws.items) result }
    ensures none { Misses (each word_of (row items.items)) result }
{
    let mut words = Vec::new(alloc);
    for item in items {
        words.push(word_of(item)?)?;
    }
    Ok(words)
}

// A path without a slash in front.
fn without_slash(text: &[u8]) -> &[u8]
    ensures { result.now ≡ unslashed text.now }
{
    match text.split_first() {
        Some((b'/', rest)) => rest,
        _ => text,
    }
}
