//! What stands in a list of items, one after another.

ghost use Rattle.std.specs.Prelude.{◌≡◌, [], ◌∷◌, map, IfOk, IfErr, true, false, Some, None};
ghost use Rattle.std.specs.Option.{option_map};
ghost use Rattle.ra_item.specs.Items.{row};
ghost use Rattle.ra_wire.specs.Params.{left_of, NotRead, word_in, text_in, number_in, list_in, bool_in, path_in};
ghost use Rattle.ra_wire.specs.Params.{bracketed, perhaps, unslashed, each};
ghost use Rattle.browse_wire.specs.Faults.{of_wire, Missed};
ghost use Rattle.browse_wire.specs.Depths.{depth_in, depth_named};
ghost use Rattle.browse_wire.specs.Fields.{or_missing, each_in, path_of, number_of, text_of};

use crate::depth::{Depth, DepthWord};
use crate::fault::BrowseFault;
use node_base::{NodePath, PathFault};
use ra_item::item::{Content, Item};
use ra_wire::fault::WireFault;
use ra_wire::params::Params;
use std::alloc::Global;

/// The next item, which is a word.
#[tactic(auto, using(crate::proofs::Misses::missed))]
pub fn next_word(params: &mut Params) -> Result<Vec<u8>, BrowseFault>
    ensures read { IfOk result (λ w. word_in (left_of params.old) ≡ Some (w.items, left_of params.new)) }
    ensures none { IfErr result (Missed (word_in (left_of params.old))) }
{
    Ok(params.word()?)
}

/// The next item, which is a string.
#[tactic(auto, using(crate::proofs::Misses::missed))]
pub fn next_text(params: &mut Params) -> Result<Vec<u8>, BrowseFault>
    ensures read { IfOk result (λ t. text_in (left_of params.old) ≡ Some (t.items, left_of params.new)) }
    ensures none { IfErr result (Missed (text_in (left_of params.old))) }
{
    Ok(params.text()?)
}

/// The next item, which is a number.
#[tactic(auto, using(crate::proofs::Misses::missed))]
pub fn next_number(params: &mut Params) -> Result<u64, BrowseFault>
    ensures read { IfOk result (λ n. number_in (left_of params.old) ≡ Some (n, left_of params.new)) }
    ensures none { IfErr result (Missed (number_in (left_of params.old))) }
{
    Ok(params.number()?)
}

/// The next item, which is true or false.
#[tactic(auto, using(crate::proofs::Misses::missed))]
pub fn next_truth(params: &mut Params) -> Result<bool, BrowseFault>
    ensures read { IfOk result (λ b. bool_in (left_of params.old) ≡ Some (b, left_of params.new)) }
    ensures none { IfErr result (Missed (bool_in (left_of params.old))) }
{
    Ok(params.boolean()?)
}

/// The next item, which is a path, behind one slash or none.
#[tactic(auto, using(crate::proofs::Misses::missed))]
pub fn next_path(alloc: Global, params: &mut Params) -> Result<NodePath, BrowseFault>
    ensures read { IfOk result (λ p. path_in (left_of params.old) ≡ Some (p, left_of params.new)) }
    ensures none { IfErr result (Missed (path_in (left_of params.old))) }
{
    Ok(params.path(alloc)?)
}

/// The next item, which is a list.
#[tactic(auto, using(crate::proofs::Misses::missed))]
pub fn next_list(params: &mut Params) -> Result<Params, BrowseFault>
    ensures read { IfOk result (λ p. list_in (left_of params.old) ≡ Some (left_of p, left_of params.new)) }
    ensures none { IfErr result (Missed (list_in (left_of params.old))) }
{
    Ok(params.list()?)
}

/// Brackets with a number or nothing.
#[tactic(auto, using(crate::proofs::Misses::missed))]
pub fn maybe_number(params: &mut Params) -> Result<Option<u64>, BrowseFault>
    ensures read { IfOk result (λ n. bracketed number_in (left_of params.old) ≡ Some (n, left_of params.new)) }
    ensures none { IfErr result (Missed (bracketed number_in (left_of params.old))) }
{
    Ok(params.maybe_number()?)
}

/// A number, or another where nothing is left.
#[tactic(auto, using(crate::proofs::Misses::is_left))]
pub fn number_or(params: &mut Params, missing: u64) -> Result<u64, BrowseFault>
    ensures read { IfOk result (λ n. or_missing number_in missing (left_of params.old)
        ≡ Some (n, left_of params.new)) }
    ensures none { IfErr result (Missed (or_missing number_in missing (left_of params.old))) }
{
    if params.is_empty() {
        return Ok(missing);
    }
    next_number(params)
}

/// True or false, or one of them where nothing is left.
#[tactic(auto, using(crate::proofs::Misses::is_left))]
pub fn truth_or(params: &mut Params, missing: bool) -> Result<bool, BrowseFault>
    ensures read { IfOk result (λ b. or_missing bool_in missing (left_of params.old) ≡ Some (b, left_of params.new)) }
    ensures none { IfErr result (Missed (or_missing bool_in missing (left_of params.old))) }
{
    if params.is_empty() {
        return Ok(missing);
    }
    next_truth(params)
}

/// The next item, which is a word for a depth.
pub fn next_depth(params: &mut Params) -> Result<DepthWord, BrowseFault>
    ensures read { IfOk result (λ d. depth_in (left_of params.old) ≡ Some (d, left_of params.new)) }
    ensures none { IfErr result (Missed (depth_in (left_of params.old))) }
{
    let word = next_word(params)?;
    match depth_named(word.as_slice()) {
        Some(depth) => Ok(depth),
        None => Err(BrowseFault::BadShape),
    }
}

// The depth of a word.
fn depth_named(word: &[u8]) -> Option<DepthWord>
    ensures { result ≡ depth_named word.now }
{
    if word == b"empty".as_slice() {
        Some(DepthWord::Known(Depth::Empty))
    } else if word == b"files".as_slice() {
        Some(DepthWord::Known(Depth::Files))
    } else if word == b"immediates".as_slice() {
        Some(DepthWord::Known(Depth::Immediates))
    } else if word == b"infinity".as_slice() {
        Some(DepthWord::Known(Depth::Infinity))
    } else if word == b"unknown".as_slice() {
        Some(DepthWord::AsReported)
    } else if word == b"exclude".as_slice() {
        Some(DepthWord::Excluded)
    } else {
        None
    }
}

/// A word for a depth, or another where nothing is left.
#[tactic(auto, using(crate::proofs::Misses::is_left))]
pub fn depth_or(params: &mut Params, missing: DepthWord) -> Result<DepthWord, BrowseFault>
    ensures read { IfOk result (λ d. or_missing depth_in missing (left_of params.old) ≡ Some (d, left_of params.new)) }
    ensures none { IfErr result (Missed (or_missing depth_in missing (left_of params.old))) }
{
    if params.is_empty() {
        return Ok(missing);
    }
    next_depth(params)
}

// A word for a depth at the end, or nothing.
#[tactic(auto, using(crate::proofs::Misses::perhaps_there, crate::proofs::Misses::perhaps_other))]
fn last_depth(params: &mut Params) -> Result<Option<DepthWord>, BrowseFault>
    ensures read { IfOk result (λ d. perhaps depth_in (left_of params.old) ≡ Some d) }
    ensures none { IfErr result (Missed (perhaps depth_in (left_of params.old))) }
{
    if params.is_empty() {
        return Ok(None);
    }
    Ok(Some(next_depth(params)?))
}

// Brackets with a word for a depth or nothing.
fn maybe_depth(params: &mut Params) -> Result<Option<DepthWord>, BrowseFault>
    ensures read { IfOk result (λ d. bracketed depth_in (left_of params.old) ≡ Some (d, left_of params.new)) }
    ensures none { IfErr result (Missed (bracketed depth_in (left_of params.old))) }
{
    let mut inner = next_list(params)?;
    last_depth(&mut inner)
}

/// The same, or nothing is left.
#[tactic(auto, using(crate::proofs::Misses::is_left))]
pub fn maybe_depth_or_none(params: &mut Params) -> Result<Option<DepthWord>, BrowseFault>
    ensures read { IfOk result (λ d. or_missing (bracketed depth_in) None (left_of params.old)
        ≡ Some (d, left_of params.new)) }
    ensures none { IfErr result (Missed (or_missing (bracketed depth_in) None (left_of params.old))) }
{
    if params.is_empty() {
        return Ok(None);
    }
    maybe_depth(params)
}

// Brackets with a string or nothing.
#[tactic(auto, using(crate::proofs::Misses::missed))]
fn maybe_text(params: &mut Params) -> Result<Option<Vec<u8>>, BrowseFault>
    ensures read { IfOk result (λ t. bracketed text_in (left_of params.old)
        ≡ Some (option_map (λ s. s.items) t, left_of params.new)) }
    ensures none { IfErr result (Missed (bracketed text_in (left_of params.old))) }
{
    Ok(params.maybe_text()?)
}

/// The same, or nothing is left.
#[tactic(auto, using(crate::proofs::Misses::is_left))]
pub fn maybe_text_or_none(params: &mut Params) -> Result<Option<Vec<u8>>, BrowseFault>
    ensures read { IfOk result (λ t. or_missing (bracketed text_in) None (left_of params.old)
        ≡ Some (option_map (λ s. s.items) t, left_of params.new)) }
    ensures none { IfErr result (Missed (or_missing (bracketed text_in) None (left_of params.old))) }
{
    if params.is_empty() {
        return Ok(None);
    }
    maybe_text(params)
}

/// Brackets with a number or nothing, or nothing is left.
#[tactic(auto, using(crate::proofs::Misses::is_left))]
pub fn maybe_number_or_none(params: &mut Params) -> Result<Option<u64>, BrowseFault>
    ensures read { IfOk result (λ n. or_missing (bracketed number_in) None (left_of params.old)
        ≡ Some (n, left_of params.new)) }
    ensures none { IfErr result (Missed (or_missing (bracketed number_in) None (left_of params.old))) }
{
    if params.is_empty() {
        return Ok(None);
    }
    maybe_number(params)
}

/// A list of paths.
#[tactic(auto, using(crate::proofs::Misses::missed))]
pub fn next_paths(alloc: Global, params: &mut Params) -> Result<Vec<NodePath>, BrowseFault>
    ensures read { IfOk result (λ ps. each_in path_of (left_of params.old) ≡ Some (ps.items, left_of params.new)) }
    ensures none { IfErr result (Missed (each_in path_of (left_of params.old))) }
{
    let items = params.items()?;
    Ok(all_paths(alloc, items)?)
}

/// A list of numbers.
#[tactic(auto, using(crate::proofs::Misses::missed))]
pub fn next_numbers(alloc: Global, params: &mut Params) -> Result<Vec<u64>, BrowseFault>
    ensures read { IfOk result (λ ns. each_in number_of (left_of params.old) ≡ Some (ns.items, left_of params.new)) }
    ensures none { IfErr result (Missed (each_in number_of (left_of params.old))) }
{
    let items = params.items()?;
    Ok(all_numbers(alloc, items)?)
}

/// A list of strings.
#[tactic(auto, using(crate::proofs::Misses::missed))]
pub fn next_texts(alloc: Global, params: &mut Params) -> Result<Vec<Vec<u8>>, BrowseFault>
    ensures read { IfOk result (λ ts. each_in text_of (left_of params.old)
        ≡ Some (map (λ t. t.items) ts.items, left_of params.new)) }
    ensures none { IfErr result (Missed (each_in text_of (left_of params.old))) }
{
    let items = params.items()?;
    Ok(all_texts(alloc, items)?)
}

// An item that is a path.
fn path_of(alloc: Global, item: Item) -> Result<NodePath, WireFault>
    ensures read { IfOk result (λ p. path_of item ≡ Some p) }
    ensures none { IfErr result (NotRead (path_of item)) }
{
    let Content::Text(text) = item.into_content() else {
        return Err(WireFault::BadShape);
    };
    match NodePath::parse(alloc, without_slash(text.as_slice())) {
        Ok(path) => Ok(path),
        Err(PathFault::OutOfMemory) => Err(WireFault::OutOfMemory),
        Err(PathFault::TooLong | PathFault::BadPath) => Err(WireFault::BadShape),
    }
}

// A path without a slash in front.
fn without_slash(text: &[u8]) -> &[u8]
    ensures { result.now ≡ unslashed text.now }
{
    match text.split_first() {
        Some((b'/', rest)) => rest,
        _ => text,
    }
}

// Items that are all paths.
fn all_paths(alloc: Global, items: Vec<Item>) -> Result<Vec<NodePath>, WireFault>
    ensures read { IfOk result (λ ps. each path_of (row items.items) ≡ Some ps.items) }
    ensures none { IfErr result (NotRead (each path_of (row items.items))) }
{
    let mut paths = Vec::new(alloc);
    for item in items {
        paths.push(path_of(alloc, item)?)?;
    }
    Ok(paths)
}

// An item that is a number.
fn number_of(item: Item) -> Result<u64, WireFault>
    ensures read { IfOk result (λ n. number_of item ≡ Some n) }
    ensures none { IfErr result (NotRead (number_of item)) }
{
    match item.into_content() {
        Content::Number(n) => Ok(n),
        Content::List(_) | Content::Text(_) | Content::Word(_) => Err(WireFault::BadShape),
    }
}

// Items that are all numbers.
fn all_numbers(alloc: Global, items: Vec<Item>) -> Result<Vec<u64>, WireFault>
    ensures read { IfOk result (λ ns. each number_of (row items.items) ≡ Some ns.items) }
    ensures none { IfErr result (NotRead (each number_of (row items.items))) }
{
    let mut numbers = Vec::new(alloc);
    for item in items {
        numbers.push(number_of(item)?)?;
    }
    Ok(numbers)
}

// An item that is a string.
fn text_of(item: Item) -> Result<Vec<u8>, WireFault>
    ensures read { IfOk result (λ t. text_of item ≡ Some t.items) }
    ensures none { IfErr result (NotRead (text_of item)) }
{
    match item.into_content() {
        Content::Text(text) => Ok(text),
        Content::List(_) | Content::Number(_) | Content::Word(_) => Err(WireFault::BadShape),
    }
}

// Items that are all strings.
fn all_texts(alloc: Global, items: Vec<Item>) -> Result<Vec<Vec<u8>>, WireFault>
    ensures read { IfOk result (λ ts. each text_of (row items.items) ≡ Some (map (λ t. t.items) ts.items)) }
    ensures none { IfErr result (NotRead (each text_of (row items.items))) }
{
    let mut texts = Vec::new(alloc);
    for item in items {
        texts.push(text_of(item)?)?;
    }
    Ok(texts)
}
