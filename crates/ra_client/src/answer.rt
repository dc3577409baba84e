//! What single items say to a client.

ghost use Rattle.std.specs.Prelude.{◌≡◌, map, IfOk, IfErr, false, Some};
ghost use Rattle.std.specs.List.{list_any};
ghost use Rattle.std.specs.Option.{option_map};
ghost use Rattle.uuid.specs.Text.{parsed_hyphenated};
ghost use Rattle.ra_wire.specs.Openings.{greeting_as, mechanisms_as, welcome_as};
ghost use Rattle.ra_wire.specs.Params.{left_of, NotRead};
ghost use Rattle.ra_client.specs.Said.{Told, ToldIn, same, reply_by, reply_said, done_said, authorised_said, none_of};
ghost use Rattle.ra_client.specs.Said.{unasked_in, number_said, revision_in, revision_of, proplist_said, proplist_in};
ghost use Rattle.ra_client.specs.Said.{revprops_by, revprops_said, greeting_said, version_2_in, version_2, asks_said};
ghost use Rattle.ra_client.specs.Said.{failed_in, proplist_past, revprops_past, revprops_past_by, worded, ToldWithin};
ghost use Rattle.ra_wire.specs.Limits.{props_past, NotWithin};
ghost use Rattle.ra_client.specs.Said.{asks_in, asks_of, is_anonymous, welcome_said, repository_in, repository_of};
ghost use Rattle.ra_client.specs.Found.{repository_as};

use crate::fault::ClientFault;
use node_base::{Props, RevNo};
use ra_item::item::Item;
use ra_wire::answer::latest;
use ra_wire::fault::WireFault;
use ra_wire::opening::{Greeting, Mechanisms, Welcome};
use ra_wire::params::Params;
use ra_wire::props::props_within;
use ra_wire::props_fault::PropsFault;
use std::alloc::Global;
use uuid::Uuid;

// How many bytes the text of an identity has.
const IDENTITY_BYTES: usize = 36;

/// Which repository a server has: its identity, and the URL that it says it is reached by.
#[derive(Drop)]
pub struct Repository {
    pub identity: Uuid,
    pub root_url: Vec<u8>,
}

/// What an answer holds. `Refused` where it is a failure, whatever that says; `BadAnswer` for another form.
pub fn content_of(item: Item) -> Result<Params, ClientFault>
    ensures told { Told left_of (reply_said item) result }
{
    match success_of(item) {
        Ok(Some(content)) => Ok(content),
        Ok(None) => Err(ClientFault::Refused),
        Err(fault) => Err(ClientFault::from(fault)),
    }
}

// What an answer holds, or none where it is a failure.
fn success_of(item: Item) -> Result<Option<Params>, WireFault>
    ensures read { IfOk result (λ o. reply_said item ≡ Some (option_map left_of o)) }
    ensures none { IfErr result (NotRead (reply_said item)) }
{
    let mut parts = Params::of(item)?;
    let word = parts.word()?;
    let content = parts.list()?;
    success_by(word.as_slice(), content)
}

// The same by the word in front.
fn success_by(word: &[u8], content: Params) -> Result<Option<Params>, WireFault>
    ensures read { IfOk result (λ o. reply_by word.now (left_of content) ≡ Some (option_map left_of o)) }
    ensures none { IfErr result (NotRead (reply_by word.now (left_of content))) }
{
    if word == b"success".as_slice() {
        Ok(Some(content))
    } else if word == b"failure".as_slice() {
        Ok(None)
    } else {
        Err(WireFault::BadShape)
    }
}

/// An answer that says that something was done. As [`content_of`].
pub fn done_by(item: Item) -> Result<(), ClientFault>
    ensures told { Told same (done_said item) result }
{
    match content_of(item) {
        Ok(_) => Ok(()),
        Err(fault) => Err(fault),
    }
}

/// What stands in front of the answer to a command: nothing is asked of the client. `BadAnswer` where something is,
/// and as [`content_of`].
pub fn authorised_by(alloc: Global, item: Item) -> Result<(), ClientFault>
    ensures told { Told same (authorised_said item) result }
{
    match content_of(item) {
        Ok(content) => unasked_in(alloc, content),
        Err(fault) => Err(fault),
    }
}

fn unasked_in(alloc: Global, content: Params) -> Result<(), ClientFault>
    ensures told { ToldIn same (unasked_in (left_of content)) result }
{
    match Mechanisms::parse(alloc, content) {
        Ok(found) => unasked(&found),
        Err(fault) => Err(ClientFault::from(fault)),
    }
}

// Whether a server asks nothing.
fn unasked(found: &Mechanisms) -> Result<(), ClientFault>
    ensures told { ToldIn same (none_of (mechanisms_as found.now).names) result }
{
    if found.names.is_empty() {
        Ok(())
    } else {
        Err(ClientFault::BadAnswer)
    }
}

/// The newest revision. `BadAnswer` for a number above 65,535, and as [`content_of`].
pub fn number_by(item: Item) -> Result<RevNo, ClientFault>
    ensures told { Told same (number_said item) result }
{
    match content_of(item) {
        Ok(content) => revision_in(content),
        Err(fault) => Err(fault),
    }
}

fn revision_in(content: Params) -> Result<RevNo, ClientFault>
    ensures told { ToldIn same (revision_in (left_of content)) result }
{
    match latest(content) {
        Ok(number) => revision_of(number),
        Err(fault) => Err(ClientFault::from(fault)),
    }
}

// A number as a revision's.
fn revision_of(number: u64) -> Result<RevNo, ClientFault>
    ensures told { ToldIn same (revision_of number) result }
{
    match u16::try_from(number) {
        Ok(number) => Ok(RevNo::new(number)),
        Err(_) => Err(ClientFault::BadAnswer),
    }
}

/// The properties of a revision. `Edit` with 8 for a value or a number of properties past the limits, and as
/// [`content_of`].
pub fn proplist_by(alloc: Global, item: Item) -> Result<Props, ClientFault>
    ensures told { ToldWithin (proplist_past item) same (proplist_said item) result }
{
    match content_of(item) {
        Ok(content) => proplist_in(alloc, content),
        Err(fault) => Err(fault),
    }
}

fn proplist_in(alloc: Global, content: Params) -> Result<Props, ClientFault>
    ensures told { ToldWithin (props_past (left_of content)) same (option_map Some (proplist_in (left_of content))) result }
{
    let mut content = content;
    match props_within(alloc, &mut content) {
        Ok(props) => Ok(props),
        Err(fault) => Err(ClientFault::from(fault)),
    }
}

/// The properties that stand in front of a revision's edit. `Refused` where a failure stands there, whatever it says;
/// `Edit` with 8 for a value or a number of properties past the limits; `BadAnswer` for another form.
pub fn revprops_by(alloc: Global, item: Item) -> Result<Props, ClientFault>
    ensures told { ToldWithin (revprops_past item) same (revprops_said item) result }
{
    match revprops_of(alloc, item) {
        Ok(Some(props)) => Ok(props),
        Ok(None) => Err(ClientFault::Refused),
        Err(fault) => Err(ClientFault::from(fault)),
    }
}

// The same, or none where it is a failure.
fn revprops_of(alloc: Global, item: Item) -> Result<Option<Props>, PropsFault>
    ensures read { IfOk result (λ o. revprops_said item ≡ Some o) }
    ensures none { IfErr result (NotWithin (revprops_said item) (revprops_past item)) }
{
    match worded(item) {
        Ok((word, parts)) => revprops_with(alloc, word.as_slice(), parts),
        Err(fault) => Err(PropsFault::from(fault)),
    }
}

// The word in front of an item's parts, and what stands behind it.
fn worded(item: Item) -> Result<(Vec<u8>, Params), WireFault>
    ensures read { IfOk result (λ w. worded item ≡ Some (w.0.items, left_of w.1)) }
    ensures none { IfErr result (NotRead (worded item)) }
{
    let mut parts = Params::of(item)?;
    let word = parts.word()?;
    Ok((word, parts))
}

// The same by the word in front.
fn revprops_with(alloc: Global, word: &[u8], parts: Params) -> Result<Option<Props>, PropsFault>
    ensures read { IfOk result (λ o. revprops_by word.now (left_of parts) ≡ Some o) }
    ensures none { IfErr result (NotWithin (revprops_by word.now (left_of parts))
        (revprops_past_by word.now (left_of parts))) }
{
    if word == b"revprops".as_slice() {
        props_or_none(alloc, parts)
    } else if word == b"failure".as_slice() {
        failed(parts)
    } else {
        Err(PropsFault::BadShape)
    }
}

// The list of properties.
fn props_or_none(alloc: Global, parts: Params) -> Result<Option<Props>, PropsFault>
    ensures read { IfOk result (λ o. option_map Some (proplist_in (left_of parts)) ≡ Some o) }
    ensures none { IfErr result (NotWithin (option_map Some (proplist_in (left_of parts)))
        (props_past (left_of parts))) }
{
    let mut parts = parts;
    match props_within(alloc, &mut parts) {
        Ok(props) => Ok(Some(props)),
        Err(fault) => Err(fault),
    }
}

// The list of a failure, whatever it holds.
fn failed(parts: Params) -> Result<Option<Props>, PropsFault>
    ensures read { IfOk result (λ o. failed_in (left_of parts) ≡ Some o) }
    ensures none { IfErr result (NotWithin (failed_in (left_of parts)) false) }
{
    let mut parts = parts;
    match parts.items() {
        Ok(_) => Ok(None),
        Err(fault) => Err(PropsFault::from(fault)),
    }
}

// ---- the opening

/// A greeting of a server that speaks version 2. `BadAnswer` where it doesn't, and as [`content_of`].
pub fn greeted_by(alloc: Global, item: Item) -> Result<(), ClientFault>
    ensures told { Told same (greeting_said item) result }
{
    match content_of(item) {
        Ok(content) => version_2_in(alloc, content),
        Err(fault) => Err(fault),
    }
}

fn version_2_in(alloc: Global, content: Params) -> Result<(), ClientFault>
    ensures told { ToldIn same (version_2_in (left_of content)) result }
{
    match Greeting::parse(alloc, content) {
        Ok(greeting) => version_2(&greeting),
        Err(fault) => Err(ClientFault::from(fault)),
    }
}

// Whether a server speaks version 2.
fn version_2(greeting: &Greeting) -> Result<(), ClientFault>
    ensures told { ToldIn same (version_2 (greeting_as greeting.now)) result }
{
    if greeting.low <= 2 && 2 <= greeting.high {
        Ok(())
    } else {
        Err(ClientFault::BadAnswer)
    }
}

/// Whether a server asks the client who it is. `BadAnswer` where it takes no anonymous one, and as [`content_of`].
pub fn asked_by(alloc: Global, item: Item) -> Result<bool, ClientFault>
    ensures told { Told same (asks_said item) result }
{
    match content_of(item) {
        Ok(content) => asks_in(alloc, content),
        Err(fault) => Err(fault),
    }
}

fn asks_in(alloc: Global, content: Params) -> Result<bool, ClientFault>
    ensures told { ToldIn same (asks_in (left_of content)) result }
{
    match Mechanisms::parse(alloc, content) {
        Ok(found) => asks_of(&found),
        Err(fault) => Err(ClientFault::from(fault)),
    }
}

// Whether one of these mechanisms is to be used.
fn asks_of(found: &Mechanisms) -> Result<bool, ClientFault>
    ensures told { ToldIn same (asks_of (mechanisms_as found.now).names) result }
{
    if found.names.is_empty() {
        Ok(false)
    } else if has_anonymous(found.names.as_slice()) {
        Ok(true)
    } else {
        Err(ClientFault::BadAnswer)
    }
}

fn has_anonymous(names: &[Vec<u8>]) -> bool
    ensures { result ≡ list_any is_anonymous (map (λ w. w.items) names.now) }
{
    for name in names {
        if name.as_slice() == b"ANONYMOUS".as_slice() {
            return true;
        }
    }
    false
}

/// Which repository a server has. `BadAnswer` for an identity that is none, and as [`content_of`].
pub fn welcomed_by(alloc: Global, item: Item) -> Result<Repository, ClientFault>
    ensures told { Told repository_as (welcome_said item) result }
{
    match content_of(item) {
        Ok(content) => repository_in(alloc, content),
        Err(fault) => Err(fault),
    }
}

fn repository_in(alloc: Global, content: Params) -> Result<Repository, ClientFault>
    ensures told { ToldIn repository_as (repository_in (left_of content)) result }
{
    match Welcome::parse(alloc, content) {
        Ok(welcome) => repository_of(welcome),
        Err(fault) => Err(ClientFault::from(fault)),
    }
}

// The repository of a welcome.
fn repository_of(welcome: Welcome) -> Result<Repository, ClientFault>
    ensures told { ToldIn repository_as (repository_of (welcome_as welcome)) result }
{
    match identity_from(welcome.identity.as_slice()) {
        Some(identity) => Ok(Repository {
            identity,
            root_url: welcome.url,
        }),
        None => Err(ClientFault::BadAnswer),
    }
}

// The identity that a text spells: 32 hexadecimal digits in groups of 8, 4, 4, 4 and 12.
fn identity_from(text: &[u8]) -> Option<Uuid>
    ensures { result ≡ parsed_hyphenated text.now }
{
    if text.len() != IDENTITY_BYTES {
        return None;
    }
    match Uuid::try_parse_ascii(text) {
        Ok(identity) => Some(identity),
        Err(_) => None,
    }
}
