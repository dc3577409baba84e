//! A session from its greeting to its end.

ghost use Rattle.std.specs.Prelude.{◌≡◌, ◌++◌, true, false, is_some, Err, IfOk, IfErr, OnOk};
ghost use Rattle.std.specs.Option.{option_map};
ghost use Rattle.ra_wire.specs.Openings.{hello_in, login_in, login_as};
ghost use Rattle.ra_serve.specs.Sessions.{is_anonymous};
ghost use Rattle.std.specs.Io.KnownBytes.{Keeps};
ghost use Rattle.ra_item.specs.ItemStreams.{is_spent};
ghost use Rattle.ra_item.specs.Items.{spell};
ghost use Rattle.ra_item.specs.declared.fault.ItemFault.TheVariants as item;
ghost use Rattle.ra_wire.specs.Reading.{command_in};
ghost use Rattle.ra_wire.specs.Replies.{done, greeting, mechanisms, only_anonymous, welcome};
ghost use Rattle.uuid.specs.Text.{hyphenated_text, lower};
ghost use Rattle.node_base.specs.declared.refusal.Refusal.TheVariants as refusal;
ghost use Rattle.ra_serve.specs.Answers.{refused};
ghost use Rattle.ra_serve.specs.Outputs.{items_of};
ghost use Rattle.ra_serve.specs.Serving.{Greets, OnlyGreets, HoldsSession, HoldsLogin, HoldsCommands};
ghost use Rattle.ra_serve.specs.Tellings.{GoesOn, Sends, RepliesTo, Adds, GivesMore};
ghost use Rattle.ra_item.specs.declared.fault.NextFault.TheVariants as next;
ghost use Rattle.ra_serve.specs.Serving.{EndsBy};
ghost use Rattle.ra_item.specs.Writing.{WritesItem};
ghost use Rattle.ra_serve.specs.Clients.{TellsReader, NotTheReader, CountsOn, TakesNext};

use crate::answer::answer;
use crate::client::{ClientItems, HandsOn};
use crate::fault::{End, ServeFault};
use crate::port::RepoPort;
use byte_streams::Input;
use ra_item::fault::{ItemFault, NextFault};
use ra_item::item::Item;
use ra_wire::fault::WireFault;
use ra_wire::opening::{Hello, Login};
use ra_wire::reply_writer::{
    write_done, write_failure, write_greeting, write_mechanisms, write_only_anonymous,
    write_welcome,
};
use std::alloc::Global;
use std::io;
use std::io::Write;
use uuid::Uuid;

/// The session that `serve` serves, to a writer that can hand on what it holds back.
pub(crate) fn converse<P: RepoPort, I: Input + Drop, W: HandsOn + Drop>(
    alloc: Global,
    port: &mut P,
    root_url: &[u8],
    items: &mut ClientItems<I, W::Out>,
    out: W,
) -> Result<(W, End), ServeFault>
    ensures served { HoldsSession P.RepoPort W.contents port.old port.new items.old items.new out root_url.now result }
    ensures greets { IfOk result (λ r. Greets W.contents out r.0) }
    ensures spent { is_spent (items_of items.old) ≡ true
        → IfOk result (λ r. OnlyGreets P.repository W.contents port.old port.new out r.0 r.1) }
    ensures handed { IfOk result (λ r. W.is_handed_on r.0) }
    ensures reader { TellsReader items.old items.new result }
    ensures failures { CountsOn items.old items.new }
{
    let out = greet(out)?;
    let item = match awaited(items, &out) {
        Ok(Some(item)) => item,
        Ok(None) => return Ok((out, End::Input)),
        Err(fault) => return ended(fault, out),
    };
    if says_hello(alloc, item)? {
        return log_in(alloc, port, root_url, items, out);
    }
    let refused = bad_opening(out)?;
    Ok((refused, End::Opening))
}

// The client's next item.
fn awaited<I: Input + Drop, W: HandsOn>(
    items: &mut ClientItems<I, W::Out>,
    out: &W,
) -> Result<Option<Item>, NextFault>
    requires handed { W.is_handed_on out.now }
    ensures answer { TakesNext items.old items.new result }
    ensures spent { is_spent (items_of items.old) ≡ true → result ≡ Err (next.Items item.Failed) }
    ensures goes_on { OnOk result (is_spent (items_of items.new) ≡ false) }
    ensures failures { CountsOn items.old items.new }
{
    items.next(out.output())
}

// Whether an item is the greeting of a client of version 2.
fn says_hello(alloc: Global, item: Item) -> Result<bool, ServeFault>
    ensures told { IfOk result (λ b. b ≡ is_some (hello_in item)) }
    ensures reader { NotTheReader result }
{
    match Hello::parse(alloc, item) {
        Ok(_) => Ok(true),
        Err(WireFault::BadShape) => Ok(false),
        Err(_) => Err(ServeFault::OutOfMemory),
    }
}

// The greeting, which the client awaits.
fn greet<W: HandsOn + Drop>(out: W) -> Result<W, ServeFault>
    ensures sent { Sends W.contents out (spell greeting) result }
    ensures handed { IfOk result W.is_handed_on }
    ensures writer { NotTheReader result }
{
    let mut out = out;
    write_greeting(&mut out)?;
    flushed(out)
}

// What is kept back goes out.
fn flushed<W: HandsOn + Drop>(out: W) -> Result<W, ServeFault>
    ensures kept { IfOk result (λ w. Keeps (W.contents out) (W.contents w)) }
    ensures handed { IfOk result W.is_handed_on }
    ensures writer { NotTheReader result }
{
    let mut out = out;
    out.hand_on()?;
    Ok(out)
}

// A refusal of the stream.
fn ended<W: HandsOn + Drop>(fault: NextFault, out: W) -> Result<(W, End), ServeFault>
    requires handed { W.is_handed_on out }
    ensures told { IfOk result (λ r. (r.0 ≡ out) × EndsBy fault r.1) }
    ensures handed { IfOk result (λ r. W.is_handed_on r.0) }
    ensures reader { IfErr result (λ f. f ≡ ServeFault.ReadFailed → fault ≡ next.PeerFailed) }
{
    match fault {
        NextFault::PeerFailed => Err(ServeFault::ReadFailed),
        NextFault::Items(ItemFault::OutOfMemory) => Err(ServeFault::OutOfMemory),
        NextFault::Items(fault) => Ok((out, End::Items(fault))),
    }
}

// Who the client is, and then its commands.
fn log_in<P: RepoPort, I: Input + Drop, W: HandsOn + Drop>(
    alloc: Global,
    port: &mut P,
    root_url: &[u8],
    items: &mut ClientItems<I, W::Out>,
    out: W,
) -> Result<(W, End), ServeFault>
    ensures served { HoldsLogin P.RepoPort W.contents port.old port.new items.old items.new out root_url.now result }
    ensures adds { IfOk result (λ r. Adds W.contents out r.0) }
    ensures handed { IfOk result (λ r. W.is_handed_on r.0) }
    ensures reader { TellsReader items.old items.new result }
    ensures failures { CountsOn items.old items.new }
{
    let identity = port.identity();
    let out = ask_who(&identity, out)?;
    let item = match awaited(items, &out) {
        Ok(Some(item)) => item,
        Ok(None) => return Ok((out, End::Input)),
        Err(fault) => return ended(fault, out),
    };
    match logs_in(item)? {
        Some(true) => {
            let out = welcome(&identity, root_url, out)?;
            commands(alloc, port, items, out)
        }
        Some(false) => {
            let out = only_anonymous(out)?;
            Ok((out, End::Opening))
        }
        None => {
            let out = bad_opening(out)?;
            Ok((out, End::Opening))
        }
    }
}

/// Whether a client says in the one way that is taken who it is; none for an item of another shape. OutOfMemory (70).
pub fn logs_in(item: Item) -> Result<Option<bool>, ServeFault>
    ensures told { IfOk result (λ o. o ≡ option_map is_anonymous (login_in item)) }
    ensures reader { NotTheReader result }
{
    match Login::parse(item) {
        Ok(login) => Ok(Some(is_anonymous(&login))),
        Err(WireFault::BadShape) => Ok(None),
        Err(_) => Err(ServeFault::OutOfMemory),
    }
}

fn is_anonymous(login: &Login) -> bool
    ensures { result ≡ is_anonymous (login_as login.now) }
{
    login.mechanism.as_slice() == b"ANONYMOUS".as_slice()
}

// Asks the client who it is.
fn ask_who<W: HandsOn + Drop>(identity: &Uuid, out: W) -> Result<W, ServeFault>
    ensures sent { Sends W.contents out (spell (mechanisms (hyphenated_text lower identity.now))) result }
    ensures handed { IfOk result W.is_handed_on }
    ensures writer { NotTheReader result }
{
    let mut out = out;
    write_realm(&mut out, identity)?;
    flushed(out)
}

/// Writes the ways in which a client may say who it is, in the realm of a repository. An `Err` is the writer's.
pub fn write_realm<W: Write>(out: &mut W, identity: &Uuid) -> io::Result<()>
    ensures { WritesItem W.Write out.old out.new (mechanisms (hyphenated_text lower identity.now)) result }
{
    let mut buffer = Uuid::encode_buffer();
    let realm = identity.hyphenated().encode_lower(&mut buffer);
    write_mechanisms(out, realm.as_bytes())
}

// The end of an opening.
fn welcome<W: HandsOn + Drop>(identity: &Uuid, root_url: &[u8], out: W) -> Result<W, ServeFault>
    ensures sent { Sends W.contents out
        (spell done ++ spell (welcome (hyphenated_text lower identity.now) root_url.now)) result }
    ensures handed { IfOk result W.is_handed_on }
    ensures writer { NotTheReader result }
{
    let mut out = out;
    write_done(&mut out)?;
    write_identity(&mut out, identity, root_url)?;
    flushed(out)
}

/// Writes the identity of a repository and its root, the end of an opening. An `Err` is the writer's.
pub fn write_identity<W: Write>(out: &mut W, identity: &Uuid, root_url: &[u8]) -> io::Result<()>
    ensures { WritesItem W.Write out.old out.new (welcome (hyphenated_text lower identity.now) root_url.now) result }
{
    let mut buffer = Uuid::encode_buffer();
    let text = identity.hyphenated().encode_lower(&mut buffer);
    write_welcome(out, text.as_bytes(), root_url)
}

// The client says in another way who it is.
fn only_anonymous<W: HandsOn + Drop>(out: W) -> Result<W, ServeFault>
    ensures sent { Sends W.contents out (spell only_anonymous) result }
    ensures handed { IfOk result W.is_handed_on }
    ensures writer { NotTheReader result }
{
    let mut out = out;
    write_only_anonymous(&mut out)?;
    flushed(out)
}

// The client's item is another one.
fn bad_opening<W: HandsOn + Drop>(out: W) -> Result<W, ServeFault>
    ensures sent { Sends W.contents out (refused refusal.BadShape) result }
    ensures handed { IfOk result W.is_handed_on }
    ensures writer { NotTheReader result }
{
    let mut out = out;
    write_failure(&mut out, 48, b"bad command shape")?;
    flushed(out)
}

// The commands of a session up to its end.
fn commands<P: RepoPort, I: Input + Drop, W: HandsOn + Drop>(
    alloc: Global,
    port: &mut P,
    items: &mut ClientItems<I, W::Out>,
    out: W,
) -> Result<(W, End), ServeFault>
    requires handed { W.is_handed_on out }
    ensures served { HoldsCommands P.RepoPort W.contents port.old port.new items.old items.new out result }
    ensures adds { IfOk result (λ r. Adds W.contents out r.0) }
    ensures handed { IfOk result (λ r. W.is_handed_on r.0) }
    ensures reader { TellsReader items.old items.new result }
    ensures failures { CountsOn items.old items.new }
{
    let mut sent = out;
    for _ in 0..u64::MAX {
        match awaited(items, &sent) {
            Ok(Some(item)) => sent = turn(alloc, port, item, sent)?,
            Ok(None) => return Ok((sent, End::Input)),
            Err(fault) => return ended(fault, sent),
        }
    }
    Err(ServeFault::OutOfMemory)
}

// Answers an item, and lets the answer go out.
fn turn<P: RepoPort, W: HandsOn + Drop>(
    alloc: Global,
    port: &mut P,
    item: Item,
    out: W,
) -> Result<W, ServeFault>
    ensures told { RepliesTo P.RepoPort W.contents port.old port.new out (command_in item) result }
    ensures adds { GivesMore W.contents out result }
    ensures handed { IfOk result W.is_handed_on }
    ensures goes { GoesOn P.refusals P.is_mirror port.old port.new }
    ensures writer { NotTheReader result }
{
    match answer(alloc, port, item, out) {
        Ok(out) => flushed(out),
        Err(ServeFault::OutOfMemory) => Err(ServeFault::OutOfMemory),
        Err(_) => Err(ServeFault::WriteFailed),
    }
}
