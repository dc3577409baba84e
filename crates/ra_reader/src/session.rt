//! A session from its greeting to its end.

ghost use Rattle.std.specs.Prelude.{◌≡◌, ◌++◌, IfOk, IfErr, OnOk};
ghost use Rattle.std.specs.Io.KnownBytes.{Appends, Keeps};
ghost use Rattle.uuid.specs.Text.{hyphenated_text, lower};
ghost use Rattle.node_base.specs.Refusals.{refusal_number, refusal_text};
ghost use Rattle.ra_item.specs.Items.{spell};
ghost use Rattle.ra_item.specs.declared.fault.NextFault.TheVariants as next;
ghost use Rattle.ra_wire.specs.Replies.{done, mechanisms, only_anonymous, welcome};
ghost use Rattle.browse_wire.specs.Urls.{url_read};
ghost use Rattle.ra_serve.specs.Answers.{refused};
ghost use Rattle.ra_serve.specs.Serving.{EndsBy};
ghost use Rattle.ra_serve.specs.Tellings.{Adds};
ghost use Rattle.ra_reader.specs.Serving.{Greets};
ghost use Rattle.ra_reader.specs.Sessions.{greeting, place_in, place_read};
ghost use Rattle.ra_denial.specs.Places.{place_as};
ghost use Rattle.ra_denial.specs.Stops.{PortStays};
ghost use Rattle.ra_denial.specs.Writing.{TellsBytes, TellsItem};
ghost use Rattle.ra_reader.specs.Calls.{TakesItem, SparesReader, BlamesReader, CountsReader};
ghost use Rattle.ra_reader.specs.Calls.{ServesSession, ServesLogin, ServesCommands};
ghost use Rattle.ra_reader.specs.Takings.{placed_as, refusal_for, standing_as};

use crate::phase::Phase;
use crate::take::take;
use browse_wire::url::{SessionUrl, UrlFault};
use byte_streams::Input;
use node_base::texts;
use ra_item::fault::{ItemFault, NextFault};
use ra_item::item::Item;
use ra_item::stream::ItemStream;
use ra_serve::{End, RepoPort, ServeFault, logs_in, write_identity, write_realm};
use ra_wire::fault::WireFault;
use ra_wire::opening::Hello;
use ra_wire::reply_writer::{write_done, write_failure, write_only_anonymous, write_versions};
use std::alloc::Global;
use std::io;
use std::io::Write;
use uuid::Uuid;

/// Serves one session of a reading client: the opening, then the answer to each command that the client sends. It ends
/// where the input ends between items, where the opening ends it, and at a fault of items, and hands the writer back.
///
/// What it wrote is the answers to the items that it took, whatever the pieces in which they came: `ReadFailed` (49)
/// only where the input's count of failures rose, or it was read 2^40 - 1 times, `WriteFailed` (49), or `OutOfMemory`
/// (70) for a growth of its own. The repository stays what it was, however the session ends.
pub fn browse<P: RepoPort, I: Input + Drop, W: Write + Drop>(
    alloc: Global,
    port: &mut P,
    items: &mut ItemStream<I>,
    out: W,
) -> Result<(W, End), ServeFault>
    ensures served { ServesSession P.RepoPort I.Input W.contents port.old port.new items.old items.new out result }
    ensures greets { IfOk result (λ r. Greets W.contents out r.0) }
    ensures reader { BlamesReader I.Input items.old items.new result }
    ensures failures { CountsReader I.Input items.old items.new }
    ensures stays { PortStays P.RepoPort port.old port.new }
{
    let out = greet(out)?;
    let item = match items.next() {
        Ok(Some(item)) => item,
        Ok(None) => return Ok((out, End::Input)),
        Err(fault) => return ended(fault, out),
    };
    match placed(alloc, item)? {
        Ok(place) => log_in(alloc, port, place, items, out),
        Err(why) => {
            let out = refuse_opening(why, out)?;
            Ok((out, End::Opening))
        }
    }
}

/// Why a client's greeting places no session.
#[derive(Clone, Copy, Drop)]
pub enum Misplaced {
    /// The URL's path is past a limit (8).
    TooLong,
    /// Another URL (10).
    BadPath,
    /// Another item (48).
    BadShape,
}

impl Misplaced {
    /// Its number in the table of refusals.
    fn number(self) -> u8
        ensures { result ≡ refusal_number (refusal_for self) }
    {
        match self {
            Misplaced::TooLong => 8,
            Misplaced::BadPath => 10,
            Misplaced::BadShape => 48,
        }
    }

    /// Its text.
    fn text(self) -> &'static [u8]
        ensures { result.now ≡ refusal_text (refusal_for self) }
    {
        match self {
            Misplaced::TooLong => texts::TOO_LONG.as_bytes(),
            Misplaced::BadPath => texts::BAD_PATH.as_bytes(),
            Misplaced::BadShape => texts::BAD_SHAPE.as_bytes(),
        }
    }
}

// Where a client's greeting places the session.
fn placed(alloc: Global, item: Item) -> Result<Result<SessionUrl, Misplaced>, ServeFault>
    ensures told { IfOk result (λ r. placed_as r ≡ place_in item) }
    ensures reader { SparesReader result }
{
    match Hello::parse(alloc, item) {
        Ok(hello) => placed_at(alloc, hello.url.as_slice()),
        Err(WireFault::BadShape) => Ok(Err(Misplaced::BadShape)),
        Err(_) => Err(ServeFault::OutOfMemory),
    }
}

// Where a URL places it.
fn placed_at(alloc: Global, url: &[u8]) -> Result<Result<SessionUrl, Misplaced>, ServeFault>
    ensures told { IfOk result (λ r. placed_as r ≡ place_read (url_read url.now)) }
    ensures reader { SparesReader result }
{
    match SessionUrl::parse(alloc, url) {
        Ok(place) => Ok(Ok(place)),
        Err(UrlFault::OutOfMemory) => Err(ServeFault::OutOfMemory),
        Err(UrlFault::TooLong) => Ok(Err(Misplaced::TooLong)),
        Err(_) => Ok(Err(Misplaced::BadPath)),
    }
}

// The greeting, which the client awaits.
fn greet<W: Write + Drop>(out: W) -> Result<W, ServeFault>
    ensures sent { TellsItem W.Write out greeting result }
    ensures writer { SparesReader result }
{
    let mut out = out;
    write_greeting(&mut out)?;
    flushed(out)
}

fn write_greeting<W: Write>(out: &mut W) -> io::Result<()>
    ensures { OnOk result (Appends (W.contents out.old) (W.contents out.new) (spell greeting)) }
{
    write_versions(out, b"success", b"edit-pipeline", b"depth")
}

// What is kept back goes out.
fn flushed<W: Write + Drop>(out: W) -> Result<W, ServeFault>
    ensures kept { IfOk result (λ w. Keeps (W.contents out) (W.contents w)) }
    ensures writer { SparesReader result }
{
    let mut out = out;
    out.flush()?;
    Ok(out)
}

// A refusal of the stream.
fn ended<W: Write + Drop>(fault: NextFault, out: W) -> Result<(W, End), ServeFault>
    ensures told { IfOk result (λ r. (r.0 ≡ out) × EndsBy fault r.1) }
    ensures reader { IfErr result (λ f. f ≡ ServeFault.ReadFailed → fault ≡ next.PeerFailed) }
{
    match fault {
        NextFault::PeerFailed => Err(ServeFault::ReadFailed),
        NextFault::Items(ItemFault::OutOfMemory) => Err(ServeFault::OutOfMemory),
        NextFault::Items(fault) => Ok((out, End::Items(fault))),
    }
}

// Who the client is, and then its commands.
fn log_in<P: RepoPort, I: Input + Drop, W: Write + Drop>(
    alloc: Global,
    port: &mut P,
    place: SessionUrl,
    items: &mut ItemStream<I>,
    out: W,
) -> Result<(W, End), ServeFault>
    ensures served { ServesLogin P.RepoPort I.Input W.contents port.old port.new items.old items.new out
        (place_as place) result }
    ensures adds { IfOk result (λ r. Adds W.contents out r.0) }
    ensures reader { BlamesReader I.Input items.old items.new result }
    ensures failures { CountsReader I.Input items.old items.new }
    ensures stays { PortStays P.RepoPort port.old port.new }
{
    let identity = port.identity();
    let out = ask_who(&identity, out)?;
    let item = match items.next() {
        Ok(Some(item)) => item,
        Ok(None) => return Ok((out, End::Input)),
        Err(fault) => return ended(fault, out),
    };
    match logs_in(item)? {
        Some(true) => {
            let out = welcome(&identity, place.root.as_slice(), out)?;
            commands(alloc, port, place, items, out)
        }
        Some(false) => {
            let out = only_anonymous(out)?;
            Ok((out, End::Opening))
        }
        None => {
            let out = refuse_opening(Misplaced::BadShape, out)?;
            Ok((out, End::Opening))
        }
    }
}

// Asks the client who it is.
fn ask_who<W: Write + Drop>(identity: &Uuid, out: W) -> Result<W, ServeFault>
    ensures sent { TellsItem W.Write out (mechanisms (hyphenated_text lower identity.now)) result }
    ensures writer { SparesReader result }
{
    let mut out = out;
    write_realm(&mut out, identity)?;
    flushed(out)
}

// The end of an opening.
fn welcome<W: Write + Drop>(identity: &Uuid, root_url: &[u8], out: W) -> Result<W, ServeFault>
    ensures sent { TellsBytes W.Write out
        (spell done ++ spell (welcome (hyphenated_text lower identity.now) root_url.now)) result }
    ensures writer { SparesReader result }
{
    let mut out = out;
    write_done(&mut out)?;
    write_identity(&mut out, identity, root_url)?;
    flushed(out)
}

// The client says in another way who it is.
fn only_anonymous<W: Write + Drop>(out: W) -> Result<W, ServeFault>
    ensures sent { TellsItem W.Write out only_anonymous result }
    ensures writer { SparesReader result }
{
    let mut out = out;
    write_only_anonymous(&mut out)?;
    flushed(out)
}

// The client's item places no session.
fn refuse_opening<W: Write + Drop>(why: Misplaced, out: W) -> Result<W, ServeFault>
    ensures sent { TellsBytes W.Write out (refused (refusal_for why)) result }
    ensures writer { SparesReader result }
{
    let mut out = out;
    write_refused(&mut out, why)?;
    flushed(out)
}

fn write_refused<W: Write>(out: &mut W, why: Misplaced) -> io::Result<()>
    ensures { OnOk result (Appends (W.contents out.old) (W.contents out.new) (refused (refusal_for why))) }
{
    write_failure(out, why.number(), why.text())
}

// The commands of a session up to its end.
fn commands<P: RepoPort, I: Input + Drop, W: Write + Drop>(
    alloc: Global,
    port: &mut P,
    place: SessionUrl,
    items: &mut ItemStream<I>,
    out: W,
) -> Result<(W, End), ServeFault>
    ensures served { ServesCommands P.RepoPort I.Input W.contents port.old port.new items.old items.new out
        (place_as place) result }
    ensures adds { IfOk result (λ r. Adds W.contents out r.0) }
    ensures reader { BlamesReader I.Input items.old items.new result }
    ensures failures { CountsReader I.Input items.old items.new }
    ensures stays { PortStays P.RepoPort port.old port.new }
{
    let mut here = place;
    let mut phase = Phase::Idle;
    let mut sent = out;
    for _ in 0..u64::MAX {
        match items.next() {
            Ok(Some(item)) => {
                let (next, told) = turn(alloc, port, &mut here, phase, item, sent)?;
                phase = next;
                sent = told;
            }
            Ok(None) => return Ok((sent, End::Input)),
            Err(fault) => return ended(fault, sent),
        }
    }
    Err(ServeFault::OutOfMemory)
}

// Takes an item, and lets the answer go out.
fn turn<P: RepoPort, W: Write + Drop>(
    alloc: Global,
    port: &mut P,
    place: &mut SessionUrl,
    phase: Phase,
    item: Item,
    out: W,
) -> Result<(Phase, W), ServeFault>
    ensures told { TakesItem P.RepoPort W.Write port.old port.new out (standing_as place.old phase) item
        place.new result }
    ensures adds { IfOk result (λ r. Adds W.contents out r.1) }
    ensures stays { PortStays P.RepoPort port.old port.new }
    ensures writer { SparesReader result }
{
    match take(alloc, port, place, phase, item, out) {
        Ok((phase, out)) => {
            let out = flushed(out)?;
            Ok((phase, out))
        }
        Err(ServeFault::OutOfMemory) => Err(ServeFault::OutOfMemory),
        Err(_) => Err(ServeFault::WriteFailed),
    }
}
