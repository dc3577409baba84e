//! The beginning of a session.

ghost use Rattle.ra_item.specs.Items.{spell};
ghost use Rattle.ra_wire.specs.Requests.{hello, anonymous};
ghost use Rattle.ra_client.specs.Exchanges.{Opens, IsGreeted, IsWelcomed, IsKnown, LogsIn};
ghost use Rattle.ra_client.specs.Found.{repository_as};
ghost use Rattle.ra_client.specs.Steps.{Sends};

use crate::answer::Repository;
use crate::ask::hand_on;
use crate::fault::ClientFault;
use crate::take::{take_asked, take_done, take_greeting, take_welcome};
use byte_streams::{Input, Output, Sink};
use ra_item::stream::ItemStream;
use ra_wire::command_writer::{write_anonymous, write_hello};
use std::alloc::Global;

/// Does the opening: takes the greeting, asks for the URL, says that the client is nobody where the server asks, and
/// takes which repository the server has.
pub fn introduce<I: Input + Drop, O: Output + Drop>(
    alloc: Global,
    url: &[u8],
    items: &mut ItemStream<I>,
    out: &mut Sink<O>,
) -> Result<Repository, ClientFault>
    ensures opened { Opens repository_as url.now (items.old, out.old) (items.new, out.new) result }
{
    match take_greeting(alloc, items) {
        Ok(()) => greet(alloc, url, items, out),
        Err(fault) => Err(fault),
    }
}

// Greets a server that has done so.
fn greet<I: Input + Drop, O: Output + Drop>(
    alloc: Global,
    url: &[u8],
    items: &mut ItemStream<I>,
    out: &mut Sink<O>,
) -> Result<Repository, ClientFault>
    ensures opened { IsGreeted repository_as url.now (items.old, out.old) (items.new, out.new) result }
{
    match say_hello(url, out) {
        Ok(()) => say_who(alloc, items, out),
        Err(fault) => Err(fault),
    }
}

// Says who the client is, where the server asks.
fn say_who<I: Input + Drop, O: Output + Drop>(
    alloc: Global,
    items: &mut ItemStream<I>,
    out: &mut Sink<O>,
) -> Result<Repository, ClientFault>
    ensures opened { IsWelcomed repository_as (items.old, out.old) (items.new, out.new) result }
{
    match take_asked(alloc, items) {
        Ok(asks) => be_known(alloc, asks, items, out),
        Err(fault) => Err(fault),
    }
}

// The same, where it is known whether it asks.
fn be_known<I: Input + Drop, O: Output + Drop>(
    alloc: Global,
    asks: bool,
    items: &mut ItemStream<I>,
    out: &mut Sink<O>,
) -> Result<Repository, ClientFault>
    ensures opened { IsKnown repository_as asks (items.old, out.old) (items.new, out.new) result }
{
    match log_in(asks, items, out) {
        Ok(()) => take_welcome(alloc, items),
        Err(fault) => Err(fault),
    }
}

// Says that the client is nobody, if that is asked.
fn log_in<I: Input + Drop, O: Output + Drop>(
    asks: bool,
    items: &mut ItemStream<I>,
    out: &mut Sink<O>,
) -> Result<(), ClientFault>
    ensures known { LogsIn asks (items.old, out.old) (items.new, out.new) result }
{
    if !asks {
        return Ok(());
    }
    match say_nobody(out) {
        Ok(()) => take_done(items),
        Err(fault) => Err(fault),
    }
}

// Greets a server.
fn say_hello<O: Output + Drop>(url: &[u8], out: &mut Sink<O>) -> Result<(), ClientFault>
    ensures sent { Sends (spell (hello url.now)) out.old out.new result }
{
    let count = out.begin();
    let answer = write_hello(out, url);
    hand_on(out, count, answer)
}

// Says that the client is nobody.
fn say_nobody<O: Output + Drop>(out: &mut Sink<O>) -> Result<(), ClientFault>
    ensures sent { Sends (spell anonymous) out.old out.new result }
{
    let count = out.begin();
    let answer = write_anonymous(out);
    hand_on(out, count, answer)
}
