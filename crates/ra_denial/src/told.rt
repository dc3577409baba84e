//! Why a command isn't answered, as it is told.

ghost use Rattle.std.specs.Prelude.{◌≡◌, IfOk, ◌∷◌, []};
ghost use Rattle.node_base.specs.declared.refusal.Refusal.{Refusal};
ghost use Rattle.ra_item.specs.Items.{spell};
ghost use Rattle.ra_item.specs.Writing.{WritesItem};
ghost use Rattle.ra_wire.specs.Replies.{answer_of, failure};
ghost use Rattle.browse_wire.specs.Told.{end_item};
ghost use Rattle.ra_serve.specs.Answers.{refused};
ghost use Rattle.ra_serve.specs.Ports.{refusal_of};
ghost use Rattle.ra_denial.specs.Denials.{denied};
ghost use Rattle.ra_denial.specs.Writing.{TellsBehind, TellsBytes, TellsStop, cause_item};

use crate::denial::Denial;
use crate::stop::Stop;
use browse_wire::told::write_last;
use ra_item::writer::{write_close, write_number, write_open, write_text};
use ra_serve::{PortFault, ServeFault};
use ra_wire::pieces::{write_end, write_name};
use ra_wire::reply_writer::write_failure;
use std::io;
use std::io::Write;

/// Tells what is denied.
pub fn deny<W: Write + Drop>(why: Denial, out: W) -> Result<W, ServeFault>
    ensures { TellsBytes W.Write out (denied why) result }
{
    let mut out = out;
    write_denied(&mut out, why.number(), why.text())?;
    Ok(out)
}

/// Tells why a call stopped. Want of memory (70) ends the session.
pub fn tell<W: Write + Drop>(stop: Stop, out: W) -> Result<W, ServeFault>
    ensures { IfOk result (λ w. TellsStop (W.contents out) (W.contents w) stop) }
{
    match stop {
        Stop::Denied(why) => deny(why, out),
        Stop::Port(fault) => refuse(fault, out),
        Stop::OutOfMemory => Err(ServeFault::OutOfMemory),
    }
}

/// Tells that a list is at its end, and then why a call stopped.
pub fn tell_behind_last<W: Write + Drop>(stop: Stop, out: W) -> Result<W, ServeFault>
    ensures { IfOk result (λ w. TellsBehind (spell end_item) (W.contents out) (W.contents w) stop) }
{
    let mut out = out;
    write_last(&mut out)?;
    tell(stop, out)
}

// Tells a refusal of the port.
fn refuse<W: Write + Drop>(fault: PortFault, out: W) -> Result<W, ServeFault>
    ensures { TellsBytes W.Write out (refused (refusal_of fault)) result }
{
    let mut out = out;
    write_failure(&mut out, fault.number(), fault.text())?;
    Ok(out)
}

/// A failure, by its number and text.
pub fn write_denied<W: Write>(out: &mut W, n: u64, text: &[u8]) -> io::Result<()>
    ensures { WritesItem W.Write out.old out.new (failure n text.now) result }
{
    write_failed(out, b"failure", n, text)
}

// The same with the answer's name.
fn write_failed<W: Write>(out: &mut W, name: &[u8], n: u64, text: &[u8]) -> io::Result<()>
    ensures { WritesItem W.Write out.old out.new (answer_of name.now (cause_item n text.now ∷ [])) result }
{
    write_name(out, name)?;
    write_cause(out, n, text)?;
    write_end(out)
}

// A number and a text, with no file and no line.
fn write_cause<W: Write>(out: &mut W, n: u64, text: &[u8]) -> io::Result<()>
    ensures { WritesItem W.Write out.old out.new (cause_item n text.now) result }
{
    write_open(out)?;
    write_number(out, n)?;
    write_text(out, text)?;
    write_text(out, b"")?;
    write_number(out, 0)?;
    write_close(out)
}
