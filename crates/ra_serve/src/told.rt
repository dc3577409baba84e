//! Refusals as they are told.

ghost use Rattle.std.specs.Prelude.{◌≡◌};
ghost use Rattle.node_base.specs.declared.refusal.Refusal.TheVariants as refusal;
ghost use Rattle.ra_serve.specs.Answers.{refused};
ghost use Rattle.ra_serve.specs.Ports.{refusal_of};
ghost use Rattle.ra_serve.specs.Tellings.{Sends};

use crate::fault::{PortFault, ServeFault};
use ra_wire::reply_writer::write_failure;
use std::io::Write;

/// Tells a refusal of the port.
pub fn refuse<W: Write + Drop>(fault: PortFault, out: W) -> Result<W, ServeFault>
    ensures { Sends W.contents out (refused (refusal_of fault)) result }
{
    let mut out = out;
    write_failure(&mut out, fault.number(), fault.text())?;
    Ok(out)
}

/// Nothing is at the path (11).
pub fn no_such_path<W: Write + Drop>(out: W) -> Result<W, ServeFault>
    ensures { Sends W.contents out (refused refusal.NoSuchPath) result }
{
    let mut out = out;
    write_failure(&mut out, 11, b"no such path")?;
    Ok(out)
}

/// A file is where a directory is wanted (13).
pub fn not_a_directory<W: Write + Drop>(out: W) -> Result<W, ServeFault>
    ensures { Sends W.contents out (refused refusal.NotDir) result }
{
    let mut out = out;
    write_failure(&mut out, 13, b"not a directory")?;
    Ok(out)
}

/// A directory is where a file is wanted (17).
pub fn kind_mismatch<W: Write + Drop>(out: W) -> Result<W, ServeFault>
    ensures { Sends W.contents out (refused refusal.KindMismatch) result }
{
    let mut out = out;
    write_failure(&mut out, 17, b"node kind mismatch")?;
    Ok(out)
}

/// An answer is past the limit of an item (8).
pub fn too_long<W: Write + Drop>(out: W) -> Result<W, ServeFault>
    ensures { Sends W.contents out (refused refusal.TooLong) result }
{
    let mut out = out;
    write_failure(&mut out, 8, b"limit exceeded")?;
    Ok(out)
}

/// The port takes no changes (24).
pub fn read_only<W: Write + Drop>(out: W) -> Result<W, ServeFault>
    ensures { Sends W.contents out (refused refusal.ReadOnly) result }
{
    let mut out = out;
    write_failure(&mut out, 24, b"the mirror is read-only")?;
    Ok(out)
}

/// Another form of a replay is asked for than the one that is served (43).
pub fn replay_form<W: Write + Drop>(out: W) -> Result<W, ServeFault>
    ensures { Sends W.contents out (refused refusal.ReplayForm) result }
{
    let mut out = out;
    write_failure(&mut out, 43, b"replay form not supported")?;
    Ok(out)
}

/// A command of another name (47).
pub fn unknown_command<W: Write + Drop>(out: W) -> Result<W, ServeFault>
    ensures { Sends W.contents out (refused refusal.UnknownCommand) result }
{
    let mut out = out;
    write_failure(&mut out, 47, b"unknown command")?;
    Ok(out)
}

/// An item of another shape (48).
pub fn bad_shape<W: Write + Drop>(out: W) -> Result<W, ServeFault>
    ensures { Sends W.contents out (refused refusal.BadShape) result }
{
    let mut out = out;
    write_failure(&mut out, 48, b"bad command shape")?;
    Ok(out)
}
