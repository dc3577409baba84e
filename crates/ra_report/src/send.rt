//! A plan's edit, sent.

ghost use Rattle.std.specs.Prelude.{◌≡◌, IfOk};
ghost use Rattle.std.specs.Io.KnownBytes.{Appends};
ghost use Rattle.ra_item.specs.Items.{spell};
ghost use Rattle.ra_wire.specs.Replies.{authorised};
ghost use Rattle.ra_report.specs.Edits.{edit_told, edit_alone};
ghost use Rattle.ra_report.specs.Planning.{Sends};
ghost use Rattle.ra_report.specs.Plans.{TellsPlan};

use crate::plan::Plan;
use delta_editor::EditorFault;
use ra_serve::ServeFault;
use ra_update::{Facts, send_update};
use ra_wire::reply_writer::write_authorised;
use std::alloc::Global;
use std::io::Write;
use uuid::Uuid;

/// Answers for the second time who the client is, and sends the edit.
pub fn send<W: Write + Drop>(alloc: Global, plan: &Plan, out: W) -> Result<W, ServeFault>
    ensures { Sends W.Write out plan.now edit_told result }
{
    match authorise(out) {
        Ok(out) => send_edit(alloc, plan, out),
        Err(fault) => Err(fault),
    }
}

// What stands before an edit.
fn authorise<W: Write + Drop>(out: W) -> Result<W, ServeFault>
    ensures { IfOk result (λ w. Appends (W.contents out) (W.contents w) (spell authorised)) }
{
    let mut out = out;
    write_authorised(&mut out)?;
    Ok(out)
}

// Sends the edit alone.
fn send_edit<W: Write + Drop>(alloc: Global, plan: &Plan, out: W) -> Result<W, ServeFault>
    ensures { Sends W.Write out plan.now edit_alone result }
{
    let mut buffer = Uuid::encode_buffer();
    let text = plan.identity.hyphenated().encode_lower(&mut buffer);
    send_with(alloc, plan, text.as_bytes(), out)
}

// The same with the identity in text.
fn send_with<W: Write + Drop>(
    alloc: Global,
    plan: &Plan,
    identity: &[u8],
    out: W,
) -> Result<W, ServeFault>
    ensures { IfOk result (λ w. TellsPlan plan.now identity.now edit_alone (W.contents out) (W.contents w)) }
{
    let facts = Facts {
        target: &plan.wanted.tree,
        number: plan.wanted.number,
        base: Some(plan.copy.base),
        identity,
        revisions: plan.revisions.as_slice(),
        tells_root: plan.tells_root,
        opens: plan.opens,
    };
    match send_update(alloc, plan.copy.report.tree(), &facts, out) {
        Ok(out) => Ok(out),
        Err(EditorFault::OutOfMemory) => Err(ServeFault::OutOfMemory),
        Err(_) => Err(ServeFault::WriteFailed),
    }
}
