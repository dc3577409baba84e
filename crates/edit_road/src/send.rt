//! A set of changes as the bytes of an edit.
ghost use Rattle.std.specs.Prelude.{◌≡◌, ◌≤◌, ◌⊎◌, length, None, IfOk, IfErr, OnOk, if◌then◌else◌};
ghost use Rattle.node_base.specs.declared.limits.TheConstants.{REVISION};
ghost use Rattle.dump_load.specs.Faults.{fault};
ghost use Rattle.delta_editor.specs.declared.fault.EditorFault.TheVariants.{OutOfMemory, PeerFailed};
ghost use Rattle.edit_road.specs.Sending.{Sends, IsUnsent, IsToldOnlyBy};

use byte_streams::{Lent, Output, has_failed_since};
use delta_editor::EditorFault;
use dump_load::ChangeSet;
use editor_ends::drive;
use path_tree::Tree;
use path_tree::limits::has_root;
use ra_edit::wire::WireEditor;
use std::alloc::Global;
use std::io::Write;

/// Writes a set of changes as the edit of the revision after these trees, 65,535 at most, the newest last, behind what
/// the writer has: the commands of the calls that the set is driven as, in the one spelling that is written.
///
/// Refused: with the set's first fault (8, 10 to 14, 17), for want of memory (70), and with `PeerFailed` (49) where the
/// writer failed. The writer is let go of then.
pub fn send_set<W: Write + Drop>(
    alloc: Global,
    trees: &[Tree],
    set: &ChangeSet,
    out: W,
) -> Result<W, EditorFault>
    requires few { length trees.now ≤ REVISION }
    ensures written { IfOk result (Sends W.contents trees.now set.now out) }
    ensures faultless { OnOk result (fault trees.now set.now ≡ None) }
    ensures refused { IfErr result (IsUnsent trees.now set.now) }
{
    // For the proof: the set is normal, and its calls keep the nesting and go down.
    set.changes();
    has_root(trees);
    crate::law::drive_is_spelled();
    let editor = WireEditor::new(alloc, out)?;
    match drive(alloc, trees, set, editor) {
        Ok(written) => Ok(written.into_inner()),
        Err(fault) => Err(fault),
    }
}

/// A set that wasn't sent: why, and the output as the calls so far left it.
#[derive(Drop)]
pub struct Unsent<O> {
    /// Why it wasn't sent.
    pub fault: EditorFault,
    /// The output.
    pub out: Option<O>,
}

/// Writes a set of changes as `send_set` does, to an output whose failures are counted, which comes back behind a
/// refusal too. `PeerFailed` (49) comes only where the output failed meanwhile.
pub fn send_set_to<O: Output + Drop>(
    alloc: Global,
    trees: &[Tree],
    set: &ChangeSet,
    out: O,
) -> Result<O, Unsent<O>>
    requires few { length trees.now ≤ REVISION }
    ensures written { IfOk result (Sends O.contents trees.now set.now out) }
    ensures faultless { OnOk result (fault trees.now set.now ≡ None) }
    ensures refused { IfErr result (λ u. IsUnsent trees.now set.now u.fault) }
    ensures cause { IfErr result (λ u. IsToldOnlyBy O.failures (O.failures out) u.fault u.out) }
{
    let before = out.count_failures();
    let mut back = None;
    let fault = match send_set(alloc, trees, set, Lent::new(out, &mut back)) {
        Ok(lent) => return Ok(lent.into_inner()),
        Err(fault) => fault,
    };
    Err(judged(fault, before, back))
}

// What a refusal is told as, of an output that had failed so often before: it failed only where its count rose.
fn judged<O: Output + Drop>(why: EditorFault, before: u64, out: Option<O>) -> Unsent<O>
    ensures said { (result.fault ≡ why) ⊎ (result.fault ≡ OutOfMemory) }
    ensures cause { IsToldOnlyBy O.failures before result.fault result.out }
{
    match why {
        EditorFault::PeerFailed => of_peer(before, out),
        _ => Unsent { fault: why, out },
    }
}

// The same where what wrote says that its writer failed.
fn of_peer<O: Output + Drop>(before: u64, out: Option<O>) -> Unsent<O>
    ensures said { (result.fault ≡ PeerFailed) ⊎ (result.fault ≡ OutOfMemory) }
    ensures cause { IsToldOnlyBy O.failures before result.fault result.out }
{
    match out {
        Some(out) => Unsent {
            fault: peer_fault(has_failed_since(&out, before)),
            out: Some(out),
        },
        None => Unsent {
            fault: EditorFault::OutOfMemory,
            out: None,
        },
    }
}

// The refusal where an output failed or didn't.
fn peer_fault(failed: bool) -> EditorFault
    ensures { result ≡ (if failed then PeerFailed else OutOfMemory) }
{
    if failed {
        EditorFault::PeerFailed
    } else {
        EditorFault::OutOfMemory
    }
}
