//! A session over an output, whose failures are counted.

ghost use Rattle.std.specs.Prelude.{◌≡◌, true, IfOk, IfErr, if◌then◌else◌};
ghost use Rattle.ra_item.specs.ItemStreams.{is_spent};
ghost use Rattle.ra_serve.specs.Counted.{IsToldOnlyBy};
ghost use Rattle.ra_serve.specs.Outputs.{items_of};
ghost use Rattle.ra_serve.specs.Serving.{Greets, OnlyGreets, HoldsSession};
ghost use Rattle.ra_serve.specs.declared.fault.ServeFault.TheVariants.{OutOfMemory, WriteFailed};
ghost use Rattle.ra_serve.specs.Clients.{ReaderFails, CountsOn};

use crate::client::{ClientItems, SessionOut};
use crate::fault::{End, ServeFault};
use crate::port::RepoPort;
use crate::session::converse;
use byte_streams::{Input, Output, has_failed_since};
use std::alloc::Global;

/// A session that was given up: why, and the output as the answers so far left it.
#[derive(Drop)]
pub struct Unserved<O> {
    /// Why it was given up.
    pub fault: ServeFault,
    /// The output.
    pub out: Option<O>,
}

/// Serves one session: the opening, then the answer to each command that the client sends. It ends where the input ends
/// between items, where the opening ends it, and at a fault of items, and gives the output back, behind a refusal too.
///
/// What it wrote is the answers to the items that it took, whatever the pieces in which they came, and the greeting alone
/// over a stream that was refused before. All of it is handed on before the next item is awaited (`ClientItems`), and
/// where the session has ended. `ReadFailed` (49) comes only where the input's
/// count of failures rose, or it was read 2^40 - 1 times, `WriteFailed` (49) only where the output failed meanwhile, and
/// `OutOfMemory` (70) for a growth of its own.
pub fn serve<P: RepoPort, I: Input + Drop, O: Output + Drop>(
    alloc: Global,
    port: &mut P,
    root_url: &[u8],
    items: &mut ClientItems<I, O>,
    out: O,
) -> Result<(O, End), Unserved<O>>
    ensures served { HoldsSession P.RepoPort O.contents port.old port.new items.old items.new out root_url.now result }
    ensures greets { IfOk result (λ r. Greets O.contents out r.0) }
    ensures spent { is_spent (items_of items.old) ≡ true
        → IfOk result (λ r. OnlyGreets P.repository O.contents port.old port.new out r.0 r.1) }
    ensures handed { IfOk result (λ r. O.is_handed_on r.0) }
    ensures reader { IfErr result (λ u. u.fault ≡ ServeFault.ReadFailed → ReaderFails items.old items.new) }
    ensures writer { IfErr result (λ u. IsToldOnlyBy O.failures (O.failures out) u.fault u.out) }
    ensures failures { CountsOn items.old items.new }
{
    let before = out.count_failures();
    let mut back = None;
    let out = SessionOut::new(out, &mut back);
    let fault = match converse(alloc, port, root_url, items, out) {
        Ok((done, end)) => return Ok((done.into_inner(), end)),
        Err(fault) => fault,
    };
    Err(judged(fault, before, back))
}

/// What a refusal is told as, of an output that had failed so often before: it failed only where its count rose.
pub fn judged<O: Output + Drop>(why: ServeFault, before: u64, out: Option<O>) -> Unserved<O>
    ensures back { result.out ≡ out }
    ensures reader { result.fault ≡ ServeFault.ReadFailed → why ≡ ServeFault.ReadFailed }
    ensures writer { IsToldOnlyBy O.failures before result.fault result.out }
{
    match why {
        ServeFault::WriteFailed => of_writer(before, out),
        _ => Unserved { fault: why, out },
    }
}

// The same where the session says that its writer failed.
fn of_writer<O: Output + Drop>(before: u64, out: Option<O>) -> Unserved<O>
    ensures back { result.out ≡ out }
    ensures reader { result.fault ≡ ServeFault.ReadFailed → ⊥ }
    ensures writer { IsToldOnlyBy O.failures before result.fault result.out }
{
    match out {
        Some(out) => Unserved {
            fault: writer_fault(has_failed_since(&out, before)),
            out: Some(out),
        },
        None => Unserved {
            fault: ServeFault::OutOfMemory,
            out: None,
        },
    }
}

// The refusal where an output failed or didn't.
fn writer_fault(failed: bool) -> ServeFault
    ensures { result ≡ (if failed then WriteFailed else OutOfMemory) }
{
    if failed {
        ServeFault::WriteFailed
    } else {
        ServeFault::OutOfMemory
    }
}
