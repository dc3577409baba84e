//! A session over an output whose failures are counted.

ghost use Rattle.std.specs.Prelude.{◌≡◌, IfErr, IfOk};
ghost use Rattle.byte_streams.specs.Causes.{Fails};
ghost use Rattle.ra_item.specs.ItemStreams.{meanwhile};
ghost use Rattle.ra_serve.specs.Counted.{IsToldOnlyBy};
ghost use Rattle.ra_denial.specs.Stops.{PortStays};
ghost use Rattle.ra_reader.specs.Calls.{CountsReader, ServesSession};
ghost use Rattle.ra_reader.specs.Serving.{Greets};

use crate::session::browse;
use byte_streams::{Input, Lent, Output};
use ra_item::stream::ItemStream;
use ra_serve::{End, RepoPort, ServeFault, Unserved, judged};
use std::alloc::Global;

/// Serves one session as `browse` does, to an output whose failures are counted, which comes back behind a refusal too.
/// `WriteFailed` (49) comes only where the output failed meanwhile.
pub fn browse_to<P: RepoPort, I: Input + Drop, O: Output + Drop>(
    alloc: Global,
    port: &mut P,
    items: &mut ItemStream<I>,
    out: O,
) -> Result<(O, End), Unserved<O>>
    ensures served { ServesSession P.RepoPort I.Input O.contents port.old port.new items.old items.new out result }
    ensures greets { IfOk result (λ r. Greets O.contents out r.0) }
    ensures reader { IfErr result (λ u. u.fault ≡ ServeFault.ReadFailed
        → Fails (meanwhile I.failures I.reads items.old items.new)) }
    ensures writer { IfErr result (λ u. IsToldOnlyBy O.failures (O.failures out) u.fault u.out) }
    ensures failures { CountsReader I.Input items.old items.new }
    ensures stays { PortStays P.RepoPort port.old port.new }
{
    let before = out.count_failures();
    let mut back = None;
    let fault = match browse(alloc, port, items, Lent::new(out, &mut back)) {
        Ok((lent, end)) => return Ok((lent.into_inner(), end)),
        Err(fault) => fault,
    };
    Err(judged(fault, before, back))
}
