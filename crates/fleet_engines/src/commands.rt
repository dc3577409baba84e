//! `list` and `canon` over any input and output.
ghost use Rattle.std.specs.Prelude.{IfErr, OnOk};
ghost use Rattle.fleet_engines.specs.Streams.{AcceptsDump, RefusesDump, TellsEither};

use crate::engine::{Lister, Rewriter};
use crate::history::History;
use crate::product::Product;
use crate::whole_stream::read_stream;
use byte_streams::{Input, Output};
use node_base::Refusal;
use std::alloc::Global;
use std::mem::forget;

/// Reads a dump and, at its end, prints its newest tree: nothing is written before the end has come without a fault.
/// With `deltas` texts may be given as deltas: each is made whole over the text that its file has before, and of one that
/// can't be its refusal is told (6, 8, 11, 14, 17, 44). Without it such a text is refused unseen (9).
///
/// The memory of what was read isn't given back: it is for a process that ends behind it.
pub fn run_list<I: Input, O: Output>(
    alloc: Global,
    deltas: bool,
    input: &mut I,
    output: &mut O,
) -> Result<(), Refusal>
    ensures ok { OnOk result (AcceptsDump I.Input O.Output deltas Product.List input.old output.old output.new) }
    ensures refused { IfErr result (RefusesDump I.Input O.Output deltas Product.List input.old output.old
        output.new) }
    ensures peer { TellsEither I.Input input.old input.new O.failures output.old output.new result }
{
    let mut history = History::new(alloc)?;
    let mut lister = Lister { alloc };
    let done = read_stream(alloc, deltas, &mut lister, &mut history, output, input);
    // (to take the trees apart would cost a third of the run: they are left to the end of the process)
    forget(history);
    done
}

/// Reads a dump and writes it in its canonical spelling: head and revision 0 once a record of another number or the end
/// has come, and each later revision when it has been judged. A refusal leaves what was written before it. With `deltas`
/// texts may be given as deltas, as for `run_list`; what is written has whole texts.
///
/// The memory of what was read isn't given back: it is for a process that ends behind it.
pub fn run_canon<I: Input, O: Output>(
    alloc: Global,
    deltas: bool,
    input: &mut I,
    output: &mut O,
) -> Result<(), Refusal>
    ensures ok { OnOk result (AcceptsDump I.Input O.Output deltas Product.Canon input.old output.old output.new) }
    ensures refused { IfErr result (RefusesDump I.Input O.Output deltas Product.Canon input.old output.old
        output.new) }
    ensures peer { TellsEither I.Input input.old input.new O.failures output.old output.new result }
{
    let mut history = History::new(alloc)?;
    let mut rewriter = Rewriter::new(alloc);
    let done = read_stream(alloc, deltas, &mut rewriter, &mut history, output, input);
    forget(history);
    done
}
