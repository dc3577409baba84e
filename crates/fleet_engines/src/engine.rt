//! What `list` and `canon` make of a dump, record by record.
ghost use Rattle.std.specs.Prelude.{◌≡◌, ◌&&◌, Some, IfOk, IfErr, OnOk, not, if◌then◌else◌};
ghost use Rattle.byte_streams.specs.Memory.{Adds, IsWhole};
ghost use Rattle.fleet_engines.specs.Histories.{beginning_text, closed_text, due_text, held, told_of, Holds, IsWritable};
ghost use Rattle.fleet_engines.specs.Histories.{RefusesEnd, RefusesNext, TakesEnd, TakesNext};
ghost use Rattle.fleet_engines.specs.Runs.{has_begun, CantEnd, EndsWith, RefusesOne, TakesOne};
ghost use Rattle.fleet_engines.specs.Streams.{TellsFailure, Writes, WritesNone};

use crate::history::History;
use crate::listing::newest_listing;
use crate::product::Product;
use crate::stream::write;
use crate::taker::Taker;
use byte_streams::{Output, VecWriter};
use dump_text::{DumpRecord, RevRecord, write_head, write_props_entry, write_revision};
use node_base::{Refusal, RevNo};
use std::alloc::{AllocError, Global};

/// Who lists the newest tree of a dump at its end.
#[derive(Drop)]
pub struct Lister {
    pub alloc: Global,
}

/// Who writes a dump in its canonical spelling.
#[derive(Drop)]
pub struct Rewriter {
    // What is due, made whole before it is written. Its memory serves every revision.
    due: VecWriter,
}

impl Rewriter {
    /// Nothing is due yet.
    pub fn new(alloc: Global) -> Rewriter {
        Rewriter {
            due: VecWriter::new(alloc),
        }
    }
}

// Whether a revision other than 0 has begun that hadn't before.
fn begins(had_begun: bool, history: &History) -> bool
    ensures { result ≡ (not had_begun && has_begun (told_of history.now)) }
{
    !had_begun && history.has_begun()
}

// Adds the head and revision 0, where they are due.
fn push_beginning(is_due: bool, history: &History, bytes: &mut VecWriter)
    ensures { Adds bytes.old bytes.new (beginning_text is_due history.now) }
{
    if is_due {
        write_head(bytes, history.uuid());
        write_props_entry(bytes, RevNo::ZERO, history.zero());
    }
}

// Adds the revision that is whole, if there is one.
fn push_closed(closed: &Option<RevRecord>, bytes: &mut VecWriter)
    requires { IsWritable closed.now }
    ensures { Adds bytes.old bytes.new (closed_text closed.now) }
{
    if let Some(revision) = closed {
        write_revision(bytes, revision).unwrap();
    }
}

// Room for the revision that is whole, more or less.
fn room_for(closed: &Option<RevRecord>) -> usize {
    match closed {
        Some(revision) => revision.room(),
        None => 0,
    }
}

// Makes the bytes those that are due: the head and revision 0, or not, and then the revision that is whole, if there
// is one.
fn make_due(is_due: bool, history: &History, closed: &Option<RevRecord>, bytes: &mut VecWriter)
    requires { IsWritable closed.now }
    ensures { Holds bytes.new (due_text is_due history.now closed.now) }
{
    bytes.restart(room_for(closed));
    push_beginning(is_due, history, bytes);
    push_closed(closed, bytes);
}

// Writes what is due. It is made whole before: where memory runs out in that, and only there, nothing of it is written.
fn write_due<O: Output>(
    is_due: bool,
    history: &History,
    closed: &Option<RevRecord>,
    bytes: &mut VecWriter,
    output: &mut O,
) -> Result<(), Refusal>
    requires { IsWritable closed.now }
    ensures ok { OnOk result (Writes O.contents output.old output.new (due_text is_due history.now closed.now)) }
    ensures refused { IfErr result (WritesNone O.Output output.old output.new) }
    ensures peer { TellsFailure O.failures output.old output.new result }
    ensures memory { IfErr result (λ e. e ≡ Refusal.OutOfMemory → ¬ IsWhole bytes.new) }
{
    make_due(is_due, history, closed, bytes);
    match bytes.as_slice() {
        Ok(due) => write(output, due),
        Err(_) => Err(Refusal::OutOfMemory),
    }
}

// A record more of a dump that is listed: nothing is written.
fn list_record<O: Output>(
    history: &mut History,
    next: DumpRecord,
    output: &mut O,
) -> Result<(), Refusal>
    ensures ok { OnOk result (TakesNext O.Output Product.List history.old output.old next history.new output.new) }
    ensures refused { IfErr result (λ e. RefusesNext O.Output history.old output.old next e history.new output.new) }
    ensures peer { TellsFailure O.failures output.old output.new result }
{
    match history.take(next) {
        Ok(_closed) => Ok(()),
        Err(fault) => Err(fault),
    }
}

// A record more of a dump that is written in its canonical spelling. What is due of it is written.
fn rewrite<O: Output>(
    bytes: &mut VecWriter,
    history: &mut History,
    next: DumpRecord,
    output: &mut O,
) -> Result<(), Refusal>
    ensures ok { OnOk result (TakesNext O.Output Product.Canon history.old output.old next history.new output.new) }
    ensures refused { IfErr result (λ e. RefusesNext O.Output history.old output.old next e history.new output.new) }
    ensures peer { TellsFailure O.failures output.old output.new result }
{
    let had_begun = history.has_begun();
    let closed = history.take(next)?;
    let is_due = begins(had_begun, history);
    write_due(is_due, history, &closed, bytes, output)
}

// The listing of the newest tree.
fn finish_list<O: Output>(
    alloc: Global,
    history: &mut History,
    output: &mut O,
) -> Result<(), Refusal>
    ensures ok { OnOk result (TakesEnd O.Output Product.List history.old output.old history.new output.new) }
    ensures refused { IfErr result (λ e. RefusesEnd O.Output history.old output.old e history.new output.new) }
    ensures peer { TellsFailure O.failures output.old output.new result }
{
    history.close()?;
    match newest_listing(alloc, history.trees()) {
        Ok(bytes) => write(output, bytes.as_slice()),
        Err(_) => Err(Refusal::OutOfMemory),
    }
}

// What isn't written yet of the canonical spelling.
fn finish_canon<O: Output>(
    bytes: &mut VecWriter,
    history: &mut History,
    output: &mut O,
) -> Result<(), Refusal>
    ensures ok { OnOk result (TakesEnd O.Output Product.Canon history.old output.old history.new output.new) }
    ensures refused { IfErr result (λ e. RefusesEnd O.Output history.old output.old e history.new output.new) }
    ensures peer { TellsFailure O.failures output.old output.new result }
{
    let had_begun = history.has_begun();
    let closed = history.close()?;
    write_due(!had_begun, history, &closed, bytes, output)
}

impl<O: Output> Taker<History, O> for Lister {
    ghost use Rattle.fleet_engines.specs.declared.product.Product.{Product};

    ghost takes = { λ p next q. TakesOne Product.List (held O.Output p) next (held O.Output q) };

    ghost refuses = { λ p next e q. RefusesOne (held O.Output p) next e (held O.Output q) };

    ghost ends = { λ p q. EndsWith Product.List (held O.Output p) (held O.Output q) };

    ghost cant_end = { λ p e q. CantEnd (held O.Output p) e (held O.Output q) };

    ghost failures = { O.failures };

    fn take(
        &mut self,
        next: DumpRecord,
        store: &mut History,
        output: &mut O,
    ) -> Result<(), Refusal> {
        list_record(store, next, output)
    }

    fn end(&mut self, store: &mut History, output: &mut O) -> Result<(), Refusal> {
        finish_list(self.alloc, store, output)
    }
}

impl<O: Output> Taker<History, O> for Rewriter {
    ghost use Rattle.fleet_engines.specs.declared.product.Product.{Product};

    ghost takes = { λ p next q. TakesOne Product.Canon (held O.Output p) next (held O.Output q) };

    ghost refuses = { λ p next e q. RefusesOne (held O.Output p) next e (held O.Output q) };

    ghost ends = { λ p q. EndsWith Product.Canon (held O.Output p) (held O.Output q) };

    ghost cant_end = { λ p e q. CantEnd (held O.Output p) e (held O.Output q) };

    ghost failures = { O.failures };

    fn take(
        &mut self,
        next: DumpRecord,
        store: &mut History,
        output: &mut O,
    ) -> Result<(), Refusal> {
        rewrite(&mut self.due, store, next, output)
    }

    fn end(&mut self, store: &mut History, output: &mut O) -> Result<(), Refusal> {
        finish_canon(&mut self.due, store, output)
    }
}
