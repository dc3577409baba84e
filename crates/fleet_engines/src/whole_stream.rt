//! A dump that is read to its end, by whoever takes its records.
ghost use Rattle.std.specs.Prelude.{◌≡◌, ◌<◌, [], length, IfErr, OnOk};
ghost use Rattle.dump_text.specs.Streams.{fresh_by};
ghost use Rattle.fleet_engines.specs.Streams.{GoesOn, HaltsDump, HaltsIn, ReachesEnd, TakesDump, TellsEither};
ghost use Rattle.fleet_engines.specs.Streams.{TellsFailure};
ghost use Rattle.fleet_engines.specs.Takers.{place, TakesAll, Stops};

use crate::stream::read;
use crate::taker::Taker;
use byte_streams::{Input, MOST_READS};
use dump_text::{DumpReader, DumpRecord, dump_refusal};
use node_base::Refusal;
use std::alloc::Global;

// How many bytes are read at a time: 64 KiB.
const PIECE: usize = 65_536;

// How many records most pieces have at most.
const RECORDS: usize = 256;

// No records, with room for those of most pieces, if there is memory.
fn no_records(alloc: Global) -> Vec<DumpRecord>
    ensures { result.items ≡ [] }
{
    let mut records = Vec::new(alloc);
    let _ = records.reserve(RECORDS);
    records
}

// A reader before the first byte, which takes texts that are given as deltas or refuses them.
fn new_reader(alloc: Global, deltas: bool) -> DumpReader
    ensures { result ≡ fresh_by deltas }
{
    if deltas {
        DumpReader::taking_deltas(alloc)
    } else {
        DumpReader::new(alloc)
    }
}

// Some records more.
fn take_all<S, O, K: Taker<S, O>>(
    taker: &mut K,
    records: Vec<DumpRecord>,
    store: &mut S,
    output: &mut O,
) -> Result<(), Refusal>
    ensures ok { OnOk result (TakesAll K.takes (place taker.old store.old output.old) records.items
        (place taker.new store.new output.new)) }
    ensures refused { IfErr result (λ e. Stops K.takes K.refuses (place taker.old store.old output.old) records.items e
        (place taker.new store.new output.new)) }
    ensures peer { TellsFailure K.failures output.old output.new result }
{
    for next in records {
        taker.take(next, store, output)?;
    }
    Ok(())
}

// The next piece of a dump.
fn feed<S, O, K: Taker<S, O>>(
    alloc: Global,
    taker: &mut K,
    reader: &mut DumpReader,
    piece: &[u8],
    store: &mut S,
    output: &mut O,
) -> Result<(), Refusal>
    ensures ok { OnOk result (GoesOn K.Taker piece.now reader.old (place taker.old store.old output.old) reader.new
        (place taker.new store.new output.new)) }
    ensures refused { IfErr result (λ e. HaltsIn K.Taker piece.now reader.old (place taker.old store.old output.old) e
        (place taker.new store.new output.new)) }
    ensures peer { TellsFailure K.failures output.old output.new result }
{
    let mut records = no_records(alloc);
    let fed = reader.feed(piece, &mut records);
    take_all(taker, records, store, output)?;
    match fed {
        Ok(()) => Ok(()),
        Err(fault) => Err(dump_refusal(fault)),
    }
}

// All pieces, up to the end of the stream.
fn read_all<S, O, K: Taker<S, O>, I: Input>(
    alloc: Global,
    taker: &mut K,
    reader: &mut DumpReader,
    piece: &mut [u8],
    store: &mut S,
    output: &mut O,
    input: &mut I,
) -> Result<(), Refusal>
    requires begins { reader.old ≡ fresh_by reader.old.head.deltas }
    requires room { 0 < length piece.old }
    ensures ok { OnOk result (ReachesEnd I.Input K.Taker reader.old.head.deltas input.old input.new reader.new
        (place taker.old store.old output.old) (place taker.new store.new output.new)) }
    ensures refused { IfErr result (λ e. HaltsDump I.Input K.Taker reader.old.head.deltas input.old input.new
        (place taker.old store.old output.old) e (place taker.new store.new output.new)) }
    ensures peer { TellsEither I.Input input.old input.new K.failures output.old output.new result }
{
    for _turn in 0..MOST_READS {
        let n = read(input, piece)?;
        if n == 0 {
            return Ok(());
        }
        feed(alloc, taker, reader, &piece[..n], store, output)?;
    }
    Err(Refusal::PeerFailed)
}

// A dump by way of a piece of memory, and its end.
fn read_dump<S, O, K: Taker<S, O>, I: Input>(
    alloc: Global,
    deltas: bool,
    taker: &mut K,
    piece: &mut [u8],
    store: &mut S,
    output: &mut O,
    input: &mut I,
) -> Result<(), Refusal>
    requires { 0 < length piece.old }
    ensures ok { OnOk result (TakesDump I.Input K.Taker deltas input.old input.new (place taker.old store.old
        output.old) (place taker.new store.new output.new)) }
    ensures refused { IfErr result (λ e. HaltsDump I.Input K.Taker deltas input.old input.new
        (place taker.old store.old output.old) e (place taker.new store.new output.new)) }
    ensures peer { TellsEither I.Input input.old input.new K.failures output.old output.new result }
{
    let mut reader = new_reader(alloc, deltas);
    read_all(alloc, taker, &mut reader, piece, store, output, input)?;
    if let Err(fault) = reader.finish() {
        return Err(dump_refusal(fault));
    }
    taker.end(store, output)
}

/// Reads a dump piece by piece, and gives its records, and then its end, to who takes them. With `deltas` its texts may
/// be given as deltas (else TextDelta, 9). What is refused of the records, a fault of the text (1 to 10), a failure of a
/// stream (49) and want of memory (70) end it.
pub fn read_stream<S, O, K: Taker<S, O>, I: Input>(
    alloc: Global,
    deltas: bool,
    taker: &mut K,
    store: &mut S,
    output: &mut O,
    input: &mut I,
) -> Result<(), Refusal>
    ensures ok { OnOk result (TakesDump I.Input K.Taker deltas input.old input.new (place taker.old store.old
        output.old) (place taker.new store.new output.new)) }
    ensures refused { IfErr result (λ e. HaltsDump I.Input K.Taker deltas input.old input.new
        (place taker.old store.old output.old) e (place taker.new store.new output.new)) }
    ensures peer { TellsEither I.Input input.old input.new K.failures output.old output.new result }
{
    match Vec::from_elem(alloc, 0u8, PIECE) {
        Ok(mut piece) => read_dump(
            alloc,
            deltas,
            taker,
            piece.as_mut_slice(),
            store,
            output,
            input,
        ),
        Err(_) => Err(Refusal::OutOfMemory),
    }
}
