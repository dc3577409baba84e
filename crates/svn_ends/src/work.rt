//! Runs over a mirror's store and a server.

ghost use Rattle.std.specs.Prelude.{◌≡◌, OnOk};
ghost use Rattle.svn_ends.specs.Runs.{IsOutputFailure, WorksAt, WorksDeltasAt, WorksFrom};

use crate::refusals::{refused, unreached};
use byte_streams::{CountedReader, CountedWriter, Input, Output};
use fleet_disk::Disk;
use mirror_engines::{Work, run_work};
use node_base::Refusal;
use ra_client::{ClientPort, DeltaPort};
use repo_store::RepoStore;
use sockets::{Peer, dial};
use std::alloc::Global;
use std::io::BufWriter;
use std::net::{Net, TcpStream};

/// Bytes that are kept back before they go out: 16 KiB, more than a command has.
const ROOM: usize = 16_384;

/// A repository that a server on a port of 127.0.0.1 has.
#[derive(Drop)]
pub struct Source<'a> {
    /// The port, and how long the server may say nothing.
    pub peer: Peer,
    /// The repository's URL.
    pub url: &'a [u8],
    /// Whether its texts come as differences, as Subversion's own server sends them.
    pub deltas: bool,
}

/// Runs the work over a mirror's store and the repository at that URL of a server on a port of 127.0.0.1, as
/// `mirror_engines::run_work` does. The mirror's store and the output come back as the run has left them, with its
/// answer. Where nobody listens on the port it is PeerFailed (49), and where the server ends the opening of the session
/// MasterFailed (60), as where it refuses later, or says nothing for as long as it may; OutOfMemory (70). In these the
/// mirror stays, and nothing is written.
pub fn run_work_from<R: Net<Stream = TcpStream>, D: Disk + Drop, O: Output + Drop>(
    rt: &R,
    alloc: Global,
    mirror: RepoStore<D>,
    source: Source<'_>,
    work: Work,
    output: O,
) -> (RepoStore<D>, O, Result<(), Refusal>)
    ensures ran { WorksFrom O.Output mirror result.0 output result.1 work result.2 }
    ensures unfailed { OnOk result.2 (O.failures result.1 ≡ O.failures output) }
{
    let Source { peer, url, deltas } = source;
    match dial(rt, peer) {
        Ok(stream) => run_work_on(alloc, mirror, &stream, url, deltas, work, output),
        Err(fault) => (mirror, output, Err(unreached(fault))),
    }
}

// The same over a connection.
fn run_work_on<D: Disk + Drop, O: Output + Drop>(
    alloc: Global,
    mirror: RepoStore<D>,
    stream: &TcpStream,
    url: &[u8],
    deltas: bool,
    work: Work,
    output: O,
) -> (RepoStore<D>, O, Result<(), Refusal>)
    ensures ran { WorksFrom O.Output mirror result.0 output result.1 work result.2 }
    ensures unfailed { OnOk result.2 (O.failures result.1 ≡ O.failures output) }
{
    let Ok(buffer) = BufWriter::with_capacity(alloc, ROOM, stream) else {
        return (mirror, output, Err(Refusal::OutOfMemory));
    };
    let input = CountedReader::new(stream);
    let commands = CountedWriter::new(buffer);
    if deltas {
        return run_deltas_over(alloc, mirror, input, commands, url, work, output);
    }
    run_work_over(alloc, mirror, input, commands, url, work, output)
}

/// The same over any input from a server and any output to it: what is written to it is kept back there, if at all, no
/// longer than until it is flushed. MasterFailed (60) where the opening of the session fails, OutOfMemory (70), and
/// then the mirror stays and nothing is written; else what the run answers.
pub fn run_work_over<D: Disk + Drop, I: Input + Drop, C: Output + Drop, O: Output + Drop>(
    alloc: Global,
    mirror: RepoStore<D>,
    input: I,
    commands: C,
    url: &[u8],
    work: Work,
    output: O,
) -> (RepoStore<D>, O, Result<(), Refusal>)
    ensures ran { WorksAt I.Input C.Output O.Output url.now input commands mirror result.0 output result.1 work
        result.2 }
    ensures unfailed { OnOk result.2 (O.failures result.1 ≡ O.failures output) }
    ensures peer { IsOutputFailure O.Output output result.1 result.2 }
{
    match ClientPort::open(alloc, url, input, commands) {
        Ok(master) => run_work(alloc, mirror, master, work, output),
        Err(fault) => (mirror, output, Err(refused(alloc, fault))),
    }
}

/// What [`run_work_over`] does, where the server sends texts as differences.
pub fn run_deltas_over<D: Disk + Drop, I: Input + Drop, C: Output + Drop, O: Output + Drop>(
    alloc: Global,
    mirror: RepoStore<D>,
    input: I,
    commands: C,
    url: &[u8],
    work: Work,
    output: O,
) -> (RepoStore<D>, O, Result<(), Refusal>)
    ensures ran { WorksDeltasAt I.Input C.Output O.Output url.now input commands mirror result.0 output result.1 work
        result.2 }
    ensures unfailed { OnOk result.2 (O.failures result.1 ≡ O.failures output) }
    ensures peer { IsOutputFailure O.Output output result.1 result.2 }
{
    match DeltaPort::open(alloc, url, input, commands) {
        Ok(port) => run_work(alloc, mirror, port, work, output),
        Err(unopened) => (mirror, output, Err(refused(alloc, unopened))),
    }
}
