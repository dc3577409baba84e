//! A folder's repository that is served to Subversion's clients.
ghost use Rattle.std.specs.Prelude.{◌≡◌, ◌⊎◌, false, Ok, IfErr, OnOk, string_bytes};
ghost use Rattle.std.specs.Option.{option_map};
ghost use Rattle.std.specs.Io.KnownBytes.{Appends};
ghost use Rattle.byte_streams.specs.Sinks.{inner_of};
ghost use Rattle.repo_store.specs.Words.{revisions_of, IfSound, StopKeeps};
ghost use Rattle.sockets.specs.Lines.{listening};
ghost use Rattle.store_engines.specs.Mirrors.{is_mirror};
ghost use Rattle.svn_server.specs.Served.{IsOfStore};
ghost use Rattle.svn_server.specs.Serving.{IsServerFault};
ghost use Rattle.svn_server.specs.Serving.{DeliversService, DoesService, EndsService, FailsAtService, RefusesService};
ghost use Rattle.svn_server.specs.Serving.{RefusesServing, ServesIn, SucceedsAtService};
ghost use Rattle.fleet_main.specs.Making.{PathsStay};

use crate::server::{Address, serve_store};
use byte_streams::{Output, Sink, has_failed_since};
use command_words::Service;
use fleet_disk::Disk;
use fleet_engines::hand_on;
use fleet_main::{Folders, opened, refused};
use node_base::Refusal;
use repo_store::RepoStore;
use sockets::{Limits, SocketFault, Teller};
use std::alloc::Global;
use std::net::{Net, TcpListener, TcpStream};
use std::sync::Wait;
use std::thread::Threads;
use std::time::{Clock, Duration};
use store_engines::is_mirror;

// Whether a store's repository takes no changes, being a mirror.
fn takes_none<D: Disk + Drop>(store: &RepoStore<D>) -> bool
    ensures mirror { result ≡ is_mirror (revisions_of store.now) }
    ensures kept { IfSound store.now (StopKeeps store.now) }
{
    is_mirror(store.repo())
}

// The refusal that a server's fault is.
fn socket_refusal(fault: SocketFault) -> Refusal
    ensures { IsServerFault result }
{
    match fault {
        SocketFault::PeerFailed => Refusal::PeerFailed,
        SocketFault::OutOfMemory => Refusal::OutOfMemory,
    }
}

// A server's answer, where its output has failed meanwhile or not.
fn answer_of(done: Result<(), SocketFault>, failed: bool) -> Result<(), Refusal>
    ensures ok { OnOk result (done ≡ Ok tt) }
    ensures unfailed { OnOk result (failed ≡ false) }
    ensures refused { IfErr result IsServerFault }
{
    match done {
        Ok(()) => {
            if failed {
                return Err(Refusal::PeerFailed);
            }
            Ok(())
        }
        Err(fault) => Err(socket_refusal(fault)),
    }
}

// Where words ask a server to be for its clients.
fn address_of(service: &Service) -> Address<'_>
    ensures port { result.port ≡ service.now.port }
    ensures root { option_map (λ root. root.now) result.root_url ≡ option_map string_bytes service.now.root_url }
    ensures browse { result.browse ≡ service.now.browse }
{
    let port = service.port;
    let browse = service.browse;
    match &service.root_url {
        Some(root) => Address {
            port,
            root_url: Some(root.as_str()),
            browse,
        },
        None => Address {
            port,
            root_url: None,
            browse,
        },
    }
}

// Whether an output that was lent to code that knows std's writers alone may have failed since it had failed so often.
fn may_have_failed<O: Output + Drop>(sink: Sink<O>, before: u64) -> (O, bool)
    ensures back { result.0 ≡ inner_of sink }
    ensures stood { result.1 ≡ false → O.failures result.0 ≡ before }
{
    let kept = sink.answered(before, Ok(()));
    let output = sink.into_inner();
    match kept {
        Ok(()) => {
            let failed = has_failed_since(&output, before);
            (output, failed)
        }
        Err(_) => (output, true),
    }
}

// Serves a store, a mirror read-only. The output comes back.
fn serve_opened<
    R: Net<Listener = TcpListener, Stream = TcpStream> + Threads + Wait + Clock + Sync,
    D: Disk + Drop + Send,
    O: Output + Drop,
    T: Teller + Sync,
>(
    rt: &R,
    alloc: Global,
    store: RepoStore<D>,
    address: &Address<'_>,
    limits: Limits,
    teller: &T,
    output: O,
) -> (D, O, Result<(), Refusal>)
    ensures told { OnOk result.2 (Appends (O.contents output) (O.contents result.1) (listening address.now.port)) }
    ensures back { IsOfStore D.Disk result.0 }
    ensures kept { IfSound store (StopKeeps store) }
    ensures refused { IfErr result.2 IsServerFault }
    ensures unfailed { OnOk result.2 (O.failures result.1 ≡ O.failures output) }
{
    let mirror = takes_none(&store);
    let mut sink = Sink::new(output);
    let before = sink.begin();
    let (disk, done) = serve_store(rt, alloc, store, mirror, address, limits, teller, &mut sink);
    let (output, failed) = may_have_failed(sink, before);
    (disk, output, answer_of(done, failed))
}

fn serve_folder<
    R: Net<Listener = TcpListener, Stream = TcpStream> + Threads + Wait + Clock + Sync,
    F: Folders,
    O: Output + Drop,
    T: Teller + Sync,
>(
    rt: &R,
    alloc: Global,
    folders: &mut F,
    folder: &str,
    address: &Address<'_>,
    limits: Limits,
    teller: &T,
    output: O,
) -> (O, Result<(), Refusal>)
where
    F::Place: Send,
    ensures done { ServesIn F.Place.Disk F.Folders O.Output folders.old folders.new output result.0 folder.now
        address.now.port result.1 }
    ensures refused { RefusesServing F.Place.Disk F.Folders O.Output folders.old folders.new output result.0 folder.now
        result.1 }
    ensures unfailed { OnOk result.1 (O.failures result.0 ≡ O.failures output) }
    ensures paths { PathsStay F.lacks F.lasts folders.old folders.new }
{
    match opened(alloc, folders, folder) {
        Ok(store) => {
            let (disk, output, done) = serve_opened(
                rt, alloc, store, address, limits, teller, output,
            );
            folders.close(folder, disk);
            (output, done)
        }
        Err(refusal) => (output, Err(refusal)),
    }
}

// By what words ask for.
fn serve_asked<
    R: Net<Listener = TcpListener, Stream = TcpStream> + Threads + Wait + Clock + Sync,
    F: Folders,
    O: Output + Drop,
    T: Teller + Sync,
>(
    rt: &R,
    alloc: Global,
    folders: &mut F,
    service: &Service,
    teller: &T,
    output: O,
) -> (O, Result<(), Refusal>)
where
    F::Place: Send,
    ensures done { DoesService F.Place.Disk F.Folders O.Output folders.old folders.new output result.0 service.now
        result.1 }
    ensures refused { RefusesService F.Place.Disk F.Folders O.Output folders.old folders.new output result.0 service.now
        result.1 }
    ensures unfailed { OnOk result.1 (O.failures result.0 ≡ O.failures output) }
    ensures paths { PathsStay F.lacks F.lasts folders.old folders.new }
{
    let folder = service.folder.as_str();
    let address = address_of(service);
    let limits = Limits {
        connections: u64::from(service.connections),
        patience: Duration::from_secs(u64::from(service.seconds)),
    };
    serve_folder(rt, alloc, folders, folder, &address, limits, teller, output)
}

// The server's answer, when what it wrote is handed on.
fn serve_flushed<
    R: Net<Listener = TcpListener, Stream = TcpStream> + Threads + Wait + Clock + Sync,
    F: Folders,
    O: Output + Drop,
    T: Teller + Sync,
>(
    rt: &R,
    alloc: Global,
    folders: &mut F,
    service: &Service,
    teller: &T,
    output: O,
) -> (O, Result<(), Refusal>)
where
    F::Place: Send,
    ensures done { DeliversService F.Place.Disk F.Folders O.Output folders.old folders.new output result.0 service.now
        result.1 }
    ensures refused { EndsService F.Place.Disk F.Folders O.Output folders.old folders.new output result.0 service.now
        result.1 }
    ensures handed { OnOk result.1 (O.is_handed_on result.0) }
    ensures unfailed { OnOk result.1 (O.failures result.0 ≡ O.failures output) }
    ensures paths { PathsStay F.lacks F.lasts folders.old folders.new }
{
    let (output, done) = serve_asked(rt, alloc, folders, service, teller, output);
    let mut output = output;
    let flushed = hand_on(&mut output);
    match done {
        Ok(()) => (output, flushed),
        Err(refusal) => (output, Err(refusal)),
    }
}

/// Serves a folder's repository over ra_svn on a port of 127.0.0.1, a thread for each connection, and returns once so
/// many have ended. It says where it listens in a line; a mirror takes no changes. The status is 0, or 1 where it was
/// refused, and then the refusal's line is on `errors`: what refuses an opening, PeerFailed (49) where it can't listen
/// there or can't say so, OutOfMemory (70). A session that ends badly ends itself alone. What the device or want of
/// memory refused in a session is told to the teller when that has ended, and so is that a connection can't be accepted;
/// each kind once a minute. `errors` has no part in that. The output comes back.
///
/// Of honest folders it says besides what repository the folder's disk kept, that a stop left it as the server began, and
/// that the folder has a store's disk again in the end, and every other folder what it had. What clients were told and
/// what they changed no clause says.
pub fn serve<
    R: Net<Listener = TcpListener, Stream = TcpStream> + Threads + Wait + Clock + Sync,
    F: Folders,
    O: Output + Drop,
    E: Output,
    T: Teller + Sync,
>(
    rt: &R,
    alloc: Global,
    folders: &mut F,
    service: &Service,
    teller: &T,
    output: O,
    errors: &mut E,
) -> (u8, O)
where
    F::Place: Send,
    ensures status { (result.0 ≡ 0) ⊎ (result.0 ≡ 1) }
    ensures paths { PathsStay F.lacks F.lasts folders.old folders.new }
    ensures done { SucceedsAtService F.Place.Disk F.Folders O.Output folders.old folders.new output result.1 service.now
        result.0 }
    ensures handed { result.0 ≡ 0 → O.is_handed_on result.1 }
    ensures unfailed { result.0 ≡ 0 → O.failures result.1 ≡ O.failures output }
    ensures silent { result.0 ≡ 0 → E.contents errors.new ≡ E.contents errors.old }
    ensures refused { FailsAtService F.Place.Disk F.Folders O.Output E.Output folders.old folders.new output result.1
        errors.old errors.new service.now result.0 }
{
    let (output, done) = serve_flushed(rt, alloc, folders, service, teller, output);
    match done {
        Ok(()) => (0, output),
        Err(refusal) => (refused(&refusal, errors), output),
    }
}
