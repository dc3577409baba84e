//! The server.

ghost use Rattle.std.specs.Prelude.{◌≡◌};
ghost use Rattle.store_share.specs.Opened.{cells_of};
ghost use Rattle.svn_server.specs.Served.{IsOfStore, SaysWhere};

use crate::talk::{ShareSessions, root_url};
use fleet_disk::Disk;
use mirror_share::{MirrorName, MirrorShare};
use repo_store::RepoStore;
use sockets::{Limits, SocketFault, Teller, Troubles};
use std::alloc::Global;
use std::io::Write;
use std::marker::{Brand, PhantomData};
use std::net::{Net, TcpListener, TcpStream};
use std::sync::Wait;
use std::thread::Threads;
use std::time::Clock;
use store_share::{MasterShare, OpenedStore, RowName};
use svn_ends::ServedShare;

/// Where a server is for its clients.
#[derive(Drop)]
pub struct Address<'a> {
    /// The port of 127.0.0.1 on which it listens.
    pub port: u16,
    /// The URL that they are told as the repository's root, where it isn't that of the port.
    pub root_url: Option<&'a str>,
    /// Whether they read at URLs of their own, as `ra_reader` answers, and don't copy the repository.
    pub browse: bool,
}

/// Serves the repository of a store over ra_svn on the address's port of 127.0.0.1: says so in a line, then serves so
/// many connections, a thread each, and returns once all have ended. As a mirror it takes no changes. The store's disk
/// comes back as the sessions have left it: a stop leaves of it what a store keeps.
///
/// PeerFailed (49) where it can't listen there, or can't say so; OutOfMemory (70) where there is no memory to begin
/// with. A session that ends badly ends itself alone. What the device or want of memory refused in a session is told to
/// the teller when that has ended, and so is that a connection can't be accepted; each kind once a minute.
pub fn serve_store<
    R: Net<Listener = TcpListener, Stream = TcpStream> + Threads + Wait + Clock + Sync,
    D: Disk + Drop + Send,
    W: Write,
    T: Teller + Sync,
>(
    rt: &R,
    alloc: Global,
    store: RepoStore<D>,
    mirror: bool,
    address: &Address<'_>,
    limits: Limits,
    teller: &T,
    output: &mut W,
) -> (D, Result<(), SocketFault>)
    ensures told { SaysWhere W.Write output.old output.new address.now.port result.1 }
    ensures back { IsOfStore D.Disk result.0 }
{
    match OpenedStore::of(alloc, store) {
        Ok(opened) => {
            serve_opened::<R, Brand, D, W, T>(
                rt, alloc, opened, mirror, address, limits, teller, output,
            )
        }
        Err((_fault, store)) => (disk_in(store), Err(SocketFault::OutOfMemory)),
    }
}

// The disk of a store, which keeps what the store has.
fn disk_in<D: Disk + Drop>(store: RepoStore<D>) -> D
    ensures { IsOfStore D.Disk result }
{
    let _repo = store.repo();
    store.into_disk()
}

// Serves an opened store under the name of its row.
fn serve_opened<
    R: Net<Listener = TcpListener, Stream = TcpStream> + Threads + Wait + Clock + Sync,
    L: RowName + Send + Sync,
    D: Disk + Drop + Send,
    W: Write,
    T: Teller + Sync,
>(
    rt: &R,
    alloc: Global,
    opened: OpenedStore<D>,
    mirror: bool,
    address: &Address<'_>,
    limits: Limits,
    teller: &T,
    output: &mut W,
) -> (D, Result<(), SocketFault>)
    requires { cells_of opened ≡ L.cells }
    ensures told { SaysWhere W.Write output.old output.new address.now.port result.1 }
    ensures back { IsOfStore D.Disk result.0 }
{
    let share = opened.named::<L>();
    let answer = serve_share::<R, L, MasterShare<L, D>, W, T>(
        rt, alloc, &share, mirror, address, limits, teller, output,
    );
    let store = share.close().into_store();
    (disk_in(store), answer)
}

/// Serves a mirror's share over ra_svn on the address's port of 127.0.0.1, as `serve_store` serves a store, while its jobs
/// go on: a session reads what the mirror shows, and what it has seen it reads for good, without waiting for a job. It
/// takes no changes.
///
/// PeerFailed (49) where it can't listen there, or can't say so; OutOfMemory (70) where there is no memory to begin
/// with. A session that ends badly ends itself alone, and its trouble is told, as there.
pub fn serve_mirror<
    R: Net<Listener = TcpListener, Stream = TcpStream> + Threads + Wait + Clock + Sync,
    L: MirrorName + Send + Sync,
    D: Disk + Drop + Send,
    W: Write,
    T: Teller + Sync,
>(
    rt: &R,
    alloc: Global,
    share: &MirrorShare<L, D>,
    address: &Address<'_>,
    limits: Limits,
    teller: &T,
    output: &mut W,
) -> Result<(), SocketFault>
    ensures { SaysWhere W.Write output.old output.new address.now.port result }
{
    serve_share::<R, L, MirrorShare<L, D>, W, T>(
        rt, alloc, share, true, address, limits, teller, output,
    )
}

// Serves a share.
fn serve_share<
    R: Net<Listener = TcpListener, Stream = TcpStream> + Threads + Wait + Clock + Sync,
    L: RowName + Send + Sync,
    S: ServedShare<L> + Sync,
    W: Write,
    T: Teller + Sync,
>(
    rt: &R,
    alloc: Global,
    share: &S,
    mirror: bool,
    address: &Address<'_>,
    limits: Limits,
    teller: &T,
    output: &mut W,
) -> Result<(), SocketFault>
    ensures { SaysWhere W.Write output.old output.new address.now.port result }
{
    let Ok(root_url) = root_url(alloc, address) else {
        return Err(SocketFault::OutOfMemory);
    };
    let sessions = ShareSessions {
        of: PhantomData::<L>,
        rt,
        alloc,
        share,
        mirror,
        address,
        root_url: root_url.as_bytes(),
        troubles: Troubles::new(teller),
    };
    sockets::serve(rt, alloc, address.port, limits, &sessions, output)
}
