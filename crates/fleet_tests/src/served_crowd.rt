//! Servers of mirrors that a fleet brings up, and their clients, which are mirrors of these. Each answers 0 where all went as
//! it is to, else the number of a refusal that wasn't to come, or that it missed something.

use crate::crowd::{LOOKS, MISSED};
use crate::crowd_made::{MIRROR, token, value};
use crate::fronts::are_same_sets;
use crate::stores::created;
use byte_streams::MemOutput;
use fleet_disk::MemDisk;
use mirror_engines::Work;
use mirror_share::{MirrorName, MirrorShare};
use node_base::{Refusal, RevNo};
use repo_store::RepoStore;
use sockets::{Limits, Peer, Server, Teller, Trouble};
use std::alloc::Global;
use std::net::{Net, TcpListener, TcpStream};
use std::process::Abort;
use std::sync::Wait;
use std::thread;
use std::thread::Threads;
use std::time::{Clock, Duration};
use svn_ends::{Source, run_work_from};
use svn_server::{Address, serve_mirror};

// How many clients each server has, and how many runs each of them makes, over a connection each.
const CLIENTS: u64 = 2;

const RUNS: u64 = 8;

// The most writes of a client's output.
const WRITES: u64 = 1_000_000;

// Seconds that a read or a write waits.
const PATIENCE: u64 = 60;

// What goes wrong in a session is told by its client.
#[derive(Drop)]
struct Silent;

impl Teller for Silent {
    fn tell(&self, _trouble: Trouble) {}
}

// A port of this machine on which nobody else listens.
fn bound<R: Net<Listener = TcpListener, Stream = TcpStream> + Abort>(rt: &R) -> Server {
    match Server::bind(rt, 0) {
        Ok(server) => server,
        Err(_) => rt.abort(),
    }
}

/// Two ports of this machine on which nobody listens.
pub(crate) fn free_ports<R: Net<Listener = TcpListener, Stream = TcpStream> + Abort>(
    rt: &R,
) -> [u16; 2] {
    let (one, other) = (bound(rt), bound(rt));
    [one.port(), other.port()]
}

/// Serves a mirror until all runs of its clients are over.
pub(crate) fn server<
    R: Net<Listener = TcpListener, Stream = TcpStream> + Threads + Wait + Clock + Sync + Abort,
    L: MirrorName + Send + Sync,
>(rt: &R, alloc: Global, share: &Option<MirrorShare<L, MemDisk>>, port: u16) -> u8 {
    let Some(share) = share else { rt.abort() };
    let address = Address {
        port,
        root_url: None,
        browse: false,
    };
    let limits = Limits {
        connections: CLIENTS * RUNS,
        patience: Duration::from_secs(PATIENCE),
    };
    let mut said = Vec::new(alloc);
    match serve_mirror(rt, alloc, share, &address, limits, &Silent, &mut said) {
        Ok(()) => 0,
        Err(_) => rt.abort(),
    }
}

// One run over a server, for which it waits until it listens.
fn runs_once<R: Net<Stream = TcpStream> + Wait + Abort>(
    rt: &R,
    alloc: Global,
    mirror: RepoStore<MemDisk>,
    port: u16,
    begins: bool,
) -> (RepoStore<MemDisk>, u8) {
    let url = format!(in alloc; "svn://127.0.0.1:{port}/").expect(rt, "memory");
    let peer = Peer {
        port,
        patience: Duration::from_secs(PATIENCE),
    };
    let mut mirror = mirror;
    for _ in 0..LOOKS {
        let work = if begins {
            Work::Initialize {
                url: value(rt, alloc, url.as_bytes()),
            }
        } else {
            Work::Synchronize {
                token: token(rt, alloc, b"client"),
                steal: false,
            }
        };
        let output = MemOutput::new(alloc, WRITES);
        let source = Source {
            peer,
            url: url.as_bytes(),
            deltas: false,
        };
        let (store, _output, done) = run_work_from(rt, alloc, mirror, source, work, output);
        mirror = store;
        match done {
            Ok(()) => return (mirror, 0),
            Err(Refusal::PeerFailed) => thread::yield_now(),
            Err(refusal) => return (mirror, refusal.number()),
        }
    }
    (mirror, MISSED)
}

// Whether a mirror has the revisions that the share shows, up to its own head.
fn has_shown<R: Wait + Abort, L: MirrorName>(
    rt: &R,
    alloc: Global,
    share: &MirrorShare<L, MemDisk>,
    mirror: &RepoStore<MemDisk>,
) -> bool {
    let mut reader = share.enter_reader(rt, alloc).expect(rt, "a seat");
    let head = mirror.repo().head();
    for i in 0..head.get() {
        let number = RevNo::new(i + 1);
        let (Some(shown), Some(set)) = (
            share.read_at(&mut reader, number),
            mirror.repo().set(number),
        ) else {
            return false;
        };
        if !are_same_sets(&shown.set, set) {
            return false;
        }
    }
    true
}

// The runs of a client: none is refused, and none takes revisions back. A run that is refused would leave the server
// waiting, so it ends all.
fn goes_up<R: Net<Stream = TcpStream> + Wait + Abort>(
    rt: &R,
    alloc: Global,
    port: u16,
) -> RepoStore<MemDisk> {
    let mut mirror = created(rt, alloc, MIRROR);
    for i in 0..RUNS {
        let before = mirror.repo().head();
        let (store, number) = runs_once(rt, alloc, mirror, port, i == 0);
        if number != 0 || store.repo().head() < before {
            rt.abort()
        }
        mirror = store;
    }
    mirror
}

/// A client of a mirror's server, which is a mirror of that mirror.
pub(crate) fn client<R: Net<Stream = TcpStream> + Wait + Abort, L: MirrorName>(
    rt: &R,
    alloc: Global,
    share: &Option<MirrorShare<L, MemDisk>>,
    port: u16,
) -> u8 {
    let mirror = goes_up(rt, alloc, port);
    let Some(share) = share else {
        return MISSED;
    };
    let is_right = has_shown(rt, alloc, share, &mirror);
    drop(mirror);
    if is_right { 0 } else { MISSED }
}
