//! Three committers at a master, a fleet whose workers run two jobs at each of two mirrors of it, and of each mirror two
//! readers, a server and two clients over sockets, all at once.

ghost use Rattle.std.specs.Prelude.{◌≡◌, IfSome};
ghost use Rattle.mirror_share.specs.Names.{IsNamed};
ghost use Rattle.store_share.specs.Opened.{cells_of};

use crate::crowd::{ALL, begins};
use crate::crowd_made::{MIRROR, blank_disk, mirror_on, opened};
use crate::fleet_crowd::{THREADS, brings_up, does};
use crate::fronts::front_of;
use crate::served_crowd::free_ports;
use crate::stores::MASTER;
use fleet_disk::MemDisk;
use fleet_shares::{FleetShares, FleetStores, OpenedFleet, stores_of};
use mirror_share::{MirrorName, MirrorShare};
use node_base::RevNo;
use repo_store::RepoStore;
use std::alloc::Global;
use std::marker::Brand;
use std::net::{Net, TcpListener, TcpStream};
use std::process::Abort;
use std::rt::HostRuntime;
use std::sync::atomic::AtomicU64;
use std::sync::{Arc, Wait};
use std::thread;
use std::thread::Threads;
use std::time::Clock;
use store_share::RowName;

// Makes the mirror of a slot one of the master.
fn begins_in<R: Wait + Abort, L: MirrorName>(
    rt: &R,
    alloc: Global,
    share: &Option<MirrorShare<L, MemDisk>>,
) -> bool {
    match share {
        Some(share) => begins(rt, alloc, share),
        None => false,
    }
}

// The first answer of a thread that isn't as it is to be, 0 where all are.
fn goes<
    R: Net<Listener = TcpListener, Stream = TcpStream>
        + Threads
        + Wait
        + Abort
        + Clock
        + Clone
        + Send
        + Sync
        + Drop
        + 'static,
    M: RowName + Send + Sync + 'static,
    L0: MirrorName + Send + Sync + 'static,
    L1: MirrorName + Send + Sync + 'static,
    L2: MirrorName + Send + Sync + 'static,
    L3: MirrorName + Send + Sync + 'static,
>(rt: &R, alloc: Global, shares: &Arc<FleetShares<M, L0, L1, L2, L3, MemDisk>>) -> u8 {
    let done = AtomicU64::new(0);
    let ports = free_ports(rt);
    let answers = thread::map_indices(
        rt,
        alloc,
        THREADS,
        &|i| does(rt, alloc, shares, &done, &ports, i),
    )
    .expect(rt, "threads");
    for answer in answers.iter() {
        if *answer != 0 {
            return *answer;
        }
    }
    0
}

// Whether all goes well over opened stores under the names of their rows, which come back as stores.
fn together<
    R: Net<Listener = TcpListener, Stream = TcpStream>
        + Threads
        + Wait
        + Abort
        + Clock
        + Clone
        + Send
        + Sync
        + Drop
        + 'static,
    M: RowName + Send + Sync + 'static,
    L0: MirrorName + Send + Sync + 'static,
    L1: MirrorName + Send + Sync + 'static,
    L2: MirrorName + Send + Sync + 'static,
    L3: MirrorName + Send + Sync + 'static,
>(rt: &R, alloc: Global, fleet: OpenedFleet<MemDisk>) -> (FleetStores<MemDisk>, bool)
    requires master { cells_of fleet.master ≡ M.cells }
    requires first { IfSome fleet.first (λ o. IsNamed o L0.cells L0.merged L0.copying L0.head L0.holder) }
    requires second { IfSome fleet.second (λ o. IsNamed o L1.cells L1.merged L1.copying L1.head L1.holder) }
    requires third { IfSome fleet.third (λ o. IsNamed o L2.cells L2.merged L2.copying L2.head L2.holder) }
    requires fourth { IfSome fleet.fourth (λ o. IsNamed o L3.cells L3.merged L3.copying L3.head L3.holder) }
{
    let shares = FleetShares::<M, L0, L1, L2, L3, MemDisk>::of(alloc, fleet);
    let begun = begins_in(rt, alloc, &shares.first) && begins_in(rt, alloc, &shares.second);
    let shares = match Arc::new(alloc, shares) {
        Ok(shares) => shares,
        Err(_failed) => rt.abort(),
    };
    let is_well = begun && goes(rt, alloc, &shares) == 0 && brings_up(rt, alloc, &shares);
    (stores_of(rt, shares), is_well)
}

// Whether the mirror of a slot has all that the committers made.
fn has_all(
    alloc: Global,
    mirror: &Option<RepoStore<MemDisk>>,
    master: &RepoStore<MemDisk>,
) -> bool {
    match mirror {
        Some(mirror) => front_of(alloc, mirror, master) == Some(RevNo::new(ALL)),
        None => false,
    }
}

// Whether both mirrors of a fleet, and its master, have all that the committers made.
fn have_all(alloc: Global, stores: FleetStores<MemDisk>) -> bool {
    let head = stores.master.repo().head() == RevNo::new(ALL);
    let both = has_all(alloc, &stores.first, &stores.master)
        && has_all(alloc, &stores.second, &stores.master);
    drop(stores);
    head && both
}

// Whether a fleet's jobs bring two mirrors up beside committers and readers.
fn is_brought_up<
    R: Net<Listener = TcpListener, Stream = TcpStream>
        + Threads
        + Wait
        + Abort
        + Clock
        + Clone
        + Send
        + Sync
        + Drop
        + 'static,
>(rt: &R, alloc: Global) -> bool {
    let fleet = OpenedFleet {
        master: opened(rt, alloc, blank_disk(rt, alloc, MASTER)),
        first: Some(mirror_on(rt, alloc, blank_disk(rt, alloc, MIRROR))),
        second: Some(mirror_on(rt, alloc, blank_disk(rt, alloc, MIRROR))),
        third: None,
        fourth: None,
    };
    let (stores, is_well) = together::<R, Brand, Brand, Brand, Brand, Brand>(rt, alloc, fleet);
    have_all(alloc, stores) && is_well
}

#[test]
fn a_fleet_brings_two_mirrors_up_amid_a_crowd(rt: HostRuntime) {
    assert!(rt; is_brought_up(&rt, rt.alloc()));
}
