//! What threads do beside a fleet's workers: committers at the master, readers, servers and clients of two mirrors, and who
//! gives the orders.
//! Each answers 0 where all went as it is to, else the number of a refusal that wasn't to come, or that it missed something.

use crate::crowd::{ALL, LOOKS, MISSED, committer, sees};
use crate::crowd_made::token;
use crate::served_crowd::{client, server};
use fleet_disk::MemDisk;
use fleet_jobs::{Order, Work};
use fleet_shares::{Answered, FleetShares, Unheld, run_shared};
use mirror_share::{MirrorName, MirrorShare};
use node_base::RevNo;
use std::alloc::Global;
use std::net::{Net, TcpListener, TcpStream};
use std::process::Abort;
use std::sync::atomic::{AtomicU64, Ordering};
use std::sync::{Arc, Wait};
use std::thread;
use std::thread::Threads;
use std::time::Clock;
use store_share::RowName;

// How many workers the fleet has, and how many orders each mirror's two jobs get.
const WORKERS: usize = 4;

const ORDERS: usize = 40;

// The order of that place: two jobs at one mirror and two at the other, in turn.
fn order_at(rt: &impl Abort, alloc: Global, place: usize) -> Order {
    let name: &[u8] = if place % 2 == 0 { b"a" } else { b"b" };
    Order {
        mirror: mirror_of(place),
        work: Work::Sync { steal: false },
        token: token(rt, alloc, name),
    }
}

// The mirror's slot of the order in that place.
fn mirror_of(place: usize) -> usize {
    (place / 2) % 2
}

fn orders(rt: &impl Abort, alloc: Global) -> Vec<Order> {
    let mut orders = Vec::new(alloc);
    for place in 0..ORDERS {
        orders.push(order_at(rt, alloc, place)).expect(rt, "memory");
    }
    orders
}

// Whether a reader reads that revision of a mirror without the lock, and finds the newest no less.
fn reads<R: Wait + Abort, L: MirrorName>(
    rt: &R,
    alloc: Global,
    share: &Option<MirrorShare<L, MemDisk>>,
    told: RevNo,
) -> bool {
    match share {
        Some(share) => {
            let mut reader = share.enter_reader(rt, alloc).expect(rt, "a seat");
            sees(rt, share, &mut reader, told, told).is_some()
        }
        None => false,
    }
}

// What is amiss with the answer of an order: its job brought the mirror up to a revision that is read there, or met
// another job, which holds the lock (54) or runs under its token (55).
fn amiss<R: Wait + Abort, L: MirrorName>(
    rt: &R,
    alloc: Global,
    share: &Option<MirrorShare<L, MemDisk>>,
    answer: &Answered,
) -> u8 {
    match answer {
        Ok(head) => {
            if reads(rt, alloc, share, *head) {
                0
            } else {
                MISSED
            }
        }
        Err(fault) => match fault.number() {
            54 => 0,
            55 => 0,
            other => other,
        },
    }
}

// The first answer that is amiss, 0 where none is and each order has one.
fn judged<
    R: Wait + Abort,
    M: RowName,
    L0: MirrorName,
    L1: MirrorName,
    L2: MirrorName,
    L3: MirrorName,
>(
    rt: &R,
    alloc: Global,
    shares: &FleetShares<M, L0, L1, L2, L3, MemDisk>,
    answers: &[Answered],
) -> u8 {
    if answers.len() != ORDERS {
        return MISSED;
    }
    for place in 0..answers.len() {
        let number = match mirror_of(place) {
            0 => amiss(rt, alloc, &shares.first, &answers[place]),
            _ => amiss(rt, alloc, &shares.second, &answers[place]),
        };
        if number != 0 {
            return number;
        }
    }
    0
}

// Gives the orders to a fleet, and tells that they are done.
fn giver<
    R: Threads + Wait + Abort + Clone + Send + Drop + 'static,
    M: RowName + Send + Sync + 'static,
    L0: MirrorName + Send + Sync + 'static,
    L1: MirrorName + Send + Sync + 'static,
    L2: MirrorName + Send + Sync + 'static,
    L3: MirrorName + Send + Sync + 'static,
>(
    rt: &R,
    alloc: Global,
    shares: &Arc<FleetShares<M, L0, L1, L2, L3, MemDisk>>,
    done: &AtomicU64,
) -> u8 {
    let number = match run_shared(rt, alloc, shares, orders(rt, alloc), WORKERS, Unheld) {
        Ok(answers) => judged(rt, alloc, &**shares, answers.as_slice()),
        Err(_) => 70,
    };
    done.store(1, Ordering::SeqCst);
    number
}

// A reader of a mirror until the orders are done: its newest revision never falls, and is read without the lock.
fn watches<R: Wait + Abort, L: MirrorName>(
    rt: &R,
    alloc: Global,
    share: &MirrorShare<L, MemDisk>,
    done: &AtomicU64,
) -> u8 {
    let mut reader = share.enter_reader(rt, alloc).expect(rt, "a seat");
    let mut last = RevNo::ZERO;
    for _ in 0..LOOKS {
        let is_over = done.load(Ordering::SeqCst) == 1;
        match sees(rt, share, &mut reader, last, last) {
            Some(newest) => last = newest,
            None => return MISSED,
        }
        if is_over {
            return 0;
        }
        thread::yield_now();
    }
    MISSED
}

fn watcher<R: Wait + Abort, L: MirrorName>(
    rt: &R,
    alloc: Global,
    share: &Option<MirrorShare<L, MemDisk>>,
    done: &AtomicU64,
) -> u8 {
    match share {
        Some(share) => watches(rt, alloc, share, done),
        None => MISSED,
    }
}

/// How many threads there are beside the workers.
pub(crate) const THREADS: usize = 14;

/// What the thread of that place does: three committers; two readers, a server and its two clients at each mirror; and who
/// gives the orders. The servers listen on these ports.
pub(crate) fn does<
    R: Net<Listener = TcpListener, Stream = TcpStream>
        + Threads
        + Wait
        + Abort
        + Clock
        + Clone
        + Send
        + Sync
        + Drop
        + 'static,
    M: RowName + Send + Sync + 'static,
    L0: MirrorName + Send + Sync + 'static,
    L1: MirrorName + Send + Sync + 'static,
    L2: MirrorName + Send + Sync + 'static,
    L3: MirrorName + Send + Sync + 'static,
>(
    rt: &R,
    alloc: Global,
    shares: &Arc<FleetShares<M, L0, L1, L2, L3, MemDisk>>,
    done: &AtomicU64,
    ports: &[u16; 2],
    place: usize,
) -> u8 {
    match place {
        0 => committer(rt, alloc, &shares.master, b'a'),
        1 => committer(rt, alloc, &shares.master, b'b'),
        2 => committer(rt, alloc, &shares.master, b'c'),
        3 => watcher(rt, alloc, &shares.first, done),
        4 => watcher(rt, alloc, &shares.first, done),
        5 => watcher(rt, alloc, &shares.second, done),
        6 => watcher(rt, alloc, &shares.second, done),
        7 => server(rt, alloc, &shares.first, ports[0]),
        8 => server(rt, alloc, &shares.second, ports[1]),
        9 => client(rt, alloc, &shares.first, ports[0]),
        10 => client(rt, alloc, &shares.first, ports[0]),
        11 => client(rt, alloc, &shares.second, ports[1]),
        12 => client(rt, alloc, &shares.second, ports[1]),
        _ => giver(rt, alloc, shares, done),
    }
}

// An order for each mirror, which takes a lock that stands.
fn last_orders(rt: &impl Abort, alloc: Global) -> Vec<Order> {
    let mut orders = Vec::new(alloc);
    for mirror in 0..2usize {
        orders
            .push(Order {
                mirror,
                work: Work::Sync { steal: true },
                token: token(rt, alloc, b"z"),
            })
            .expect(rt, "memory");
    }
    orders
}

// Whether both answers tell all that the committers made.
fn are_whole(answers: &[Answered]) -> bool {
    if answers.len() != 2 {
        return false;
    }
    is_whole(&answers[0]) && is_whole(&answers[1])
}

fn is_whole(answer: &Answered) -> bool {
    match answer {
        Ok(head) => *head == RevNo::new(ALL),
        Err(_) => false,
    }
}

/// Whether one more job at each mirror, which steals, brings it up to all that the committers made.
pub(crate) fn brings_up<
    R: Threads + Wait + Abort + Clone + Send + Drop + 'static,
    M: RowName + Send + Sync + 'static,
    L0: MirrorName + Send + Sync + 'static,
    L1: MirrorName + Send + Sync + 'static,
    L2: MirrorName + Send + Sync + 'static,
    L3: MirrorName + Send + Sync + 'static,
>(rt: &R, alloc: Global, shares: &Arc<FleetShares<M, L0, L1, L2, L3, MemDisk>>) -> bool {
    match run_shared(rt, alloc, shares, last_orders(rt, alloc), 2, Unheld) {
        Ok(answers) => are_whole(answers.as_slice()),
        Err(_) => false,
    }
}
