//! Orders that are given, and their outcomes.

use crate::orders::{Open, Plain, are_right, numbered, order};
use fleet_jobs::{Fleet, FleetFault, Order, Refused, StartGate, Work};
use node_base::Refusal;
use std::alloc::Global;
use std::process::Abort;
use std::rt::HostRuntime;
use std::sync::Wait;
use std::thread;
use std::thread::Threads;
use std::time::{Clock, Duration};

// The order of that number.
fn made(rt: &impl Abort, alloc: Global, number: usize) -> Order {
    numbered(alloc, number).expect(rt, "memory")
}

// Gives so many orders by their numbers. True where each got its own.
fn give_numbered<R: Wait + Abort>(
    rt: &R,
    alloc: Global,
    fleet: &mut Fleet<Plain>,
    count: usize,
) -> bool {
    let mut all = true;
    for number in 0..count {
        let given = fleet.give(rt, made(rt, alloc, number));
        all = all && given.is_ok_and(|n| n == number as u64);
    }
    all
}

// Whether that many orders over that many workers are answered in order.
fn answers_all<
    R: Threads + Wait + Abort + Clone + Send + Drop + 'static,
    G: StartGate + Send + Sync + Drop + 'static,
>(rt: &R, alloc: Global, gate: G, workers: usize, count: usize) -> bool {
    let mut fleet = Fleet::start(rt, alloc, Plain, workers, gate).expect(rt, "a fleet");
    let given = give_numbered(rt, alloc, &mut fleet, count);
    match fleet.finish(rt) {
        Ok(outcomes) => given && are_right(&outcomes, count),
        Err(_) => false,
    }
}

// Whether what came back is that order, refused with that number.
fn is_back(given: Result<u64, Refused>, number: u8, mirror: usize, len: usize) -> bool {
    match given {
        Ok(_) => false,
        Err(back) => {
            back.fault.number() == number
                && back.order.mirror == mirror
                && back.order.token.as_bytes().len() == len
        }
    }
}

// An order on that slot.
fn order_on(rt: &impl Abort, alloc: Global, mirror: usize, len: usize) -> Order {
    order(alloc, mirror, Work::Sync { steal: true }, len).expect(rt, "memory")
}

// Whether orders on an empty slot, and on one that isn't there, come back, and those before and behind don't.
fn hands_back<R: Threads + Wait + Abort + Clone + Send + Drop + 'static>(
    rt: &R,
    alloc: Global,
) -> bool {
    let mut fleet = Fleet::start(rt, alloc, Plain, 1, Open).expect(rt, "a fleet");
    let first = give_numbered(rt, alloc, &mut fleet, 1);
    let empty = is_back(fleet.give(rt, order_on(rt, alloc, 3, 5)), 34, 3, 5);
    let none = is_back(fleet.give(rt, order_on(rt, alloc, 4, 6)), 34, 4, 6);
    let far = is_back(
        fleet.give(rt, order_on(rt, alloc, usize::MAX, 7)),
        34,
        usize::MAX,
        7,
    );
    let last = fleet
        .give(rt, made(rt, alloc, 1))
        .is_ok_and(|number| number == 1);
    match fleet.finish(rt) {
        Ok(outcomes) => first && empty && none && far && last && are_right(&outcomes, 2),
        Err(_) => false,
    }
}

// Whether a fleet without a worker hands each order back, and ends.
fn refuses_without_worker<R: Threads + Wait + Abort + Clone + Send + Drop + 'static>(
    rt: &R,
    alloc: Global,
) -> bool {
    let mut fleet = Fleet::start(rt, alloc, Plain, 0, Open).expect(rt, "a fleet");
    let back = is_back(fleet.give(rt, order_on(rt, alloc, 0, 4)), 32, 0, 4);
    let again = is_back(fleet.give(rt, order_on(rt, alloc, 2, 255)), 32, 2, 255);
    match fleet.finish(rt) {
        Ok(outcomes) => back && again && outcomes.is_empty(),
        Err(_) => false,
    }
}

// Holds order 0 for a tenth of a second.
#[derive(Drop)]
struct Slow<C: Clock + Drop> {
    clock: C,
}

impl<C: Clock + Drop> StartGate for Slow<C> {
    fn begin(&self, order: u64) {
        if order == 0 {
            thread::sleep(&self.clock, Duration::from_millis(100));
        }
    }

    fn ended(&self, _order: u64) {}
}

#[test]
fn outcomes_come_in_the_order_of_their_numbers(rt: HostRuntime) {
    assert!(rt; answers_all(&rt, rt.alloc(), Open, 3, 100));
}

#[test]
fn one_worker_answers_all(rt: HostRuntime) {
    assert!(rt; answers_all(&rt, rt.alloc(), Open, 1, 10));
}

#[test]
fn nothing_is_answered_where_nothing_is_given(rt: HostRuntime) {
    assert!(rt; answers_all(&rt, rt.alloc(), Open, 4, 0));
}

#[test]
fn giving_waits_while_the_queue_is_full(rt: HostRuntime) {
    let gate = Slow { clock: rt };
    assert!(rt; answers_all(&rt, rt.alloc(), gate, 1, 100));
}

#[test]
fn an_order_without_a_mirror_comes_back(rt: HostRuntime) {
    assert!(rt; hands_back(&rt, rt.alloc()));
}

#[test]
fn without_a_worker_orders_come_back(rt: HostRuntime) {
    assert!(rt; refuses_without_worker(&rt, rt.alloc()));
}

// Whether a fault and its refusal have this number and text.
fn is_told(alloc: Global, fault: FleetFault, number: u8, text: &str) -> bool {
    let refusal = Refusal::from(fault);
    fault.number() == number
        && refusal.number() == number
        && format!(in alloc; "{fault}").is_ok_and(|told| told.as_str() == text)
        && format!(in alloc; "{refusal}").is_ok_and(|told| told.as_str() == text)
}

#[test]
fn refusals_have_their_numbers_and_texts(rt: HostRuntime) {
    let alloc = rt.alloc();
    assert!(rt; is_told(alloc, FleetFault::Failed, 32, "failed before"));
    assert!(rt; is_told(alloc, FleetFault::NoRepository, 34, "no repository"));
    assert!(rt; is_told(alloc, FleetFault::OutOfMemory, 70, "out of memory"));
}
