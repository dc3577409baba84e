//! Growths that are refused: each test here answers for a refusal itself, at whatever growth it comes.

use crate::orders::{Open, Plain, is_right, numbered};
use fleet_jobs::{Fleet, Outcome};
use std::alloc::Global;
use std::rt::HostRuntime;
use std::sync::Wait;
use std::thread::Threads;

// Gives up to ten orders by their numbers, up to the first that is refused. How many were accepted; None where what
// came back isn't the order, or where it was refused with another number.
fn give_some<R: Wait>(rt: &R, alloc: Global, fleet: &mut Fleet<Plain>) -> Option<usize> {
    for number in 0..10usize {
        let Some(order) = numbered(alloc, number) else {
            return Some(number);
        };
        match fleet.give(rt, order) {
            Ok(given) => {
                if given != number as u64 {
                    return None;
                }
            }
            Err(back) => {
                let is_same = back.order.token.as_bytes().len() == number % 7 + 1;
                let fault = back.fault.number();
                return (is_same && (fault == 70 || fault == 32)).then_some(number);
            }
        }
    }
    Some(10)
}

// Whether each of them is what comes of the order of its place.
fn are_first(outcomes: &[Outcome]) -> bool {
    let mut number = 0usize;
    for outcome in outcomes {
        if number >= 10 || !is_right(outcome, number) {
            return false;
        }
        number += 1;
    }
    true
}

// Whether each order that was accepted has its outcome, or the first ones have and the rest is told as unfinished.
fn loses_nothing<R: Threads + Wait + Clone + Send + Drop + 'static>(
    rt: &R,
    alloc: Global,
    workers: usize,
) -> bool {
    let Ok(mut fleet) = Fleet::start(rt, alloc, Plain, workers, Open) else {
        return true;
    };
    let accepted = give_some(rt, alloc, &mut fleet);
    let ended = fleet.finish(rt);
    let Some(accepted) = accepted else {
        return false;
    };
    match ended {
        Ok(outcomes) => outcomes.len() == accepted && are_first(&outcomes),
        Err(left) => {
            left.number() == 32 && left.outcomes.len() < accepted && are_first(&left.outcomes)
        }
    }
}

#[test]
fn one_worker_loses_no_order(rt: HostRuntime) {
    assert!(rt; loses_nothing(&rt, rt.alloc(), 1));
}

#[test]
fn two_workers_lose_no_order(rt: HostRuntime) {
    assert!(rt; loses_nothing(&rt, rt.alloc(), 2));
}
