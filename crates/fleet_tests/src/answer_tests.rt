//! What a caller knows of an outcome by the contracts alone.

ghost use Rattle.std.specs.Prelude.{◌≡◌, IfSome, IsErr};

use crate::orders::{Open, Plain, order};
use fleet_jobs::{Fleet, Order, Outcome, Work};
use std::alloc::Global;
use std::rt::HostRuntime;
use std::sync::Wait;
use std::thread::Threads;

// What comes of one order on the mirror that isn't initialized: a refusal, whatever else. None where it isn't accepted.
fn refused<R: Threads + Wait + Clone + Send + Drop + 'static>(
    rt: &R,
    alloc: Global,
    order: Order,
) -> Option<Outcome>
    requires { order.mirror ≡ 2 }
    ensures { IfSome result (λ o. IsErr o.result) }
{
    let Ok(mut fleet) = Fleet::start(rt, alloc, Plain, 1, Open) else {
        return None;
    };
    let given = fleet.give(rt, order);
    let ended = fleet.finish(rt);
    if given.is_err() {
        return None;
    }
    let Ok(outcomes) = ended else {
        return None;
    };
    let mut outcomes = outcomes;
    outcomes.pop()
}

#[test]
fn an_order_on_a_new_mirror_is_refused(rt: HostRuntime) {
    let alloc = rt.alloc();
    let order = order(alloc, 2, Work::Sync { steal: false }, 3).expect(&rt, "memory");
    let number = match refused(&rt, alloc, order) {
        Some(outcome) => match outcome.result {
            Ok(_) => 0,
            Err(fault) => fault.number(),
        },
        None => 0,
    };
    assert_eq!(rt; number, 51);
}
