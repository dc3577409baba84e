//! The runner, the gate and the orders that the tests share.

ghost use Rattle.std.specs.Prelude.{◌≡◌, IfSome};

use fleet_jobs::{Order, Outcome, Runner, StartGate, Work};
use node_base::RevNo;
use std::alloc::Global;
use std::sync::Wait;
use sync_core::{SyncFault, Token};

/// Slots 0 to 2 have a mirror, and that of slot 2 isn't initialized. A synchronisation answers the length of its token
/// as the head, and a copy the last of its revisions.
#[derive(Drop)]
pub(crate) struct Plain;

impl Runner for Plain {
    ghost use Rattle.std.specs.Prelude.{◌≡◌, nat_lt, IsErr};

    ghost has_slot = { λ r mirror. nat_lt mirror 3 };

    ghost may_answer = { λ r order answer. order.mirror ≡ 2 → IsErr answer };

    fn has(&self, mirror: usize) -> bool {
        mirror < 3
    }

    fn run<R: Wait>(&self, _rt: &R, order: &Order) -> Result<RevNo, SyncFault> {
        if order.mirror == 2 {
            return Err(SyncFault::NotInitialised);
        }
        match order.work {
            Work::Sync { .. } => Ok(RevNo::new(order.token.as_bytes().len() as u16)),
            Work::Copy { high, .. } => Ok(high),
        }
    }
}

/// A gate that holds nothing.
#[derive(Drop)]
pub(crate) struct Open;

impl StartGate for Open {
    fn begin(&self, _order: u64) {}

    fn ended(&self, _order: u64) {}
}

/// An order under a token of so many bytes. None where its growth is refused.
pub(crate) fn order(alloc: Global, mirror: usize, work: Work, len: usize) -> Option<Order>
    ensures { IfSome result (λ o. o.mirror ≡ mirror) }
{
    let bytes = Vec::from_elem(alloc, b'a', len).ok()?;
    let token = Token::new(bytes)?;
    Some(Order {
        mirror,
        work,
        token,
    })
}

/// The order that is given as the one of that number: of slots 0 to 2 by turns, each fifth a copy of revisions 3 to 8.
pub(crate) fn numbered(alloc: Global, number: usize) -> Option<Order> {
    let work = if number % 5 == 4 {
        Work::Copy {
            low: RevNo::new(3),
            high: RevNo::new(8),
        }
    } else {
        Work::Sync { steal: false }
    };
    order(alloc, number % 3, work, number % 7 + 1)
}

/// Whether this is what comes of the order that is given as the one of that number.
pub(crate) fn is_right(outcome: &Outcome, number: usize) -> bool {
    let head = if number % 5 == 4 { 8 } else { number % 7 + 1 };
    let is_as_told = match &outcome.result {
        Ok(found) => number % 3 != 2 && found.index() == head,
        Err(fault) => number % 3 == 2 && fault.number() == 51,
    };
    outcome.order == number as u64 && is_as_told
}

/// Whether these are what comes of the first so many orders that are given by their numbers.
pub(crate) fn are_right(outcomes: &[Outcome], count: usize) -> bool {
    let mut number = 0;
    for outcome in outcomes {
        if number >= count || !is_right(outcome, number) {
            return false;
        }
        number += 1;
    }
    number == count
}
