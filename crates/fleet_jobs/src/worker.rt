//! A worker: it takes orders, runs each, and keeps its outcomes.
ghost use Rattle.std.specs.Prelude.{◌≡◌, ◌++◌, ◌∷◌, [], true, None, IfSome};
ghost use Rattle.crossbeam_channel.specs.Claims.{IsSeatAt};
ghost use Rattle.crossbeam_channel.specs.Ends.{receives_on};
ghost use Rattle.fleet_jobs.specs.Answers.{HasWorked};
ghost use Rattle.fleet_jobs.specs.Queue.{known_by, tickets, IsFresh};

use crate::gate::StartGate;
use crate::order::{Outcome, Ticket};
use crate::queue::{From, Seat, Took};
use crate::runner::Runner;
use std::alloc::Global;
use std::sync::Wait;

/// What a worker hands back: its seat, and its outcomes in the order in which it took their tickets.
#[derive(Drop)]
pub(crate) struct Ran {
    pub(crate) seat: Seat,
    pub(crate) outcomes: Vec<Outcome>,
}

// Takes a message. None where it is the last for this worker, or where the giver has gone.
fn take<R: Wait>(rt: &R, orders: &From, seat: &mut Seat) -> Option<Ticket>
    requires channel { IsSeatAt (receives_on orders.now) seat.old }
    requires works { (known_by seat.old).works ≡ true }
    ensures channel { IsSeatAt (receives_on orders.now) seat.new }
    ensures same { ((known_by seat.new).works ≡ true) × ((known_by seat.new).seat ≡ (known_by seat.old).seat) }
    ensures taken { IfSome result
        (λ t. tickets (known_by seat.new).taken ≡ tickets (known_by seat.old).taken ++ t ∷ []) }
    ensures none { result ≡ None → tickets (known_by seat.new).taken ≡ tickets (known_by seat.old).taken }
{
    match orders.recv_as::<Took, R>(rt, seat) {
        Ok(message) => message,
        Err(_) => None,
    }
}

// Runs the order's job, between the two calls of the gate.
fn run_one<R: Wait, J: Runner, G: StartGate>(
    rt: &R,
    runner: &J,
    gate: &G,
    ticket: Ticket,
) -> Outcome
    ensures order { result.order ≡ ticket.number }
    ensures answer { J.may_answer runner.now ticket.order result.result }
{
    let Ticket { number, order } = ticket;
    gate.begin(number);
    let result = runner.run(rt, &order);
    gate.ended(number);
    Outcome {
        order: number,
        result,
    }
}

/// Runs orders until the giver has gone and none is left. Room for an outcome is made before its order is taken.
pub(crate) fn work<R: Wait, J: Runner, G: StartGate>(
    rt: &R,
    alloc: Global,
    orders: &From,
    seat: Seat,
    runner: &J,
    gate: &G,
) -> Ran
    requires channel { IsSeatAt (receives_on orders.now) seat }
    requires fresh { IsFresh (known_by seat) }
    ensures channel { IsSeatAt (receives_on orders.now) result.seat }
    ensures outcomes { HasWorked (J.may_answer runner.now) (known_by seat).seat
        (known_by result.seat) result.outcomes.items }
{
    let mut mine = seat;
    let mut outcomes: Vec<Outcome> = Vec::new(alloc);
    for _ in rt.forever() {
        if outcomes.reserve(1).is_err() {
            break;
        }
        let Some(ticket) = take(rt, orders, &mut mine) else {
            break;
        };
        outcomes.push_reserved(run_one(rt, runner, gate, ticket));
    }
    Ran {
        seat: mine,
        outcomes,
    }
}
