//! A fleet: orders are given, run by workers, and answered by their outcomes.
ghost use Rattle.std.specs.Prelude.{◌≡◌, ◌++◌, ◌∷◌, [], true, false, take, IfOk, IfErr, OnOk, ◌+◌, length, vec_len};
ghost use Rattle.crossbeam_channel.specs.Ends.{sends_on, receives_on};
ghost use Rattle.fleet_jobs.specs.Answers.{AreOutcomesOf};
ghost use Rattle.fleet_jobs.specs.Fleets.{has_mirror, LeavesWaiting};
ghost use Rattle.fleet_jobs.specs.Queue.{known_by};
ghost use Rattle.fleet_jobs.specs.declared.fault.FleetFault.TheVariants as fault;

use crate::crew::{Crew, no_crew};
use crate::fault::{FleetFault, Refused, Unfinished};
use crate::gate::StartGate;
use crate::order::{Order, Outcome, Ticket};
use crate::places::gather;
use crate::queue::From;
use crate::runner::Runner;
use std::alloc::{AllocError, Global};
use std::marker::Model;
use std::sync::{Arc, Wait};
use std::thread::Threads;

/// Workers that run orders. Contracts see the orders that were accepted, what runs them, which slots have a mirror, and
/// how many workers were started.
pub struct Fleet<J: Runner> {
    crew: Crew<J>,
    slots: [bool; 4],
    places: Vec<Option<Outcome>>,
    room: Vec<Outcome>,
}

impl<J: Runner> Model for Fleet<J> {
    ghost use Rattle.std.specs.Prelude.{◌≡◌, ◌≤◌, length, vec_len, vec_capacity, []};
    ghost use Rattle.fleet_jobs.specs.Fleets.{FleetState, AreNumbered};
    ghost use Rattle.fleet_jobs.specs.Places.{AreEmpty};
    ghost use Rattle.fleet_jobs.specs.Queue.{known_by, tickets};

    ghost Value = { FleetState J };

    ghost view = { λ f. record {
      accepted = tickets (known_by f.crew.seat).given;
      runner = f.crew.runner.value;
      slots = f.slots;
      workers = vec_len f.crew.threads;
    } };

    ghost invariant = { λ f. (length (tickets (known_by f.crew.seat).given) ≡ vec_len f.places)
        × AreNumbered (tickets (known_by f.crew.seat).given)
        × AreEmpty f.places.items
        × (f.room.items ≡ [])
        × (vec_len f.places ≤ vec_capacity f.room)
        × ((known_by f.crew.seat).seats ≡ vec_len f.crew.threads) };
}

// Starts that many threads.
fn hire_all<
    R: Threads + Wait + Clone + Send + Drop + 'static,
    J: Runner + Send + Sync + Drop + 'static,
    G: StartGate + Send + Sync + Drop + 'static,
>(
    crew: &mut Crew<J>,
    rt: &R,
    alloc: Global,
    from: From,
    runner: J,
    gate: G,
    workers: usize,
) -> Result<(), AllocError>
    requires queue { receives_on from ≡ sends_on crew.old.orders }
    requires runner { crew.old.runner.value ≡ runner }
    requires seats { (known_by crew.old.seat).seats ≡ vec_len crew.old.threads }
    ensures given { (known_by crew.new.seat).given ≡ (known_by crew.old.seat).given }
    ensures runner { crew.new.runner.value ≡ crew.old.runner.value }
    ensures seats { OnOk result ((known_by crew.new.seat).seats ≡ vec_len crew.new.threads) }
    ensures hired { OnOk result (vec_len crew.new.threads ≡ vec_len crew.old.threads + workers) }
{
    let runner = Arc::new(alloc, runner)?;
    let gate = Arc::new(alloc, gate)?;
    for _i in 0..workers {
        crew.hire(rt, alloc, &from, &runner, &gate)?;
    }
    Ok(())
}

impl<J: Runner + Send + Sync + Drop + 'static> Fleet<J> {
    /// Starts that many workers, each a thread, over the jobs of the runner. Only want of memory (70) refuses it, that
    /// of a thread among it; those that run are joined then.
    pub fn start<
        R: Threads + Wait + Clone + Send + Drop + 'static,
        G: StartGate + Send + Sync + Drop + 'static,
    >(rt: &R, alloc: Global, runner: J, workers: usize, gate: G) -> Result<Fleet<J>, AllocError>
        ensures accepted { IfOk result (λ f. f.accepted ≡ []) }
        ensures runner { IfOk result (λ f. f.runner ≡ runner) }
        ensures slots { IfOk result (λ f. f.slots
            ≡ J.has_slot runner 0 ∷ J.has_slot runner 1 ∷ J.has_slot runner 2 ∷ J.has_slot runner 3 ∷ []) }
        ensures workers { IfOk result (λ f. f.workers ≡ workers) }
    {
        let slots = [runner.has(0), runner.has(1), runner.has(2), runner.has(3)];
        let (mut crew, from) = no_crew(alloc, &runner)?;
        match hire_all(&mut crew, rt, alloc, from, runner, gate, workers) {
            Ok(()) => Ok(Fleet {
                crew,
                slots,
                places: Vec::new(alloc),
                room: Vec::new(alloc),
            }),
            Err(refused) => {
                let mut none: Vec<Option<Outcome>> = Vec::new(alloc);
                let _seat = crew.dismiss(rt, none.as_mut_slice());
                Err(refused)
            }
        }
    }
}

impl<J: Runner> Fleet<J> {
    /// Accepts an order, and answers its number, from 0 up. May wait while 64 stand in the queue.
    ///
    /// What is refused comes back: NoRepository (34) where the order's slot has no mirror or isn't one, Failed (32)
    /// where all workers have ended, OutOfMemory (70).
    pub fn give<R: Wait>(&mut self, rt: &R, order: Order) -> Result<u64, Refused>
        ensures number { IfOk result (λ n. n ≡ length self.old.accepted) }
        ensures accepted { IfOk result
            (λ n. self.new.accepted ≡ self.old.accepted ++ record { number = n; order = order } ∷ []) }
        ensures slot { IfOk result (λ _. has_mirror self.old order.mirror ≡ true) }
        ensures same { (self.new.runner ≡ self.old.runner) × (self.new.slots ≡ self.old.slots)
            × (self.new.workers ≡ self.old.workers) }
        ensures back { IfErr result (λ e. (e.order ≡ order) × (self.new.accepted ≡ self.old.accepted)) }
        ensures missing { IfErr result (λ e. e.fault ≡ fault.NoRepository → has_mirror self.old order.mirror ≡ false) }
        ensures no_mirror { has_mirror self.old order.mirror ≡ false →
            IfErr result (λ e. e.fault ≡ fault.NoRepository) }
    {
        if order.mirror >= 4 || !self.slots[order.mirror] {
            return Err(Refused {
                fault: FleetFault::NoRepository,
                order,
            });
        }
        let given = self.places.len();
        if self.places.reserve(1).is_err() || self.room.reserve(given + 1).is_err() {
            return Err(Refused {
                fault: FleetFault::OutOfMemory,
                order,
            });
        }
        let number = given as u64;
        match self.crew.put(rt, Some(Ticket { number, order })) {
            Ok(()) => {
                self.places.push_reserved(None);
                Ok(number)
            }
            Err(Some(ticket)) => Err(Refused {
                fault: FleetFault::Failed,
                order: ticket.order,
            }),
            Err(None) => unreachable!(),
        }
    }

    /// Waits until every accepted order has ended, and gives their outcomes by their numbers. Where an order wasn't
    /// taken, since all workers had ended before, Failed (32) with the outcomes of those that were.
    pub fn finish<R: Threads + Wait>(self, rt: &R) -> Result<Vec<Outcome>, Unfinished>
        ensures all { IfOk result (λ os. AreOutcomesOf (J.may_answer self.runner) self.accepted os.items) }
        ensures taken { IfErr result (λ e. AreOutcomesOf (J.may_answer self.runner)
            (take (vec_len e.outcomes) self.accepted) e.outcomes.items) }
        ensures left { IfErr result
            (λ e. LeavesWaiting (known_by e.seat) self.workers self.accepted (vec_len e.outcomes)) }
    {
        let Fleet {
            crew,
            slots: _,
            places,
            room,
        } = self;
        let mut places = places;
        let count = places.len();
        let seat = crew.dismiss(rt, places.as_mut_slice());
        let outcomes = gather(places, room);
        if outcomes.len() == count {
            Ok(outcomes)
        } else {
            Err(Unfinished { outcomes, seat })
        }
    }
}
