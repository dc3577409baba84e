//! The workers' threads, and the giver's end of the queue.
ghost use Rattle.std.specs.Prelude.{◌≡◌, ◌<◌, ◌+◌, ℕ, get_or, [], true, IfOk, IfErr, OnOk, length, vec_len};
ghost use Rattle.std.specs.Arc.{arc_value};
ghost use Rattle.std.specs.List.{range_with_len};
ghost use Rattle.crossbeam_channel.specs.Claims.{IsSeatAt};
ghost use Rattle.crossbeam_channel.specs.Ends.{sends_on, receives_on};
ghost use Rattle.fleet_jobs.specs.Answers.{HasWorked};
ghost use Rattle.fleet_jobs.specs.Places.{AreEmpty, AreSettled, CameBack};
ghost use Rattle.fleet_jobs.specs.Queue.{known_by, giver, put, tickets, tickets_of, seats_of, IsFresh, IsTaken};

use crate::gate::StartGate;
use crate::order::Outcome;
use crate::places::settle_all;
use crate::queue::{Back, From, Hand, InOrder, Message, Put, Seat, Seated, Settled, To};
use crate::runner::Runner;
use crate::worker::{Ran, work};
use crossbeam_channel::bounded_with;
use std::alloc::{AllocError, Global};
use std::snapshot::Snapshot;
use std::sync::{Arc, Wait};
use std::thread;
use std::thread::{Promise, PromisedHandle, Threads};

// Orders that may wait in the queue.
const PLACES: usize = 64;

/// What a worker's thread hands back: its seat of this queue, and one outcome for each ticket that it took, which the
/// order's job may answer.
#[derive(Drop)]
pub(crate) struct IsBack<J: Runner> {
    pub(crate) queue: Snapshot<To>,
    pub(crate) runner: Snapshot<J>,
    pub(crate) seat: usize,
}

impl<J: Runner> Promise<Ran> for IsBack<J> {
    ghost use Rattle.crossbeam_channel.specs.Claims.{IsSeatAt};
    ghost use Rattle.crossbeam_channel.specs.Ends.{sends_on};
    ghost use Rattle.fleet_jobs.specs.Answers.{HasWorked};
    ghost use Rattle.fleet_jobs.specs.Queue.{known_by};

    ghost kept_by = { λ p r. IsSeatAt (sends_on p.queue.value) r.seat
        × HasWorked (J.may_answer p.runner.value) p.seat (known_by r.seat) r.outcomes.items };
}

/// The giver's end, its seat, and the threads, each with the number of its seat.
pub(crate) struct Crew<J: Runner> {
    pub(crate) orders: To,
    pub(crate) seat: Seat,
    pub(crate) threads: Vec<PromisedHandle<Ran, IsBack<J>>>,
    pub(crate) runner: Snapshot<J>,
    pub ghost seated: { IsSeatAt (sends_on orders) seat },
    pub ghost gives: { (known_by seat).gives ≡ true },
    pub ghost none_back: { (known_by seat).back ≡ [] },
    pub ghost ours: { (k : ℕ) (d : _) → k < vec_len threads →
        (sends_on (get_or threads.items k d).promise.queue.value ≡ sends_on orders)
        × ((get_or threads.items k d).promise.runner.value ≡ runner.value)
        × ((get_or threads.items k d).promise.seat ≡ k) },
}

/// A queue, and no thread yet.
pub(crate) fn no_crew<J: Runner>(alloc: Global, runner: &J) -> Result<(Crew<J>, From), AllocError>
    ensures giver { IfOk result (λ r. known_by r.0.seat ≡ giver 0 [] []) }
    ensures threads { IfOk result (λ r. vec_len r.0.threads ≡ 0) }
    ensures queue { IfOk result (λ r. receives_on r.1 ≡ sends_on r.0.orders) }
    ensures runner { IfOk result (λ r. r.0.runner.value ≡ runner.now) }
{
    let (orders, from, seat) = bounded_with::<Message, Hand, InOrder, Global>(alloc, PLACES)?;
    Ok((
        Crew {
            orders,
            seat,
            threads: Vec::new(alloc),
            runner: Snapshot::of(runner),
        },
        from,
    ))
}

// Joins a thread: its part comes back, and its outcomes are put into their places.
fn take_back<R: Threads + Wait, J: Runner>(
    rt: &R,
    orders: &To,
    seat: &mut Seat,
    thread: PromisedHandle<Ran, IsBack<J>>,
    places: &mut [Option<Outcome>],
)
    requires channel { IsSeatAt (sends_on orders.now) seat.old }
    requires gives { (known_by seat.old).gives ≡ true }
    requires ours { sends_on thread.promise.queue.value ≡ sends_on orders.now }
    ensures channel { IsSeatAt (sends_on orders.now) seat.new }
    ensures back { CameBack (J.may_answer thread.promise.runner.value) thread.promise.seat
        (known_by seat.old) (known_by seat.new) places.old places.new }
{
    let ran = thread.join(rt);
    orders.absorb::<Back>(seat, ran.seat);
    settle_all(places, ran.outcomes);
}

impl<J: Runner> Crew<J> {
    /// Puts a message into the queue. May wait while it is full; Err where no worker is left.
    pub(crate) fn put<R: Wait>(&mut self, rt: &R, message: Message) -> Result<(), Message>
        ensures queue { sends_on self.new.orders ≡ sends_on self.old.orders }
        ensures same { (self.new.threads ≡ self.old.threads) × (self.new.runner.value ≡ self.old.runner.value) }
        ensures ok { OnOk result (known_by self.new.seat ≡ put (known_by self.old.seat) message) }
        ensures err { IfErr result (λ m. (m ≡ message) × (known_by self.new.seat ≡ known_by self.old.seat)) }
    {
        match self.orders.send_as::<Put, R>(rt, &mut self.seat, message) {
            Ok(()) => Ok(()),
            Err(refused) => Err(refused.into_inner()),
        }
    }

    // Puts the message at which a worker ends, once for each.
    fn call_off<R: Wait>(&mut self, rt: &R)
        ensures queue { sends_on self.new.orders ≡ sends_on self.old.orders }
        ensures same { (self.new.threads ≡ self.old.threads) × (self.new.runner.value ≡ self.old.runner.value) }
        ensures given { tickets (known_by self.new.seat).given ≡ tickets (known_by self.old.seat).given }
        ensures seats { (known_by self.new.seat).seats ≡ (known_by self.old.seat).seats }
    {
        for _i in 0..self.threads.len() {
            if self.put(rt, None).is_err() {
                break;
            }
        }
    }

    /// Ends every worker once the orders before are taken, joins each, and puts its outcomes into their places.
    pub(crate) fn dismiss<R: Threads + Wait>(self, rt: &R, places: &mut [Option<Outcome>]) -> Seat
        ensures given { tickets (known_by result).given ≡ tickets (known_by self.seat).given }
        ensures seats { (known_by result).seats ≡ (known_by self.seat).seats }
        ensures back { seats_of (known_by result).back ≡ range_with_len 0 (vec_len self.threads) }
        ensures taken { (waiting : _)
            × IsTaken (known_by result).seats (known_by result).given (known_by result).back waiting }
        ensures len { length places.new ≡ length places.old }
        ensures settled { AreEmpty places.old →
            AreSettled (J.may_answer self.runner.value) (tickets_of (known_by result).back) places.new }
    {
        let mut crew = self;
        crew.call_off(rt);
        let Crew {
            orders,
            seat,
            threads,
            runner: _runner,
        } = crew;
        let mut seat = seat;
        for thread in threads {
            take_back(rt, &orders, &mut seat, thread, places);
        }
        orders.learn_as::<Settled>(&mut seat);
        seat
    }
}

impl<J: Runner + Send + Sync + Drop + 'static> Crew<J> {
    /// Starts one thread more, at the next seat.
    pub(crate) fn hire<
        R: Threads + Wait + Clone + Send + Drop + 'static,
        G: StartGate + Send + Sync + Drop + 'static,
    >(
        &mut self,
        rt: &R,
        alloc: Global,
        from: &From,
        runner: &Arc<J>,
        gate: &Arc<G>,
    ) -> Result<(), AllocError>
        requires queue { receives_on from.now ≡ sends_on self.old.orders }
        requires runner { arc_value runner.now ≡ self.old.runner.value }
        requires seats { (known_by self.old.seat).seats ≡ vec_len self.old.threads }
        ensures queue { sends_on self.new.orders ≡ sends_on self.old.orders }
        ensures runner { self.new.runner.value ≡ self.old.runner.value }
        ensures given { (known_by self.new.seat).given ≡ (known_by self.old.seat).given }
        ensures hired { OnOk result (vec_len self.new.threads ≡ vec_len self.old.threads + 1) }
        ensures seats { OnOk result ((known_by self.new.seat).seats ≡ (known_by self.old.seat).seats + 1) }
    {
        self.threads.reserve(1)?;
        let own = rt.clone()?;
        let orders = from.try_clone()?;
        let job = Arc::try_clone(runner)?;
        let gate = Arc::try_clone(gate)?;
        let promise = IsBack {
            queue: Snapshot::of(&self.orders),
            runner: Snapshot::of(&*job),
            seat: self.threads.len(),
        };
        let seat = self.orders.another::<Seated>(&mut self.seat);
        let child = thread::spawn_with(
            rt,
            promise,
            move || -> Ran
                requires { IsSeatAt (receives_on orders) seat × IsFresh (known_by seat) }
                ensures { IsSeatAt (receives_on orders) result.seat
                    × HasWorked (J.may_answer (arc_value job)) (known_by seat).seat
                    (known_by result.seat) result.outcomes.items }
            { work(&own, alloc, &orders, seat, &*job, &*gate) },
        );
        match child {
            Ok(thread) => {
                self.threads.push_reserved(thread);
                Ok(())
            }
            Err(_) => Err(AllocError),
        }
    }
}
