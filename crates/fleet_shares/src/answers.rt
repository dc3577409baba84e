//! Orders that are given to a fleet, and the answer of each.
ghost use Rattle.std.specs.Prelude.{◌≡◌, ◌++◌, ◌∷◌, [], map, vec_len, IfOk};
ghost use Rattle.std.specs.List.{AllZip};
ghost use Rattle.std.specs.Vec.Iter.{into_iter_items};
ghost use Rattle.fleet_shares.specs.Given.{AreAnswers, HasRoom, IsAnswered, IsDue, IsPaid};
ghost use Rattle.fleet_shares.specs.Given.{accepted_if, behind, outcomes_in, settled, waiting_in};

use fleet_jobs::{Fleet, Order, Outcome, Runner, Unfinished};
use node_base::RevNo;
use std::alloc::{AllocError, Global};
use std::sync::Wait;
use std::thread::Threads;
use std::vec::IntoIter;
use sync_core::SyncFault;

/// What comes of an order: the mirror's newest revision after its job, or why it was refused.
pub type Answered = Result<RevNo, SyncFault>;

/// What there is of an order: it waits for what a worker makes of it, or its job has ended.
#[derive(Drop)]
pub enum Due {
    Waits(Order),
    Ended(Answered),
}

/// Gives orders to a fleet, waits until each has ended, and answers each in its place by what its job answers. The job of
/// an order that the fleet doesn't accept, or that no worker takes, is run here, at `own`. `dues` and `answers` are empty,
/// and their room is made before.
pub fn answer_all<R: Threads + Wait, J: Runner>(
    rt: &R,
    alloc: Global,
    fleet: Fleet<J>,
    own: &J,
    orders: Vec<Order>,
    dues: Vec<Due>,
    answers: Vec<Answered>,
) -> Vec<Answered>
    requires given { fleet.accepted ≡ [] }
    requires dues { HasRoom dues (vec_len orders) }
    requires answers { HasRoom answers (vec_len orders) }
    ensures { AllZip (IsAnswered (J.may_answer fleet.runner) (J.may_answer own.now)) orders.items result.items }
{
    let mut fleet = fleet;
    let dues = give_all(rt, alloc, &mut fleet, own, orders, dues);
    gather(rt, own, dues, outcomes_of(fleet.finish(rt)), answers)
}

// Gives each order.
fn give_all<R: Wait, J: Runner>(
    rt: &R,
    alloc: Global,
    fleet: &mut Fleet<J>,
    own: &J,
    orders: Vec<Order>,
    dues: Vec<Due>,
) -> Vec<Due>
    requires given { fleet.old.accepted ≡ [] }
    requires dues { HasRoom dues (vec_len orders) }
    ensures due { AllZip (IsDue (J.may_answer own.now)) orders.items result.items }
    ensures accepted { map (λ t. t.order) fleet.new.accepted ≡ waiting_in result.items }
    ensures same { fleet.new.runner ≡ fleet.old.runner }
    ensures count { vec_len result ≡ vec_len orders }
{
    let mut dues = dues;
    for order in orders {
        dues.push_reserved(give_one(rt, alloc, fleet, own, order));
    }
    dues
}

// Gives an order, or runs its job where it isn't accepted.
fn give_one<R: Wait, J: Runner>(
    rt: &R,
    alloc: Global,
    fleet: &mut Fleet<J>,
    own: &J,
    order: Order,
) -> Due
    ensures due { IsDue (J.may_answer own.now) order result }
    ensures accepted { map (λ t. t.order) fleet.new.accepted
        ≡ map (λ t. t.order) fleet.old.accepted ++ waiting_in (result ∷ []) }
    ensures same { fleet.new.runner ≡ fleet.old.runner }
{
    if is_given(rt, alloc, fleet, &order) {
        return Due::Waits(order);
    }
    Due::Ended(own.run(rt, &order))
}

// Gives an order that stays here too, and says whether it is accepted.
fn is_given<R: Wait, J: Runner>(rt: &R, alloc: Global, fleet: &mut Fleet<J>, order: &Order) -> bool
    ensures accepted { map (λ t. t.order) fleet.new.accepted
        ≡ map (λ t. t.order) fleet.old.accepted ++ accepted_if result order.now }
    ensures same { fleet.new.runner ≡ fleet.old.runner }
{
    match copied(alloc, order) {
        Ok(order) => is_accepted(rt, fleet, order),
        Err(_) => false,
    }
}

// Gives an order, and says whether it is accepted.
fn is_accepted<R: Wait, J: Runner>(rt: &R, fleet: &mut Fleet<J>, order: Order) -> bool
    ensures accepted { map (λ t. t.order) fleet.new.accepted
        ≡ map (λ t. t.order) fleet.old.accepted ++ accepted_if result order }
    ensures same { fleet.new.runner ≡ fleet.old.runner }
{
    match fleet.give(rt, order) {
        Ok(_number) => true,
        Err(_refused) => false,
    }
}

// An order once more.
fn copied(alloc: Global, order: &Order) -> Result<Order, AllocError>
    ensures { IfOk result (λ o. o ≡ order.now) }
{
    let token = order.token.copy(alloc)?;
    Ok(Order {
        mirror: order.mirror,
        work: order.work,
        token,
    })
}

// The outcomes of a fleet, or those of the first orders.
fn outcomes_of(ended: Result<Vec<Outcome>, Unfinished>) -> Vec<Outcome>
    ensures { result.items ≡ outcomes_in ended }
{
    match ended {
        Ok(outcomes) => outcomes,
        Err(unfinished) => {
            let Unfinished { outcomes, seat: _ } = unfinished;
            outcomes
        }
    }
}

// The answers, by the outcomes of the orders that wait, in order. The jobs of those that have none are run.
fn gather<R: Wait, J: Runner>(
    rt: &R,
    own: &J,
    dues: Vec<Due>,
    outcomes: Vec<Outcome>,
    answers: Vec<Answered>,
) -> Vec<Answered>
    requires { HasRoom answers (vec_len dues) }
    ensures { AreAnswers (J.may_answer own.now) dues.items outcomes.items result.items }
{
    let mut answers = answers;
    let mut rest = outcomes.into_iter();
    for due in dues {
        answers.push_reserved(pay(rt, own, settled(due, &mut rest)));
    }
    answers
}

// An order that waits is settled by the next outcome, where there is one.
fn settled(due: Due, rest: &mut IntoIter<Outcome>) -> Due
    ensures due { result ≡ settled due (into_iter_items rest.old) }
    ensures rest { into_iter_items rest.new ≡ behind due (into_iter_items rest.old) }
{
    match due {
        Due::Waits(order) => match rest.next() {
            Some(outcome) => Due::Ended(outcome.result),
            None => Due::Waits(order),
        },
        Due::Ended(answer) => Due::Ended(answer),
    }
}

// What an order's job has answered. That of one that waits is run.
fn pay<R: Wait, J: Runner>(rt: &R, own: &J, due: Due) -> Answered
    ensures { IsPaid (J.may_answer own.now) due result }
{
    match due {
        Due::Waits(order) => own.run(rt, &order),
        Due::Ended(answer) => answer,
    }
}
