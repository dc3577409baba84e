//! What the rule of the queue says at every moment.
ghost use Rattle.fleet_jobs.specs.Laws.{TakenInOrder, WorkersShare};

/// At every moment what was taken is a beginning of what was given, in order, each once: the giver's list is one
/// history of what was taken and then what waits, and each worker's list is the part of that history from its seat.
pub fn first_given_first_taken()
    ensures order { TakenInOrder }
    ensures workers { WorkersShare }
{}
