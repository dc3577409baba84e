//! The queue of orders: one giver puts tickets, workers take them.

use crate::order::Ticket;
use crossbeam_channel::protocol::{Join, Lesson, Outcome, Protocol, Split};
use crossbeam_channel::{Pass, RuledReceiver, RuledSender};
use std::collections::LinkedList;

/// What stands in the queue: a ticket, or None, at which a worker ends.
pub type Message = Option<Ticket>;

/// What the worker of a seat took, in order. No value of it is made.
pub struct Part {
    pub seat: u64,
    pub taken: LinkedList<Message>,
}

/// What the holder of a seat may do and has done. No value of it is made.
pub struct Hand {
    /// The giver: how many seats it made, what it put, and the parts of the workers that came back.
    pub gives: bool,
    pub seats: u64,
    pub given: LinkedList<Message>,
    pub back: LinkedList<Part>,
    /// A worker: its seat, and what it took.
    pub works: bool,
    pub seat: u64,
    pub taken: LinkedList<Message>,
}

/// The rule of the queue.
pub struct InOrder;

impl Protocol<Message, Hand> for InOrder {
    ghost use Rattle.std.specs.Prelude.{[]};
    ghost use Rattle.fleet_jobs.specs.Queue.{Queued, giver};

    ghost holds = { Queued };

    ghost first = { giver 0 [] [] };
}

/// A seat more for a worker.
pub struct Seated;

impl Split<Hand> for Seated {
    ghost use Rattle.std.specs.Prelude.{[]};
    ghost use Rattle.fleet_jobs.specs.Queue.{one_seat_more, worker};

    ghost left = { one_seat_more };

    ghost right = { λ v. worker v.seats [] };
}

/// A worker's part comes back.
pub struct Back;

impl Join<Hand> for Back {
    ghost use Rattle.fleet_jobs.specs.Queue.{with_part, spent};

    ghost both = { with_part };

    ghost spent = { spent };
}

/// A message is put.
pub struct Put;

impl Outcome<Message, Hand> for Put {
    ghost use Rattle.std.specs.Prelude.{◌≡◌};
    ghost use Rattle.fleet_jobs.specs.Queue.{put};

    ghost then = { λ v x w. w ≡ put v x };
}

impl Lesson<Message, Hand> for Put {
    ghost fact = { λ v items. Unit {0} };
}

/// A message is taken.
pub struct Took;

impl Outcome<Message, Hand> for Took {
    ghost use Rattle.std.specs.Prelude.{◌≡◌};
    ghost use Rattle.fleet_jobs.specs.Queue.{took};

    ghost then = { λ v x w. w ≡ took v x };
}

impl Lesson<Message, Hand> for Took {
    ghost fact = { λ v items. Unit {0} };
}

/// What the giver knows at the end.
pub struct Settled;

impl Lesson<Message, Hand> for Settled {
    ghost use Rattle.fleet_jobs.specs.Queue.{IsTaken};

    ghost fact = { λ v items. IsTaken v.seats v.given v.back items };
}

/// The giver's end.
pub type To = RuledSender<Message, Hand, InOrder>;

/// A worker's end.
pub type From = RuledReceiver<Message, Hand, InOrder>;

/// What a thread knows of the queue. It has no bytes.
pub type Seat = Pass<Message, Hand>;
