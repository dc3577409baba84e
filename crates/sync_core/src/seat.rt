//! Seats of jobs at a mirror.
ghost use Rattle.std.specs.Prelude.{◌≡◌};

use std::marker::Model;

/// The seat of a job that runs at a mirror, seen by contracts as its number. Each job has one of its own.
#[derive(Clone, Copy, PartialEq, Eq)]
pub struct Seat {
    number: u64,
}

impl Model for Seat {
    ghost use Rattle.std.specs.Prelude.{ℕ};
    ghost use Rattle.std.specs.Coded.{coded_ℕ};

    ghost Value = { ℕ };

    ghost coded = { coded_ℕ };

    ghost view = { λ a. a.number };

    ghost inverse = { λ n. record { number = n } };
}

impl Seat {
    /// The seat of that number.
    pub fn new(number: u64) -> Seat
        ensures { result ≡ number }
    {
        Seat { number }
    }

    /// Its number.
    pub fn number(self) -> u64
        ensures { result ≡ self }
    {
        self.number
    }
}
