//! Trouble that ends no server.
ghost use Rattle.std.specs.Prelude.{◌≡◌, ◌<◌, Some, true, false, slice_get};
ghost use Rattle.sockets.specs.Troubles.{MayTell, place_of};

use std::sync::{Mutex, Wait};
use std::time::{Clock, Instant};

/// Trouble that ends a session, or comes between sessions, while the server goes on. Each is a refusal of the table.
#[derive(Clone, Copy, Drop)]
pub enum Trouble {
    /// The device failed (31).
    DeviceFailed,
    /// It failed before (32).
    Failed,
    /// The journal is full (36).
    LogFull,
    /// A connection couldn't be accepted (49).
    PeerFailed,
    /// Memory ran out (70).
    OutOfMemory,
}

impl Trouble {
    // Its place among the kinds.
    fn place(self) -> usize
        ensures place { result ≡ place_of self }
        ensures within { result < 5 }
    {
        match self {
            Trouble::DeviceFailed => 0,
            Trouble::Failed => 1,
            Trouble::LogFull => 2,
            Trouble::PeerFailed => 3,
            Trouble::OutOfMemory => 4,
        }
    }
}

/// What tells trouble to whoever runs a server.
pub trait Teller {
    /// Tells of it, where it can be told.
    fn tell(&self, trouble: Trouble);
}

/// Seconds after trouble of a kind was told in which that kind isn't told again.
const QUIET_SECONDS: u64 = 60;

// The kinds of trouble.
const KINDS: usize = 5;

// When trouble of each kind was told last.
#[derive(Drop)]
struct Told {
    last: [Option<Instant>; KINDS],
}

impl Told {
    // Whether trouble may be told now: it wasn't told before, or not within a minute. Then it counts as told.
    fn admits(&mut self, trouble: Trouble, now: Instant) -> bool
        ensures due { result ≡ true → MayTell (slice_get self.old.last (place_of trouble)) now }
        ensures noted { result ≡ true → slice_get self.new.last (place_of trouble) ≡ Some (Some now) }
        ensures quiet { result ≡ false → self.new ≡ self.old }
    {
        let place = trouble.place();
        if let Some(last) = self.last[place] {
            if now.duration_since(last).as_secs() < QUIET_SECONDS {
                return false;
            }
        }
        self.last[place] = Some(now);
        true
    }
}

/// Trouble that is told at most once a minute for each kind.
#[derive(Drop)]
pub struct Troubles<'a, T: Teller> {
    teller: &'a T,
    told: Mutex<Told>,
}

impl<'a, T: Teller> Troubles<'a, T> {
    /// Nothing was told yet.
    pub fn new(teller: &'a T) -> Troubles<'a, T> {
        Troubles {
            teller,
            told: Mutex::new(Told {
                last: [None; KINDS],
            }),
        }
    }

    /// Tells of trouble, unless its kind was told within a minute. Threads tell one after another.
    pub fn tell<R: Wait + Clock>(&self, rt: &R, trouble: Trouble) {
        let mut told = self.told.lock(rt);
        let Ok(now) = Instant::now(rt) else {
            return;
        };
        if told.admits(trouble, now) {
            self.teller.tell(trouble);
        }
    }
}
