//! The seat of a job, with the hand while it holds the lock.
ghost use Rattle.std.specs.Prelude.{◌≡◌, ◌+◌, None, IsSome};
ghost use Rattle.std.specs.Option.{option_map_or};

use crate::hand::Hand;
use crate::name::MirrorName;
use sync_core::Seat;

/// The seat of a job at a mirror: its place among the jobs that run there. The book gives it, and takes it back when the
/// job leaves; one that is dropped stays in its place. While it holds the sync lock it has the whole share of each ledger,
/// and so knows what the mirror's numbers are, whatever other seats do.
#[derive(Drop)]
pub struct JobSeat<L: MirrorName> {
    pub(crate) place: usize,
    pub(crate) hand: Option<Hand<L>>,
    ghost holds: { option_map_or (λ h. h.holder.amount) hand (place + 1) ≡ place + 1 },
}

impl<L: MirrorName> JobSeat<L> {
    ghost use Rattle.mirror_share.specs.Seats.{hand_of, place_of};

    /// A seat that holds nothing.
    pub(crate) fn new(place: usize) -> JobSeat<L>
        ensures { (place_of result ≡ place) × (hand_of result ≡ None) }
    {
        JobSeat { place, hand: None }
    }

    /// The seat as the mirror's calls know it.
    pub fn seat(&self) -> Seat
        ensures { result ≡ place_of self.now }
    {
        Seat::new(self.place as u64)
    }

    /// Does nothing: its contract says that no two seats hold the lock. (A seat that takes the lock or steals it holds it
    /// then, so no steal is done while another seat holds.)
    pub fn is_alone(&mut self, other: &mut JobSeat<L>)
        ensures { IsSome (hand_of self.old) → IsSome (hand_of other.old) → ⊥ }
    {
        if let Some(hand) = &mut self.hand {
            if let Some(theirs) = &mut other.hand {
                hand.is_apart(theirs);
            }
        }
    }
}
