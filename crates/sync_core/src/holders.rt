//! Who holds a mirror's lock.
ghost use Rattle.std.specs.Prelude.{◌≡◌};
ghost use Rattle.sync_core.specs.Mirror.{holder_after};
ghost use Rattle.sync_core.specs.World.{holder_left};
ghost use Rattle.sync_core.specs.Calls.{call_of};

use crate::call::MirrorCall;
use crate::seat::Seat;

/// The holder after an accepted call.
pub fn holder_after(holder: Option<Seat>, seat: Seat, call: &MirrorCall<'_>) -> Option<Seat>
    ensures { result ≡ holder_after holder seat (call_of call.now) }
{
    match call {
        MirrorCall::TakeLock(_) => Some(seat),
        MirrorCall::StealLock(_) => Some(seat),
        MirrorCall::ReleaseLock => None,
        MirrorCall::Init { .. } => holder,
        MirrorCall::SetCopying(_) => holder,
        MirrorCall::Commit { .. } => holder,
        MirrorCall::PutProps { .. } => holder,
        MirrorCall::SetMerged(_) => holder,
        MirrorCall::ClearCopying => holder,
        MirrorCall::Look => holder,
    }
}

/// The holder after a seat has left: none where it was that seat. The lock stays.
pub fn holder_left(holder: Option<Seat>, seat: Seat) -> Option<Seat>
    ensures { result ≡ holder_left holder seat }
{
    match holder {
        Some(other) if other == seat => None,
        Some(other) => Some(other),
        None => None,
    }
}
