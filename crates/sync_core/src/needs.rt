//! What a call needs that isn't met. Judging takes no memory.
ghost use Rattle.std.specs.Prelude.{◌≡◌, ◌+◌, ◌==◌, ◌&&◌, ◌||◌, not, is_some, is_none, [], ◌∷◌};
ghost use Rattle.std.specs.FinMap as finite;
ghost use Rattle.dump_load.specs.Faults.{first_of, fault_if};
ghost use Rattle.sync_core.specs.Names.{url_name, merged_name, copying_name, number_at, is_absent, is_number, reaches};
ghost use Rattle.sync_core.specs.Names.{precedes};
ghost use Rattle.sync_core.specs.Mirror.{standing_in, unmet, holds, held};
ghost use Rattle.sync_core.specs.Mirror.{turn as turn_of};
ghost use Rattle.sync_core.specs.Calls.{call_of};
ghost use Rattle.sync_core.specs.declared.need.Need.TheVariants.{NotInitialised, AlreadyInitialised, NotEmpty};

use crate::call::MirrorCall;
use crate::need::Need;
use crate::properties::{copying, lock, merged, url};
use crate::seat::Seat;
use node_base::{Props, RevNo};

/// The first need of a call that isn't met, in this order:
///
/// | Call | Needs |
/// |---|---|
/// | Init | no `svn:sync-from-url` (52); head 0 (53) |
/// | TakeLock | initialized (51); no lock (54) |
/// | StealLock | initialized (51); no running holder (55) |
/// | ReleaseLock | the caller is the holder (59) |
/// | SetCopying(n) | the holder (59); nothing is being copied, the head is merged, n is the number after it (61) |
/// | Commit(n) | the holder (59); n is being copied, the head is merged, n is the number after it (61) |
/// | PutProps(n) | the holder (59); n is merged, or n is being copied and the head (61) |
/// | SetMerged(n) | the holder (59); n is being copied and the head, and the number after what is merged (61) |
/// | ClearCopying | the holder (59); the head is being copied, and merged (61) |
/// | Look | nothing |
///
/// `own` is revision 0's map, and `holder` the running seat whose call took the lock.
pub fn unmet_need(
    own: &Props,
    head: RevNo,
    holder: Option<Seat>,
    seat: Seat,
    call: &MirrorCall<'_>,
) -> Option<Need>
    ensures { result ≡ unmet (standing_in own.now head) holder seat (call_of call.now) }
{
    match call {
        MirrorCall::Init { .. } => unmet_at_init(own, head),
        MirrorCall::TakeLock(_) => unmet_at_lock(own, lock(own).is_some(), Need::LockHeld),
        MirrorCall::StealLock(_) => unmet_at_lock(own, holder.is_some(), Need::HolderRunning),
        MirrorCall::ReleaseLock => unmet_by(holder, seat, true),
        MirrorCall::SetCopying(n) => unmet_by(holder, seat, may_set(own, head, *n)),
        MirrorCall::Commit { number, .. } => unmet_by(holder, seat, may_commit(own, head, *number)),
        MirrorCall::PutProps { number, .. } => unmet_by(holder, seat, may_put(own, head, *number)),
        MirrorCall::SetMerged(n) => unmet_by(holder, seat, may_merge(own, head, *n)),
        MirrorCall::ClearCopying => unmet_by(holder, seat, may_clear(own, head)),
        MirrorCall::Look => None,
    }
}

// A mirror that begins isn't initialized and has no revision but 0.
fn unmet_at_init(own: &Props, head: RevNo) -> Option<Need>
    ensures { result ≡ first_of (fault_if (is_some (finite.get own.now url_name)) AlreadyInitialised
        ∷ fault_if (not (head == 0)) NotEmpty ∷ []) }
{
    if url(own).is_some() {
        Some(Need::AlreadyInitialised)
    } else if head != RevNo::ZERO {
        Some(Need::NotEmpty)
    } else {
        None
    }
}

// The lock of an initialized mirror is taken where nothing stands against it.
fn unmet_at_lock(own: &Props, taken: bool, fault: Need) -> Option<Need>
    ensures { result ≡ first_of (fault_if (is_none (finite.get own.now url_name)) NotInitialised ∷ fault_if taken fault
        ∷ []) }
{
    if url(own).is_none() {
        Some(Need::NotInitialised)
    } else if taken {
        Some(fault)
    } else {
        None
    }
}

// The holder's call, in its turn.
fn unmet_by(holder: Option<Seat>, seat: Seat, turn: bool) -> Option<Need>
    ensures { result ≡ first_of (held holder seat ∷ turn_of turn ∷ []) }
{
    if !holds(holder, seat) {
        Some(Need::NotHolder)
    } else if !turn {
        Some(Need::OutOfTurn)
    } else {
        None
    }
}

// Whether the caller is the holder.
fn holds(holder: Option<Seat>, seat: Seat) -> bool
    ensures { result ≡ holds holder seat }
{
    match holder {
        Some(holder) => holder == seat,
        None => false,
    }
}

fn may_set(own: &Props, head: RevNo, number: RevNo) -> bool
    ensures { result ≡ is_absent (number_at own.now copying_name) && is_number (number_at own.now merged_name) head
        && (number == head + 1) }
{
    copying(own).is_absent() && merged(own).is(head) && is_next(head, number)
}

fn may_commit(own: &Props, head: RevNo, number: RevNo) -> bool
    ensures { result ≡ is_number (number_at own.now copying_name) number
        && is_number (number_at own.now merged_name) head && (number == head + 1) }
{
    copying(own).is(number) && merged(own).is(head) && is_next(head, number)
}

fn may_put(own: &Props, head: RevNo, number: RevNo) -> bool
    ensures { result ≡ reaches (number_at own.now merged_name) number
        || (is_number (number_at own.now copying_name) number && (number == head)) }
{
    merged(own).reaches(number) || copying(own).is(number) && number == head
}

fn may_merge(own: &Props, head: RevNo, number: RevNo) -> bool
    ensures { result ≡ is_number (number_at own.now copying_name) number && (number == head)
        && precedes (number_at own.now merged_name) number }
{
    copying(own).is(number) && number == head && merged(own).precedes(number)
}

fn may_clear(own: &Props, head: RevNo) -> bool
    ensures { result ≡ is_number (number_at own.now copying_name) head
        && is_number (number_at own.now merged_name) head }
{
    copying(own).is(head) && merged(own).is(head)
}

// Whether a number is the one after the head.
fn is_next(head: RevNo, number: RevNo) -> bool
    ensures { result ≡ (number == head + 1) }
{
    u32::from(number.get()) == u32::from(head.get()) + 1
}
