//! Steps of a mirror's book and of its ledgers: who holds the lock has the hand.
ghost use Rattle.std.specs.Prelude.{◌≡◌, ◌⊎◌, true, false, Some, None, is_some, is_none, IfOk, IfErr, IsErr, ◌+◌};
ghost use Rattle.std.specs.Option.{option_map, option_map_or};
ghost use Rattle.sync_core.specs.Calls.{call_of};
ghost use Rattle.sync_core.specs.Holding.{TakesLock};
ghost use Rattle.sync_core.specs.Mirror.{holds, standing_of};
ghost use Rattle.sync_job.specs.Mirrors.{IsFit, mirror_in};
ghost use Rattle.mirror_share.specs.Book.{holder_of, is_stuck_in, jobs_of, now_of, KeepsCalls, ReleasesBy};
ghost use Rattle.mirror_share.specs.Carried.{HasHand};
ghost use Rattle.mirror_share.specs.Places.{job_at, OthersStay};
ghost use Rattle.mirror_share.specs.Refused.{IsRefusalOf};
ghost use Rattle.mirror_share.specs.Seats.{counts_in, place_of, CarriesHand};
ghost use Rattle.mirror_share.specs.Stepped.{Stepped};
ghost use Rattle.mirror_share.specs.Words.{counted_in, IsCountedIn, IsKeptIn, IsLockedIn};

use crate::calls::CallBook;
use crate::hand::Hand;
use crate::ledgers::Ledgers;
use crate::name::MirrorName;
use crate::seat::JobSeat;
use fleet_disk::Disk;
use repo_core::Repo;
use std::alloc::Global;
use store_share::{RevRow, RowName};
use sync_core::properties::{copying, merged};
use sync_core::{MirrorCall, Numbers, Reply, Seat, SyncFault, own_of};

/// What a mirror's numbers are.
pub(crate) fn numbers_in(repo: &Repo) -> Numbers
    ensures merged { result.merged ≡ (standing_of repo.now.revisions).merged }
    ensures copying { result.copying ≡ (standing_of repo.now.revisions).copying }
    ensures head { result.head ≡ (standing_of repo.now.revisions).head }
{
    let own = own_of(repo);
    Numbers {
        merged: merged(own),
        copying: copying(own),
        head: repo.head(),
    }
}

// A call of the seat that has the hand, or, where nobody holds the lock, of one to which the book lends it.
fn step_with<L: MirrorName, D: Disk>(
    book: &mut CallBook<L, D>,
    ledgers: &mut Ledgers<L>,
    hand: &mut Hand<L>,
    alloc: Global,
    row: &RevRow,
    seat: Seat,
    call: &MirrorCall<'_>,
) -> Result<Reply, SyncFault>
    requires row { row.now ≡ L.cells }
    requires counted { IsCountedIn book.old ledgers.old }
    ensures stepped { Stepped book.old book.new seat (call_of call.now) result }
    ensures fits { IfOk result (IsFit (call_of call.now)) }
    ensures refused { IfErr result (IsRefusalOf (call_of call.now)) }
    ensures old { counts_in hand.old ≡ counted_in ledgers.old }
    ensures new { counts_in hand.new ≡ counted_in ledgers.new }
    ensures counted { IsCountedIn book.new ledgers.new }
    ensures held { (hand.new.holder.amount ≡ ledgers.new.holder.total) }
    ensures stuck { is_stuck_in book.new ≡ true → counts_in hand.new ≡ counts_in hand.old }
{
    ledgers.audit(hand);
    let old = numbers_in(book.repo());
    let holder = book.holder();
    let answer = book.step(alloc, row, seat, call);
    ledgers.set_holder(hand, holder, book.holder());
    if book.is_stuck() {
        return answer;
    }
    ledgers.set_numbers(hand, old, numbers_in(book.repo()));
    answer
}

// Whether it is this seat that holds the lock.
fn is_held_by(holder: Option<Seat>, seat: Seat) -> bool
    ensures { result ≡ holds holder seat }
{
    match holder {
        Some(other) => other.number() == seat.number(),
        None => false,
    }
}

// The same, and the hand goes to the seat where it holds the lock then, else to the book.
fn with_hand<L: MirrorName, D: Disk>(
    book: &mut CallBook<L, D>,
    ledgers: &mut Ledgers<L>,
    spare: &mut Option<Hand<L>>,
    hand: &mut Option<Hand<L>>,
    own: Hand<L>,
    alloc: Global,
    row: &RevRow,
    seat: Seat,
    call: &MirrorCall<'_>,
) -> Result<Reply, SyncFault>
    requires row { row.now ≡ L.cells }
    requires counted { IsCountedIn book.old ledgers.old }
    requires own { (holder_of book.old ≡ Some seat) ⊎ (holder_of book.old ≡ None) }
    requires none { (spare.old ≡ None) × (hand.old ≡ None) }
    ensures stepped { Stepped book.old book.new seat (call_of call.now) result }
    ensures fits { IfOk result (IsFit (call_of call.now)) }
    ensures refused { IfErr result (IsRefusalOf (call_of call.now)) }
    ensures old { counts_in own ≡ counted_in ledgers.old }
    ensures counted { IsCountedIn book.new ledgers.new }
    ensures spared { is_some spare.new ≡ is_none (holder_of book.new) }
    ensures holds { option_map_or (λ h. h.holder.amount) hand.new (seat + 1) ≡ seat + 1 }
    ensures hand { HasHand seat (holder_of book.new) (is_stuck_in book.new) (counts_in own)
        (counted_in ledgers.new) (option_map (λ h. counts_in h) hand.new) }
{
    let mut own = own;
    let answer = step_with(book, ledgers, &mut own, alloc, row, seat, call);
    if is_held_by(book.holder(), seat) {
        *hand = Some(own);
        return answer;
    }
    *spare = Some(own);
    answer
}

// A call of a seat beside another that holds the lock.
fn step_beside<L: RowName, D: Disk>(
    book: &mut CallBook<L, D>,
    alloc: Global,
    row: &RevRow,
    seat: Seat,
    call: &MirrorCall<'_>,
) -> Result<Reply, SyncFault>
    requires row { row.now ≡ L.cells }
    requires held { is_none (holder_of book.old) ≡ false }
    requires locked { IsLockedIn book.old }
    ensures stepped { Stepped book.old book.new seat (call_of call.now) result }
    ensures fits { IfOk result (IsFit (call_of call.now)) }
    ensures refused { IfErr result (IsRefusalOf (call_of call.now)) }
    ensures same { mirror_in (now_of book.new) ≡ mirror_in (now_of book.old) }
    ensures unstuck { is_stuck_in book.new ≡ false → is_stuck_in book.old ≡ false }
    ensures takes { TakesLock (call_of call.now) → IsErr result }
{
    let _head = book.repo().head();
    if is_held_by(book.holder(), seat) {
        return Err(book.turn_away(seat, call));
    }
    book.step(alloc, row, seat, call)
}

/// A call of a seat.
pub(crate) fn step_of<L: MirrorName, D: Disk>(
    book: &mut CallBook<L, D>,
    ledgers: &mut Ledgers<L>,
    spare: &mut Option<Hand<L>>,
    alloc: Global,
    row: &RevRow,
    seat: &mut JobSeat<L>,
    call: &MirrorCall<'_>,
) -> Result<Reply, SyncFault>
    requires row { row.now ≡ L.cells }
    requires kept { IsKeptIn book.old ledgers.old spare.old }
    ensures kept { IsKeptIn book.new ledgers.new spare.new }
    ensures stepped { Stepped book.old book.new (place_of seat.old) (call_of call.now) result }
    ensures fits { IfOk result (IsFit (call_of call.now)) }
    ensures refused { IfErr result (IsRefusalOf (call_of call.now)) }
    ensures seat { place_of seat.new ≡ place_of seat.old }
    ensures carried { CarriesHand seat.old seat.new (call_of call.now) result }
{
    let _head = book.repo().head();
    let JobSeat { place, hand } = seat;
    let job = Seat::new(*place as u64);
    match hand.take() {
        Some(own) => {
            let mut own = own;
            ledgers.audit(&mut own);
            with_hand(book, ledgers, spare, hand, own, alloc, row, job, call)
        }
        None => match spare.take() {
            Some(own) => with_hand(book, ledgers, spare, hand, own, alloc, row, job, call),
            None => step_beside(book, alloc, row, job, call),
        },
    }
}

/// The job leaves.
pub(crate) fn leave_of<L: MirrorName, D: Disk>(
    book: &mut CallBook<L, D>,
    ledgers: &mut Ledgers<L>,
    spare: &mut Option<Hand<L>>,
    seat: JobSeat<L>,
)
    requires kept { IsKeptIn book.old ledgers.old spare.old }
    ensures kept { IsKeptIn book.new ledgers.new spare.new }
    ensures left { job_at (jobs_of book.new) (place_of seat) ≡ None }
    ensures holder { ReleasesBy seat book.old book.new }
    ensures others { OthersStay (place_of seat) (jobs_of book.old) (jobs_of book.new) }
    ensures same { KeepsCalls book.old book.new }
{
    let JobSeat { place, hand } = seat;
    if let Some(own) = hand {
        let mut own = own;
        ledgers.audit(&mut own);
        ledgers.set_holder(&mut own, book.holder(), None);
        book.let_go();
        *spare = Some(own);
    }
    book.leave(place);
}
