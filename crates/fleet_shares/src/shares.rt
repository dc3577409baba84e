//! A master and the mirrors of four slots, each on a disk that threads share.
ghost use Rattle.std.specs.Prelude.{◌≡◌, IfOk, IfSome, is_some, if◌then◌else◌, false};
ghost use Rattle.mirror_share.specs.Names.{IsNamed};
ghost use Rattle.mirror_share.specs.Seen.{HasSeenAll};
ghost use Rattle.repo_store.specs.Words.{repository_of};
ghost use Rattle.store_share.specs.Opened.{cells_of, store_in};
ghost use Rattle.fleet_shares.specs.Closing.{AreReaders, IsReadBy};

use crate::brings::Brings;
use crate::closing::{settled, stays};
use crate::stores::{FleetStores, OpenedFleet};
use fleet_disk::Disk;
use mirror_share::{MirrorName, MirrorShare, OpenedMirror};
use repo_store::RepoStore;
use std::alloc::{AllocError, Global};
use store_share::{MasterShare, OpenedStore, ReaderSeat, RowName};

/// A master's share and the mirrors' in four slots, each empty or a share. Each share has a name of its own, so that no
/// seat of one is used at another.
#[derive(Drop)]
pub struct FleetShares<
    M: RowName,
    L0: MirrorName,
    L1: MirrorName,
    L2: MirrorName,
    L3: MirrorName,
    D: Disk,
> {
    pub master: MasterShare<M, D>,
    pub first: Option<MirrorShare<L0, D>>,
    pub second: Option<MirrorShare<L1, D>>,
    pub third: Option<MirrorShare<L2, D>>,
    pub fourth: Option<MirrorShare<L3, D>>,
}

/// The seats of readers, who have seen all that was opened. None where there is no mirror.
#[derive(Drop)]
pub(crate) struct FleetReaders<M: RowName, L0: RowName, L1: RowName, L2: RowName, L3: RowName> {
    pub(crate) master: ReaderSeat<M>,
    pub(crate) first: Option<ReaderSeat<L0>>,
    pub(crate) second: Option<ReaderSeat<L1>>,
    pub(crate) third: Option<ReaderSeat<L2>>,
    pub(crate) fourth: Option<ReaderSeat<L3>>,
}

/// The same, where there was memory for each.
pub(crate) type Readers<M, L0, L1, L2, L3> = Result<FleetReaders<M, L0, L1, L2, L3>, AllocError>;

// That of a slot, where there was memory for it.
type SlotReader<L> = Result<Option<ReaderSeat<L>>, AllocError>;

impl<
    M: RowName,
    L0: MirrorName,
    L1: MirrorName,
    L2: MirrorName,
    L3: MirrorName,
    D: Disk,
> FleetShares<M, L0, L1, L2, L3, D> {
    ghost use Rattle.fleet_shares.specs.Closing.{AreBroughtSince, HaveSeenAll};
    ghost use Rattle.fleet_shares.specs.Opening.{HasClosed, HasShares};

    /// The shares of opened stores under the names of their rows and ledgers. Nobody runs at a mirror, and no seat holds its sync
    /// lock, whatever token that has.
    pub fn of(alloc: Global, opened: OpenedFleet<D>) -> FleetShares<M, L0, L1, L2, L3, D>
        requires master { cells_of opened.master ≡ M.cells }
        requires first { IfSome opened.first (λ o. IsNamed o L0.cells L0.merged L0.copying L0.head L0.holder) }
        requires second { IfSome opened.second (λ o. IsNamed o L1.cells L1.merged L1.copying L1.head L1.holder) }
        requires third { IfSome opened.third (λ o. IsNamed o L2.cells L2.merged L2.copying L2.head L2.holder) }
        requires fourth { IfSome opened.fourth (λ o. IsNamed o L3.cells L3.merged L3.copying L3.head L3.holder) }
        ensures slots { HasShares opened result }
    {
        let (shares, _readers) = FleetShares::with_readers(alloc, opened);
        shares
    }

    /// The same with the seat of a reader for each, who has seen all that was opened. Only want of memory (70) refuses
    /// these.
    pub(crate) fn with_readers(
        alloc: Global,
        opened: OpenedFleet<D>,
    ) -> (
        FleetShares<M, L0, L1, L2, L3, D>,
        Readers<M, L0, L1, L2, L3>,
    )
        requires master { cells_of opened.master ≡ M.cells }
        requires first { IfSome opened.first (λ o. IsNamed o L0.cells L0.merged L0.copying L0.head L0.holder) }
        requires second { IfSome opened.second (λ o. IsNamed o L1.cells L1.merged L1.copying L1.head L1.holder) }
        requires third { IfSome opened.third (λ o. IsNamed o L2.cells L2.merged L2.copying L2.head L2.holder) }
        requires fourth { IfSome opened.fourth (λ o. IsNamed o L3.cells L3.merged L3.copying L3.head L3.holder) }
        ensures slots { HasShares opened result.0 }
        ensures readers { IfOk result.1 (HaveSeenAll opened) }
    {
        let OpenedFleet {
            master,
            first,
            second,
            third,
            fourth,
        } = opened;
        let (master, theirs) = master_of(alloc, master);
        let (first, first_reader) = mirror_of(alloc, first);
        let (second, second_reader) = mirror_of(alloc, second);
        let (third, third_reader) = mirror_of(alloc, third);
        let (fourth, fourth_reader) = mirror_of(alloc, fourth);
        (
            FleetShares {
                master,
                first,
                second,
                third,
                fourth,
            },
            all_read(
                theirs,
                first_reader,
                second_reader,
                third_reader,
                fourth_reader,
            ),
        )
    }

    /// The stores, each with all that was taken.
    pub fn close(self) -> FleetStores<D>
        ensures slots { HasClosed self result }
    {
        let FleetShares {
            master,
            first,
            second,
            third,
            fourth,
        } = self;
        FleetStores {
            master: master.close().into_store(),
            first: store_of(first),
            second: store_of(second),
            third: store_of(third),
            fourth: store_of(fourth),
        }
    }

    /// The same, and which mirrors have been brought up to the master since these readers saw all that was opened.
    pub(crate) fn settle(self, readers: FleetReaders<M, L0, L1, L2, L3>) -> (FleetStores<D>, Brings)
        ensures slots { HasClosed self result.0 }
        ensures brought { AreBroughtSince result.1 readers result.0 }
    {
        let FleetShares {
            master,
            first,
            second,
            third,
            fourth,
        } = self;
        let mut master = master.close();
        let had = readers.master.seen();
        let stays = stays(&mut master, readers.master);
        let (first, first_up) = settled(&master, had, first, readers.first);
        let (second, second_up) = settled(&master, had, second, readers.second);
        let (third, third_up) = settled(&master, had, third, readers.third);
        let (fourth, fourth_up) = settled(&master, had, fourth, readers.fourth);
        (
            FleetStores {
                master: master.into_store(),
                first,
                second,
                third,
                fourth,
            },
            Brings {
                first: both(stays, first_up),
                second: both(stays, second_up),
                third: both(stays, third_up),
                fourth: both(stays, fourth_up),
            },
        )
    }
}

// The share of a master, and the seat of a reader.
fn master_of<M: RowName, D: Disk>(
    alloc: Global,
    opened: OpenedStore<D>,
) -> (MasterShare<M, D>, Result<ReaderSeat<M>, AllocError>)
    requires { cells_of opened ≡ M.cells }
    ensures { IfOk result.1 (λ t. HasSeenAll t (repository_of (store_in opened))) }
{
    let (mut book, row) = opened.into_book::<M>();
    match row.notes(alloc) {
        Ok(notes) => {
            book.is_whole();
            let reader = book.seat_reader(notes);
            (MasterShare::new(book, row), Ok(reader))
        }
        Err(refused) => (MasterShare::new(book, row), Err(refused)),
    }
}

// The share of a slot, and the seat of a reader.
fn mirror_of<L: MirrorName, D: Disk>(
    alloc: Global,
    opened: Option<OpenedMirror<D>>,
) -> (Option<MirrorShare<L, D>>, SlotReader<L>)
    requires { IfSome opened (λ o. IsNamed o L.cells L.merged L.copying L.head L.holder) }
    ensures some { is_some result.0 ≡ is_some opened }
    ensures read { IfOk result.1 (IsReadBy opened) }
{
    match opened {
        Some(opened) => {
            let (share, reader) = MirrorShare::<L, D>::with_reader(alloc, opened);
            match reader {
                Ok(reader) => (Some(share), Ok(Some(reader))),
                Err(refused) => (Some(share), Err(refused)),
            }
        }
        None => (None, Ok(None)),
    }
}

// The seats of all readers, where none was refused.
fn all_read<M: RowName, L0: RowName, L1: RowName, L2: RowName, L3: RowName>(
    master: Result<ReaderSeat<M>, AllocError>,
    first: SlotReader<L0>,
    second: SlotReader<L1>,
    third: SlotReader<L2>,
    fourth: SlotReader<L3>,
) -> Readers<M, L0, L1, L2, L3>
    ensures { IfOk result (AreReaders master first second third fourth) }
{
    match (master, first, second, third, fourth) {
        (Ok(master), Ok(first), Ok(second), Ok(third), Ok(fourth)) => Ok(FleetReaders {
            master,
            first,
            second,
            third,
            fourth,
        }),
        _ => Err(AllocError),
    }
}

// Whether both are so.
fn both(stays: bool, is_brought: bool) -> bool
    ensures { result ≡ (if stays then is_brought else false) }
{
    if stays {
        return is_brought;
    }
    false
}

// The store of a slot.
fn store_of<L: MirrorName, D: Disk>(share: Option<MirrorShare<L, D>>) -> Option<RepoStore<D>>
    ensures { is_some result ≡ is_some share }
{
    match share {
        Some(share) => Some(share.close().into_book().into_store()),
        None => None,
    }
}
