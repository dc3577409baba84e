//! Stores that are opened for a fleet, all of them or none.
ghost use Rattle.std.specs.Prelude.{◌≡◌, IfErr, IfOk, is_some};
ghost use Rattle.store_share.specs.Opened.{cells_of};
ghost use Rattle.store_share.specs.Opened.{store_in as store_of};
ghost use Rattle.fleet_shares.specs.Opening.{has_store, stored_in, HasOpened, HasStores, IsOpenedFrom};

use crate::stores::{FleetStores, OpenedFleet};
use fleet_disk::Disk;
use mirror_share::OpenedMirror;
use repo_store::RepoStore;
use std::alloc::Global;
use std::marker::Brand;
use store_share::{OpenedStore, RowName};

// A slot whose store, if it has one, is opened, or left as it was for want of memory.
type Slot<D> = Result<Option<OpenedMirror<D>>, RepoStore<D>>;

/// The opened stores of a fleet. Where there is no memory for one of them, the stores come back.
pub(crate) fn opened_fleet<D: Disk + Drop>(
    alloc: Global,
    stores: FleetStores<D>,
) -> Result<OpenedFleet<D>, FleetStores<D>>
    ensures opened { IfOk result (HasOpened (is_some stores.first) (is_some stores.second) (is_some stores.third)
        (is_some stores.fourth)) }
    ensures from { IfOk result (IsOpenedFrom stores.master stores.first stores.second stores.third stores.fourth) }
    ensures left { IfErr result (HasStores (is_some stores.first) (is_some stores.second) (is_some stores.third)
        (is_some stores.fourth)) }
{
    let FleetStores {
        master,
        first,
        second,
        third,
        fourth,
    } = stores;
    let first = opened_in(alloc, first);
    let second = opened_in(alloc, second);
    let third = opened_in(alloc, third);
    let fourth = opened_in(alloc, fourth);
    match OpenedStore::of(alloc, master) {
        Ok(master) => whole(master, first, second, third, fourth),
        Err((_fault, master)) => Err(left(master, first, second, third, fourth)),
    }
}

// The opened store of a slot.
fn opened_in<D: Disk>(alloc: Global, store: Option<RepoStore<D>>) -> Slot<D>
    ensures has { has_store result ≡ is_some store }
    ensures from { stored_in result ≡ store }
{
    match store {
        Some(store) => match OpenedMirror::of(alloc, store) {
            Ok(opened) => Ok(Some(opened)),
            Err((_fault, store)) => Err(store),
        },
        None => Ok(None),
    }
}

// The fleet, where each slot is opened.
fn whole<D: Disk + Drop>(
    master: OpenedStore<D>,
    first: Slot<D>,
    second: Slot<D>,
    third: Slot<D>,
    fourth: Slot<D>,
) -> Result<OpenedFleet<D>, FleetStores<D>>
    ensures opened { IfOk result (HasOpened (has_store first) (has_store second) (has_store third)
        (has_store fourth)) }
    ensures from { IfOk result (IsOpenedFrom (store_of master) (stored_in first) (stored_in second) (stored_in third)
        (stored_in fourth)) }
    ensures left { IfErr result (HasStores (has_store first) (has_store second) (has_store third)
        (has_store fourth)) }
{
    match (first, second, third, fourth) {
        (Ok(first), Ok(second), Ok(third), Ok(fourth)) => Ok(OpenedFleet {
            master,
            first,
            second,
            third,
            fourth,
        }),
        (first, second, third, fourth) => Err(left(store_in(master), first, second, third, fourth)),
    }
}

// The stores, as they were.
fn left<D: Disk>(
    master: RepoStore<D>,
    first: Slot<D>,
    second: Slot<D>,
    third: Slot<D>,
    fourth: Slot<D>,
) -> FleetStores<D>
    ensures { HasStores (has_store first) (has_store second) (has_store third) (has_store fourth) result }
{
    FleetStores {
        master,
        first: left_in(first),
        second: left_in(second),
        third: left_in(third),
        fourth: left_in(fourth),
    }
}

fn left_in<D: Disk>(slot: Slot<D>) -> Option<RepoStore<D>>
    ensures { is_some result ≡ has_store slot }
{
    match slot {
        Ok(Some(opened)) => Some(store_in(opened.into_opened())),
        Ok(None) => None,
        Err(store) => Some(store),
    }
}

// The store of an opened one.
fn store_in<D: Disk>(opened: OpenedStore<D>) -> RepoStore<D> {
    unnamed::<Brand, D>(opened)
}

fn unnamed<L: RowName, D: Disk>(opened: OpenedStore<D>) -> RepoStore<D>
    requires { cells_of opened ≡ L.cells }
{
    let (book, _row) = opened.into_book::<L>();
    book.into_store()
}
