//! The stores of a fleet.
ghost use Rattle.std.specs.Prelude.{◌≡◌, ◌≢◌, ◌<◌, ℕ, Some, None};
ghost use Rattle.std.specs.Option.{option_map};
ghost use Rattle.repo_core.specs.Repository.{head_of};
ghost use Rattle.repo_store.specs.Words.{revisions_of};

use fleet_disk::Disk;
use mirror_share::OpenedMirror;
use node_base::RevNo;
use repo_store::RepoStore;
use store_share::OpenedStore;

/// The opened stores of a master, and of a mirror in each of four slots that isn't empty.
#[derive(Drop)]
pub struct OpenedFleet<D: Disk> {
    pub master: OpenedStore<D>,
    pub first: Option<OpenedMirror<D>>,
    pub second: Option<OpenedMirror<D>>,
    pub third: Option<OpenedMirror<D>>,
    pub fourth: Option<OpenedMirror<D>>,
}

impl<D: Disk> OpenedFleet<D> {
    /// Of a master, with no mirror yet.
    pub fn of(master: OpenedStore<D>) -> OpenedFleet<D>
        ensures { (result.master ≡ master) × (result.first ≡ None) × (result.second ≡ None) × (result.third ≡ None)
            × (result.fourth ≡ None) }
    {
        OpenedFleet {
            master,
            first: None,
            second: None,
            third: None,
            fourth: None,
        }
    }
}

/// The stores of a master and of the mirrors, in their slots.
#[derive(Drop)]
pub struct FleetStores<D: Disk> {
    pub master: RepoStore<D>,
    pub first: Option<RepoStore<D>>,
    pub second: Option<RepoStore<D>>,
    pub third: Option<RepoStore<D>>,
    pub fourth: Option<RepoStore<D>>,
}

impl<D: Disk + Drop> FleetStores<D> {
    ghost use Rattle.fleet_shares.specs.Stores.{store_at};

    /// Of a master, with no mirror yet.
    pub fn of(master: RepoStore<D>) -> FleetStores<D>
        ensures { (result.master ≡ master) × (result.first ≡ None) × (result.second ≡ None) × (result.third ≡ None)
            × (result.fourth ≡ None) }
    {
        FleetStores {
            master,
            first: None,
            second: None,
            third: None,
            fourth: None,
        }
    }

    /// The master's store.
    pub fn into_master(self) -> RepoStore<D>
        ensures { result ≡ self.master }
    {
        let FleetStores {
            master,
            first,
            second,
            third,
            fourth,
        } = self;
        drop(first);
        drop(second);
        drop(third);
        drop(fourth);
        master
    }

    /// Puts a mirror's store into the slot of that number, of four, in place of what is there.
    pub fn put(self, slot: usize, store: RepoStore<D>) -> FleetStores<D>
        requires { slot < 4 }
        ensures put { store_at result slot ≡ Some store }
        ensures others { (other : ℕ) → other ≢ slot → store_at result other ≡ store_at self other }
        ensures master { result.master ≡ self.master }
    {
        let mut stores = self;
        drop(match slot {
            0 => stores.first.replace(store),
            1 => stores.second.replace(store),
            2 => stores.third.replace(store),
            _ => stores.fourth.replace(store),
        });
        stores
    }

    /// Takes a mirror's store out of the slot of that number. None where there is none.
    pub fn take(&mut self, slot: usize) -> Option<RepoStore<D>>
        ensures taken { result ≡ store_at self.old slot }
        ensures others { (other : ℕ) → other ≢ slot → store_at self.new other ≡ store_at self.old other }
        ensures master { self.new.master ≡ self.old.master }
    {
        match slot {
            0 => self.first.take(),
            1 => self.second.take(),
            2 => self.third.take(),
            3 => self.fourth.take(),
            _ => None,
        }
    }

    /// The newest revision of the mirror in the slot of that number. None where there is none.
    pub fn head_at(&self, slot: usize) -> Option<RevNo>
        ensures { result ≡ option_map (λ s. head_of (revisions_of s)) (store_at self.now slot) }
    {
        match slot {
            0 => head_in(&self.first),
            1 => head_in(&self.second),
            2 => head_in(&self.third),
            3 => head_in(&self.fourth),
            _ => None,
        }
    }
}

// The newest revision of a slot's store.
fn head_in<D: Disk>(store: &Option<RepoStore<D>>) -> Option<RevNo>
    ensures { result ≡ option_map (λ s. head_of (revisions_of s)) store.now }
{
    match store {
        Some(store) => Some(store.repo().head()),
        None => None,
    }
}
