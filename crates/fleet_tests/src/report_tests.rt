//! Loads whose report is no output.
ghost use Rattle.std.specs.Prelude.{None};

use crate::dumps::{HEAD, NO_FILE, ONE_FILE, joined};
use crate::stores::{MASTER, created};
use byte_streams::CountedReader;
use fleet_disk::{Disk, MemDisk};
use node_base::{Refusal, RevNo};
use repo_store::RepoStore;
use std::alloc::Global;
use std::process::Abort;
use store_engines::{LoadReport, run_load};

// Counts the revisions that it is told of, and looks whether the store's head is that revision each time.
#[derive(Drop)]
struct Noted {
    count: u16,
    agreed: bool,
}

impl LoadReport for Noted {
    ghost contents = { λ noted. None };

    ghost failures = { λ noted. 0 };

    ghost told = { λ noted t. ⊥ };

    fn loaded<D: Disk + Drop>(
        &mut self,
        store: &RepoStore<D>,
        number: RevNo,
    ) -> Result<(), Refusal> {
        self.count = self.count.saturating_add(1);
        self.agreed = self.agreed && store.repo().head() == number;
        Ok(())
    }
}

// What is told of the revisions of these parts of a dump that are loaded.
fn loaded(rt: &impl Abort, alloc: Global, store: &mut RepoStore<MemDisk>, parts: &[&str]) -> Noted {
    let mut noted = Noted {
        count: 0,
        agreed: true,
    };
    let dump = joined(rt, alloc, parts);
    let mut input = CountedReader::new(dump.as_slice());
    if run_load(alloc, false, store, &mut input, &mut noted).is_err() {
        noted.agreed = false;
    }
    noted
}

// Whether a load is told of so many revisions, at the head each time.
fn is_told(
    rt: &impl Abort,
    alloc: Global,
    store: &mut RepoStore<MemDisk>,
    parts: &[&str],
    count: u16,
) -> bool {
    let noted = loaded(rt, alloc, store, parts);
    noted.agreed && noted.count == count
}

#[test]
fn a_report_is_told_of_what_the_store_has(rt: HostRuntime) {
    let alloc = rt.alloc();
    let mut store = created(&rt, alloc, MASTER);
    let third = ONE_FILE
        .replace(alloc, "Revision-number: 1", "Revision-number: 3")
        .expect(&rt, "memory");
    assert!(rt; is_told(&rt, alloc, &mut store, &[HEAD, ONE_FILE], 1));
    assert!(rt; is_told(&rt, alloc, &mut store, &[HEAD, NO_FILE, third.as_str()], 2));
    let _disk = store.into_disk();
}
