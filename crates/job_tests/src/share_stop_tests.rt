//! A device that fails under a shared mirror.

ghost use Rattle.mirror_share.specs.Names.{IsNamed};

use crate::calls::{Kind, Parts};
use crate::shares::{blank, called, seat};
use fleet_disk::{Fuse, FuseDisk, MemDisk, Pick};
use mirror_share::{JobSeat, MirrorName, MirrorShare, OpenedMirror};
use node_base::RevNo;
use repo_store::RepoStore;
use std::alloc::Global;
use std::marker::Brand;
use std::process::Abort;
use std::rt::HostRuntime;
use std::sync::Wait;
use sync_core::MirrorCall;

type Failing = FuseDisk<MemDisk>;

// Whether a call that isn't done is told that the device failed (31), once more that it failed before (32), and a look
// is answered; None where it is done.
fn is_stopped<R: Wait, L: MirrorName>(
    rt: &R,
    alloc: Global,
    share: &MirrorShare<L, Failing>,
    seat: &mut JobSeat<L>,
    call: &MirrorCall<'_>,
) -> Option<bool> {
    let number = called(rt, alloc, share, seat, call);
    if number == 0 {
        return None;
    }
    let again = called(rt, alloc, share, seat, call);
    let look = called(rt, alloc, share, seat, &MirrorCall::Look);
    Some((number, again, look) == (31, 32, 0))
}

// The first calls of a mirror.
const FIRST: [Kind; 4] = [Kind::Init, Kind::Take, Kind::Copying, Kind::Commit];

// Whether that is so of the first of them that isn't done.
fn is_stopped_well<R: Wait + Abort, L: MirrorName>(
    rt: &R,
    alloc: Global,
    share: &MirrorShare<L, Failing>,
) -> bool {
    let mut seat = seat(rt, alloc, share, b"a");
    let parts = Parts::new(alloc, b"a").expect(rt, "memory");
    for kind in &FIRST {
        if let Some(well) = is_stopped(rt, alloc, share, &mut seat, &parts.call(*kind)) {
            return well;
        }
    }
    true
}

fn judged<R: Wait + Abort, L: MirrorName>(
    rt: &R,
    alloc: Global,
    opened: OpenedMirror<Failing>,
) -> (MemDisk, bool)
    requires { IsNamed opened L.cells L.merged L.copying L.head L.holder }
{
    let share = MirrorShare::<L, Failing>::of(alloc, opened);
    let answer = is_stopped_well(rt, alloc, &share);
    let store = share.close().into_book().into_store();
    (store.into_disk().into_inner(), answer)
}

// A device that fails for good after so many calls; and what was written opens as a mirror of one revision at most.
fn fails_well<R: Wait + Abort>(rt: &R, alloc: Global, calls: u64) -> bool {
    let disk = FuseDisk::new(blank(rt, alloc), calls, Fuse::ForGood);
    let Ok(store) = RepoStore::open(alloc, disk) else {
        return true;
    };
    let Ok(opened) = OpenedMirror::of(alloc, store) else {
        rt.abort()
    };
    let (disk, answer) = judged::<R, Brand>(rt, alloc, opened);
    let again = disk.crash(Pick::New).expect(rt, "memory");
    let opens = match RepoStore::open(alloc, again) {
        Ok(store) => {
            let head = store.repo().head();
            let _disk = store.into_disk();
            head <= RevNo::new(1)
        }
        Err(_) => false,
    };
    answer && opens
}

#[test]
fn a_device_that_fails_is_told(rt: HostRuntime) {
    let mut all = true;
    for calls in 0..48 {
        all = fails_well(&rt, rt.alloc(), calls) && all;
    }
    assert!(rt; all);
}
