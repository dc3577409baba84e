//! The masters and mirrors that the tests share.
ghost use Rattle.std.specs.Prelude.{◌≡◌, None};
ghost use Rattle.mirror_share.specs.Seats.{hand_of};

use crate::calls::{Kind, Parts};
use crate::jobs;
use crate::values::{MASTER, OTHER, created, log, number_of, some_store, token};
use dump_load::{Change, ChangeSet};
use fleet_disk::{Disk, MemDisk};
use mirror_share::{JobSeat, MirrorName, MirrorShare, OpenedMirror};
use node_base::{Action, NodeKind, NodePath, Props, RevNo};
use repo_store::RepoStore;
use std::alloc::Global;
use std::process::Abort;
use std::sync::Wait;
use sync_core::{MirrorCall, Reply, SyncFault};
use sync_job::Report;

/// How many revisions a master has above revision 0.
pub(crate) const REVISIONS: u16 = 8;

/// Nobody is told.
#[derive(Drop)]
pub(crate) struct Untold {}

impl Report for Untold {
    ghost heard = { λ now first told. Unit {0} };

    fn committed(&mut self, _number: RevNo) {}

    fn copied(&mut self, _number: RevNo) {}
}

/// A set that adds a directory.
pub(crate) fn some_added(alloc: Global, at: &[u8]) -> Option<ChangeSet> {
    let path = NodePath::parse(alloc, at).ok()?;
    let mut changes = Vec::new(alloc);
    changes.reserve(1).ok()?;
    changes.push_reserved(Change {
        path,
        action: Action::Add,
        kind: Some(NodeKind::Dir),
        source: None,
        props: Some(Props::empty()),
        text: None,
    });
    ChangeSet::from_changes(changes).ok()
}

/// An opened store of revision 0 alone.
pub(crate) fn some_opened(alloc: Global) -> Option<OpenedMirror<MemDisk>> {
    let store = some_store(alloc, OTHER)?;
    match OpenedMirror::of(alloc, store) {
        Ok(opened) => Some(opened),
        Err((_, store)) => {
            let _disk = store.into_disk();
            None
        }
    }
}

/// A master with a directory in each revision, all with the log `hi`, the second edited to `ho`.
pub(crate) fn master(rt: &impl Abort, alloc: Global) -> RepoStore<MemDisk> {
    let mut store = created(rt, alloc, MASTER);
    for i in 0..REVISIONS {
        let path = [b'a' + (i as u8 & 7)];
        let set = some_added(alloc, &path).expect(rt, "a set");
        let head = store.repo().head();
        let _committed = store
            .commit(alloc, head, set, log(rt, alloc, b"hi"), None)
            .expect(rt, "a revision");
    }
    store
        .put_props(alloc, RevNo::new(2), log(rt, alloc, b"ho"))
        .expect(rt, "properties");
    store
}

/// A mirror that is opened on a disk.
pub(crate) fn opened<D: Disk + Drop>(rt: &impl Abort, alloc: Global, disk: D) -> OpenedMirror<D> {
    match OpenedMirror::of(alloc, jobs::opened(rt, alloc, disk)) {
        Ok(opened) => opened,
        Err(_refused) => rt.abort(),
    }
}

/// The disk of a mirror that isn't initialized.
pub(crate) fn blank(rt: &impl Abort, alloc: Global) -> MemDisk {
    created(rt, alloc, OTHER).into_disk()
}

/// A seat for a job.
pub(crate) fn seat<R: Wait + Abort, L: MirrorName, D: Disk>(
    rt: &R,
    alloc: Global,
    share: &MirrorShare<L, D>,
    text: &[u8],
) -> JobSeat<L>
    ensures { hand_of result ≡ None }
{
    share
        .enter_job(rt, alloc, &token(rt, alloc, text))
        .expect(rt, "a seat")
}

/// The number of the refusal of a call, 0 where there is none.
pub(crate) fn called<R: Wait, L: MirrorName, D: Disk>(
    rt: &R,
    alloc: Global,
    share: &MirrorShare<L, D>,
    seat: &mut JobSeat<L>,
    call: &MirrorCall<'_>,
) -> u8 {
    number_of(share.step(rt, alloc, seat, call))
}

/// Makes the mirror one of a master that has the log `hi` on revision 0.
pub(crate) fn begun<R: Wait + Abort, L: MirrorName>(
    rt: &R,
    alloc: Global,
    share: &MirrorShare<L, MemDisk>,
    seat: &mut JobSeat<L>,
) -> u8 {
    let parts = Parts::new(alloc, b"i").expect(rt, "memory");
    let answer = called(rt, alloc, share, seat, &parts.call(Kind::Init));
    drop(parts);
    answer
}

/// Whether a look's answer tells this head, and so much merged.
pub(crate) fn is_at(answer: Result<Reply, SyncFault>, head: u16, merged: &[u8]) -> bool {
    match answer {
        Ok(Reply::Seen(standing)) => match &standing.merged_text {
            Some(text) => standing.head == RevNo::new(head) && text.as_slice() == merged,
            None => false,
        },
        _ => false,
    }
}
