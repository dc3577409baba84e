//! Two seats that fetch a revision while a third thread commits it, and a mirror that is brought up from a master whose
//! properties were changed.

ghost use Rattle.std.specs.Prelude.{◌≡◌};
ghost use Rattle.mirror_share.specs.Names.{IsNamed};
ghost use Rattle.store_share.specs.Opened.{cells_of};

use crate::board::Board;
use crate::crowd::{begins, ran};
use crate::crowd_made::{MIRROR, blank_disk, mirror_on, opened};
use crate::stores::{copied, disk, log, log_name};
use dump_load::ChangeSet;
use fleet_disk::MemDisk;
use mirror_share::{MirrorName, MirrorShare, OpenedMirror};
use node_base::{NodePath, Props, RevNo};
use path_tree::Tree;
use repo_core::Expected;
use std::alloc::Global;
use std::marker::Brand;
use std::process::Abort;
use std::rt::HostRuntime;
use std::sync::Wait;
use std::sync::atomic::{AtomicU64, Ordering};
use std::thread;
use std::thread::Threads;
use std::time::{Clock, Duration};
use store_share::{MasterShare, OpenedStore, ReaderSeat, RowName};

// How often a thread looks for what another does, each time a millisecond later.
const TURNS: u32 = 10_000;

// What a thread answers that saw something else than it is to.
const MISSED: u8 = 255;

// The two seats that have entered, and have asked for revision 2 in vain.
#[derive(Drop)]
struct Waiting {
    seats: AtomicU64,
}

// Whether the set copies the directory `t` of revision 1 to `b`, and nothing else.
fn is_the_copy(rt: &impl Abort, alloc: Global, set: &ChangeSet) -> bool {
    let path = NodePath::parse(alloc, b"b").expect(rt, "a path");
    if set.changes().len() != 1 {
        return false;
    }
    let change = &set.changes()[0];
    let from = match &change.source {
        Some(source) => source.revision,
        None => return false,
    };
    change.path == path && from == RevNo::new(1)
}

// Whether the tree has the root, `b` and `t`.
fn has_both(rt: &impl Abort, alloc: Global, tree: &Tree) -> bool {
    let old = NodePath::parse(alloc, b"t").expect(rt, "a path");
    let new = NodePath::parse(alloc, b"b").expect(rt, "a path");
    let count = match tree.list(alloc) {
        Ok(entries) => entries.len(),
        Err(_) => 0,
    };
    count == 3 && tree.get(old.names()).is_some() && tree.get(new.names()).is_some()
}

// What the seat's fetch of revision 2 comes to: the number of its refusal; 0 where the set is the copy, the seat reads the
// tree that it makes, and revision 3 is none (21).
fn fetches<R: Wait + Abort, L: RowName>(
    rt: &R,
    alloc: Global,
    share: &MasterShare<L, MemDisk>,
    seat: &mut ReaderSeat<L>,
) -> u8 {
    let set = match share.fetch(rt, alloc, seat, RevNo::new(2)) {
        Ok((set, _props)) => set,
        Err(fault) => return fault.number(),
    };
    let above = match share.fetch(rt, alloc, seat, RevNo::new(3)) {
        Ok(_) => 0,
        Err(fault) => fault.number(),
    };
    match share.read_at(seat, RevNo::new(2)) {
        Some(rev)
            if above == 21 && is_the_copy(rt, alloc, &set) && has_both(rt, alloc, &rev.tree) => {
            0
        }
        _ => MISSED,
    }
}

// A seat that asks for revision 2 until it is there; it is refused (21) at first.
fn waits<R: Wait + Abort + Clock, L: RowName>(
    rt: &R,
    alloc: Global,
    share: &MasterShare<L, MemDisk>,
    waiting: &Waiting,
) -> u8 {
    let mut seat = share.enter_reader(rt, alloc).expect(rt, "a seat");
    if fetches(rt, alloc, share, &mut seat) != 21 {
        return MISSED;
    }
    waiting.seats.fetch_add(1, Ordering::SeqCst);
    for _turn in 0..TURNS {
        match fetches(rt, alloc, share, &mut seat) {
            21 => thread::sleep(rt, Duration::from_millis(1)),
            other => return other,
        }
    }
    MISSED
}

// Commits the copy once both seats wait for it.
fn commits<R: Wait + Abort + Clock, L: RowName>(
    rt: &R,
    alloc: Global,
    share: &MasterShare<L, MemDisk>,
    waiting: &Waiting,
) -> u8 {
    let mut seat = share.enter_reader(rt, alloc).expect(rt, "a seat");
    for _turn in 0..TURNS {
        if waiting.seats.load(Ordering::SeqCst) >= 2 {
            break;
        }
        thread::sleep(rt, Duration::from_millis(1));
    }
    let set = copied(rt, alloc, b"b");
    let props = log(rt, alloc, b"two");
    match share.commit(rt, alloc, &mut seat, RevNo::new(1), set, props, None) {
        Ok(_number) => 0,
        Err(fault) => fault.number(),
    }
}

/// Two threads whose seats fetch revision 2, and a third that commits it: whether each did as it is to.
pub(crate) fn fetch_beside<R: Threads + Wait + Abort + Clock + Sync, L: RowName + Send + Sync>(
    rt: &R,
    alloc: Global,
    share: &MasterShare<L, MemDisk>,
) -> bool {
    let waiting = Waiting {
        seats: AtomicU64::new(0),
    };
    let answers = thread::map_indices(
        rt,
        alloc,
        3,
        &|i| match i {
            0 => commits(rt, alloc, share, &waiting),
            _ => waits(rt, alloc, share, &waiting),
        },
    )
    .expect(rt, "threads");
    answers.iter().all(|answer| *answer == 0)
}

// Whether properties have this log.
fn has(props: &Props, text: &[u8]) -> bool {
    props.get(b"svn:log") == Some(text)
}

// Changes the log `hi` of revision 1 to `ho`, and then puts its properties with the log `hu`: each is seen at once.
fn changes_twice<R: Wait + Abort, L: RowName>(
    rt: &R,
    alloc: Global,
    share: &MasterShare<L, MemDisk>,
) -> bool {
    let number = RevNo::new(1);
    let name = log_name(rt, alloc);
    let any = Expected::DontCare;
    let before = share.fetch_props(rt, number).expect(rt, "properties");
    share
        .change_prop(rt, alloc, number, &name, Some(b"ho"), &any)
        .expect(rt, "a change");
    let first = share.fetch_props(rt, number).expect(rt, "properties");
    share
        .put_props(rt, alloc, number, log(rt, alloc, b"hu"))
        .expect(rt, "a change");
    let second = share.fetch_props(rt, number).expect(rt, "properties");
    has(&before, b"hi") && has(&first, b"ho") && has(&second, b"hu")
}

// Whether the first sync of a mirror that was begun just before gives it the master's second map of revision 1.
fn has_second_map<R: Wait + Abort, M: RowName, L: MirrorName>(
    rt: &R,
    alloc: Global,
    master: &MasterShare<M, MemDisk>,
    mirror: &MirrorShare<L, MemDisk>,
) -> bool {
    let board = Board::new(false);
    let changed = changes_twice(rt, alloc, master);
    let begun = begins(rt, alloc, mirror);
    let number = ran(rt, alloc, master, mirror, &board, b"a", false);
    let copied = mirror.rev_props(rt, RevNo::new(1)).expect(rt, "properties");
    changed && begun && number == 0 && has(&copied, b"hu")
}

fn copied_of<R: Wait + Abort, M: RowName, L: MirrorName>(
    rt: &R,
    alloc: Global,
    source: OpenedStore<MemDisk>,
    target: OpenedMirror<MemDisk>,
) -> bool
    requires source { cells_of source ≡ M.cells }
    requires target { IsNamed target L.cells L.merged L.copying L.head L.holder }
{
    let master = source.named::<M>();
    let mirror = MirrorShare::<L, MemDisk>::of(alloc, target);
    let answer = has_second_map(rt, alloc, &master, &mirror);
    let _disk = master.close().into_store().into_disk();
    let _disk = mirror.close().into_book().into_store().into_disk();
    answer
}

fn copy<R: Wait + Abort>(rt: &R, alloc: Global) -> bool {
    let source = opened(rt, alloc, disk(rt, alloc));
    let target = mirror_on(rt, alloc, blank_disk(rt, alloc, MIRROR));
    copied_of::<R, Brand, Brand>(rt, alloc, source, target)
}

#[test]
fn a_first_sync_gives_the_second_map(rt: HostRuntime) {
    assert!(rt; copy(&rt, rt.alloc()));
}
