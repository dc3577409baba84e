//! Ports over one share, where others commit and change properties.

ghost use Rattle.std.specs.Prelude.{◌≡◌};
ghost use Rattle.store_share.specs.Opened.{cells_of};

use crate::client_sessions::URL;
use crate::clients::{READING, told, told_by_store};
use crate::stores::{copy_of_it, log, long_store, short_store};
use fleet_disk::MemDisk;
use node_base::{PropName, RevNo};
use ra_serve::{PortFault, RepoPort};
use repo_core::Expected;
use repo_store::RepoStore;
use std::alloc::Global;
use std::marker::Brand;
use std::process::Abort;
use std::rt::HostRuntime;
use std::sync::Wait;
use std::thread;
use std::thread::Threads;
use store_share::{MasterShare, OpenedStore, RowName};
use svn_ends::MasterSharePort;

type Share<L> = MasterShare<L, MemDisk>;

type Port<'a, R, L> = MasterSharePort<'a, R, L, MemDisk>;

// An opened store.
fn opened(rt: &impl Abort, alloc: Global, store: RepoStore<MemDisk>) -> OpenedStore<MemDisk> {
    OpenedStore::of(alloc, store)
        .map_err(|refused| refused.0)
        .expect(rt, "a row")
}

// A port over a share.
fn port<'a, R: Wait + Abort, L: RowName>(
    rt: &'a R,
    alloc: Global,
    share: &'a Share<L>,
    mirror: bool,
) -> Port<'a, R, L> {
    MasterSharePort::new(rt, alloc, share, mirror).expect(rt, "a port")
}

// Whether a port over a share tells what a store of one's own does.
fn tells_the_same<R: Wait + Abort, L: RowName>(rt: &R, alloc: Global, share: &Share<L>) -> bool {
    let mut port = port(rt, alloc, share, false);
    let by_share = told(rt, alloc, &mut port, URL, READING);
    let answer = by_share.is_some() && by_share == told_by_store(rt, alloc, URL, READING);
    drop(port);
    answer
}

// Commits the copy.
fn commit_copy<R: Wait + Abort, L: RowName>(rt: &R, alloc: Global, share: &Share<L>) -> RevNo {
    let mut seat = share.enter_reader(rt, alloc).expect(rt, "a seat");
    let set = copy_of_it(rt, alloc);
    let props = log(rt, alloc, b"two");
    share
        .commit(rt, alloc, &mut seat, RevNo::new(1), set, props, None)
        .expect(rt, "a revision")
}

// Whether a port that has seen revision 1 sees the one that another seat commits, and no later one.
fn sees_a_commit<R: Wait + Abort, L: RowName>(rt: &R, alloc: Global, share: &Share<L>) -> bool {
    let mut reader = port(rt, alloc, share, false);
    let before = reader.latest() == Ok(RevNo::new(1));
    let number = commit_copy(rt, alloc, share);
    let answer = before
        && number == RevNo::new(2)
        && reader.replay_of(number).is_ok()
        && reader.trees().len() == 2
        && reader.latest() == Ok(number)
        && reader.tree(RevNo::new(3)).err() == Some(PortFault::NoSuchRevision)
        && told(rt, alloc, &mut reader, URL, READING) == told_by_store(rt, alloc, URL, READING);
    drop(reader);
    answer
}

// Whether a change through one port is there for another, which then refuses the same change.
fn sees_a_change<R: Wait + Abort, L: RowName>(rt: &R, alloc: Global, share: &Share<L>) -> bool {
    let mut writer = port(rt, alloc, share, false);
    let mut reader = port(rt, alloc, share, false);
    let name = PropName::parse(alloc, b"svn:log").expect(rt, "a name");
    let one = RevNo::new(1);
    let made = writer.change_prop(one, &name, Some(b"new"), &Expected::DontCare);
    let props = reader.props(one).expect(rt, "properties");
    let answer = made == Ok(()) && props.get(b"svn:log") == Some(b"new".as_slice());
    drop((writer, reader));
    answer
}

// Whether no revision that a port calls the newest goes back or lacks its tree, over so many looks.
fn never_goes_back<R: Wait + Abort, L: RowName>(
    rt: &R,
    alloc: Global,
    share: &Share<L>,
    looks: u32,
) -> bool {
    let mut reader = port(rt, alloc, share, false);
    let mut last = RevNo::new(0);
    let mut all = true;
    for _ in 0..looks {
        let now = reader.latest().expect(rt, "a number");
        all = all && last <= now && reader.tree(now).is_ok();
        last = now;
    }
    drop(reader);
    all
}

// Whether commits in a thread of their own never make a look of another thread's port go back.
fn goes_on_beside_a_commit<R: Threads + Wait + Abort + Sync, L: RowName + Send + Sync>(
    rt: &R,
    alloc: Global,
    share: &Share<L>,
) -> bool {
    let (number, all) = thread::join(
        rt,
        move || commit_copy(rt, alloc, share),
        move || never_goes_back(rt, alloc, share, 100),
    );
    all && number == RevNo::new(2)
}

// What is asked of a share.
#[derive(Clone, Copy, Drop)]
enum Case {
    Same,
    Commit,
    Change,
    Beside,
}

fn judged<R: Threads + Wait + Abort + Sync, L: RowName + Send + Sync>(
    rt: &R,
    alloc: Global,
    share: &Share<L>,
    case: Case,
) -> bool {
    match case {
        Case::Same => tells_the_same(rt, alloc, share),
        Case::Commit => sees_a_commit(rt, alloc, share),
        Case::Change => sees_a_change(rt, alloc, share),
        Case::Beside => goes_on_beside_a_commit(rt, alloc, share),
    }
}

// The same of an opened store.
fn judged_of<R: Threads + Wait + Abort + Sync, L: RowName + Send + Sync>(
    rt: &R,
    alloc: Global,
    opened: OpenedStore<MemDisk>,
    case: Case,
) -> bool
    requires { cells_of opened ≡ L.cells }
{
    let share = opened.named::<L>();
    let answer = judged(rt, alloc, &share, case);
    let store = share.close().into_store();
    let _disk = store.into_disk();
    answer
}

fn passes<R: Threads + Wait + Abort + Sync>(
    rt: &R,
    alloc: Global,
    store: RepoStore<MemDisk>,
    case: Case,
) -> bool {
    let opened = opened(rt, alloc, store);
    judged_of::<R, Brand>(rt, alloc, opened, case)
}

#[test]
fn a_share_is_told_as_a_store(rt: HostRuntime) {
    let store = long_store(&rt, rt.alloc());
    assert!(rt; passes(&rt, rt.alloc(), store, Case::Same));
}

#[test]
fn a_commit_is_seen_by_another_seat(rt: HostRuntime) {
    let store = short_store(&rt, rt.alloc());
    assert!(rt; passes(&rt, rt.alloc(), store, Case::Commit));
}

#[test]
fn a_change_is_seen_by_another_port(rt: HostRuntime) {
    let store = short_store(&rt, rt.alloc());
    assert!(rt; passes(&rt, rt.alloc(), store, Case::Change));
}

#[test]
fn no_look_goes_back_beside_a_commit(rt: HostRuntime) {
    let store = short_store(&rt, rt.alloc());
    assert!(rt; passes(&rt, rt.alloc(), store, Case::Beside));
}
