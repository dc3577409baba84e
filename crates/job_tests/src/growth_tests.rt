//! A growth of memory that is refused anywhere in a job: the tests here answer for a refusal themselves, at whatever growth
//! it comes. A preloaded malloc that answers nothing once, or `rt try --test --fail-alloc N`, refuses one.
use crate::jobs::{
    COMMITTED_1, COPIED_0, COPIED_BOTH, Order, Ran, ended, entries, job_over, some_file,
};
use crate::rows::{entries_of, is_at_rest, is_so, row_of, told_later};
use crate::values::{MASTER, OTHER, some_log, some_store, some_token, some_value};
use fleet_disk::MemDisk;
use node_base::RevNo;
use repo_store::RepoStore;
use std::alloc::Global;
use std::rt::HostRuntime;
use sync_job::LentMaster;

fn is_committed(alloc: Global, store: &mut RepoStore<MemDisk>) -> bool {
    let (Some(set), Some(props)) = (some_file(alloc, "a"), some_log(alloc, b"hi")) else {
        return false;
    };
    store.commit(alloc, RevNo::ZERO, set, props, None).is_ok()
}

fn is_edited(alloc: Global, store: &mut RepoStore<MemDisk>) -> bool {
    match some_log(alloc, b"ho") {
        Some(props) => store.put_props(alloc, RevNo::new(1), props).is_ok(),
        None => false,
    }
}

// The store, where something of it went well.
fn where_well(store: RepoStore<MemDisk>, is_well: bool) -> Option<RepoStore<MemDisk>> {
    if is_well {
        return Some(store);
    }
    let _disk = store.into_disk();
    None
}

// The master: one file in revision 1.
fn master(alloc: Global) -> Option<RepoStore<MemDisk>> {
    let mut store = some_store(alloc, MASTER)?;
    let is_well = is_committed(alloc, &mut store);
    where_well(store, is_well)
}

// A job at the mirror of a store, which comes back as the job's calls have left it; how it ended, where it began.
fn job(
    alloc: Global,
    store: RepoStore<MemDisk>,
    source: &RepoStore<MemDisk>,
    order: &Order,
) -> (RepoStore<MemDisk>, Option<Ran>) {
    let (Some(url), Some(token)) = (some_value(alloc, b"master"), some_token(alloc, b"job")) else {
        return (store, None);
    };
    let (store, ran) = job_over(alloc, LentMaster::new(source), store, order, url, token);
    (store, Some(ran))
}

// The store behind a job that ended so.
fn behind(
    alloc: Global,
    store: RepoStore<MemDisk>,
    source: &RepoStore<MemDisk>,
    order: &Order,
    wanted: Ran,
) -> Option<RepoStore<MemDisk>> {
    let (store, ran) = job(alloc, store, source, order);
    where_well(store, ran == Some(wanted))
}

// The mirror at which a job begins: empty; begun; or brought up to its master, of which the log was edited since.
fn begun(
    alloc: Global,
    source: &mut RepoStore<MemDisk>,
    order: &Order,
) -> Option<RepoStore<MemDisk>> {
    let store = some_store(alloc, OTHER)?;
    match order {
        Order::Initialize => Some(store),
        Order::Synchronize | Order::Steal => behind(
            alloc,
            store,
            source,
            &Order::Initialize,
            ended(COPIED_0, 0),
        ),
        Order::Copy(_, _) => {
            let store = behind(alloc, store, source, &Order::Initialize, ended(COPIED_0, 0))?;
            let store = behind(
                alloc,
                store,
                source,
                &Order::Synchronize,
                ended(COMMITTED_1, 0),
            )?;
            let is_well = is_edited(alloc, source);
            where_well(store, is_well)
        }
    }
}

// How many entries a mirror has where a job begins, and what the job tells in all.
fn before(order: &Order) -> (usize, u64) {
    match order {
        Order::Initialize => (1, COPIED_0),
        Order::Synchronize | Order::Steal => (2, COMMITTED_1),
        Order::Copy(_, _) => (9, COPIED_BOTH),
    }
}

// Whether a mirror stands as so many entries of a job make it, but that its lock may be given back.
fn stands(store: &RepoStore<MemDisk>, order: &Order, count: usize, is_released: bool) -> bool {
    let Some(((head, merged, copying, lock, log), _)) = row_of(order, count) else {
        return false;
    };
    let lock = if is_released { b"".as_slice() } else { lock };
    is_so(store, &(head, merged, copying, lock, log))
}

// Whether so many entries of a job tell that.
fn tells(order: &Order, count: usize, told: u64) -> bool {
    match row_of(order, count) {
        Some((_, due)) => told == due,
        None => false,
    }
}

// How many entries of a job stand but for the release, and whether the lock stays, behind one that the disk failed: the
// last one's gate may be open, and nothing told of it.
fn left_by_disk(
    store: &RepoStore<MemDisk>,
    order: &Order,
    count: usize,
    told: u64,
) -> Option<(usize, bool)> {
    let is_told = tells(order, count, told) || tells(order, count.saturating_sub(1), told);
    let is_so = is_told && stands(store, order, count, false);
    is_so.then_some((count, 0 < count && count < entries_of(order)))
}

// The same behind one that was refused otherwise: the lock is given back, but where that is what was refused.
fn left_by_job(
    store: &RepoStore<MemDisk>,
    order: &Order,
    count: usize,
    told: u64,
) -> Option<(usize, bool)> {
    let is_last = count.saturating_add(1) == entries_of(order);
    let may_stay = (count == 0 || is_last) && tells(order, count, told);
    if may_stay && stands(store, order, count, false) {
        return Some((count, count > 0));
    }
    let work = count.checked_sub(1)?;
    let is_released = tells(order, work, told) && stands(store, order, work, true);
    is_released.then_some((work, false))
}

fn left(
    store: &RepoStore<MemDisk>,
    order: &Order,
    count: usize,
    ran: Ran,
) -> Option<(usize, bool)> {
    match ran.number {
        31 => left_by_disk(store, order, count, ran.told),
        60 | 70 => left_by_job(store, order, count, ran.told),
        _ => None,
    }
}

// Whether a job ends so, and its store.
fn ends(
    alloc: Global,
    store: RepoStore<MemDisk>,
    source: &RepoStore<MemDisk>,
    order: &Order,
    wanted: Ran,
) -> (RepoStore<MemDisk>, bool) {
    let (store, ran) = job(alloc, store, source, order);
    (store, ran == Some(wanted))
}

// How a job ends behind one of its own that left so many entries and no lock.
fn again(order: &Order, work: usize) -> Ran {
    match order {
        Order::Initialize if work > 0 => ended(0, 52),
        Order::Initialize => ended(COPIED_0, 0),
        Order::Synchronize | Order::Steal => ended(told_later(work), 0),
        Order::Copy(_, _) => ended(COPIED_BOTH, 0),
    }
}

// How a synchronisation that steals ends behind these two.
fn stealing(order: &Order, work: usize, is_held: bool) -> Ran {
    match order {
        Order::Initialize => ended(COMMITTED_1, 0),
        Order::Synchronize | Order::Steal if is_held => again(order, work),
        Order::Synchronize | Order::Steal | Order::Copy(_, _) => ended(0, 0),
    }
}

// Whether the jobs behind a refused one do what it has left, where so many of its entries stand; and the mirror is then
// at rest, and as its master.
fn goes_on(
    alloc: Global,
    store: RepoStore<MemDisk>,
    source: &RepoStore<MemDisk>,
    order: &Order,
    work: usize,
    is_held: bool,
) -> bool {
    let due = if is_held {
        ended(0, 54)
    } else {
        again(order, work)
    };
    let (store, first) = ends(alloc, store, source, order, due);
    let due = stealing(order, work, is_held);
    let (store, second) = ends(alloc, store, source, &Order::Steal, due);
    let (store, third) = match order {
        Order::Initialize | Order::Synchronize | Order::Steal => (store, true),
        Order::Copy(_, _) => ends(alloc, store, source, order, ended(COPIED_BOTH, 0)),
    };
    first && second && third && is_at_rest(alloc, store.into_disk(), source)
}

// Whether a mirror behind a refused job stands as it is to be, once it is opened again, and goes on.
fn is_made_up(
    alloc: Global,
    disk: MemDisk,
    source: &RepoStore<MemDisk>,
    order: &Order,
    ran: Ran,
) -> bool {
    let (first, _) = before(order);
    let Ok(opened) = RepoStore::open(alloc, disk) else {
        return false;
    };
    // (an opening takes away what doesn't stand)
    let disk = opened.into_disk();
    let count = entries(&disk).saturating_sub(first);
    let Ok(store) = RepoStore::open(alloc, disk) else {
        return false;
    };
    match left(&store, order, count, ran) {
        Some((work, is_held)) => goes_on(alloc, store, source, order, work, is_held),
        None => {
            let _disk = store.into_disk();
            false
        }
    }
}

// Whether a job tells all, or is refused and made up for.
fn answers_for(
    alloc: Global,
    store: RepoStore<MemDisk>,
    source: &RepoStore<MemDisk>,
    order: &Order,
) -> bool {
    let (_, told) = before(order);
    let (store, ran) = job(alloc, store, source, order);
    let disk = store.into_disk();
    match ran {
        Some(ran) if ran.number > 0 => is_made_up(alloc, disk, source, order, ran),
        Some(ran) => ran.told == told,
        // (its words met the refusal)
        None => true,
    }
}

// Whether a job over a master that is there answers for a refusal; one that comes before isn't the job's.
fn tried(alloc: Global, order: &Order) -> bool {
    let Some(mut source) = master(alloc) else {
        return true;
    };
    let answer = match begun(alloc, &mut source, order) {
        Some(store) => answers_for(alloc, store, &source, order),
        None => true,
    };
    let _source = source.into_disk();
    answer
}

#[test]
fn an_initialisation_answers_for_a_growth(rt: HostRuntime) {
    assert!(rt; tried(rt.alloc(), &Order::Initialize));
}

#[test]
fn a_synchronisation_answers_for_a_growth(rt: HostRuntime) {
    assert!(rt; tried(rt.alloc(), &Order::Synchronize));
}

#[test]
fn a_copying_answers_for_a_growth(rt: HostRuntime) {
    assert!(rt; tried(rt.alloc(), &Order::Copy(0, 1)));
}
