//! Mirrors that are brought up to a master at once.
ghost use Rattle.std.specs.Prelude.{◌≡◌, ℕ, IfErr, IfOk, IfSome, Ok};
ghost use Rattle.std.specs.Arc.{arc_value};
ghost use Rattle.std.specs.List.{AllZip};
ghost use Rattle.mirror_share.specs.Names.{IsNamed};
ghost use Rattle.store_share.specs.Opened.{cells_of};
ghost use Rattle.fleet_shares.specs.Closing.{brings_at, AreBroughtIn, IsJudged};
ghost use Rattle.fleet_shares.specs.Opening.{HasStoresOf};
ghost use Rattle.fleet_shares.specs.Ran.{IsAnswerIn};
ghost use Rattle.fleet_shares.specs.Told.{stands, AreTold, IsAnswerOver, SameSlots};

use crate::answers::Answered;
use crate::brings::Brings;
use crate::opening::opened_fleet;
use crate::orders::sync_orders;
use crate::run::{run_shared, unshared};
use crate::shares::{FleetReaders, FleetShares, Readers};
use crate::stores::{FleetStores, OpenedFleet};
use crate::told::tell_all;
use fleet_disk::Disk;
use fleet_jobs::{Order, StartGate};
use mirror_share::MirrorName;
use node_base::Refusal;
use std::alloc::{AllocError, Global};
use std::marker::Brand;
use std::sync::{Arc, Wait};
use std::thread::Threads;
use store_share::RowName;

/// Brings each mirror up to the master by an order of its own, by that many workers, each a thread, and answers each in
/// its place: the newest revision of its store as it comes back, or why its job was refused. The mirror of a place is the
/// store of the slot with its number; where `refusals` has a refusal in a place, that is its answer. Failed (32) where its
/// job ended well and its store has a revision besides that isn't the master's, or fewer than the master was given with.
/// The job of a mirror for which no worker is left is run here. The stores come back. Only want of memory (70), that of a
/// thread among it, refuses the whole, before any order is run.
///
/// Each mirror that is answered with a number has what it had, and besides revisions of the master's as it comes back, up
/// to that number, which is no less than the newest that the master was given with; where all that it had was the
/// master's, all that it has is.
pub fn run_fleet<
    R: Threads + Wait + Clone + Send + Drop + 'static,
    D: Disk + Drop + Send + 'static,
    G: StartGate + Send + Sync + Drop + 'static,
>(
    rt: &R,
    alloc: Global,
    stores: FleetStores<D>,
    refusals: Vec<Option<Refusal>>,
    workers: usize,
    gate: G,
) -> (FleetStores<D>, Result<Vec<Answered>, AllocError>)
    ensures slots { SameSlots stores result.0 }
    ensures answers { IfOk result.1 (λ answers. AreTold D.Disk (IsJudged stores result.0) 0
        (stands 0 refusals.items result.0) answers.items) }
{
    let count = refusals.len();
    let orders = match sync_orders(alloc, count) {
        Ok(orders) => orders,
        Err(refused) => return (stores, Err(refused)),
    };
    let told = match Vec::with_capacity(alloc, count) {
        Ok(told) => told,
        Err(refused) => return (stores, Err(refused)),
    };
    let (stores, answers) = run_orders(rt, alloc, stores, orders, workers, gate);
    match answers {
        Ok((answers, brings)) => {
            let told = tell_all(&stores, &brings, refusals, answers, told);
            (stores, Ok(told))
        }
        Err(refused) => (stores, Err(refused)),
    }
}

// What comes of orders, and which mirrors were brought up.
type Ran = Result<(Vec<Answered>, Brings), AllocError>;

// Runs orders over stores, which come back.
fn run_orders<
    R: Threads + Wait + Clone + Send + Drop + 'static,
    D: Disk + Drop + Send + 'static,
    G: StartGate + Send + Sync + Drop + 'static,
>(
    rt: &R,
    alloc: Global,
    stores: FleetStores<D>,
    orders: Vec<Order>,
    workers: usize,
    gate: G,
) -> (FleetStores<D>, Ran)
    ensures slots { SameSlots stores result.0 }
    ensures answers { IfOk result.1 (λ ran. AllZip (IsAnswerOver stores) orders.items ran.0.items) }
    ensures brought { IfOk result.1 (λ ran. (slot : ℕ) → IsJudged stores result.0 slot (brings_at ran.1 slot)) }
{
    match opened_fleet(alloc, stores) {
        Ok(opened) => run_opened::<R, Brand, Brand, Brand, Brand, Brand, D, G>(
            rt, alloc, opened, orders, workers, gate,
        ),
        Err(stores) => (stores, Err(AllocError)),
    }
}

// Runs them over opened stores under the names of their rows and ledgers.
fn run_opened<
    R: Threads + Wait + Clone + Send + Drop + 'static,
    M: RowName + Send + Sync + 'static,
    L0: MirrorName + Send + Sync + 'static,
    L1: MirrorName + Send + Sync + 'static,
    L2: MirrorName + Send + Sync + 'static,
    L3: MirrorName + Send + Sync + 'static,
    D: Disk + Drop + Send + 'static,
    G: StartGate + Send + Sync + Drop + 'static,
>(
    rt: &R,
    alloc: Global,
    opened: OpenedFleet<D>,
    orders: Vec<Order>,
    workers: usize,
    gate: G,
) -> (FleetStores<D>, Ran)
    requires master { cells_of opened.master ≡ M.cells }
    requires first { IfSome opened.first (λ o. IsNamed o L0.cells L0.merged L0.copying L0.head L0.holder) }
    requires second { IfSome opened.second (λ o. IsNamed o L1.cells L1.merged L1.copying L1.head L1.holder) }
    requires third { IfSome opened.third (λ o. IsNamed o L2.cells L2.merged L2.copying L2.head L2.holder) }
    requires fourth { IfSome opened.fourth (λ o. IsNamed o L3.cells L3.merged L3.copying L3.head L3.holder) }
    ensures slots { HasStoresOf opened result.0 }
    ensures answers { IfOk result.1 (λ ran.
        AllZip (IsAnswerIn M.RowName L0.RowName L1.RowName L2.RowName L3.RowName opened) orders.items ran.0.items) }
    ensures brought { IfOk result.1 (λ ran. AreBroughtIn M.RowName L0.RowName L1.RowName L2.RowName L3.RowName
        opened result.0 ran.1) }
{
    let (shares, readers) = FleetShares::<M, L0, L1, L2, L3, D>::with_readers(alloc, opened);
    match shared(alloc, shares, readers) {
        Ok((shares, readers)) => {
            let answers = run_shared(rt, alloc, &shares, orders, workers, gate);
            let (stores, brings) = unshared(rt, shares).settle(readers);
            match answers {
                Ok(answers) => (stores, Ok((answers, brings))),
                Err(refused) => (stores, Err(refused)),
            }
        }
        Err(shares) => (shares.close(), Err(AllocError)),
    }
}

// Shares that threads may keep, and their readers. Only want of memory (70) refuses it, that for a reader among it, and the
// shares come back then.
fn shared<M: RowName, L0: MirrorName, L1: MirrorName, L2: MirrorName, L3: MirrorName, D: Disk>(
    alloc: Global,
    shares: FleetShares<M, L0, L1, L2, L3, D>,
    readers: Readers<M, L0, L1, L2, L3>,
) -> Result<
    (
        Arc<FleetShares<M, L0, L1, L2, L3, D>>,
        FleetReaders<M, L0, L1, L2, L3>,
    ),
    FleetShares<M, L0, L1, L2, L3, D>,
>
    ensures shares { IfOk result (λ p. arc_value p.0 ≡ shares) }
    ensures readers { IfOk result (λ p. readers ≡ Ok p.1) }
    ensures back { IfErr result (λ s. s ≡ shares) }
{
    match readers {
        Ok(readers) => match Arc::new(alloc, shares) {
            Ok(shares) => Ok((shares, readers)),
            Err(failed) => Err(failed.value),
        },
        Err(_) => Err(shares),
    }
}
