//! Orders that are run over shares.
ghost use Rattle.std.specs.Prelude.{◌≡◌, IfOk};
ghost use Rattle.std.specs.List.{AllZip};
ghost use Rattle.std.specs.Arc.{arc_value};
ghost use Rattle.fleet_shares.specs.Opening.{HasClosed};
ghost use Rattle.fleet_shares.specs.Runners.{MayAnswer};

use crate::answers::{Answered, answer_all};
use crate::runner::SharesRunner;
use crate::shares::FleetShares;
use crate::stores::FleetStores;
use fleet_disk::Disk;
use fleet_jobs::{Fleet, Order, StartGate};
use mirror_share::MirrorName;
use std::alloc::{AllocError, Global};
use std::sync::{Arc, Wait};
use std::thread;
use std::thread::Threads;
use store_share::RowName;

/// Runs orders over shares by that many workers, each a thread, and answers each in its place: the mirror's newest
/// revision after its job, or why it was refused, NoRepository (34) where its slot is empty. The job of an order for which
/// no worker is left is run here. Only want of memory (70), that of a thread among it, refuses the whole, before any order
/// is run.
pub fn run_shared<
    R: Threads + Wait + Clone + Send + Drop + 'static,
    M: RowName + Send + Sync + 'static,
    L0: MirrorName + Send + Sync + 'static,
    L1: MirrorName + Send + Sync + 'static,
    L2: MirrorName + Send + Sync + 'static,
    L3: MirrorName + Send + Sync + 'static,
    D: Disk + Drop + Send + 'static,
    G: StartGate + Send + Sync + Drop + 'static,
>(
    rt: &R,
    alloc: Global,
    shares: &Arc<FleetShares<M, L0, L1, L2, L3, D>>,
    orders: Vec<Order>,
    workers: usize,
    gate: G,
) -> Result<Vec<Answered>, AllocError>
    ensures { IfOk result (λ answers. AllZip (MayAnswer (arc_value shares.now)) orders.items answers.items) }
{
    let dues = Vec::with_capacity(alloc, orders.len())?;
    let answers = Vec::with_capacity(alloc, orders.len())?;
    let own = SharesRunner::new(alloc, Arc::try_clone(shares)?);
    let runner = SharesRunner::new(alloc, Arc::try_clone(shares)?);
    let fleet = Fleet::start(rt, alloc, runner, workers, gate)?;
    Ok(answer_all(rt, alloc, fleet, &own, orders, dues, answers))
}

/// The stores of shares, once nobody else keeps them any more, as once their fleet is finished. Waits while somebody
/// does.
pub fn stores_of<
    R: Wait,
    M: RowName,
    L0: MirrorName,
    L1: MirrorName,
    L2: MirrorName,
    L3: MirrorName,
    D: Disk,
>(rt: &R, shares: Arc<FleetShares<M, L0, L1, L2, L3, D>>) -> FleetStores<D>
    ensures slots { HasClosed (arc_value shares) result }
{
    unshared(rt, shares).close()
}

/// Shares that nobody else keeps any more. Waits while somebody does.
pub(crate) fn unshared<
    R: Wait,
    M: RowName,
    L0: MirrorName,
    L1: MirrorName,
    L2: MirrorName,
    L3: MirrorName,
    D: Disk,
>(rt: &R, shares: Arc<FleetShares<M, L0, L1, L2, L3, D>>) -> FleetShares<M, L0, L1, L2, L3, D>
    ensures { result ≡ arc_value shares }
{
    let mut kept = shares;
    for _ in rt.forever() {
        match Arc::try_unwrap(kept) {
            Ok(shares) => return shares,
            Err(shares) => kept = shares,
        }
        thread::yield_now();
    }
    unreachable!()
}
