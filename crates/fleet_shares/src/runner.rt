//! The runner of a fleet over shares.
ghost use Rattle.std.specs.Prelude.{◌≡◌};
ghost use Rattle.std.specs.Arc.{arc_value};

use crate::job::run_in;
use crate::shares::FleetShares;
use fleet_disk::Disk;
use fleet_jobs::{Order, Runner};
use mirror_share::MirrorName;
use node_base::{Refusal, RevNo};
use std::alloc::Global;
use std::sync::{Arc, Wait};
use store_share::RowName;
use sync_core::SyncFault;

/// What runs the jobs of orders over shares. It keeps one `Arc` of these: who keeps another has the shares back once the
/// fleet is finished.
#[derive(Drop)]
pub struct SharesRunner<
    M: RowName,
    L0: MirrorName,
    L1: MirrorName,
    L2: MirrorName,
    L3: MirrorName,
    D: Disk,
> {
    alloc: Global,
    shares: Arc<FleetShares<M, L0, L1, L2, L3, D>>,
}

impl<
    M: RowName,
    L0: MirrorName,
    L1: MirrorName,
    L2: MirrorName,
    L3: MirrorName,
    D: Disk,
> SharesRunner<M, L0, L1, L2, L3, D> {
    ghost use Rattle.fleet_shares.specs.Runners.{shares_of};

    /// The runner of these shares. The memory of its jobs is that of `alloc`.
    pub fn new(
        alloc: Global,
        shares: Arc<FleetShares<M, L0, L1, L2, L3, D>>,
    ) -> SharesRunner<M, L0, L1, L2, L3, D>
        ensures { shares_of result ≡ arc_value shares }
    {
        SharesRunner { alloc, shares }
    }
}

impl<M: RowName, L0: MirrorName, L1: MirrorName, L2: MirrorName, L3: MirrorName, D: Disk> Runner
    for SharesRunner<M, L0, L1, L2, L3, D> {
    ghost use Rattle.fleet_shares.specs.Runners.{shares_of, has_mirror, MayAnswer};

    ghost has_slot = { λ runner slot. has_mirror (shares_of runner) slot };

    ghost may_answer = { λ runner order answer. MayAnswer (shares_of runner) order answer };

    fn has(&self, mirror: usize) -> bool {
        match mirror {
            0 => self.shares.first.is_some(),
            1 => self.shares.second.is_some(),
            2 => self.shares.third.is_some(),
            3 => self.shares.fourth.is_some(),
            _ => false,
        }
    }

    fn run<R: Wait>(&self, rt: &R, order: &Order) -> Result<RevNo, SyncFault> {
        let shares = &*self.shares;
        match order.mirror {
            0 => run_in(rt, self.alloc, &shares.master, &shares.first, order),
            1 => run_in(rt, self.alloc, &shares.master, &shares.second, order),
            2 => run_in(rt, self.alloc, &shares.master, &shares.third, order),
            3 => run_in(rt, self.alloc, &shares.master, &shares.fourth, order),
            _ => Err(SyncFault::Other(Refusal::NoRepository)),
        }
    }
}
