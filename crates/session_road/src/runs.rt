//! Runs over a mirror's store, whose master is asked over sessions in memory.

ghost use Rattle.byte_streams.specs.Causes.{Rose};
ghost use Rattle.session_road.specs.Served.{IsMirroredBySessions, IsRunOver};

use crate::served::ServedMaster;
use byte_streams::Output;
use fleet_disk::Disk;
use mirror_engines::{Work, run_work};
use node_base::Refusal;
use repo_core::Repo;
use repo_store::RepoStore;
use std::alloc::Global;

/// Runs the work over a mirror's store as `run_work` does. The master is this repository, heard through what a server of
/// it writes: whatever the run answers, the mirror is one of that repository wherever it was one before, and so is what
/// a stop leaves at any moment; its trees are the repository's first ones, and a synchronisation that is done has
/// brought all. So such a run is one of those of which `mirror_engines::law::every_history` speaks.
pub fn run_served<D: Disk + Drop, O: Output + Drop>(
    alloc: Global,
    mirror: RepoStore<D>,
    source: &Repo,
    work: Work,
    output: O,
) -> (RepoStore<D>, O, Result<(), Refusal>)
    ensures ran { IsRunOver source.now work mirror result.0 (O.contents output) (O.contents result.1)
        (Rose (O.failures output) (O.failures result.1)) result.2 }
    ensures mirrored { IsMirroredBySessions source.now work mirror result.0 result.2 }
{
    let master = ServedMaster::new(source);
    run_work(alloc, mirror, master, work, output)
}
