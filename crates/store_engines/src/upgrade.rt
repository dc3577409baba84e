//! `upgrade` over any disk and output.
ghost use Rattle.std.specs.Prelude.{IfErr, OnOk};
ghost use Rattle.fleet_engines.specs.Streams.{TellsFailure};
ghost use Rattle.store_engines.specs.Upgrades.{RefusesUpgrade, Upgrades};

use byte_streams::Output;
use fleet_disk::Disk;
use fleet_engines::write_count;
use node_base::Refusal;
use repo_store::{RepoStore, store_refusal};
use std::alloc::Global;

/// Makes a store whose log is of the first version one of the second, whose entries have sums, and tells in a line how
/// many that were; one of the second is left alone, and 0 is told. The repository stays, and at each moment a stop
/// leaves what keeps it, so it may be stopped and made again. The disk comes back.
///
/// DeviceFailed (31), Failed (32) after a failure of the device, OutOfMemory (70), and of a disk that isn't honest
/// Damaged (33), with nothing written; or PeerFailed (49), where the line can't be written, and the log is of the second
/// version.
pub fn run_upgrade<D: Disk + Drop, O: Output>(
    alloc: Global,
    store: RepoStore<D>,
    output: &mut O,
) -> (D, Result<(), Refusal>)
    ensures done { OnOk result.1 (Upgrades O.Output output.old output.new store result.0) }
    ensures refused { IfErr result.1 (RefusesUpgrade O.Output output.old output.new store result.0) }
    ensures peer { TellsFailure O.failures output.old output.new result.1 }
{
    match store.upgrade(alloc) {
        Ok((upgraded, count)) => {
            let told = write_count(output, b"Upgraded ", count, b" entries.\n");
            (upgraded.into_disk(), told)
        }
        Err((fault, disk)) => (disk, Err(store_refusal(fault))),
    }
}
