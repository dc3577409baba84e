//! What a mirror's whole history comes to.
ghost use Rattle.mirror_engines.specs.Histories.{EveryHistory};

use fleet_disk::Disk;
use repo_store::one_verdict;
use sync_core::law::every_run;

/// Does nothing: its contract says what has become of a mirror that was made fresh, behind any list of runs over its
/// store and its master's, each stopped at any moment or ended, whatever it answered, and the store opened again on
/// what was left there, while the master goes on between them: it is a mirror of the master.
pub fn every_history<D: Disk + Drop>()
    ensures { EveryHistory D.Disk }
{
    every_run();
    one_verdict();
}
