//! Runs of a job at a seat of a shared mirror.
ghost use Rattle.std.specs.Prelude.{◌≡◌, None};
ghost use Rattle.sync_core.specs.Jobs.{Sync, CopyProps, begun};
ghost use Rattle.sync_job.specs.Ports.{RunsCopy, RunsSync};
ghost use Rattle.sync_job.specs.Words.{calls_of, mirror_of};
ghost use Rattle.mirror_share.specs.Ports.{seat_of};
ghost use Rattle.mirror_share.specs.Seats.{hand_of};
ghost use Rattle.mirror_share.specs.Served.{IsServedIn};

use crate::name::MirrorName;
use crate::port::SeatMirror;
use fleet_disk::Disk;
use node_base::RevNo;
use std::alloc::Global;
use std::sync::Wait;
use sync_core::{SyncFault, Token};
use sync_job::{JobPorts, MasterPort, Report, run_copy_revprops, run_sync};

/// Brings a shared mirror up to its master, from a seat that doesn't hold the lock: as `sync_job::run_sync`. From the
/// answer to its lock call to its release none of its calls is refused for the lock (59) or the turn (61), a look tells
/// what its last look and its own calls since left, and behind each of its calls the seat has the hand: no other seat's
/// call takes the lock or steals it then ([`crate::MirrorShare::step_beside`]).
pub fn run_sync_at<'a, W: Wait, L: MirrorName, D: Disk, M: MasterPort + Drop, R: Report + Drop>(
    alloc: Global,
    ports: &mut JobPorts<M, SeatMirror<'a, W, L, D>, R>,
    token: Token,
    steal: bool,
) -> Result<(), SyncFault>
    requires { hand_of (seat_of (mirror_of ports.old)) ≡ None }
    ensures run { RunsSync R.Report ports.old ports.new token steal result }
    ensures served { IsServedIn (begun (Sync token steal)) (calls_of ports.old) (calls_of ports.new) }
{
    run_sync(alloc, ports, token, steal)
}

/// Copies the properties of the revisions from `low` to `high` to a shared mirror again, from a seat that doesn't hold
/// the lock: as `sync_job::run_copy_revprops`, and what [`run_sync_at`] says of its calls.
pub fn run_copy_revprops_at<
    'a,
    W: Wait,
    L: MirrorName,
    D: Disk,
    M: MasterPort + Drop,
    R: Report + Drop,
>(
    alloc: Global,
    ports: &mut JobPorts<M, SeatMirror<'a, W, L, D>, R>,
    token: Token,
    low: RevNo,
    high: RevNo,
) -> Result<(), SyncFault>
    requires { hand_of (seat_of (mirror_of ports.old)) ≡ None }
    ensures run { RunsCopy R.Report ports.old ports.new token low high result }
    ensures served { IsServedIn (begun (CopyProps token)) (calls_of ports.old) (calls_of ports.new) }
{
    run_copy_revprops(alloc, ports, token, low, high)
}
