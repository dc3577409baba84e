//! The job of an order on one mirror.
ghost use Rattle.std.specs.Prelude.{[], ◌≡◌, None, Ok, Err, IfOk, IfErr, OnErr};
ghost use Rattle.fleet_shares.specs.Answers.{Answers, AnswersOn, EndsAs, IsSeen};
ghost use Rattle.fleet_shares.specs.Jobs.{EndsBy, IsRunOf};
ghost use Rattle.mirror_share.specs.Seats.{hand_of};
ghost use Rattle.sync_core.specs.declared.fault.SyncFault.TheVariants as fault;
ghost use Rattle.sync_job.specs.Questions.{KeepsAnswers};
ghost use Rattle.sync_job.specs.Telling.{KeepsTelling};
ghost use Rattle.sync_job.specs.Words.{calls_of, master_of, mirror_of};

use crate::master::SharedMaster;
use crate::unheard::Unheard;
use fleet_disk::Disk;
use fleet_jobs::{Order, Work};
use mirror_share::{JobSeat, MirrorName, MirrorShare, SeatMirror};
use node_base::{Refusal, RevNo};
use std::alloc::Global;
use std::sync::Wait;
use store_share::{MasterShare, RowName};
use sync_core::{SyncFault, Token};
use sync_job::{JobPorts, MasterPort, MirrorPort, run_copy_revprops, run_sync};

/// Runs the job of an order on the mirror of a slot. NoRepository (34) where the slot is empty.
pub(crate) fn run_in<R: Wait, M: RowName, L: MirrorName, D: Disk>(
    rt: &R,
    alloc: Global,
    master: &MasterShare<M, D>,
    mirror: &Option<MirrorShare<L, D>>,
    order: &Order,
) -> Result<RevNo, SyncFault>
    ensures { AnswersOn master.now mirror.now order.now result }
{
    match mirror {
        Some(mirror) => run_on(rt, alloc, master, mirror, order),
        None => Err(SyncFault::Other(Refusal::NoRepository)),
    }
}

// Runs the job of an order on a mirror, and answers the mirror's newest revision after it. The job enters, and leaves
// whatever it answers. HolderRunning (55) where a job of its token runs there, OutOfMemory (70), or the refusal at which
// the job ended.
fn run_on<R: Wait, M: RowName, L: MirrorName, D: Disk>(
    rt: &R,
    alloc: Global,
    master: &MasterShare<M, D>,
    mirror: &MirrorShare<L, D>,
    order: &Order,
) -> Result<RevNo, SyncFault>
    ensures { Answers master.now mirror.now order.now result }
{
    let mut reader = mirror.enter_reader(rt, alloc)?;
    let seat = mirror.enter_job(rt, alloc, &order.token)?;
    let (seat, ended) = run_seated(rt, alloc, master, mirror, seat, order);
    mirror.leave(rt, seat);
    match ended {
        Ok(()) => Ok(mirror.latest(rt, &mut reader)),
        Err(fault) => Err(fault),
    }
}

// Runs the job of an order from a seat that doesn't hold the lock, which comes back whatever the job ends with.
fn run_seated<R: Wait, M: RowName, L: MirrorName, D: Disk>(
    rt: &R,
    alloc: Global,
    master: &MasterShare<M, D>,
    mirror: &MirrorShare<L, D>,
    seat: JobSeat<L>,
    order: &Order,
) -> (JobSeat<L>, Result<(), SyncFault>)
    requires { hand_of seat ≡ None }
    ensures { EndsAs master.now mirror.now order.now result.1 }
{
    let mirror = match SeatMirror::new(rt, alloc, mirror, seat) {
        Ok(mirror) => mirror,
        Err(seat) => return (seat, Err(SyncFault::OutOfMemory)),
    };
    let Ok(master) = SharedMaster::new(rt, alloc, master) else {
        return (mirror.into_seat(), Err(SyncFault::OutOfMemory));
    };
    let mut ports = JobPorts::new(alloc, master, mirror, Unheard);
    let ended = run_work(alloc, &mut ports, order);
    let (_master, mirror, _report) = ports.into_parts();
    (mirror.into_seat(), ended)
}

// Runs the job of an order over ports through which nothing was said yet. What is said from then on tells each call that
// the mirror is asked, and each question to the master.
fn run_work<M: MasterPort + Drop, N: MirrorPort + Drop>(
    alloc: Global,
    ports: &mut JobPorts<M, N, Unheard>,
    order: &Order,
) -> Result<(), SyncFault>
    requires { calls_of ports.old ≡ [] }
    ensures ended { EndsBy order.now (calls_of ports.new) result }
    ensures asked { KeepsTelling N.asked (mirror_of ports.old) (mirror_of ports.new) (calls_of ports.old)
        (calls_of ports.new) }
    ensures answered { KeepsAnswers M.answered (master_of ports.old) (master_of ports.new) (calls_of ports.old)
        (calls_of ports.new) }
{
    match order.token.copy(alloc) {
        Ok(token) => run_under(alloc, ports, order.work, token),
        Err(_) => Err(SyncFault::OutOfMemory),
    }
}

// The same under the order's token.
fn run_under<M: MasterPort + Drop, N: MirrorPort + Drop>(
    alloc: Global,
    ports: &mut JobPorts<M, N, Unheard>,
    work: Work,
    token: Token,
) -> Result<(), SyncFault>
    requires { calls_of ports.old ≡ [] }
    ensures ran { IsRunOf work token (calls_of ports.new) result }
    ensures asked { KeepsTelling N.asked (mirror_of ports.old) (mirror_of ports.new) (calls_of ports.old)
        (calls_of ports.new) }
    ensures answered { KeepsAnswers M.answered (master_of ports.old) (master_of ports.new) (calls_of ports.old)
        (calls_of ports.new) }
{
    match work {
        Work::Sync { steal } => run_sync(alloc, ports, token, steal),
        Work::Copy { low, high } => run_copy_revprops(alloc, ports, token, low, high),
    }
}
