//! Runs over a mirror's store.
ghost use Rattle.std.specs.Prelude.{◌≡◌, ◌<◌, length, None};
ghost use Rattle.repo_core.specs.Repository.{Repository};
ghost use Rattle.repo_store.specs.Words.{repository_of, revisions_of, HasFailed};
ghost use Rattle.sync_job.specs.Alone.{begun, holder_of, store_of, StandsAt};
ghost use Rattle.mirror_engines.specs.Runs.{answer_of, told_as, IsCopied, IsInitialised, IsSynchronised, IsWorked};
ghost use Rattle.mirror_engines.specs.Runs.{IsRunOver, TellsOutput};
ghost use Rattle.mirror_engines.specs.Worlds.{Brings, IsInWorld};

use crate::printer::Printer;
use crate::work::Work;
use byte_streams::Output;
use fleet_disk::Disk;
use node_base::{PropValue, Refusal, RevNo};
use repo_store::RepoStore;
use std::alloc::Global;
use sync_core::{SyncFault, Token};
use sync_job::law::{ends_keep_all, runs_lead_mirrors};
use sync_job::{
    AloneMirror, JobPorts, MasterPort, run_copy_revprops as run_copy, run_init, run_sync,
};

/// Makes a repository without revisions the mirror of a master, which is reached by that URL. The mirror's store and
/// the output come back as the run has left them, with its answer: a refusal of the job, and where it wasn't refused
/// but a line couldn't be written PeerFailed (49).
pub fn run_initialize<D: Disk + Drop, M: MasterPort + Drop, O: Output + Drop>(
    alloc: Global,
    mirror: RepoStore<D>,
    master: M,
    url: PropValue,
    output: O,
) -> (RepoStore<D>, O, Result<(), Refusal>)
    ensures ran { IsRunOver M.MasterPort O.Output master (IsInitialised url) mirror output result.0 result.1
        result.2 }
    ensures world { IsInWorld M.MasterPort master mirror result.0 }
    ensures output { TellsOutput (O.failures output) (O.failures result.1) result.2 }
{
    let mut ports = JobPorts::new(alloc, master, held(mirror), Printer::new(output));
    let ended = run_init(alloc, &mut ports, url);
    let (_master, mirror, printer) = ports.into_parts();
    let answer = answer_of(ended, printer.is_lost());
    (mirror.into_store(), printer.into_output(), answer)
}

/// Brings a mirror up to its master, under a job's token. Where it is to steal, it takes a lock that stands.
pub fn run_synchronize<D: Disk + Drop, M: MasterPort + Drop, O: Output + Drop>(
    alloc: Global,
    mirror: RepoStore<D>,
    master: M,
    token: Token,
    steal: bool,
    output: O,
) -> (RepoStore<D>, O, Result<(), Refusal>)
    ensures ran { IsRunOver M.MasterPort O.Output master (IsSynchronised token steal) mirror output result.0 result.1
        result.2 }
    ensures world { IsInWorld M.MasterPort master mirror result.0 }
    ensures output { TellsOutput (O.failures output) (O.failures result.1) result.2 }
{
    let mut ports = JobPorts::new(alloc, master, held(mirror), Printer::new(output));
    let ended = run_sync(alloc, &mut ports, token, steal);
    let (_master, mirror, printer) = ports.into_parts();
    let answer = answer_of(ended, printer.is_lost());
    (mirror.into_store(), printer.into_output(), answer)
}

/// Copies the properties of the revisions from `low` to `high` to a mirror again, under a job's token.
pub fn run_copy_revprops<D: Disk + Drop, M: MasterPort + Drop, O: Output + Drop>(
    alloc: Global,
    mirror: RepoStore<D>,
    master: M,
    token: Token,
    low: RevNo,
    high: RevNo,
    output: O,
) -> (RepoStore<D>, O, Result<(), Refusal>)
    ensures ran { IsRunOver M.MasterPort O.Output master (IsCopied token low high) mirror output result.0 result.1
        result.2 }
    ensures world { IsInWorld M.MasterPort master mirror result.0 }
    ensures output { TellsOutput (O.failures output) (O.failures result.1) result.2 }
{
    let mut ports = JobPorts::new(alloc, master, held(mirror), Printer::new(output));
    let ended = run_copy(alloc, &mut ports, token, low, high);
    let (_master, mirror, printer) = ports.into_parts();
    let answer = answer_of(ended, printer.is_lost());
    (mirror.into_store(), printer.into_output(), answer)
}

/// Runs the work over a mirror's store and a master: as `run_initialize`, `run_synchronize` and `run_copy_revprops`.
/// Where the master's port tells what a repository is, and the mirror's trees were that one's first ones, they are so
/// whenever it stops; so it is of its change sets, where the port gives its own; and a synchronisation that is done has
/// left as many revisions.
pub fn run_work<D: Disk + Drop, M: MasterPort + Drop, O: Output + Drop>(
    alloc: Global,
    mirror: RepoStore<D>,
    master: M,
    work: Work,
    output: O,
) -> (RepoStore<D>, O, Result<(), Refusal>)
    ensures ran { IsRunOver M.MasterPort O.Output master (IsWorked work) mirror output result.0 result.1 result.2 }
    ensures brings { Brings M.MasterPort work master mirror result.0 result.2 }
    ensures output { TellsOutput (O.failures output) (O.failures result.1) result.2 }
{
    runs_lead_mirrors();
    ends_keep_all();
    let repo = mirror.repo();
    repo.is_repository();
    match work {
        Work::Initialize { url } => run_initialize(alloc, mirror, master, url, output),
        Work::Synchronize { token, steal } => {
            run_synchronize(alloc, mirror, master, token, steal, output)
        }
        Work::CopyRevprops { token, low, high } => {
            run_copy_revprops(alloc, mirror, master, token, low, high, output)
        }
    }
}

// A mirror in a store that nobody else has.
fn held<D: Disk + Drop>(store: RepoStore<D>) -> AloneMirror<D>
    ensures store { store_of result ≡ store }
    ensures stands { ¬ HasFailed store → StandsAt store None (begun (repository_of store)) }
    ensures holder { holder_of result ≡ None }
{
    let _repo = store.repo();
    AloneMirror::new(store)
}

// The answer of a run, by how its job ended and whether a line was lost.
fn answer_of(ended: Result<(), SyncFault>, lost: bool) -> Result<(), Refusal>
    ensures { result ≡ answer_of ended lost }
{
    match ended {
        Ok(()) => {
            if lost {
                return Err(Refusal::PeerFailed);
            }
            Ok(())
        }
        Err(fault) => Err(told_as(Refusal::from(fault))),
    }
}

// A job's refusal as its run answers it.
fn told_as(refusal: Refusal) -> Refusal
    ensures { result ≡ told_as refusal }
{
    if refusal.number() == 49 {
        return Refusal::OutOfTurn;
    }
    refusal
}
