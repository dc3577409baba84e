//! A mirror over a source that a server has.
ghost use Rattle.std.specs.Prelude.{◌≡◌, ◌⊎◌, IfErr, IfOk, OnOk};
ghost use Rattle.repo_store.specs.Words.{disk_of, HasFailed};
ghost use Rattle.mirror_engines.specs.Runs.{IsWorked};
ghost use Rattle.fleet_main.specs.Doing.{WorkedOn, untold};
ghost use Rattle.fleet_main.specs.Pulling.{NotKeptFor, work_as};
ghost use Rattle.fleet_main.specs.Pulling.{DeliversPull, DoesPull, EndsPull, FailsAtPull, RefusesPull, RefusesPullOn};
ghost use Rattle.fleet_main.specs.Pulling.{RefusesWorkIn, SucceedsAtPull, WorksIn};
ghost use Rattle.fleet_main.specs.Making.{PathsStay};

use crate::execute::{refused, url_of};
use crate::folders::{closed, opened};
use crate::lending::Folders;
use byte_streams::Output;
use command_words::{Pull, Task};
use fleet_disk::Disk;
use fleet_engines::hand_on;
use mirror_engines::Work;
use node_base::Refusal;
use repo_store::RepoStore;
use sockets::Peer;
use std::alloc::Global;
use std::net::{Net, TcpStream};
use std::time::Duration;
use svn_ends::{Source, run_work_from};

// The work that a task is.
fn work_of(alloc: Global, url: &str, task: Task) -> Result<Work, Refusal>
    ensures work { IfOk result (λ w. w ≡ work_as url.now task) }
    ensures refused { (text : _) → IfErr result (NotKeptFor task url.now text text) }
{
    match task {
        Task::Initialize => match url_of(alloc, url) {
            Ok(url) => Ok(Work::Initialize { url }),
            Err(refusal) => Err(refusal),
        },
        Task::Synchronize { token, steal } => Ok(Work::Synchronize { token, steal }),
        Task::CopyRevprops { token, range } => Ok(Work::CopyRevprops {
            token,
            low: range.first(),
            high: range.last(),
        }),
    }
}

// The mirror's store comes back.
fn pull_opened<R: Net<Stream = TcpStream>, D: Disk + Drop, O: Output + Drop>(
    rt: &R,
    alloc: Global,
    mirror: RepoStore<D>,
    source: Source<'_>,
    work: Work,
    output: O,
) -> (RepoStore<D>, O, Result<(), Refusal>)
    ensures done { OnOk result.2 (WorkedOn untold (IsWorked work) (O.contents output) (O.contents result.1) mirror
        result.0) }
    ensures refused { RefusesPullOn O.Output mirror result.0 output result.1 work result.2 }
    ensures rules { ¬ HasFailed mirror → D.honest (disk_of mirror) → D.honest (disk_of result.0) }
    ensures unfailed { OnOk result.2 (O.failures result.1 ≡ O.failures output) }
{
    run_work_from(rt, alloc, mirror, source, work, output)
}

// The mirror's folder is opened first.
fn pull_folder<R: Net<Stream = TcpStream>, F: Folders, O: Output + Drop>(
    rt: &R,
    alloc: Global,
    folders: &mut F,
    mirror: &str,
    source: Source<'_>,
    work: Work,
    output: O,
) -> (O, Result<(), Refusal>)
    ensures done { WorksIn F.Place.Disk F.Folders O.Output folders.old folders.new output result.0 mirror.now work
        result.1 }
    ensures refused { RefusesWorkIn F.Place.Disk F.Folders O.Output folders.old folders.new output result.0 mirror.now
        work result.1 }
    ensures unfailed { OnOk result.1 (O.failures result.0 ≡ O.failures output) }
    ensures paths { PathsStay F.lacks F.lasts folders.old folders.new }
{
    match opened(alloc, folders, mirror) {
        Ok(store) => {
            let (store, output, done) = pull_opened(rt, alloc, store, source, work, output);
            closed(folders, mirror, store);
            (output, done)
        }
        Err(refusal) => (output, Err(refusal)),
    }
}

// By what words ask for.
fn pull_asked<R: Net<Stream = TcpStream>, F: Folders, O: Output + Drop>(
    rt: &R,
    alloc: Global,
    folders: &mut F,
    pull: Pull,
    output: O,
) -> (O, Result<(), Refusal>)
    ensures done { DoesPull F.Place.Disk F.Folders O.Output folders.old folders.new output result.0 pull result.1 }
    ensures refused { RefusesPull F.Place.Disk F.Folders O.Output folders.old folders.new output result.0 pull
        result.1 }
    ensures unfailed { OnOk result.1 (O.failures result.0 ≡ O.failures output) }
    ensures paths { PathsStay F.lacks F.lasts folders.old folders.new }
{
    let Pull {
        mirror,
        url,
        port,
        seconds,
        deltas,
        task,
    } = pull;
    let mirror = mirror.as_str();
    let url = url.as_str();
    let peer = Peer {
        port,
        patience: Duration::from_secs(u64::from(seconds)),
    };
    let source = Source {
        peer,
        url: url.as_bytes(),
        deltas,
    };
    match work_of(alloc, url, task) {
        Ok(work) => pull_folder(rt, alloc, folders, mirror, source, work, output),
        Err(refusal) => (output, Err(refusal)),
    }
}

// The answer, when what was written is handed on.
fn pull_flushed<R: Net<Stream = TcpStream>, F: Folders, O: Output + Drop>(
    rt: &R,
    alloc: Global,
    folders: &mut F,
    pull: Pull,
    output: O,
) -> (O, Result<(), Refusal>)
    ensures done { DeliversPull F.Place.Disk F.Folders O.Output folders.old folders.new output result.0 pull result.1 }
    ensures refused { EndsPull F.Place.Disk F.Folders O.Output folders.old folders.new output result.0 pull result.1 }
    ensures handed { OnOk result.1 (O.is_handed_on result.0) }
    ensures unfailed { OnOk result.1 (O.failures result.0 ≡ O.failures output) }
    ensures paths { PathsStay F.lacks F.lasts folders.old folders.new }
{
    let (output, done) = pull_asked(rt, alloc, folders, pull, output);
    let mut output = output;
    let flushed = hand_on(&mut output);
    match done {
        Ok(()) => (output, flushed),
        Err(refusal) => (output, Err(refusal)),
    }
}

/// Does over a folder's mirror and a source that a server on a port of 127.0.0.1 has what `run` does over two folders:
/// the mirror's folder is opened first, then the connection. The status is 0 where it is done and what it wrote is
/// handed on, or 1 where it was refused, and then the refusal's line is on `errors`: what refuses an opening, TooLong
/// (8) for a URL that no property takes, PeerFailed (49) where nobody listens on the port or the output failed,
/// MasterFailed (60) where the server fails, refuses, sends what is no answer, or says nothing for as many seconds as it
/// may; else what the run is refused for. The output comes back.
///
/// Of honest folders it says besides what repository the mirror's disk kept, that a stop at any moment leaves it as the
/// first so many calls of the run made it, and that its folder has that disk again in the end, and every other folder
/// what it had. Folders that were honest still are. What the server has no clause says: it is as it answers.
pub fn pull<R: Net<Stream = TcpStream>, F: Folders, O: Output + Drop, E: Output>(
    rt: &R,
    alloc: Global,
    folders: &mut F,
    pull: Pull,
    output: O,
    errors: &mut E,
) -> (u8, O)
    ensures status { (result.0 ≡ 0) ⊎ (result.0 ≡ 1) }
    ensures paths { PathsStay F.lacks F.lasts folders.old folders.new }
    ensures done { SucceedsAtPull F.Place.Disk F.Folders O.Output folders.old folders.new output result.1 pull
        result.0 }
    ensures handed { result.0 ≡ 0 → O.is_handed_on result.1 }
    ensures unfailed { result.0 ≡ 0 → O.failures result.1 ≡ O.failures output }
    ensures silent { result.0 ≡ 0 → E.contents errors.new ≡ E.contents errors.old }
    ensures refused { FailsAtPull F.Place.Disk F.Folders O.Output E.Output folders.old folders.new output result.1
        errors.old errors.new pull result.0 }
{
    let (output, done) = pull_flushed(rt, alloc, folders, pull, output);
    match done {
        Ok(()) => (0, output),
        Err(refusal) => (refused(&refusal, errors), output),
    }
}
