//! One command, from its words to its status.
ghost use Rattle.std.specs.Prelude.{◌≡◌, ◌⊎◌, ◌<◌, length, IfErr, IfOk, OnOk, string_bytes};
ghost use Rattle.repo_store.specs.Words.{disk_of, HasFailed};
ghost use Rattle.byte_streams.specs.Causes.{counts};
ghost use Rattle.fleet_engines.specs.Runs.{BothCounted, Counted};
ghost use Rattle.fleet_main.specs.Commands.{DeliversCommand, DoesCommand, Dumps, EndsCommand, FailsAtCommand};
ghost use Rattle.fleet_main.specs.Commands.{Initializes, Loads, MakesDir, PrintsHead, RefusesCommand, RefusesDir};
ghost use Rattle.fleet_main.specs.Commands.{RefusesDump, RefusesHead, RefusesInfo, RefusesInitialize, RefusesLoad};
ghost use Rattle.fleet_main.specs.Commands.{RefusesSource, RefusesStores, RefusesUpgrade, RefusesWork};
ghost use Rattle.fleet_main.specs.Commands.{SucceedsAtCommand, TellsMirror, UpgradesLog, WorksWithSource, WorksOver};
ghost use Rattle.fleet_main.specs.Doing.{IsBegun};
ghost use Rattle.fleet_main.specs.Doing.{BroughtOn};
ghost use Rattle.fleet_main.specs.Ending.{IsStreamFailure, SparesInput, StreamsWork, TellsLine};
ghost use Rattle.svn_ends.specs.Runs.{IsOutputFailure};
ghost use Rattle.fleet_disk.specs.Lending.{MakesIn};
ghost use Rattle.fleet_main.specs.Making.{MakesFor, PathsStay};
ghost use Rattle.fleet_main.specs.Opening.{NotBegunIn};

use crate::folders::{closed, created, opened, opened_to_upgrade};
use crate::lending::Folders;
use crate::newest::run_head;
use byte_streams::{Input, Output};
use command_words::Command;
use fleet_disk::Disk;
use fleet_engines::{hand_on, run_canon, run_list, write_line};
use mirror_engines::{Work, run_info, run_work};
use node_base::limits::PROP_VALUE_BYTES;
use node_base::{PropValue, Refusal};
use repo_core::Moment;
use repo_store::RepoStore;
use std::alloc::Global;
use store_engines::{RevRange, run_dump, run_load, run_mkdir, run_upgrade};
use sync_core::Token;
use sync_job::LentMaster;
use uuid::Uuid;

// The status of a command that was refused.
const REFUSED: u8 = 1;

fn create<F: Folders>(
    alloc: Global,
    folders: &mut F,
    folder: &str,
    identity: Uuid,
) -> Result<(), Refusal>
    ensures done { OnOk result (IsBegun F.Place.Disk F.Folders folders.old folders.new folder.now identity) }
    ensures refused { IfErr result (NotBegunIn F.Place.Disk F.Folders folders.old folders.new folder.now identity) }
    ensures no_peer { IfErr result (λ e. e ≡ Refusal.PeerFailed → ⊥) }
    ensures nothing_else { MakesIn F.lacks folder.now folders.old folders.new }
{
    match created(alloc, folders, folder, identity) {
        Ok(begun) => {
            closed(folders, folder, begun);
            Ok(())
        }
        Err(refusal) => Err(refusal),
    }
}

fn load<F: Folders, I: Input, O: Output + Drop>(
    alloc: Global,
    deltas: bool,
    folders: &mut F,
    folder: &str,
    input: &mut I,
    output: &mut O,
) -> Result<(), Refusal>
    ensures done { Loads F.Place.Disk F.Folders I.Input O.Output folders.old folders.new input.old output.old output.new
        deltas folder.now result }
    ensures refused { RefusesLoad F.Place.Disk F.Folders I.Input O.Output folders.old folders.new input.old output.old
        output.new deltas folder.now result }
    ensures peer { BothCounted result (counts I.failures I.reads input.old input.new) (O.failures output.old) (O.failures output.new) }
    ensures paths { PathsStay F.lacks F.lasts folders.old folders.new }
{
    match opened(alloc, folders, folder) {
        Ok(store) => {
            let mut loaded = store;
            let done = run_load(alloc, deltas, &mut loaded, input, output);
            closed(folders, folder, loaded);
            done
        }
        Err(refusal) => Err(refusal),
    }
}

fn dump<F: Folders, O: Output + Drop>(
    alloc: Global,
    folders: &mut F,
    folder: &str,
    range: Option<RevRange>,
    output: &mut O,
) -> Result<(), Refusal>
    ensures done { Dumps F.Place.Disk F.Folders O.Output folders.old folders.new output.old output.new folder.now range
        result }
    ensures refused { RefusesDump F.Place.Disk F.Folders O.Output folders.old folders.new output.old output.new
        folder.now range result }
    ensures peer { Counted result (O.failures output.old) (O.failures output.new) }
    ensures paths { PathsStay F.lacks F.lasts folders.old folders.new }
{
    match opened(alloc, folders, folder) {
        Ok(store) => {
            let done = run_dump(alloc, &store, range, output);
            closed(folders, folder, store);
            done
        }
        Err(refusal) => Err(refusal),
    }
}

fn head<F: Folders, O: Output + Drop>(
    alloc: Global,
    folders: &mut F,
    folder: &str,
    output: &mut O,
) -> Result<(), Refusal>
    ensures done { PrintsHead F.Place.Disk F.Folders O.Output folders.old folders.new output.old output.new folder.now
        result }
    ensures refused { RefusesHead F.Place.Disk F.Folders O.Output folders.old folders.new output.old output.new
        folder.now result }
    ensures peer { Counted result (O.failures output.old) (O.failures output.new) }
    ensures paths { PathsStay F.lacks F.lasts folders.old folders.new }
{
    match opened(alloc, folders, folder) {
        Ok(store) => {
            let done = run_head(&store, output);
            closed(folders, folder, store);
            done
        }
        Err(refusal) => Err(refusal),
    }
}

fn make_dir<F: Folders, O: Output + Drop>(
    alloc: Global,
    folders: &mut F,
    folder: &str,
    path: &str,
    message: &str,
    moment: Moment,
    output: &mut O,
) -> Result<(), Refusal>
    ensures done { MakesDir F.Place.Disk F.Folders O.Output folders.old folders.new output.old output.new folder.now
        path.now message.now moment result }
    ensures refused { RefusesDir F.Place.Disk F.Folders O.Output folders.old folders.new output.old output.new
        folder.now path.now message.now moment result }
    ensures peer { Counted result (O.failures output.old) (O.failures output.new) }
    ensures paths { PathsStay F.lacks F.lasts folders.old folders.new }
{
    match opened(alloc, folders, folder) {
        Ok(store) => {
            let mut store = store;
            let done = run_mkdir(alloc, &mut store, path, message, moment, output);
            closed(folders, folder, store);
            done
        }
        Err(refusal) => Err(refusal),
    }
}

fn upgrade<F: Folders, O: Output + Drop>(
    alloc: Global,
    folders: &mut F,
    folder: &str,
    output: &mut O,
) -> Result<(), Refusal>
    ensures done { UpgradesLog F.Place.Disk F.Folders O.Output folders.old folders.new output.old output.new folder.now
        result }
    ensures refused { RefusesUpgrade F.Place.Disk F.Folders O.Output folders.old folders.new output.old output.new
        folder.now result }
    ensures peer { Counted result (O.failures output.old) (O.failures output.new) }
    ensures nothing_else { MakesIn F.lacks folder.now folders.old folders.new }
{
    match opened_to_upgrade(alloc, folders, folder) {
        Ok(store) => {
            let (disk, done) = run_upgrade(alloc, store, output);
            folders.close(folder, disk);
            done
        }
        Err(refusal) => Err(refusal),
    }
}

fn info<F: Folders, O: Output + Drop>(
    alloc: Global,
    folders: &mut F,
    mirror: &str,
    output: &mut O,
) -> Result<(), Refusal>
    ensures done { TellsMirror F.Place.Disk F.Folders O.Output folders.old folders.new output.old output.new mirror.now
        result }
    ensures refused { RefusesInfo F.Place.Disk F.Folders O.Output folders.old folders.new output.old output.new
        mirror.now result }
    ensures peer { Counted result (O.failures output.old) (O.failures output.new) }
    ensures paths { PathsStay F.lacks F.lasts folders.old folders.new }
{
    match opened(alloc, folders, mirror) {
        Ok(store) => {
            let done = run_info(alloc, &store, output);
            closed(folders, mirror, store);
            done
        }
        Err(refusal) => Err(refusal),
    }
}

// The mirror's folder is opened first.
fn mirrored<F: Folders, O: Output + Drop>(
    alloc: Global,
    folders: &mut F,
    mirror: &str,
    source: &str,
    work: Work,
    output: O,
) -> (O, Result<(), Refusal>)
    ensures done { WorksOver F.Place.Disk F.Folders O.Output folders.old folders.new output result.0 mirror.now
        source.now work result.1 }
    ensures refused { RefusesWork F.Place.Disk F.Folders O.Output folders.old folders.new output result.0 mirror.now
        source.now work result.1 }
    ensures unfailed { OnOk result.1 (O.failures result.0 ≡ O.failures output) }
    ensures paths { PathsStay F.lacks F.lasts folders.old folders.new }
    ensures peer { IsOutputFailure O.Output output result.0 result.1 }
{
    match opened(alloc, folders, mirror) {
        Ok(store) => {
            let (store, output, done) = mirrored_from(alloc, folders, store, source, work, output);
            closed(folders, mirror, store);
            (output, done)
        }
        Err(refusal) => (output, Err(refusal)),
    }
}

// Then the source's; and the work is done. The mirror's store comes back.
fn mirrored_from<F: Folders, O: Output + Drop>(
    alloc: Global,
    folders: &mut F,
    mirror: RepoStore<F::Place>,
    source: &str,
    work: Work,
    output: O,
) -> (RepoStore<F::Place>, O, Result<(), Refusal>)
    ensures done { WorksWithSource F.Place.Disk F.Folders O.Output folders.old folders.new mirror result.0 output result.1
        source.now work result.2 }
    ensures refused { RefusesSource F.Place.Disk F.Folders O.Output folders.old folders.new mirror result.0 output
        result.1 source.now work result.2 }
    ensures rules { ¬ HasFailed mirror → F.Place.honest (disk_of mirror) → F.Place.honest (disk_of result.0) }
    ensures unfailed { OnOk result.2 (O.failures result.1 ≡ O.failures output) }
    ensures paths { PathsStay F.lacks F.lasts folders.old folders.new }
    ensures peer { IsOutputFailure O.Output output result.1 result.2 }
{
    match opened(alloc, folders, source) {
        Ok(store) => {
            let (mirror, output, done) = worked(alloc, mirror, &store, work, output);
            closed(folders, source, store);
            (mirror, output, done)
        }
        Err(refusal) => (mirror, output, Err(refusal)),
    }
}

fn worked<D: Disk + Drop, O: Output + Drop>(
    alloc: Global,
    mirror: RepoStore<D>,
    source: &RepoStore<D>,
    work: Work,
    output: O,
) -> (RepoStore<D>, O, Result<(), Refusal>)
    ensures done { OnOk result.2 (BroughtOn work (O.contents output) (O.contents result.1) source.now mirror
        result.0) }
    ensures refused { RefusesStores O.Output source.now mirror result.0 output result.1 work result.2 }
    ensures rules { ¬ HasFailed mirror → D.honest (disk_of mirror) → D.honest (disk_of result.0) }
    ensures unfailed { OnOk result.2 (O.failures result.1 ≡ O.failures output) }
    ensures peer { IsOutputFailure O.Output output result.1 result.2 }
{
    let master = LentMaster::new(source);
    run_work(alloc, mirror, master, work, output)
}

fn initialize<F: Folders, O: Output + Drop>(
    alloc: Global,
    folders: &mut F,
    mirror: &str,
    source: &str,
    output: O,
) -> (O, Result<(), Refusal>)
    ensures done { Initializes F.Place.Disk F.Folders O.Output folders.old folders.new output result.0 mirror.now
        source.now result.1 }
    ensures refused { RefusesInitialize F.Place.Disk F.Folders O.Output folders.old folders.new output result.0
        mirror.now source.now result.1 }
    ensures unfailed { OnOk result.1 (O.failures result.0 ≡ O.failures output) }
    ensures paths { PathsStay F.lacks F.lasts folders.old folders.new }
    ensures peer { IsOutputFailure O.Output output result.0 result.1 }
{
    match url_of(alloc, source) {
        Ok(url) => mirrored(
            alloc,
            folders,
            mirror,
            source,
            Work::Initialize { url },
            output,
        ),
        Err(refusal) => (output, Err(refusal)),
    }
}

/// The value of `svn:sync-from-url`.
pub(crate) fn url_of(alloc: Global, source: &str) -> Result<PropValue, Refusal>
    ensures url { IfOk result (λ url. url ≡ source.now) }
    ensures refused { IfErr result (λ e. (e ≡ Refusal.OutOfMemory)
        ⊎ ((e ≡ Refusal.TooLong) × (PROP_VALUE_BYTES < length source.now))) }
{
    if source.len() > PROP_VALUE_BYTES {
        return Err(Refusal::TooLong);
    }
    let Ok(bytes) = Vec::from_slice(alloc, source.as_bytes()) else {
        return Err(Refusal::OutOfMemory);
    };
    match PropValue::new(bytes) {
        Ok(url) => Ok(url),
        Err(_) => unreachable!(),
    }
}

// The command's answer, with what it wrote.
fn run_one<F: Folders, I: Input, O: Output + Drop>(
    alloc: Global,
    folders: &mut F,
    command: Command,
    input: &mut I,
    output: O,
) -> (O, Result<(), Refusal>)
    ensures done { DoesCommand F.Place.Disk F.Folders I.Input O.Output folders.old folders.new input.old output result.0
        command result.1 }
    ensures refused { RefusesCommand F.Place.Disk F.Folders I.Input O.Output folders.old folders.new input.old output
        result.0 command result.1 }
    ensures unfailed { OnOk result.1 (StreamsWork I.Input O.Output input.old input.new output result.0) }
    ensures made { MakesFor F.lacks F.lasts command folders.old folders.new }
    ensures peer { IsStreamFailure I.Input O.Output input.old input.new output result.0 result.1 }
    ensures spares { SparesInput command input.old input.new }
{
    let mut output = output;
    match command {
        Command::List { deltas } => {
            let done = run_list(alloc, deltas, input, &mut output);
            (output, done)
        }
        Command::Canon { deltas } => {
            let done = run_canon(alloc, deltas, input, &mut output);
            (output, done)
        }
        Command::Create { folder, identity } => {
            let done = create(alloc, folders, folder.as_str(), identity);
            (output, done)
        }
        Command::Load { folder, deltas } => {
            let done = load(alloc, deltas, folders, folder.as_str(), input, &mut output);
            (output, done)
        }
        Command::Dump { folder, range } => {
            let done = dump(alloc, folders, folder.as_str(), range, &mut output);
            (output, done)
        }
        Command::MakeDir {
            folder,
            path,
            message,
            moment,
        } => {
            let done = make_dir(
                alloc,
                folders,
                folder.as_str(),
                path.as_str(),
                message.as_str(),
                moment,
                &mut output,
            );
            (output, done)
        }
        Command::Upgrade { folder } => {
            let done = upgrade(alloc, folders, folder.as_str(), &mut output);
            (output, done)
        }
        Command::Initialize { mirror, source } => {
            initialize(alloc, folders, mirror.as_str(), source.as_str(), output)
        }
        Command::Synchronize {
            mirror,
            source,
            token,
            steal,
        } => mirrored(
            alloc,
            folders,
            mirror.as_str(),
            source.as_str(),
            Work::Synchronize { token, steal },
            output,
        ),
        Command::CopyRevprops {
            mirror,
            source,
            token,
            range,
        } => mirrored(
            alloc,
            folders,
            mirror.as_str(),
            source.as_str(),
            Work::CopyRevprops {
                token,
                low: range.first(),
                high: range.last(),
            },
            output,
        ),
        Command::Info { mirror } => {
            let done = info(alloc, folders, mirror.as_str(), &mut output);
            (output, done)
        }
        Command::Head { folder } => {
            let done = head(alloc, folders, folder.as_str(), &mut output);
            (output, done)
        }
    }
}

// The command's answer, when what it wrote is handed on.
fn run_flushed<F: Folders, I: Input, O: Output + Drop>(
    alloc: Global,
    folders: &mut F,
    command: Command,
    input: &mut I,
    output: O,
) -> (O, Result<(), Refusal>)
    ensures done { DeliversCommand F.Place.Disk F.Folders I.Input O.Output folders.old folders.new input.old output
        result.0 command result.1 }
    ensures refused { EndsCommand F.Place.Disk F.Folders I.Input O.Output folders.old folders.new input.old output
        result.0 command result.1 }
    ensures handed { OnOk result.1 (O.is_handed_on result.0) }
    ensures unfailed { OnOk result.1 (StreamsWork I.Input O.Output input.old input.new output result.0) }
    ensures made { MakesFor F.lacks F.lasts command folders.old folders.new }
    ensures peer { IsStreamFailure I.Input O.Output input.old input.new output result.0 result.1 }
    ensures spares { SparesInput command input.old input.new }
{
    let (output, done) = run_one(alloc, folders, command, input, output);
    let mut output = output;
    let flushed = hand_on(&mut output);
    match done {
        Ok(()) => (output, flushed),
        Err(refusal) => (output, Err(refusal)),
    }
}

/// Runs a command over folders. The status is 0 where it is done and what it wrote is handed on, or 1 where it was
/// refused, and then the refusal's line is on `errors`. What was written before a refusal is flushed before its line.
/// The output comes back as the command has left it. `list`, `canon` and `load` alone read the input.
///
/// Of honest folders it says besides what repository the folder's disk kept, what the command made of it, and what a
/// stop leaves at each moment and afterwards: the folder has that disk again in the end, and every other folder what it
/// had. Of the commands over a mirror and its source it says this of both. Folders that were honest still are. Once
/// `create` or `upgrade` is done a stop leaves the folder and the files that it made; any other command keeps what a stop
/// left.
pub fn run<F: Folders, I: Input, O: Output + Drop, E: Output>(
    alloc: Global,
    folders: &mut F,
    command: Command,
    input: &mut I,
    output: O,
    errors: &mut E,
) -> (u8, O)
    ensures status { (result.0 ≡ 0) ⊎ (result.0 ≡ 1) }
    ensures made { MakesFor F.lacks F.lasts command folders.old folders.new }
    ensures done { SucceedsAtCommand F.Place.Disk F.Folders I.Input O.Output folders.old folders.new input.old output
        result.1 command result.0 }
    ensures handed { result.0 ≡ 0 → O.is_handed_on result.1 }
    ensures unfailed { result.0 ≡ 0 → StreamsWork I.Input O.Output input.old input.new output result.1 }
    ensures silent { result.0 ≡ 0 → E.contents errors.new ≡ E.contents errors.old }
    ensures spares { SparesInput command input.old input.new }
    ensures refused { FailsAtCommand F.Place.Disk F.Folders I.Input O.Output E.Output folders.old folders.new input.old
        input.new output result.1 errors.old errors.new command result.0 }
{
    let (output, done) = run_flushed(alloc, folders, command, input, output);
    match done {
        Ok(()) => (0, output),
        Err(refusal) => (refused(&refusal, errors), output),
    }
}

/// The status of a command that was refused, with the refusal's line. One that can't be written is lost: the status
/// tells.
pub fn refused<E: Output>(refusal: &Refusal, errors: &mut E) -> u8
    ensures status { result ≡ 1 }
    ensures line { TellsLine E.Output errors.old errors.new refusal.now }
{
    match write_line(errors, refusal) {
        Ok(()) => REFUSED,
        Err(_) => REFUSED,
    }
}
