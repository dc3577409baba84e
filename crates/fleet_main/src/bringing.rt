//! Mirrors in folders that are brought up to their master at once.
ghost use Rattle.std.specs.Prelude.{◌≡◌, ◌≢◌, ◌≤◌, ◌+◌, ◌⊎◌, ◌∷◌, ℕ, None, Ok, [], true, false, length, map};
ghost use Rattle.std.specs.Prelude.{string_bytes, vec_capacity, vec_len, IfErr, IfOk, OnOk};
ghost use Rattle.repo_store.specs.Words.{IsKept as StoreIsKept, IfSound, StopKeeps};
ghost use Rattle.fleet_shares.specs.Stores.{store_at};
ghost use Rattle.fleet_main.specs.Bringing.{AreBrought, NotBrought};
ghost use Rattle.fleet_main.specs.Bringing.{DeliversFleet, DoesFleet, EndsFleet, FailsAtFleet, GivesBack};
ghost use Rattle.fleet_main.specs.Bringing.{RefusesFleet, RunsMirrors, SucceedsAtFleet};
ghost use Rattle.fleet_main.specs.Making.{PathsStay};
ghost use Rattle.command_words.specs.Twice.{first_twice};

use crate::execute::refused;
use crate::folders::{closed, opened};
use crate::lending::Folders;
use byte_streams::Output;
use command_words::Fleet;
use fleet_disk::Disk;
use fleet_engines::{hand_on, write};
use fleet_shares::{Answered, FleetStores, Unheld, answer_lines, are_done, run_fleet};
use node_base::Refusal;
use repo_store::RepoStore;
use std::alloc::{AllocError, Global};
use std::sync::Wait;
use std::thread::Threads;

// The most mirrors of a fleet.
const MIRRORS: usize = 4;

// The status where a mirror was refused.
const REFUSED: u8 = 1;

// What a store keeps by its type.
fn keeps<D: Disk>(store: &RepoStore<D>)
    ensures stop { IfSound store.now (StopKeeps store.now) }
    ensures kept { StoreIsKept store.now }
{
    let _repo = store.repo();
}

// Gives a folder the disk of the store in a slot back.
fn slot_closed<F: Folders>(
    folders: &mut F,
    folder: &str,
    stores: FleetStores<F::Place>,
    slot: usize,
) -> FleetStores<F::Place>
    ensures back { GivesBack F.Place.Disk F.Folders folders.old folders.new stores slot folder.now }
    ensures others { (other : ℕ) → other ≢ slot → store_at result other ≡ store_at stores other }
    ensures master { result.master ≡ stores.master }
    ensures paths { PathsStay F.lacks F.lasts folders.old folders.new }
{
    let mut stores = stores;
    match stores.take(slot) {
        Some(store) => {
            keeps(&store);
            closed(folders, folder, store);
            stores
        }
        None => stores,
    }
}

// Opens the mirrors of these folders behind those that are opened, or whose refusals are known; runs the fleet; and
// closes the mirrors, the last first.
fn brought<R: Threads + Wait + Clone + Send + Drop + 'static, F: Folders>(
    rt: &R,
    alloc: Global,
    folders: &mut F,
    names: &[String],
    refusals: Vec<Option<Refusal>>,
    stores: FleetStores<F::Place>,
    workers: usize,
) -> (FleetStores<F::Place>, Result<Vec<Answered>, AllocError>)
where
    F::Place: Send + 'static,
    requires few { vec_len refusals + length names.now ≤ 4 }
    requires room { vec_len refusals + length names.now ≤ vec_capacity refusals }
    requires apart { first_twice (map string_bytes names.now) ≡ None }
    ensures brought { AreBrought F.Place.Disk F.Folders folders.old folders.new (map string_bytes names.now)
        refusals.items stores result.0 result.1 }
    ensures paths { PathsStay F.lacks F.lasts folders.old folders.new }
{
    let Some((name, names)) = names.split_first() else {
        return run_fleet(rt, alloc, stores, refusals, workers, Unheld);
    };
    let name = name.as_str();
    let slot = refusals.len();
    let mut refusals = refusals;
    match opened(alloc, folders, name) {
        Ok(store) => {
            keeps(&store);
            refusals.push_reserved(None);
            let stores = stores.put(slot, store);
            let (stores, told) = brought(rt, alloc, folders, names, refusals, stores, workers);
            (slot_closed(folders, name, stores, slot), told)
        }
        Err(refusal) => {
            refusals.push_reserved(Some(refusal));
            brought(rt, alloc, folders, names, refusals, stores, workers)
        }
    }
}

// The master's folder is opened first.
fn fleet_brought<R: Threads + Wait + Clone + Send + Drop + 'static, F: Folders>(
    rt: &R,
    alloc: Global,
    folders: &mut F,
    master: &str,
    mirrors: &[String],
    workers: usize,
) -> Result<Vec<Answered>, Refusal>
where
    F::Place: Send + 'static,
    requires few { length mirrors.now ≤ 4 }
    requires apart { first_twice (master.now ∷ map string_bytes mirrors.now) ≡ None }
    ensures done { RunsMirrors F.Place.Disk F.Folders folders.old folders.new master.now
        (map string_bytes mirrors.now) result }
    ensures refused { IfErr result (NotBrought F.Place.Disk F.Folders folders.old folders.new master.now
        (map string_bytes mirrors.now)) }
    ensures paths { PathsStay F.lacks F.lasts folders.old folders.new }
{
    let Ok(refusals) = Vec::with_capacity(alloc, MIRRORS) else {
        return Err(Refusal::OutOfMemory);
    };
    match opened(alloc, folders, master) {
        Ok(store) => {
            keeps(&store);
            let stores = FleetStores::of(store);
            let (stores, told) = brought(rt, alloc, folders, mirrors, refusals, stores, workers);
            let store = stores.into_master();
            keeps(&store);
            closed(folders, master, store);
            told_or(told)
        }
        Err(refusal) => Err(refusal),
    }
}

// Want of memory as a refusal.
fn told_or(told: Result<Vec<Answered>, AllocError>) -> Result<Vec<Answered>, Refusal>
    ensures ok { IfOk result (λ answers. told ≡ Ok answers) }
    ensures refused { IfErr result (λ e. e ≡ Refusal.OutOfMemory) }
{
    match told {
        Ok(answers) => Ok(answers),
        Err(_) => Err(Refusal::OutOfMemory),
    }
}

// By what words ask for, and whether no mirror was refused.
fn fleet_told<R: Threads + Wait + Clone + Send + Drop + 'static, F: Folders, O: Output + Drop>(
    rt: &R,
    alloc: Global,
    folders: &mut F,
    fleet: &Fleet,
    output: &mut O,
) -> Result<bool, Refusal>
where
    F::Place: Send + 'static,
    ensures done { DoesFleet F.Place.Disk F.Folders O.Output folders.old folders.new output.old output.new fleet.now
        result }
    ensures refused { RefusesFleet F.Place.Disk F.Folders O.Output folders.old folders.new output.old output.new
        fleet.now result }
    ensures unfailed { OnOk result (O.failures output.new ≡ O.failures output.old) }
    ensures paths { PathsStay F.lacks F.lasts folders.old folders.new }
{
    let master = fleet.master.as_str();
    let mirrors = fleet.mirrors.as_slice();
    let workers = usize::from(fleet.workers);
    match fleet_brought(rt, alloc, folders, master, mirrors, workers) {
        Ok(told) => match answer_lines(alloc, mirrors, told.as_slice()) {
            Ok(lines) => match write(output, lines.as_bytes()) {
                Ok(()) => Ok(are_done(told.as_slice())),
                Err(_) => Err(Refusal::PeerFailed),
            },
            Err(_) => Err(Refusal::OutOfMemory),
        },
        Err(refusal) => Err(refusal),
    }
}

// The answer, when what was written is handed on.
fn fleet_flushed<R: Threads + Wait + Clone + Send + Drop + 'static, F: Folders, O: Output + Drop>(
    rt: &R,
    alloc: Global,
    folders: &mut F,
    fleet: &Fleet,
    output: O,
) -> (O, Result<bool, Refusal>)
where
    F::Place: Send + 'static,
    ensures done { DeliversFleet F.Place.Disk F.Folders O.Output folders.old folders.new output result.0 fleet.now
        result.1 }
    ensures refused { EndsFleet F.Place.Disk F.Folders O.Output folders.old folders.new output result.0 fleet.now
        result.1 }
    ensures handed { OnOk result.1 (O.is_handed_on result.0) }
    ensures unfailed { OnOk result.1 (O.failures result.0 ≡ O.failures output) }
    ensures paths { PathsStay F.lacks F.lasts folders.old folders.new }
{
    let mut output = output;
    let told = fleet_told(rt, alloc, folders, fleet, &mut output);
    let flushed = hand_on(&mut output);
    match told {
        Ok(done) => match flushed {
            Ok(()) => (output, Ok(done)),
            Err(refusal) => (output, Err(refusal)),
        },
        Err(refusal) => (output, Err(refusal)),
    }
}

/// Brings the mirrors of folders up to the master of another one, by so many workers, each a thread: opens the master's
/// folder, then the mirrors' in the order of the words; runs for each mirror what `synchronize` runs, under a token of
/// its own; closes all of them; and writes a line for each mirror, in order: `MIRROR: head N` with the newest revision
/// that it has then, or `MIRROR: NUMBER TEXT` where its folder or its run was refused. The status is 0 where all of this
/// is done, no mirror was refused and the lines are handed on; 1 where a mirror was refused, and nothing is on `errors`
/// then; or 1 with a refusal's line on `errors`: what refuses the opening of the master, with no line written and no
/// mirror's folder opened, PeerFailed (49) where the output failed, OutOfMemory (70). The output comes back.
///
/// Of honest folders it says besides what repository each folder's disk kept, that a stop left it as the run began, and
/// that each folder has a store's disk again in the end, if the disks still keep the rules, and every other folder what
/// it had. Of a mirror that is told with a number it says that it has what it had, and besides revisions of the master's up
/// to that number, no fewer than the master was opened with; where all that it had was the master's, all that it has is. One
/// that is told as failed (32) behind a run that ended well has fewer, or a revision besides that isn't the master's, or lost
/// one that it had, or the master did.
pub fn fleet<
    R: Threads + Wait + Clone + Send + Drop + 'static,
    F: Folders,
    O: Output + Drop,
    E: Output,
>(rt: &R, alloc: Global, folders: &mut F, fleet: &Fleet, output: O, errors: &mut E) -> (u8, O)
where
    F::Place: Send + 'static,
    ensures status { (result.0 ≡ 0) ⊎ (result.0 ≡ 1) }
    ensures paths { PathsStay F.lacks F.lasts folders.old folders.new }
    ensures done { SucceedsAtFleet F.Place.Disk F.Folders O.Output folders.old folders.new output result.1 fleet.now
        result.0 }
    ensures handed { result.0 ≡ 0 → O.is_handed_on result.1 }
    ensures unfailed { result.0 ≡ 0 → O.failures result.1 ≡ O.failures output }
    ensures silent { result.0 ≡ 0 → E.contents errors.new ≡ E.contents errors.old }
    ensures refused { FailsAtFleet F.Place.Disk F.Folders O.Output E.Output folders.old folders.new output result.1
        errors.old errors.new fleet.now result.0 }
{
    let (output, told) = fleet_flushed(rt, alloc, folders, fleet, output);
    match told {
        Ok(true) => (0, output),
        Ok(false) => (REFUSED, output),
        Err(refusal) => (refused(&refusal, errors), output),
    }
}
