//! The repository that a journal's entries stand for.
ghost use Rattle.std.specs.Prelude.{◌≡◌, ◌<◌, ◌+◌, map};
ghost use Rattle.std.specs.Prelude.{length};
ghost use Rattle.std.specs.Prelude.{None, IfOk, IfErr, OnOk};
ghost use Rattle.std.specs.Option.{option_map};
ghost use Rattle.dump_load.specs.Bounds.{IsBounded};
ghost use Rattle.dump_load.specs.Changes.{IsSet};
ghost use Rattle.dump_load.specs.Records.{change_of};
ghost use Rattle.gate_log.specs.Log.{ends_of, entries_of, HasFailed, IsHonest, LooksIn};
ghost use Rattle.gate_log.specs.declared.fault.LogFault.TheVariants as log_fault;
ghost use Rattle.repo_core.specs.Repository.{Revision, Repository};
ghost use Rattle.repo_core.specs.Entries.{with_entry_in};
ghost use Rattle.repo_core.specs.declared.entry.Entry.TheVariants.{Mapped};
ghost use Rattle.repo_store.specs.Refusals.{IsReplayFault};
ghost use Rattle.repo_store.specs.Changes.{next_entry};
ghost use Rattle.repo_store.specs.Journal.{Tell, IsFirstBad, IsNoBeginning};
ghost use Rattle.repo_store.specs.Readings.{IsBad};
ghost use Rattle.repo_store.specs.Replays.{Accepts, BeginsNone, BreaksAt, IfDamaged, IsBegunBy, IsBegunIn};
ghost use Rattle.repo_store.specs.Replays.{IsLogFailure, TakesAt, TakesIn, TakesNone};

use crate::read::{ReadFault, read_beginning, read_revision};
use byte_streams::VecWriter;
use dump_load::{Change, ChangeSet};
use dump_text::law::dumps_are_read;
use dump_text::{NodeRecord, RevRecord};
use fleet_disk::Disk;
use gate_log::{GateLog, LogFault};
use node_base::{Props, RevNo};
use repo_core::{Repo, RepoFault};
use std::alloc::{AllocError, Global};

// The changes that records state, in their order.
fn changes_of(alloc: Global, nodes: Vec<NodeRecord>) -> Result<Vec<Change>, AllocError>
    ensures { IfOk result (λ v. v.items ≡ map change_of nodes.items) }
{
    let mut changes: Vec<Change> = nodes
        .into_iter()
        .map(|node| Change::from_record(node))
        .collect(alloc)?;
    // A set keeps its memory for good.
    changes.shrink_to_fit();
    Ok(changes)
}

// The set that an entry's nodes are.
fn set_of(alloc: Global, nodes: Vec<NodeRecord>) -> Result<ChangeSet, ReadFault>
    ensures set { IfOk result (λ s. s ≡ map change_of nodes.items) }
    ensures bounded { OnOk result (IsBounded (map change_of nodes.items)) }
    ensures bad { IsBad result → IsSet (map change_of nodes.items) → ⊥ }
{
    let changes = changes_of(alloc, nodes)?;
    match ChangeSet::from_changes(changes) {
        Ok(set) => Ok(set),
        Err(_) => Err(ReadFault::Bad),
    }
}

// The repository after its first entry.
fn begin(alloc: Global, bytes: &[u8]) -> Result<Repo, ReadFault>
    ensures begun { IfOk result (IsBegunBy bytes.now) }
    ensures bad { IsBad result → IsNoBeginning bytes.now }
{
    let (identity, props) = read_beginning(alloc, bytes)?;
    let mut repo = Repo::new(alloc, identity)?;
    match repo.put_props(RevNo::ZERO, props) {
        Ok(()) => Ok(repo),
        Err(_) => Err(ReadFault::Bad),
    }
}

// Other properties for a revision that is there.
fn take_map(repo: &mut Repo, number: RevNo, props: Props) -> Result<(), ReadFault>
    ensures taken { OnOk result (repo.new ≡ with_entry_in repo.old (Mapped number props)) }
    ensures accepted { OnOk result (Accepts repo.old (Mapped number props)) }
    ensures bad { IsBad result → Accepts repo.old (Mapped number props) → ⊥ }
    ensures no_other { IfErr result (λ e. e ≡ ReadFault.Bad) }
{
    match repo.put_props(number, props) {
        Ok(()) => Ok(()),
        Err(_) => Err(ReadFault::Bad),
    }
}

// The revision after the head.
fn take_set(alloc: Global, repo: &mut Repo, set: ChangeSet, props: Props) -> Result<(), ReadFault>
    ensures taken { OnOk result (repo.new ≡ with_entry_in repo.old (next_entry repo.old.revisions set props)) }
    ensures accepted { OnOk result (Accepts repo.old (next_entry repo.old.revisions set props)) }
    ensures bad { IsBad result → Accepts repo.old (next_entry repo.old.revisions set props) → ⊥ }
{
    match repo.stage_commit(alloc, repo.head(), set, props, None) {
        Ok(staged) => {
            repo.install(staged);
            Ok(())
        }
        Err(RepoFault::OutOfMemory) => Err(ReadFault::OutOfMemory),
        Err(_) => Err(ReadFault::Bad),
    }
}

// One entry more.
fn take_entry(
    alloc: Global,
    repo: &mut Repo,
    bytes: &[u8],
    written: &mut VecWriter,
) -> Result<(), ReadFault>
    ensures taken { OnOk result (TakesIn bytes.now repo.old repo.new) }
    ensures bad { IsBad result → TakesNone bytes.now repo.old }
{
    dumps_are_read();
    let RevRecord {
        number,
        props,
        nodes,
    } = read_revision(alloc, bytes, written)?;
    let next = repo.head().index() + 1;
    if number.index() < next {
        if nodes.is_empty() {
            return take_map(repo, number, props);
        }
        return Err(ReadFault::Bad);
    }
    if number.index() > next {
        return Err(ReadFault::Bad);
    }
    let set = set_of(alloc, nodes)?;
    take_set(alloc, repo, set, props)
}

// What a fault of an entry is to the log's reader.
fn damaged(entry: u64, fault: ReadFault) -> LogFault
    ensures bad { fault ≡ ReadFault.Bad → result ≡ log_fault.Damaged entry }
    ensures memory { fault ≡ ReadFault.OutOfMemory → result ≡ log_fault.OutOfMemory }
{
    match fault {
        ReadFault::Bad => LogFault::Damaged(entry),
        ReadFault::OutOfMemory => LogFault::OutOfMemory,
    }
}

// The repository after one entry more, which is read from the log.
fn read_next<D: Disk>(
    alloc: Global,
    log: &mut GateLog<D>,
    entry: u64,
    repo: &mut Repo,
    written: &mut VecWriter,
) -> Result<(), LogFault>
    requires there { entry < length (ends_of log.old) }
    requires working { ¬ HasFailed log.old }
    ensures taken { IsHonest log.old → OnOk result (TakesAt entry (entries_of log.old) repo.old repo.new) }
    ensures damaged { IsHonest log.old → IfDamaged result (λ k. k ≡ entry) }
    ensures breaks { IsHonest log.old → IfDamaged result (λ _. BreaksAt entry (entries_of log.old) repo.old) }
    ensures looks { LooksIn log.old log.new }
    ensures device { IsLogFailure log.old log.new result }
    ensures working { OnOk result (¬ HasFailed log.new) }
    ensures no_other { IfErr result IsReplayFault }
{
    let bytes = log.read_entry(alloc, entry)?;
    match take_entry(alloc, repo, &bytes, written) {
        Ok(()) => Ok(()),
        Err(fault) => Err(damaged(entry, fault)),
    }
}

// The repository after the first entry, which is read from the log.
fn read_first<D: Disk>(alloc: Global, log: &mut GateLog<D>) -> Result<Repo, LogFault>
    requires there { 0 < length (ends_of log.old) }
    requires working { ¬ HasFailed log.old }
    ensures begun { IsHonest log.old → IfOk result (IsBegunIn (entries_of log.old)) }
    ensures damaged { IsHonest log.old → IfDamaged result (λ k. k ≡ 0) }
    ensures breaks { IsHonest log.old → IfDamaged result (λ _. BeginsNone (entries_of log.old)) }
    ensures looks { LooksIn log.old log.new }
    ensures device { IsLogFailure log.old log.new result }
    ensures working { OnOk result (¬ HasFailed log.new) }
    ensures no_other { IfErr result IsReplayFault }
{
    let bytes = log.read_entry(alloc, 0)?;
    match begin(alloc, &bytes) {
        Ok(repo) => Ok(repo),
        Err(fault) => Err(damaged(0, fault)),
    }
}

/// The repository that a log's entries stand for.
pub fn replay<D: Disk>(alloc: Global, log: &mut GateLog<D>) -> Result<Repo, LogFault>
    requires there { 0 < length (ends_of log.old) }
    requires working { ¬ HasFailed log.old }
    ensures told { IsHonest log.old → IfOk result (Tell (entries_of log.old)) }
    ensures damaged { IsHonest log.old → IfDamaged result (λ k. IsFirstBad k (entries_of log.old)) }
    ensures looks { LooksIn log.old log.new }
    ensures device { IsLogFailure log.old log.new result }
    ensures working { OnOk result (¬ HasFailed log.new) }
    ensures no_other { IfErr result IsReplayFault }
{
    dumps_are_read();
    let mut repo = read_first(alloc, log)?;
    let mut written = VecWriter::new(alloc);
    for entry in 1..log.len() {
        read_next(alloc, log, entry, &mut repo, &mut written)?;
    }
    Ok(repo)
}
