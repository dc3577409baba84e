//! `mkdir` over any disk and output.
ghost use Rattle.std.specs.Prelude.{◌≡◌, ◌<◌, ◌≤◌, length, false, Ok, Err};
ghost use Rattle.std.specs.Prelude.{Some, IfOk, IfErr, OnOk};
ghost use Rattle.std.specs.Prelude.{IsErrOf, codes};
ghost use Rattle.node_base.specs.Path.{Path};
ghost use Rattle.node_base.specs.PathText.{path_read};
ghost use Rattle.repo_core.specs.declared.entry.Entry.{Entry as EntryOf};
ghost use Rattle.repo_store.specs.Words.{repository_of, IfSound, StopKeeps};
ghost use Rattle.fleet_engines.specs.Streams.{TellsFailure};
ghost use Rattle.store_engines.specs.Commits.{directory_set, logged, CommitsDirectory, IfSpelled, RefusesDirectory};
ghost use Rattle.store_engines.specs.Commits.{RefusesMessage, RefusesPath, ServesDirectory};
ghost use Rattle.store_engines.specs.Devices.{is_device, IsSafe, Serves};
ghost use Rattle.store_engines.specs.Loads.{ServesOne};
ghost use Rattle.store_engines.specs.Mirrors.{IsMirror};
ghost use Rattle.store_engines.specs.Refusals.{path_refusal};

use crate::commits::commit;
use crate::lines::{committed_line, say};
use crate::mirror::refuse_mirror;
use crate::refusals::path_refusal;
use byte_streams::Output;
use dump_load::{Change, ChangeSet};
use fleet_disk::Disk;
use node_base::limits::PROP_VALUE_BYTES;
use node_base::{Action, NodeKind, NodePath, PropName, PropValue, Props, Refusal};
use repo_core::Moment;
use repo_store::{RepoStore, store_refusal};
use std::alloc::{AllocError, Global};

// The path that a word spells.
fn path_of(alloc: Global, word: &str) -> Result<NodePath, Refusal>
    ensures path { IfOk result (λ p. path_read word.now ≡ Ok p) }
    ensures refused { IfErr result (RefusesPath word.now) }
    ensures no_device { IfErr result (λ e. is_device e ≡ false) }
{
    match NodePath::parse(alloc, word.as_bytes()) {
        Ok(path) => Ok(path),
        Err(fault) => Err(path_refusal(fault)),
    }
}

// The set that adds a directory without properties.
fn one_directory(alloc: Global, path: NodePath) -> Result<ChangeSet, Refusal>
    ensures set { IfOk result (λ s. s ≡ directory_set path) }
    ensures refused { IfErr result (λ e. e ≡ Refusal.OutOfMemory) }
{
    let add = Change {
        path,
        action: Action::Add,
        kind: Some(NodeKind::Dir),
        source: None,
        props: Some(Props::empty()),
        text: None,
    };
    let mut changes = Vec::new(alloc);
    if changes.push(add).is_err() {
        return Err(Refusal::OutOfMemory);
    }
    match ChangeSet::from_changes(changes) {
        Ok(set) => Ok(set),
        Err(_) => unreachable!(),
    }
}

// The name of the property that a message is.
fn message_name(alloc: Global) -> Result<PropName, AllocError>
    ensures { IfOk result (λ n. n ≡ codes "svn:log") }
{
    match PropName::parse(alloc, b"svn:log") {
        Ok(name) => Ok(name),
        Err(_) => Err(AllocError),
    }
}

// The properties of a revision with that message.
fn logged(alloc: Global, message: &str) -> Result<Props, AllocError>
    requires small { length message.now ≤ PROP_VALUE_BYTES }
    ensures { IfOk result (λ p. p ≡ logged message.now) }
{
    let name = message_name(alloc)?;
    let Ok(value) = PropValue::new(Vec::from_slice(alloc, message.as_bytes())?) else {
        unreachable!();
    };
    let mut props = Props::empty();
    match props.set(alloc, name, value) {
        Ok(()) => Ok(props),
        Err(_) => Err(AllocError),
    }
}

// What is refused where a message is past its limit: what the repository refuses of the set comes before that.
fn refused_message<D: Disk + Drop>(
    alloc: Global,
    store: &mut RepoStore<D>,
    set: ChangeSet,
    moment: Moment,
) -> Refusal
    ensures due { RefusesMessage set moment store.old store.new result }
    ensures same { repository_of store.new ≡ repository_of store.old }
    ensures device { (entry : EntryOf) → IsSafe store.old → ServesOne entry store.old store.new (Err result) }
    ensures no_peer { result ≡ Refusal.PeerFailed → ⊥ }
{
    let head = store.repo().head();
    match store.stage_commit(alloc, head, set, Props::empty(), Some(moment)) {
        Ok(_staged) => Refusal::TooLong,
        Err(fault) => store_refusal(fault),
    }
}

// Commits a directory at a path, and says so.
fn commit_directory<D: Disk + Drop, O: Output>(
    alloc: Global,
    store: &mut RepoStore<D>,
    path: NodePath,
    message: &str,
    moment: Moment,
    output: &mut O,
) -> Result<(), Refusal>
    ensures ok { OnOk result
        (IfSpelled store.old path (λ bytes. CommitsDirectory O.Output bytes message.now moment store.old output.old
        store.new output.new)) }
    ensures refused { IfErr result
        (λ e. IfSpelled store.old path (λ bytes. RefusesDirectory O.Output bytes message.now moment store.old
        output.old store.new output.new e)) }
    ensures device { IsSafe store.old → ServesDirectory path message.now moment store.old store.new result }
    ensures peer { TellsFailure O.failures output.old output.new result }
{
    let set = one_directory(alloc, path)?;
    if message.len() > PROP_VALUE_BYTES {
        return Err(refused_message(alloc, store, set, moment));
    }
    let Ok(props) = logged(alloc, message) else {
        return Err(Refusal::OutOfMemory);
    };
    let Ok(line) = committed_line(alloc, store.repo().trees().len()) else {
        return Err(Refusal::OutOfMemory);
    };
    commit(alloc, store, set, props, Some(moment))?;
    say(output, &line)
}

/// Commits one directory, with a message as `svn:log` and a moment as `svn:date`, and says so in a line.
///
/// Refused are a mirror (24), then a path outside the limits (8) or the rule (10), then what the repository doesn't
/// take: a revision after the last that can be (23), the root (10), a path that the tree doesn't take (11, 12, 13), and
/// last a message past 65,536 bytes (8). The store's own are 31, 32, 36 and 70. All these leave the repository and the
/// writer as they were. A line that can't be written is PeerFailed (49), and the directory stays.
pub fn run_mkdir<D: Disk + Drop, O: Output>(
    alloc: Global,
    store: &mut RepoStore<D>,
    path: &str,
    message: &str,
    moment: Moment,
    output: &mut O,
) -> Result<(), Refusal>
    ensures ok { OnOk result (CommitsDirectory O.Output path.now message.now moment store.old output.old store.new
        output.new) }
    ensures refused { IfErr result (RefusesDirectory O.Output path.now message.now moment store.old output.old
        store.new output.new) }
    ensures mirror { IsMirror store.old → IsErrOf result Refusal.ReadOnly }
    ensures device { Serves store.old store.new result }
    ensures entry { (place : Path) → path_read path.now ≡ Ok place
        → ServesDirectory place message.now moment store.old store.new result }
    ensures durable { IfSound store.new (StopKeeps store.new) }
    ensures peer { TellsFailure O.failures output.old output.new result }
{
    refuse_mirror(store.repo())?;
    let place = path_of(alloc, path)?;
    commit_directory(alloc, store, place, message, moment, output)
}
