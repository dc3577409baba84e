//! `dump` over any disk and output.
ghost use Rattle.std.specs.Prelude.{◌≡◌, ◌<◌, ◌≤◌, ◌+◌, ◌-◌, length};
ghost use Rattle.std.specs.Prelude.{Some, IfOk, IfErr, OnOk};
ghost use Rattle.dump_text.specs.Canon.{canon_head};
ghost use Rattle.repo_store.specs.Journal.{spelling};
ghost use Rattle.repo_store.specs.Words.{repository_of, revisions_of};
ghost use Rattle.fleet_engines.specs.Streams.{TellsFailure, Writes};
ghost use Rattle.store_engines.specs.Dumps.{revision_now, revisions_text, wanted_dump, HasWanted, IsWriterFault};
ghost use Rattle.store_engines.specs.Dumps.{StopsDump, WritesFewer, CantWriteOne};
ghost use Rattle.store_engines.specs.Ranges.{first_wanted, last_wanted};

use crate::RevRange;
use byte_streams::Output;
use fleet_disk::Disk;
use fleet_engines::{write, write_parts};
use node_base::{Refusal, RevNo};
use repo_core::Repo;
use repo_store::{RepoStore, store_refusal};
use std::alloc::Global;
use uuid::Uuid;

// The revisions to be written: those that are asked for, and else all. NoSuchRevision (21) above the head.
fn wanted(repo: &Repo, range: &Option<RevRange>) -> Result<(RevNo, RevNo), Refusal>
    ensures first { IfOk result (λ w. w.0 ≡ first_wanted range.now) }
    ensures last { IfOk result (λ w. w.1 ≡ last_wanted repo.now range.now) }
    ensures there { OnOk result (HasWanted repo.now range.now) }
    ensures above { IfErr result (λ e. (e ≡ Refusal.NoSuchRevision)
        × (length repo.now.revisions ≤ last_wanted repo.now range.now)) }
{
    let head = repo.head();
    match range {
        Some(range) => {
            if range.last() > head {
                return Err(Refusal::NoSuchRevision);
            }
            Ok((range.first(), range.last()))
        }
        None => Ok((RevNo::ZERO, head)),
    }
}

// Writes a text.
fn write_text<O: Output>(text: &[u8], output: &mut O) -> Result<(), Refusal>
    ensures ok { OnOk result (Writes O.contents output.old output.new text.now) }
    ensures refused { IfErr result (IsWriterFault O.Output output.old output.new) }
    ensures peer { TellsFailure O.failures output.old output.new result }
{
    write(output, text)
}

// Writes the head with the identity. It takes no memory.
fn write_head<O: Output>(identity: &Uuid, output: &mut O) -> Result<(), Refusal>
    ensures ok { OnOk result (Writes O.contents output.old output.new (canon_head (Some identity.now))) }
    ensures refused { IfErr result (IsWriterFault O.Output output.old output.new) }
    ensures peer { TellsFailure O.failures output.old output.new result }
{
    let mut buffer = Uuid::encode_buffer();
    let text = identity.hyphenated().encode_lower(&mut buffer);
    write_parts(
        output,
        b"SVN-fs-dump-format-version: 2\n\nUUID: ",
        text.as_bytes(),
        b"\n\n",
    )
}

// Writes one revision as it is now.
fn write_one<D: Disk + Drop, O: Output>(
    alloc: Global,
    store: &RepoStore<D>,
    number: RevNo,
    output: &mut O,
) -> Result<(), Refusal>
    requires there { number < length (revisions_of store.now) }
    ensures ok { OnOk result
        (Writes O.contents output.old output.new (spelling (revision_now (repository_of store.now) number))) }
    ensures refused { IfErr result (CantWriteOne O.Output output.old output.new) }
    ensures peer { TellsFailure O.failures output.old output.new result }
{
    match store.export(alloc, number) {
        Ok(text) => write_text(&text, output),
        Err(fault) => Err(store_refusal(fault)),
    }
}

// Writes the revisions from one to another.
fn write_all<D: Disk + Drop, O: Output>(
    alloc: Global,
    store: &RepoStore<D>,
    first: RevNo,
    last: RevNo,
    output: &mut O,
) -> Result<(), Refusal>
    requires there { last < length (revisions_of store.now) }
    ensures ok { OnOk result
        (Writes O.contents output.old output.new
        (revisions_text (repository_of store.now) first (last + 1 - first))) }
    ensures refused { IfErr result (WritesFewer O.Output (repository_of store.now) first (last + 1 - first) output.old
        output.new) }
    ensures peer { TellsFailure O.failures output.old output.new result }
{
    for number in first.index()..last.index() + 1 {
        write_one(alloc, store, RevNo::new(number as u16), output)?;
    }
    Ok(())
}

/// Writes a dump: the head with the identity, and the revisions of a range, or all where none is given, each as it is
/// now and by its changes alone (as `svnadmin dump --incremental` does). NoSuchRevision (21) above the head, before
/// anything is written; OutOfMemory (70) leaves the revisions before the one at which it came, and PeerFailed (49),
/// where the writer failed, what the writer has.
pub fn run_dump<D: Disk + Drop, O: Output>(
    alloc: Global,
    store: &RepoStore<D>,
    range: Option<RevRange>,
    output: &mut O,
) -> Result<(), Refusal>
    ensures ok { OnOk result (Writes O.contents output.old output.new (wanted_dump (repository_of store.now) range)) }
    ensures there { OnOk result (HasWanted (repository_of store.now) range) }
    ensures refused { IfErr result (StopsDump O.Output (repository_of store.now) range output.old output.new) }
    ensures peer { TellsFailure O.failures output.old output.new result }
{
    let (first, last) = wanted(store.repo(), &range)?;
    write_head(&store.repo().identity(), output)?;
    write_all(alloc, store, first, last, output)
}
