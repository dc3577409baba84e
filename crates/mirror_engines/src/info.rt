//! How a mirror stands.
ghost use Rattle.std.specs.Prelude.{◌≡◌, None, Some, IfOk, IfSome, IfErr, OnOk, OnErr};
ghost use Rattle.std.specs.Option.{option_copied};
ghost use Rattle.fleet_engines.specs.Streams.{FailedIn, OnlyPeerFails, TellsFailure, Writes};
ghost use Rattle.mirror_engines.specs.Infos.{info_fault, info_line, info_text, merged_digits, spells_number};
ghost use Rattle.mirror_engines.specs.Infos.{unmerged, valued, zero_props, IsTold, IsUntold, RefusesInfo};

use byte_streams::Output;
use fleet_disk::Disk;
use fleet_engines::write_parts;
use node_base::{Props, Refusal, RevNo, ToldNumber};
use repo_store::RepoStore;
use std::alloc::{AllocError, Global};
use sync_core::properties::{MERGED, merged, url, uuid};
use sync_core::{Number, look, own_of, told_of};

/// Prints where a mirror is copied from, which repository that is, and the last revision that is copied whole.
/// Nothing is printed where the repository is no mirror (NotInitialised, 51), or what is merged is absent or misspelt
/// (Inconsistent, 57); OutOfMemory (70) comes where there is no room to tell that, and only there. PeerFailed (49)
/// where the writer failed, and only there.
pub fn run_info<D: Disk + Drop, O: Output>(
    alloc: Global,
    store: &RepoStore<D>,
    output: &mut O,
) -> Result<(), Refusal>
    ensures fine { OnOk result (IsTold store.now) }
    ensures ok { OnOk result (Writes O.contents output.old output.new (info_text (zero_props store.now))) }
    ensures refused { IfErr result (RefusesInfo O.Output store.now output.old output.new) }
    ensures peer { TellsFailure O.failures output.old output.new result }
{
    let repo = store.repo();
    let own = own_of(repo);
    match fault_of(alloc, own, repo.head()) {
        Some(refusal) => Err(refusal),
        None => write_all(own, output),
    }
}

// Why nothing is told of a mirror: it isn't initialized, or what is merged is absent or misspelt. OutOfMemory where
// there is no room for what is told of it.
fn fault_of(alloc: Global, own: &Props, head: RevNo) -> Option<Refusal>
    ensures fine { result ≡ None → info_fault own.now head ≡ None }
    ensures refused { IfSome result (IsUntold own.now head) }
    ensures no_peer { result ≡ Some Refusal.PeerFailed → ⊥ }
{
    if url(own).is_none() {
        return Some(Refusal::NotInitialised);
    }
    if spells_number(merged(own)) {
        return None;
    }
    match inconsistent(alloc, own, head) {
        Ok(refusal) => Some(refusal),
        Err(_) => Some(Refusal::OutOfMemory),
    }
}

// What is told where the number that is merged is absent or misspelt.
fn inconsistent(alloc: Global, own: &Props, head: RevNo) -> Result<Refusal, AllocError>
    ensures { IfOk result (λ r. r ≡ unmerged own.now head) }
{
    let standing = look(alloc, own, head)?;
    Ok(Refusal::Inconsistent {
        merged: ToldNumber::Missing,
        copying: told_of(standing.copying, standing.copying_text),
        head,
    })
}

// Whether a property spells a number, of whatever size.
fn spells_number(number: Number) -> bool
    ensures { result ≡ spells_number number }
{
    match number {
        Number::Spelt(_) | Number::Huge => true,
        Number::Absent | Number::Misspelt => false,
    }
}

// The digits of the last revision that is copied whole, where its property spells a number.
fn merged_digits(own: &Props) -> Option<&[u8]>
    ensures { option_copied result ≡ merged_digits own.now }
{
    if spells_number(merged(own)) {
        own.get(MERGED)
    } else {
        None
    }
}

fn write_all<O: Output>(own: &Props, output: &mut O) -> Result<(), Refusal>
    ensures ok { OnOk result (Writes O.contents output.old output.new (info_text own.now)) }
    ensures only_peer { OnlyPeerFails result }
    ensures failed { OnErr result (FailedIn O.failures output.old output.new) }
    ensures peer { TellsFailure O.failures output.old output.new result }
{
    write_line("Source URL: ", url(own), output)?;
    write_line("Source Repository UUID: ", uuid(own), output)?;
    write_line("Last Merged Revision: ", merged_digits(own), output)
}

// A line of a label and a value, which is empty where there is none.
fn write_line<O: Output>(label: &str, value: Option<&[u8]>, output: &mut O) -> Result<(), Refusal>
    ensures ok { OnOk result
        (Writes O.contents output.old output.new (info_line label.now (valued (option_copied value.entry)))) }
    ensures only_peer { OnlyPeerFails result }
    ensures failed { OnErr result (FailedIn O.failures output.old output.new) }
    ensures peer { TellsFailure O.failures output.old output.new result }
{
    match value {
        Some(value) => write_parts(output, label.as_bytes(), value, b"\n"),
        None => write_parts(output, label.as_bytes(), b"", b"\n"),
    }
}
