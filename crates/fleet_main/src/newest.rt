//! The newest revision of a repository.
ghost use Rattle.std.specs.Prelude.{◌≡◌, IfErr, OnOk, OnErr};
ghost use Rattle.std.specs.Io.KnownBytes.{Appends};
ghost use Rattle.byte_streams.specs.Causes.{Rose};
ghost use Rattle.fleet_engines.specs.Runs.{Counted};
ghost use Rattle.repo_store.specs.Words.{revisions_of};
ghost use Rattle.fleet_main.specs.Doing.{head_line};

use byte_streams::Output;
use fleet_disk::Disk;
use fleet_engines::write_count;
use node_base::Refusal;
use repo_store::RepoStore;

/// Prints the number of the newest revision, in a line. PeerFailed (49) where the writer failed, and only there; it takes
/// no memory.
pub(crate) fn run_head<D: Disk + Drop, O: Output>(
    store: &RepoStore<D>,
    output: &mut O,
) -> Result<(), Refusal>
    ensures ok { OnOk result (Appends (O.contents output.old) (O.contents output.new)
        (head_line (revisions_of store.now))) }
    ensures peer { Counted result (O.failures output.old) (O.failures output.new) }
    ensures failed { OnErr result (Rose (O.failures output.old) (O.failures output.new)) }
    ensures only_peer { IfErr result (λ e. e ≡ Refusal.PeerFailed) }
{
    let head = store.repo().head();
    write_count(output, b"", u64::from(head.get()), b"\n")
}
