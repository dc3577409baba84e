//! Who is told of what a load has loaded.
ghost use Rattle.std.specs.Prelude.{◌≡◌, ◌<◌, ◌⊎◌, ℕ, List, Option, length, OnOk, OnErr};
ghost use Rattle.repo_store.specs.Words.{revisions_of, IsHonest, StopKeeps};
ghost use Rattle.fleet_engines.specs.Streams.{FailedIn, OnlyPeerFails, TellsFailure, Writes};
ghost use Rattle.store_engines.specs.Loads.{loaded_line};
ghost use Rattle.store_engines.specs.Telling.{Telling, telling};

use crate::lines::say_loaded;
use byte_streams::Output;
use fleet_disk::Disk;
use node_base::{Refusal, RevNo};
use repo_store::RepoStore;

/// Who is told of each revision that a load has loaded.
///
/// He can be told of none before it stands: who tells has to show that the store has it, and that whatever a stop leaves
/// on the disk from then on keeps the store's repository. An output is told in lines.
pub trait LoadReport {
    /// What was written of what he was told, where that is known.
    ghost contents: { Self → Option (List ℕ) };

    /// How often telling him failed.
    ghost failures: { Self → ℕ };

    /// What he was told of, with the disk's clock at that moment, as far as he knows it: of one who notes it all.
    ghost told: { Self → Telling → Type 0 };

    /// Tells of a revision that stands in a store. PeerFailed (49) where that failed, and only there.
    fn loaded<D: Disk + Drop>(&mut self, store: &RepoStore<D>, number: RevNo) -> Result<(), Refusal>
        requires there { number < length (revisions_of store.now) }
        requires stands { IsHonest store.now → StopKeeps store.now }
        ensures nothing_else { (t : Telling) → told self.new t → told self.old t ⊎ (t ≡ telling store.now number) }
        ensures ok { OnOk result (Writes contents self.old self.new (loaded_line number)) }
        ensures peer { TellsFailure failures self.old self.new result }
        ensures failed { OnErr result (FailedIn failures self.old self.new) }
        ensures only_peer { OnlyPeerFails result };
}

impl<O: Output> LoadReport for O {
    ghost contents = { λ output. O.contents output };

    ghost failures = { λ output. O.failures output };

    ghost told = { λ output t. ⊥ };

    fn loaded<D: Disk + Drop>(
        &mut self,
        _store: &RepoStore<D>,
        number: RevNo,
    ) -> Result<(), Refusal> {
        say_loaded(self, number)
    }
}
