//! Whether a repository is a mirror.
ghost use Rattle.std.specs.Prelude.{◌≡◌, true, false, IfErr, OnOk};
ghost use Rattle.store_engines.specs.Mirrors.{is_mirror};

use node_base::{Refusal, RevNo};
use repo_core::Repo;

/// Whether it is a mirror: revision 0 names the source that it is synchronised from.
pub fn is_mirror(repo: &Repo) -> bool
    ensures { result ≡ is_mirror repo.now.revisions }
{
    match repo.props(RevNo::ZERO) {
        Some(props) => props.contains(b"svn:sync-from-url"),
        None => false,
    }
}

/// A mirror takes changes from its synchronisation alone: ReadOnly (24).
pub fn refuse_mirror(repo: &Repo) -> Result<(), Refusal>
    ensures ok { OnOk result (is_mirror repo.now.revisions ≡ false) }
    ensures refused { IfErr result (λ e. (e ≡ Refusal.ReadOnly) × (is_mirror repo.now.revisions ≡ true)) }
{
    if is_mirror(repo) {
        return Err(Refusal::ReadOnly);
    }
    Ok(())
}
